//! Hexadecimal numbers.
ghost use Rattle.std.specs.Prelude.{◌≡◌, ◌≤◌, length, IfSome};
ghost use Rattle.aff_turtle.specs.Quoted.{hex_number};

/// The number that so many hexadecimal digits at the front make.
pub fn hex_number(digits: usize, chars: &[char]) -> Option<u32>
    requires { digits ≤ 8 }
    ensures value { result ≡ hex_number digits 0 chars.now }
    ensures inside { IfSome result (λ _. digits ≤ length chars.now) }
{
    let mut number: u32 = 0;
    for place in 0..digits {
        if chars.len() <= place {
            return None;
        }
        match chars[place].to_digit(16) {
            Some(digit) => number = 16 * number + digit,
            None => return None,
        }
    }
    Some(number)
}
