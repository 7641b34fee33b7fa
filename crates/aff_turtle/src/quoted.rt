//! Literals.
ghost use Rattle.std.specs.Prelude.{◌≡◌, ◌≤◌, ◌+◌, length, IfOk, IfSome, Option, Some, None};
ghost use Rattle.std.specs.Option.{option_map};
ghost use Rattle.aff_turtle.specs.Quoted.{named, hex_number, escaped, quoted};

use crate::class::{behind, is_line_end};
use crate::number::hex_number;
use std::alloc::{AllocError, Global};

/// The character that so many hexadecimal digits name, and how many characters spell it with the letter before them.
#[tactic(auto, using(crate::proofs::Scalars::scalars))]
fn named(digits: usize, chars: &[char]) -> Option<(char, usize)>
    requires { digits ≤ 8 }
    ensures value { result ≡ named digits (hex_number digits 0 chars.now) }
    ensures inside { IfSome result (λ found. found.1 ≤ length chars.now + 1) }
{
    match hex_number(digits, chars) {
        Some(number) => match char::from_u32(number) {
            Some(c) => Some((c, digits + 1)),
            None => None,
        },
        None => None,
    }
}

/// What the characters behind a backslash name, and how many of them do.
#[tactic(auto, unfolding(crate::specs::Quoted::escaped))]
fn escaped(chars: &[char]) -> Option<(char, usize)>
    ensures value { result ≡ escaped chars.now }
    ensures inside { IfSome result (λ found. found.1 ≤ length chars.now) }
{
    match chars {
        [] => None,
        ['u', digits @ ..] => named(4, digits),
        ['U', digits @ ..] => named(8, digits),
        ['t', ..] => Some(('\t', 1)),
        ['b', ..] => Some(('\u{8}', 1)),
        ['n', ..] => Some(('\n', 1)),
        ['r', ..] => Some(('\r', 1)),
        ['f', ..] => Some(('\u{c}', 1)),
        [c, ..] => if *c == '"' || *c == '\'' || *c == '\\' {
            Some((*c, 1))
        } else {
            None
        },
    }
}

/// The text before the closing quote, and how many characters spell it with that quote.
pub fn quoted(
    alloc: Global,
    quote: char,
    chars: &[char],
) -> Result<Option<(Vec<char>, usize)>, AllocError>
    ensures value { IfOk result (λ o. option_map (λ body. (body.0.items, body.1)) o ≡ quoted quote 0 chars.now) }
    ensures inside { IfOk result (λ o. IfSome o (λ body. body.1 ≤ length chars.now)) }
{
    let mut text = Vec::new(alloc);
    let mut at = 0;
    while at < chars.len() {
        let c = chars[at];
        if c == quote {
            return Ok(Some((text, at + 1)));
        }
        if c == '\\' {
            match escaped(behind(chars, at + 1)) {
                Some((named, taken)) => {
                    text.push(named)?;
                    at += 1 + taken;
                }
                None => return Ok(None),
            }
        } else if is_line_end(c) {
            return Ok(None);
        } else {
            text.push(c)?;
            at += 1;
        }
    }
    Ok(None)
}
