//! Texts are cut at a byte.
ghost use Rattle.std.specs.Prelude.{◌≡◌, ◌==◌, ◌<◌, ◌∷◌, length, position, IfSome};
ghost use Rattle.std.specs.List.{slice_split};
ghost use Rattle.aff_plan.specs.Reading.{parts_behind};

fn place_of(bytes: &[u8], byte: u8) -> Option<usize>
    ensures value { result ≡ position (λ b. b == byte) bytes.now }
    ensures inside { IfSome result (λ k. k < length bytes.now) }
{
    bytes.iter().position(|b| *b == byte)
}

/// The bytes before the first place of a byte, and those behind it, if it is there.
pub fn cut_at(bytes: &[u8], byte: u8) -> (&[u8], Option<&[u8]>)
    ensures parts { slice_split (λ b. b == byte) bytes.now ≡ result.0.now ∷ parts_behind byte result.1 }
    ensures shorter { IfSome result.1 (λ rest. length rest.now < length bytes.now) }
{
    match place_of(bytes, byte) {
        Some(place) => (&bytes[..place], Some(&bytes[place + 1..])),
        None => (bytes, None),
    }
}
