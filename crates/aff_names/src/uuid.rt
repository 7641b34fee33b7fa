//! A UUID.
ghost use Rattle.std.specs.Prelude.{◌≡◌, true, IfSome, is_some};
ghost use Rattle.aff_spec.specs.Words.{is_hex, fits_uuid, is_uuid};

use percent_encoding::ascii_str;
use std::marker::Model;

/// Bytes of a UUID's text.
const LENGTH: usize = 36;

/// A UUID, as its text spells it: 8, 4, 4, 4 and 12 hexadecimal digits of either case with `-` between. The case
/// is kept.
#[derive(Drop)]
pub struct Uuid {
    text: [u8; LENGTH],
}

impl Model for Uuid {
    ghost use Rattle.std.specs.Prelude.{◌≡◌, ℕ, List, true};
    ghost use Rattle.aff_spec.specs.Words.{is_uuid};

    ghost Value = { List ℕ };

    ghost view = { λ uuid. uuid.text };

    ghost invariant = { λ uuid. is_uuid uuid.text ≡ true };
}

impl Uuid {
    /// Reads a UUID, which is the whole text. It takes no memory.
    pub fn read(text: &str) -> Option<Uuid>
        ensures text { IfSome result (λ uuid. uuid ≡ text.now) }
        ensures some { is_some result ≡ is_uuid text.now }
    {
        let bytes = text.as_bytes();
        if !is_uuid_text(bytes) {
            return None;
        }
        let mut text = [0; LENGTH];
        text.copy_from_slice(bytes);
        Some(Uuid { text })
    }

    /// The text as it was read.
    pub fn text(&self) -> &str
        ensures text { result.now ≡ self.now }
        ensures uuid { is_uuid self.now ≡ true }
    {
        ascii_str(&self.text)
    }
}

fn is_hex_digit(b: u8) -> bool
    ensures { result ≡ is_hex b }
{
    matches!(b, b'0'..=b'9' | b'A'..=b'F' | b'a'..=b'f')
}

// Whether a byte may stand at a place of a UUID.
fn may_stand(k: usize, b: u8) -> bool
    ensures { result ≡ fits_uuid k b }
{
    if k == 8 || k == 13 || k == 18 || k == 23 {
        b == b'-'
    } else {
        is_hex_digit(b)
    }
}

fn is_uuid_text(text: &[u8]) -> bool
    ensures { result ≡ is_uuid text.now }
{
    for (k, b) in text.iter().enumerate() {
        if !may_stand(k, *b) {
            return false;
        }
    }
    text.len() == LENGTH
}
