//! The values of statements.
ghost use Rattle.std.specs.Prelude.{◌≡◌, IfOk};
ghost use Rattle.std.specs.String.{string_bytes};
ghost use Rattle.std.specs.Fmt.{decimal};
ghost use Rattle.aff_turtle.specs.Objects.{term_of};
ghost use Rattle.aff_info.specs.Values.{is_number_type, number_in, stated_number, gap_of, digest_value};

use crate::fits::is_text;
use crate::schema::{
    UNKNOWN, UNREADABLE, XSD_INT, XSD_INTEGER, XSD_LONG, XSD_STRING, XSD_UNSIGNED_LONG, ZERO,
};
use aff_map::Target;
use aff_turtle::Object;
use hex::FromHex;
use std::alloc::{AllocError, Global};

/// The number that a literal states: in decimal, without a sign or leading zeros.
pub fn number(alloc: Global, object: &Object) -> Result<Option<u64>, AllocError>
    ensures { IfOk result (λ n. n ≡ stated_number (term_of object.now)) }
{
    match object {
        Object::Iri(_) => Ok(None),
        Object::Literal { text, datatype, .. } => {
            if is_number_type(datatype.as_str()) {
                number_in(alloc, text.as_str())
            } else {
                Ok(None)
            }
        }
    }
}

fn is_number_type(datatype: &str) -> bool
    ensures { result ≡ is_number_type datatype.now }
{
    is_text(datatype, XSD_INT)
        || is_text(datatype, XSD_INTEGER)
        || is_text(datatype, XSD_LONG)
        || is_text(datatype, XSD_UNSIGNED_LONG)
        || is_text(datatype, XSD_STRING)
}

// The number that is written so.
#[tactic(auto, unfolding(crate::specs::Values::number_in))]
fn number_in(alloc: Global, text: &str) -> Result<Option<u64>, AllocError>
    ensures { IfOk result (λ n. n ≡ number_in text.now) }
{
    match text.parse::<u64>() {
        Ok(n) => {
            let spelled = spelled(alloc, n)?;
            if is_text(spelled.as_str(), text) {
                Ok(Some(n))
            } else {
                Ok(None)
            }
        }
        Err(_) => Ok(None),
    }
}

/// A number in decimal.
pub fn spelled(alloc: Global, n: u64) -> Result<String, AllocError>
    ensures { IfOk result (λ text. string_bytes text ≡ decimal n) }
{
    format!(in alloc; "{n}")
}

/// The gap that an object names.
pub fn gap(object: &Object) -> Option<Target>
    ensures { result ≡ gap_of (term_of object.now) }
{
    match object {
        Object::Iri(iri) => {
            let iri = iri.as_str();
            if is_text(iri, ZERO) {
                Some(Target::Zero)
            } else if is_text(iri, UNKNOWN) {
                Some(Target::Unknown)
            } else if is_text(iri, UNREADABLE) {
                Some(Target::Unreadable)
            } else {
                None
            }
        }
        Object::Literal { .. } => None,
    }
}

/// The digest of 16 bytes that a literal states, in hexadecimal digits of either case.
pub fn md5(object: &Object) -> Option<[u8; 16]>
    ensures { result ≡ digest_value 16 (term_of object.now) }
{
    match object {
        Object::Iri(_) => None,
        Object::Literal { text, .. } => <[u8; 16] as FromHex>::from_hex(text.as_str()).ok(),
    }
}

/// The digest of 20 bytes that a literal states, in hexadecimal digits of either case.
pub fn sha1(object: &Object) -> Option<[u8; 20]>
    ensures { result ≡ digest_value 20 (term_of object.now) }
{
    match object {
        Object::Iri(_) => None,
        Object::Literal { text, .. } => <[u8; 20] as FromHex>::from_hex(text.as_str()).ok(),
    }
}

/// The digest of 32 bytes that a literal states, in hexadecimal digits of either case.
pub fn sha256(object: &Object) -> Option<[u8; 32]>
    ensures { result ≡ digest_value 32 (term_of object.now) }
{
    match object {
        Object::Iri(_) => None,
        Object::Literal { text, .. } => <[u8; 32] as FromHex>::from_hex(text.as_str()).ok(),
    }
}

/// The digest of 64 bytes that a literal states, in hexadecimal digits of either case.
pub fn sha512(object: &Object) -> Option<[u8; 64]>
    ensures { result ≡ digest_value 64 (term_of object.now) }
{
    match object {
        Object::Iri(_) => None,
        Object::Literal { text, .. } => <[u8; 64] as FromHex>::from_hex(text.as_str()).ok(),
    }
}
