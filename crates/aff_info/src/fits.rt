//! Which triples are statements of a name.
ghost use Rattle.std.specs.Prelude.{◌≡◌, Option};
ghost use Rattle.std.specs.Str.{bytes_eq};
ghost use Rattle.aff_turtle.specs.Objects.{term_of};
ghost use Rattle.aff_info.specs.Table.{is_resource, has_type, is_literal, is_about, fits_object, fits_subject, fits, same_term, same};

use crate::InfoName;
use crate::draft::PartialInfo;
use crate::name::predicate;
use crate::schema::{IMAGE_STREAM, MAP, MD5, SHA1, SHA256, SHA512};
use aff_names::Urn;
use aff_turtle::{Object, Triple};

/// Whether a triple is a statement of a name.
#[tactic(auto, unfolding(crate::specs::Table::fits))]
pub fn fits(name: InfoName, draft: &PartialInfo, triple: &Triple) -> bool
    ensures { result ≡ fits name draft.now triple.now }
{
    is_text(triple.predicate.as_str(), predicate(name))
        && fits_object(name, &triple.object)
        && fits_subject(name, draft, triple.subject.as_str())
}

// Of the statements with one predicate some are told apart by their objects.
fn fits_object(name: InfoName, object: &Object) -> bool
    ensures { result ≡ fits_object name (term_of object.now) }
{
    match name {
        InfoName::Stream => is_resource(object, IMAGE_STREAM),
        InfoName::Image => is_resource(object, MAP),
        InfoName::Md5 => has_type(object, MD5),
        InfoName::Sha1 => has_type(object, SHA1),
        InfoName::Sha256 => has_type(object, SHA256),
        InfoName::Sha512 => has_type(object, SHA512),
        _ => true,
    }
}

// All statements but the two first speak of the stream or the image that those tell.
fn fits_subject(name: InfoName, draft: &PartialInfo, subject: &str) -> bool
    ensures { result ≡ fits_subject name draft.now subject.now }
{
    match name {
        InfoName::Stream | InfoName::Image => true,
        InfoName::StreamSize
        | InfoName::ChunkSize
        | InfoName::ChunksInSegment
        | InfoName::Method
        | InfoName::StreamStored => is_about(&draft.stream, subject),
        _ => is_about(&draft.image, subject),
    }
}

/// Whether a text is that URN.
pub fn is_about(urn: &Option<Urn>, text: &str) -> bool
    ensures { result ≡ is_about urn.now text.now }
{
    match urn {
        Some(urn) => is_text(urn.text(), text),
        None => false,
    }
}

/// Whether an object is this IRI.
pub fn is_resource(object: &Object, expected: &str) -> bool
    ensures { result ≡ is_resource (term_of object.now) expected.now }
{
    match object {
        Object::Iri(iri) => is_text(iri.as_str(), expected),
        Object::Literal { .. } => false,
    }
}

/// Whether an object is a literal of this datatype.
pub fn has_type(object: &Object, expected: &str) -> bool
    ensures { result ≡ has_type (term_of object.now) expected.now }
{
    match object {
        Object::Iri(_) => false,
        Object::Literal { datatype, .. } => is_text(datatype.as_str(), expected),
    }
}

/// Whether two triples say the same.
pub fn same(a: &Triple, b: &Triple) -> bool
    ensures { result ≡ same a.now b.now }
{
    is_text(a.subject.as_str(), b.subject.as_str())
        && is_text(a.predicate.as_str(), b.predicate.as_str())
        && same_object(&a.object, &b.object)
}

fn same_object(a: &Object, b: &Object) -> bool
    ensures { result ≡ same_term (term_of a.now) (term_of b.now) }
{
    match a {
        Object::Iri(iri) => is_resource(b, iri.as_str()),
        Object::Literal {
            text,
            datatype,
            lang,
        } => is_literal(b, text.as_str(), datatype.as_str(), lang.as_str()),
    }
}

fn is_literal(object: &Object, t: &str, d: &str, l: &str) -> bool
    ensures { result ≡ is_literal (term_of object.now) t.now d.now l.now }
{
    match object {
        Object::Iri(_) => false,
        Object::Literal {
            text,
            datatype,
            lang,
        } => {
            is_text(text.as_str(), t) && is_text(datatype.as_str(), d) && is_text(lang.as_str(), l)
        }
    }
}

/// Whether two texts are the same.
pub fn is_text(a: &str, b: &str) -> bool
    ensures { result ≡ bytes_eq a.now b.now }
{
    a == b
}
