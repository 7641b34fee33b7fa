//! What a statement adds to what is known.
ghost use Rattle.std.specs.Prelude.{◌≡◌};
ghost use Rattle.aff_turtle.specs.Objects.{term_of};
ghost use Rattle.aff_info.specs.Accept.{accepted, urn_in, urn_named, size_of, needs_number, needs_urn, needs_method};
ghost use Rattle.aff_info.specs.Faults.{Gives, Tells, error_of};

use crate::draft::PartialInfo;
use crate::fits::{has_type, is_about, is_resource};
use crate::schema::{NULL_COMPRESSOR, SHA512};
use crate::value::{gap, md5, number, sha1, sha256, sha512};
use crate::{InfoError, InfoName};
use aff_model::{BEVVY, CHUNK, MAX_SIZE};
use aff_names::{NameError, Urn};
use aff_turtle::{Object, Triple};
use std::alloc::Global;

/// Adds what the one statement of a name says, if it may say so.
#[tactic(auto, using(crate::proofs::Given::tells_same))]
pub fn accept(
    alloc: Global,
    name: InfoName,
    triple: &Triple,
    draft: &mut PartialInfo,
) -> Result<(), InfoError>
    ensures { Tells (accepted name triple.now draft.old) result draft.new }
{
    match name {
        InfoName::Stream => keep_stream(alloc, triple, draft),
        InfoName::Image => keep_image(alloc, triple, draft),
        InfoName::StreamSize => keep_stream_size(alloc, triple, draft),
        InfoName::ImageSize => keep_image_size(alloc, triple, draft),
        InfoName::ChunkSize => is_number(alloc, name, &triple.object, CHUNK),
        InfoName::ChunksInSegment => is_number(alloc, name, &triple.object, BEVVY),
        InfoName::Method => check_method(alloc, &triple.object),
        InfoName::StreamStored => keep_volume(alloc, triple, draft),
        InfoName::ImageStored => is_urn(name, &draft.volume, &triple.object),
        InfoName::Dependent => is_urn(name, &draft.stream, &triple.object),
        InfoName::Gap => keep_gap(triple, draft),
        InfoName::Md5 => keep_md5(triple, draft),
        InfoName::Sha1 => keep_sha1(triple, draft),
        InfoName::Sha256 => keep_sha256(triple, draft),
        InfoName::Sha512 => keep_sha512(triple, draft),
        InfoName::BlockMap => keep_block_map(triple, draft),
    }
}

#[tactic(auto, using(crate::proofs::Given::fails_then))]
fn keep_stream(alloc: Global, triple: &Triple, draft: &mut PartialInfo) -> Result<(), InfoError>
    ensures { Tells (accepted InfoName.Stream triple.now draft.old) result draft.new }
{
    let found = urn(alloc, InfoName::Stream, triple.subject.as_str())?;
    draft.stream = Some(found);
    Ok(())
}

#[tactic(auto, using(crate::proofs::Given::fails_then))]
fn keep_image(alloc: Global, triple: &Triple, draft: &mut PartialInfo) -> Result<(), InfoError>
    ensures { Tells (accepted InfoName.Image triple.now draft.old) result draft.new }
{
    let found = urn(alloc, InfoName::Image, triple.subject.as_str())?;
    draft.image = Some(found);
    Ok(())
}

#[tactic(auto, using(crate::proofs::Given::fails_then))]
fn keep_volume(alloc: Global, triple: &Triple, draft: &mut PartialInfo) -> Result<(), InfoError>
    ensures { Tells (accepted InfoName.StreamStored triple.now draft.old) result draft.new }
{
    let found = named_urn(alloc, InfoName::StreamStored, &triple.object)?;
    draft.volume = Some(found);
    Ok(())
}

#[tactic(auto, using(crate::proofs::Given::fails_then))]
fn keep_stream_size(
    alloc: Global,
    triple: &Triple,
    draft: &mut PartialInfo,
) -> Result<(), InfoError>
    ensures { Tells (accepted InfoName.StreamSize triple.now draft.old) result draft.new }
{
    let found = size(alloc, InfoName::StreamSize, &triple.object)?;
    draft.stream_size = found;
    Ok(())
}

#[tactic(auto, using(crate::proofs::Given::fails_then))]
fn keep_image_size(alloc: Global, triple: &Triple, draft: &mut PartialInfo) -> Result<(), InfoError>
    ensures { Tells (accepted InfoName.ImageSize triple.now draft.old) result draft.new }
{
    let found = size(alloc, InfoName::ImageSize, &triple.object)?;
    draft.image_size = found;
    Ok(())
}

fn keep_gap(triple: &Triple, draft: &mut PartialInfo) -> Result<(), InfoError>
    ensures { Tells (accepted InfoName.Gap triple.now draft.old) result draft.new }
{
    match gap(&triple.object) {
        Some(found) => {
            draft.gap = found;
            Ok(())
        }
        None => Err(InfoError::BadValue(InfoName::Gap)),
    }
}

fn keep_md5(triple: &Triple, draft: &mut PartialInfo) -> Result<(), InfoError>
    ensures { Tells (accepted InfoName.Md5 triple.now draft.old) result draft.new }
{
    match md5(&triple.object) {
        Some(found) => {
            draft.linear.md5 = found;
            Ok(())
        }
        None => Err(InfoError::BadValue(InfoName::Md5)),
    }
}

fn keep_sha1(triple: &Triple, draft: &mut PartialInfo) -> Result<(), InfoError>
    ensures { Tells (accepted InfoName.Sha1 triple.now draft.old) result draft.new }
{
    match sha1(&triple.object) {
        Some(found) => {
            draft.linear.sha1 = found;
            Ok(())
        }
        None => Err(InfoError::BadValue(InfoName::Sha1)),
    }
}

fn keep_sha256(triple: &Triple, draft: &mut PartialInfo) -> Result<(), InfoError>
    ensures { Tells (accepted InfoName.Sha256 triple.now draft.old) result draft.new }
{
    match sha256(&triple.object) {
        Some(found) => {
            draft.linear.sha256 = found;
            Ok(())
        }
        None => Err(InfoError::BadValue(InfoName::Sha256)),
    }
}

fn keep_sha512(triple: &Triple, draft: &mut PartialInfo) -> Result<(), InfoError>
    ensures { Tells (accepted InfoName.Sha512 triple.now draft.old) result draft.new }
{
    match sha512(&triple.object) {
        Some(found) => {
            draft.linear.sha512 = found;
            Ok(())
        }
        None => Err(InfoError::BadValue(InfoName::Sha512)),
    }
}

fn keep_block_map(triple: &Triple, draft: &mut PartialInfo) -> Result<(), InfoError>
    ensures { Tells (accepted InfoName.BlockMap triple.now draft.old) result draft.new }
{
    if !has_type(&triple.object, SHA512) {
        return Err(InfoError::BadValue(InfoName::BlockMap));
    }
    match sha512(&triple.object) {
        Some(found) => {
            draft.block_map = found;
            Ok(())
        }
        None => Err(InfoError::BadValue(InfoName::BlockMap)),
    }
}

// The URN that a text is.
fn urn(alloc: Global, name: InfoName, text: &str) -> Result<Urn, InfoError>
    ensures { Gives (urn_in name text.now) result }
{
    match Urn::read(alloc, text) {
        Ok(urn) => Ok(urn),
        Err(fault) => Err(error(name, fault)),
    }
}

// A text that is no URN is a bad value.
fn error(name: InfoName, fault: NameError) -> InfoError
    ensures { result ≡ error_of name fault }
{
    match fault {
        NameError::NoScheme | NameError::BadUuid(_) => InfoError::BadValue(name),
        NameError::Memory => InfoError::Memory,
    }
}

// The URN that an object names.
fn named_urn(alloc: Global, name: InfoName, object: &Object) -> Result<Urn, InfoError>
    ensures { Gives (urn_named name (term_of object.now)) result }
{
    match object {
        Object::Iri(iri) => urn(alloc, name, iri.as_str()),
        Object::Literal { .. } => Err(InfoError::BadValue(name)),
    }
}

// The size that an object states.
fn size(alloc: Global, name: InfoName, object: &Object) -> Result<u64, InfoError>
    ensures { Gives (size_of name (term_of object.now)) result }
{
    match number(alloc, object)? {
        Some(size) => {
            if size <= MAX_SIZE {
                Ok(size)
            } else {
                Err(InfoError::BadValue(name))
            }
        }
        None => Err(InfoError::BadValue(name)),
    }
}

// Whether an object states this number.
fn is_number(alloc: Global, name: InfoName, object: &Object, expected: u64) -> Result<(), InfoError>
    ensures { Gives (needs_number name expected (term_of object.now)) result }
{
    match number(alloc, object)? {
        Some(n) => {
            if n == expected {
                Ok(())
            } else {
                Err(InfoError::BadValue(name))
            }
        }
        None => Err(InfoError::BadValue(name)),
    }
}

// Whether an object is this URN.
fn is_urn(name: InfoName, urn: &Option<Urn>, object: &Object) -> Result<(), InfoError>
    ensures { Gives (needs_urn name urn.now (term_of object.now)) result }
{
    match object {
        Object::Iri(iri) => {
            if is_about(urn, iri.as_str()) {
                Ok(())
            } else {
                Err(InfoError::BadValue(name))
            }
        }
        Object::Literal { .. } => Err(InfoError::BadValue(name)),
    }
}

// Chunks are stored as they are.
fn check_method(alloc: Global, object: &Object) -> Result<(), InfoError>
    ensures { Gives (needs_method (term_of object.now)) result }
{
    match object {
        Object::Iri(iri) => {
            if is_resource(object, NULL_COMPRESSOR) {
                Ok(())
            } else {
                Err(InfoError::Method(String::from_str(alloc, iri.as_str())?))
            }
        }
        Object::Literal { .. } => Err(InfoError::BadValue(InfoName::Method)),
    }
}
