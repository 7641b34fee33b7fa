//! Stating metadata.
ghost use Rattle.std.specs.Prelude.{◌≡◌, ◌≢◌, ◌≤◌, ◌++◌, IfOk, OnOk};
ghost use Rattle.std.specs.String.{string_bytes};
ghost use Rattle.std.specs.Fmt.{decimal};
ghost use Rattle.hex.specs.Hex.{encode_lower};
ghost use Rattle.aff_turtle.specs.Triples.{Resource};
ghost use Rattle.aff_turtle.specs.Objects.{term_of};
ghost use Rattle.aff_info.specs.Writing.{row, plain, stream_facts, image_facts, hash_facts, facts_of};

use crate::name::predicate;
use crate::schema::{
    IMAGE_STREAM, MAP, MD5, NULL_COMPRESSOR, SHA1, SHA256, SHA512, UNKNOWN, XSD_INT, XSD_LONG,
};
use crate::value::spelled;
use crate::{Info, InfoName};
use aff_map::Target;
use aff_model::{BEVVY, CHUNK, MAX_SIZE, Memory};
use aff_turtle::{Object, Triple};
use std::alloc::{AllocError, Global};

/// The sixteen statements of metadata, in the order of `InfoName`.
pub fn to_triples(alloc: Global, info: &Info) -> Result<Vec<Triple>, Memory>
    requires two { info.now.stream ≢ info.now.image }
    requires stream_fits { info.now.stream_size ≤ MAX_SIZE }
    requires image_fits { info.now.image_size ≤ MAX_SIZE }
    requires gap { info.now.gap ≡ Target.Unknown }
    ensures { IfOk result (λ triples. triples.items ≡ facts_of info.now) }
{
    stated(alloc, info).map_err(|_| Memory)
}

fn stated(alloc: Global, info: &Info) -> Result<Vec<Triple>, AllocError>
    ensures { IfOk result (λ triples. triples.items ≡ facts_of info.now) }
{
    let mut triples = Vec::new(alloc);
    state_stream(alloc, info, &mut triples)?;
    state_image(alloc, info, &mut triples)?;
    state_hashes(alloc, info, &mut triples)?;
    Ok(triples)
}

fn state_stream(alloc: Global, info: &Info, out: &mut Vec<Triple>) -> Result<(), AllocError>
    ensures { OnOk result (out.new.items ≡ out.old.items ++ stream_facts info.now) }
{
    let stream = info.stream.text();
    let volume = info.volume.text();
    out.push(named(alloc, stream, InfoName::Stream, IMAGE_STREAM)?)?;
    out.push(counted(
        alloc,
        stream,
        InfoName::StreamSize,
        info.stream_size,
        XSD_LONG,
    )?)?;
    out.push(counted(alloc, stream, InfoName::ChunkSize, CHUNK, XSD_INT)?)?;
    out.push(counted(alloc, stream, InfoName::ChunksInSegment, BEVVY, XSD_INT)?)?;
    out.push(named(alloc, stream, InfoName::Method, NULL_COMPRESSOR)?)?;
    out.push(named(alloc, stream, InfoName::StreamStored, volume)?)?;
    Ok(())
}

fn state_image(alloc: Global, info: &Info, out: &mut Vec<Triple>) -> Result<(), AllocError>
    ensures { OnOk result (out.new.items ≡ out.old.items ++ image_facts info.now) }
{
    let image = info.image.text();
    let volume = info.volume.text();
    let stream = info.stream.text();
    out.push(named(alloc, image, InfoName::Image, MAP)?)?;
    out.push(counted(alloc, image, InfoName::ImageSize, info.image_size, XSD_LONG)?)?;
    out.push(named(alloc, image, InfoName::Dependent, stream)?)?;
    out.push(named(alloc, image, InfoName::Gap, UNKNOWN)?)?;
    out.push(named(alloc, image, InfoName::ImageStored, volume)?)?;
    Ok(())
}

fn state_hashes(alloc: Global, info: &Info, out: &mut Vec<Triple>) -> Result<(), AllocError>
    ensures { OnOk result (out.new.items ≡ out.old.items ++ hash_facts info.now) }
{
    let image = info.image.text();
    out.push(hashed(alloc, image, InfoName::Md5, &info.linear.md5, MD5)?)?;
    out.push(hashed(alloc, image, InfoName::Sha1, &info.linear.sha1, SHA1)?)?;
    out.push(hashed(alloc, image, InfoName::Sha256, &info.linear.sha256, SHA256)?)?;
    out.push(hashed(alloc, image, InfoName::Sha512, &info.linear.sha512, SHA512)?)?;
    out.push(hashed(alloc, image, InfoName::BlockMap, &info.block_map, SHA512)?)?;
    Ok(())
}

// A statement whose object is an IRI.
fn named(alloc: Global, subject: &str, name: InfoName, iri: &str) -> Result<Triple, AllocError>
    ensures { IfOk result (λ t. t ≡ row subject.now name (Resource iri.now)) }
{
    let object = Object::Iri(String::from_str(alloc, iri)?);
    triple(alloc, subject, name, object)
}

// A statement of a number.
fn counted(
    alloc: Global,
    subject: &str,
    name: InfoName,
    n: u64,
    datatype: &str,
) -> Result<Triple, AllocError>
    ensures { IfOk result (λ t. t ≡ row subject.now name (plain (decimal n) datatype.now)) }
{
    let object = literal(alloc, spelled(alloc, n)?, datatype)?;
    triple(alloc, subject, name, object)
}

// A statement of a digest.
fn hashed(
    alloc: Global,
    subject: &str,
    name: InfoName,
    digest: &[u8],
    datatype: &str,
) -> Result<Triple, AllocError>
    ensures { IfOk result (λ t. t ≡ row subject.now name (plain (encode_lower digest.now) datatype.now)) }
{
    let object = literal(alloc, hex::encode(alloc, digest)?, datatype)?;
    triple(alloc, subject, name, object)
}

fn literal(alloc: Global, text: String, datatype: &str) -> Result<Object, AllocError>
    ensures { IfOk result (λ o. term_of o ≡ plain (string_bytes text) datatype.now) }
{
    Ok(Object::Literal {
        text,
        datatype: String::from_str(alloc, datatype)?,
        lang: String::new(alloc),
    })
}

fn triple(
    alloc: Global,
    subject: &str,
    name: InfoName,
    object: Object,
) -> Result<Triple, AllocError>
    ensures { IfOk result (λ t. t ≡ row subject.now name (term_of object)) }
{
    Ok(Triple {
        subject: String::from_str(alloc, subject)?,
        predicate: String::from_str(alloc, predicate(name))?,
        object,
    })
}
