//! Reading metadata.
ghost use Rattle.std.specs.Prelude.{◌≡◌, IfOk, IfErr, IsErr, IsOkUnless, Some, filter};
ghost use Rattle.std.specs.List.{list_any};
ghost use Rattle.aff_info.specs.Table.{fits};
ghost use Rattle.aff_info.specs.Statements.{one_of};
ghost use Rattle.aff_info.specs.Faults.{InfoFault, Gives, Tells};
ghost use Rattle.aff_info.specs.Found.{Found};
ghost use Rattle.aff_info.specs.Reading.{nothing, stated, runs, firsts, is_place, others, aside, HasUrns, whole_of, IsInfo, IsInfoFault, IsError};

use crate::accept::accept;
use crate::draft::{PartialInfo, empty};
use crate::name::NAMES;
use crate::one::{Lack, first_place, one};
use crate::{Info, InfoError, InfoName, InfoRead};
use aff_turtle::Triple;
use std::alloc::{AllocError, Global};

/// Reads metadata from triples, in any order and among others. Triples that are equal count as one; the first of them
/// is used, and all triples that are not used are kept aside by their places.
pub fn of_triples(alloc: Global, triples: &[Triple]) -> Result<InfoRead, InfoError>
    ensures found { IfOk result (λ found. IsInfo triples.now found) }
    ensures taken { (found : Found) → IsInfo triples.now found → IsOkUnless result InfoError.Memory }
    ensures refused { IfErr result (λ e. IsError triples.now e) }
    ensures told { (fault : InfoFault) → IsInfoFault triples.now fault → IsErr result }
{
    read_all(alloc, triples)
}

fn read_all(alloc: Global, triples: &[Triple]) -> Result<InfoRead, InfoError>
    ensures found { IfOk result (λ found. IsInfo triples.now found) }
    ensures refused { IfErr result (λ e. IsError triples.now e) }
{
    let draft = read_names(alloc, &NAMES, triples)?;
    let aside = aside(alloc, triples, &draft)?;
    Ok(InfoRead {
        info: whole(draft),
        aside,
    })
}

// What the statements of names say, one after another.
fn read_names(
    alloc: Global,
    names: &[InfoName],
    triples: &[Triple],
) -> Result<PartialInfo, InfoError>
    ensures { Gives (runs names.now triples.now nothing) result }
{
    let mut draft = empty();
    for name in names {
        if let Err(fault) = read_name(alloc, *name, triples, &mut draft) {
            return Err(fault);
        }
    }
    Ok(draft)
}

// Adds what the statements of a name say.
fn read_name(
    alloc: Global,
    name: InfoName,
    triples: &[Triple],
    draft: &mut PartialInfo,
) -> Result<(), InfoError>
    ensures { Tells (stated name (one_of (filter (fits name draft.old) triples.now)) draft.old) result draft.new }
{
    match one(name, draft, triples) {
        Ok(place) => accept(alloc, name, &triples[place], draft),
        Err(Lack::Missing) => Err(InfoError::Missing(name)),
        Err(Lack::Twice) => Err(InfoError::Twice(name)),
    }
}

// The metadata, of which all is known.
fn whole(draft: PartialInfo) -> Info
    requires { HasUrns draft }
    ensures { whole_of draft ≡ Some result }
{
    let PartialInfo {
        volume,
        stream,
        image,
        stream_size,
        image_size,
        gap,
        linear,
        block_map,
    } = draft;
    let (Some(volume), Some(stream), Some(image)) = (volume, stream, image) else {
        unreachable!()
    };
    Info {
        volume,
        stream,
        image,
        stream_size,
        image_size,
        gap,
        linear,
        block_map,
    }
}

// The places at which no name's first statement stands.
#[tactic(auto, unfolding(crate::specs::Reading::aside))]
fn aside(alloc: Global, triples: &[Triple], draft: &PartialInfo) -> Result<Vec<u64>, AllocError>
    ensures { IfOk result (λ places. places.items ≡ aside triples.now draft.now) }
{
    let firsts = firsts(alloc, &NAMES, triples, draft)?;
    others(alloc, &firsts, triples.len())
}

// The places below a count that are none of these.
fn others(alloc: Global, firsts: &[Option<usize>], count: usize) -> Result<Vec<u64>, AllocError>
    ensures { IfOk result (λ places. places.items ≡ others firsts.now 0 count) }
{
    let mut places = Vec::new(alloc);
    for place in 0..count {
        if !is_among(firsts, place) {
            places.push(place as u64)?;
        }
    }
    Ok(places)
}

fn is_among(firsts: &[Option<usize>], place: usize) -> bool
    ensures { result ≡ list_any (is_place place) firsts.now }
{
    firsts.iter().any(|first| is_place(*first, place))
}

fn is_place(first: Option<usize>, place: usize) -> bool
    ensures { result ≡ is_place place first }
{
    match first {
        Some(first) => first == place,
        None => false,
    }
}

// Where the first statement of each name stands.
fn firsts(
    alloc: Global,
    names: &[InfoName],
    triples: &[Triple],
    draft: &PartialInfo,
) -> Result<Vec<Option<usize>>, AllocError>
    ensures { IfOk result (λ places. places.items ≡ firsts names.now triples.now draft.now) }
{
    let mut places = Vec::new(alloc);
    for name in names {
        places.push(first_place(*name, draft, triples))?;
    }
    Ok(places)
}
