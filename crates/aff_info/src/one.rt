//! The one statement of a name.
ghost use Rattle.std.specs.Prelude.{◌≡◌, position};
ghost use Rattle.aff_info.specs.Table.{fits};
ghost use Rattle.aff_info.specs.Statements.{IsOne};

use crate::InfoName;
use crate::draft::PartialInfo;
use crate::fits::{fits, same};
use aff_turtle::Triple;

/// Why a name has not one statement.
#[derive(Clone, Copy, Debug, PartialEq, Eq)]
pub enum Lack {
    Missing,
    Twice,
}

/// The place of the first statement of a name, where there is one and all others say the same.
pub fn one(name: InfoName, draft: &PartialInfo, triples: &[Triple]) -> Result<usize, Lack>
    ensures { IsOne (fits name draft.now) triples.now result }
{
    let Some(first) = first_place(name, draft, triples) else {
        return Err(Lack::Missing);
    };
    for triple in triples {
        if fits(name, draft, triple) && !same(&triples[first], triple) {
            return Err(Lack::Twice);
        }
    }
    Ok(first)
}

/// The place of the first statement of a name.
pub fn first_place(name: InfoName, draft: &PartialInfo, triples: &[Triple]) -> Option<usize>
    ensures { result ≡ position (fits name draft.now) triples.now }
{
    triples.iter().position(|triple| fits(name, draft, triple))
}
