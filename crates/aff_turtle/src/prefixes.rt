//! What prefixes stand for.
ghost use Rattle.std.specs.Prelude.{◌≡◌, ◌∷◌, [], OnOk, Option, Some, None};
ghost use Rattle.std.specs.Option.{option_map};
ghost use Rattle.aff_turtle.specs.Prefixes.{declared, DeclareAlike};

use std::alloc::{AllocError, Global};
use std::collections::BTreeMap;
use std::marker::Model;

/// The IRI that a prefix stands for. Both are parts of the text.
#[derive(Debug, Drop)]
pub struct Prefix<'a> {
    pub name: &'a [char],
    pub iri: &'a [char],
}

/// What each declared prefix stands for, by its latest declaration.
#[derive(Drop)]
pub struct Prefixes<'a> {
    iris: BTreeMap<&'a [char], &'a [char]>,
}

impl<'a> Model for Prefixes<'a> {
    ghost use Rattle.std.specs.Prelude.{List};
    ghost use Rattle.aff_turtle.specs.Prefixes.{Prefix};
    ghost use Rattle.aff_turtle.specs.Names.{prefixes_of};

    ghost Value = { List Prefix };

    ghost view = { λ p. prefixes_of p.iris.entries };
}

impl<'a> Prefixes<'a> {
    pub fn new(alloc: Global) -> Self
        ensures { result ≡ [] }
    {
        Prefixes {
            iris: BTreeMap::new(alloc),
        }
    }

    /// What a prefix stands for.
    pub fn declared(&self, name: &[char]) -> Option<&'a [char]>
        ensures { option_map (λ iri. iri.now) result ≡ declared self.now name.now }
    {
        self.iris.get(name).copied()
    }

    /// From here on a prefix stands for this.
    pub fn declare(&mut self, prefix: Prefix<'a>) -> Result<(), AllocError>
        ensures { OnOk result (DeclareAlike self.new (record { name = prefix.entry.name.now; iri = prefix.entry.iri.now } ∷ self.old)) }
    {
        self.iris.insert(prefix.name, prefix.iri)?;
        Ok(())
    }
}
