//! What stands for a piece where no type parameter may stand.
use std::marker::Model;

/// A type whose values can be told apart by a code without a type parameter. Every type is one.
pub trait Marked {
    ghost use Rattle.std.specs.Coded.{Coded};

    ghost marks: { Coded Self };
}

impl<T> Marked for T {
    ghost marks = { T.row.coded };
}

/// The name of a piece. No value of it is made.
pub struct Name {
    extent: u32,
}

impl Model for Name {
    ghost use Rattle.aff_snapshot.specs.Codes as codes;

    ghost Value = { codes.Name };

    ghost coded = { codes.name_code };

    ghost view = { λ n. record { extent = n.extent; code = codes.no_code } };
}
