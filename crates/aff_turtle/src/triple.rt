//! Triples.
use std::marker::Model;

/// What a triple says. The texts of a literal are as they mean, without escapes; `lang` is empty where there is no
/// language.
#[derive(Debug, Drop)]
pub enum Object {
    Iri(String),
    Literal {
        text: String,
        datatype: String,
        lang: String,
    },
}

/// One statement: its subject and predicate are IRIs.
#[derive(Debug, Drop)]
pub struct Triple {
    pub subject: String,
    pub predicate: String,
    pub object: Object,
}

impl Model for Triple {
    ghost use Rattle.std.specs.String.{string_bytes};
    ghost use Rattle.aff_turtle.specs.Triples.{Fact};
    ghost use Rattle.aff_turtle.specs.Objects.{term_of};

    ghost Value = { Fact };

    ghost view = { λ t. record { subject = string_bytes t.subject; predicate = string_bytes t.predicate; object = term_of t.object } };
}
