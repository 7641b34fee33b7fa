//! How far a text has been read.
ghost use Rattle.std.specs.Prelude.{◌≡◌, Option, Some, None};
ghost use Rattle.std.specs.Option.{option_map};
ghost use Rattle.aff_turtle.specs.Machine.{making};
ghost use Rattle.aff_turtle.specs.Views.{state_of, step_of};

use crate::prefixes::Prefix;
use crate::triple::Triple;

/// What may come next, with what is known already: subject, predicate and text.
#[derive(Debug, Drop)]
pub enum State<'a> {
    /// A statement, a prefix line, or the end.
    Statement,
    PrefixName,
    PrefixIri(&'a [char]),
    PrefixEnd(&'a [char], &'a [char]),
    Predicate(Vec<char>),
    /// Behind a `;`.
    NextPredicate(Vec<char>),
    Value(Vec<char>, Vec<char>),
    /// Behind a text in quotes: a datatype, a language, or what may stand behind an object.
    Annotation(Vec<char>, Vec<char>, Vec<char>),
    Datatype(Vec<char>, Vec<char>, Vec<char>),
    /// Behind an object.
    Separator(Vec<char>, Vec<char>),
    /// Nothing more.
    Done,
}

/// Where a token leads.
#[derive(Debug, Drop)]
pub struct Step<'a> {
    pub state: State<'a>,
    pub declares: Option<Prefix<'a>>,
    pub made: Option<Triple>,
}

/// A step that neither declares nor makes anything.
pub fn to<'a>(state: State<'a>) -> Step<'a>
    ensures { step_of result ≡ record { state = state_of state.entry; declares = None; made = None } }
{
    Step {
        state,
        declares: None,
        made: None,
    }
}

/// The step with this triple too.
pub fn making<'a>(step: Option<Step<'a>>, made: Triple) -> Option<Step<'a>>
    ensures { option_map step_of result ≡ making made (option_map step_of step.entry) }
{
    match step {
        Some(
            Step {
                state,
                declares,
                ..
            },
        ) => Some(Step {
            state,
            declares,
            made: Some(made),
        }),
        None => None,
    }
}
