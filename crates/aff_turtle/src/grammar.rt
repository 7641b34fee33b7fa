//! Which token may stand where, and what it says.
ghost use Rattle.std.specs.Prelude.{◌≡◌, IfOk, Option};
ghost use Rattle.std.specs.Option.{option_map};
ghost use Rattle.aff_turtle.specs.Triples.{fact, typed};
ghost use Rattle.aff_turtle.specs.Prefixes.{named, predicate};
ghost use Rattle.aff_turtle.specs.Machine.{makes, at_statement, at_prefix_name, at_prefix_iri, at_prefix_end, at_verb, at_next_predicate, at_value, at_separator, making, plain, at_annotation, at_datatype, next};
ghost use Rattle.aff_turtle.specs.Objects.{term_of};
ghost use Rattle.aff_turtle.specs.Views.{token_of, state_of, step_of};

use crate::names::{named, predicate, same};
use crate::prefixes::{Prefix, Prefixes};
use crate::state::{State, Step, making, to};
use crate::text::text_of;
use crate::token::Token;
use crate::triple::{Object, Triple};
use std::alloc::{AllocError, Global};

const LANG_STRING: &str = "http://www.w3.org/1999/02/22-rdf-syntax-ns#langString";

const XSD_BOOLEAN: &str = "http://www.w3.org/2001/XMLSchema#boolean";

const XSD_INTEGER: &str = "http://www.w3.org/2001/XMLSchema#integer";

const XSD_STRING: &str = "http://www.w3.org/2001/XMLSchema#string";

/// Where a token leads, if it continues the grammar.
#[tactic(auto, unfolding(crate::specs::Machine::next))]
pub fn next<'a>(
    alloc: Global,
    prefixes: &Prefixes<'a>,
    state: State<'a>,
    token: &Token<'a>,
) -> Result<Option<Step<'a>>, AllocError>
    ensures { IfOk result (λ o. option_map step_of o ≡ next prefixes.now (state_of state.entry) (token_of token.now)) }
{
    match state {
        State::Statement => at_statement(alloc, prefixes, token),
        State::PrefixName => Ok(at_prefix_name(token)),
        State::PrefixIri(name) => Ok(at_prefix_iri(name, token)),
        State::PrefixEnd(name, iri) => Ok(at_prefix_end(name, iri, token)),
        State::Predicate(s) => at_verb(alloc, prefixes, s, token),
        State::NextPredicate(s) => at_next_predicate(alloc, prefixes, s, token),
        State::Value(s, p) => at_value(alloc, prefixes, s, p, token),
        State::Annotation(s, p, text) => at_annotation(alloc, s, p, text, token),
        State::Datatype(s, p, text) => at_datatype(alloc, prefixes, s, p, text, token),
        State::Separator(s, p) => Ok(at_separator(s, p, token)),
        State::Done => Ok(None),
    }
}

fn at_statement<'a>(
    alloc: Global,
    prefixes: &Prefixes<'a>,
    token: &Token<'a>,
) -> Result<Option<Step<'a>>, AllocError>
    ensures { IfOk result (λ o. option_map step_of o ≡ at_statement prefixes.now (token_of token.now)) }
{
    match token {
        Token::End => Ok(Some(to(State::Done))),
        Token::At(word) => {
            if same(word, &['p', 'r', 'e', 'f', 'i', 'x']) {
                Ok(Some(to(State::PrefixName)))
            } else {
                Ok(None)
            }
        }
        _ => match named(alloc, prefixes, token)? {
            Some(s) => Ok(Some(to(State::Predicate(s)))),
            None => Ok(None),
        },
    }
}

fn at_prefix_name<'a>(token: &Token<'a>) -> Option<Step<'a>>
    ensures { option_map step_of result ≡ at_prefix_name (token_of token.now) }
{
    match token {
        Token::Name(prefix, local) => {
            if local.is_empty() {
                Some(to(State::PrefixIri(prefix)))
            } else {
                None
            }
        }
        _ => None,
    }
}

fn at_prefix_iri<'a>(name: &'a [char], token: &Token<'a>) -> Option<Step<'a>>
    ensures { option_map step_of result ≡ at_prefix_iri name.now (token_of token.now) }
{
    match token {
        Token::Iri(iri) => Some(to(State::PrefixEnd(name, iri))),
        _ => None,
    }
}

fn at_prefix_end<'a>(name: &'a [char], iri: &'a [char], token: &Token<'a>) -> Option<Step<'a>>
    ensures { option_map step_of result ≡ at_prefix_end name.now iri.now (token_of token.now) }
{
    match token {
        Token::Dot => Some(Step {
            state: State::Statement,
            declares: Some(Prefix { name, iri }),
            made: None,
        }),
        _ => None,
    }
}

fn at_verb<'a>(
    alloc: Global,
    prefixes: &Prefixes<'a>,
    s: Vec<char>,
    token: &Token<'a>,
) -> Result<Option<Step<'a>>, AllocError>
    ensures { IfOk result (λ o. option_map step_of o ≡ at_verb s.items (predicate prefixes.now (token_of token.now))) }
{
    match predicate(alloc, prefixes, token)? {
        Some(p) => Ok(Some(to(State::Value(s, p)))),
        None => Ok(None),
    }
}

fn at_next_predicate<'a>(
    alloc: Global,
    prefixes: &Prefixes<'a>,
    s: Vec<char>,
    token: &Token<'a>,
) -> Result<Option<Step<'a>>, AllocError>
    ensures { IfOk result (λ o. option_map step_of o ≡ at_next_predicate prefixes.now s.items (token_of token.now)) }
{
    match token {
        Token::Semicolon => Ok(Some(to(State::NextPredicate(s)))),
        Token::Dot => Ok(Some(to(State::Statement))),
        _ => at_verb(alloc, prefixes, s, token),
    }
}

fn at_value<'a>(
    alloc: Global,
    prefixes: &Prefixes<'a>,
    s: Vec<char>,
    p: Vec<char>,
    token: &Token<'a>,
) -> Result<Option<Step<'a>>, AllocError>
    ensures { IfOk result (λ o. option_map step_of o ≡ at_value prefixes.now s.items p.items (token_of token.now)) }
{
    match token {
        Token::Quoted(text) => {
            let text = Vec::from_slice(alloc, text)?;
            Ok(Some(to(State::Annotation(s, p, text))))
        }
        Token::Integer(text) => {
            let object = typed(alloc, text, XSD_INTEGER)?;
            makes(alloc, s, p, object)
        }
        Token::Word(word) => {
            if same(word, &['t', 'r', 'u', 'e']) || same(word, &['f', 'a', 'l', 's', 'e']) {
                let object = typed(alloc, word, XSD_BOOLEAN)?;
                makes(alloc, s, p, object)
            } else {
                Ok(None)
            }
        }
        _ => match named(alloc, prefixes, token)? {
            Some(iri) => {
                let object = Object::Iri(text_of(alloc, &iri)?);
                makes(alloc, s, p, object)
            }
            None => Ok(None),
        },
    }
}

fn at_separator<'a>(s: Vec<char>, p: Vec<char>, token: &Token<'a>) -> Option<Step<'a>>
    ensures { option_map step_of result ≡ at_separator s.items p.items (token_of token.now) }
{
    match token {
        Token::Comma => Some(to(State::Value(s, p))),
        Token::Semicolon => Some(to(State::NextPredicate(s))),
        Token::Dot => Some(to(State::Statement)),
        _ => None,
    }
}

fn at_annotation<'a>(
    alloc: Global,
    s: Vec<char>,
    p: Vec<char>,
    text: Vec<char>,
    token: &Token<'a>,
) -> Result<Option<Step<'a>>, AllocError>
    ensures { IfOk result (λ o. option_map step_of o ≡ at_annotation s.items p.items text.items (token_of token.now)) }
{
    match token {
        Token::Carets => Ok(Some(to(State::Datatype(s, p, text)))),
        Token::At(lang) => {
            let object = Object::Literal {
                text: text_of(alloc, &text)?,
                datatype: String::from_str(alloc, LANG_STRING)?,
                lang: text_of(alloc, lang)?,
            };
            makes(alloc, s, p, object)
        }
        _ => behind_plain(alloc, s, p, text, token),
    }
}

// A text in quotes with nothing behind it is a plain literal.
fn behind_plain<'a>(
    alloc: Global,
    s: Vec<char>,
    p: Vec<char>,
    text: Vec<char>,
    token: &Token<'a>,
) -> Result<Option<Step<'a>>, AllocError>
    ensures { IfOk result (λ o. option_map step_of o ≡ making (plain s.items p.items text.items) (at_separator s.items p.items (token_of token.now))) }
{
    let object = typed(alloc, &text, XSD_STRING)?;
    let made = triple(alloc, &s, &p, object)?;
    Ok(making(at_separator(s, p, token), made))
}

fn at_datatype<'a>(
    alloc: Global,
    prefixes: &Prefixes<'a>,
    s: Vec<char>,
    p: Vec<char>,
    text: Vec<char>,
    token: &Token<'a>,
) -> Result<Option<Step<'a>>, AllocError>
    ensures { IfOk result (λ o. option_map step_of o ≡ at_datatype s.items p.items text.items (named prefixes.now (token_of token.now))) }
{
    match named(alloc, prefixes, token)? {
        Some(iri) => {
            let object = Object::Literal {
                text: text_of(alloc, &text)?,
                datatype: text_of(alloc, &iri)?,
                lang: String::new(alloc),
            };
            makes(alloc, s, p, object)
        }
        None => Ok(None),
    }
}

// An object is there.
fn makes<'a>(
    alloc: Global,
    s: Vec<char>,
    p: Vec<char>,
    object: Object,
) -> Result<Option<Step<'a>>, AllocError>
    ensures { IfOk result (λ o. option_map step_of o ≡ makes s.items p.items (term_of object)) }
{
    let made = triple(alloc, &s, &p, object)?;
    Ok(Some(Step {
        state: State::Separator(s, p),
        declares: None,
        made: Some(made),
    }))
}

fn triple(alloc: Global, s: &[char], p: &[char], object: Object) -> Result<Triple, AllocError>
    ensures { IfOk result (λ t. t ≡ fact s.now p.now (term_of object)) }
{
    Ok(Triple {
        subject: text_of(alloc, s)?,
        predicate: text_of(alloc, p)?,
        object,
    })
}

fn typed(alloc: Global, text: &[char], datatype: &str) -> Result<Object, AllocError>
    ensures { IfOk result (λ o. term_of o ≡ typed text.now datatype.now) }
{
    Ok(Object::Literal {
        text: text_of(alloc, text)?,
        datatype: String::from_str(alloc, datatype)?,
        lang: String::new(alloc),
    })
}
