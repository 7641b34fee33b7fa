//! Reading a text.
ghost use Rattle.std.specs.Prelude.{◌≡◌, ◌≢◌, ◌⊎◌, ◌++◌, [], List, IfOk, IfErr, OnOk, IsOkUnless};
ghost use Rattle.std.specs.Option.{option_map};
ghost use Rattle.std.specs.Str.{chars};
ghost use Rattle.aff_turtle.specs.Tokens.{tokens};
ghost use Rattle.aff_turtle.specs.Triples.{Fact};
ghost use Rattle.aff_turtle.specs.Prefixes.{DeclareAlike};
ghost use Rattle.aff_turtle.specs.Machine.{Statement, add, triples};
ghost use Rattle.aff_turtle.specs.Reading.{IsTurtle, IsRefused};
ghost use Rattle.aff_turtle.specs.Outcomes.{Matches, reading};
ghost use Rattle.aff_turtle.specs.Views.{prefix_of};

use crate::error::TurtleError;
use crate::grammar::next;
use crate::prefixes::{Prefix, Prefixes};
use crate::refusal::refusal;
use crate::state::{State, Step};
use crate::text::chars_of;
use crate::token::Token;
use crate::tokens::next_token;
use crate::triple::Triple;
use std::alloc::{AllocError, Global};
use std::str;

/// Reads the triples of a text, in their order. Time and memory grow with the lengths of the text and of the triples;
/// each triple has its own subject and predicate, so triples that share long ones are longer than their text.
pub fn read(alloc: Global, text: &[u8]) -> Result<Vec<Triple>, TurtleError>
    ensures found { IfOk result (λ found. IsTurtle text.now found.items) }
    ensures taken { (ts : List Fact) → IsTurtle text.now ts → IsOkUnless result TurtleError.Memory }
    ensures refused { IfErr result (λ why. why ≢ TurtleError.Memory → IsRefused text.now why) }
    ensures told { (why : TurtleError) → IsRefused text.now why → (result ≡ Err why) ⊎ (result ≡ Err TurtleError.Memory) }
{
    read_bytes(alloc, text)
}

fn read_bytes(alloc: Global, text: &[u8]) -> Result<Vec<Triple>, TurtleError>
    ensures { Matches (λ found. found.items) result (reading text.now) }
{
    match str::from_utf8(text) {
        Ok(text) => {
            let chars = chars_of(alloc, text)?;
            statements(alloc, &chars)
        }
        Err(e) => Err(TurtleError::Utf8(e.valid_up_to() as u64)),
    }
}

// The triples of these characters.
fn statements(alloc: Global, chars: &[char]) -> Result<Vec<Triple>, TurtleError>
    ensures { Matches (λ found. found.items) result (triples [] Statement (tokens 1 0 chars.now)) }
{
    let mut found = Vec::new(alloc);
    let mut prefixes = Prefixes::new(alloc);
    let mut state = State::Statement;
    let mut line = 1;
    let mut rest = chars;
    'tokens: loop {
        let placed = next_token(alloc, line, rest)?;
        let Some(step) = next(alloc, &prefixes, state, &placed.token)? else {
            return Err(refusal(&prefixes, placed.line, &placed.token));
        };
        let Step {
            state: after,
            declares,
            made,
        } = step;
        keep(&mut found, made)?;
        declare(&mut prefixes, declares)?;
        if let Token::End = placed.token {
            return Ok(found);
        }
        state = after;
        line = placed.line;
        rest = placed.rest;
    }
}

// Adds a triple, if there is one.
fn keep(found: &mut Vec<Triple>, made: Option<Triple>) -> Result<(), AllocError>
    ensures { OnOk result (found.new.items ≡ found.old.items ++ add made []) }
{
    if let Some(triple) = made {
        found.push(triple)?;
    }
    Ok(())
}

// Adds a declaration, if there is one.
fn declare<'a>(prefixes: &mut Prefixes<'a>, declares: Option<Prefix<'a>>) -> Result<(), AllocError>
    ensures { OnOk result (DeclareAlike prefixes.new (add (option_map prefix_of declares.entry) prefixes.old)) }
{
    if let Some(prefix) = declares {
        prefixes.declare(prefix)?;
    }
    Ok(())
}
