//! The tokens of a text, one after another.
ghost use Rattle.std.specs.Prelude.{◌≡◌, ◌≢◌, ◌∷◌, ◌+◌, ◌^◌, ◌<◌, ◌≤◌, length, IfOk};
ghost use Rattle.aff_turtle.specs.Tokens.{End, tokens};
ghost use Rattle.aff_turtle.specs.Views.{token_of, placed_of, tokens_behind};
ghost use Rattle.aff_turtle.specs.Blanks.{BeginsToken};

use crate::class::{Class, behind, is_blank, run};
use crate::token::{Token, token_at};
use std::alloc::{AllocError, Global};

/// A place in a text: its line, and what stands from there on.
#[derive(Clone, Copy)]
struct Place<'a> {
    line: u64,
    chars: &'a [char],
}

/// A token, its line, and what stands behind it.
#[derive(Debug, Drop)]
pub struct Placed<'a> {
    pub line: u64,
    pub token: Token<'a>,
    pub rest: &'a [char],
}

/// Where the next token begins, past white space and comments.
fn past_blanks<'a>(line: u64, chars: &'a [char]) -> Place<'a>
    requires { line + length chars.now < 2 ^ 64 }
    ensures tokens { tokens result.line 0 result.chars.now ≡ tokens line 0 chars.now }
    ensures inside { result.line + length result.chars.now ≤ line + length chars.now }
    ensures shorter { length result.chars.now ≤ length chars.now }
    ensures begins { BeginsToken result.chars.now }
{
    let mut line = line;
    let mut rest = chars;
    while !rest.is_empty() {
        let c = rest[0];
        let after = behind(rest, 1);
        if c == '\n' {
            line += 1;
            rest = after;
        } else if is_blank(c) {
            rest = after;
        } else if c == '#' {
            rest = behind(after, run(Class::Comment, after));
        } else {
            return Place { line, chars: rest };
        }
    }
    Place { line, chars: rest }
}

/// The next token from a place on. At the end of the text that is `End`, and nothing stands behind it.
pub fn next_token<'a>(alloc: Global, line: u64, chars: &'a [char]) -> Result<Placed<'a>, AllocError>
    requires { line + length chars.now < 2 ^ 64 }
    ensures tokens { IfOk result (λ t. tokens line 0 chars.now ≡ placed_of t ∷ tokens_behind (token_of t.token) t.line t.rest.now) }
    ensures inside { IfOk result (λ t. t.line + length t.rest.now ≤ line + length chars.now) }
    ensures shorter { IfOk result (λ t. token_of t.token ≢ End → length t.rest.now < length chars.now) }
{
    let place = past_blanks(line, chars);
    let (token, taken) = token_at(alloc, place.chars)?;
    let after = behind(place.chars, 1);
    let rest = behind(after, taken.saturating_sub(1));
    Ok(Placed {
        line: place.line,
        token,
        rest,
    })
}
