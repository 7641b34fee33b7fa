//! Why a token is refused.
ghost use Rattle.std.specs.Prelude.{◌≡◌};
ghost use Rattle.aff_turtle.specs.Refusals.{is_word, unless_declared, refusal};
ghost use Rattle.aff_turtle.specs.Views.{token_of};

use crate::error::TurtleError;
use crate::names::same;
use crate::prefixes::Prefixes;
use crate::token::Token;

/// Why a token that does not continue the grammar is refused.
pub fn refusal(prefixes: &Prefixes<'_>, line: u64, token: &Token<'_>) -> TurtleError
    ensures { result ≡ refusal prefixes.now line (token_of token.now) }
{
    let syntax = TurtleError::Syntax(line);
    let unsupported = TurtleError::Unsupported(line);
    match token {
        Token::Name(prefix, _) => unless_declared(prefixes, prefix, line, syntax),
        Token::Colons(prefix) => unless_declared(prefixes, prefix, line, syntax),
        Token::Escaped(prefix) => unless_declared(prefixes, prefix, line, unsupported),
        Token::Other => unsupported,
        Token::At(word) => {
            if same(word, &['b', 'a', 's', 'e']) {
                unsupported
            } else {
                syntax
            }
        }
        Token::Word(word) => {
            if is_word(&['p', 'r', 'e', 'f', 'i', 'x'], word)
                || is_word(&['b', 'a', 's', 'e'], word)
            {
                unsupported
            } else {
                syntax
            }
        }
        _ => syntax,
    }
}

// The fault, or that the prefix is not declared.
fn unless_declared(
    prefixes: &Prefixes<'_>,
    prefix: &[char],
    line: u64,
    fault: TurtleError,
) -> TurtleError
    ensures { result ≡ unless_declared prefixes.now prefix.now line fault }
{
    if prefixes.declared(prefix).is_some() {
        fault
    } else {
        TurtleError::NoPrefix(line)
    }
}

// Whether a text is this word, in any case. The word is written small.
fn is_word(word: &[char], text: &[char]) -> bool
    ensures { result ≡ is_word word.now text.now }
{
    match word {
        [] => match text {
            [] => true,
            [_, ..] => false,
        },
        [w, ws @ ..] => match text {
            [] => false,
            [c, cs @ ..] => c.to_ascii_lowercase() == *w && is_word(ws, cs),
        },
    }
}
