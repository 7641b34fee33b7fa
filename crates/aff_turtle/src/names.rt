//! The IRIs that tokens name.
ghost use Rattle.std.specs.Prelude.{◌≡◌, IfOk, Option};
ghost use Rattle.std.specs.Option.{option_map};
ghost use Rattle.std.specs.Str.{bytes_eq};
ghost use Rattle.aff_turtle.specs.Prefixes.{named, predicate};
ghost use Rattle.aff_turtle.specs.Views.{token_of};

use crate::prefixes::Prefixes;
use crate::token::Token;
use std::alloc::{AllocError, Global};

const RDF_TYPE: &[u8; 47] = b"http://www.w3.org/1999/02/22-rdf-syntax-ns#type";

pub fn same(a: &[char], b: &[char]) -> bool
    ensures { result ≡ bytes_eq a.now b.now }
{
    a == b
}

/// The IRI that a token names.
pub fn named(
    alloc: Global,
    prefixes: &Prefixes<'_>,
    token: &Token<'_>,
) -> Result<Option<Vec<char>>, AllocError>
    ensures { IfOk result (λ o. option_map (λ iri. iri.items) o ≡ named prefixes.now (token_of token.now)) }
{
    match token {
        Token::Iri(text) => Ok(Some(Vec::from_slice(alloc, text)?)),
        Token::Name(prefix, local) => match prefixes.declared(prefix) {
            Some(front) => {
                let mut iri = Vec::from_slice(alloc, front)?;
                iri.extend_from_slice(local)?;
                Ok(Some(iri))
            }
            None => Ok(None),
        },
        _ => Ok(None),
    }
}

/// The predicate that a token names.
pub fn predicate(
    alloc: Global,
    prefixes: &Prefixes<'_>,
    token: &Token<'_>,
) -> Result<Option<Vec<char>>, AllocError>
    ensures { IfOk result (λ o. option_map (λ iri. iri.items) o ≡ predicate prefixes.now (token_of token.now)) }
{
    match token {
        Token::Word(word) => {
            if same(word, &['a']) {
                Ok(Some(ascii(alloc, RDF_TYPE)?))
            } else {
                Ok(None)
            }
        }
        _ => named(alloc, prefixes, token),
    }
}

// The characters of an ASCII text.
fn ascii(alloc: Global, bytes: &[u8]) -> Result<Vec<char>, AllocError>
    ensures { IfOk result (λ chars. chars.items ≡ bytes.now) }
{
    let mut chars = Vec::new(alloc);
    for byte in bytes {
        chars.push(*byte as char)?;
    }
    Ok(chars)
}
