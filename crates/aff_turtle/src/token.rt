//! The token at the front of a text.
ghost use Rattle.std.specs.Prelude.{◌≡◌, ◌≤◌, ◌==◌, length, IfOk};
ghost use Rattle.std.specs.List.{list_any};
ghost use Rattle.aff_turtle.specs.Tokens.{is_absolute, iri, literal, tag_len, tag, local_len, named_by, name, is_sign, is_exponent, number, token_at};
ghost use Rattle.aff_turtle.specs.Views.{token_of};

use crate::class::{Class, at, behind, front, is_digit, is_in, is_letter, jointed, run};
use crate::quoted::quoted;
use std::alloc::{AllocError, Global};

/// What stands at the front of a text. All but a literal's text are parts of that text.
#[derive(Debug, Drop)]
pub enum Token<'a> {
    Iri(&'a [char]),
    /// A prefix and a local part.
    Name(&'a [char], &'a [char]),
    /// A prefix, before a local part with `%` or a backslash.
    Escaped(&'a [char]),
    /// A prefix, before a local part with `:`.
    Colons(&'a [char]),
    Quoted(Vec<char>),
    /// What stands behind `@`.
    At(&'a [char]),
    Word(&'a [char]),
    Integer(&'a [char]),
    Carets,
    Dot,
    Semicolon,
    Comma,
    /// What this subset leaves out.
    Other,
    /// What begins no token.
    Bad,
    /// The end of the text.
    End,
}

fn has(chars: &[char], c: char) -> bool
    ensures { result ≡ list_any (λ d. d == c) chars.now }
{
    chars.contains(&c)
}

#[tactic(auto, unfolding(crate::specs::Tokens::is_absolute))]
fn is_absolute(text: &[char]) -> bool
    ensures { result ≡ is_absolute text.now }
{
    is_letter(at(text, 0)) && at(text, run(Class::Scheme, text)) == ':' && !has(text, '\\')
}

#[tactic(auto, unfolding(crate::specs::Tokens::iri))]
fn iri<'a>(chars: &'a [char]) -> (Token<'a>, usize)
    ensures { (token_of result.0, result.1) ≡ iri chars.now }
{
    let count = run(Class::Iri, chars);
    if at(chars, count) != '>' {
        return (Token::Bad, 1);
    }
    let text = front(chars, count);
    if is_absolute(text) {
        (Token::Iri(text), count + 2)
    } else {
        (Token::Other, 1)
    }
}

#[tactic(auto, unfolding(crate::specs::Tokens::literal))]
fn literal<'a>(
    alloc: Global,
    quote: char,
    chars: &'a [char],
) -> Result<(Token<'a>, usize), AllocError>
    ensures { IfOk result (λ t. (token_of t.0, t.1) ≡ literal quote chars.now) }
{
    if at(chars, 0) == quote && at(chars, 1) == quote {
        return Ok((Token::Other, 1));
    }
    match quoted(alloc, quote, chars)? {
        Some((text, taken)) => Ok((Token::Quoted(text), taken + 1)),
        None => Ok((Token::Bad, 1)),
    }
}

fn tag_len(chars: &[char]) -> usize
    ensures value { result ≡ tag_len chars.now }
    ensures inside { result ≤ length chars.now }
{
    let count = run(Class::Letter, chars);
    if at(chars, count) == '-' {
        count + jointed(Class::Tag, '-', Class::Tag, behind(chars, count))
    } else {
        count
    }
}

#[tactic(auto, unfolding(crate::specs::Tokens::tag))]
fn tag<'a>(chars: &'a [char]) -> (Token<'a>, usize)
    ensures { (token_of result.0, result.1) ≡ tag chars.now }
{
    if !is_letter(at(chars, 0)) {
        return (Token::Bad, 1);
    }
    let len = tag_len(chars);
    (Token::At(front(chars, len)), len + 1)
}

fn named_by<'a>(prefix: &'a [char], text: &'a [char]) -> Token<'a>
    ensures { token_of result ≡ named_by prefix.now text.now }
{
    if has(text, '%') || has(text, '\\') {
        Token::Escaped(prefix)
    } else if has(text, ':') {
        Token::Colons(prefix)
    } else {
        Token::Name(prefix, text)
    }
}

#[tactic(auto, unfolding(crate::specs::Tokens::local_len))]
fn local_len(chars: &[char]) -> usize
    ensures value { result ≡ local_len chars.now }
    ensures inside { result ≤ length chars.now }
{
    let first = at(chars, 0);
    if is_in(Class::Local, first) && first != '-' {
        jointed(Class::Local, '.', Class::Name, chars)
    } else {
        0
    }
}

#[tactic(auto, unfolding(crate::specs::Tokens::name))]
fn name<'a>(chars: &'a [char]) -> (Token<'a>, usize)
    ensures { (token_of result.0, result.1) ≡ name chars.now }
{
    let count = run(Class::Name, chars);
    let prefix = front(chars, count);
    if at(chars, count) != ':' {
        return (Token::Word(prefix), count);
    }
    let rest = behind(chars, count + 1);
    let len = local_len(rest);
    (named_by(prefix, front(rest, len)), count + 1 + len)
}

fn is_sign(c: char) -> bool
    ensures { result ≡ is_sign c }
{
    c == '+' || c == '-'
}

#[tactic(auto, unfolding(crate::specs::Tokens::is_exponent))]
fn is_exponent(chars: &[char]) -> bool
    ensures { result ≡ is_exponent chars.now }
{
    let mark = at(chars, 0);
    let sign = at(chars, 1);
    (mark == 'E' || mark == 'e') && (is_digit(sign) || is_sign(sign) && is_digit(at(chars, 2)))
}

#[tactic(auto, unfolding(crate::specs::Tokens::number))]
fn number<'a>(chars: &'a [char]) -> (Token<'a>, usize)
    ensures { (token_of result.0, result.1) ≡ number chars.now }
{
    let sign = if is_sign(at(chars, 0)) { 1 } else { 0 };
    let count = run(Class::Digit, behind(chars, sign));
    let rest = behind(chars, sign + count);
    let is_dot = at(rest, 0) == '.';
    if is_dot && is_digit(at(rest, 1)) {
        return (Token::Other, 1);
    }
    if count == 0 {
        let token = if at(chars, 0) == '.' {
            Token::Dot
        } else {
            Token::Bad
        };
        return (token, 1);
    }
    if is_exponent(rest) || is_dot && is_exponent(behind(rest, 1)) {
        return (Token::Other, 1);
    }
    (Token::Integer(front(chars, sign + count)), sign + count)
}

/// The token at the front of a text that begins with no blank, and how many characters it takes.
#[tactic(auto, unfolding(crate::specs::Tokens::token_at))]
pub fn token_at<'a>(alloc: Global, chars: &'a [char]) -> Result<(Token<'a>, usize), AllocError>
    ensures { IfOk result (λ t. (token_of t.0, t.1) ≡ token_at chars.now) }
{
    let [c, rest @ ..] = chars else {
        return Ok((Token::End, 0));
    };
    let c = *c;
    if c == '<' {
        Ok(iri(rest))
    } else if c == '"' || c == '\'' {
        literal(alloc, c, rest)
    } else if c == '@' {
        Ok(tag(rest))
    } else if is_letter(c) || c == ':' {
        Ok(name(chars))
    } else if is_digit(c) || is_sign(c) || c == '.' {
        Ok(number(chars))
    } else if c == ';' {
        Ok((Token::Semicolon, 1))
    } else if c == ',' {
        Ok((Token::Comma, 1))
    } else if c == '^' && at(rest, 0) == '^' {
        Ok((Token::Carets, 2))
    } else if c == '[' || c == '(' || c == '_' && at(rest, 0) == ':' {
        Ok((Token::Other, 1))
    } else {
        Ok((Token::Bad, 1))
    }
}
