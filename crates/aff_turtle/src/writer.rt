//! Writing triples.
ghost use Rattle.std.specs.Prelude.{◌≡◌, ◌++◌, OnOk, IfOk};
ghost use Rattle.std.specs.List.{flat_map};
ghost use Rattle.std.specs.Str.{chars};
ghost use Rattle.aff_turtle.specs.Objects.{term_of};
ghost use Rattle.aff_turtle.specs.Reading.{IsTurtle};
ghost use Rattle.aff_turtle.specs.Written.{spelled, in_angles, annotation, object_text, line, written, AreFacts};

use crate::text::{chars_of, text_of};
use crate::triple::{Object, Triple};
use aff_model::Memory;
use std::alloc::{AllocError, Global};

/// Writes triples, a line each, without prefixes.
pub fn write(alloc: Global, triples: &[Triple]) -> Result<Vec<u8>, Memory>
    requires { AreFacts triples.now }
    ensures spelling { IfOk result (λ bytes. bytes.items ≡ written triples.now) }
    ensures again { IfOk result (λ bytes. IsTurtle bytes.items triples.now) }
{
    write_bytes(alloc, triples).map_err(|_| Memory)
}

#[tactic(auto, unfolding(crate::specs::Written::written))]
fn write_bytes(alloc: Global, triples: &[Triple]) -> Result<Vec<u8>, AllocError>
    requires { AreFacts triples.now }
    ensures spelling { IfOk result (λ bytes. bytes.items ≡ written triples.now) }
    ensures again { IfOk result (λ bytes. IsTurtle bytes.items triples.now) }
{
    let chars = lines(alloc, triples)?;
    let text = text_of(alloc, &chars)?;
    Ok(text.into_bytes())
}

fn lines(alloc: Global, triples: &[Triple]) -> Result<Vec<char>, AllocError>
    ensures { IfOk result (λ out. out.items ≡ flat_map line triples.now) }
{
    let mut out = Vec::new(alloc);
    for triple in triples {
        put_line(alloc, &mut out, triple)?;
    }
    Ok(out)
}

fn put_line(alloc: Global, out: &mut Vec<char>, triple: &Triple) -> Result<(), AllocError>
    ensures { OnOk result (out.new.items ≡ out.old.items ++ line triple.now) }
{
    put_iri(alloc, out, triple.subject.as_str())?;
    out.push(' ')?;
    put_iri(alloc, out, triple.predicate.as_str())?;
    out.push(' ')?;
    put_object(alloc, out, &triple.object)?;
    out.extend_from_slice(&[' ', '.', '\n'])
}

fn put_object(alloc: Global, out: &mut Vec<char>, object: &Object) -> Result<(), AllocError>
    ensures { OnOk result (out.new.items ≡ out.old.items ++ object_text (term_of object.now)) }
{
    match object {
        Object::Iri(iri) => put_iri(alloc, out, iri.as_str()),
        Object::Literal {
            text,
            datatype,
            lang,
        } => {
            let text = chars_of(alloc, text.as_str())?;
            out.push('"')?;
            put_text(out, &text)?;
            out.push('"')?;
            put_annotation(alloc, out, datatype.as_str(), lang.as_str())
        }
    }
}

fn put_annotation(
    alloc: Global,
    out: &mut Vec<char>,
    datatype: &str,
    lang: &str,
) -> Result<(), AllocError>
    ensures { OnOk result (out.new.items ≡ out.old.items ++ annotation datatype.now lang.now) }
{
    if lang.is_empty() {
        out.push('^')?;
        out.push('^')?;
        put_iri(alloc, out, datatype)
    } else {
        let lang = chars_of(alloc, lang)?;
        out.push('@')?;
        out.extend_from_slice(&lang)
    }
}

fn put_iri(alloc: Global, out: &mut Vec<char>, iri: &str) -> Result<(), AllocError>
    ensures { OnOk result (out.new.items ≡ out.old.items ++ in_angles (chars iri.now)) }
{
    let iri = chars_of(alloc, iri)?;
    out.push('<')?;
    out.extend_from_slice(&iri)?;
    out.push('>')?;
    Ok(())
}

fn put_text(out: &mut Vec<char>, text: &[char]) -> Result<(), AllocError>
    ensures { OnOk result (out.new.items ≡ out.old.items ++ flat_map spelled text.now) }
{
    for c in text {
        put_spelled(out, *c)?;
    }
    Ok(())
}

#[tactic(auto, unfolding(crate::specs::Written::spelled))]
fn put_spelled(out: &mut Vec<char>, c: char) -> Result<(), AllocError>
    ensures { OnOk result (out.new.items ≡ out.old.items ++ spelled c) }
{
    match c {
        '"' => out.extend_from_slice(&['\\', '"']),
        '\\' => out.extend_from_slice(&['\\', '\\']),
        '\n' => out.extend_from_slice(&['\\', 'n']),
        '\r' => out.extend_from_slice(&['\\', 'r']),
        '\t' => out.extend_from_slice(&['\\', 't']),
        _ => out.extend_from_slice(&[c]),
    }
}
