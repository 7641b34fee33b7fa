use crate::{Object, Triple, TurtleError, read, write};
use std::process::Abort;
use std::test::Fail;

/// A text, and what reading it gives, in one line a triple or by the refusal's name.
type Case = (&'static str, &'static str);

fn is_read_so(rt: &(impl Abort + AllocGlobal), cases: &[Case]) -> Result<(), Fail> {
    for (text, expected) in cases {
        let found = outcome(rt, text.as_bytes())?;
        assert_eq!(rt; found.as_str(), *expected, "{text:?}");
    }
    Ok(())
}

fn outcome(rt: &impl AllocGlobal, text: &[u8]) -> Result<String, Fail> {
    match read(rt.alloc(), text) {
        Ok(triples) => lines(rt, &triples),
        Err(fault) => Ok(format!(in rt.alloc(); "{fault:?}")?),
    }
}

fn lines(rt: &impl AllocGlobal, triples: &[Triple]) -> Result<String, Fail> {
    let mut all = String::new(rt.alloc());
    for triple in triples {
        let object = shown(rt, &triple.object)?;
        let subject = triple.subject.as_str();
        let predicate = triple.predicate.as_str();
        let line = format!(in rt.alloc(); "{subject} {predicate} {object};")?;
        all.push_str(line.as_str())?;
    }
    Ok(all)
}

fn shown(rt: &impl AllocGlobal, object: &Object) -> Result<String, Fail> {
    match object {
        Object::Iri(iri) => Ok(format!(in rt.alloc(); "{iri}")?),
        Object::Literal {
            text,
            datatype,
            lang,
        } => Ok(format!(in rt.alloc(); "'{text}' {datatype} {lang}")?),
    }
}

#[test]
fn statements_are_read(rt: HostRuntime) -> Result<(), Fail> {
    is_read_so(
        &rt,
        &[
            ("", ""),
            (" \t\r\n# a comment alone", ""),
            ("<a:s> <a:p> <a:o> .", "a:s a:p a:o;"),
            ("<a:s><a:p><a:o>.", "a:s a:p a:o;"),
            ("<a:s#1>#2\n<a:p> <a:o> .", "a:s#1 a:p a:o;"),
            (
                "<a:s> a <a:o> .",
                "a:s http://www.w3.org/1999/02/22-rdf-syntax-ns#type a:o;",
            ),
            (
                "<a:s> <a:p> <a:o>, <a:o2>,<a:o3>.",
                "a:s a:p a:o;a:s a:p a:o2;a:s a:p a:o3;",
            ),
            (
                "<a:s> <a:p> <a:o> ; <a:q> <a:o>, <a:r>;<a:q><a:t>.",
                "a:s a:p a:o;a:s a:q a:o;a:s a:q a:r;a:s a:q a:t;",
            ),
            (
                "<a:s> <a:p> <a:o> ;; ; <a:q> <a:r> ; ;.",
                "a:s a:p a:o;a:s a:q a:r;",
            ),
            ("<a:\u{e9}> <a:p> <a:|> .", "Syntax(1)"),
            ("<a:\u{e9}> <a:p> <a:'()> .", "a:\u{e9} a:p a:'();"),
        ],
    )
}

#[test]
fn prefixes_stand_for_iris(rt: HostRuntime) -> Result<(), Fail> {
    is_read_so(
        &rt,
        &[
            ("@prefix e: <a:x#> . e:s e:p e: .", "a:x#s a:x#p a:x#;"),
            (
                "@prefix : <a:x> . @prefix : <a:y> . :s :p :o .",
                "a:ys a:yp a:yo;",
            ),
            (
                "@prefix e: <a:x> . e:s e:p e:o . @prefix e: <a:y> . e:s e:p e:o .",
                "a:xs a:xp a:xo;a:ys a:yp a:yo;",
            ),
            (
                "@prefix a-_9: <a:x> . a-_9:1_-.b a-_9:p a-_9:o.",
                "a:x1_-.b a:xp a:xo;",
            ),
            (
                "@prefix e: <a:x> . e:s e:p e:.e:s e:p e:o .",
                "a:xs a:xp a:x;a:xs a:xp a:xo;",
            ),
            (
                "@prefix e: <a:x> . e:s e:p e:a.<b:s> e:p e:o .",
                "a:xs a:xp a:xa;b:s a:xp a:xo;",
            ),
            (
                "@prefix e: <a:x> . e:s e:p \"1\"^^e:t .",
                "a:xs a:xp '1' a:xt ;",
            ),
        ],
    )
}

#[test]
fn literals_are_read(rt: HostRuntime) -> Result<(), Fail> {
    is_read_so(
        &rt,
        &[
            (
                "<a:s> <a:p> '', \"\" .",
                "a:s a:p '' http://www.w3.org/2001/XMLSchema#string ;a:s a:p '' http://www.w3.org/2001/XMLSchema#string ;",
            ),
            (
                "<a:s> <a:p> 'a\"b#', \"c'd\" .",
                "a:s a:p 'a\"b#' http://www.w3.org/2001/XMLSchema#string ;a:s a:p 'c'd' http://www.w3.org/2001/XMLSchema#string ;",
            ),
            (
                "<a:s> <a:p> '\\t\\b\\n\\r\\f\\\"\\'\\\\'^^<a:t> .",
                "a:s a:p '\t\u{8}\n\r\u{c}\"'\\' a:t ;",
            ),
            (
                "<a:s> <a:p> '\\u0041\\u00e9\\U0001F600\u{e9}'^^<a:t> .",
                "a:s a:p 'A\u{e9}\u{1F600}\u{e9}' a:t ;",
            ),
            (
                "<a:s> <a:p> \"x\" # c\n^^ # d\n <a:t> .",
                "a:s a:p 'x' a:t ;",
            ),
            (
                "<a:s> <a:p> 'x' # c\n @en-GB-1 .",
                "a:s a:p 'x' http://www.w3.org/1999/02/22-rdf-syntax-ns#langString en-GB-1;",
            ),
            (
                "<a:s> <a:p> 'x'@prefix, 'y'@base .",
                "a:s a:p 'x' http://www.w3.org/1999/02/22-rdf-syntax-ns#langString prefix;a:s a:p 'y' http://www.w3.org/1999/02/22-rdf-syntax-ns#langString base;",
            ),
            (
                "<a:s> <a:p> -01, +5, 1.",
                "a:s a:p '-01' http://www.w3.org/2001/XMLSchema#integer ;a:s a:p '+5' http://www.w3.org/2001/XMLSchema#integer ;a:s a:p '1' http://www.w3.org/2001/XMLSchema#integer ;",
            ),
            (
                "<a:s> <a:p> true, false .",
                "a:s a:p 'true' http://www.w3.org/2001/XMLSchema#boolean ;a:s a:p 'false' http://www.w3.org/2001/XMLSchema#boolean ;",
            ),
        ],
    )
}

#[test]
fn what_is_no_turtle_is_syntax(rt: HostRuntime) -> Result<(), Fail> {
    is_read_so(
        &rt,
        &[
            ("\n<a:s>\n<a:p>\n", "Syntax(4)"),
            ("<a:s> <a:p> <a:o> # no end", "Syntax(1)"),
            ("@prefix e: <a:x>", "Syntax(1)"),
            ("\n<a:s> <a:p> \"x", "Syntax(2)"),
            ("\n<a:s <a:p>", "Syntax(2)"),
            ("<a:s> ; <a:p> <a:o> .", "Syntax(1)"),
            ("<a:s>\n.", "Syntax(2)"),
            ("<a:s> <a:p> <a:o>,\n\n.", "Syntax(3)"),
            ("<a:s> a5 <a:o> .", "Syntax(1)"),
            ("<a:s> <a:p> trueish .", "Syntax(1)"),
            ("<a:s> <a:p> ]", "Syntax(1)"),
            ("ex.org:foo", "Syntax(1)"),
            ("\u{e9}:s", "Syntax(1)"),
            ("\u{feff}<a:s>", "Syntax(1)"),
        ],
    )
}

#[test]
fn broken_tokens_are_syntax(rt: HostRuntime) -> Result<(), Fail> {
    is_read_so(
        &rt,
        &[
            ("@BASE <a:b> .", "Syntax(1)"),
            ("@PREFIX e: <a:b> .", "Syntax(1)"),
            ("<a:\\b c>", "Syntax(1)"),
            ("<a:\u{85}>", "Syntax(1)"),
            ("<a:s> <a:p> 'a\\x' .", "Syntax(1)"),
            ("<a:s> <a:p> 'a\\u12' .", "Syntax(1)"),
            ("<a:s> <a:p> \"\\uD800\" .", "Syntax(1)"),
            ("<a:s> <a:p> \"\\U00110000\" .", "Syntax(1)"),
            ("<a:s> <a:p> 'a\r' .", "Syntax(1)"),
            ("<a:s> <a:p> 'a\n' .", "Syntax(1)"),
            ("<a:s> <a:p> \"x\"@en5 .", "Syntax(1)"),
            ("<a:s> <a:p> \"x\"^<a:t> .", "Syntax(1)"),
            ("@prefix e: <a:x> .\ne:a:b", "Syntax(2)"),
            ("@prefix e: <a:x> . e:s e:p e:a.\n%41", "Syntax(2)"),
        ],
    )
}

#[test]
fn names_want_their_prefixes(rt: HostRuntime) -> Result<(), Fail> {
    is_read_so(
        &rt,
        &[
            ("no:a", "NoPrefix(1)"),
            ("\n:a", "NoPrefix(2)"),
            ("no:a%41", "NoPrefix(1)"),
            ("no:a:b", "NoPrefix(1)"),
            ("<a:s> <a:p> <a:o>\nno:x", "NoPrefix(2)"),
            ("<a:s> <a:p> 'x'^^no:x", "NoPrefix(1)"),
            ("@prefix no:x <a:b> .", "NoPrefix(1)"),
            ("@prefix e: <a:b> e:x", "NoPrefix(1)"),
        ],
    )
}

#[test]
fn what_is_left_out_is_unsupported(rt: HostRuntime) -> Result<(), Fail> {
    is_read_so(
        &rt,
        &[
            ("\n\n<a:s> <a:p> [", "Unsupported(3)"),
            ("<a:s> <a:p> (", "Unsupported(1)"),
            ("_:b", "Unsupported(1)"),
            ("@base <a:b> .", "Unsupported(1)"),
            ("pReFiX e: <a:b>", "Unsupported(1)"),
            ("<a:s> <a:p> <a:o> BASE", "Unsupported(1)"),
            ("<a:s> <a:p> \"\"\"x\"\"\" .", "Unsupported(1)"),
            ("<a:s> <a:p>\n'''x''' .", "Unsupported(2)"),
            ("@prefix e: <a:x> . e:a%41", "Unsupported(1)"),
            ("@prefix e: <a:x> . e:a:\\b", "Unsupported(1)"),
        ],
    )
}

#[test]
fn relative_iris_and_fractions_are_unsupported(rt: HostRuntime) -> Result<(), Fail> {
    is_read_so(
        &rt,
        &[
            ("<>", "Unsupported(1)"),
            ("<:a>", "Unsupported(1)"),
            ("<1a:b>", "Unsupported(1)"),
            ("<a:\\b>", "Unsupported(1)"),
            ("<a:s> <a:p> .5", "Unsupported(1)"),
            ("<a:s> <a:p> +.5", "Unsupported(1)"),
            ("<a:s> <a:p>\n1.5", "Unsupported(2)"),
            ("<a:s> <a:p> 5.e1", "Unsupported(1)"),
            ("<a:s> <a:p> -5E+1", "Unsupported(1)"),
            ("<a:s> <a:p> <o:o>.5", "Unsupported(1)"),
        ],
    )
}

#[test]
fn no_text_is_refused_by_its_byte(rt: HostRuntime) -> Result<(), Fail> {
    let cases: [(&[u8], TurtleError); 3] = [
        (b"\xff", TurtleError::Utf8(0)),
        (b"<a:\xc3(", TurtleError::Utf8(3)),
        (b"[\n\xe2\x82", TurtleError::Utf8(2)),
    ];
    for (text, expected) in cases {
        match read(rt.alloc(), text) {
            Ok(_) => assert!(rt; false, "{text:?} is read"),
            Err(fault) => assert_eq!(rt; fault, expected, "{text:?}"),
        }
    }
    Ok(())
}
