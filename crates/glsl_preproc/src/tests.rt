ghost use Rattle.std.specs.Prelude.{◌≤◌, length};

use super::*;
use crate::cases::{CONDITIONS, DIRECTIVES, EXPRESSIONS, LONGER, LONGEST, MACROS, NUMBERED};
use glsl_lex::lex;
use glsl_tree::Token;
use std::alloc::{AllocError, Global};
use std::process::Abort;
use std::test::Fail;

fn push_text(out: &mut Vec<u8>, token: &Token) -> Result<(), AllocError> {
    if !out.is_empty() {
        out.push(b' ')?;
    }
    out.extend_from_slice(token.text.as_slice())
}

/// What a source is expanded to, in the words of the table.
fn shown(alloc: Global, source: &[u8]) -> Result<Vec<u8>, AllocError>
    requires { length source.now ≤ 262144 }
{
    let mut out = Vec::new(alloc);
    let Ok(tokens) = lex(alloc, source) else {
        out.push(b'L')?;
        return Ok(out);
    };
    match expand(alloc, tokens.as_slice()) {
        Ok(expanded) => {
            for token in expanded.as_slice() {
                push_text(&mut out, token)?;
            }
        }
        Err(Pre::Directive(line)) => {
            out.push(b'!')?;
            out.push(b'0' + (line % 10) as u8)?;
        }
        Err(Pre::TooLong) => out.push(b'T')?,
        Err(Pre::Memory) => out.push(b'M')?,
    }
    Ok(out)
}

fn compare(rt: &impl Abort, alloc: Global, cases: &[(&[u8], &[u8])]) -> Result<(), Fail> {
    for (source, expected) in cases.iter() {
        let source: &[u8] = source;
        if source.len() <= 262_144 {
            let out = shown(alloc, source)?;
            assert_eq!(rt; out.as_slice(), *expected, "of {source:?}");
        } else {
            assert!(rt; false, "a source has at most 262,144 bytes");
        }
    }
    Ok(())
}

#[test]
fn expands_directives_and_macros(rt: HostRuntime) -> Result<(), Fail> {
    compare(&rt, rt.alloc(), &DIRECTIVES)?;
    compare(&rt, rt.alloc(), &MACROS)?;
    compare(&rt, rt.alloc(), &NUMBERED)?;
    compare(&rt, rt.alloc(), &CONDITIONS)?;
    compare(&rt, rt.alloc(), &EXPRESSIONS)?;
    compare(&rt, rt.alloc(), &LONGER)?;
    let Ok(tokens) = lex(rt.alloc(), LONGEST) else {
        assert!(rt; false, "the macros are tokens");
        return Ok(());
    };
    let expanded = expand(rt.alloc(), tokens.as_slice());
    assert!(rt; matches!(&expanded, Ok(tokens) if tokens.len() == 131_072));
    Ok(())
}

/// A piece so many times, between two others.
fn repeated(
    alloc: Global,
    front: &[u8],
    piece: &[u8],
    times: u32,
    end: &[u8],
) -> Result<Vec<u8>, AllocError> {
    let mut out = Vec::new(alloc);
    out.extend_from_slice(front)?;
    for _ in 0..times {
        out.extend_from_slice(piece)?;
    }
    out.extend_from_slice(end)?;
    Ok(out)
}

/// A chain of so many macros, each with the name of the one before it, and the last one's name.
fn chain(alloc: Global, macros: u32) -> Result<Vec<u8>, AllocError> {
    let mut out = Vec::new(alloc);
    for n in 0..macros {
        let line = format!(in alloc; "#define a{} a{n}\n", n + 1)?;
        out.extend_from_slice(line.as_bytes())?;
    }
    let name = format!(in alloc; "a{macros}")?;
    out.extend_from_slice(name.as_bytes())?;
    Ok(out)
}

/// An expression of `#if` in so many brackets.
fn bracketed(alloc: Global, brackets: u32) -> Result<Vec<u8>, AllocError> {
    let inner = repeated(alloc, b"1", b")", brackets, b"\na\n#endif")?;
    repeated(alloc, b"#if ", b"(", brackets, inner.as_slice())
}

/// Calls of a macro within one another.
fn nested(alloc: Global, calls: u32) -> Result<Vec<u8>, AllocError> {
    let inner = repeated(alloc, b"x", b")", calls, b"")?;
    repeated(alloc, b"#define f(x) x\n", b"f(", calls, inner.as_slice())
}

/// How many tokens a source is expanded to.
fn count_of(alloc: Global, source: &[u8]) -> Result<Option<usize>, AllocError> {
    if source.len() > 262_144 {
        return Ok(None);
    }
    let Ok(tokens) = lex(alloc, source) else {
        return Ok(None);
    };
    match expand(alloc, tokens.as_slice()) {
        Ok(expanded) => Ok(Some(expanded.len())),
        Err(_) => Ok(None),
    }
}

#[test]
fn keeps_many_calls_that_are_not_closed(rt: HostRuntime) -> Result<(), Fail> {
    let alloc = rt.alloc();
    let front = b"#define f(x) x\n";
    let open = repeated(alloc, front, b"f(", 60_000, b"")?;
    assert_eq!(rt; count_of(alloc, open.as_slice())?, Some(120_000));
    let last_closed = repeated(alloc, front, b"f(", 60_000, b")")?;
    assert_eq!(rt; count_of(alloc, last_closed.as_slice())?, Some(119_998));
    Ok(())
}

#[test]
fn expands_what_nests_in_900_levels(rt: HostRuntime) -> Result<(), Fail> {
    let alloc = rt.alloc();
    let brackets = bracketed(alloc, 900)?;
    let signs = repeated(alloc, b"#if ", b"!", 900, b"1\na\n#endif")?;
    let macros = chain(alloc, 900)?;
    let calls = nested(alloc, 900)?;
    compare(
        &rt,
        alloc,
        &[
            (brackets.as_slice(), b"a".as_slice()),
            (signs.as_slice(), b"a".as_slice()),
            (macros.as_slice(), b"a0".as_slice()),
            (calls.as_slice(), b"x".as_slice()),
        ],
    )
}

#[test]
fn answers_memory_for_what_nests_in_1100_levels(rt: HostRuntime) -> Result<(), Fail> {
    let alloc = rt.alloc();
    let brackets = bracketed(alloc, 1100)?;
    let signs = repeated(alloc, b"#if ", b"!", 1100, b"1\na\n#endif")?;
    let macros = chain(alloc, 1100)?;
    let calls = nested(alloc, 1100)?;
    compare(
        &rt,
        alloc,
        &[
            (brackets.as_slice(), b"M".as_slice()),
            (signs.as_slice(), b"M".as_slice()),
            (macros.as_slice(), b"M".as_slice()),
            (calls.as_slice(), b"M".as_slice()),
        ],
    )
}

/// Calls that each handle more than 100,000 tokens and leave none.
fn empty_calls(alloc: Global, calls: u32) -> Result<Vec<u8>, AllocError> {
    let marks = repeated(alloc, b"#define f(x)\n#define a ", b"+ ", 1000, b"\n")?;
    let names = repeated(alloc, b"#define b ", b"a ", 100, b"\n")?;
    let front = repeated(alloc, marks.as_slice(), names.as_slice(), 1, b"")?;
    repeated(alloc, front.as_slice(), b"f(b) ", calls, b"")
}

#[test]
fn answers_memory_past_the_bound_on_work(rt: HostRuntime) -> Result<(), Fail> {
    let alloc = rt.alloc();
    let short = empty_calls(alloc, 2)?;
    let long = empty_calls(alloc, 200)?;
    let repeating = repeated(alloc, b"#define f(x)", b" x", 200, b"\nf(f(f(f(1))))")?;
    compare(
        &rt,
        alloc,
        &[
            (short.as_slice(), b"".as_slice()),
            (long.as_slice(), b"M".as_slice()),
            (repeating.as_slice(), b"M".as_slice()),
        ],
    )
}
