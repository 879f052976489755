ghost use Rattle.std.specs.Prelude.{◌≤◌, length};

use super::*;
use crate::cases::{
    DECLARATIONS, LONGER, NO_SHADERS_1, NO_SHADERS_2, NO_SHADERS_3, NO_SHADERS_4, NO_SHADERS_5,
    NO_SHADERS_6, SHAPES_1, SHAPES_2, SHAPES_3, SHAPES_4, STATEMENTS,
};
use glsl_lex::lex;
use glsl_tree::{Callee, Class, Expr, Item, KEYWORDS, Stmt, Token, Unit, spell};
use std::alloc::{AllocError, Global};
use std::process::Abort;
use std::test::Fail;

/// What a source is: a tree that spells its tokens, one that does not, no tree, or no answer.
#[derive(Clone, Copy, Debug, PartialEq, Eq)]
enum Answer {
    Tree,
    AnotherTree,
    Syntax,
    Nothing,
}

fn same(a: &[Token], b: &[Token]) -> bool {
    a.len() == b.len()
        && a.iter().zip(b.iter()).all(|(x, y)| {
            x.text.as_slice() == y.text.as_slice() && x.class == y.class
        })
}

fn outcome(alloc: Global, tokens: &[Token]) -> Answer {
    match parse(alloc, tokens) {
        Ok(unit) => match spell(alloc, &unit) {
            Ok(out) if same(out.as_slice(), tokens) => Answer::Tree,
            Ok(_) => Answer::AnotherTree,
            Err(_) => Answer::Nothing,
        },
        Err(Parse::Syntax) => Answer::Syntax,
        Err(Parse::Memory) => Answer::Nothing,
    }
}

fn outcome_of(alloc: Global, source: &[u8]) -> Answer {
    if source.len() > 262_144 {
        return Answer::Nothing;
    }
    match lex(alloc, source) {
        Ok(tokens) => outcome(alloc, tokens.as_slice()),
        Err(_) => Answer::Nothing,
    }
}

#[test]
fn sentences_of_the_grammar_have_a_tree(rt: HostRuntime) -> Result<(), Fail> {
    for source in DECLARATIONS.iter() {
        let source: &[u8] = source;
        assert_eq!(rt;
            outcome_of(rt.alloc(), source),
            Answer::Tree,
            "of {source:?}"
        );
    }
    for source in STATEMENTS.iter() {
        let source: &[u8] = source;
        assert_eq!(rt;
            outcome_of(rt.alloc(), source),
            Answer::Tree,
            "of {source:?}"
        );
    }
    Ok(())
}

fn expect_syntax(rt: &impl Abort, alloc: Global, sources: &[&[u8]]) {
    for source in sources {
        assert_eq!(rt; outcome_of(alloc, source), Answer::Syntax, "of {source:?}");
    }
}

#[test]
fn other_tokens_have_none(rt: HostRuntime) -> Result<(), Fail> {
    let alloc = rt.alloc();
    expect_syntax(&rt, alloc, &[b""]);
    expect_syntax(&rt, alloc, &NO_SHADERS_1);
    expect_syntax(&rt, alloc, &NO_SHADERS_2);
    expect_syntax(&rt, alloc, &NO_SHADERS_3);
    Ok(())
}

#[test]
fn more_tokens_have_none(rt: HostRuntime) -> Result<(), Fail> {
    let alloc = rt.alloc();
    expect_syntax(&rt, alloc, &NO_SHADERS_4);
    expect_syntax(&rt, alloc, &NO_SHADERS_5);
    expect_syntax(&rt, alloc, &NO_SHADERS_6);
    Ok(())
}

fn show_callee(out: &mut Vec<u8>, callee: &Callee) -> Result<(), AllocError> {
    match callee {
        Callee::Name(text) => out.extend_from_slice(text.as_slice()),
        Callee::Basic(kind) => out.extend_from_slice(kind.text()),
    }
}

/// Writes an expression with square brackets around what belongs together, and braces around a call.
#[cycle(show)]
fn show(out: &mut Vec<u8>, expression: &Expr) -> Result<(), AllocError> {
    match expression {
        Expr::Name(text) | Expr::Int(text) | Expr::Float(text) => {
            out.extend_from_slice(text.as_slice())
        }
        Expr::Truth(true) => out.extend_from_slice(b"true"),
        Expr::Truth(false) => out.extend_from_slice(b"false"),
        Expr::Bracket(inner) => {
            out.push(b'(')?;
            show(out, inner.get())?;
            out.push(b')')?;
            Ok(())
        }
        Expr::Call { callee, arguments } => {
            out.push(b'{')?;
            show_callee(out, callee)?;
            show_arguments(out, arguments.as_slice())?;
            out.push(b'}')?;
            Ok(())
        }
        Expr::CallVoid { callee } => {
            out.push(b'{')?;
            show_callee(out, callee)?;
            out.extend_from_slice(b" void}")
        }
        Expr::Index { base, index } => {
            out.push(b'[')?;
            show(out, base.get())?;
            out.push(b'[')?;
            show(out, index.get())?;
            out.extend_from_slice(b"]]")
        }
        Expr::Field { base, name } => {
            out.push(b'[')?;
            show(out, base.get())?;
            out.push(b'.')?;
            out.extend_from_slice(name.as_slice())?;
            out.push(b']')?;
            Ok(())
        }
        Expr::Postfix { operand, operator } => {
            out.push(b'[')?;
            show(out, operand.get())?;
            out.extend_from_slice(operator.text())?;
            out.push(b']')?;
            Ok(())
        }
        Expr::Prefix { operator, operand } => {
            out.push(b'[')?;
            out.extend_from_slice(operator.text())?;
            show(out, operand.get())?;
            out.push(b']')?;
            Ok(())
        }
        Expr::Binary {
            operator,
            left,
            right,
        } => {
            out.push(b'[')?;
            show(out, left.get())?;
            out.extend_from_slice(operator.text())?;
            show(out, right.get())?;
            out.push(b']')?;
            Ok(())
        }
        Expr::Conditional {
            condition,
            if_true,
            if_false,
        } => {
            out.push(b'[')?;
            show(out, condition.get())?;
            out.push(b'?')?;
            show(out, if_true.get())?;
            out.push(b':')?;
            show(out, if_false.get())?;
            out.push(b']')?;
            Ok(())
        }
        Expr::Assign {
            operator,
            target,
            value,
        } => {
            out.push(b'[')?;
            show(out, target.get())?;
            out.extend_from_slice(operator.text())?;
            show(out, value.get())?;
            out.push(b']')?;
            Ok(())
        }
    }
}

#[cycle(show)]
fn show_arguments(out: &mut Vec<u8>, arguments: &[Expr]) -> Result<(), AllocError> {
    for argument in arguments {
        out.push(b' ')?;
        show(out, argument)?;
    }
    Ok(())
}

/// The expression that the only function of a shader returns.
fn returned(unit: &Unit) -> Option<&Expr> {
    match unit.items.as_slice() {
        [Item::Function { body, .. }] => match body.as_slice() {
            [Stmt::Return(Some(value))] => Some(value),
            _ => None,
        },
        _ => None,
    }
}

fn shape_of(alloc: Global, source: &[u8]) -> Result<Vec<u8>, AllocError> {
    let mut out = Vec::new(alloc);
    if source.len() > 262_144 {
        return Ok(out);
    }
    let Ok(tokens) = lex(alloc, source) else {
        return Ok(out);
    };
    let Ok(unit) = parse(alloc, tokens.as_slice()) else {
        return Ok(out);
    };
    if let Some(value) = returned(&unit) {
        show(&mut out, value)?;
    }
    Ok(out)
}

fn expect_shapes(
    rt: &impl Abort,
    alloc: Global,
    rows: &[(&[u8], &[u8])],
) -> Result<(), AllocError> {
    for (source, shape) in rows {
        let out = shape_of(alloc, source)?;
        assert_eq!(rt; out.as_slice(), *shape, "of {source:?}");
        assert_eq!(rt; outcome_of(alloc, source), Answer::Tree, "of {source:?}");
    }
    Ok(())
}

#[test]
fn operands_belong_to_the_tighter_operator(rt: HostRuntime) -> Result<(), Fail> {
    let alloc = rt.alloc();
    expect_shapes(&rt, alloc, &SHAPES_1)?;
    expect_shapes(&rt, alloc, &SHAPES_2)?;
    Ok(())
}

#[test]
fn operators_of_one_level_belong_together(rt: HostRuntime) -> Result<(), Fail> {
    let alloc = rt.alloc();
    expect_shapes(&rt, alloc, &SHAPES_3)?;
    expect_shapes(&rt, alloc, &SHAPES_4)?;
    Ok(())
}

#[test]
fn an_else_belongs_to_the_nearest_if(rt: HostRuntime) -> Result<(), Fail> {
    let Ok(tokens) = lex(
        rt.alloc(),
        b"void main(){if(true)if(false)discard;else return;}",
    ) else {
        assert!(rt; false, "the source has tokens");
        return Ok(());
    };
    let Ok(unit) = parse(rt.alloc(), tokens.as_slice()) else {
        assert!(rt; false, "the tokens have a tree");
        return Ok(());
    };
    let found = match unit.items.as_slice() {
        [Item::Function { body, .. }] => match body.as_slice() {
            [
                Stmt::If {
                    then,
                    otherwise: None,
                    ..
                },
            ] => match then.get() {
                Stmt::If {
                    then,
                    otherwise: Some(branch),
                    ..
                } => {
                    matches!(then.get(), Stmt::Discard)
                        && matches!(branch.get(), Stmt::Return(None))
                }
                _ => false,
            },
            _ => false,
        },
        _ => false,
    };
    assert!(rt; found);
    Ok(())
}

/// A piece so many times, between two others.
fn repeated(
    alloc: Global,
    front: &[u8],
    piece: &[u8],
    times: u32,
    end: &[u8],
) -> Result<Vec<u8>, AllocError> {
    let mut out = Vec::from_slice(alloc, front)?;
    for _ in 0..times {
        out.extend_from_slice(piece)?;
    }
    out.extend_from_slice(end)?;
    Ok(out)
}

fn outcome_between(
    alloc: Global,
    front: &[u8],
    pieces: (&[u8], &[u8]),
    times: u32,
    end: &[u8],
) -> Result<Answer, AllocError> {
    let mut source = repeated(alloc, front, pieces.0, times, b"1")?;
    let tail = repeated(alloc, b"", pieces.1, times, end)?;
    source.extend_from_slice(tail.as_slice())?;
    Ok(outcome_of(alloc, source.as_slice()))
}

#[test]
fn a_tree_has_a_height_of_at_most_128(rt: HostRuntime) -> Result<(), Fail> {
    let alloc = rt.alloc();
    let brackets: (&[u8], &[u8]) = (b"(", b")");
    let signs: (&[u8], &[u8]) = (b"- ", b"");
    let sums: (&[u8], &[u8]) = (b"1+", b"");
    let rows: [(&[u8], (&[u8], &[u8]), u32, &[u8], Answer); 13] = [
        (b"float f(){return ", brackets, 60, b";}", Answer::Tree),
        (b"float f(){return ", brackets, 300, b";}", Answer::Syntax),
        (b"float a=", brackets, 124, b";", Answer::Tree),
        (b"float a=", brackets, 125, b";", Answer::Syntax),
        (b"float a=", signs, 124, b";", Answer::Tree),
        (b"float a=", signs, 125, b";", Answer::Syntax),
        (b"float a=", sums, 124, b";", Answer::Tree),
        (b"float a=", sums, 125, b";", Answer::Syntax),
        (b"float a[", brackets, 123, b"];", Answer::Tree),
        (b"float a[", brackets, 124, b"];", Answer::Syntax),
        (b"void f(){", (b"{", b";}"), 123, b"}", Answer::Tree),
        (b"void f(){", (b"{", b";}"), 124, b"}", Answer::Syntax),
        (b"float a=", brackets, 50_000, b";", Answer::Syntax),
    ];
    for (front, pieces, times, end, expected) in rows.iter() {
        let found = outcome_between(alloc, front, *pieces, *times, end)?;
        assert_eq!(rt; found, *expected, "of {times} {front:?}");
    }
    Ok(())
}

#[test]
fn no_word_of_the_language_is_a_name(rt: HostRuntime) -> Result<(), Fail> {
    for words in KEYWORDS.iter() {
        for word in words.iter() {
            let word: &[u8] = word;
            let source = repeated(rt.alloc(), b"float ", word, 1, b";")?;
            assert_eq!(rt;
                outcome_of(rt.alloc(), source.as_slice()),
                Answer::Syntax,
                "of {word:?}"
            );
        }
    }
    Ok(())
}

#[test]
fn a_shader_ends_only_where_its_last_item_does(rt: HostRuntime) -> Result<(), Fail> {
    let source: &[u8] = LONGER;
    let Ok(tokens) = lex(rt.alloc(), source) else {
        assert!(rt; false, "the source has tokens");
        return Ok(());
    };
    let tokens = tokens.as_slice();
    let ends: [usize; 5] = [4, 11, 25, 37, tokens.len()];
    for n in 0..tokens.len() + 1 {
        let expected = if ends.contains(&n) {
            Answer::Tree
        } else {
            Answer::Syntax
        };
        assert_eq!(rt;
            outcome(rt.alloc(), tokens.split_at(n).0),
            expected,
            "of the first {n}"
        );
    }
    Ok(())
}

fn with_class(alloc: Global, at: usize, class: Class) -> Result<Answer, AllocError> {
    let Ok(mut tokens) = lex(alloc, b"float f(){return (a);}") else {
        return Ok(Answer::Nothing);
    };
    if at < tokens.len() {
        tokens[at].class = class;
    }
    Ok(outcome(alloc, tokens.as_slice()))
}

#[test]
fn tokens_of_another_class_spell_nothing(rt: HostRuntime) -> Result<(), Fail> {
    let alloc = rt.alloc();
    assert_eq!(rt; with_class(alloc, 2, Class::Punct)?, Answer::Tree);
    for at in 0..10 {
        for class in [Class::Params, Class::Hash, Class::NewLine] {
            assert_eq!(rt;
                with_class(alloc, at, class)?,
                Answer::Syntax,
                "of the token {at}"
            );
        }
    }
    assert_eq!(rt; with_class(alloc, 0, Class::Identifier)?, Answer::Syntax);
    assert_eq!(rt; with_class(alloc, 1, Class::Keyword)?, Answer::Syntax);
    Ok(())
}
