//! Primary expressions (GLSL ES 1.00.17 section 5.1): names, numbers, brackets and calls.

ghost use Rattle.std.specs.Prelude.{◌≡◌, ◌≤◌, ◌<◌, ◌+◌, length, IfOk};
ghost use Rattle.glsl_tree.specs.Token.{plain, plain_tokens};
ghost use Rattle.glsl_parse.specs.Answers.{Finds, IsMeasured};
ghost use Rattle.glsl_parse.specs.ExpressionReadings as reading;

use crate::arguments::arguments;
use crate::errors::Parse;
use crate::expressions::expression;
use crate::nodes::{Found, bracket, leaf};
use crate::tokens::{after_mark, after_word, basic_of, expect_mark, is_mark, is_name, is_word};
use glsl_tree::{Callee, Class, Expr, Text, Token};
use sqlite_items::Items;
use std::alloc::Global;

/// A primary expression, where the parts have a height of at most `below`.
#[cycle(expression)]
#[tactic(auto, unfolding(crate::specs::ExpressionReadings::primary), using(crate::proofs::Measures::measures))]
pub fn primary<'a>(alloc: Global, below: u32, list: &'a [Token]) -> Result<Found<'a>, Parse>
    requires { below < 128 }
    ensures found { Finds result (reading.primary (reading.expression below) (plain_tokens list.now)) }
    ensures measured { IfOk result IsMeasured }
    ensures bounded { IfOk result (λ found. found.height ≤ below + 1) }
    ensures shorter { IfOk result (λ found. length found.rest.now < length list.now) }
{
    let Some((token, rest)) = list.split_first() else {
        return Err(Parse::Syntax);
    };
    match token.class {
        Class::Identifier if is_name(token) => named(alloc, below, token, rest),
        Class::Keyword => word(alloc, below, token, rest),
        Class::Int => Ok(leaf(
            Expr::Int(Text::from_slice(alloc, token.text.as_slice())?),
            rest,
        )),
        Class::Float => Ok(leaf(
            Expr::Float(Text::from_slice(alloc, token.text.as_slice())?),
            rest,
        )),
        Class::Punct if is_mark(token, b"(") => bracketed(alloc, below, rest),
        _ => Err(Parse::Syntax),
    }
}

/// An expression in brackets, after the opening one.
#[cycle(expression)]
#[tactic(auto, unfolding(crate::specs::ExpressionReadings::bracketed))]
fn bracketed<'a>(alloc: Global, below: u32, list: &'a [Token]) -> Result<Found<'a>, Parse>
    requires { below < 128 }
    ensures found { Finds result (reading.bracketed (reading.expression below) (plain_tokens list.now)) }
    ensures measured { IfOk result IsMeasured }
    ensures bounded { IfOk result (λ found. found.height ≤ below + 1) }
    ensures shorter { IfOk result (λ found. length found.rest.now < length list.now) }
{
    let inner = expression(alloc, below, 0, list)?;
    let rest = expect_mark(inner.rest, b")")?;
    bracket(alloc, inner, rest)
}

/// An expression that begins with a word of the language.
#[cycle(expression)]
#[tactic(auto, unfolding(crate::specs::ExpressionReadings::word_expression), using(crate::proofs::Measures::measures))]
fn word<'a>(alloc: Global, below: u32, token: &Token, list: &'a [Token]) -> Result<Found<'a>, Parse>
    requires { below < 128 }
    ensures found { Finds result (reading.word_expression (reading.expression below) (plain token.now) (plain_tokens list.now)) }
    ensures measured { IfOk result IsMeasured }
    ensures bounded { IfOk result (λ found. found.height ≤ below + 1) }
    ensures shorter { IfOk result (λ found. length found.rest.now ≤ length list.now) }
{
    if is_word(token, b"true") {
        return Ok(leaf(Expr::Truth(true), list));
    }
    if is_word(token, b"false") {
        return Ok(leaf(Expr::Truth(false), list));
    }
    match basic_of(token) {
        Some(basic) => {
            let rest = expect_mark(list, b"(")?;
            call(alloc, below, Callee::Basic(basic), rest)
        }
        None => Err(Parse::Syntax),
    }
}

/// A name, or a call of it where a bracket follows.
#[cycle(expression)]
#[tactic(auto, unfolding(crate::specs::ExpressionReadings::named), using(crate::proofs::Measures::measures))]
fn named<'a>(
    alloc: Global,
    below: u32,
    token: &Token,
    list: &'a [Token],
) -> Result<Found<'a>, Parse>
    requires { below < 128 }
    ensures found { Finds result (reading.named (reading.expression below) token.now.text.items (plain_tokens list.now)) }
    ensures measured { IfOk result IsMeasured }
    ensures bounded { IfOk result (λ found. found.height ≤ below + 1) }
    ensures shorter { IfOk result (λ found. length found.rest.now ≤ length list.now) }
{
    let text = Text::from_slice(alloc, token.text.as_slice())?;
    match after_mark(list, b"(") {
        Some(rest) => call(alloc, below, Callee::Name(text), rest),
        None => Ok(leaf(Expr::Name(text), list)),
    }
}

/// A call, after its opening bracket.
#[cycle(expression)]
#[tactic(auto, unfolding(crate::specs::ExpressionReadings::call), using(crate::proofs::Measures::measures))]
fn call<'a>(
    alloc: Global,
    below: u32,
    callee: Callee,
    list: &'a [Token],
) -> Result<Found<'a>, Parse>
    requires { below < 128 }
    ensures found { Finds result (reading.call (reading.expression below) callee (plain_tokens list.now)) }
    ensures measured { IfOk result IsMeasured }
    ensures bounded { IfOk result (λ found. found.height ≤ below + 1) }
    ensures shorter { IfOk result (λ found. length found.rest.now < length list.now) }
{
    if let Some(rest) = after_mark(list, b")") {
        let arguments = Items::new(alloc);
        return Ok(leaf(Expr::Call { callee, arguments }, rest));
    }
    if let Some(rest) = after_word(list, b"void") {
        let rest = expect_mark(rest, b")")?;
        return Ok(leaf(Expr::CallVoid { callee }, rest));
    }
    called(alloc, below, callee, list)
}

/// A call with arguments and the closing bracket.
#[cycle(expression)]
#[tactic(auto, unfolding(crate::specs::ExpressionReadings::arguments), using(crate::proofs::Measures::measures))]
fn called<'a>(
    alloc: Global,
    below: u32,
    callee: Callee,
    list: &'a [Token],
) -> Result<Found<'a>, Parse>
    requires { below < 128 }
    ensures found { Finds result (reading.arguments (reading.expression below) callee (plain_tokens list.now)) }
    ensures measured { IfOk result IsMeasured }
    ensures bounded { IfOk result (λ found. found.height ≤ below + 1) }
    ensures shorter { IfOk result (λ found. length found.rest.now < length list.now) }
{
    let (arguments, height, rest) = arguments(alloc, below, list)?;
    let rest = expect_mark(rest, b")")?;
    Ok(Found {
        tree: Expr::Call { callee, arguments },
        level: 12,
        height: height + 1,
        rest,
    })
}
