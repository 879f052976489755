//! Expressions (GLSL ES 1.00.17 chapter 5, and `expression` of chapter 9).

ghost use Rattle.std.specs.Prelude.{◌≡◌, ◌≤◌, ◌<◌, ◌+◌, length, IfOk};
ghost use Rattle.glsl_tree.specs.Token.{plain_tokens};
ghost use Rattle.glsl_tree.specs.Expressions.{grade, expression_height};
ghost use Rattle.glsl_parse.specs.Answers.{Finds, IsMeasured};
ghost use Rattle.glsl_parse.specs.ExpressionReadings as reading;

use crate::errors::Parse;
use crate::nodes::{Found, assignment, binary, conditional, element, field, postfix, prefix};
use crate::primaries::primary;
use crate::symbols::{Infix, Suffix, binary_level};
use crate::tokens::{after_first, expect_mark, infix_at, name_at, prefix_at, suffix_at};
use glsl_tree::Token;
use std::alloc::Global;

/// An expression of the least level or a higher one, with a height of at most `room`.
#[cycle(expression)]
#[tactic(auto, using(crate::proofs::Rooms::rooms))]
pub fn expression<'a>(
    alloc: Global,
    room: u32,
    least: u32,
    list: &'a [Token],
) -> Result<Found<'a>, Parse>
    requires { room ≤ 128 }
    ensures found { Finds result (reading.expression room least (plain_tokens list.now)) }
    ensures measured { IfOk result IsMeasured }
    ensures bounded { IfOk result (λ found. found.height ≤ room) }
    ensures shorter { IfOk result (λ found. length found.rest.now < length list.now) }
{
    if room == 0 {
        return Err(Parse::Syntax);
    }
    climbed(alloc, room - 1, least, list)
}

/// The same where the parts have a height of at most `below`: an operand, and what operators join to it.
#[cycle(expression)]
#[tactic(auto, unfolding(crate::specs::ExpressionReadings::climbed, crate::specs::ExpressionReadings::more_joined), using(crate::proofs::Loops::loops))]
fn climbed<'a>(alloc: Global, below: u32, least: u32, list: &'a [Token]) -> Result<Found<'a>, Parse>
    requires { below < 128 }
    ensures found { Finds result (reading.climbed below (reading.expression below) least (plain_tokens list.now)) }
    ensures measured { IfOk result IsMeasured }
    ensures bounded { IfOk result (λ found. found.height ≤ below + 1) }
    ensures shorter { IfOk result (λ found. length found.rest.now < length list.now) }
{
    let mut left = operand(alloc, below, list)?;
    while let Some(infix) = infix_at(least, left.level, left.rest) {
        left = joined(alloc, below, left, infix)?;
    }
    Ok(left)
}

/// An expression joined to what follows it by the operator at the front of its `rest`.
#[cycle(expression)]
#[tactic(auto, unfolding(crate::specs::ExpressionReadings::joined))]
fn joined<'a>(alloc: Global, below: u32, left: Found<'a>, join: Infix) -> Result<Found<'a>, Parse>
    requires small { below < 128 }
    requires measured { IsMeasured left }
    requires more { 0 < length left.rest.now }
    ensures found { Finds result (reading.joined below (reading.expression below) left.entry.tree join (reading.after_first (plain_tokens left.entry.rest.now))) }
    ensures measured { IfOk result IsMeasured }
    ensures bounded { IfOk result (λ found. found.height ≤ below + 1) }
    ensures shorter { IfOk result (λ found. length found.rest.now < length left.entry.rest.now) }
{
    if left.height > below {
        return Err(Parse::Syntax);
    }
    let rest = after_first(left.rest);
    match join {
        Infix::Binary(operator) => {
            let level = binary_level(operator);
            let right = expression(alloc, below, level + 1, rest)?;
            binary(alloc, operator, left, right)
        }
        Infix::Conditional => branches(alloc, below, left, rest),
        Infix::Assign(operator) => {
            let value = expression(alloc, below, 1, rest)?;
            assignment(alloc, operator, left, value)
        }
    }
}

/// A condition with the middle and the last part of `?:`, which stand in `rest`.
#[cycle(expression)]
#[tactic(auto, unfolding(crate::specs::ExpressionReadings::branches))]
fn branches<'a>(
    alloc: Global,
    below: u32,
    condition: Found<'a>,
    rest: &'a [Token],
) -> Result<Found<'a>, Parse>
    requires small { below < 128 }
    requires measured { IsMeasured condition }
    requires bounded { condition.height ≤ below }
    ensures found { Finds result (reading.branches (reading.expression below) condition.entry.tree (plain_tokens rest.now)) }
    ensures measured { IfOk result IsMeasured }
    ensures bounded { IfOk result (λ found. found.height ≤ below + 1) }
    ensures shorter { IfOk result (λ found. length found.rest.now < length rest.now) }
{
    let if_true = expression(alloc, below, 0, rest)?;
    let rest = expect_mark(if_true.rest, b":")?;
    let if_false = expression(alloc, below, 1, rest)?;
    conditional(alloc, condition, if_true, if_false)
}

/// An operand: an operator before an operand, or a primary expression with what stands directly after it.
#[cycle(expression)]
#[tactic(auto, unfolding(crate::specs::ExpressionReadings::operand))]
fn operand<'a>(alloc: Global, below: u32, list: &'a [Token]) -> Result<Found<'a>, Parse>
    requires { below < 128 }
    ensures found { Finds result (reading.operand below (reading.expression below) (plain_tokens list.now)) }
    ensures measured { IfOk result IsMeasured }
    ensures bounded { IfOk result (λ found. found.height ≤ below + 1) }
    ensures shorter { IfOk result (λ found. length found.rest.now < length list.now) }
{
    match prefix_at(list) {
        Some(operator) => {
            let operand = expression(alloc, below, 10, after_first(list))?;
            prefix(alloc, operator, operand)
        }
        None => postfixed(alloc, below, list),
    }
}

/// A primary expression with what stands directly after it.
#[cycle(expression)]
#[tactic(auto, unfolding(crate::specs::ExpressionReadings::postfixed, crate::specs::ExpressionReadings::more_suffixed), using(crate::proofs::Loops::loops))]
fn postfixed<'a>(alloc: Global, below: u32, list: &'a [Token]) -> Result<Found<'a>, Parse>
    requires { below < 128 }
    ensures found { Finds result (reading.postfixed below (reading.expression below) (plain_tokens list.now)) }
    ensures measured { IfOk result IsMeasured }
    ensures bounded { IfOk result (λ found. found.height ≤ below + 1) }
    ensures shorter { IfOk result (λ found. length found.rest.now < length list.now) }
{
    let mut base = primary(alloc, below, list)?;
    while let Some(suffix) = suffix_at(base.rest) {
        base = suffixed(alloc, below, base, suffix)?;
    }
    Ok(base)
}

/// An expression with the index, the field or the operator at the front of its `rest`.
#[cycle(expression)]
#[tactic(auto, unfolding(crate::specs::ExpressionReadings::suffixed))]
fn suffixed<'a>(
    alloc: Global,
    below: u32,
    base: Found<'a>,
    suffix: Suffix,
) -> Result<Found<'a>, Parse>
    requires small { below < 128 }
    requires measured { IsMeasured base }
    requires more { 0 < length base.rest.now }
    ensures found { Finds result (reading.suffixed below (reading.expression below) base.entry.tree suffix (reading.after_first (plain_tokens base.entry.rest.now))) }
    ensures measured { IfOk result IsMeasured }
    ensures bounded { IfOk result (λ found. found.height ≤ below + 1) }
    ensures shorter { IfOk result (λ found. length found.rest.now < length base.entry.rest.now) }
{
    if base.height > below {
        return Err(Parse::Syntax);
    }
    let rest = after_first(base.rest);
    match suffix {
        Suffix::Index => indexed(alloc, below, base, rest),
        Suffix::Field => {
            let (name, rest) = name_at(alloc, rest)?;
            field(alloc, base, name, rest)
        }
        Suffix::Step(operator) => postfix(alloc, base, operator, rest),
    }
}

/// An element of an expression, whose index and closing bracket stand in `rest`.
#[cycle(expression)]
fn indexed<'a>(
    alloc: Global,
    below: u32,
    base: Found<'a>,
    rest: &'a [Token],
) -> Result<Found<'a>, Parse>
    requires small { below < 128 }
    requires measured { IsMeasured base }
    requires bounded { base.height ≤ below }
    ensures found { Finds result (reading.suffixed_by (reading.expression below) base.entry.tree Suffix.Index (plain_tokens rest.now)) }
    ensures measured { IfOk result IsMeasured }
    ensures bounded { IfOk result (λ found. found.height ≤ below + 1) }
    ensures shorter { IfOk result (λ found. length found.rest.now < length rest.now) }
{
    let index = expression(alloc, below, 0, rest)?;
    let rest = expect_mark(index.rest, b"]")?;
    element(alloc, base, index, rest)
}
