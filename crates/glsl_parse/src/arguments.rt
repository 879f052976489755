//! The arguments of a call (GLSL ES 1.00.17 section 5.1).

ghost use Rattle.std.specs.Prelude.{◌≡◌, ◌≤◌, ◌<◌, ◌+◌, length, map, IfOk};
ghost use Rattle.glsl_tree.specs.Token.{plain_tokens};
ghost use Rattle.glsl_tree.specs.Expressions.{highest, expression_height};
ghost use Rattle.glsl_parse.specs.Answers.{GivesList};
ghost use Rattle.glsl_parse.specs.ExpressionReadings as reading;

use crate::errors::Parse;
use crate::expressions::expression;
use crate::tokens::after_mark;
use glsl_tree::{Expr, Token};
use sqlite_items::Items;
use std::alloc::Global;

/// Expressions with commas between them, one at least: all of them, the height of the highest, and the tokens that follow.
#[cycle(expression)]
#[tactic(auto, unfolding(crate::specs::ExpressionReadings::listed, crate::specs::ExpressionReadings::more_listed), using(crate::proofs::Loops::loops, crate::proofs::Measures::highest_more, crate::proofs::Measures::highest_one))]
pub fn arguments<'a>(
    alloc: Global,
    below: u32,
    list: &'a [Token],
) -> Result<(Items<Expr>, u32, &'a [Token]), Parse>
    requires { below < 128 }
    ensures found { GivesList result (reading.listed (reading.expression below 1) (plain_tokens list.now)) }
    ensures measured { IfOk result (λ found. found.1 ≡ highest (map expression_height found.0)) }
    ensures bounded { IfOk result (λ found. found.1 ≤ below) }
    ensures shorter { IfOk result (λ found. length found.2.now < length list.now) }
{
    let first = expression(alloc, below, 1, list)?;
    let mut height = first.height;
    let mut rest = first.rest;
    let mut all = Items::new(alloc);
    all.push(first.tree)?;
    while let Some(more) = after_mark(rest, b",") {
        let argument = expression(alloc, below, 1, more)?;
        all.push(argument.tree)?;
        height = height.max(argument.height);
        rest = argument.rest;
    }
    Ok((all, height, rest))
}
