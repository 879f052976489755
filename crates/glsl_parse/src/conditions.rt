//! What stands in the brackets of a choice or a loop, and expressions with what ends them (GLSL ES 1.00.17 sections 6.2
//! and 6.3).

ghost use Rattle.std.specs.Prelude.{◌≡◌, ◌≤◌, ◌<◌, length, IfOk};
ghost use Rattle.glsl_tree.specs.Token.{plain_tokens};
ghost use Rattle.glsl_parse.specs.Answers.{Gives};
ghost use Rattle.glsl_parse.specs.StatementReadings as reading;

use crate::declarations::{declaration, declares};
use crate::errors::Parse;
use crate::expressions::expression;
use crate::qualifiers::full_type;
use crate::symbols::Header;
use crate::tokens::{after_mark, expect_mark, name_at};
use glsl_tree::{Condition, Expr, Start, Token};
use std::alloc::Global;

/// An expression and the bracket that closes it.
#[tactic(auto, unfolding(crate::specs::StatementReadings::closed_expression))]
fn closed_expression<'a>(
    alloc: Global,
    room: u32,
    list: &'a [Token],
) -> Result<(Expr, &'a [Token]), Parse>
    requires { room ≤ 128 }
    ensures found { Gives result (reading.closed_expression room (plain_tokens list.now)) }
    ensures shorter { IfOk result (λ found. length found.1.now < length list.now) }
{
    let found = expression(alloc, room, 0, list)?;
    let rest = expect_mark(found.rest, b")")?;
    Ok((found.tree, rest))
}

/// An expression in brackets.
#[tactic(auto, unfolding(crate::specs::StatementReadings::test_at))]
pub fn test<'a>(alloc: Global, room: u32, list: &'a [Token]) -> Result<(Expr, &'a [Token]), Parse>
    requires { room ≤ 128 }
    ensures found { Gives result (reading.test_at room (plain_tokens list.now)) }
    ensures shorter { IfOk result (λ found. length found.1.now < length list.now) }
{
    let rest = expect_mark(list, b"(")?;
    closed_expression(alloc, room, rest)
}

/// An expression and a semicolon.
#[tactic(auto, unfolding(crate::specs::StatementReadings::ended_expression))]
pub fn ended_expression<'a>(
    alloc: Global,
    room: u32,
    list: &'a [Token],
) -> Result<(Expr, &'a [Token]), Parse>
    requires { room ≤ 128 }
    ensures found { Gives result (reading.ended_expression room (plain_tokens list.now)) }
    ensures shorter { IfOk result (λ found. length found.1.now < length list.now) }
{
    let found = expression(alloc, room, 0, list)?;
    let rest = expect_mark(found.rest, b";")?;
    Ok((found.tree, rest))
}

/// The declaration in a condition, whose parts have a height of at most `below`.
#[tactic(auto, unfolding(crate::specs::StatementReadings::declared_condition))]
fn declared_condition<'a>(
    alloc: Global,
    below: u32,
    list: &'a [Token],
) -> Result<(Condition, &'a [Token]), Parse>
    requires { below ≤ 128 }
    ensures found { Gives result (reading.declared_condition below (plain_tokens list.now)) }
    ensures shorter { IfOk result (λ found. length found.1.now < length list.now) }
{
    let (full_type, _, rest) = full_type(alloc, below, list)?;
    let (name, rest) = name_at(alloc, rest)?;
    let rest = expect_mark(rest, b"=")?;
    let value = expression(alloc, below, 1, rest)?;
    let condition = Condition::Declared {
        full_type,
        name,
        value: value.tree,
    };
    Ok((condition, value.rest))
}

/// The condition of a loop.
#[tactic(auto, unfolding(crate::specs::StatementReadings::condition_at), using(crate::proofs::Rooms::rooms))]
fn condition<'a>(
    alloc: Global,
    room: u32,
    list: &'a [Token],
) -> Result<(Condition, &'a [Token]), Parse>
    requires { room ≤ 128 }
    ensures found { Gives result (reading.condition_at room (plain_tokens list.now)) }
    ensures shorter { IfOk result (λ found. length found.1.now < length list.now) }
{
    if !declares(list) {
        let found = expression(alloc, room, 0, list)?;
        return Ok((Condition::Expression(found.tree), found.rest));
    }
    if room == 0 {
        return Err(Parse::Syntax);
    }
    declared_condition(alloc, room - 1, list)
}

/// The condition of a loop, and the bracket that closes it.
#[tactic(auto, unfolding(crate::specs::StatementReadings::closed_condition))]
pub fn closed_condition<'a>(
    alloc: Global,
    room: u32,
    list: &'a [Token],
) -> Result<(Condition, &'a [Token]), Parse>
    requires { room ≤ 128 }
    ensures found { Gives result (reading.closed_condition room (plain_tokens list.now)) }
    ensures shorter { IfOk result (λ found. length found.1.now < length list.now) }
{
    let (condition, rest) = condition(alloc, room, list)?;
    let rest = expect_mark(rest, b")")?;
    Ok((condition, rest))
}

/// The condition of a `for`, which may be left out, and its semicolon.
#[tactic(auto, unfolding(crate::specs::StatementReadings::optional_condition))]
fn optional_condition<'a>(
    alloc: Global,
    room: u32,
    list: &'a [Token],
) -> Result<(Option<Condition>, &'a [Token]), Parse>
    requires { room ≤ 128 }
    ensures found { Gives result (reading.optional_condition room (plain_tokens list.now)) }
    ensures shorter { IfOk result (λ found. length found.1.now < length list.now) }
{
    if let Some(rest) = after_mark(list, b";") {
        return Ok((None, rest));
    }
    let (condition, rest) = condition(alloc, room, list)?;
    let rest = expect_mark(rest, b";")?;
    Ok((Some(condition), rest))
}

/// The last part in the brackets of a `for`, which may be left out, and the bracket that closes them.
#[tactic(auto, unfolding(crate::specs::StatementReadings::optional_step))]
fn optional_step<'a>(
    alloc: Global,
    room: u32,
    list: &'a [Token],
) -> Result<(Option<Expr>, &'a [Token]), Parse>
    requires { room ≤ 128 }
    ensures found { Gives result (reading.optional_step room (plain_tokens list.now)) }
    ensures shorter { IfOk result (λ found. length found.1.now < length list.now) }
{
    if let Some(rest) = after_mark(list, b")") {
        return Ok((None, rest));
    }
    let (step, rest) = closed_expression(alloc, room, list)?;
    Ok((Some(step), rest))
}

/// The value that a function returns, which may be left out, and its semicolon.
#[tactic(auto, unfolding(crate::specs::StatementReadings::optional_value))]
pub fn optional_value<'a>(
    alloc: Global,
    room: u32,
    list: &'a [Token],
) -> Result<(Option<Expr>, &'a [Token]), Parse>
    requires { room ≤ 128 }
    ensures found { Gives result (reading.optional_value room (plain_tokens list.now)) }
    ensures shorter { IfOk result (λ found. length found.1.now < length list.now) }
{
    if let Some(rest) = after_mark(list, b";") {
        return Ok((None, rest));
    }
    let (value, rest) = ended_expression(alloc, room, list)?;
    Ok((Some(value), rest))
}

/// The first part in the brackets of a `for`, with its semicolon.
#[tactic(auto, unfolding(crate::specs::StatementReadings::start_at))]
fn start<'a>(alloc: Global, room: u32, list: &'a [Token]) -> Result<(Start, &'a [Token]), Parse>
    requires { room ≤ 128 }
    ensures found { Gives result (reading.start_at room (plain_tokens list.now)) }
    ensures shorter { IfOk result (λ found. length found.1.now < length list.now) }
{
    if let Some(rest) = after_mark(list, b";") {
        return Ok((Start::Empty, rest));
    }
    if declares(list) {
        let (declaration, rest) = declaration(alloc, room, list)?;
        Ok((Start::Declaration(declaration), rest))
    } else {
        let (expression, rest) = ended_expression(alloc, room, list)?;
        Ok((Start::Expression(expression), rest))
    }
}

/// The three parts in the brackets of a `for`, after the opening bracket and with the closing one.
#[tactic(auto, unfolding(crate::specs::StatementReadings::header_at))]
pub fn header<'a>(
    alloc: Global,
    room: u32,
    list: &'a [Token],
) -> Result<(Header, &'a [Token]), Parse>
    requires { room ≤ 128 }
    ensures found { Gives result (reading.header_at room (plain_tokens list.now)) }
    ensures shorter { IfOk result (λ found. length found.1.now < length list.now) }
{
    let (start, rest) = start(alloc, room, list)?;
    let (condition, rest) = optional_condition(alloc, room, rest)?;
    let (step, rest) = optional_step(alloc, room, rest)?;
    let header = Header {
        start,
        condition,
        step,
    };
    Ok((header, rest))
}
