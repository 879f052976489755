//! Statements (GLSL ES 1.00.17 chapter 6).

ghost use Rattle.std.specs.Prelude.{◌≡◌, ◌≤◌, ◌<◌, length, IfOk};
ghost use Rattle.glsl_tree.specs.Token.{plain, plain_tokens};
ghost use Rattle.glsl_parse.specs.Answers.{Gives};
ghost use Rattle.glsl_parse.specs.StatementReadings as reading;

use crate::conditions::{closed_condition, ended_expression, header, optional_value, test};
use crate::declarations::{declaration, declares};
use crate::errors::Parse;
use crate::symbols::Leader;
use crate::tokens::{
    after_first, after_word, begins_with_mark, expect_mark, expect_word, leader_of,
};
use glsl_tree::{Stmt, Token};
use sqlite_items::{Boxed, Items};
use std::alloc::Global;

/// A statement with a height of at most `room`.
#[cycle(statement)]
#[tactic(auto, unfolding(crate::specs::StatementReadings::statement_of), using(crate::proofs::Rooms::rooms))]
pub fn statement<'a>(
    alloc: Global,
    room: u32,
    list: &'a [Token],
) -> Result<(Stmt, &'a [Token]), Parse>
    requires { room ≤ 128 }
    ensures found { Gives result (reading.statement_at room (plain_tokens list.now)) }
    ensures shorter { IfOk result (λ found. length found.1.now < length list.now) }
{
    if room == 0 {
        return Err(Parse::Syntax);
    }
    let Some(token) = list.first() else {
        return Err(Parse::Syntax);
    };
    led(alloc, room - 1, leader_of(token), list)
}

/// A declaration or an expression as a statement.
#[tactic(auto, unfolding(crate::specs::StatementReadings::simple_at))]
fn simple<'a>(alloc: Global, below: u32, list: &'a [Token]) -> Result<(Stmt, &'a [Token]), Parse>
    requires { below < 128 }
    ensures found { Gives result (reading.simple_at below (plain_tokens list.now)) }
    ensures shorter { IfOk result (λ found. length found.1.now < length list.now) }
{
    if declares(list) {
        let (declaration, rest) = declaration(alloc, below, list)?;
        Ok((Stmt::Declaration(declaration), rest))
    } else {
        let (expression, rest) = ended_expression(alloc, below, list)?;
        Ok((Stmt::Expression(expression), rest))
    }
}

/// A statement of which its first token says what it is.
#[cycle(statement)]
#[tactic(auto, unfolding(crate::specs::StatementReadings::statement_led))]
fn led<'a>(
    alloc: Global,
    below: u32,
    leader: Leader,
    list: &'a [Token],
) -> Result<(Stmt, &'a [Token]), Parse>
    requires small { below < 128 }
    requires more { 0 < length list.now }
    ensures found { Gives result (reading.statement_led below (reading.statement_at below) leader (plain_tokens list.now)) }
    ensures shorter { IfOk result (λ found. length found.1.now < length list.now) }
{
    let rest = after_first(list);
    match leader {
        Leader::Block => {
            let (all, rest) = block(alloc, below, rest)?;
            Ok((Stmt::Block(all), rest))
        }
        Leader::Empty => Ok((Stmt::Empty, rest)),
        Leader::If => choice(alloc, below, rest),
        Leader::While => while_loop(alloc, below, rest),
        Leader::Do => do_loop(alloc, below, rest),
        Leader::For => for_loop(alloc, below, rest),
        Leader::Break => Ok((Stmt::Break, expect_mark(rest, b";")?)),
        Leader::Continue => Ok((Stmt::Continue, expect_mark(rest, b";")?)),
        Leader::Discard => Ok((Stmt::Discard, expect_mark(rest, b";")?)),
        Leader::Return => {
            let (value, rest) = optional_value(alloc, below, rest)?;
            Ok((Stmt::Return(value), rest))
        }
        Leader::Other => simple(alloc, below, list),
    }
}

/// The statements before a closing brace.
#[cycle(statement)]
#[tactic(auto, unfolding(crate::specs::StatementReadings::more_statements), using(crate::proofs::Loops::loops))]
fn statements<'a>(
    alloc: Global,
    below: u32,
    list: &'a [Token],
) -> Result<(Items<Stmt>, &'a [Token]), Parse>
    requires { below < 128 }
    ensures found { Gives result (reading.statements (reading.statement_at below) (plain_tokens list.now)) }
    ensures shorter { IfOk result (λ found. length found.1.now ≤ length list.now) }
{
    let mut all = Items::new(alloc);
    let mut rest = list;
    while !begins_with_mark(rest, b"}") {
        let (next, tail) = statement(alloc, below, rest)?;
        all.push(next)?;
        rest = tail;
    }
    Ok((all, rest))
}

/// The statements of a block and its closing brace, after the opening one.
#[cycle(statement)]
#[tactic(auto, unfolding(crate::specs::StatementReadings::statements_at))]
pub fn block<'a>(
    alloc: Global,
    below: u32,
    list: &'a [Token],
) -> Result<(Items<Stmt>, &'a [Token]), Parse>
    requires { below < 128 }
    ensures found { Gives result (reading.statements_at (reading.statement_at below) (plain_tokens list.now)) }
    ensures shorter { IfOk result (λ found. length found.1.now < length list.now) }
{
    let (all, rest) = statements(alloc, below, list)?;
    let rest = expect_mark(rest, b"}")?;
    Ok((all, rest))
}

/// A choice, after `if`. The `else` that follows its first branch belongs to it (section 6.2).
#[cycle(statement)]
#[tactic(auto, unfolding(crate::specs::StatementReadings::choice_at, crate::specs::StatementReadings::choice_after))]
fn choice<'a>(alloc: Global, below: u32, list: &'a [Token]) -> Result<(Stmt, &'a [Token]), Parse>
    requires { below < 128 }
    ensures found { Gives result (reading.choice_at below (reading.statement_at below) (plain_tokens list.now)) }
    ensures shorter { IfOk result (λ found. length found.1.now < length list.now) }
{
    let (condition, rest) = test(alloc, below, list)?;
    let (branch, rest) = statement(alloc, below, rest)?;
    let then = Boxed::new(alloc, branch)?;
    let Some(rest) = after_word(rest, b"else") else {
        let choice = Stmt::If {
            condition,
            then,
            otherwise: None,
        };
        return Ok((choice, rest));
    };
    let (branch, rest) = statement(alloc, below, rest)?;
    let choice = Stmt::If {
        condition,
        then,
        otherwise: Some(Boxed::new(alloc, branch)?),
    };
    Ok((choice, rest))
}

/// A `while` loop, after `while`.
#[cycle(statement)]
#[tactic(auto, unfolding(crate::specs::StatementReadings::while_at))]
fn while_loop<'a>(
    alloc: Global,
    below: u32,
    list: &'a [Token],
) -> Result<(Stmt, &'a [Token]), Parse>
    requires { below < 128 }
    ensures found { Gives result (reading.while_at below (reading.statement_at below) (plain_tokens list.now)) }
    ensures shorter { IfOk result (λ found. length found.1.now < length list.now) }
{
    let rest = expect_mark(list, b"(")?;
    let (condition, rest) = closed_condition(alloc, below, rest)?;
    let (body, rest) = statement(alloc, below, rest)?;
    let body = Boxed::new(alloc, body)?;
    Ok((Stmt::While { condition, body }, rest))
}

/// A `do` loop, after `do`.
#[cycle(statement)]
#[tactic(auto, unfolding(crate::specs::StatementReadings::do_at))]
fn do_loop<'a>(alloc: Global, below: u32, list: &'a [Token]) -> Result<(Stmt, &'a [Token]), Parse>
    requires { below < 128 }
    ensures found { Gives result (reading.do_at below (reading.statement_at below) (plain_tokens list.now)) }
    ensures shorter { IfOk result (λ found. length found.1.now < length list.now) }
{
    let (body, rest) = statement(alloc, below, list)?;
    let body = Boxed::new(alloc, body)?;
    let rest = expect_word(rest, b"while")?;
    let (condition, rest) = test(alloc, below, rest)?;
    let rest = expect_mark(rest, b";")?;
    Ok((Stmt::Do { body, condition }, rest))
}

/// A `for` loop, after `for`.
#[cycle(statement)]
#[tactic(auto, using(crate::proofs::Headers::for_is))]
fn for_loop<'a>(alloc: Global, below: u32, list: &'a [Token]) -> Result<(Stmt, &'a [Token]), Parse>
    requires { below < 128 }
    ensures found { Gives result (reading.for_at below (reading.statement_at below) (plain_tokens list.now)) }
    ensures shorter { IfOk result (λ found. length found.1.now < length list.now) }
{
    let rest = expect_mark(list, b"(")?;
    let (header, rest) = header(alloc, below, rest)?;
    let (body, rest) = statement(alloc, below, rest)?;
    let body = Boxed::new(alloc, body)?;
    let for_loop = Stmt::For {
        start: header.start,
        condition: header.condition,
        step: header.step,
        body,
    };
    Ok((for_loop, rest))
}
