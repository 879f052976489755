ghost use Rattle.std.specs.Prelude.{◌≡◌, ◌≤◌, ◌<◌, ◌+◌, ◌-◌, ◌^◌, length};
ghost use Rattle.glsl_tree.specs.Token.{plain, plain_tokens};
ghost use Rattle.glsl_preproc.specs.Values.{operator_of};
ghost use Rattle.glsl_preproc.specs.Conditions.{primary_of, in_brackets, behind_sign, at_level, chain_behind, expression_at, operand_within, condition, judged};
ghost use Rattle.glsl_preproc.specs.ConditionViews.{signed, sign_of, parsed_of, IsParsedWithin, judged_of, IsJudged};

use crate::budget::Budget;
use crate::defined::answered;
use crate::errors::Pre;
use crate::expander::expanded;
use crate::macro_table::MacroTable;
use crate::numbers::int_value;
use crate::operators::Operator;
use crate::tokens::{closes, is_text, opens};
use crate::values::{applied, complemented, inverted, level_of, negated, operator_of};
use glsl_tree::{Class, Token};

/// What is read at the front of a list.
#[derive(Clone, Copy, Debug)]
pub enum Parsed {
    /// An expression: its value, and how many tokens it takes.
    Read(Option<i32>, usize),
    /// None.
    Wrong,
    /// Brackets and signs that nest too deep.
    TooDeep,
}

/// The operators before one operand.
#[derive(Clone, Copy, Debug)]
pub enum Sign {
    /// `+`
    Plus,
    /// `-`
    Minus,
    /// `~`
    Complement,
    /// `!`
    Not,
}

/// The value behind a sign.
fn signed(sign: Sign, value: Option<i32>) -> Option<i32>
    ensures { result ≡ signed sign value }
{
    match sign {
        Sign::Plus => value,
        Sign::Minus => negated(value),
        Sign::Complement => complemented(value),
        Sign::Not => inverted(value),
    }
}

/// The sign that a token is.
fn sign_of(token: &Token) -> Option<Sign>
    ensures { result ≡ sign_of (plain token.now) }
{
    if is_text(token, b"+") {
        Some(Sign::Plus)
    } else if is_text(token, b"-") {
        Some(Sign::Minus)
    } else if is_text(token, b"~") {
        Some(Sign::Complement)
    } else if is_text(token, b"!") {
        Some(Sign::Not)
    } else {
        None
    }
}

/// The value of a number or a name that stands alone, and no other token.
fn primary(token: &Token) -> Parsed
    ensures parsed { parsed_of result ≡ primary_of token.now.class token.now.text.items }
    ensures within { IsParsedWithin 1 result }
{
    match token.class {
        Class::Int => Parsed::Read(int_value(token.text.as_slice()), 1),
        Class::Identifier | Class::Keyword => Parsed::Read(None, 1),
        _ => Parsed::Wrong,
    }
}

/// What is read behind an opening bracket, with the bracket that closes it.
fn in_brackets(rest: &[Token], inner: Parsed) -> Parsed
    requires { IsParsedWithin (length rest.now) inner }
    ensures parsed { parsed_of result ≡ in_brackets (plain_tokens rest.now) (parsed_of inner) }
    ensures within { IsParsedWithin (length rest.now + 1) result }
{
    match inner {
        Parsed::Read(value, count) => match rest.split_at(count).1 {
            [first, ..] if closes(first) => Parsed::Read(value, count + 2),
            _ => Parsed::Wrong,
        },
        Parsed::Wrong => Parsed::Wrong,
        Parsed::TooDeep => Parsed::TooDeep,
    }
}

/// What is read behind a sign.
fn behind_sign(sign: Sign, operand: Parsed, len: usize) -> Parsed
    requires within { IsParsedWithin len operand }
    requires small { len < 2 ^ 63 }
    ensures parsed { parsed_of result ≡ behind_sign (signed sign) (parsed_of operand) }
    ensures within { IsParsedWithin (len + 1) result }
{
    match operand {
        Parsed::Read(value, count) => Parsed::Read(signed(sign, value), count + 1),
        Parsed::Wrong => Parsed::Wrong,
        Parsed::TooDeep => Parsed::TooDeep,
    }
}

/// An operand, where brackets and signs nest in at most so many levels.
#[cycle(expression)]
fn operand(levels: u32, list: &[Token]) -> Parsed
    ensures parsed { parsed_of result ≡ operand_within levels (plain_tokens list.now) }
    ensures within { IsParsedWithin (length list.now) result }
{
    if levels == 0 {
        return Parsed::TooDeep;
    }
    let below = levels - 1;
    if list.is_empty() {
        return Parsed::Wrong;
    }
    let token = &list[0];
    let rest = list.split_at(1).1;
    if opens(token) {
        return in_brackets(rest, expression(below, 10, rest));
    }
    match sign_of(token) {
        Some(sign) => behind_sign(sign, operand(below, rest), rest.len()),
        None => primary(token),
    }
}

/// The operator of a level that a token is.
fn operator_at(level: u32, token: &Token) -> Option<Operator>
    ensures { result ≡ at_level level (operator_of token.now.text.items) }
{
    match operator_of(token.text.as_slice()) {
        Some(op) if level_of(op) == level => Some(op),
        _ => None,
    }
}

/// Operands joined from the left by the operators of a level, behind what is read at the front of a list.
#[cycle(expression)]
fn chain(levels: u32, level: u32, list: &[Token], first: Parsed) -> Parsed
    requires some { 0 < level }
    requires most { level ≤ 10 }
    requires within { IsParsedWithin (length list.now) first }
    ensures parsed { parsed_of result ≡ chain_behind (expression_at (operand_within levels) (level - 1)) level
        (plain_tokens list.now) (parsed_of first) }
    ensures within { IsParsedWithin (length list.now) result }
{
    let (mut value, mut count) = match first {
        Parsed::Read(value, count) => (value, count),
        Parsed::Wrong => return Parsed::Wrong,
        Parsed::TooDeep => return Parsed::TooDeep,
    };
    let mut rest = list.split_at(count).1;
    while !rest.is_empty() {
        let op = match operator_at(level, &rest[0]) {
            Some(op) => op,
            None => return Parsed::Read(value, count),
        };
        let tail = rest.split_at(1).1;
        match expression(levels, level - 1, tail) {
            Parsed::Read(right, taken) => {
                value = applied(op, value, right);
                count += 1 + taken;
                rest = tail.split_at(taken).1;
            }
            Parsed::Wrong => return Parsed::Wrong,
            Parsed::TooDeep => return Parsed::TooDeep,
        }
    }
    Parsed::Read(value, count)
}

/// An expression of a level, where brackets and signs nest in at most so many levels. The first operand is read once, and
/// not by a call for each level, so that brackets in one another take little stack.
#[cycle(expression)]
fn expression(levels: u32, level: u32, list: &[Token]) -> Parsed
    requires { level ≤ 10 }
    ensures parsed { parsed_of result ≡ expression_at (operand_within levels) level (plain_tokens list.now) }
    ensures within { IsParsedWithin (length list.now) result }
{
    let mut parsed = operand(levels, list);
    let mut done = 0;
    while done < level {
        done += 1;
        parsed = chain(levels, done, list, parsed);
    }
    parsed
}

/// What an `#if` answers.
#[derive(Clone, Copy, Debug)]
pub enum Judged {
    /// Its part is read.
    Yes,
    /// Its part is not read.
    No,
    /// The directive fails.
    Fails,
    /// Memory is wanting, or it nests too deep.
    Unknown,
}

/// What a list answers that was read so.
fn verdict_of(list: &[Token], parsed: Parsed) -> Judged
    ensures { judged_of result ≡ judged (plain_tokens list.now) (parsed_of parsed) }
{
    match parsed {
        Parsed::Read(Some(value), count) if count == list.len() => {
            if value == 0 { Judged::No } else { Judged::Yes }
        }
        Parsed::TooDeep => Judged::Unknown,
        _ => Judged::Fails,
    }
}

/// What an `#if` with this list answers, where macro calls, brackets and signs nest in at most so many levels.
#[tactic(auto, unfolding(crate::specs::Conditions::condition))]
pub fn condition<'s>(
    budget: &mut Budget,
    macros: &MacroTable<'s>,
    levels: u32,
    list: &'s [Token],
) -> Judged
    ensures { IsJudged (condition levels macros.now (plain_tokens list.now)) result }
{
    let Ok(found) = answered(budget.alloc, macros, list) else {
        return Judged::Unknown;
    };
    let Some(resolved) = found else {
        return Judged::Fails;
    };
    match expanded(budget, macros, levels, resolved.as_slice()) {
        Ok(tokens) => verdict_of(tokens.as_slice(), expression(levels, 10, tokens.as_slice())),
        Err(Pre::Directive(_)) => Judged::Fails,
        Err(_) => Judged::Unknown,
    }
}
