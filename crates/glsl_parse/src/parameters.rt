//! The parameters of a function (GLSL ES 1.00.17 section 6.1.1).

ghost use Rattle.std.specs.Prelude.{◌≡◌, ◌≤◌, ◌<◌, length, IfOk, IfSome};
ghost use Rattle.glsl_tree.specs.Token.{plain_tokens};
ghost use Rattle.glsl_tree.specs.Declarations.{is_void, is_void_alone};
ghost use Rattle.glsl_parse.specs.Answers.{Follows, Gives};
ghost use Rattle.glsl_parse.specs.ExpressionReadings.{listed};
ghost use Rattle.glsl_parse.specs.DeclarationReadings as reading;

use crate::errors::Parse;
use crate::qualifiers::{direction_at, precision_at};
use crate::tokens::{after_mark, after_word, expect_mark, optional_name};
use crate::types::{optional_size, type_specifier};
use glsl_tree::{Parameter, Parameters, Token, TypeSpecifier};
use sqlite_items::Items;
use std::alloc::Global;

/// Whether a type is `void`.
#[tactic(auto, unfolding(glsl_tree::specs::Declarations::is_void))]
fn is_void(kind: &TypeSpecifier) -> bool
    ensures { result ≡ is_void kind.now }
{
    matches!(kind, TypeSpecifier::Void)
}

/// Whether a parameter is `void` alone, which is none.
#[tactic(auto, using(crate::proofs::Absent::absent_is))]
fn is_void_alone(parameter: &Parameter) -> bool
    ensures { result ≡ is_void_alone parameter.now }
{
    !parameter.is_constant
        && parameter.direction.is_none()
        && parameter.precision.is_none()
        && is_void(&parameter.kind)
        && parameter.name.is_none()
        && parameter.size.is_none()
}

/// The `const` of a parameter.
#[tactic(auto, unfolding(crate::specs::DeclarationReadings::constant_at))]
fn constant_at<'a>(list: &'a [Token]) -> (bool, &'a [Token])
    ensures found { (result.0, plain_tokens result.1.now) ≡ reading.constant_at (plain_tokens list.now) }
    ensures shorter { length result.1.now ≤ length list.now }
{
    match after_word(list, b"const") {
        Some(rest) => (true, rest),
        None => (false, list),
    }
}

/// A parameter, whose parts have a height of at most `below`.
#[tactic(auto, unfolding(crate::specs::DeclarationReadings::parameter_at))]
fn parameter<'a>(
    alloc: Global,
    below: u32,
    list: &'a [Token],
) -> Result<(Parameter, &'a [Token]), Parse>
    requires { below ≤ 128 }
    ensures found { Gives result (reading.parameter_at below (plain_tokens list.now)) }
    ensures shorter { IfOk result (λ found. length found.1.now < length list.now) }
{
    let (is_constant, rest) = constant_at(list);
    let (direction, rest) = direction_at(rest);
    let (precision, rest) = precision_at(rest);
    let (kind, _, rest) = type_specifier(alloc, below, rest)?;
    let (name, rest) = optional_name(alloc, rest)?;
    let (size, _, rest) = optional_size(alloc, below, rest)?;
    let parameter = Parameter {
        is_constant,
        direction,
        precision,
        kind,
        name,
        size,
    };
    if is_void_alone(&parameter) {
        return Err(Parse::Syntax);
    }
    Ok((parameter, rest))
}

/// Parameters with commas between them, one at least.
#[tactic(auto, unfolding(crate::specs::ExpressionReadings::listed, crate::specs::ExpressionReadings::more_listed), using(crate::proofs::Loops::loops))]
fn parameter_list<'a>(
    alloc: Global,
    below: u32,
    list: &'a [Token],
) -> Result<(Items<Parameter>, &'a [Token]), Parse>
    requires { below ≤ 128 }
    ensures found { Gives result (listed (reading.parameter_at below) (plain_tokens list.now)) }
    ensures shorter { IfOk result (λ found. length found.1.now < length list.now) }
{
    let (first, mut rest) = parameter(alloc, below, list)?;
    let mut all = Items::new(alloc);
    all.push(first)?;
    while let Some(more) = after_mark(rest, b",") {
        let (next, tail) = parameter(alloc, below, more)?;
        all.push(next)?;
        rest = tail;
    }
    Ok((all, rest))
}

/// The tokens after `void` and the closing bracket.
#[tactic(auto, unfolding(crate::specs::DeclarationReadings::after_void))]
fn after_void<'a>(list: &'a [Token]) -> Option<&'a [Token]>
    ensures found { Follows result (reading.after_void (plain_tokens list.now)) }
    ensures shorter { IfSome result (λ rest. length rest.now < length list.now) }
{
    after_mark(after_word(list, b"void")?, b")")
}

/// One parameter or more, each with a height of at most `room`, and the closing bracket.
#[tactic(auto, unfolding(crate::specs::DeclarationReadings::listed_parameters), using(crate::proofs::Rooms::rooms))]
fn listed_parameters<'a>(
    alloc: Global,
    room: u32,
    list: &'a [Token],
) -> Result<(Parameters, &'a [Token]), Parse>
    requires { room ≤ 128 }
    ensures found { Gives result (reading.listed_parameters room (plain_tokens list.now)) }
    ensures shorter { IfOk result (λ found. length found.1.now < length list.now) }
{
    if room == 0 {
        return Err(Parse::Syntax);
    }
    let (all, rest) = parameter_list(alloc, room - 1, list)?;
    let rest = expect_mark(rest, b")")?;
    Ok((Parameters::Listed(all), rest))
}

/// What stands in the brackets of a function's head, after the opening bracket and with the closing one.
#[tactic(auto, unfolding(crate::specs::DeclarationReadings::parameters_at))]
pub fn parameters<'a>(
    alloc: Global,
    room: u32,
    list: &'a [Token],
) -> Result<(Parameters, &'a [Token]), Parse>
    requires { room ≤ 128 }
    ensures found { Gives result (reading.parameters_at room (plain_tokens list.now)) }
    ensures shorter { IfOk result (λ found. length found.1.now < length list.now) }
{
    if let Some(rest) = after_mark(list, b")") {
        return Ok((Parameters::Listed(Items::new(alloc)), rest));
    }
    if let Some(rest) = after_void(list) {
        return Ok((Parameters::Void, rest));
    }
    listed_parameters(alloc, room, list)
}
