//! Qualifiers (GLSL ES 1.00.17 sections 4.3, 4.5 and 6.1.1).

ghost use Rattle.std.specs.Prelude.{◌≡◌, ◌≤◌, ◌<◌, length, IfOk, IfSome};
ghost use Rattle.glsl_tree.specs.Token.{plain, plain_tokens};
ghost use Rattle.glsl_tree.specs.Declarations.{full_type_height};
ghost use Rattle.glsl_parse.specs.Answers.{Allowed, Follows, GivesHigh};
ghost use Rattle.glsl_parse.specs.TypeReadings as reading;

use crate::errors::Parse;
use crate::tokens::{after_word, direction_of, is_word, precision_of};
use crate::types::type_specifier;
use glsl_tree::{Direction, FullType, Precision, Storage, Token};
use std::alloc::Global;

/// A precision that may be left out.
#[tactic(auto, unfolding(crate::specs::TypeReadings::precision_at))]
pub fn precision_at<'a>(list: &'a [Token]) -> (Option<Precision>, &'a [Token])
    ensures found { Allowed result (reading.precision_at (plain_tokens list.now)) }
    ensures shorter { length result.1.now ≤ length list.now }
{
    let Some((token, rest)) = list.split_first() else {
        return (None, list);
    };
    match precision_of(token) {
        Some(precision) => (Some(precision), rest),
        None => (None, list),
    }
}

/// A direction that may be left out.
#[tactic(auto, unfolding(crate::specs::TypeReadings::direction_at))]
pub fn direction_at<'a>(list: &'a [Token]) -> (Option<Direction>, &'a [Token])
    ensures found { Allowed result (reading.direction_at (plain_tokens list.now)) }
    ensures shorter { length result.1.now ≤ length list.now }
{
    let Some((token, rest)) = list.split_first() else {
        return (None, list);
    };
    match direction_of(token) {
        Some(direction) => (Some(direction), rest),
        None => (None, list),
    }
}

/// The storage qualifier that one word is.
#[tactic(auto, unfolding(crate::specs::TypeReadings::storage_of))]
pub fn storage_of(token: &Token) -> Option<Storage>
    ensures { result ≡ reading.storage_of (plain token.now) }
{
    if is_word(token, b"const") {
        Some(Storage::Const)
    } else if is_word(token, b"attribute") {
        Some(Storage::Attribute)
    } else if is_word(token, b"varying") {
        Some(Storage::Varying)
    } else if is_word(token, b"uniform") {
        Some(Storage::Uniform)
    } else {
        None
    }
}

/// The tokens after `invariant varying`.
#[tactic(auto, unfolding(crate::specs::TypeReadings::after_invariant_varying))]
fn after_invariant_varying<'a>(list: &'a [Token]) -> Option<&'a [Token]>
    ensures found { Follows result (reading.after_invariant_varying (plain_tokens list.now)) }
    ensures shorter { IfSome result (λ rest. length rest.now < length list.now) }
{
    after_word(after_word(list, b"invariant")?, b"varying")
}

/// A storage qualifier of one word that may be left out.
fn word_storage_at<'a>(list: &'a [Token]) -> (Option<Storage>, &'a [Token])
    ensures found { Allowed result (reading.word_storage_at (plain_tokens list.now)) }
    ensures shorter { length result.1.now ≤ length list.now }
{
    let Some((token, rest)) = list.split_first() else {
        return (None, list);
    };
    match storage_of(token) {
        Some(storage) => (Some(storage), rest),
        None => (None, list),
    }
}

/// A storage qualifier that may be left out.
#[tactic(auto, unfolding(crate::specs::TypeReadings::storage_at))]
fn storage_at<'a>(list: &'a [Token]) -> (Option<Storage>, &'a [Token])
    ensures found { Allowed result (reading.storage_at (plain_tokens list.now)) }
    ensures shorter { length result.1.now ≤ length list.now }
{
    match after_invariant_varying(list) {
        Some(rest) => (Some(Storage::InvariantVarying), rest),
        None => word_storage_at(list),
    }
}

/// A type with its qualifiers, with a height of at most `room`; and its height.
#[tactic(auto, unfolding(crate::specs::TypeReadings::full_type), using(crate::proofs::Rooms::rooms))]
pub fn full_type<'a>(
    alloc: Global,
    room: u32,
    list: &'a [Token],
) -> Result<(FullType, u32, &'a [Token]), Parse>
    requires { room ≤ 128 }
    ensures found { GivesHigh result (reading.full_type room (plain_tokens list.now)) }
    ensures measured { IfOk result (λ found. found.1 ≡ full_type_height found.0) }
    ensures bounded { IfOk result (λ found. found.1 ≤ room) }
    ensures shorter { IfOk result (λ found. length found.2.now < length list.now) }
{
    let (storage, rest) = storage_at(list);
    let (precision, rest) = precision_at(rest);
    if room == 0 {
        return Err(Parse::Syntax);
    }
    let (kind, height, rest) = type_specifier(alloc, room - 1, rest)?;
    let full_type = FullType {
        storage,
        precision,
        kind,
    };
    Ok((full_type, height + 1, rest))
}
