//! What one token may be in the grammar (GLSL ES 1.00.17 sections 3.6 to 3.8).

ghost use Rattle.std.specs.Prelude.{◌≡◌, ◌<◌, ◌≤◌, length, IfSome, OnSome, IfOk};
ghost use Rattle.glsl_tree.specs.Token.{plain, plain_tokens};
ghost use Rattle.glsl_tree.specs.Operators.{binary_text, assignment_text, prefix_text, postfix_text};
ghost use Rattle.glsl_tree.specs.Qualifiers.{basic_text, precision_text, direction_text};
ghost use Rattle.glsl_parse.specs.Symbols as spec;
ghost use Rattle.glsl_parse.specs.Answers.{Follows, MustFollow, Gives, MayAllow};
ghost use Rattle.glsl_parse.specs.TypeReadings.{optional_name};
ghost use Rattle.glsl_parse.specs.ExpressionReadings.{suffix_at, prefix_at, infix_at, after_first};

use crate::errors::Parse;
use crate::symbols::{Infix, Leader, Suffix};
use crate::tables::{
    ASSIGNMENT_OPERATORS, BASIC_TYPES, BINARY_OPERATORS, DIRECTIONS, POSTFIX_OPERATORS, PRECISIONS,
    PREFIX_OPERATORS,
};
use glsl_tree::{
    AssignmentOperator, Basic, BinaryOperator, Class, Direction, PostfixOperator, Precision,
    PrefixOperator, Text, Token, is_keyword,
};
use std::alloc::Global;

/// Whether the token is this mark.
#[tactic(auto, unfolding(crate::specs::Symbols::is_mark))]
pub fn is_mark(token: &Token, text: &[u8]) -> bool
    ensures { result ≡ spec.is_mark text.now (plain token.now) }
{
    matches!(token.class, Class::Punct) && token.text.as_slice() == text
}

/// Whether the token is this word of the language.
#[tactic(auto, unfolding(crate::specs::Symbols::is_word))]
pub fn is_word(token: &Token, text: &[u8]) -> bool
    ensures { result ≡ spec.is_word text.now (plain token.now) }
{
    matches!(token.class, Class::Keyword) && token.text.as_slice() == text
}

fn is_free(text: &[u8]) -> bool
    ensures { result ≡ spec.is_free_text text.now }
{
    !is_keyword(text)
}

/// Whether the token is a name.
#[tactic(auto, unfolding(crate::specs::Symbols::is_name))]
pub fn is_name(token: &Token) -> bool
    ensures { result ≡ spec.is_name (plain token.now) }
{
    matches!(token.class, Class::Identifier) && is_free(token.text.as_slice())
}

fn binary_spelled(all: &[BinaryOperator], text: &[u8]) -> Option<BinaryOperator>
    ensures { result ≡ spec.spelled binary_text all.now text.now }
{
    all.iter().copied().find(|operator| operator.text() == text)
}

/// The operator between two operands that a token is.
#[tactic(auto, unfolding(crate::specs::Symbols::binary_of))]
fn binary_of(token: &Token) -> Option<BinaryOperator>
    ensures { result ≡ spec.binary_of (plain token.now) }
{
    match token.class {
        Class::Punct => binary_spelled(&BINARY_OPERATORS, token.text.as_slice()),
        _ => None,
    }
}

fn assignment_spelled(all: &[AssignmentOperator], text: &[u8]) -> Option<AssignmentOperator>
    ensures { result ≡ spec.spelled assignment_text all.now text.now }
{
    all.iter().copied().find(|operator| operator.text() == text)
}

/// The assignment that a token is.
#[tactic(auto, unfolding(crate::specs::Symbols::assignment_of))]
fn assignment_of(token: &Token) -> Option<AssignmentOperator>
    ensures { result ≡ spec.assignment_of (plain token.now) }
{
    match token.class {
        Class::Punct => assignment_spelled(&ASSIGNMENT_OPERATORS, token.text.as_slice()),
        _ => None,
    }
}

fn prefix_spelled(all: &[PrefixOperator], text: &[u8]) -> Option<PrefixOperator>
    ensures { result ≡ spec.spelled prefix_text all.now text.now }
{
    all.iter().copied().find(|operator| operator.text() == text)
}

/// The operator before an operand that a token is.
#[tactic(auto, unfolding(crate::specs::Symbols::prefix_of))]
fn prefix_of(token: &Token) -> Option<PrefixOperator>
    ensures { result ≡ spec.prefix_of (plain token.now) }
{
    match token.class {
        Class::Punct => prefix_spelled(&PREFIX_OPERATORS, token.text.as_slice()),
        _ => None,
    }
}

fn postfix_spelled(all: &[PostfixOperator], text: &[u8]) -> Option<PostfixOperator>
    ensures { result ≡ spec.spelled postfix_text all.now text.now }
{
    all.iter().copied().find(|operator| operator.text() == text)
}

/// The operator after an operand that a token is.
#[tactic(auto, unfolding(crate::specs::Symbols::postfix_of))]
fn postfix_of(token: &Token) -> Option<PostfixOperator>
    ensures { result ≡ spec.postfix_of (plain token.now) }
{
    match token.class {
        Class::Punct => postfix_spelled(&POSTFIX_OPERATORS, token.text.as_slice()),
        _ => None,
    }
}

fn basic_spelled(all: &[Basic], text: &[u8]) -> Option<Basic>
    ensures { result ≡ spec.spelled basic_text all.now text.now }
{
    all.iter().copied().find(|kind| kind.text() == text)
}

/// The basic type that a token is.
#[tactic(auto, unfolding(crate::specs::Symbols::basic_of))]
pub fn basic_of(token: &Token) -> Option<Basic>
    ensures { result ≡ spec.basic_of (plain token.now) }
{
    match token.class {
        Class::Keyword => basic_spelled(&BASIC_TYPES, token.text.as_slice()),
        _ => None,
    }
}

fn precision_spelled(all: &[Precision], text: &[u8]) -> Option<Precision>
    ensures { result ≡ spec.spelled precision_text all.now text.now }
{
    all.iter()
        .copied()
        .find(|precision| precision.text() == text)
}

/// The precision that a token is.
#[tactic(auto, unfolding(crate::specs::Symbols::precision_of))]
pub fn precision_of(token: &Token) -> Option<Precision>
    ensures { result ≡ spec.precision_of (plain token.now) }
{
    match token.class {
        Class::Keyword => precision_spelled(&PRECISIONS, token.text.as_slice()),
        _ => None,
    }
}

fn direction_spelled(all: &[Direction], text: &[u8]) -> Option<Direction>
    ensures { result ≡ spec.spelled direction_text all.now text.now }
{
    all.iter()
        .copied()
        .find(|direction| direction.text() == text)
}

/// The direction that a token is.
#[tactic(auto, unfolding(crate::specs::Symbols::direction_of))]
pub fn direction_of(token: &Token) -> Option<Direction>
    ensures { result ≡ spec.direction_of (plain token.now) }
{
    match token.class {
        Class::Keyword => direction_spelled(&DIRECTIONS, token.text.as_slice()),
        _ => None,
    }
}

/// What a token joins an expression to.
#[tactic(auto, unfolding(crate::specs::Symbols::infix_of))]
fn infix_of(token: &Token) -> Option<Infix>
    ensures { result ≡ spec.infix_of (plain token.now) }
{
    if let Some(operator) = binary_of(token) {
        Some(Infix::Binary(operator))
    } else if let Some(operator) = assignment_of(token) {
        Some(Infix::Assign(operator))
    } else if is_mark(token, b"?") {
        Some(Infix::Conditional)
    } else {
        None
    }
}

/// What a token is that stands directly after a primary expression.
#[tactic(auto, unfolding(crate::specs::Symbols::suffix_of))]
fn suffix_of(token: &Token) -> Option<Suffix>
    ensures { result ≡ spec.suffix_of (plain token.now) }
{
    if let Some(operator) = postfix_of(token) {
        Some(Suffix::Step(operator))
    } else if is_mark(token, b"[") {
        Some(Suffix::Index)
    } else if is_mark(token, b".") {
        Some(Suffix::Field)
    } else {
        None
    }
}

/// The suffix at the front of a list.
pub fn suffix_at(list: &[Token]) -> Option<Suffix>
    ensures found { result ≡ suffix_at (plain_tokens list.now) }
    ensures more { OnSome result (0 < length list.now) }
{
    suffix_of(list.first()?)
}

/// The operator before an operand at the front of a list.
pub fn prefix_at(list: &[Token]) -> Option<PrefixOperator>
    ensures found { result ≡ prefix_at (plain_tokens list.now) }
    ensures more { OnSome result (0 < length list.now) }
{
    prefix_of(list.first()?)
}

/// The operator at the front of a list, where the least level is asked for, after an expression of a level.
#[tactic(auto, unfolding(crate::specs::ExpressionReadings::infix_at))]
pub fn infix_at(least: u32, level: u32, list: &[Token]) -> Option<Infix>
    ensures found { result ≡ infix_at least level (plain_tokens list.now) }
    ensures more { OnSome result (0 < length list.now) }
{
    match infix_of(list.first()?) {
        Some(infix) if least <= infix.level() && infix.level_before() <= level => Some(infix),
        _ => None,
    }
}

/// What the first token of a statement says of it.
#[tactic(auto, unfolding(crate::specs::Symbols::leader_of))]
pub fn leader_of(token: &Token) -> Leader
    ensures { result ≡ spec.leader_of (plain token.now) }
{
    if is_mark(token, b"{") {
        Leader::Block
    } else if is_mark(token, b";") {
        Leader::Empty
    } else if is_word(token, b"if") {
        Leader::If
    } else if is_word(token, b"while") {
        Leader::While
    } else if is_word(token, b"do") {
        Leader::Do
    } else if is_word(token, b"for") {
        Leader::For
    } else if is_word(token, b"break") {
        Leader::Break
    } else if is_word(token, b"continue") {
        Leader::Continue
    } else if is_word(token, b"discard") {
        Leader::Discard
    } else if is_word(token, b"return") {
        Leader::Return
    } else {
        Leader::Other
    }
}

/// Whether a list begins with this mark.
pub fn begins_with_mark(list: &[Token], text: &[u8]) -> bool
    ensures { result ≡ spec.begins_with_mark text.now (plain_tokens list.now) }
{
    match list.first() {
        Some(token) => is_mark(token, text),
        None => false,
    }
}

/// The tokens after this mark, where the list begins with it.
#[tactic(auto, unfolding(crate::specs::Symbols::after_mark))]
pub fn after_mark<'a>(list: &'a [Token], text: &[u8]) -> Option<&'a [Token]>
    ensures found { Follows result (spec.after_mark text.now (plain_tokens list.now)) }
    ensures shorter { IfSome result (λ rest. length rest.now < length list.now) }
{
    match list.split_first() {
        Some((first, rest)) if is_mark(first, text) => Some(rest),
        _ => None,
    }
}

/// The tokens after this word, where the list begins with it.
#[tactic(auto, unfolding(crate::specs::Symbols::after_word))]
pub fn after_word<'a>(list: &'a [Token], text: &[u8]) -> Option<&'a [Token]>
    ensures found { Follows result (spec.after_word text.now (plain_tokens list.now)) }
    ensures shorter { IfSome result (λ rest. length rest.now < length list.now) }
{
    match list.split_first() {
        Some((first, rest)) if is_word(first, text) => Some(rest),
        _ => None,
    }
}

/// The tokens after this mark, which must stand there.
pub fn expect_mark<'a>(list: &'a [Token], text: &[u8]) -> Result<&'a [Token], Parse>
    ensures found { MustFollow result (spec.after_mark text.now (plain_tokens list.now)) }
    ensures shorter { IfOk result (λ rest. length rest.now < length list.now) }
{
    match after_mark(list, text) {
        Some(rest) => Ok(rest),
        None => Err(Parse::Syntax),
    }
}

/// The tokens after the first one.
pub fn after_first<'a>(list: &'a [Token]) -> &'a [Token]
    ensures found { plain_tokens result.now ≡ after_first (plain_tokens list.now) }
    ensures shorter { 0 < length list.now → length result.now < length list.now }
{
    match list.split_first() {
        Some((_, rest)) => rest,
        None => list,
    }
}

/// The name that a list begins with.
#[tactic(auto, unfolding(crate::specs::Symbols::name_at))]
pub fn name_at<'a>(alloc: Global, list: &'a [Token]) -> Result<(Text, &'a [Token]), Parse>
    ensures found { Gives result (spec.name_at (plain_tokens list.now)) }
    ensures shorter { IfOk result (λ found. length found.1.now < length list.now) }
{
    match list.split_first() {
        Some((token, rest)) if is_name(token) => {
            Ok((Text::from_slice(alloc, token.text.as_slice())?, rest))
        }
        _ => Err(Parse::Syntax),
    }
}

/// A name that may be left out.
#[tactic(auto, unfolding(crate::specs::TypeReadings::optional_name, crate::specs::Symbols::name_at))]
pub fn optional_name<'a>(
    alloc: Global,
    list: &'a [Token],
) -> Result<(Option<Text>, &'a [Token]), Parse>
    ensures found { MayAllow result (optional_name (plain_tokens list.now)) }
    ensures shorter { IfOk result (λ found. length found.1.now ≤ length list.now) }
{
    match list.split_first() {
        Some((token, rest)) if is_name(token) => {
            let name = Text::from_slice(alloc, token.text.as_slice())?;
            Ok((Some(name), rest))
        }
        _ => Ok((None, list)),
    }
}

/// The tokens after this word, which must stand there.
pub fn expect_word<'a>(list: &'a [Token], text: &[u8]) -> Result<&'a [Token], Parse>
    ensures found { MustFollow result (spec.after_word text.now (plain_tokens list.now)) }
    ensures shorter { IfOk result (λ rest. length rest.now < length list.now) }
{
    match after_word(list, text) {
        Some(rest) => Ok(rest),
        None => Err(Parse::Syntax),
    }
}
