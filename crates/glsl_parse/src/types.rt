//! Types (GLSL ES 1.00.17 sections 4.1 and 4.1.8).

ghost use Rattle.std.specs.Prelude.{◌≡◌, ◌≤◌, ◌<◌, ◌+◌, length, map, max, IfOk, Some};
ghost use Rattle.glsl_tree.specs.Token.{plain, plain_tokens};
ghost use Rattle.glsl_tree.specs.Expressions.{highest};
ghost use Rattle.glsl_tree.specs.Types.{size_height, type_height, member_height};
ghost use Rattle.glsl_parse.specs.Answers.{GivesHigh, GivesList, MayGive};
ghost use Rattle.glsl_parse.specs.ExpressionReadings.{listed};
ghost use Rattle.glsl_parse.specs.TypeReadings as reading;

use crate::errors::Parse;
use crate::expressions::expression;
use crate::qualifiers::precision_at;
use crate::tokens::{
    after_mark, basic_of, begins_with_mark, expect_mark, is_name, is_word, name_at, optional_name,
};
use glsl_tree::{Expr, Member, SizedName, Text, Token, TypeSpecifier};
use sqlite_items::Items;
use std::alloc::Global;

/// An array size with its closing bracket, after the opening one; and the size's height.
#[tactic(auto, unfolding(crate::specs::TypeReadings::size_after))]
pub fn size<'a>(
    alloc: Global,
    room: u32,
    list: &'a [Token],
) -> Result<(Expr, u32, &'a [Token]), Parse>
    requires { room ≤ 128 }
    ensures found { GivesHigh result (reading.size_after room (plain_tokens list.now)) }
    ensures measured { IfOk result (λ found. found.1 + 1 ≡ size_height (Some found.0)) }
    ensures bounded { IfOk result (λ found. found.1 ≤ room) }
    ensures shorter { IfOk result (λ found. length found.2.now < length list.now) }
{
    let size = expression(alloc, room, 2, list)?;
    let rest = expect_mark(size.rest, b"]")?;
    Ok((size.tree, size.height, rest))
}

/// An array size that may be left out; and its height, 0 where it is.
#[tactic(auto, unfolding(crate::specs::TypeReadings::optional_size), using(crate::proofs::Rooms::rooms))]
pub fn optional_size<'a>(
    alloc: Global,
    room: u32,
    list: &'a [Token],
) -> Result<(Option<Expr>, u32, &'a [Token]), Parse>
    requires { room ≤ 128 }
    ensures found { GivesHigh result (reading.optional_size room (plain_tokens list.now)) }
    ensures measured { IfOk result (λ found. found.1 ≡ size_height found.0) }
    ensures bounded { IfOk result (λ found. found.1 ≤ room) }
    ensures shorter { IfOk result (λ found. length found.2.now ≤ length list.now) }
{
    let Some(rest) = after_mark(list, b"[") else {
        return Ok((None, 0, list));
    };
    if room == 0 {
        return Err(Parse::Syntax);
    }
    let (size, height, rest) = size(alloc, room - 1, rest)?;
    Ok((Some(size), height + 1, rest))
}

/// A name with an optional array size; and the size's height, 0 where there is none.
#[tactic(auto, unfolding(crate::specs::TypeReadings::sized_name))]
fn sized_name<'a>(
    alloc: Global,
    room: u32,
    list: &'a [Token],
) -> Result<(SizedName, u32, &'a [Token]), Parse>
    requires { room ≤ 128 }
    ensures found { GivesHigh result (reading.sized_name room (plain_tokens list.now)) }
    ensures measured { IfOk result (λ found. found.1 ≡ size_height found.0.size) }
    ensures bounded { IfOk result (λ found. found.1 ≤ room) }
    ensures shorter { IfOk result (λ found. length found.2.now < length list.now) }
{
    let (name, rest) = name_at(alloc, list)?;
    let (size, height, rest) = optional_size(alloc, room, rest)?;
    Ok((SizedName { name, size }, height, rest))
}

/// Names with optional array sizes, with commas between them, one at least; and the height of the highest size.
#[tactic(auto, unfolding(crate::specs::ExpressionReadings::listed, crate::specs::ExpressionReadings::more_listed), using(crate::proofs::Loops::loops, crate::proofs::Measures::sizes_more, crate::proofs::Measures::sizes_one))]
fn sized_names<'a>(
    alloc: Global,
    room: u32,
    list: &'a [Token],
) -> Result<(Items<SizedName>, u32, &'a [Token]), Parse>
    requires { room ≤ 128 }
    ensures found { GivesList result (listed (reading.sized_name room) (plain_tokens list.now)) }
    ensures measured { IfOk result (λ found. found.1 ≡ highest (map (λ sized. size_height sized.size) found.0)) }
    ensures bounded { IfOk result (λ found. found.1 ≤ room) }
    ensures shorter { IfOk result (λ found. length found.2.now < length list.now) }
{
    let (first, mut height, mut rest) = sized_name(alloc, room, list)?;
    let mut all = Items::new(alloc);
    all.push(first)?;
    while let Some(more) = after_mark(rest, b",") {
        let (next, next_height, tail) = sized_name(alloc, room, more)?;
        all.push(next)?;
        height = height.max(next_height);
        rest = tail;
    }
    Ok((all, height, rest))
}

/// A type with a height of at most `room`; and its height.
#[cycle(kind)]
#[tactic(auto, unfolding(crate::specs::TypeReadings::type_of), using(crate::proofs::Rooms::rooms))]
pub fn type_specifier<'a>(
    alloc: Global,
    room: u32,
    list: &'a [Token],
) -> Result<(TypeSpecifier, u32, &'a [Token]), Parse>
    requires { room ≤ 128 }
    ensures found { GivesHigh result (reading.type_specifier room (plain_tokens list.now)) }
    ensures measured { IfOk result (λ found. found.1 ≡ type_height found.0) }
    ensures bounded { IfOk result (λ found. found.1 ≤ room) }
    ensures shorter { IfOk result (λ found. length found.2.now < length list.now) }
{
    if room == 0 {
        return Err(Parse::Syntax);
    }
    let Some((token, rest)) = list.split_first() else {
        return Err(Parse::Syntax);
    };
    if is_word(token, b"struct") {
        structure(alloc, room - 1, rest)
    } else {
        Ok((type_word(alloc, token)?, 1, rest))
    }
}

/// A type of one token.
#[tactic(auto, unfolding(crate::specs::TypeReadings::type_word), using(crate::proofs::Measures::type_heights))]
fn type_word(alloc: Global, token: &Token) -> Result<TypeSpecifier, Parse>
    ensures found { MayGive result (reading.type_word (plain token.now)) }
    ensures measured { IfOk result (λ found. type_height found ≡ 1) }
{
    if let Some(basic) = basic_of(token) {
        Ok(TypeSpecifier::Basic(basic))
    } else if is_word(token, b"void") {
        Ok(TypeSpecifier::Void)
    } else if is_name(token) {
        let text = Text::from_slice(alloc, token.text.as_slice())?;
        Ok(TypeSpecifier::Name(text))
    } else {
        Err(Parse::Syntax)
    }
}

/// A structure, after `struct`, whose lines of members have a height of at most `below`; and its height.
#[cycle(kind)]
#[tactic(auto, unfolding(crate::specs::TypeReadings::structure), using(crate::proofs::Measures::type_heights))]
fn structure<'a>(
    alloc: Global,
    below: u32,
    list: &'a [Token],
) -> Result<(TypeSpecifier, u32, &'a [Token]), Parse>
    requires { below < 128 }
    ensures found { GivesHigh result (reading.structure (reading.member below) (plain_tokens list.now)) }
    ensures measured { IfOk result (λ found. found.1 ≡ type_height found.0) }
    ensures bounded { IfOk result (λ found. found.1 ≤ below + 1) }
    ensures shorter { IfOk result (λ found. length found.2.now < length list.now) }
{
    let (name, rest) = optional_name(alloc, list)?;
    let rest = expect_mark(rest, b"{")?;
    let (members, height, rest) = members(alloc, below, rest)?;
    let rest = expect_mark(rest, b"}")?;
    Ok((TypeSpecifier::Struct { name, members }, height + 1, rest))
}

/// The lines of members before a closing brace; and the height of the highest.
#[cycle(kind)]
#[tactic(auto, unfolding(crate::specs::TypeReadings::more_members), using(crate::proofs::Loops::loops, crate::proofs::Measures::highest_more))]
fn members<'a>(
    alloc: Global,
    below: u32,
    list: &'a [Token],
) -> Result<(Items<Member>, u32, &'a [Token]), Parse>
    requires { below < 128 }
    ensures found { GivesList result (reading.members (reading.member below) (plain_tokens list.now)) }
    ensures measured { IfOk result (λ found. found.1 ≡ highest (map member_height found.0)) }
    ensures bounded { IfOk result (λ found. found.1 ≤ below) }
    ensures shorter { IfOk result (λ found. length found.2.now ≤ length list.now) }
{
    let mut all = Items::new(alloc);
    let mut height = 0;
    let mut rest = list;
    while !begins_with_mark(rest, b"}") {
        let (line, line_height, tail) = member(alloc, below, rest)?;
        all.push(line)?;
        height = height.max(line_height);
        rest = tail;
    }
    Ok((all, height, rest))
}

/// A line of members with a height of at most `room`; and its height.
#[cycle(kind)]
#[tactic(auto, unfolding(crate::specs::TypeReadings::member_of), using(crate::proofs::Rooms::rooms, crate::proofs::TypeNodes::line))]
fn member<'a>(
    alloc: Global,
    room: u32,
    list: &'a [Token],
) -> Result<(Member, u32, &'a [Token]), Parse>
    requires { room ≤ 128 }
    ensures found { GivesHigh result (reading.member room (plain_tokens list.now)) }
    ensures measured { IfOk result (λ found. found.1 ≡ member_height found.0) }
    ensures bounded { IfOk result (λ found. found.1 ≤ room) }
    ensures shorter { IfOk result (λ found. length found.2.now < length list.now) }
{
    if room == 0 {
        return Err(Parse::Syntax);
    }
    let (precision, rest) = precision_at(list);
    let (kind, height, rest) = type_specifier(alloc, room - 1, rest)?;
    let (names, size_height, rest) = sized_names(alloc, room - 1, rest)?;
    let rest = expect_mark(rest, b";")?;
    let member = Member {
        precision,
        kind,
        names,
    };
    Ok((member, height.max(size_height) + 1, rest))
}
