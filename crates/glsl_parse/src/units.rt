//! Whole shaders (GLSL ES 1.00.17 chapter 9).

ghost use Rattle.std.specs.Prelude.{◌≡◌, ◌≤◌, ◌<◌, length, IfOk, IfErr};
ghost use Rattle.glsl_tree.specs.Statements.{WellFormedTree, Spells, unit_height};
ghost use Rattle.glsl_tree.specs.Token.{plain_tokens};
ghost use Rattle.glsl_tree.specs.declared.statements.Unit as shader;
ghost use Rattle.glsl_parse.specs.Answers.{Gives, GivesAll};
ghost use Rattle.glsl_parse.specs.StatementReadings as reading;

use crate::declarations::begun;
use crate::errors::Parse;
use crate::statements::block;
use crate::symbols::Begun;
use crate::tokens::{after_mark, expect_mark};
use glsl_tree::{Decl, Head, Item, Token, Unit};
use sqlite_items::Items;
use std::alloc::Global;

/// The most nodes on a path through a tree.
pub const HIGHEST: u32 = 128;

/// A function after its head, whose body has a height of at most `room`.
#[tactic(auto, unfolding(crate::specs::StatementReadings::function_after, crate::specs::StatementReadings::body_at), using(crate::proofs::Rooms::rooms))]
fn function<'a>(
    alloc: Global,
    room: u32,
    head: Head,
    list: &'a [Token],
) -> Result<(Item, &'a [Token]), Parse>
    requires { room ≤ 128 }
    ensures found { Gives result (reading.function_after room head (plain_tokens list.now)) }
    ensures shorter { IfOk result (λ found. length found.1.now < length list.now) }
{
    let rest = expect_mark(list, b"{")?;
    if room == 0 {
        return Err(Parse::Syntax);
    }
    let (body, rest) = block(alloc, room - 1, rest)?;
    Ok((Item::Function { head, body }, rest))
}

/// A declaration or a function with a height of at most `room`.
#[tactic(auto, unfolding(crate::specs::StatementReadings::item_at, crate::specs::StatementReadings::headed_item), using(crate::proofs::Rooms::rooms))]
fn item<'a>(alloc: Global, room: u32, list: &'a [Token]) -> Result<(Item, &'a [Token]), Parse>
    requires { room ≤ 128 }
    ensures found { Gives result (reading.item_at room (plain_tokens list.now)) }
    ensures shorter { IfOk result (λ found. length found.1.now < length list.now) }
{
    if room == 0 {
        return Err(Parse::Syntax);
    }
    let (begun, rest) = begun(alloc, room - 1, list)?;
    match begun {
        Begun::Whole(declaration) => Ok((Item::Declaration(declaration), rest)),
        Begun::Headed(head) => match after_mark(rest, b";") {
            Some(rest) => Ok((Item::Declaration(Decl::Prototype(head)), rest)),
            None => function(alloc, room - 1, head, rest),
        },
    }
}

/// The declarations and functions of a shader.
#[tactic(auto, unfolding(crate::specs::StatementReadings::items_at, crate::specs::StatementReadings::more_items), using(crate::proofs::Loops::loops))]
fn items(alloc: Global, list: &[Token]) -> Result<Items<Item>, Parse>
    ensures { GivesAll result (reading.items_at 127 (plain_tokens list.now)) }
{
    if list.is_empty() {
        return Err(Parse::Syntax);
    }
    let mut all = Items::new(alloc);
    let mut rest = list;
    while !rest.is_empty() {
        let (next, tail) = item(alloc, HIGHEST - 1, rest)?;
        all.push(next)?;
        rest = tail;
    }
    Ok(all)
}

/// The tree that the tokens spell (GLSL ES 1.00.17 chapter 9): their texts and classes; lines do not count. There is at
/// most one. `Syntax` says that no tree of a height of at most 128 spells them, and `Memory` that an allocation was refused.
#[tactic(auto, using(crate::proofs::Whole::whole))]
pub fn parse(alloc: Global, tokens: &[Token]) -> Result<Unit, Parse>
    ensures well_formed { IfOk result WellFormedTree }
    ensures height { IfOk result (λ unit. unit_height unit ≤ 128) }
    ensures spelled { IfOk result (λ unit. Spells unit tokens.now) }
    ensures only { IfOk result (λ unit. (other : shader.Unit)
        → WellFormedTree other → unit_height other ≤ 128 → Spells other tokens.now → other ≡ unit) }
    ensures syntax { IfErr result (λ error. error ≡ Parse.Syntax → (other : shader.Unit)
        → WellFormedTree other → unit_height other ≤ 128 → Spells other tokens.now → ⊥) }
{
    let items = items(alloc, tokens)?;
    Ok(Unit { items })
}
