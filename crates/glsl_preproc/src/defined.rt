ghost use Rattle.std.specs.Prelude.{◌≡◌, [], ◌∷◌, ◌++◌, IfOk, OnOk};
ghost use Rattle.glsl_tree.specs.Token.{plain, plain_tokens};
ghost use Rattle.glsl_preproc.specs.Conditions.{asked_at, answer_token, answered_from};
ghost use Rattle.glsl_preproc.specs.ConditionViews.{answered_of, asked_of, IsAskedWithin};
ghost use Rattle.glsl_preproc.specs.Views.{plain_piece};

use crate::macro_table::MacroTable;
use crate::pieces::{Piece, number_at, piece_at, push_piece};
use crate::tokens::{closes, is_name, is_text, opens};
use glsl_tree::Token;
use std::alloc::{AllocError, Global};

/// What a `defined` at the front of a list is.
#[derive(Clone, Copy, Debug)]
pub enum Asked<'a> {
    /// None.
    Other,
    /// Of a name, with so many tokens behind it.
    Of(&'a [u8], usize),
    /// Of no name.
    Broken,
}

/// What a `defined` at the front is, with the tokens behind it.
#[tactic(auto, unfolding(crate::specs::Conditions::asked_at))]
fn asked_at<'a>(token: &Token, rest: &'a [Token]) -> Asked<'a>
    ensures asked { asked_of result ≡ asked_at (plain token.now) (plain_tokens rest.now) }
    ensures within { IsAskedWithin (plain_tokens rest.now) result }
{
    if !is_name(token) || !is_text(token, b"defined") {
        return Asked::Other;
    }
    match rest {
        [open, name, close, ..] if opens(open) => {
            if is_name(name) && closes(close) {
                Asked::Of(name.text.as_slice(), 3)
            } else {
                Asked::Broken
            }
        }
        [name, ..] if !opens(name) && is_name(name) => Asked::Of(name.text.as_slice(), 1),
        _ => Asked::Broken,
    }
}

/// 1 or 0, which stands on no line.
fn answer_piece<'s>(answer: bool) -> Piece<'s>
    ensures { plain_piece result ≡ answer_token answer }
{
    if answer {
        number_at(1, 0)
    } else {
        number_at(0, 0)
    }
}

/// The list with 1 or 0 for each `defined`, where each has a name.
pub fn answered<'s>(
    alloc: Global,
    macros: &MacroTable,
    list: &'s [Token],
) -> Result<Option<Vec<Piece<'s>>>, AllocError>
    ensures { IfOk result (λ found. answered_of found ≡ answered_from macros.now [] 0 (plain_tokens list.now)) }
{
    let mut out = Vec::new(alloc);
    let mut rest = list;
    while !rest.is_empty() {
        let token = &rest[0];
        let tail = rest.split_at(1).1;
        match asked_at(token, tail) {
            Asked::Other => {
                push_piece(&mut out, &piece_at(token, token.line))?;
                rest = tail;
            }
            Asked::Of(name, count) => {
                push_piece(&mut out, &answer_piece(macros.is_defined(name)))?;
                rest = tail.split_at(count).1;
            }
            Asked::Broken => return Ok(None),
        }
    }
    Ok(Some(out))
}
