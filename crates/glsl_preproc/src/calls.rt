ghost use Rattle.std.specs.Prelude.{◌≡◌, ◌≤◌, ◌<◌, ◌+◌, ◌-◌, ◌==◌, ◌&&◌, if◌then◌else◌, [], ◌∷◌, ◌++◌, IfOk, IfSome, OnOk, length};
ghost use Rattle.glsl_preproc.specs.Replacement.{opens, closes, is_comma, arguments_from, fits_parameters, called, used, use_of};
ghost use Rattle.glsl_preproc.specs.LoneClosers.{AreCounts};
ghost use Rattle.glsl_preproc.specs.Views.{plain_piece, plain_pieces, plain_macro, texts, found_of, slices, parameters_of, use_view, IsWithin, IsOfName};

use crate::brackets::Brackets;
use crate::budget::Budget;
use crate::macro_table::MacroTable;
use crate::macros::Macro;
use crate::names::Names;
use crate::pieces::{Piece, closes, is_comma, is_name, name_text, opens};
use std::alloc::AllocError;

/// The arguments of a call, and how many tokens it takes behind its name.
#[derive(Drop)]
pub struct Arguments<'a, 's> {
    /// The tokens of each argument, which stand in the list of the call.
    pub lists: Vec<&'a [Piece<'s>]>,
    /// How many tokens stand from the `(` to the `)`.
    pub count: usize,
}

/// What a token is in the list that is expanded.
#[derive(Drop)]
pub enum Use<'m, 'a, 's> {
    /// It is kept as it is.
    Kept,
    /// `__LINE__`.
    LineNumber,
    /// The name of a macro without parameters.
    Object(&'m Macro<'s>),
    /// A call of a macro, with its arguments.
    Call(&'m Macro<'s>, Arguments<'a, 's>),
    /// A call with another number of arguments.
    WrongCount,
}

/// Whether the token closes the call, where so many brackets are open in it.
fn ends_call(depth: usize, piece: &Piece) -> bool
    ensures { result ≡ (depth == 0 && closes (plain_piece piece.now)) }
{
    depth == 0 && closes(piece)
}

/// Whether the token parts two arguments, where so many brackets are open in the call.
fn parts_arguments(depth: usize, piece: &Piece) -> bool
    ensures { result ≡ (depth == 0 && is_comma (plain_piece piece.now)) }
{
    depth == 0 && is_comma(piece)
}

/// How many brackets are open behind the token, which opens none.
fn depth_behind(depth: usize, piece: &Piece) -> usize
    ensures depth { result ≡ (if closes (plain_piece piece.now) then depth - 1 else depth) }
    ensures within { result ≤ depth }
{
    if closes(piece) {
        depth.saturating_sub(1)
    } else {
        depth
    }
}

/// The tokens of an argument.
pub fn as_pieces<'a, 's>(argument: &&'a [Piece<'s>]) -> &'a [Piece<'s>]
    ensures { result.now ≡ argument.now.now }
{
    argument
}

/// Adds an argument.
fn push_argument<'a, 's>(
    lists: &mut Vec<&'a [Piece<'s>]>,
    list: &'a [Piece<'s>],
) -> Result<(), AllocError>
    ensures { OnOk result (slices lists.new.items ≡ slices lists.old.items ++ plain_pieces list.now ∷ []) }
{
    lists.push(list)?;
    Ok(())
}

/// The arguments of a call, from the first token behind its `(` on, if its `)` comes.
pub fn arguments_at<'a, 's>(
    budget: &mut Budget,
    list: &'a [Piece<'s>],
) -> Result<Option<Arguments<'a, 's>>, AllocError>
    ensures found { IfOk result (λ found. found_of found ≡ arguments_from [] [] 0 1 (plain_pieces list.now)) }
    ensures within { IfOk result (λ found. IfSome found (λ a. a.count ≤ length list.now + 1)) }
{
    let mut lists = Vec::new(budget.alloc);
    let mut start = 0usize;
    let mut depth = 0usize;
    let mut at = 0usize;
    while at < list.len() {
        budget.spend_scan()?;
        let next = at + 1;
        let piece = &list[at];
        let front = list.split_at(at).0;
        if opens(piece) {
            depth += 1;
        } else if ends_call(depth, piece) {
            push_argument(&mut lists, front.split_at(start).1)?;
            return Ok(Some(Arguments {
                lists,
                count: next + 1,
            }));
        } else if parts_arguments(depth, piece) {
            push_argument(&mut lists, front.split_at(start).1)?;
            start = next;
        } else {
            depth = depth_behind(depth, piece);
        }
        at = next;
    }
    Ok(None)
}

/// Whether there are as many arguments as parameters. No parameter takes one argument without tokens.
fn fits_parameters(parameters: &[Vec<u8>], arguments: &[&[Piece]]) -> bool
    ensures { result ≡ fits_parameters (texts parameters.now) (slices arguments.now) }
{
    if parameters.is_empty() {
        match arguments {
            [only] => only.is_empty(),
            _ => false,
        }
    } else {
        parameters.len() == arguments.len()
    }
}

/// The parameters of a macro, none where it takes no list of them.
fn parameters_of<'a>(m: &'a Macro) -> &'a [Vec<u8>]
    ensures { texts result.now ≡ parameters_of m.now.parameters }
{
    match &m.parameters {
        Some(parameters) => parameters.as_slice(),
        None => &[],
    }
}

/// What the name of a macro with parameters is, with the tokens behind its `(`. They are not searched for a `)` that
/// does not come.
#[tactic(auto, using(crate::proofs::LoneClosers::call_kept))]
fn use_of_call<'m, 'a, 's>(
    budget: &mut Budget,
    m: &'m Macro<'s>,
    brackets: &Brackets,
    rest: &'a [Piece<'s>],
) -> Result<Use<'m, 'a, 's>, AllocError>
    requires { AreCounts brackets.now.counts.items (plain_pieces rest.now) }
    ensures used { IfOk result (λ found. use_view found ≡ called (plain_macro m.now) (parameters_of m.now.parameters)
        (arguments_from [] [] 0 1 (plain_pieces rest.now))) }
    ensures within { IfOk result (λ found. IsWithin (length rest.now + 1) found) }
{
    if !brackets.may_close(rest) {
        return Ok(Use::Kept);
    }
    let Some(arguments) = arguments_at(budget, rest)? else {
        return Ok(Use::Kept);
    };
    if fits_parameters(parameters_of(m), arguments.lists.as_slice()) {
        Ok(Use::Call(m, arguments))
    } else {
        Ok(Use::WrongCount)
    }
}

/// What a macro's name is, with the tokens behind it.
#[tactic(auto, using(crate::proofs::LoneClosers::counts_behind_bracket))]
fn use_of_macro<'m, 'a, 's>(
    budget: &mut Budget,
    m: &'m Macro<'s>,
    brackets: &mut Brackets,
    rest: &'a [Piece<'s>],
) -> Result<Use<'m, 'a, 's>, AllocError>
    requires { AreCounts brackets.old.counts.items (plain_pieces rest.now) }
    ensures used { IfOk result (λ found. use_view found ≡ used (plain_macro m.now) (plain_macro m.now).parameters (plain_pieces rest.now)) }
    ensures within { IfOk result (λ found. IsWithin (length rest.now) found) }
    ensures counts { OnOk result (AreCounts brackets.new.counts.items (plain_pieces rest.now)) }
{
    if m.parameters.is_none() {
        return Ok(Use::Object(m));
    }
    match rest {
        [first, tail @ ..] if opens(first) => {
            brackets.count(budget.alloc, rest)?;
            use_of_call(budget, m, brackets, tail)
        }
        _ => Ok(Use::Kept),
    }
}

/// What a token is, with the tokens behind it in its list, where some names are hidden.
#[tactic(auto, unfolding(crate::specs::Replacement::use_of))]
pub fn use_of<'m, 'a, 's>(
    budget: &mut Budget,
    macros: &'m MacroTable<'s>,
    hidden: &Names,
    brackets: &mut Brackets,
    piece: &Piece<'s>,
    rest: &'a [Piece<'s>],
) -> Result<Use<'m, 'a, 's>, AllocError>
    requires { AreCounts brackets.old.counts.items (plain_pieces rest.now) }
    ensures used { IfOk result (λ found. use_view found ≡ use_of macros.now hidden.now (plain_piece piece.now) (plain_pieces rest.now)) }
    ensures within { IfOk result (λ found. IsWithin (length rest.now) found) }
    ensures name { IfOk result (λ found. IsOfName (plain_piece piece.now) found) }
    ensures counts { OnOk result (AreCounts brackets.new.counts.items (plain_pieces rest.now)) }
{
    if !is_name(piece) {
        return Ok(Use::Kept);
    }
    let name = name_text(piece);
    if name == b"__LINE__".as_slice() {
        return Ok(Use::LineNumber);
    }
    if hidden.contains(name) {
        return Ok(Use::Kept);
    }
    match macros.find(name) {
        None => Ok(Use::Kept),
        Some(m) => use_of_macro(budget, m, brackets, rest),
    }
}
