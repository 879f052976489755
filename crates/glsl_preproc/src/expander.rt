ghost use Rattle.std.specs.Prelude.{◌≡◌, ◌≤◌, ℕ, OnOk, IfErr, [], ◌∷◌, ◌++◌, length};
ghost use Rattle.glsl_preproc.specs.Replacement.{expanded};
ghost use Rattle.glsl_preproc.specs.Views.{argument_error, plain_piece, plain_pieces, ExpandsAlone};

use crate::brackets::Brackets;
use crate::budget::Budget;
use crate::calls::{Arguments, Use, as_pieces, use_of};
use crate::errors::Pre;
use crate::macro_table::MacroTable;
use crate::macros::Macro;
use crate::names::Names;
use crate::output::Output;
use crate::parameters::substituted;
use crate::pieces::{Piece, append_at_line, line_number, name_text, tokens_of};
use glsl_tree::Token;
use std::alloc::AllocError;

/// What expands lists of tokens.
#[derive(Drop)]
pub struct Expander<'m, 's> {
    /// What it may still take.
    pub budget: Budget,
    /// The macros.
    macros: &'m MacroTable<'s>,
    /// The names that are hidden.
    hidden: Names,
}

/// What an argument's expansion answers of the call: an argument may have any number of tokens.
fn argument_error(e: Pre) -> Pre
    ensures { result ≡ argument_error e }
{
    match e {
        Pre::Directive(line) => Pre::Directive(line),
        _ => Pre::Memory,
    }
}

/// Adds an argument that is expanded.
fn push_expanded<'s>(lists: &mut Vec<Output<'s>>, list: Output<'s>) -> Result<(), AllocError>
    ensures { OnOk result (lists.new.items ≡ lists.old.items ++ list.entry ∷ []) }
{
    lists.push(list)?;
    Ok(())
}

/// Adds a token that is kept.
fn keep<'s>(budget: &mut Budget, piece: &Piece<'s>, out: &mut Output<'s>) -> Result<(), Pre>
    ensures ok { OnOk result (out.new ≡ out.old ++ plain_piece piece.now ∷ []) }
    ensures full { IfErr result (λ e. e ≡ Pre.TooLong → 131072 ≤ length out.old) }
    ensures never { IfErr result (λ e. (line : ℕ) → e ≡ Pre.Directive line → ⊥) }
{
    let Ok(()) = budget.spend_copy(piece) else {
        return Err(Pre::Memory);
    };
    out.push(piece)
}

impl<'m, 's> Expander<'m, 's> {
    ghost use Rattle.std.specs.Prelude.{◌≡◌, true, [], ◌∷◌, ◌++◌, OnOk};
    ghost use Rattle.glsl_tree.specs.Token.{plain_tokens};
    ghost use Rattle.glsl_preproc.specs.Macros.{is_name_token};
    ghost use Rattle.glsl_preproc.specs.Replacement.{expanded, expanded_arguments, object_outcome, call_outcome};
    ghost use Rattle.glsl_preproc.specs.Views.{plain_piece, plain_pieces, plain_macro, slices, parameters_of, Expands, ExpandsArguments};

    /// Before any name is hidden.
    pub fn new(budget: Budget, macros: &'m MacroTable<'s>) -> Self
        ensures macros { result.macros.now ≡ macros.now }
        ensures hidden { result.hidden ≡ [] }
    {
        Expander {
            budget,
            macros,
            hidden: Names::new(budget.alloc),
        }
    }

    /// Expands a list behind the tokens before it, where calls and replacements nest in at most so many levels. A call
    /// that fails ends it, behind the tokens that stand before it.
    #[cycle(replacement)]
    pub fn expand_list(
        &mut self,
        levels: u32,
        list: &[Piece<'s>],
        out: &mut Output<'s>,
    ) -> Result<(), Pre>
        ensures outcome { Expands (expanded levels self.old.macros.now self.old.hidden out.old (plain_pieces list.now)) out.new result }
        ensures macros { OnOk result (self.new.macros.now ≡ self.old.macros.now) }
        ensures hidden { OnOk result (self.new.hidden ≡ self.old.hidden) }
    {
        if levels == 0 {
            return Err(Pre::Memory);
        }
        let below = levels - 1;
        let Ok(()) = self.budget.spend_list() else {
            return Err(Pre::Memory);
        };
        let mut brackets = Brackets::new(self.budget.alloc);
        let mut at = 0usize;
        while at < list.len() {
            let piece = &list[at];
            let tail = list.split_at(at + 1).1;
            let Ok(()) = self.budget.spend_token(piece) else {
                return Err(Pre::Memory);
            };
            let Ok(found) = use_of(
                &mut self.budget,
                self.macros,
                &self.hidden,
                &mut brackets,
                piece,
                tail,
            ) else {
                return Err(Pre::Memory);
            };
            match found {
                Use::Kept => match keep(&mut self.budget, piece, out) {
                    Ok(()) => at += 1,
                    Err(e) => return Err(e),
                },
                Use::LineNumber => match keep(&mut self.budget, &line_number(piece), out) {
                    Ok(()) => at += 1,
                    Err(e) => return Err(e),
                },
                Use::WrongCount => return Err(Pre::Directive(piece.line)),
                Use::Object(m) => match self.expand_object(below, piece, m, out) {
                    Ok(()) => at += 1,
                    Err(e) => return Err(e),
                },
                Use::Call(m, arguments) => {
                    match self.expand_call(below, piece, m, &arguments, out) {
                        Ok(()) => at += 1 + arguments.count,
                        Err(e) => return Err(e),
                    }
                }
            }
        }
        Ok(())
    }

    /// Expands the replacement of a name, which is hidden in it.
    #[cycle(replacement)]
    fn rescan(
        &mut self,
        levels: u32,
        name: &[u8],
        list: &[Piece<'s>],
        out: &mut Output<'s>,
    ) -> Result<(), Pre>
        ensures outcome { Expands (expanded levels self.old.macros.now (self.old.hidden ++ name.now ∷ []) out.old
            (plain_pieces list.now)) out.new result }
        ensures macros { OnOk result (self.new.macros.now ≡ self.old.macros.now) }
        ensures hidden { OnOk result (self.new.hidden ≡ self.old.hidden) }
    {
        let Ok(()) = self.hidden.push(self.budget.alloc, name) else {
            return Err(Pre::Memory);
        };
        match self.expand_list(levels, list, out) {
            Ok(()) => {
                self.hidden.pop();
                Ok(())
            }
            Err(e) => Err(e),
        }
    }

    /// Expands the name of a macro without parameters.
    #[cycle(replacement)]
    fn expand_object(
        &mut self,
        levels: u32,
        piece: &Piece<'s>,
        m: &Macro<'s>,
        out: &mut Output<'s>,
    ) -> Result<(), Pre>
        requires { is_name_token (plain_piece piece.now) ≡ true }
        ensures outcome { Expands (object_outcome (expanded levels self.old.macros.now) self.old.hidden out.old
            (plain_piece piece.now) (plain_macro m.now)) out.new result }
        ensures macros { OnOk result (self.new.macros.now ≡ self.old.macros.now) }
        ensures hidden { OnOk result (self.new.hidden ≡ self.old.hidden) }
    {
        let Ok(()) = self.budget.spend_body(m.body) else {
            return Err(Pre::Memory);
        };
        let mut list = Vec::new(self.budget.alloc);
        let Ok(()) = append_at_line(&mut list, m.body, piece.line) else {
            return Err(Pre::Memory);
        };
        self.rescan(levels, name_text(piece), list.as_slice(), out)
    }

    /// Expands each argument as a list of its own.
    #[cycle(replacement)]
    fn expand_arguments(
        &mut self,
        levels: u32,
        arguments: &[&[Piece<'s>]],
    ) -> Result<Vec<Output<'s>>, Pre>
        ensures outcome { ExpandsArguments (expanded_arguments (expanded levels self.old.macros.now self.old.hidden []) []
            (slices arguments.now)) result }
        ensures macros { OnOk result (self.new.macros.now ≡ self.old.macros.now) }
        ensures hidden { OnOk result (self.new.hidden ≡ self.old.hidden) }
    {
        let mut done = Vec::new(self.budget.alloc);
        let mut at = 0usize;
        while at < arguments.len() {
            let mut tokens = Output::new(self.budget.alloc);
            match self.expand_list(levels, as_pieces(&arguments[at]), &mut tokens) {
                Ok(()) => {}
                Err(e) => return Err(argument_error(e)),
            }
            let Ok(()) = push_expanded(&mut done, tokens) else {
                return Err(Pre::Memory);
            };
            at += 1;
        }
        Ok(done)
    }

    /// Expands a call: its arguments first, and then the replacement with these in it.
    #[cycle(replacement)]
    fn expand_call(
        &mut self,
        levels: u32,
        piece: &Piece<'s>,
        m: &Macro<'s>,
        arguments: &Arguments<'_, 's>,
        out: &mut Output<'s>,
    ) -> Result<(), Pre>
        requires { is_name_token (plain_piece piece.now) ≡ true }
        ensures outcome { Expands (call_outcome (expanded levels self.old.macros.now) self.old.hidden out.old
            (plain_piece piece.now) (plain_macro m.now) (parameters_of m.now.parameters) (slices arguments.now.lists.items)) out.new result }
        ensures macros { OnOk result (self.new.macros.now ≡ self.old.macros.now) }
        ensures hidden { OnOk result (self.new.hidden ≡ self.old.hidden) }
    {
        let lists = match self.expand_arguments(levels, arguments.lists.as_slice()) {
            Ok(lists) => lists,
            Err(e) => return Err(e),
        };
        let Ok(()) = self.budget.spend_substituted(m, lists.as_slice()) else {
            return Err(Pre::Memory);
        };
        let Ok(list) = substituted(
            self.budget.alloc,
            &m.parameters,
            lists.as_slice(),
            piece.line,
            m.body,
        ) else {
            return Err(Pre::Memory);
        };
        self.rescan(levels, name_text(piece), list.as_slice(), out)
    }
}

/// The tokens that a list is expanded to by itself, with texts of their own.
pub fn expanded<'s>(
    budget: &mut Budget,
    macros: &MacroTable<'s>,
    levels: u32,
    list: &[Piece<'s>],
) -> Result<Vec<Token>, Pre>
    ensures { ExpandsAlone (expanded levels macros.now [] [] (plain_pieces list.now)) result }
{
    let mut expander = Expander::new(*budget, macros);
    let mut out = Output::new(budget.alloc);
    match expander.expand_list(levels, list, &mut out) {
        Ok(()) => {}
        Err(Pre::Directive(line)) => return Err(Pre::Directive(line)),
        Err(_) => return Err(Pre::Memory),
    }
    *budget = expander.budget;
    match tokens_of(budget.alloc, out.as_slice()) {
        Ok(tokens) => Ok(tokens),
        Err(_) => Err(Pre::Memory),
    }
}
