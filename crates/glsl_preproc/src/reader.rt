use crate::budget::Budget;
use crate::conditionals::{Conditional, Part};
use crate::errors::Pre;
use crate::expander::Expander;
use crate::hashes::{before_hash, stray_hash};
use crate::macro_table::{MacroTable, Numbers, first_macros};
use crate::output::Output;
use crate::pieces::{Piece, append_tokens};
use crate::tokens::is_hash;
use glsl_tree::Token;
use std::alloc::{AllocError, Global};

/// The most levels in which macro calls, replacements, brackets and signs nest, 1,024.
pub const LEVELS: u32 = 1024;

/// What is known where a line begins.
#[derive(Drop)]
pub struct Reader<'s> {
    /// The macros that are defined.
    pub macros: MacroTable<'s>,
    /// The conditionals that are open, the outermost first.
    pub conditionals: Vec<Conditional>,
    /// How many more are open within lines that are not read.
    pub skipped: u32,
    /// The tokens of the text lines since the last directive.
    pub text: Vec<Piece<'s>>,
    /// The tokens of the expansion so far.
    pub tokens: Output<'s>,
    /// Whether no token has come yet.
    pub fresh: bool,
    /// What the expansion may still take.
    pub budget: Budget,
}

impl<'s> Reader<'s> {
    ghost use Rattle.std.specs.Prelude.{◌≡◌, ◌==◌, ◌+◌, true, false, [], ◌++◌, IfOk, OnOk, codes};
    ghost use Rattle.glsl_tree.specs.Token.{plain, plain_tokens};
    ghost use Rattle.glsl_preproc.specs.Macros.{number_token};
    ghost use Rattle.glsl_preproc.specs.Expansion.{at_start, is_read, flushed, read_step, skipped_step, text_step, stray_hash, before_hash, line_of, finished};
    ghost use Rattle.glsl_preproc.specs.ReaderViews.{state_of, Steps, Finishes};
    /// Before the first line.
    #[tactic(auto, unfolding(crate::specs::Expansion::at_start))]
    pub fn new(alloc: Global, numbers: &'s Numbers) -> Result<Self, AllocError>
        requires zero { plain numbers.now.zero ≡ number_token (codes "0") }
        requires one { plain numbers.now.one ≡ number_token (codes "1") }
        requires version { plain numbers.now.version ≡ number_token (codes "100") }
        ensures { IfOk result (λ r. state_of r ≡ at_start) }
    {
        Ok(Reader {
            macros: first_macros(alloc, numbers)?,
            conditionals: Vec::new(alloc),
            skipped: 0,
            text: Vec::new(alloc),
            tokens: Output::new(alloc),
            fresh: true,
            budget: Budget::new(alloc),
        })
    }

    /// Whether lines are read.
    fn is_read(&self) -> bool
        ensures { result ≡ is_read (state_of self.now) }
    {
        self.skipped == 0
            && match self.conditionals.last() {
                None => true,
                Some(c) => matches!(c.part, Part::Taken),
            }
    }

    /// Expands the text lines since the last directive.
    #[tactic(auto, unfolding(crate::specs::Expansion::flushed))]
    pub fn flush(&mut self) -> Result<(), Pre>
        ensures { Steps (flushed 1024 (state_of self.old)) (state_of self.new) result }
    {
        let mut expander = Expander::new(self.budget, &self.macros);
        match expander.expand_list(LEVELS, self.text.as_slice(), &mut self.tokens) {
            Ok(()) => {}
            Err(e) => return Err(e),
        }
        self.budget = expander.budget;
        self.text.clear();
        Ok(())
    }

    /// Adds tokens to those of the text lines.
    fn append_text(&mut self, list: &'s [Token]) -> Result<(), AllocError>
        ensures { OnOk result (state_of self.new
            ≡ record (state_of self.old) { text = (state_of self.old).text ++ plain_tokens list.now }) }
    {
        append_tokens(&mut self.text, list)
    }

    /// A text line. A `#` in it fails, once the tokens before it are expanded.
    fn add_text(&mut self, list: &'s [Token]) -> Result<(), Pre>
        ensures { Steps (text_step 1024 (state_of self.old) (plain_tokens list.now) (stray_hash (plain_tokens list.now)))
            (state_of self.new) result }
    {
        match stray_hash(list) {
            None => {
                let Ok(()) = self.append_text(list) else {
                    return Err(Pre::Memory);
                };
                self.fresh = false;
                Ok(())
            }
            Some(at) => {
                let Ok(()) = self.append_text(before_hash(list)) else {
                    return Err(Pre::Memory);
                };
                match self.flush() {
                    Ok(()) => Err(Pre::Directive(at)),
                    Err(e) => Err(e),
                }
            }
        }
    }

    /// A directive in lines that are read.
    fn read_directive(&mut self, line: u32, list: &'s [Token]) -> Result<(), Pre>
        ensures { Steps (read_step 1024 (state_of self.old) line (plain_tokens list.now)) (state_of self.new) result }
    {
        let fresh = self.fresh;
        match self.flush() {
            Ok(()) => {}
            Err(e) => return Err(e),
        }
        match self.directive(line, list, fresh) {
            Ok(()) => {
                self.fresh = false;
                Ok(())
            }
            Err(e) => Err(e),
        }
    }

    /// A directive in lines that are not read.
    fn skip_directive(&mut self, line: u32, list: &'s [Token]) -> Result<(), Pre>
        ensures { Steps (skipped_step 1024 (state_of self.old) line (plain_tokens list.now)) (state_of self.new) result }
    {
        match self.skip(line, list) {
            Ok(()) => {
                self.fresh = false;
                Ok(())
            }
            Err(e) => Err(e),
        }
    }

    /// One line, without its line end. A directive is a line that begins with `#`.
    #[tactic(auto, unfolding(crate::specs::Expansion::line_of))]
    pub fn line_of(&mut self, list: &'s [Token]) -> Result<(), Pre>
        ensures { Steps (line_of 1024 (state_of self.old) (plain_tokens list.now)) (state_of self.new) result }
    {
        if list.is_empty() {
            return Ok(());
        }
        let first = &list[0];
        let rest = list.split_at(1).1;
        if is_hash(first) {
            if self.is_read() {
                return self.read_directive(first.line, rest);
            }
            return self.skip_directive(first.line, rest);
        }
        if self.is_read() {
            return self.add_text(list);
        }
        self.fresh = false;
        Ok(())
    }

    /// The end: the text lines are expanded, and a conditional that is open fails.
    #[tactic(auto, unfolding(crate::specs::Expansion::finished))]
    pub fn finish(&mut self) -> Result<(), Pre>
        ensures { Finishes (finished 1024 (state_of self.old)) self.new.tokens result }
    {
        match self.flush() {
            Ok(()) => {}
            Err(e) => return Err(e),
        }
        match self.conditionals.as_slice() {
            [] => Ok(()),
            [c, ..] => Err(Pre::Directive(c.line)),
        }
    }
}
