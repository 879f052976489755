ghost use Rattle.std.specs.Prelude.{◌≡◌};
ghost use Rattle.glsl_preproc.specs.Expansion.{other_part};

use crate::conditionals::{Conditional, Part};
use crate::conditions::{Judged, condition};
use crate::directives::asked_defined;
use crate::errors::Pre;
use crate::reader::{LEVELS, Reader};
use glsl_tree::Token;

/// The part that an `#else` begins.
fn other_part(part: Part) -> Part
    ensures { result ≡ other_part part }
{
    match part {
        Part::Waiting => Part::Taken,
        _ => Part::Passed,
    }
}

impl<'s> Reader<'s> {
    ghost use Rattle.std.specs.Prelude.{◌≡◌, ◌≤◌, ◌==◌, true, false, length};
    ghost use Rattle.glsl_tree.specs.Token.{plain_tokens};
    ghost use Rattle.glsl_preproc.specs.Conditions.{condition};
    ghost use Rattle.glsl_preproc.specs.Directives.{asked_defined};
    ghost use Rattle.glsl_preproc.specs.Expansion.{opened, opened_if, opened_ifdef, elif_step, elif_judged, with_part, else_step, endif_step};
    ghost use Rattle.glsl_preproc.specs.ReaderViews.{state_of, Steps};

    /// Begins a conditional, whose first part is read or not.
    fn open(&mut self, reads: bool, line: u32) -> Result<(), Pre>
        ensures { Steps (opened (state_of self.old) line reads) (state_of self.new) result }
    {
        let part = if reads { Part::Taken } else { Part::Waiting };
        let Ok(()) = self.conditionals.push(Conditional {
            part,
            closing: false,
            line,
        })
        else {
            return Err(Pre::Memory);
        };
        Ok(())
    }

    /// `#if`
    pub fn open_if(&mut self, line: u32, list: &'s [Token]) -> Result<(), Pre>
        ensures { Steps (opened_if (state_of self.old) line
            (condition 1024 (state_of self.old).macros (plain_tokens list.now))) (state_of self.new) result }
    {
        match condition(&mut self.budget, &self.macros, LEVELS, list) {
            Judged::Yes => self.open(true, line),
            Judged::No => self.open(false, line),
            Judged::Fails => Err(Pre::Directive(line)),
            Judged::Unknown => Err(Pre::Memory),
        }
    }

    /// `#ifdef`, or `#ifndef` where the name is wanted not to be defined.
    pub fn open_ifdef(&mut self, line: u32, wanted: bool, list: &'s [Token]) -> Result<(), Pre>
        ensures { Steps (opened_ifdef (state_of self.old) line wanted
            (asked_defined (state_of self.old).macros (plain_tokens list.now))) (state_of self.new) result }
    {
        match asked_defined(&self.macros, list) {
            None => Err(Pre::Directive(line)),
            Some(found) => self.open(found == wanted, line),
        }
    }

    /// `#elif`
    pub fn elif(&mut self, line: u32, list: &'s [Token]) -> Result<(), Pre>
        ensures { Steps (elif_step 1024 (state_of self.old) line (plain_tokens list.now) (state_of self.old).conditionals)
            (state_of self.new) result }
    {
        let Some(c) = self.conditionals.pop() else {
            return Err(Pre::Directive(line));
        };
        if c.closing {
            return Err(Pre::Directive(line));
        }
        match c.part {
            Part::Waiting => self.elif_judged(line, list, c),
            _ => self.put_back(c, Part::Passed, false),
        }
    }

    /// `#elif`, where no part was read before.
    fn elif_judged(&mut self, line: u32, list: &'s [Token], c: Conditional) -> Result<(), Pre>
        ensures { Steps (elif_judged (state_of self.old) line c (state_of self.old).conditionals
            (condition 1024 (state_of self.old).macros (plain_tokens list.now))) (state_of self.new) result }
    {
        match condition(&mut self.budget, &self.macros, LEVELS, list) {
            Judged::Yes => self.put_back(c, Part::Taken, false),
            Judged::No => self.put_back(c, Part::Waiting, false),
            Judged::Fails => Err(Pre::Directive(line)),
            Judged::Unknown => Err(Pre::Memory),
        }
    }

    /// The innermost conditional goes on with another part.
    fn put_back(&mut self, c: Conditional, part: Part, closing: bool) -> Result<(), Pre>
        ensures { Steps (with_part (state_of self.old) c (state_of self.old).conditionals part closing) (state_of self.new) result }
    {
        let Ok(()) = self.conditionals.push(Conditional {
            part,
            closing,
            line: c.line,
        })
        else {
            return Err(Pre::Memory);
        };
        Ok(())
    }

    /// `#else`
    pub fn otherwise(&mut self, line: u32, list: &'s [Token]) -> Result<(), Pre>
        ensures { Steps (else_step (state_of self.old) line (plain_tokens list.now) (state_of self.old).conditionals)
            (state_of self.new) result }
    {
        if !list.is_empty() {
            return Err(Pre::Directive(line));
        }
        let Some(c) = self.conditionals.pop() else {
            return Err(Pre::Directive(line));
        };
        if c.closing {
            return Err(Pre::Directive(line));
        }
        self.put_back(c, other_part(c.part), true)
    }

    /// `#endif`
    pub fn endif(&mut self, line: u32, list: &'s [Token]) -> Result<(), Pre>
        ensures { Steps (endif_step (state_of self.old) line (plain_tokens list.now) (state_of self.old).conditionals)
            (state_of self.new) result }
    {
        if !list.is_empty() {
            return Err(Pre::Directive(line));
        }
        match self.conditionals.pop() {
            Some(_) => Ok(()),
            None => Err(Pre::Directive(line)),
        }
    }
}
