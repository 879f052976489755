use crate::directives::{are_line_numbers, define, is_extension, is_version, kind_of, undefine};
use crate::errors::Pre;
use crate::expander::expanded;
use crate::hashes::{behind_name, failing_hash};
use crate::kinds::Kind;
use crate::pieces::append_tokens;
use crate::reader::{LEVELS, Reader};
use glsl_tree::Token;

impl<'s> Reader<'s> {
    ghost use Rattle.std.specs.Prelude.{◌≤◌, ◌==◌, true, false, [], length};
    ghost use Rattle.glsl_tree.specs.Token.{plain_tokens};
    ghost use Rattle.glsl_preproc.specs.Directives.{after_define};
    ghost use Rattle.glsl_preproc.specs.Expansion.{with_macros, line_step, directive_step, directive, skipping_inner, skipping_outer, skipping};
    ghost use Rattle.glsl_preproc.specs.Replacement.{expanded};
    ghost use Rattle.glsl_preproc.specs.ReaderViews.{state_of, Steps};

    /// `#define`
    fn define(&mut self, line: u32, list: &'s [Token]) -> Result<(), Pre>
        ensures { Steps (with_macros (state_of self.old) line
            (after_define (state_of self.old).macros (plain_tokens list.now))) (state_of self.new) result }
    {
        match define(self.budget.alloc, &mut self.macros, list) {
            Ok(true) => Ok(()),
            Ok(false) => Err(Pre::Directive(line)),
            Err(_) => Err(Pre::Memory),
        }
    }

    /// `#line`
    fn line(&mut self, line: u32, list: &'s [Token]) -> Result<(), Pre>
        ensures { Steps (line_step (state_of self.old) line
            (expanded 1024 (state_of self.old).macros [] [] (plain_tokens list.now))) (state_of self.new) result }
    {
        let mut pieces = Vec::new(self.budget.alloc);
        let Ok(()) = append_tokens(&mut pieces, list) else {
            return Err(Pre::Memory);
        };
        match expanded(&mut self.budget, &self.macros, LEVELS, pieces.as_slice()) {
            Ok(tokens) if are_line_numbers(tokens.as_slice()) => Ok(()),
            Ok(_) => Err(Pre::Directive(line)),
            Err(Pre::Directive(_)) => Err(Pre::Directive(line)),
            Err(_) => Err(Pre::Memory),
        }
    }

    /// A directive of a kind, of a line, with the tokens behind its name.
    #[tactic(auto, unfolding(crate::specs::Expansion::directive_step))]
    fn act(&mut self, line: u32, kind: Kind, list: &'s [Token], fresh: bool) -> Result<(), Pre>
        ensures { Steps (directive_step 1024 (state_of self.old) line kind (plain_tokens list.now) fresh) (state_of self.new) result }
    {
        let holds = match kind {
            Kind::Empty | Kind::Pragma => true,
            Kind::Error | Kind::Unknown => false,
            Kind::Extension => is_extension(list),
            Kind::Version => fresh && is_version(list),
            Kind::Undef => undefine(&mut self.macros, list),
            Kind::Define => return self.define(line, list),
            Kind::If => return self.open_if(line, list),
            Kind::Ifdef => return self.open_ifdef(line, true, list),
            Kind::Ifndef => return self.open_ifdef(line, false, list),
            Kind::Elif => return self.elif(line, list),
            Kind::Else => return self.otherwise(line, list),
            Kind::Endif => return self.endif(line, list),
            Kind::Line => return self.line(line, list),
        };
        if holds {
            Ok(())
        } else {
            Err(Pre::Directive(line))
        }
    }

    /// A directive with the tokens behind its `#`. One more `#` among them fails first, but in a `#pragma`.
    #[tactic(auto, unfolding(crate::specs::Expansion::directive))]
    pub fn directive(&mut self, line: u32, list: &'s [Token], fresh: bool) -> Result<(), Pre>
        ensures { Steps (directive 1024 (state_of self.old) line (plain_tokens list.now) fresh) (state_of self.new) result }
    {
        let kind = kind_of(list);
        match failing_hash(kind, list) {
            Some(at) => Err(Pre::Directive(at)),
            None => self.act(line, kind, behind_name(list), fresh),
        }
    }

    /// A directive within lines that are not read, in a conditional that stands in them.
    fn skip_inner(&mut self, kind: Kind) -> Result<(), Pre>
        ensures { Steps (skipping_inner (state_of self.old) kind) (state_of self.new) result }
    {
        match kind {
            Kind::If | Kind::Ifdef | Kind::Ifndef => {
                let Some(skipped) = self.skipped.checked_add(1) else {
                    return Err(Pre::Memory);
                };
                self.skipped = skipped;
            }
            Kind::Endif => self.skipped = self.skipped.saturating_sub(1),
            _ => {}
        }
        Ok(())
    }

    /// A directive within lines that are not read, in the conditional that skips them.
    fn skip_outer(&mut self, line: u32, list: &'s [Token], kind: Kind) -> Result<(), Pre>
        ensures { Steps (skipping_outer 1024 (state_of self.old) line (plain_tokens list.now) kind) (state_of self.new) result }
    {
        match kind {
            Kind::If | Kind::Ifdef | Kind::Ifndef => {
                self.skipped = 1;
                Ok(())
            }
            Kind::Elif | Kind::Else | Kind::Endif => self.directive(line, list, false),
            _ => Ok(()),
        }
    }

    /// A directive within lines that are not read.
    pub fn skip(&mut self, line: u32, list: &'s [Token]) -> Result<(), Pre>
        ensures { Steps (skipping 1024 (state_of self.old) line (plain_tokens list.now)) (state_of self.new) result }
    {
        let kind = kind_of(list);
        if self.skipped == 0 {
            self.skip_outer(line, list, kind)
        } else {
            self.skip_inner(kind)
        }
    }
}
