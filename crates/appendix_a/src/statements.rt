ghost use Rattle.std.specs.Prelude.{◌≡◌, map};
ghost use Rattle.appendix_a.specs.Ahead.{ahead_of};
ghost use Rattle.appendix_a.specs.Rules.{Goes};
ghost use Rattle.appendix_a.specs.Site.{site_of};
ghost use Rattle.appendix_a.specs.Declarations.{in_order};
ghost use Rattle.appendix_a.specs.Statements as spec;

use crate::ahead::Ahead;
use crate::declarations::declaration;
use crate::headers::header;
use crate::loops::Loops;
use crate::rule::Rule;
use crate::site::Site;
use crate::types::{optional, passed};
use glsl_tree::Stmt;

/// A statement.
#[cycle(statement)]
#[tactic(auto, unfolding(crate::specs::Statements::statement, crate::specs::Loops::indices))]
fn statement(site: &Site<'_>, ahead: &mut Ahead<'_>, s: &Stmt) -> Result<(), Rule>
    ensures { Goes (spec.statement s.now (site_of site.now) (ahead_of ahead.old)) ahead.new result }
{
    match s {
        Stmt::Block(all) => each_statement(site, ahead, all.as_slice()),
        Stmt::Declaration(d) => declaration(site, ahead, d),
        Stmt::Expression(e) => passed(site, ahead, e),
        Stmt::If {
            condition,
            then,
            otherwise,
        } => {
            passed(site, ahead, condition)?;
            statement(site, ahead, then.get())?;
            match otherwise {
                Some(branch) => statement(site, ahead, branch.get()),
                None => Ok(()),
            }
        }
        Stmt::While { .. } | Stmt::Do { .. } => Err(Rule(1)),
        Stmt::For {
            start,
            condition,
            step,
            body,
        } => {
            let index = header(site, ahead, start, condition, step)?;
            let loops = Loops::Within {
                index,
                outer: site.loops,
            };
            let inner = Site {
                loops: &loops,
                ..*site
            };
            statement(&inner, ahead, body.get())
        }
        Stmt::Return(value) => optional(site, ahead, value),
        Stmt::Empty | Stmt::Break | Stmt::Continue | Stmt::Discard => Ok(()),
    }
}

/// Statements in order.
#[cycle(statement)]
pub(crate) fn each_statement(
    site: &Site<'_>,
    ahead: &mut Ahead<'_>,
    all: &[Stmt],
) -> Result<(), Rule>
    ensures { Goes (in_order (map spec.statement all.now) (site_of site.now) (ahead_of ahead.old)) ahead.new result }
{
    for s in all {
        statement(site, ahead, s)?;
    }
    Ok(())
}
