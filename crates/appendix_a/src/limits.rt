ghost use Rattle.std.specs.Prelude.{◌≡◌, ◌≤◌, map, length};
ghost use Rattle.glsl_tree.specs.Statements.{unit_tokens};
ghost use Rattle.appendix_a.specs.Ahead.{ahead_of};
ghost use Rattle.appendix_a.specs.Rules.{Goes};
ghost use Rattle.appendix_a.specs.Site.{site_of};
ghost use Rattle.appendix_a.specs.Declarations.{in_order};
ghost use Rattle.appendix_a.specs.Limits.{item_passage, limits};
ghost use Rattle.appendix_a.specs.Verdict.{rule_of};

use crate::ahead::{Ahead, ahead_in};
use crate::declarations::{declaration, head};
use crate::loops::no_loops;
use crate::numbering::number_names;
use crate::rule::Rule;
use crate::site::Site;
use crate::statements::each_statement;
use crate::table::{ENTRIES, Table};
use gl_numbers::Stage;
use glsl_tree::{Item, Unit};
use glsl_types::Facts;

/// A declaration or a function.
fn item(site: &Site<'_>, ahead: &mut Ahead<'_>, i: &Item) -> Result<(), Rule>
    ensures { Goes (item_passage i.now (site_of site.now) (ahead_of ahead.old)) ahead.new result }
{
    match i {
        Item::Declaration(d) => declaration(site, ahead, d),
        Item::Function { head: h, body } => {
            head(site, ahead, h)?;
            each_statement(site, ahead, body.as_slice())
        }
    }
}

/// Declarations and functions in order.
fn each_item(site: &Site<'_>, ahead: &mut Ahead<'_>, all: &[Item]) -> Result<(), Rule>
    ensures { Goes (in_order (map item_passage all.now) (site_of site.now) (ahead_of ahead.old)) ahead.new result }
{
    for i in all {
        item(site, ahead, i)?;
    }
    Ok(())
}

/// The first rule of GLSL ES 1.00.17 appendix A sections 4 and 5 that a shader breaks in source order, of which these are the
/// facts in this stage; Ok where it breaks none. It takes no memory, and about 660 KB of stack beside a part that grows with
/// the height of the tree.
pub fn check_limits(unit: &Unit, facts: &Facts, stage: Stage) -> Result<(), Rule>
    requires { length (unit_tokens unit.now) ≤ 131072 }
    ensures { rule_of result ≡ limits unit.now facts.now stage }
{
    let items = unit.items.as_slice();
    let mut table = Table {
        items,
        entries: [0; ENTRIES],
        next: 1,
    };
    number_names(&mut table);
    let names = table.names();
    let loops = no_loops();
    let site = Site {
        names,
        stage,
        loops: &loops,
        header: None,
    };
    let mut ahead = ahead_in(facts);
    each_item(&site, &mut ahead, items)
}
