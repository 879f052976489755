ghost use Rattle.std.specs.Prelude.{◌≡◌, map};
ghost use Rattle.appendix_a.specs.Ahead.{ahead_of};
ghost use Rattle.appendix_a.specs.Rules.{Goes};
ghost use Rattle.appendix_a.specs.Site.{site_of};
ghost use Rattle.appendix_a.specs.Declarations as spec;

use crate::ahead::Ahead;
use crate::expressions::expression;
use crate::rule::Rule;
use crate::site::Site;
use glsl_tree::{Expr, Member, SizedName, TypeSpecifier};

/// An expression of which nothing is asked.
pub(crate) fn passed(site: &Site<'_>, ahead: &mut Ahead<'_>, e: &Expr) -> Result<(), Rule>
    ensures { Goes (spec.passed e.now (site_of site.now) (ahead_of ahead.old)) ahead.new result }
{
    expression(site, ahead, e)?;
    Ok(())
}

/// An expression that may be left out.
pub(crate) fn optional(site: &Site<'_>, ahead: &mut Ahead<'_>, e: &Option<Expr>) -> Result<(), Rule>
    ensures { Goes (spec.optional e.now (site_of site.now) (ahead_of ahead.old)) ahead.new result }
{
    match e {
        Some(e) => passed(site, ahead, e),
        None => Ok(()),
    }
}

/// A type: the sizes of its members.
#[cycle(specifier)]
#[tactic(auto, unfolding(crate::specs::Declarations::specifier, crate::specs::Declarations::member))]
pub(crate) fn specifier(
    site: &Site<'_>,
    ahead: &mut Ahead<'_>,
    kind: &TypeSpecifier,
) -> Result<(), Rule>
    ensures { Goes (spec.specifier kind.now (site_of site.now) (ahead_of ahead.old)) ahead.new result }
{
    match kind {
        TypeSpecifier::Struct { members, .. } => each_member(site, ahead, members.as_slice()),
        TypeSpecifier::Basic(_) | TypeSpecifier::Void | TypeSpecifier::Name(_) => Ok(()),
    }
}

/// Lines of members in order.
#[cycle(specifier)]
fn each_member(site: &Site<'_>, ahead: &mut Ahead<'_>, members: &[Member]) -> Result<(), Rule>
    ensures { Goes (spec.in_order (map spec.member members.now) (site_of site.now) (ahead_of ahead.old)) ahead.new result }
{
    for line in members {
        member(site, ahead, line)?;
    }
    Ok(())
}

/// A line of members.
#[cycle(specifier)]
#[tactic(auto, unfolding(crate::specs::Declarations::specifier, crate::specs::Declarations::member))]
fn member(site: &Site<'_>, ahead: &mut Ahead<'_>, line: &Member) -> Result<(), Rule>
    ensures { Goes (spec.member line.now (site_of site.now) (ahead_of ahead.old)) ahead.new result }
{
    specifier(site, ahead, &line.kind)?;
    sizes(site, ahead, line.names.as_slice())
}

/// The sizes of names in order.
fn sizes(site: &Site<'_>, ahead: &mut Ahead<'_>, names: &[SizedName]) -> Result<(), Rule>
    ensures { Goes (spec.in_order (map (λ sized. spec.optional sized.size) names.now) (site_of site.now) (ahead_of ahead.old)) ahead.new result }
{
    for sized in names {
        optional(site, ahead, &sized.size)?;
    }
    Ok(())
}
