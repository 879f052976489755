ghost use Rattle.std.specs.Prelude.{◌≡◌, map};
ghost use Rattle.appendix_a.specs.Ahead.{ahead_of};
ghost use Rattle.appendix_a.specs.Rules.{Goes};
ghost use Rattle.appendix_a.specs.Site.{site_of};
ghost use Rattle.appendix_a.specs.Names.{listed};
ghost use Rattle.appendix_a.specs.Declarations as spec;

use crate::ahead::Ahead;
use crate::rule::Rule;
use crate::site::Site;
use crate::types::{optional, passed, specifier};
use glsl_tree::{Decl, Declarator, Head, Parameter, Parameters};

/// A declarator.
fn declarator(site: &Site<'_>, ahead: &mut Ahead<'_>, d: &Declarator) -> Result<(), Rule>
    ensures { Goes (spec.declarator_passage d.now (site_of site.now) (ahead_of ahead.old)) ahead.new result }
{
    match d {
        Declarator::Name(_) => Ok(()),
        Declarator::Array { size, .. } => passed(site, ahead, size),
        Declarator::Initialized { value, .. } => passed(site, ahead, value),
    }
}

/// Declarators in order.
fn each_declarator(site: &Site<'_>, ahead: &mut Ahead<'_>, all: &[Declarator]) -> Result<(), Rule>
    ensures { Goes (spec.in_order (map spec.declarator_passage all.now) (site_of site.now) (ahead_of ahead.old)) ahead.new result }
{
    for d in all {
        declarator(site, ahead, d)?;
    }
    Ok(())
}

/// A parameter.
fn parameter(site: &Site<'_>, ahead: &mut Ahead<'_>, p: &Parameter) -> Result<(), Rule>
    ensures { Goes (spec.parameter_passage p.now (site_of site.now) (ahead_of ahead.old)) ahead.new result }
{
    specifier(site, ahead, &p.kind)?;
    optional(site, ahead, &p.size)
}

/// Parameters in order.
fn each_parameter(site: &Site<'_>, ahead: &mut Ahead<'_>, all: &[Parameter]) -> Result<(), Rule>
    ensures { Goes (spec.in_order (map spec.parameter_passage all.now) (site_of site.now) (ahead_of ahead.old)) ahead.new result }
{
    for p in all {
        parameter(site, ahead, p)?;
    }
    Ok(())
}

/// What stands in the brackets of a head.
fn parameters(site: &Site<'_>, ahead: &mut Ahead<'_>, all: &Parameters) -> Result<(), Rule>
    ensures { Goes (spec.in_order (map spec.parameter_passage (listed all.now)) (site_of site.now) (ahead_of ahead.old)) ahead.new result }
{
    match all {
        Parameters::Void => Ok(()),
        Parameters::Listed(all) => each_parameter(site, ahead, all.as_slice()),
    }
}

/// The head of a function.
pub(crate) fn head(site: &Site<'_>, ahead: &mut Ahead<'_>, h: &Head) -> Result<(), Rule>
    ensures { Goes (spec.head_passage h.now (site_of site.now) (ahead_of ahead.old)) ahead.new result }
{
    specifier(site, ahead, &h.full_type.kind)?;
    parameters(site, ahead, &h.parameters)
}

/// A declaration.
pub(crate) fn declaration(site: &Site<'_>, ahead: &mut Ahead<'_>, d: &Decl) -> Result<(), Rule>
    ensures { Goes (spec.declaration_passage d.now (site_of site.now) (ahead_of ahead.old)) ahead.new result }
{
    match d {
        Decl::Prototype(h) => head(site, ahead, h),
        Decl::Precision { kind, .. } => specifier(site, ahead, kind),
        Decl::Invariant { .. } => Ok(()),
        Decl::Variables {
            full_type,
            declarators,
        } => {
            specifier(site, ahead, &full_type.kind)?;
            each_declarator(site, ahead, declarators.as_slice())
        }
    }
}
