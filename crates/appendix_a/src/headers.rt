ghost use Rattle.std.specs.Prelude.{◌≡◌, map};
ghost use Rattle.std.specs.Option.{option_map};
ghost use Rattle.appendix_a.specs.Ahead.{ahead_of};
ghost use Rattle.appendix_a.specs.Rules.{Comes};
ghost use Rattle.appendix_a.specs.Site.{site_of};
ghost use Rattle.appendix_a.specs.Begins.{Begins, declared_of};
ghost use Rattle.appendix_a.specs.Statements as spec;

use crate::ahead::Ahead;
use crate::expressions::expression;
use crate::rule::Rule;
use crate::site::Site;
use crate::types::{passed, specifier};
use glsl_tree::{Basic, Condition, Decl, Declarator, Expr, Start, TypeSpecifier};

/// The index that a `for` declares.
#[derive(Clone, Copy)]
pub(crate) struct Index<'t> {
    /// Its name.
    pub name: &'t [u8],
    /// Its value.
    pub value: &'t Expr,
}

/// Whether a type is int or float.
#[tactic(auto, unfolding(crate::specs::Statements::is_index_type))]
fn is_index_type(kind: &TypeSpecifier) -> bool
    ensures { result ≡ spec.is_index_type kind.now }
{
    match kind {
        TypeSpecifier::Basic(Basic::Int) | TypeSpecifier::Basic(Basic::Float) => true,
        _ => false,
    }
}

/// The index that declarators declare, if they are one with a value.
fn one_index(declarators: &[Declarator]) -> Option<Index<'_>>
    ensures { option_map declared_of result ≡ spec.one_index declarators.now }
{
    match declarators {
        [Declarator::Initialized { name, value }] => Some(Index {
            name: name.as_slice(),
            value,
        }),
        _ => None,
    }
}

/// The index that the first part of a `for` declares, if it is one of type int or float.
fn index_of(start: &Start) -> Option<Index<'_>>
    ensures { option_map declared_of result ≡ spec.index_of start.now }
{
    match start {
        Start::Declaration(
            Decl::Variables {
                full_type,
                declarators,
            },
        ) => {
            if is_index_type(&full_type.kind) {
                one_index(declarators.as_slice())
            } else {
                None
            }
        }
        _ => None,
    }
}

/// The first part of a `for`: the name of its index.
fn begin<'t>(site: &Site<'_>, ahead: &mut Ahead<'_>, start: &'t Start) -> Result<&'t [u8], Rule>
    ensures { Begins (spec.begin start.now (site_of site.now) (ahead_of ahead.old)) ahead.new result }
{
    let Some(index) = index_of(start) else {
        return Err(Rule(2));
    };
    match expression(site, ahead, index.value) {
        Ok(found) if found.constant => Ok(index.name),
        _ => Err(Rule(2)),
    }
}

/// The condition of a loop: the number of the index where it is compared with a constant expression.
fn condition(site: &Site<'_>, ahead: &mut Ahead<'_>, test: &Condition) -> Result<Option<u32>, Rule>
    ensures { Comes (spec.condition_outcome test.now (site_of site.now) (ahead_of ahead.old)) ahead.new result }
{
    match test {
        Condition::Expression(e) => {
            let found = expression(site, ahead, e)?;
            Ok(found.compared)
        }
        Condition::Declared {
            full_type,
            value,
            ..
        } => {
            specifier(site, ahead, &full_type.kind)?;
            passed(site, ahead, value)?;
            Ok(None)
        }
    }
}

/// A condition that may be left out.
fn optional_condition(
    site: &Site<'_>,
    ahead: &mut Ahead<'_>,
    test: &Option<Condition>,
) -> Result<Option<u32>, Rule>
    ensures { Comes (spec.optional_condition test.now (site_of site.now) (ahead_of ahead.old)) ahead.new result }
{
    match test {
        Some(test) => condition(site, ahead, test),
        None => Ok(None),
    }
}

/// The step of a loop: whether it adds a constant expression to the index, or subtracts one.
fn optional_step(site: &Site<'_>, ahead: &mut Ahead<'_>, step: &Option<Expr>) -> Result<bool, Rule>
    ensures { Comes (spec.step_outcome step.now (site_of site.now) (ahead_of ahead.old)) ahead.new result }
{
    match step {
        Some(step) => {
            let found = expression(site, ahead, step)?;
            Ok(found.stepped)
        }
        None => Ok(false),
    }
}

/// The header of a `for`: the number of its index.
pub(crate) fn header(
    site: &Site<'_>,
    ahead: &mut Ahead<'_>,
    start: &Start,
    test: &Option<Condition>,
    step: &Option<Expr>,
) -> Result<u32, Rule>
    ensures { Comes (spec.header start.now test.now step.now (site_of site.now) (ahead_of ahead.old)) ahead.new result }
{
    let name = begin(site, ahead, start)?;
    let inner = Site {
        header: Some(name),
        ..*site
    };
    let compared = optional_condition(&inner, ahead, test)?;
    let stepped = optional_step(&inner, ahead, step)?;
    let Some(number) = compared else {
        return Err(Rule(3));
    };
    if stepped { Ok(number) } else { Err(Rule(4)) }
}
