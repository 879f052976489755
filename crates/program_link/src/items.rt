ghost use Rattle.std.specs.Prelude.{◌≡◌, ℕ, IfOk, List, OnOk};
ghost use Rattle.std.specs.Option.{option_copied};
ghost use Rattle.program_link.specs.Items.{is_used, named};
ghost use Rattle.program_link.specs.Places.{place_after, place_of_name};
ghost use Rattle.program_link.specs.Rules.{some_uniform_differs, some_varying_differs, uniform_differs, uniforms_differ, varying_differs, varyings_differ};
ghost use Rattle.program_link.specs.SameTypes.{same_precision};
ghost use Rattle.program_link.specs.Shapes.{Tell, same_by_numbers};

use crate::shapes::Shapes;
use glsl_types::{Interface, Item, Precision};
use indexmap::IndexMap;
use std::alloc::{AllocError, Global};
use std::marker::Model;

/// The items of a list by name.
#[derive(Drop)]
pub(crate) struct ByName<'a> {
    items: &'a [Item],
    places: IndexMap<Vec<u8>, usize>,
}

impl<'a> Model for ByName<'a> {
    ghost use Rattle.std.specs.Prelude.{List};
    ghost use Rattle.glsl_types.specs.declared.interface.Item.{Item};
    ghost use Rattle.program_link.specs.Places.{FindsItems};

    ghost Value = { List Item };

    ghost view = { λ b. b.items.now };

    ghost invariant = { λ b. FindsItems b.places.entries b.items.now };
}

#[tactic(auto, using(crate::proofs::ByBytes::of_names))]
impl<'a> ByName<'a> {
    /// These items by name; of two with one name the first.
    pub(crate) fn of(alloc: Global, items: &'a [Item]) -> Result<ByName<'a>, AllocError>
        ensures { IfOk result (λ by_name. by_name ≡ items.now) }
    {
        let mut places = IndexMap::new(alloc);
        for (place, item) in items.iter().enumerate() {
            add_name(alloc, &mut places, item.name.as_slice(), place)?;
        }
        Ok(ByName { items, places })
    }

    /// The item of a name, if there is one.
    pub(crate) fn get(&self, name: &[u8]) -> Option<&Item>
        ensures { option_copied result ≡ named self.now name.now }
    {
        match self.places.get(name) {
            Some(place) => self.items.get(*place),
            None => None,
        }
    }

    /// Whether there is an item of a name and it is used.
    pub(crate) fn is_used(&self, name: &[u8]) -> bool
        ensures { result ≡ is_used self.now name.now }
    {
        match self.get(name) {
            Some(item) => item.used,
            None => false,
        }
    }
}

/// Gives a name its value, if it has none.
#[tactic(auto, using(crate::proofs::ByBytes::of_names))]
pub(crate) fn add_name<V: Drop>(
    alloc: Global,
    places: &mut IndexMap<Vec<u8>, V>,
    name: &[u8],
    value: V,
) -> Result<(), AllocError>
    ensures { OnOk result ((q : List ℕ) → place_of_name places.new.entries q ≡ place_after places.old.entries name.now value q) }
{
    if places.get(name).is_none() {
        let name = Vec::from_slice(alloc, name)?;
        let _ = places.insert(name, value)?;
    }
    Ok(())
}

/// Whether a varying that the fragment shader uses isn't declared in the vertex shader, or one in both differs in type or
/// invariance (GLSL ES 1.00.17 sections 4.3.5 and 4.6.4).
#[tactic(auto, using(crate::proofs::Differing::of_differing))]
pub(crate) fn varyings_differ(
    alloc: Global,
    vertex: &Interface,
    fragment: &Interface,
    shapes: &Shapes,
) -> Result<bool, AllocError>
    requires { Tell shapes.now.vertex.items shapes.now.fragment.items vertex.now.structs fragment.now.structs }
    ensures { IfOk result (λ differ. differ ≡ varyings_differ vertex.now fragment.now) }
{
    let declared = ByName::of(alloc, vertex.varyings.as_slice())?;
    let varyings = fragment.varyings.as_slice();
    Ok(any_varying_differs(&declared, varyings, shapes))
}

/// Whether one of these varyings is declared otherwise, or is used and isn't declared.
#[tactic(auto, using(crate::proofs::Differing::of_any))]
fn any_varying_differs(declared: &ByName<'_>, items: &[Item], shapes: &Shapes) -> bool
    ensures { result
        ≡ some_varying_differs (same_by_numbers shapes.now.vertex.items shapes.now.fragment.items) declared.now items.now }
{
    for item in items {
        if varying_differs(declared, item, shapes) {
            return true;
        }
    }
    false
}

/// Whether a varying is declared otherwise, or is used and isn't declared.
fn varying_differs(declared: &ByName<'_>, item: &Item, shapes: &Shapes) -> bool
    ensures { result
        ≡ varying_differs (same_by_numbers shapes.now.vertex.items shapes.now.fragment.items) item.now (named declared.now item.now.name) }
{
    match declared.get(item.name.as_slice()) {
        Some(other) => {
            !shapes.are_same(other.kind, item.kind) || other.invariant != item.invariant
        }
        None => item.used,
    }
}

/// Whether a uniform in both shaders differs in type or precision (GLSL ES 1.00.17 section 4.3.4).
#[tactic(auto, using(crate::proofs::Differing::of_differing))]
pub(crate) fn uniforms_differ(
    declared: &ByName<'_>,
    vertex: &Interface,
    fragment: &Interface,
    shapes: &Shapes,
) -> bool
    requires declared { declared.now ≡ vertex.now.uniforms }
    requires shapes { Tell shapes.now.vertex.items shapes.now.fragment.items vertex.now.structs fragment.now.structs }
    ensures { result ≡ uniforms_differ vertex.now fragment.now }
{
    any_uniform_differs(declared, fragment.uniforms.as_slice(), shapes)
}

/// Whether one of these uniforms is declared with another type or precision.
#[tactic(auto, using(crate::proofs::Differing::of_any))]
fn any_uniform_differs(declared: &ByName<'_>, items: &[Item], shapes: &Shapes) -> bool
    ensures { result
        ≡ some_uniform_differs (same_by_numbers shapes.now.vertex.items shapes.now.fragment.items) declared.now items.now }
{
    for item in items {
        if uniform_differs(declared, item, shapes) {
            return true;
        }
    }
    false
}

/// Whether a uniform is declared with another type or precision.
fn uniform_differs(declared: &ByName<'_>, item: &Item, shapes: &Shapes) -> bool
    ensures { result
        ≡ uniform_differs (same_by_numbers shapes.now.vertex.items shapes.now.fragment.items) item.now (named declared.now item.now.name) }
{
    match declared.get(item.name.as_slice()) {
        Some(other) => {
            !shapes.are_same(other.kind, item.kind)
                || !is_same_precision(other.precision, item.precision)
        }
        None => false,
    }
}

/// Whether two precisions are one.
fn is_same_precision(a: Precision, b: Precision) -> bool
    ensures { result ≡ same_precision a b }
{
    a == b
}
