ghost use Rattle.std.specs.Prelude.{◌≡◌, ◌++◌, ◌≤◌, false, filter, IfOk, map};
ghost use Rattle.program_link.specs.Answers.{FoundActive, Links, Outcome, interface_rules};
ghost use Rattle.program_link.specs.Flattening.{elements_of};
ghost use Rattle.program_link.specs.Items.{is_alone, leaves, used};
ghost use Rattle.program_link.specs.Kept.{kept_leaf};
ghost use Rattle.program_link.specs.Linked.{at_locations, at_slots};
ghost use Rattle.program_link.specs.Rules.{exceed_samplers, first_broken, names_too_long, samplers_among};

use crate::active::{Attribute, Uniform};
use crate::bindings::Bindings;
use crate::errors::Link;
use crate::executable::Executable;
use crate::flattening::Structures;
use crate::items::{ByName, uniforms_differ, varyings_differ};
use crate::leaves::Leaf;
use crate::locations::locate;
use crate::room::{sampler_count, used_leaves, varyings_have_room};
use crate::shapes::Shapes;
use gl_numbers::{
    COMBINED_TEXTURE_UNITS_MAX, FRAGMENT_UNIFORM_VECTORS_MAX, TEXTURE_UNITS_MAX,
    VERTEX_TEXTURE_UNITS_MAX, VERTEX_UNIFORM_VECTORS_MAX,
};
use glsl_tree::Text;
use glsl_types::{Interface, Item};
use std::alloc::{AllocError, Global};
use uniform_values::elements;

/// The most bytes of an active name.
const NAME_BYTES_MAX: usize = 256;

/// Links the interfaces of a vertex and of a fragment shader (linkProgram, OpenGL ES 2.0 section 2.10.4). `Rule` with the number
/// of the first of these that is broken:
///
/// 4. the fragment shader uses a varying that the vertex shader doesn't declare, or one in both differs in type or invariance;
/// 5. a uniform in both differs in type or precision;
/// 6. locations of attributes overlap or pass 15, or no run is free;
/// 7. the varyings that the fragment shader uses have no room in 16 rows;
/// 8. the uniforms that the vertex shader uses have no room in 256 rows;
/// 9. those that the fragment shader uses have none in 224;
/// 10. there are more than 4 samplers in the vertex shader, 16 in the fragment shader, or 20 in both together;
/// 11. an active name has over 256 bytes.
///
/// `Memory` where memory runs out.
pub fn link(
    alloc: Global,
    vertex: &Interface,
    fragment: &Interface,
    bindings: &Bindings,
) -> Result<Executable, Link>
    ensures { Links vertex.now fragment.now bindings.now result }
{
    match linked(alloc, vertex, fragment, bindings) {
        Ok(Ok(executable)) => Ok(executable),
        Ok(Err(number)) => Err(Link::Rule(number)),
        Err(_) => Err(Link::Memory),
    }
}

/// What a link makes, or the number of the first rule that is broken.
#[tactic(auto, using(crate::proofs::Broken::of_linked))]
fn linked(
    alloc: Global,
    vertex: &Interface,
    fragment: &Interface,
    bindings: &Bindings,
) -> Result<Result<Executable, u8>, AllocError>
    ensures { IfOk result (λ outcome. Outcome vertex.now fragment.now bindings.now outcome) }
{
    let declared = ByName::of(alloc, vertex.uniforms.as_slice())?;
    if let Some(number) = differing(alloc, &declared, vertex, fragment)? {
        return Ok(Err(number));
    }
    let attributes = vertex.attributes.as_slice();
    let Some(locations) = locate(alloc, bindings, attributes)? else {
        return Ok(Err(6));
    };
    if !varyings_have_room(alloc, fragment)? {
        return Ok(Err(7));
    }
    let active = match active_leaves(alloc, &declared, vertex, fragment)? {
        Ok(active) => active,
        Err(number) => return Ok(Err(number)),
    };
    if has_long_name(attributes, &active) {
        return Ok(Err(11));
    }
    Ok(Ok(made(alloc, attributes, &locations, &active)?))
}

/// The number of the first rule on the interfaces that is broken, if one is.
#[tactic(auto, using(crate::proofs::Broken::of_differing))]
fn differing(
    alloc: Global,
    declared: &ByName<'_>,
    vertex: &Interface,
    fragment: &Interface,
) -> Result<Option<u8>, AllocError>
    requires { declared.now ≡ vertex.now.uniforms }
    ensures { IfOk result (λ found. found ≡ first_broken (interface_rules vertex.now fragment.now)) }
{
    let structs = vertex.structs.as_slice();
    let shapes = Shapes::of(alloc, structs, fragment.structs.as_slice())?;
    if varyings_differ(alloc, vertex, fragment, &shapes)? {
        return Ok(Some(4));
    }
    if uniforms_differ(declared, vertex, fragment, &shapes) {
        return Ok(Some(5));
    }
    Ok(None)
}

/// What stands for the active uniforms, or the number of the first of the rules on them that is broken.
#[tactic(auto, using(crate::proofs::Broken::of_active))]
fn active_leaves(
    alloc: Global,
    declared: &ByName<'_>,
    vertex: &Interface,
    fragment: &Interface,
) -> Result<Result<Vec<Leaf>, u8>, AllocError>
    requires { declared.now ≡ vertex.now.uniforms }
    ensures { IfOk result (λ found. FoundActive vertex.now fragment.now found) }
{
    let structures = Structures::of(alloc, vertex.structs.as_slice())?;
    let rows = VERTEX_UNIFORM_VECTORS_MAX;
    let Some(in_vertex) = used_leaves(alloc, rows, &structures, vertex)? else {
        return Ok(Err(8));
    };
    let structures = Structures::of(alloc, fragment.structs.as_slice())?;
    let rows = FRAGMENT_UNIFORM_VECTORS_MAX;
    let Some(in_fragment) = used_leaves(alloc, rows, &structures, fragment)? else {
        return Ok(Err(9));
    };
    if has_too_many_samplers(&in_vertex, &in_fragment) {
        return Ok(Err(10));
    }
    let uniforms = fragment.uniforms.as_slice();
    let active = with_alone(alloc, in_vertex, declared, &structures, uniforms)?;
    Ok(Ok(active))
}

/// Whether a shader uses more samplers than it may, or both together do.
fn has_too_many_samplers(vertex: &[Leaf], fragment: &[Leaf]) -> bool
    ensures { result ≡ exceed_samplers (samplers_among vertex.now) (samplers_among fragment.now) }
{
    let in_vertex = sampler_count(vertex);
    let in_fragment = sampler_count(fragment);
    in_vertex > u64::from(VERTEX_TEXTURE_UNITS_MAX)
        || in_fragment > u64::from(TEXTURE_UNITS_MAX)
        || in_vertex + in_fragment > u64::from(COMBINED_TEXTURE_UNITS_MAX)
}

/// The active uniforms: to those that the vertex shader uses come those that the fragment shader alone uses.
#[tactic(auto, using(crate::proofs::Rooms::of_alone))]
fn with_alone(
    alloc: Global,
    in_vertex: Vec<Leaf>,
    declared: &ByName<'_>,
    structures: &Structures<'_>,
    uniforms: &[Item],
) -> Result<Vec<Leaf>, AllocError>
    ensures { IfOk result (λ active. active.items
        ≡ in_vertex.items ++ map kept_leaf (leaves structures.now (filter (is_alone declared.now) uniforms.now))) }
{
    let mut active = in_vertex;
    for item in uniforms {
        if item.used && !declared.is_used(item.name.as_slice()) {
            structures.flatten(alloc, item, &mut active)?;
        }
    }
    Ok(active)
}

/// Whether the name of an active attribute or uniform is too long.
#[tactic(auto, using(crate::proofs::Locating::of_used))]
fn has_long_name(attributes: &[Item], uniforms: &[Leaf]) -> bool
    ensures { result ≡ names_too_long (used attributes.now) uniforms.now }
{
    for item in attributes {
        if item.used && item.name.as_slice().len() > NAME_BYTES_MAX {
            return true;
        }
    }
    for leaf in uniforms {
        let suffix = if leaf.kind.array == 0 { 0 } else { 3 };
        if leaf.name.as_slice().len() + suffix > NAME_BYTES_MAX {
            return true;
        }
    }
    false
}

/// The executable with these attributes and uniforms.
#[tactic(auto, using(crate::proofs::Slots::of_made))]
fn made(
    alloc: Global,
    attributes: &[Item],
    locations: &[u32],
    uniforms: &[Leaf],
) -> Result<Executable, AllocError>
    requires names { names_too_long (used attributes.now) uniforms.now ≡ false }
    requires few { elements_of uniforms.now ≤ 65536 }
    ensures { IfOk result (λ e. e
        ≡ record { attributes = at_locations (used attributes.now) locations.now; uniforms = at_slots 0 uniforms.now }) }
{
    let attributes = active_attributes(alloc, attributes, locations)?;
    let uniforms = active_uniforms(alloc, uniforms)?;
    Executable::make(alloc, attributes, uniforms)
}

/// The active attributes, with the location of each.
#[tactic(auto, using(crate::proofs::Attributes::of_attributes))]
fn active_attributes(
    alloc: Global,
    items: &[Item],
    locations: &[u32],
) -> Result<Vec<Attribute>, AllocError>
    ensures { IfOk result (λ attributes. attributes.items ≡ at_locations (used items.now) locations.now) }
{
    let mut attributes = Vec::with_capacity(alloc, locations.len())?;
    for item in items {
        if item.used {
            if let Some(location) = locations.get(attributes.len()) {
                let name = Text::from_slice(alloc, item.name.as_slice())?;
                attributes.push(Attribute {
                    name,
                    base: item.kind.base,
                    location: *location,
                })?;
            }
        }
    }
    Ok(attributes)
}

/// The active uniforms, with the slots of each.
#[tactic(auto, using(crate::proofs::Slots::of_slots))]
fn active_uniforms(alloc: Global, leaves: &[Leaf]) -> Result<Vec<Uniform>, AllocError>
    requires { elements_of leaves.now ≤ 65536 }
    ensures { IfOk result (λ uniforms. uniforms.items ≡ at_slots 0 leaves.now) }
{
    let mut uniforms = Vec::with_capacity(alloc, leaves.len())?;
    let mut first = 0;
    for leaf in leaves {
        uniforms.push(Uniform {
            name: Text::from_slice(alloc, leaf.name.as_slice())?,
            kind: leaf.kind,
            first,
        })?;
        first += elements(leaf.kind);
    }
    Ok(uniforms)
}
