ghost use Rattle.std.specs.Prelude.{◌≡◌, ◌≤◌, not, is_some, IfOk, map, min, nat_le};
ghost use Rattle.varying_pack.specs.Placing.{placing};
ghost use Rattle.program_link.specs.Answers.{FoundRoom};
ghost use Rattle.program_link.specs.Flattening.{elements_of};
ghost use Rattle.program_link.specs.Items.{leaves, used};
ghost use Rattle.program_link.specs.Kept.{kept_leaf};
ghost use Rattle.program_link.specs.Rules.{class_of, placed, samplers_among, varyings_lack_room};

use crate::flattening::{ELEMENTS_COUNTED, Structures};
use crate::leaves::Leaf;
use gl_numbers::VARYING_VECTORS_MAX;
use glsl_types::{Base, Interface, Item, SlType};
use std::alloc::{AllocError, Global};
use uniform_values::elements;
use varying_pack::{Pack, PackItem, pack};

/// The class by which a type is placed, from 1 to 7 (GLSL ES 1.00.17 appendix A section 7).
fn class_of(base: Base) -> u8
    ensures { result ≡ class_of base }
{
    match (base.columns(), base.size()) {
        (4, _) => 1,
        (2, _) => 2,
        (3, _) => 4,
        (_, 4) => 3,
        (_, 3) => 5,
        (_, 2) => 6,
        _ => 7,
    }
}

/// An item that is to be placed.
fn placed(kind: SlType) -> PackItem
    ensures { result ≡ placed kind }
{
    PackItem {
        class: class_of(kind.base),
        size: elements(kind),
    }
}

/// Whether items have room in so many rows.
fn have_room(alloc: Global, rows: u32, items: &[PackItem]) -> Result<bool, AllocError>
    ensures { IfOk result (λ room. room ≡ is_some (placing rows items.now)) }
{
    match pack(alloc, rows, items) {
        Ok(_) => Ok(true),
        Err(Pack::NoRoom) => Ok(false),
        Err(Pack::Memory) => Err(AllocError),
    }
}

/// Whether the varyings that the fragment shader uses have room.
#[tactic(auto, using(crate::proofs::Placing::of_room))]
pub(crate) fn varyings_have_room(alloc: Global, fragment: &Interface) -> Result<bool, AllocError>
    ensures { IfOk result (λ room. room ≡ not (varyings_lack_room fragment.now)) }
{
    let mut items = Vec::new(alloc);
    for item in fragment.varyings.as_slice() {
        if item.used {
            items.push(placed(item.kind))?;
        }
    }
    have_room(alloc, VARYING_VECTORS_MAX, &items)
}

/// What stands for the uniforms that a shader uses; None where it has no room in so many rows. Of an element there is a cell
/// at least, so more of them than there are cells are refused before they are flattened.
#[tactic(auto, using(crate::proofs::Rooms::of_found))]
pub(crate) fn used_leaves(
    alloc: Global,
    rows: u32,
    structures: &Structures<'_>,
    shader: &Interface,
) -> Result<Option<Vec<Leaf>>, AllocError>
    requires structures { structures.now ≡ shader.now.structs }
    requires rows { rows ≤ 256 }
    ensures { IfOk result (λ found. FoundRoom rows shader.now found) }
{
    let uniforms = shader.uniforms.as_slice();
    if !have_few_elements(u64::from(rows) * 4, structures, uniforms) {
        return Ok(None);
    }
    let leaves = flatten_used(alloc, structures, uniforms)?;
    let items = items_of(alloc, &leaves)?;
    if have_room(alloc, rows, &items)? {
        Ok(Some(leaves))
    } else {
        Ok(None)
    }
}

/// Whether what stands for the uniforms that are used has at most so many elements.
#[tactic(auto, using(crate::proofs::Rooms::of_few))]
fn have_few_elements(cells: u64, structures: &Structures<'_>, items: &[Item]) -> bool
    requires { cells ≤ 1024 }
    ensures { result ≡ nat_le (elements_of (leaves structures.now (used items.now))) cells }
{
    let mut count = 0;
    for item in items {
        if item.used {
            count += structures.count(item.kind);
            if count > cells {
                return false;
            }
        }
    }
    true
}

/// What stands for the uniforms that are used.
#[tactic(auto, using(crate::proofs::Rooms::of_flat))]
fn flatten_used(
    alloc: Global,
    structures: &Structures<'_>,
    items: &[Item],
) -> Result<Vec<Leaf>, AllocError>
    ensures { IfOk result (λ flat. flat.items ≡ map kept_leaf (leaves structures.now (used items.now))) }
{
    let mut flat = Vec::new(alloc);
    for item in items {
        if item.used {
            structures.flatten(alloc, item, &mut flat)?;
        }
    }
    Ok(flat)
}

/// What is to be placed of uniforms.
fn items_of(alloc: Global, leaves: &[Leaf]) -> Result<Vec<PackItem>, AllocError>
    ensures { IfOk result (λ items. items.items ≡ map (λ leaf. placed leaf.kind) leaves.now) }
{
    leaves.iter().map(|leaf| placed(leaf.kind)).collect(alloc)
}

/// How many samplers there are, each element of an array counted.
pub(crate) fn sampler_count(leaves: &[Leaf]) -> u64
    ensures { result ≡ min 65536 (samplers_among leaves.now) }
{
    let mut count = 0;
    for leaf in leaves {
        if leaf.kind.base.is_sampler() {
            count = (count + u64::from(elements(leaf.kind))).min(ELEMENTS_COUNTED);
        }
    }
    count
}
