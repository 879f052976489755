ghost use Rattle.std.specs.Prelude.{◌≡◌, ◌+◌, ◌≤◌, ◌<◌, true, IfOk, IfSome};
ghost use Rattle.std.specs.Option.{option_map};
ghost use Rattle.std.specs.List.{list_any};
ghost use Rattle.program_link.specs.Items.{used};
ghost use Rattle.program_link.specs.Locations.{located, location_by, location_count, locations, lowest, may_stand, taken_by, with_taken};
ghost use Rattle.program_link.specs.Kept.{items_of};

use crate::bindings::Bindings;
use gl_numbers::VERTEX_ATTRIBS_MAX;
use glsl_types::{Base, Item};
use std::alloc::{AllocError, Global};

/// Which of the 16 locations are taken.
type Marks = [bool; 16];

/// The location of each attribute that is used, in order: those that were bound first, then the others take the lowest that are
/// free. None where two overlap, one passes the last location, or none is free (OpenGL ES 2.0 section 2.10.4).
#[tactic(auto, using(crate::proofs::Locating::of_taken))]
pub(crate) fn locate(
    alloc: Global,
    bindings: &Bindings,
    attributes: &[Item],
) -> Result<Option<Vec<u32>>, AllocError>
    ensures { IfOk result (λ found. option_map items_of found ≡ locations bindings.now (used attributes.now)) }
{
    let mut taken = [false; 16];
    for item in attributes {
        if item.used {
            if let Some(location) = bindings.get(item.name.as_slice()) {
                if !may_stand(&taken, item.kind.base, location) {
                    return Ok(None);
                }
                take(&mut taken, item.kind.base, location);
            }
        }
    }
    place(alloc, bindings, attributes, taken)
}

/// The location of each attribute that is used, where those that were bound have theirs.
#[tactic(auto, using(crate::proofs::Locating::of_placed))]
fn place(
    alloc: Global,
    bindings: &Bindings,
    attributes: &[Item],
    taken: Marks,
) -> Result<Option<Vec<u32>>, AllocError>
    ensures { IfOk result (λ found. option_map items_of found ≡ located bindings.now taken (used attributes.now)) }
{
    let mut taken = taken;
    let mut locations = Vec::new(alloc);
    for item in attributes {
        if item.used {
            let bound = bindings.get(item.name.as_slice());
            let Some(location) = location_by(&mut taken, item.kind.base, bound) else {
                return Ok(None);
            };
            locations.push(location)?;
        }
    }
    Ok(Some(locations))
}

/// The location of an attribute, the one that was bound to it or the lowest that is free, which is taken then.
fn location_by(taken: &mut Marks, base: Base, bound: Option<u32>) -> Option<u32>
    ensures location { result ≡ location_by taken.old base bound }
    ensures taken { taken.new ≡ taken_by taken.old base bound }
{
    if let Some(location) = bound {
        return Some(location);
    }
    let Some(location) = lowest(taken, base) else {
        return None;
    };
    take(taken, base, location);
    Some(location)
}

/// How many locations an attribute takes: one, or one for each column of a matrix.
fn location_count(base: Base) -> u32
    ensures count { result ≡ location_count base }
    ensures some { 0 < result }
    ensures few { result ≤ 4 }
{
    base.columns().max(1)
}

/// Whether an attribute may stand at a location.
fn may_stand(taken: &Marks, base: Base, location: u32) -> bool
    ensures { result ≡ may_stand taken.now base location }
{
    let count = location_count(base);
    if location >= VERTEX_ATTRIBS_MAX || location + count > VERTEX_ATTRIBS_MAX {
        return false;
    }
    let place = location as usize;
    !any(&taken[place..place + count as usize])
}

/// Whether one of these holds.
fn any(values: &[bool]) -> bool
    ensures { result ≡ list_any (λ t. t) values.now }
{
    values.iter().any(|&value| value)
}

/// The lowest location at which an attribute may stand.
#[tactic(auto, using(crate::proofs::Finding::of_finding))]
fn lowest(taken: &Marks, base: Base) -> Option<u32>
    ensures lowest { result ≡ lowest taken.now base }
    ensures stands { IfSome result (λ location. may_stand taken.now base location ≡ true) }
{
    for location in 0..VERTEX_ATTRIBS_MAX {
        if may_stand(taken, base, location) {
            return Some(location);
        }
    }
    None
}

/// Takes the locations of an attribute that may stand there.
fn take(taken: &mut Marks, base: Base, location: u32)
    requires { location + location_count base ≤ 16 }
    ensures { taken.new ≡ with_taken taken.old base location }
{
    let place = location as usize;
    taken[place..place + location_count(base) as usize].fill(true);
}
