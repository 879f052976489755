ghost use Rattle.std.specs.Prelude.{◌≡◌, ◌≤◌, ◌<◌, ◌+◌, ◌*◌, ◌^◌, ◌++◌, IfOk, OnOk};
ghost use Rattle.uniform_values.specs.Layout.{elements, slot_count, slots_max, slots_of, slots_to_end, width, word_count};

use gl_numbers::Memory;
use glsl_types::{Base, SlType};
use std::alloc::Global;

/// One element of an active uniform, which has a slot of its own (OpenGL ES 2.0 section 2.10.4): the first element of an array,
/// or what is no array, has the uniform's first slot, and each further element the next.
#[derive(Clone, Copy, Debug, PartialEq, Eq)]
pub struct Slot {
    /// The type of the element.
    pub base: Base,
    /// Whether it is an element of an array, which may have a single one.
    pub array: bool,
    /// How many elements there are from this one to the end of the array, itself included.
    pub room: u32,
    /// How many words the slots before it have.
    pub at: u32,
}

/// How many elements a uniform of this type has, if it is no structure: those of an array, or one.
pub fn elements(kind: SlType) -> u32
    ensures { result ≡ elements kind }
{
    if kind.array == 0 { 1 } else { kind.array }
}

/// How many words an element of this type has: one for each component, and one for a sampler's texture unit.
pub(crate) fn width(base: Base) -> u32
    ensures value { result ≡ width base }
    ensures within { result ≤ 16 }
{
    if base.is_sampler() {
        1
    } else {
        base.components()
    }
}

/// How many words uniforms of these types have.
#[tactic(auto, using(crate::proofs::Counting::of_counts))]
pub(crate) fn word_count(kinds: &[SlType]) -> usize
    requires { slot_count kinds.now ≤ slots_max }
    ensures { result ≡ word_count kinds.now }
{
    let mut words = 0;
    for kind in kinds {
        words += elements(*kind) as usize * width(kind.base) as usize;
    }
    words
}

/// The slots of uniforms of these types; Err only where memory runs out.
#[tactic(auto, using(crate::proofs::Counting::of_counts))]
pub(crate) fn lay_out(alloc: Global, kinds: &[SlType]) -> Result<Vec<Slot>, Memory>
    requires { slot_count kinds.now ≤ slots_max }
    ensures { IfOk result (λ slots. slots.items ≡ slots_of kinds.now) }
{
    let mut slots = Vec::new(alloc);
    let mut at = 0;
    for kind in kinds {
        let Ok(()) = add_slots(&mut slots, *kind, at) else {
            return Err(Memory);
        };
        at += elements(*kind) * width(kind.base);
    }
    Ok(slots)
}

/// Adds the slots of a uniform of this type, from the word `at` on; Err only where memory runs out.
fn add_slots(slots: &mut Vec<Slot>, kind: SlType, at: u32) -> Result<(), Memory>
    requires { at + elements kind * width kind.base < 2 ^ 32 }
    ensures { OnOk result (slots.new.items ≡ slots.old.items ++ slots_to_end kind at (elements kind)) }
{
    let count = elements(kind);
    for i in 0..count {
        let slot = Slot {
            base: kind.base,
            array: kind.array != 0,
            room: count - i,
            at: at + i * width(kind.base),
        };
        let Ok(()) = slots.push(slot) else {
            return Err(Memory);
        };
    }
    Ok(())
}
