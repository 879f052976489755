ghost use Rattle.std.specs.Prelude.{◌≡◌, ◌<◌, ℕ, None, Some, IfSome, is_some, OnOk, OnErr, vec_len};
ghost use Rattle.std.specs.Option.{option_copied};
ghost use Rattle.es2_replay.specs.Named.{slot, entry, named, placed, changed, changed_by, Fits};

use crate::buffer_object::{BufferObject, Change};
use gl_numbers::Memory;
use std::alloc::Global;
use std::collections::BTreeMap;
use std::marker::Model;

/// The buffers that are made, by name: in a list, where the buffer of a name stands in the slot of that number and is
/// found in one step, or else in a tree. Whoever puts a buffer there says which of the two takes it.
#[derive(Drop)]
pub struct ByName {
    slots: Vec<Option<BufferObject>>,
    others: BTreeMap<u32, BufferObject>,
}

impl Model for ByName {
    ghost use Rattle.es2_replay.specs.Named.{Names};

    ghost Value = { Names };

    ghost view = { λ b. record { slots = b.slots.items; others = b.others.entries } };
}

#[tactic(auto, using(crate::proofs::Slots::of_slots))]
impl ByName {
    /// No buffer at all. Takes no memory.
    pub fn new(alloc: Global) -> Self
        ensures { named result ≡ (λ _. None) }
    {
        ByName {
            slots: Vec::new(alloc),
            others: BTreeMap::new(alloc),
        }
    }

    /// The buffer of this name, where it is made.
    #[inline]
    pub fn get(&self, name: u32) -> Option<&BufferObject>
        ensures { option_copied result ≡ named self.now name }
    {
        match self.slots.get(name as usize) {
            Some(Some(buffer)) => Some(buffer),
            _ => self.others.get(&name),
        }
    }

    /// Gives a name that isn't made this buffer, in its slot or in the tree. Err only where memory runs out, and then
    /// nothing changes.
    pub fn insert(&mut self, name: u32, in_slot: bool, buffer: BufferObject) -> Result<(), Memory>
        requires { named self.old name ≡ None }
        ensures made { OnOk result (named self.new ≡ placed (Some buffer) name (named self.old)) }
        ensures unchanged { OnErr result (self.new ≡ self.old) }
    {
        if in_slot {
            let Ok(()) = reach(&mut self.slots, name) else {
                return Err(Memory);
            };
            self.slots[name as usize] = Some(buffer);
            return Ok(());
        }
        let Ok(_) = self.others.insert(name, buffer) else {
            return Err(Memory);
        };
        Ok(())
    }

    /// The name is made no longer.
    pub fn remove(&mut self, name: u32)
        ensures { named self.new ≡ placed None name (named self.old) }
    {
        clear(&mut self.slots, name);
        remove_other(&mut self.others, name);
    }

    /// Whether the buffer of this name stands in a slot.
    #[inline]
    fn has_slot(&self, name: u32) -> bool
        ensures { result ≡ is_some (slot self.now.slots name) }
    {
        match self.slots.get(name as usize) {
            Some(slot) => slot.is_some(),
            None => false,
        }
    }

    /// Changes the buffer of a name, where it is made.
    #[inline(always)]
    pub fn change(&mut self, name: u32, change: Change<'_>)
        requires { IfSome (named self.old name) (Fits change) }
        ensures { named self.new ≡ changed (changed_by change.entry) name (named self.old) }
    {
        if self.has_slot(name) {
            change_slot(&mut self.slots, name, change);
        } else {
            change_other(&mut self.others, name, change);
        }
    }
}

/// Adds empty slots until a name has one. Err where memory runs out, and then nothing changes.
#[tactic(auto, using(crate::proofs::Slots::of_slots))]
fn reach(slots: &mut Vec<Option<BufferObject>>, name: u32) -> Result<(), Memory>
    ensures unchanged { OnErr result (slots.new.items ≡ slots.old.items) }
    ensures same { (q : ℕ) → slot slots.new.items q ≡ slot slots.old.items q }
    ensures reached { OnOk result (name < vec_len slots.new) }
{
    let len = name as usize + 1;
    // All the memory at once, so that no slot is added in vain where memory runs out.
    let Ok(()) = slots.reserve(len.saturating_sub(slots.len())) else {
        return Err(Memory);
    };
    while slots.len() < len {
        slots.push_reserved(None);
    }
    Ok(())
}

/// Changes the buffer in the slot of a name, where there is one.
#[inline(always)]
#[tactic(auto, using(crate::proofs::Slots::of_slots))]
fn change_slot(slots: &mut Vec<Option<BufferObject>>, name: u32, change: Change<'_>)
    requires { IfSome (slot slots.old.items name) (Fits change) }
    ensures { slot slots.new.items ≡ changed (changed_by change.entry) name (slot slots.old.items) }
{
    let Some(slot) = slots.get_mut(name as usize) else {
        return;
    };
    let Some(buffer) = slot else {
        return;
    };
    buffer.change(change);
}

/// Changes the buffer of a name in the tree, where there is one.
#[inline(never)]
fn change_other(others: &mut BTreeMap<u32, BufferObject>, name: u32, change: Change<'_>)
    requires { IfSome (entry others.old.entries name) (Fits change) }
    ensures { entry others.new.entries ≡ changed (changed_by change.entry) name (entry others.old.entries) }
{
    let Some(buffer) = others.get_mut(&name) else {
        return;
    };
    buffer.change(change);
}

/// Empties the slot of a name, where there is one.
#[tactic(auto, using(crate::proofs::Slots::of_slots))]
fn clear(slots: &mut Vec<Option<BufferObject>>, name: u32)
    ensures { slot slots.new.items ≡ placed None name (slot slots.old.items) }
{
    if let Some(slot) = slots.get_mut(name as usize) {
        *slot = None;
    }
}

/// Takes the buffer of a name out of the tree, where there is one.
fn remove_other(others: &mut BTreeMap<u32, BufferObject>, name: u32)
    ensures { entry others.new.entries ≡ placed None name (entry others.old.entries) }
{
    let _gone = others.remove(&name);
}
