ghost use Rattle.std.specs.Prelude.{◌≡◌, ◌+◌, ◌<◌, Some, None, [], ◌∷◌, IsNone, IsSome, IsSomeAnd, OnOk, OnErr, length, vec_len};
ghost use Rattle.std.specs.Option.{option_copied, option_map};
ghost use Rattle.std.specs.FinMap.{empty, get, insert, remove};
ghost use Rattle.gl_numbers.specs.BufferRules.{other_target};
ghost use Rattle.gl_numbers.specs.Refusals.{Judged};
ghost use Rattle.buffer_store.specs.StoredBuffer.{IsIndexed, view_of, with_bytes, with_first};
ghost use Rattle.buffer_store.specs.Stored.{IsOf, KeepsFirst, changed_at};
ghost use Rattle.buffer_store.specs.Slots.{shelf_of};

use crate::held::Held;
use gl_numbers::{BufferTarget, GlError, Handle, Memory};
use std::alloc::Global;
use std::marker::Model;

/// The buffers that are there, by handle: the one of handle `h` stands at place `h` of a list, and is found in one
/// step. A page's handles are 1, 2, 3, .. over all its objects, and a deleted buffer leaves its place empty, so the list
/// has at most one place more than handles were given.
#[derive(Drop)]
pub(crate) struct ByHandle {
    held: Vec<Option<Held>>,
}

impl Model for ByHandle {
    ghost use Rattle.buffer_store.specs.Stored.{Shelf};
    ghost use Rattle.buffer_store.specs.Codes.{shelf_code};

    ghost Value = { Shelf };

    ghost coded = { shelf_code };

    ghost use Rattle.buffer_store.specs.Slots.{shelf_of};

    ghost view = { λ a. shelf_of a.held.items };
}

#[tactic(auto, using(crate::proofs::Shelf::of_shelf))]
impl ByHandle {
    /// No buffer at all.
    #[inline]
    pub(crate) fn new(alloc: Global) -> ByHandle
        ensures { result ≡ empty }
    {
        ByHandle {
            held: Vec::new(alloc),
        }
    }

    /// The buffer of this handle.
    #[inline]
    pub(crate) fn get(&self, h: Handle) -> Option<&Held>
        ensures { option_copied result ≡ get self.now h }
    {
        match self.held.get(h as usize) {
            Some(slot) => slot.as_ref(),
            None => None,
        }
    }

    /// The buffer of a handle that has one.
    #[inline]
    pub(crate) fn at(&self, h: Handle) -> &Held
        requires { IsSome (get self.now h) }
        ensures { get self.now h ≡ Some result.now }
    {
        match self.get(h) {
            Some(held) => held,
            None => unreachable!(),
        }
    }

    /// Adds a buffer under a handle that has none. Err only where memory runs out, and then nothing changes.
    #[inline]
    pub(crate) fn add(&mut self, h: Handle, held: Held) -> Result<(), Memory>
        requires { IsNone (get self.old h) }
        ensures ok { OnOk result (self.new ≡ insert self.old h held) }
        ensures err { OnErr result (self.new ≡ self.old) }
        ensures firsts { KeepsFirst self.old self.new }
    {
        let Ok(()) = reach(&mut self.held, h) else {
            return Err(Memory);
        };
        self.held[h as usize] = Some(held);
        Ok(())
    }

    /// Puts another buffer of the same target in the place of the one of this handle.
    #[inline]
    pub(crate) fn replace(&mut self, target: BufferTarget, h: Handle, held: Held)
        requires old { IsOf target (get self.old h) }
        requires new { held.first_target ≡ Some target }
        ensures value { self.new ≡ insert self.old h held }
        ensures firsts { KeepsFirst self.old self.new }
    {
        if let Some(slot) = self.held.get_mut(h as usize) {
            *slot = Some(held);
        }
    }

    /// Makes the buffer of this handle one of this target. Operation where it is one of the other, and then
    /// nothing changes.
    #[inline]
    pub(crate) fn claim(
        &mut self,
        alloc: Global,
        target: BufferTarget,
        h: Handle,
    ) -> Result<(), GlError>
        requires { IsSome (get self.old h) }
        ensures judged { Judged (other_target (Some target) (option_map view_of (get self.old h)) ∷ []) result }
        ensures ok { OnOk result (self.new ≡ changed_at self.old h (with_first target) (get self.old h)) }
        ensures err { OnErr result (self.new ≡ self.old) }
        ensures firsts { KeepsFirst self.old self.new }
        ensures claimed { OnOk result (IsOf target (get self.new h)) }
    {
        match self.at(h).first_target() {
            None => {
                self.take_target(alloc, h, target);
                Ok(())
            }
            Some(first) if first == target => Ok(()),
            Some(_) => Err(GlError::Operation),
        }
    }

    /// Makes a buffer that was never bound one of this target.
    fn take_target(&mut self, alloc: Global, h: Handle, target: BufferTarget)
        requires { IsSomeAnd (get self.old h) (λ b. b.first_target ≡ None) }
        ensures { self.new ≡ changed_at self.old h (with_first target) (get self.old h) }
    {
        let Some(slot) = self.held.get_mut(h as usize) else {
            return;
        };
        let Some(held) = slot else {
            return;
        };
        held.take_target(alloc, target);
    }

    /// Writes these bytes from `at` on into the element buffer of this handle.
    #[inline]
    pub(crate) fn patch(&mut self, h: Handle, at: usize, bytes: &[u8])
        requires { IsSomeAnd (get self.old h) (IsIndexed (at + length bytes.now)) }
        ensures value { self.new ≡ changed_at self.old h (with_bytes at bytes.now) (get self.old h) }
        ensures firsts { KeepsFirst self.old self.new }
    {
        let Some(slot) = self.held.get_mut(h as usize) else {
            return;
        };
        let Some(held) = slot else {
            return;
        };
        held.patch(at, bytes);
    }

    /// Takes the buffer of this handle away, if it is there.
    pub(crate) fn remove(&mut self, h: Handle)
        ensures { self.new ≡ remove self.old h }
    {
        if let Some(slot) = self.held.get_mut(h as usize) {
            *slot = None;
        }
    }
}

/// Adds empty slots until there is one of this handle. Err where memory runs out. An empty slot holds no buffer, so
/// the same buffers are held either way.
#[tactic(auto, using(crate::proofs::Shelf::of_shelf))]
fn reach(slots: &mut Vec<Option<Held>>, h: Handle) -> Result<(), Memory>
    ensures same { shelf_of slots.new.items ≡ shelf_of slots.old.items }
    ensures reached { OnOk result (h < vec_len slots.new) }
{
    let len = h as usize + 1;
    // All the memory at once, so that no slot is added in vain where memory runs out.
    let Ok(()) = slots.reserve(len.saturating_sub(slots.len())) else {
        return Err(Memory);
    };
    while slots.len() < len {
        let Ok(()) = slots.push(None) else {
            return Err(Memory);
        };
    }
    Ok(())
}
