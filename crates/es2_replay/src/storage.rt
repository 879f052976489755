ghost use Rattle.std.specs.Prelude.{◌≡◌, ◌+◌, ◌-◌, ◌≤◌, [], ◌++◌, replicate, length, take, drop, vec_len, IfOk};
ghost use Rattle.std.specs.Vec.{vec_capacity};

use gl_numbers::Memory;
use std::alloc::Global;
use std::marker::Model;

/// The bytes of a buffer: those up to the last that was written, and after them zeros. All their memory is taken when the
/// size is given, and the zeros need not be written.
#[derive(Drop)]
pub struct Storage {
    written: Vec<u8>,
    size: usize,
}

impl Model for Storage {
    ghost use Rattle.std.specs.Prelude.{◌≤◌, ◌++◌, ◌-◌, ℕ, List, length, replicate};
    ghost use Rattle.std.specs.Vec.{vec_capacity};

    ghost Value = { List ℕ };

    ghost view = { λ s. s.written.items ++ replicate (s.size - length s.written.items) 0 };

    ghost invariant = { λ s. (length s.written.items ≤ s.size) × (s.size ≤ vec_capacity s.written) };
}

impl Storage {
    /// No bytes.
    #[inline(always)]
    pub fn none(alloc: Global) -> Self
        ensures { result ≡ [] }
    {
        Storage {
            written: Vec::new(alloc),
            size: 0,
        }
    }

    /// So many zero bytes. Err only where memory runs out.
    #[inline]
    pub fn zeros(alloc: Global, size: usize) -> Result<Self, Memory>
        ensures { IfOk result (λ storage. storage ≡ replicate size 0) }
    {
        match Vec::with_capacity(alloc, size) {
            Ok(written) => Ok(Storage { written, size }),
            Err(_) => Err(Memory),
        }
    }

    /// How many bytes there are.
    #[inline(always)]
    pub fn len(&self) -> usize
        ensures { result ≡ length self.now }
    {
        self.size
    }

    /// Writes bytes over its own, from an offset on.
    #[inline(always)]
    #[tactic(auto, using(crate::proofs::Zeros::over_written))]
    pub fn write(&mut self, offset: usize, part: &[u8])
        requires { offset + length part.now ≤ length self.old }
        ensures { self.new ≡ take offset self.old ++ (part.now ++ drop (offset + length part.now) self.old) }
    {
        let written = self.written.len();
        if offset + part.len() <= written {
            overwrite(&mut self.written, offset, part);
            return;
        }
        put_past(&mut self.written, offset, part);
    }

    /// Whether these are its bytes.
    #[cfg(test)]
    pub fn holds(&self, bytes: &[u8]) -> bool {
        let written = self.written.len();
        bytes.len() == self.size
            && self.written[..] == bytes[..written]
            && are_zeros(&bytes[written..])
    }
}

/// Whether each byte is 0.
#[cfg(test)]
fn are_zeros(bytes: &[u8]) -> bool {
    bytes.iter().all(|byte| *byte == 0)
}

/// Writes the part over bytes that are there.
#[inline(always)]
fn overwrite(written: &mut Vec<u8>, offset: usize, part: &[u8])
    requires { offset + length part.now ≤ length written.old.items }
    ensures items { written.new.items ≡ take offset written.old.items ++ (part.now ++ drop (offset + length part.now) written.old.items) }
    ensures capacity { vec_capacity written.old ≤ vec_capacity written.new }
{
    written[offset..offset + part.len()].copy_from_slice(part);
}

/// Puts the part in place of all bytes from an offset on, with zeros before it where there are fewer. There is room for it.
#[inline(never)]
fn put_past(written: &mut Vec<u8>, offset: usize, part: &[u8])
    requires { offset + length part.now ≤ vec_capacity written.old }
    ensures items { written.new.items ≡ take offset (written.old.items ++ replicate (offset - length written.old.items) 0) ++ part.now }
    ensures capacity { vec_capacity written.old ≤ vec_capacity written.new }
{
    reach(written, offset);
    written.truncate(offset);
    let _ = written.extend_from_slice(part);
}

/// Adds zeros up to this length, for which there is room, where there are fewer bytes.
#[inline(always)]
fn reach(written: &mut Vec<u8>, len: usize)
    requires { len ≤ vec_capacity written.old }
    ensures items { written.new.items ≡ written.old.items ++ replicate (len - length written.old.items) 0 }
    ensures capacity { vec_capacity written.old ≤ vec_capacity written.new }
{
    if written.len() < len {
        let _ = written.resize(len, 0);
    }
}
