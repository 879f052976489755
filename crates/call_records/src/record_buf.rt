ghost use Rattle.std.specs.Prelude.{◌≡◌, ◌≤◌, ◌-◌, ◌++◌, ℕ, List, [], length, replicate, IfOk};
ghost use Rattle.std.specs.Borrow.{sem};
ghost use Rattle.std.specs.Vec.{vec_capacity};
ghost use Rattle.call_records.specs.declared.operations.TheConstants.{BODY_MAX};
ghost use Rattle.call_records.specs.RecordBuf.{LendsBytes};

use crate::operations::BODY_MAX;
use gl_numbers::Memory;
use std::alloc::Global;
use std::marker::Model;

/// Room for the longest body of a record, seen as the bytes that bodies have reached so far. All of its memory is taken
/// at the start, and none of it is written before a body needs it. A call that was read borrows its tail from here.
#[derive(Debug, Drop)]
pub struct RecordBuf {
    bytes: Vec<u8>,
}

impl Model for RecordBuf {
    ghost use Rattle.std.specs.Prelude.{◌≤◌, ℕ, List, length};
    ghost use Rattle.std.specs.Vec.{vec_capacity};
    ghost use Rattle.call_records.specs.declared.operations.TheConstants.{BODY_MAX};

    ghost Value = { List ℕ };

    ghost view = { λ b. b.bytes.items };

    ghost invariant = { λ b. (length b.bytes.items ≤ BODY_MAX) × (BODY_MAX ≤ vec_capacity b.bytes) };
}

impl RecordBuf {
    /// A buffer with room for 16,777,280 bytes, of which none is reached yet; Memory where memory runs out.
    pub fn make(alloc: Global) -> Result<Self, Memory>
        ensures { IfOk result (λ buf. buf ≡ []) }
    {
        let mut bytes = Vec::new(alloc);
        match bytes.reserve_exact(BODY_MAX) {
            Ok(()) => Ok(RecordBuf { bytes }),
            Err(_) => Err(Memory),
        }
    }

    /// Adds zeros until it has `len` bytes at least. There is room for them, so that it can't fail.
    #[inline(always)]
    pub fn reach(&mut self, len: usize)
        requires { len ≤ BODY_MAX }
        ensures value { self.new ≡ self.old ++ replicate (len - length self.old) 0 }
        ensures reached { len ≤ length self.new }
        ensures within { length self.new ≤ BODY_MAX }
    {
        if self.bytes.len() < len {
            grow(&mut self.bytes, len);
        }
    }

    /// All of its bytes. What is written through the result is the buffer's.
    #[inline(always)]
    pub fn bytes_mut(&mut self) -> &mut [u8]
        ensures* writes_back { sem 𝓛 (LendsBytes self.entry result) }
        ensures value { result.now ≡ self.old }
        ensures len { length result.now ≡ length self.old }
    {
        self.bytes.as_mut_slice()
    }
}

/// Adds zeros up to this length, for which there is room.
#[cold]
#[inline(never)]
fn grow(bytes: &mut Vec<u8>, len: usize)
    requires longer { length bytes.old.items ≤ len }
    requires room { len ≤ vec_capacity bytes.old }
    ensures items { bytes.new.items ≡ bytes.old.items ++ replicate (len - length bytes.old.items) 0 }
    ensures capacity { vec_capacity bytes.old ≤ vec_capacity bytes.new }
{
    let _ = bytes.resize(len, 0);
}
