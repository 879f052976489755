ghost use Rattle.std.specs.Prelude.{◌≡◌, ◌+◌, ℕ, ◌≤◌, min, length, take};
ghost use Rattle.std.specs.Vec.{vec_capacity};
ghost use Rattle.command_stream.specs.declared.taking.TheConstants.{COMMAND_MAX};

use crate::taking::COMMAND_MAX;

/// Adds zeros until the piece fits after the first `held` bytes, or the longest command does. There is room for them, so
/// that it can't fail.
#[inline(always)]
pub fn reach(bytes: &mut Vec<u8>, held: usize, piece: &[u8])
    requires room { COMMAND_MAX ≤ vec_capacity bytes.old }
    requires size { length bytes.old.items ≤ COMMAND_MAX }
    requires within { held ≤ length bytes.old.items }
    ensures kept { (n : ℕ) → n ≤ length bytes.old.items → take n bytes.new.items ≡ take n bytes.old.items }
    ensures longer { length bytes.old.items ≤ length bytes.new.items }
    ensures size { length bytes.new.items ≤ COMMAND_MAX }
    ensures reached { min (held + length piece.now) COMMAND_MAX ≤ length bytes.new.items }
    ensures capacity { vec_capacity bytes.old ≤ vec_capacity bytes.new }
{
    let len = (held + piece.len()).min(COMMAND_MAX);
    if bytes.len() < len {
        grow(bytes, len);
    }
}

/// Adds zeros up to this length, for which there is room.
#[cold]
#[inline(never)]
fn grow(bytes: &mut Vec<u8>, len: usize)
    requires longer { length bytes.old.items ≤ len }
    requires room { len ≤ vec_capacity bytes.old }
    ensures kept { (n : ℕ) → n ≤ length bytes.old.items → take n bytes.new.items ≡ take n bytes.old.items }
    ensures size { length bytes.new.items ≡ len }
    ensures capacity { vec_capacity bytes.old ≤ vec_capacity bytes.new }
{
    let _ = bytes.resize(len, 0);
}
