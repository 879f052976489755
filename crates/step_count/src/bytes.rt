ghost use Rattle.std.specs.Prelude.{◌≡◌, ◌==◌, ◌*◌, ◌<◌, ◌≤◌, length};
ghost use Rattle.step_count.specs.Blocks.{block_at};
ghost use Rattle.step_count.specs.Ticks.{block_lent};

use crate::Steps;
use std::fmt::{self, Debug, Formatter, Write};
use std::sync::ledger::Ledger;

/// The most bytes that one block has.
pub const BLOCK_BYTES: usize = 64;

/// The bytes of an index buffer, lent a block at a time.
#[derive(Clone, Copy)]
pub struct Bytes<'a> {
    bytes: &'a [u8],
}

impl<'a> Bytes<'a> {
    ghost use Rattle.step_count.specs.Content.{content};

    /// These bytes, to be read by the block.
    pub fn new(bytes: &'a [u8]) -> Bytes<'a>
        ensures { content result ≡ bytes.entry.now }
    {
        Bytes { bytes }
    }

    /// How many bytes there are.
    pub fn len(self) -> usize
        ensures { result ≡ length (content self.entry) }
    {
        self.bytes.len()
    }

    /// Whether there are no bytes.
    pub fn is_empty(self) -> bool
        ensures { result ≡ (length (content self.entry) == 0) }
    {
        self.bytes.is_empty()
    }

    /// The block `i`: the bytes from 64 × i, 64 of them or as many as there are. Counts one block.
    pub fn block<L: Ledger>(self, i: usize, steps: &mut Steps<L>) -> &'a [u8]
        requires { 64 * i < length (content self) }
        ensures value { result.now ≡ block_at i (content self.entry) }
        ensures within { length result.now ≤ 64 }
        ensures counted { steps.new ≡ block_lent steps.old }
    {
        steps.count_block();
        let (_, rest) = self.bytes.split_at(BLOCK_BYTES * i);
        if rest.len() <= BLOCK_BYTES {
            return rest;
        }
        rest.split_at(BLOCK_BYTES).0
    }
}

/// Shows how many bytes there are, and none of them.
impl Debug for Bytes<'_> {
    fn fmt<W: Write>(&self, f: &mut Formatter<W>) -> fmt::Result {
        write!(f, "Bytes({})", self.bytes.len())
    }
}
