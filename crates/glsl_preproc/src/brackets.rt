ghost use Rattle.std.specs.Prelude.{◌≡◌, ◌≤◌, ◌<◌, ◌+◌, ◌-◌, true, false, if◌then◌else◌, [], IfOk, OnOk, length};
ghost use Rattle.glsl_preproc.specs.Views.{plain_piece, plain_pieces};
ghost use Rattle.glsl_preproc.specs.Replacement.{opens, closes};
ghost use Rattle.glsl_preproc.specs.LoneClosers.{lone_closers, AreCounts};

use crate::pieces::{Piece, closes, opens};
use std::alloc::{AllocError, Global};

/// How many `)` close no `(`, for the ends of one list. They are counted once, where the first call is found.
#[derive(Drop)]
pub struct Brackets {
    /// The count of each end, by the number of its tokens; empty before they are counted.
    pub counts: Vec<usize>,
}

/// The count of an end that is one token longer.
fn count_with(piece: &Piece, count: usize) -> usize
    requires { count < 18446744073709551615 }
    ensures count { result ≡ (if opens (plain_piece piece.now) then count - 1 else (if closes (plain_piece piece.now) then count + 1 else count)) }
    ensures within { result ≤ count + 1 }
{
    if opens(piece) {
        count.saturating_sub(1)
    } else if closes(piece) {
        count + 1
    } else {
        count
    }
}

/// The counts of all ends of a list, in one pass from the last token to the first.
fn counts_of(alloc: Global, list: &[Piece]) -> Result<Vec<usize>, AllocError>
    ensures { IfOk result (λ counts. AreCounts counts.items (plain_pieces list.now)) }
{
    let mut counts = Vec::new(alloc);
    let mut count = 0usize;
    let mut at = list.len();
    counts.push(count)?;
    while at > 0 {
        let before = at - 1;
        count = count_with(&list[before], count);
        counts.push(count)?;
        at = before;
    }
    Ok(counts)
}

impl Brackets {
    ghost use Rattle.std.specs.Prelude.{◌<◌, true, length, ◌≡◌, false, [], OnOk};
    ghost use Rattle.glsl_preproc.specs.Views.{plain_pieces};
    ghost use Rattle.glsl_preproc.specs.LoneClosers.{lone_closers, AreCounts};

    /// Before anything is counted.
    pub fn new(alloc: Global) -> Self
        ensures { result.counts.items ≡ [] }
    {
        Brackets {
            counts: Vec::new(alloc),
        }
    }

    /// Counts for the rest of a list, unless it was done for more of it.
    pub fn count(&mut self, alloc: Global, rest: &[Piece]) -> Result<(), AllocError>
        requires { AreCounts self.old.counts.items (plain_pieces rest.now) }
        ensures { OnOk result (AreCounts self.new.counts.items (plain_pieces rest.now)) }
    {
        if self.counts.is_empty() {
            self.counts = counts_of(alloc, rest)?;
        }
        Ok(())
    }

    /// Whether a `)` comes in the rest of a list that closes the call whose `(` stands before it. It does where
    /// nothing is counted, for all that is known.
    pub fn may_close(&self, rest: &[Piece]) -> bool
        requires { AreCounts self.now.counts.items (plain_pieces rest.now) }
        ensures none { result ≡ false → lone_closers (plain_pieces rest.now) ≡ 0 }
        ensures some { length rest.now < length self.now.counts.items → result ≡ true → 0 < lone_closers (plain_pieces rest.now) }
    {
        let counts = self.counts.as_slice();
        let len = rest.len();
        len >= counts.len() || counts[len] > 0
    }
}
