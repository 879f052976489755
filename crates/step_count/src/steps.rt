ghost use Rattle.std.specs.Prelude.{◌≡◌};
ghost use Rattle.step_count.specs.Ticks.{no_ticks, block_lent};

use std::marker::Model;
use std::sync::ledger::{Blank, Book, Ledger, Share};

/// A counter of blocks lent and of cells read or written, one tick each, seen as its two numbers. They begin
/// at 0 and never fall.
#[derive(Drop)]
pub struct Steps<L: Ledger> {
    book: Book<L>,
    blocks: Share<L>,
    cells: Share<L>,
}

impl<L: Ledger> Model for Steps<L> {
    ghost use Rattle.std.specs.Prelude.{◌<◌};
    ghost use Rattle.step_count.specs.Ticks.{Ticks};

    ghost Value = { Ticks };

    ghost view = { λ s. record { blocks = s.blocks.amount; cells = s.cells.amount } };

    ghost invariant = { λ s. (0 < s.blocks.parts) × (0 < s.cells.parts) };
}

impl<L: Ledger> Steps<L> {
    /// A counter at 0 and 0, over a ledger of its own of two parts.
    pub fn start(blank: Blank) -> Steps<L>
        requires name { blank.name ≡ L.name }
        requires parts { blank.parts ≡ L.parts }
        requires two { L.parts ≡ 2 }
        ensures { result ≡ no_ticks }
    {
        let (book, mut blocks) = blank.open();
        let cells = blocks.split_off(1, 0);
        Steps {
            book,
            blocks,
            cells,
        }
    }

    /// Counts one block.
    pub(crate) fn count_block(&mut self)
        ensures { self.new ≡ block_lent self.old }
    {
        self.book.add(&mut self.blocks, 1);
    }
}
