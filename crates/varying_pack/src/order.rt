ghost use Rattle.std.specs.Prelude.{◌≡◌, ◌<◌, All, IfOk, length, map};
ghost use Rattle.std.specs.List.{enumerate_from};
ghost use Rattle.varying_pack.specs.Placing.{in_order};
ghost use Rattle.varying_pack.specs.Sheets.{listed};

use crate::items::PackItem;
use std::alloc::{AllocError, Global};
use std::cmp::Reverse;

/// An item when it is placed. The order of turns is that of placing: by class, then the larger size first, then as listed.
#[derive(Clone, Copy, Debug, PartialEq, Eq, PartialOrd, Ord)]
pub(crate) struct Turn {
    /// Its class.
    pub class: u8,
    /// Its array size.
    pub size: Reverse<u32>,
    /// Its place in the list.
    pub item: usize,
}

/// The items in the order in which they are placed. Err where memory runs out.
pub(crate) fn in_order(alloc: Global, items: &[PackItem]) -> Result<Vec<Turn>, AllocError>
    ensures order { IfOk result (λ turns. map listed turns.items ≡ in_order (enumerate_from 0 items.now)) }
    ensures within { IfOk result (λ turns. All (λ turn. turn.item < length items.now) turns.items) }
{
    let mut turns = Vec::with_capacity(alloc, items.len())?;
    for (item, PackItem { class, size }) in items.iter().enumerate() {
        turns.push(Turn {
            class: *class,
            size: Reverse(*size),
            item,
        })?;
    }
    turns.sort_unstable();
    Ok(turns)
}
