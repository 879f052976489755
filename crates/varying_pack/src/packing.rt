ghost use Rattle.std.specs.Prelude.{◌≡◌, IfSome};
ghost use Rattle.varying_pack.specs.Placing.{placing};
ghost use Rattle.varying_pack.specs.Answers.{Answers};
ghost use Rattle.varying_pack.specs.Sheets.{after, listed, spot};

use crate::errors::Pack;
use crate::items::{PackItem, item_rows};
use crate::order::{Turn, in_order};
use crate::sheet::Sheet;
use std::alloc::Global;

/// The place of each item in so many rows of four cells, as its first row and its column, both from 0 (GLSL ES 1.00.17
/// appendix A section 7). An item of size 0 takes no cell, and has the first place that its rule looks at. `NoRoom`
/// exactly where an item has no place; `Memory` where memory runs out.
pub fn pack(alloc: Global, rows: u32, items: &[PackItem]) -> Result<Vec<(u32, u32)>, Pack>
    ensures { Answers (placing rows items.now) result }
{
    let Ok(turns) = in_order(alloc, items) else {
        return Err(Pack::Memory);
    };
    let Ok(mut places) = vec![in alloc; (0, 0); items.len()] else {
        return Err(Pack::Memory);
    };
    let mut sheet = Sheet::new(rows);
    for turn in &turns {
        let Some(found) = place(&mut sheet, *turn) else {
            return Err(Pack::NoRoom);
        };
        places[turn.item] = found;
    }
    Ok(places)
}

/// Places an item; None where it has no place.
fn place(sheet: &mut Sheet, turn: Turn) -> Option<(u32, u32)>
    ensures spot { result ≡ spot sheet.old (listed turn).1 }
    ensures after { IfSome result (λ found. sheet.new ≡ after sheet.old (listed turn).1 found) }
{
    let rows = item_rows(turn.class, turn.size.0);
    match turn.class {
        0..=3 => sheet.place_wide(4, rows),
        4 | 5 => sheet.place_wide(3, rows),
        6 => sheet.place_pair(rows),
        _ => sheet.place_single(rows),
    }
}
