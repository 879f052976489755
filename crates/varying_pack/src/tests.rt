use crate::cases::{FEW, MANY};
use crate::{Pack, PackItem, pack};
use std::alloc::{AllocError, Global};
use std::process::Abort;
use std::test::Fail;

/// The number that a character stands for.
fn number(digit: u8) -> u32 {
    match digit {
        b'0'..=b'9' => u32::from(digit - b'0'),
        b'a'..=b'z' => u32::from(digit - b'a') + 10,
        _ => 0,
    }
}

/// The numbers of a text, two by two.
fn pairs(alloc: Global, text: &[u8]) -> Result<Vec<(u32, u32)>, AllocError> {
    let mut found = Vec::new(alloc);
    for pair in text.chunks(2) {
        if let [a, b] = pair {
            found.push((number(*a), number(*b)))?;
        }
    }
    Ok(found)
}

/// The items of a text.
fn items(alloc: Global, text: &[u8]) -> Result<Vec<PackItem>, AllocError> {
    let mut found = Vec::new(alloc);
    for pair in text.chunks(2) {
        if let [class, size] = pair {
            let class = number(*class).min(9) as u8;
            let size = number(*size);
            found.push(PackItem { class, size })?;
        }
    }
    Ok(found)
}

/// Whether the items of a case have their places, or no room.
fn is_right(alloc: Global, text: &[u8], places: &[u8]) -> Result<bool, AllocError> {
    let [rows, listed @ ..] = text else {
        return Ok(false);
    };
    let items = items(alloc, listed)?;
    let want = pairs(alloc, places)?;
    Ok(match pack(alloc, number(*rows), items.as_slice()) {
        Ok(found) => places != b"-".as_slice() && found.as_slice() == want.as_slice(),
        Err(Pack::NoRoom) => places == b"-".as_slice(),
        Err(Pack::Memory) => false,
    })
}

fn compare(rt: &impl Abort, alloc: Global, cases: &[(&[u8], &[u8])]) -> Result<(), Fail> {
    for (text, places) in cases.iter() {
        let is_right = is_right(alloc, text, places)?;
        assert!(rt; is_right, "{text:?}");
    }
    Ok(())
}

#[test]
fn items_stand_where_the_rule_puts_them(rt: HostRuntime) -> Result<(), Fail> {
    compare(&rt, rt.alloc(), &FEW)?;
    compare(&rt, rt.alloc(), &MANY)
}

/// Cells that are used, row by row.
type Grid = [[bool; 4]; 8];

/// Whether a cell is free.
fn is_free(grid: &Grid, row: u32, column: u32) -> bool {
    match grid.get(row as usize) {
        Some(cells) => match cells.get(column as usize) {
            Some(used) => !*used,
            None => false,
        },
        None => false,
    }
}

/// Cells from a place on.
#[derive(Clone, Copy)]
struct Block {
    row: u32,
    column: u32,
    rows: u32,
    columns: u32,
}

/// Whether the cells are free, and lie in so many rows.
fn fits(grid: &Grid, rows: u32, at: Block) -> bool {
    for row in 0..at.rows {
        for column in 0..at.columns {
            let (row, column) = (at.row.saturating_add(row), at.column.saturating_add(column));
            if row >= rows || !is_free(grid, row, column) {
                return false;
            }
        }
    }
    at.row.saturating_add(at.rows) <= rows
}

/// Uses the cells.
fn fill(grid: &mut Grid, at: Block) {
    for (row, cells) in (0u32..).zip(grid.iter_mut()) {
        for (column, used) in (0u32..).zip(cells.iter_mut()) {
            let in_rows = at.row <= row && row < at.row.saturating_add(at.rows);
            let in_columns = at.column <= column && column < at.column.saturating_add(at.columns);
            *used = *used || (in_rows && in_columns);
        }
    }
}

/// The rows and columns of a class.
fn shape(class: u8) -> (u32, u32) {
    match class {
        1 => (4, 4),
        2 => (2, 4),
        3 => (1, 4),
        4 => (3, 3),
        5 => (1, 3),
        6 => (1, 2),
        _ => (1, 1),
    }
}

/// The lowest or the highest place of a block in its columns.
fn run(grid: &Grid, rows: u32, at: Block, highest: bool) -> Option<Block> {
    let mut found = None;
    for row in 0..rows.saturating_add(1) {
        let at = Block { row, ..at };
        if fits(grid, rows, at) && (highest || found.is_none()) {
            found = Some(at);
        }
    }
    found
}

/// The free cells of a column.
fn free_cells(grid: &Grid, rows: u32, column: u32) -> u32 {
    let mut free = 0u32;
    for row in 0..rows {
        if is_free(grid, row, column) {
            free = free.saturating_add(1);
        }
    }
    free
}

/// The lowest run in the column with the fewest free cells of those that have one.
fn column_run(grid: &Grid, rows: u32, at: Block) -> Option<Block> {
    let mut found = None;
    let mut fewest = u32::MAX;
    for column in 0..4 {
        let free = free_cells(grid, rows, column);
        let here = run(grid, rows, Block { column, ..at }, false);
        if here.is_some() && free < fewest {
            found = here;
            fewest = free;
        }
    }
    found
}

/// The place of an item by a search in the grid.
fn searched(grid: &Grid, rows: u32, used: u32, item: PackItem) -> Option<Block> {
    let (each, columns) = shape(item.class);
    let at = Block {
        row: used,
        column: 0,
        rows: each.saturating_mul(item.size),
        columns,
    };
    match columns {
        3 | 4 if fits(grid, rows, at) => Some(at),
        3 | 4 => None,
        2 => match run(grid, rows, at, false) {
            Some(found) => Some(found),
            None => run(grid, rows, Block { column: 2, ..at }, true),
        },
        _ => column_run(grid, rows, at),
    }
}

/// The places of at most four items of sizes up to 3, each by a search in the grid.
fn plain(rows: u32, items: &[PackItem]) -> Option<[(u32, u32); 4]> {
    let mut grid = [[false; 4]; 8];
    let mut used = 0;
    let mut places = [(0, 0); 4];
    for class in 1..8 {
        for size in [3, 2, 1, 0] {
            for (item, place) in items.iter().zip(places.iter_mut()) {
                if item.class == class && item.size == size {
                    let at = searched(&grid, rows, used, *item)?;
                    fill(&mut grid, at);
                    if at.columns > 2 {
                        used = at.row.saturating_add(at.rows);
                    }
                    *place = (at.row, at.column);
                }
            }
        }
    }
    Some(places)
}

/// Whether four items stand where a search finds them a place.
fn is_as_searched(alloc: Global, rows: u32, items: &[PackItem; 4]) -> bool {
    match (pack(alloc, rows, items), plain(rows, items)) {
        (Ok(found), Some(want)) => found.as_slice() == want.as_slice(),
        (Err(Pack::NoRoom), None) => true,
        _ => false,
    }
}

/// The item that is chosen by a number, of the seven classes and the sizes 1 and 2.
fn chosen(choice: u32) -> PackItem {
    let class = match choice % 7 {
        0 => 1,
        1 => 2,
        2 => 3,
        3 => 4,
        4 => 5,
        5 => 6,
        _ => 7,
    };
    PackItem {
        class,
        size: choice / 7 % 2 + 1,
    }
}

/// Four items that are chosen by a number.
fn four(choice: u32) -> [PackItem; 4] {
    [
        chosen(choice),
        chosen(choice / 14),
        chosen(choice / 196),
        chosen(choice / 2_744),
    ]
}

#[test]
fn four_items_stand_where_a_search_finds_them_a_place(rt: HostRuntime) {
    for choice in 0..38_416 {
        let items = four(choice);
        assert!(rt; is_as_searched(rt.alloc(), choice % 9, &items), "{items:?}");
    }
}

/// So many items of a class and a size.
fn many(alloc: Global, count: usize, item: PackItem) -> Result<Vec<PackItem>, AllocError> {
    vec![in alloc; item; count]
}

#[test]
fn many_and_large_items_are_placed(rt: HostRuntime) -> Result<(), Fail> {
    let scalar = PackItem { class: 7, size: 1 };
    let scalars = many(rt.alloc(), 65_536, scalar)?;
    let found = pack(rt.alloc(), 16_384, scalars.as_slice());
    assert!(rt; found.is_ok_and(|v| v.last() == Some(&(16_383, 3))));
    assert!(rt; pack(rt.alloc(), 16_383, scalars.as_slice()).is_err_and(|e| e == Pack::NoRoom));
    let large = PackItem {
        class: 1,
        size: 65_536,
    };
    let matrices = many(rt.alloc(), 16_383, large)?;
    let found = pack(rt.alloc(), u32::MAX, matrices.as_slice());
    assert!(rt; found.is_ok_and(|v| v.last() == Some(&(4_294_443_008, 0))));
    let matrices = many(rt.alloc(), 16_384, large)?;
    assert!(rt; pack(rt.alloc(), u32::MAX, matrices.as_slice()).is_err_and(|e| e == Pack::NoRoom));
    Ok(())
}
