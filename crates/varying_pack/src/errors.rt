/// Why items are not placed.
#[derive(Clone, Copy, Debug, PartialEq, Eq)]
pub enum Pack {
    /// The rule finds an item no place in these rows.
    NoRoom,
    /// Memory ran out.
    Memory,
}
