/// Why a link makes nothing.
#[derive(Clone, Copy, Debug, PartialEq, Eq)]
pub enum Link {
    /// The number of the first rule that the shaders break, from 4 to 11.
    Rule(u8),
    /// Memory ran out.
    Memory,
}
