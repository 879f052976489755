/// Why a decoder takes nothing of a piece: a whole header in it is refused.
#[derive(Clone, Copy, Debug, PartialEq, Eq)]
pub enum Bad {
    /// The stream doesn't begin with `ESCS` and version 1.
    Version,
    /// A command's operation isn't in the table, or its length isn't one that the operation allows; at this
    /// offset in the stream, the command's first byte.
    Command(u64),
}
