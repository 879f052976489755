/// Why a source has no tokens.
#[derive(Clone, Copy, Debug, PartialEq, Eq)]
pub enum Lex {
    /// No token begins at a place on this line, or a comment begins there that is not closed; lines count from 1.
    Lexical(u32),
    /// Memory is wanting.
    Memory,
}
