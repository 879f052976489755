/// Why there is no expansion.
#[derive(Clone, Copy, Debug, PartialEq, Eq)]
pub enum Pre {
    /// A directive or a macro call fails, on this line; lines count from 1.
    Directive(u32),
    /// The expansion has more than 131,072 tokens.
    TooLong,
    /// Memory is wanting, or the source asks for too much work: macro calls, replacements, brackets or signs that nest
    /// deeper than 1,024 levels, or more than 4,194,304 units of work.
    Memory,
}
