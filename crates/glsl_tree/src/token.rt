/// What kind of token a text is (GLSL ES 1.00.17 section 3.6).
#[derive(Clone, Copy, Debug, PartialEq, Eq)]
pub enum Class {
    /// A name that the page may give (section 3.8).
    Identifier,
    /// A word of the language, in use or reserved (section 3.7).
    Keyword,
    /// A decimal, octal or hexadecimal number (section 4.1.2).
    Int,
    /// A number with a point or an exponent (section 4.1.3).
    Float,
    /// An operator or another mark.
    Punct,
    /// The `#` that begins a directive (section 3.4).
    Hash,
    /// The end of a line, of which directives take note (section 3.4).
    NewLine,
    /// The `(` that begins the parameters of a macro: it stands directly after the name that a `#define` defines.
    Params,
}

/// A token: its bytes, its class, and the line that it begins on, counted from 1.
#[derive(Clone, Debug, PartialEq, Eq, Drop)]
pub struct Token {
    /// The bytes of the source that it is spelled with; of a `NewLine` those of the line end.
    pub text: Vec<u8>,
    /// What kind of token it is.
    pub class: Class,
    /// The number of its line in the source, from 1.
    pub line: u32,
}
