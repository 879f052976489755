/// What is found of an expression.
#[derive(Clone, Copy)]
pub(crate) struct Finding {
    /// Whether it is a constant expression.
    pub constant: bool,
    /// Whether it is made of constants and loop indices.
    pub made: bool,
    /// The number of the variable that it is, within brackets too.
    pub variable: Option<u32>,
    /// The number of the variable that it is, or is a part of.
    pub root: Option<u32>,
    /// Whether it is the name of the index in the header of whose loop it stands, without brackets.
    pub index: bool,
    /// The number of that index, where it is compared here with a constant expression.
    pub compared: Option<u32>,
    /// Whether a constant expression is added here to that index, or subtracted.
    pub stepped: bool,
}

/// What is found of the arguments of a call.
#[derive(Clone, Copy)]
pub(crate) struct Arguments {
    /// Whether they are made of constants and loop indices.
    pub made: bool,
    /// Whether one of them is the index of a loop, and its parameter gives a value back.
    pub index_out: bool,
}
