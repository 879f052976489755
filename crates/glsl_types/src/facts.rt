use crate::sequence::Sequence;
use crate::types::SlType;

/// What is known of one component of a constant expression (GLSL ES 1.00.17 section 5.10).
#[derive(Clone, Copy, Debug, PartialEq, Eq)]
pub enum Const {
    /// A whole number.
    Int(i32),
    /// A truth value.
    Truth(bool),
    /// A number with a fraction, whose value is not kept.
    Float,
}

/// What is known of an expression.
#[derive(Debug, Drop)]
pub struct Known {
    /// Its type; None of a call of a function that returns nothing.
    pub kind: Option<SlType>,
    /// What is known of each component in order; empty where the expression is not constant.
    pub constant: Sequence<Const>,
}

/// What is known of the names and of the expressions of a shader, each list in source order, parts before the whole.
#[derive(Debug, Drop)]
pub struct Facts {
    /// For each name in an expression, field names aside, the number of its first declaration, from 1 in source order;
    /// 0 of a built-in. Of a called function it is the first declaration with these parameter types.
    pub places: Sequence<u32>,
    /// For each expression, what is known of it.
    pub exprs: Sequence<Known>,
}
