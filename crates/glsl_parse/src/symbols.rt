//! What a token may be in the grammar.

ghost use Rattle.std.specs.Prelude.{◌≡◌};
ghost use Rattle.glsl_tree.specs.Operators.{binary_level};
ghost use Rattle.glsl_parse.specs.Symbols.{infix_level, level_before};

use glsl_tree::{
    AssignmentOperator, BinaryOperator, Condition, Decl, Expr, Head, PostfixOperator, Start,
};

/// What may join an expression to what stands after it (GLSL ES 1.00.17 section 5.1).
#[derive(Clone, Copy)]
pub enum Infix {
    /// An operator between two operands.
    Binary(BinaryOperator),
    /// `?`
    Conditional,
    /// An assignment.
    Assign(AssignmentOperator),
}

/// How tightly an operator between two operands binds (section 5.1).
pub fn binary_level(operator: BinaryOperator) -> u32
    ensures { result ≡ binary_level operator }
{
    match operator {
        BinaryOperator::Comma => 0,
        BinaryOperator::Or => 3,
        BinaryOperator::Xor => 4,
        BinaryOperator::And => 5,
        BinaryOperator::Equal | BinaryOperator::NotEqual => 6,
        BinaryOperator::Less
        | BinaryOperator::Greater
        | BinaryOperator::LessEqual
        | BinaryOperator::GreaterEqual => 7,
        BinaryOperator::Add | BinaryOperator::Subtract => 8,
        BinaryOperator::Multiply | BinaryOperator::Divide => 9,
    }
}

impl Infix {
    /// The level of the expression that it makes.
    pub fn level(self) -> u32
        ensures { result ≡ infix_level self }
    {
        match self {
            Infix::Binary(operator) => binary_level(operator),
            Infix::Conditional => 2,
            Infix::Assign(_) => 1,
        }
    }

    /// The level that the expression before it must have at least.
    pub fn level_before(self) -> u32
        ensures { result ≡ level_before self }
    {
        match self {
            Infix::Binary(same) => binary_level(same),
            Infix::Conditional => 3,
            Infix::Assign(_) => 10,
        }
    }
}

/// What may stand directly after a primary expression (section 5.1).
#[derive(Clone, Copy)]
pub enum Suffix {
    /// `[`
    Index,
    /// `.`
    Field,
    /// `++` or `--`
    Step(PostfixOperator),
}

/// What the first token of a statement says of it (chapter 6).
#[derive(Clone, Copy)]
pub enum Leader {
    /// `{`
    Block,
    /// `;`
    Empty,
    /// `if`
    If,
    /// `while`
    While,
    /// `do`
    Do,
    /// `for`
    For,
    /// `break`
    Break,
    /// `continue`
    Continue,
    /// `discard`
    Discard,
    /// `return`
    Return,
    /// An expression or a declaration.
    Other,
}

/// A declaration as far as its type, its names and their values; or a function's head, which a semicolon or a body ends.
#[derive(Drop)]
pub enum Begun {
    /// A function's head, before what ends it.
    Headed(Head),
    /// A whole declaration, with its semicolon.
    Whole(Decl),
}

/// The three parts in the brackets of a `for` (section 6.3).
#[derive(Drop)]
pub struct Header {
    /// What runs before the loop.
    pub start: Start,
    /// The condition.
    pub condition: Option<Condition>,
    /// What runs after each turn.
    pub step: Option<Expr>,
}
