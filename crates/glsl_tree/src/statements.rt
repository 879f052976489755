use crate::declarations::{Decl, FullType, Head};
use crate::expressions::Expr;
use crate::text::Text;
use sqlite_items::{Boxed, Items};

/// The condition of a loop (GLSL ES 1.00.17 section 6.3).
#[derive(Drop)]
pub enum Condition {
    /// An expression.
    Expression(Expr),
    /// A declaration with its value.
    Declared {
        /// The type.
        full_type: FullType,
        /// The name.
        name: Text,
        /// The value.
        value: Expr,
    },
}

/// The first part in the brackets of a `for` (section 6.3).
#[derive(Drop)]
pub enum Start {
    /// A semicolon alone.
    Empty,
    /// An expression.
    Expression(Expr),
    /// A declaration.
    Declaration(Decl),
}

/// A statement (chapter 6, and `statement` of chapter 9).
#[derive(Drop)]
pub enum Stmt {
    /// Statements in braces.
    Block(Items<Stmt>),
    /// A declaration.
    Declaration(Decl),
    /// A semicolon alone.
    Empty,
    /// An expression.
    Expression(Expr),
    /// A choice, with the second branch after `else` (section 6.2).
    If {
        /// The condition.
        condition: Expr,
        /// What runs where it is true.
        then: Boxed<Stmt>,
        /// What runs where it is false.
        otherwise: Option<Boxed<Stmt>>,
    },
    /// A `while` loop (section 6.3).
    While {
        /// The condition.
        condition: Condition,
        /// The body.
        body: Boxed<Stmt>,
    },
    /// A `do` loop.
    Do {
        /// The body.
        body: Boxed<Stmt>,
        /// The condition.
        condition: Expr,
    },
    /// A `for` loop.
    For {
        /// What runs before it.
        start: Start,
        /// The condition.
        condition: Option<Condition>,
        /// What runs after each turn.
        step: Option<Expr>,
        /// The body.
        body: Boxed<Stmt>,
    },
    /// `break` (section 6.4)
    Break,
    /// `continue`
    Continue,
    /// `discard`
    Discard,
    /// `return`, with a value or without.
    Return(Option<Expr>),
}

/// A declaration or a function (chapter 9, `external_declaration`).
#[derive(Drop)]
pub enum Item {
    /// A declaration.
    Declaration(Decl),
    /// A function with its body.
    Function {
        /// Its head.
        head: Head,
        /// The statements of its body.
        body: Items<Stmt>,
    },
}

/// A shader: its declarations and functions in order (chapter 9, `translation_unit`).
#[derive(Drop)]
pub struct Unit {
    /// The declarations and functions.
    pub items: Items<Item>,
}
