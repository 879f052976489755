use crate::operators::{AssignmentOperator, BinaryOperator, PostfixOperator, PrefixOperator};
use crate::qualifiers::Basic;
use crate::text::Text;
use sqlite_items::{Boxed, Items};

/// What a call names: a function or a structure, or a basic type whose constructor is called (GLSL ES 1.00.17 sections
/// 5.4 and 6.1).
#[derive(Drop)]
pub enum Callee {
    /// A function or a structure.
    Name(Text),
    /// A constructor of a basic type.
    Basic(Basic),
}

/// An expression (GLSL ES 1.00.17 chapter 5, and `expression` of chapter 9). Brackets are nodes.
#[derive(Drop)]
pub enum Expr {
    /// A name.
    Name(Text),
    /// An integer.
    Int(Text),
    /// A number with a point or an exponent.
    Float(Text),
    /// `true` or `false`.
    Truth(bool),
    /// An expression in brackets.
    Bracket(Boxed<Expr>),
    /// A call with any number of arguments.
    Call {
        /// What is called.
        callee: Callee,
        /// The arguments in order.
        arguments: Items<Expr>,
    },
    /// A call with `void` in place of arguments.
    CallVoid {
        /// What is called.
        callee: Callee,
    },
    /// An element or a component, `base[index]`.
    Index {
        /// What has the elements.
        base: Boxed<Expr>,
        /// Which of them.
        index: Boxed<Expr>,
    },
    /// A field or a swizzle, `base.name`.
    Field {
        /// What has the field.
        base: Boxed<Expr>,
        /// The field's name, or the components.
        name: Text,
    },
    /// An operator after its operand.
    Postfix {
        /// The operand.
        operand: Boxed<Expr>,
        /// The operator.
        operator: PostfixOperator,
    },
    /// An operator before its operand.
    Prefix {
        /// The operator.
        operator: PrefixOperator,
        /// The operand.
        operand: Boxed<Expr>,
    },
    /// An operator between two operands.
    Binary {
        /// The operator.
        operator: BinaryOperator,
        /// The operand before it.
        left: Boxed<Expr>,
        /// The operand after it.
        right: Boxed<Expr>,
    },
    /// `condition ? if_true : if_false`
    Conditional {
        /// The condition.
        condition: Boxed<Expr>,
        /// The value where it is true.
        if_true: Boxed<Expr>,
        /// The value where it is false.
        if_false: Boxed<Expr>,
    },
    /// An assignment to a place.
    Assign {
        /// The operator.
        operator: AssignmentOperator,
        /// The place.
        target: Boxed<Expr>,
        /// The new value, or the other operand.
        value: Boxed<Expr>,
    },
}
