//! The operators and the words of the grammar.

use glsl_tree::{
    AssignmentOperator, Basic, BinaryOperator, Direction, PostfixOperator, Precision,
    PrefixOperator,
};

/// The operators between two operands.
pub const BINARY_OPERATORS: [BinaryOperator; 14] = [
    BinaryOperator::Comma,
    BinaryOperator::Or,
    BinaryOperator::Xor,
    BinaryOperator::And,
    BinaryOperator::Equal,
    BinaryOperator::NotEqual,
    BinaryOperator::Less,
    BinaryOperator::Greater,
    BinaryOperator::LessEqual,
    BinaryOperator::GreaterEqual,
    BinaryOperator::Add,
    BinaryOperator::Subtract,
    BinaryOperator::Multiply,
    BinaryOperator::Divide,
];

/// The assignments.
pub const ASSIGNMENT_OPERATORS: [AssignmentOperator; 5] = [
    AssignmentOperator::Assign,
    AssignmentOperator::Add,
    AssignmentOperator::Subtract,
    AssignmentOperator::Multiply,
    AssignmentOperator::Divide,
];

/// The operators before their operand.
pub const PREFIX_OPERATORS: [PrefixOperator; 5] = [
    PrefixOperator::Increment,
    PrefixOperator::Decrement,
    PrefixOperator::Plus,
    PrefixOperator::Minus,
    PrefixOperator::Not,
];

/// The operators after their operand.
pub const POSTFIX_OPERATORS: [PostfixOperator; 2] = [
    PostfixOperator::Increment,
    PostfixOperator::Decrement,
];

/// The basic types.
pub const BASIC_TYPES: [Basic; 17] = [
    Basic::Float,
    Basic::Int,
    Basic::Bool,
    Basic::Vec2,
    Basic::Vec3,
    Basic::Vec4,
    Basic::IVec2,
    Basic::IVec3,
    Basic::IVec4,
    Basic::BVec2,
    Basic::BVec3,
    Basic::BVec4,
    Basic::Mat2,
    Basic::Mat3,
    Basic::Mat4,
    Basic::Sampler2D,
    Basic::SamplerCube,
];

/// The precisions.
pub const PRECISIONS: [Precision; 3] = [Precision::Low, Precision::Medium, Precision::High];

/// The directions of a parameter.
pub const DIRECTIONS: [Direction; 3] = [Direction::In, Direction::Out, Direction::InOut];
