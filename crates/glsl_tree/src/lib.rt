//! The tokens of the shading language, and what its source text means as a list of them (GLSL ES 1.00.17 chapter
//! 3). The definitions stand in `specs/`: `source_tokens` gives the tokens of a source by longest match, with each
//! comment as one space, or the line at which no token begins. Every phase of the compiler speaks of these tokens.
//!
//! The trees of the grammar stand here too (chapter 9): expressions, declarations, statements and whole shaders, with
//! the tokens that each is spelled with, what makes it well formed, and its height.
#![tactic(auto)]

mod declarations;
mod expressions;
mod keywords;
mod operators;
mod qualifiers;
mod spell_declarations;
mod spell_expressions;
mod spell_statements;
mod spell_types;
mod statements;
#[cfg(test)]
mod tests;
mod text;
mod token;

pub use declarations::{
    Decl, Declarator, FullType, Head, Member, Parameter, Parameters, SizedName, TypeSpecifier,
};
pub use expressions::{Callee, Expr};
pub use keywords::{KEYWORDS, LARGEST_INT, LONGEST_NAME, is_keyword};
pub use operators::{AssignmentOperator, BinaryOperator, PostfixOperator, PrefixOperator};
pub use qualifiers::{Basic, Direction, Precision, Storage};
pub use spell_statements::{Memory, spell};
pub use statements::{Condition, Item, Start, Stmt, Unit};
pub use text::Text;
pub use token::{Class, Token};
