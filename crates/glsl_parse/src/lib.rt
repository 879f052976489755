//! The grammar of the shading language (GLSL ES 1.00.17 chapter 9): the tree that a list of tokens spells. A shader has
//! at most one tree, and it has a height of at most 128.
#![tactic(auto)]

mod arguments;
mod conditions;
mod declarations;
mod errors;
mod expressions;
mod nodes;
mod parameters;
mod primaries;
mod qualifiers;
mod statements;
mod symbols;
mod tables;
mod tokens;
mod types;
mod units;

pub use errors::Parse;
pub use units::parse;

#[cfg(test)]
mod cases;
#[cfg(test)]
mod tests;
