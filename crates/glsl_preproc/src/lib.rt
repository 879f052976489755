//! From the tokens of a shader to those that its directives and macros leave (GLSL ES 1.00.17 section 3.4).
//!
//! `expand` reads the lines of a shader in order. A line that a `#` begins is a directive; a group that a condition
//! leaves out is skipped; every other line is text, in which the uses of macros are replaced. The answer is what
//! `Expansion` says of these tokens, or the line of the first directive or use of a macro that the section refuses.
#![tactic(auto)]

mod brackets;
mod budget;
mod calls;
mod conditional_steps;
mod conditionals;
mod conditions;
mod defined;
mod directive_steps;
mod directives;
mod errors;
mod expander;
mod hashes;
mod kinds;
mod macro_table;
mod macros;
mod names;
mod numbers;
mod operators;
mod output;
mod parameters;
mod pieces;
mod reader;
mod run;
mod tokens;
mod values;

pub use errors::Pre;
pub use run::expand;

#[cfg(test)]
mod cases;
#[cfg(test)]
mod tests;
