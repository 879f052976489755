//! The functions, variables and constants that the shading language has built in (GLSL ES 1.00.17 chapters 7 and 8).
//! `function` and `variable` look a name up in two tables, `FUNCTIONS` and `VARIABLES`, which the definitions in
//! `specs/` read too. Neither takes memory.
#![tactic(auto)]

mod functions;
mod rows;
mod signatures;
#[cfg(test)]
mod tests;
mod variables;

pub use functions::{function, is_function};
pub use rows::{Form, FunctionRow, Stages};
pub use signatures::FUNCTIONS;
pub use variables::{Builtin, VARIABLES, VariableRow, variable};
