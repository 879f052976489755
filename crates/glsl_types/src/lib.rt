//! The types of the shading language (GLSL ES 1.00.17 chapter 4), and what is known of a shader that was checked: the
//! type and the constant of each expression, which declaration each name means, and the interface to the other stage
//! and to the page. Each function on types equals its definition in `specs/Bases.antt`.
#![tactic(auto)]

mod bases;
mod facts;
mod interface;
mod sequence;
#[cfg(test)]
mod tests;
mod types;

pub use bases::{Base, Component};
pub use facts::{Const, Facts, Known};
pub use interface::{Interface, Item};
pub use sequence::Sequence;
pub use types::{Field, Precision, SlType, Struct};
