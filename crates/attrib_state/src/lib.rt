//! The vertex attributes of a page (OpenGL ES 2.0 sections 2.7 and 2.8, WebGL 1.0 section 5.14.10): of each the array that
//! a draw takes its values from, and the constant that it has where the array is disabled. The contract in one sentence:
//! each call returns the error of the first rule that refuses it and then changes nothing, else it does to the list of the
//! 16 attributes what its name says.
#![tactic(auto)]

mod attrib;
mod attribs;
mod pointer;

pub use attrib::Attrib;
pub use attribs::Attribs;
pub use pointer::{Pointer, STRIDE_MAX};

#[cfg(test)]
mod pointer_tests;
#[cfg(test)]
mod tests;
