//! The linking of programs (OpenGL ES 2.0 section 2.10.4, GLSL ES 1.00.17 sections 4.3.3 to 4.3.5 and appendix A section 7): the
//! locations that a page bound, the link of two shaders' interfaces, and what an executable tells of its attributes and
//! uniforms. The contract in one sentence: `link` returns the first rule from the fourth on that the shaders break, else the
//! active attributes with their locations and the active uniforms with their slots, and the look-ups and `Values` answer by
//! these lists and the words that were set.
#![tactic(auto)]

mod active;
mod bindings;
mod errors;
mod executable;
mod flattening;
mod items;
mod leaves;
mod linking;
mod locations;
mod names;
mod room;
mod shapes;
mod type_words;
mod values;

pub use active::Active;
pub use bindings::Bindings;
pub use errors::Link;
pub use executable::Executable;
pub use linking::link;
pub use values::Values;

#[cfg(test)]
mod bounds_tests;
#[cfg(test)]
mod fixtures;
#[cfg(test)]
mod link_tests;
#[cfg(test)]
mod look_up_tests;
#[cfg(test)]
mod program_tests;
