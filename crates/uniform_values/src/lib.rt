//! The values of a program's uniforms (OpenGL ES 2.0 section 2.10.4, WebGL 1.0 section 5.14.10): the words that uniform calls
//! give them and that draws and getUniform read. Each element of an active uniform has a slot, and the words of all slots lie
//! one after another. The contract in one sentence: `set` returns the error of the first rule that refuses it and then changes
//! nothing, else it writes the words from the slot's place on, at most to the end of the array.
#![tactic(auto)]

mod judging;
mod kinds;
mod slots;
mod tails;
mod values;

pub use kinds::kind_type;
pub use slots::{Slot, elements};
pub use tails::Tail32;
pub use values::Values;

#[cfg(test)]
mod refusal_tests;
#[cfg(test)]
mod tests;
