//! The raster state of a page (OpenGL ES 2.0 sections 2.12.1, 3.5.1, 4.1 and 4.2; WebGL 1.0 sections 5.14.3 and 5.14.4): which
//! capabilities are enabled, and the words that say how fragments are tested, blended and written. The contract in one
//! sentence: each call returns the error of the first rule that refuses it and then changes nothing, else it sets the words
//! that its name says.
#![tactic(auto)]

mod effects;
mod raster;
mod refusals;
mod words;

pub use raster::Raster;
pub use words::{RasterWords, StencilSide};

#[cfg(test)]
mod refusal_tests;
#[cfg(test)]
mod stencil_tests;
#[cfg(test)]
mod tests;
