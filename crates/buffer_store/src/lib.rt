//! The buffers that a page made: their sizes and usages, the bytes of those that hold indices, and the two
//! bindings (OpenGL ES 2.0 section 2.9, WebGL 1.0 sections 5.14.5 and 6.1). The contract in one sentence: each
//! call returns the error of the first rule that refuses it and then changes nothing, else it does to the plain record
//! `Stored` what its name says.
//!
//! Of a buffer that was first bound to ARRAY_BUFFER only the size is kept, since nothing here reads its bytes.
#![tactic(auto)]

mod buffers;
mod by_handle;
mod content;
mod held;

pub use buffers::Buffers;
pub use content::Content;

#[cfg(test)]
mod tests;
