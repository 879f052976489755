//! Index bytes that are lent in blocks of 64, and a counter of what was lent (this project's own). The contract
//! in one sentence: the content of `Bytes` is seen by code through `block` alone, and each call of it adds one
//! to the counter that it is given.
//!
//! The counter `Steps` takes no memory and no time when the program runs: its numbers are for contracts alone.
#![tactic(auto)]

mod bytes;
mod steps;

pub use bytes::{BLOCK_BYTES, Bytes};
pub use steps::Steps;

#[cfg(test)]
mod tests;
