//! The driver's machine: an OpenGL ES 2.0 driver as far as a stream of commands can tell (OpenGL ES 2.0 section 2.9).
//! It keeps every buffer with all its bytes, and what is bound. The contract in one sentence: each command does what the
//! driver's step does from the state that the machine stands for, and a command that has a fault changes nothing.
#![tactic(auto)]

mod buffer_commands;
mod buffer_object;
mod by_name;
mod faults;
mod machine;
mod object_commands;
mod storage;

pub use faults::{Fault, Shot};
pub use machine::Machine;
