//! The driver's stream, this project's own format: a header, and then commands for an OpenGL ES 2.0 driver, each
//! an operation, the length of its body and the body, which is words and, for some commands, bytes at the end.
//! Every word is little-endian. The contract in one sentence: what is written is a command's encoding, or after
//! a fault a prefix of it, and no two lists of commands have the same bytes.
#![tactic(auto)]

mod bad;
mod buffer_commands;
mod command;
mod decoder;
mod object_commands;
mod operation;
mod room;
mod row;
mod taking;
mod write;

pub use bad::Bad;
pub use buffer_commands::{BufferCommand, write_buffer_command, write_filled};
pub use command::Command;
pub use decoder::Decoder;
pub use object_commands::{ObjectCommand, write_object_command};
pub use operation::{BODY_MAX, HEADER_BYTES, START_BYTES, STREAM_MAGIC, STREAM_VERSION};
pub use write::{write_command, write_start};

#[cfg(test)]
mod decoder_tests;
#[cfg(test)]
mod tests;
