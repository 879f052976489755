//! The outside: where bytes come from and where they go, over memory, standard streams and files, and the
//! status that a run of the tool ends with. The contract in one sentence: bytes taken are a prefix of what is
//! left, bytes written are a prefix of the piece, and an error is returned only where the object's count of
//! faults rose.
#![tactic(auto)]

mod buffer;
mod copies;
#[cfg(test)]
mod fakes;
mod lazy_file;
mod memory;
mod sink;
mod source;
mod standard;
mod status;

pub use lazy_file::LazyFile;
pub use memory::{MemSink, MemSource};
pub use sink::{Sink, write_all};
pub use source::{Source, read_full};
pub use standard::{StdSink, StdSource};
pub use status::{Failed, Status};

#[cfg(test)]
mod tests;
