use thiserror::Error;

/// A read, write or flush failed; the object that failed has counted it.
#[derive(Clone, Copy, Debug, PartialEq, Eq)]
pub struct Failed;

/// How a run of the tool ended. Offsets are bytes from the input's first, and `kind` says what was refused
/// there. The exit status of the program is the variant's place, from 0.
#[derive(Clone, Copy, Debug, PartialEq, Eq, Error)]
pub enum Status {
    /// All of the input was read and served.
    #[error("ok")]
    Ok,
    /// There was not enough memory.
    #[error("out of memory")]
    OutOfMemory,
    /// The words of the command line are not those of a command.
    #[error("usage")]
    Usage,
    /// The input is refused at this byte.
    #[error("bad input at {at} kind {kind}")]
    BadInput { at: u64, kind: u32 },
    /// The input ended early; `at` is its length.
    #[error("truncated at {at}")]
    Truncated { at: u64 },
    /// The input could not be read.
    #[error("read fault")]
    ReadFault,
    /// An output could not be written.
    #[error("write fault")]
    WriteFault,
    /// The driver's machine refused this command, counted from 1; `code` is the GL code, or 1 for a fetch
    /// outside a buffer.
    #[error("replay fault at command {command} code {code}")]
    ReplayFault { command: u64, code: u32 },
}
