ghost use Rattle.std.specs.Prelude.{◌≡◌};
ghost use Rattle.session_run.specs.Statuses.{status_of_end};

use crate::kinds::{KIND_HEADER_LATE, KIND_MAGIC, KIND_OPERATION, KIND_VERSION};
use wire_io::Status;

/// Why a stream was not replayed to its end. Each offset counts bytes from the stream's first.
#[derive(Clone, Copy, Debug, PartialEq, Eq)]
pub enum ReplayEnd {
    /// The input ended inside the stream's header or a command; at its length.
    Truncated(u64),
    /// The stream doesn't begin with `ESCS`.
    Magic,
    /// The stream's version isn't 1.
    Version,
    /// A command's header is refused: its operation isn't in the table, or its length isn't one that the operation allows;
    /// at the command's first byte.
    Refused(u64),
    /// A command's header would end past byte 2^62; at its first byte.
    Late(u64),
    /// The driver's machine refused the command of this number, counted from 1, with this code.
    Faults(u64, u32),
    /// Memory was wanting.
    Memory,
    /// The source failed.
    Read,
}

impl ReplayEnd {
    /// The status of a replay that stopped so.
    pub fn status(self) -> Status
        ensures { result ≡ status_of_end self }
    {
        match self {
            ReplayEnd::Truncated(at) => Status::Truncated { at },
            ReplayEnd::Magic => Status::BadInput {
                at: 0,
                kind: KIND_MAGIC,
            },
            ReplayEnd::Version => Status::BadInput {
                at: 4,
                kind: KIND_VERSION,
            },
            ReplayEnd::Refused(at) => Status::BadInput {
                at,
                kind: KIND_OPERATION,
            },
            ReplayEnd::Late(at) => Status::BadInput {
                at,
                kind: KIND_HEADER_LATE,
            },
            ReplayEnd::Faults(command, code) => Status::ReplayFault { command, code },
            ReplayEnd::Memory => Status::OutOfMemory,
            ReplayEnd::Read => Status::ReadFault,
        }
    }
}
