ghost use Rattle.std.specs.Prelude.{◌≡◌, IfSome};
ghost use Rattle.command_stream.specs.Rows.{IsRow};
ghost use Rattle.command_stream.specs.Operations.{row_of, number_of, operation_numbered, allows};

use crate::buffer_commands::BufferOperation;
use crate::object_commands::ObjectOperation;
use crate::row::Row;

/// What a stream begins with: `ESCS` as a word, the low byte first.
pub const STREAM_MAGIC: u32 = 0x5343_5345;

/// The version that a stream's header names.
pub const STREAM_VERSION: u32 = 1;

/// The bytes of the stream's header: the magic, and the version.
pub const START_BYTES: usize = 8;

/// The bytes of a command's header: its operation, and its body's length in bytes.
pub const HEADER_BYTES: usize = 8;

/// A command's body has at most this many bytes: 16 MiB of data, and 64 bytes for the fields before them.
pub const BODY_MAX: u32 = 16_777_280;

/// What a command asks of the driver, by its subject.
#[derive(Clone, Copy)]
pub enum Operation {
    /// An operation on objects.
    Object(ObjectOperation),
    /// An operation on buffers.
    Buffer(BufferOperation),
}

impl Operation {
    /// The operation's row of the table.
    #[inline]
    fn row(self) -> Row
        ensures { IsRow result (row_of self) }
    {
        match self {
            Operation::Object(operation) => operation.row(),
            Operation::Buffer(operation) => operation.row(),
        }
    }

    /// The number that stands for the operation in a command's header.
    #[inline]
    pub fn number(self) -> u32
        ensures { result ≡ number_of self }
    {
        self.row().number
    }

    /// The operation of this number; None exactly where the table has none.
    #[inline]
    pub fn numbered(n: u32) -> Option<Self>
        ensures found { result ≡ operation_numbered n }
        ensures number { IfSome result (λ operation. number_of operation ≡ n) }
    {
        ObjectOperation::numbered(n)
            .map(Operation::Object)
            .or_else(|| BufferOperation::numbered(n).map(Operation::Buffer))
    }

    /// Whether a body of `len` bytes is one of this operation's.
    #[inline]
    pub fn allows(self, len: u32) -> bool
        ensures { result ≡ allows self len }
    {
        self.row().allows(len)
    }
}
