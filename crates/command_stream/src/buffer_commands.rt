ghost use Rattle.std.specs.Prelude.{◌≡◌, ◌≤◌, ◌+◌, ◌++◌, length, true, IfSome};
ghost use Rattle.wire_io.specs.Faults.{HasCause};
ghost use Rattle.wire_io.specs.Sinks.{Sends};
ghost use Rattle.command_stream.specs.declared.operation.Operation.TheVariants.{Buffer};
ghost use Rattle.gl_numbers.specs.Fields as Fields;
ghost use Rattle.gl_numbers.specs.Fields.{FitsLetters, FitsTail};
ghost use Rattle.command_stream.specs.Rows.{IsRow};
ghost use Rattle.command_stream.specs.Operations.{allows, body_max};
ghost use Rattle.command_stream.specs.BufferCommands.{buffer_row, buffer_numbered, buffer_parts};
ghost use Rattle.command_stream.specs.declared.buffer_commands.BufferCommand.TheVariants.{BufferSize, BufferBytes};
ghost use Rattle.command_stream.specs.Commands.{encoding_of};

use crate::operation::Operation;
use crate::row::Row;
use crate::write::{write_head, write_with_bytes, write_words};
use gl_numbers::{Tail, u32_at};
use wire_io::{Failed, Sink, write_all};

/// What is done to the buffer targets and to the buffers bound to them (OpenGL ES 2.0 section 2.9). Targets and
/// usages are GL words; sizes and offsets are bytes.
#[derive(Clone, Copy, Debug, PartialEq, Eq)]
pub enum BufferCommand<'a> {
    /// Binds to the target the buffer of this name, or none where the name is 0.
    BindBuffer {
        target: u32,
        name: u32,
    },
    /// Gives the buffer bound to the target this usage and this size, with zero bytes.
    BufferSize {
        target: u32,
        usage: u32,
        size: u32,
    },
    /// Writes the bytes into the buffer bound to the target, from the offset on.
    BufferBytes {
        target: u32,
        offset: u32,
        bytes: &'a [u8],
    },
}

/// The operations on buffers.
#[derive(Clone, Copy)]
pub enum BufferOperation {
    BindBuffer,
    BufferSize,
    BufferBytes,
}

impl BufferOperation {
    const ALL: [BufferOperation; 3] = [
        BufferOperation::BindBuffer,
        BufferOperation::BufferSize,
        BufferOperation::BufferBytes,
    ];

    /// The operation's row of the table.
    #[inline]
    pub fn row(self) -> Row
        ensures { IsRow result (buffer_row self) }
    {
        match self {
            BufferOperation::BindBuffer => Row {
                number: 11,
                field_bytes: 8,
                tail: Tail::Nothing,
            },
            BufferOperation::BufferSize => Row {
                number: 12,
                field_bytes: 12,
                tail: Tail::Nothing,
            },
            BufferOperation::BufferBytes => Row {
                number: 13,
                field_bytes: 8,
                tail: Tail::Bytes,
            },
        }
    }

    /// The operation of this number; None exactly where there is none.
    #[inline(always)]
    #[tactic(auto, unfolding(crate::specs::BufferCommands::buffer_numbered))]
    pub fn numbered(n: u32) -> Option<Self>
        ensures found { result ≡ buffer_numbered n }
        ensures number { IfSome result (λ operation. (buffer_row operation).number ≡ n) }
    {
        Self::ALL
            .iter()
            .copied()
            .find(|operation| operation.row().number == n)
    }
}

/// The command of an operation with this body.
#[inline(always)]
pub fn buffer_command(operation: BufferOperation, body: &[u8]) -> BufferCommand<'_>
    requires { allows (Buffer operation) (length body.now) ≡ true }
    ensures operation { (buffer_parts result).operation ≡ Buffer operation }
    ensures body { Fields.body (buffer_parts result) ≡ body.now }
    ensures values { FitsLetters (buffer_row operation).letters (buffer_parts result).values }
    ensures tail { FitsTail (buffer_row operation).tail (buffer_parts result).tail }
{
    match operation {
        BufferOperation::BindBuffer => BufferCommand::BindBuffer {
            target: u32_at(body),
            name: u32_at(&body[4..]),
        },
        BufferOperation::BufferSize => BufferCommand::BufferSize {
            target: u32_at(body),
            usage: u32_at(&body[4..]),
            size: u32_at(&body[8..]),
        },
        BufferOperation::BufferBytes => BufferCommand::BufferBytes {
            target: u32_at(body),
            offset: u32_at(&body[4..]),
            bytes: &body[8..],
        },
    }
}

/// Writes a command's header and body; its bytes are not copied.
#[inline(always)]
pub fn write_buffer_command<S: Sink>(c: &BufferCommand<'_>, stream: &mut S) -> Result<(), Failed>
    requires { length (Fields.body (buffer_parts c.now)) ≤ body_max }
    ensures bytes { Sends (S.held stream.old) (S.held stream.new) result (encoding_of (buffer_parts c.now)) }
    ensures cause { HasCause (S.faults stream.old) (S.faults stream.new) result }
{
    match c {
        BufferCommand::BindBuffer { target, name } => {
            let operation = Operation::Buffer(BufferOperation::BindBuffer);
            write_words(operation, &[*target, *name], stream)
        }
        BufferCommand::BufferSize {
            target,
            usage,
            size,
        } => {
            let operation = Operation::Buffer(BufferOperation::BufferSize);
            write_words(operation, &[*target, *usage, *size], stream)
        }
        BufferCommand::BufferBytes {
            target,
            offset,
            bytes,
        } => {
            let operation = Operation::Buffer(BufferOperation::BufferBytes);
            write_with_bytes(operation, &[*target, *offset], bytes, stream)
        }
    }
}

/// Writes what gives the buffer bound to a target its content: BufferSize of the bytes' length, and then BufferBytes of all of them.
/// What stands before the bytes is one write, and they are not copied. After Failed a prefix was appended.
#[inline(always)]
pub fn write_filled<S: Sink>(
    target: u32,
    usage: u32,
    bytes: &[u8],
    stream: &mut S,
) -> Result<(), Failed>
    requires { 8 + length bytes.now ≤ body_max }
    ensures bytes { Sends (S.held stream.old) (S.held stream.new) result
        (encoding_of (buffer_parts (BufferSize target usage (length bytes.now))) ++ encoding_of (buffer_parts (BufferBytes target 0 bytes.entry))) }
    ensures cause { HasCause (S.faults stream.old) (S.faults stream.new) result }
{
    let size = Operation::Buffer(BufferOperation::BufferSize);
    let filled = Operation::Buffer(BufferOperation::BufferBytes);
    let len = bytes.len() as u32;
    let words = [target, usage, len, filled.number(), 8 + len, target, 0];
    let Ok(()) = write_head(size.number(), 12, &words, stream) else {
        return Err(Failed);
    };
    write_all(bytes, stream)
}
