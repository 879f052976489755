ghost use Rattle.std.specs.Prelude.{◌≡◌, length, true, IfSome};
ghost use Rattle.wire_io.specs.Faults.{HasCause};
ghost use Rattle.wire_io.specs.Sinks.{Sends};
ghost use Rattle.command_stream.specs.declared.operation.Operation.TheVariants.{Object};
ghost use Rattle.gl_numbers.specs.Fields as Fields;
ghost use Rattle.gl_numbers.specs.Fields.{FitsLetters, FitsTail};
ghost use Rattle.command_stream.specs.Rows.{IsRow};
ghost use Rattle.command_stream.specs.Operations.{allows};
ghost use Rattle.command_stream.specs.ObjectCommands.{object_row, object_numbered, object_parts};
ghost use Rattle.command_stream.specs.Commands.{encoding_of};

use crate::operation::Operation;
use crate::row::Row;
use crate::write::write_words;
use gl_numbers::{Tail, u32_at};
use wire_io::{Failed, Sink};

/// What is done to the driver's objects (OpenGL ES 2.0 section 2.9).
#[derive(Clone, Copy, Debug, PartialEq, Eq)]
pub enum ObjectCommand {
    /// Makes a buffer of this name.
    MakeBuffer(u32),
    /// Deletes the buffer of this name; where it is bound, its targets have none.
    DropBuffer(u32),
}

/// The operations on objects.
#[derive(Clone, Copy)]
pub enum ObjectOperation {
    MakeBuffer,
    DropBuffer,
}

impl ObjectOperation {
    const ALL: [ObjectOperation; 2] = [ObjectOperation::MakeBuffer, ObjectOperation::DropBuffer];

    /// The operation's row of the table.
    #[inline]
    pub fn row(self) -> Row
        ensures { IsRow result (object_row self) }
    {
        match self {
            ObjectOperation::MakeBuffer => Row {
                number: 1,
                field_bytes: 4,
                tail: Tail::Nothing,
            },
            ObjectOperation::DropBuffer => Row {
                number: 6,
                field_bytes: 4,
                tail: Tail::Nothing,
            },
        }
    }

    /// The operation of this number; None exactly where there is none.
    #[inline(always)]
    #[tactic(auto, unfolding(crate::specs::ObjectCommands::object_numbered))]
    pub fn numbered(n: u32) -> Option<Self>
        ensures found { result ≡ object_numbered n }
        ensures number { IfSome result (λ operation. (object_row operation).number ≡ n) }
    {
        Self::ALL
            .iter()
            .copied()
            .find(|operation| operation.row().number == n)
    }
}

/// The command of an operation with this body.
#[inline(always)]
pub fn object_command(operation: ObjectOperation, body: &[u8]) -> ObjectCommand
    requires { allows (Object operation) (length body.now) ≡ true }
    ensures operation { (object_parts result).operation ≡ Object operation }
    ensures body { Fields.body (object_parts result) ≡ body.now }
    ensures values { FitsLetters (object_row operation).letters (object_parts result).values }
    ensures tail { FitsTail (object_row operation).tail (object_parts result).tail }
{
    match operation {
        ObjectOperation::MakeBuffer => ObjectCommand::MakeBuffer(u32_at(body)),
        ObjectOperation::DropBuffer => ObjectCommand::DropBuffer(u32_at(body)),
    }
}

/// Writes a command's header and body.
#[inline(always)]
pub fn write_object_command<S: Sink>(c: &ObjectCommand, stream: &mut S) -> Result<(), Failed>
    ensures bytes { Sends (S.held stream.old) (S.held stream.new) result (encoding_of (object_parts c.now)) }
    ensures cause { HasCause (S.faults stream.old) (S.faults stream.new) result }
{
    match c {
        ObjectCommand::MakeBuffer(name) => {
            write_words(
                Operation::Object(ObjectOperation::MakeBuffer),
                &[*name],
                stream,
            )
        }
        ObjectCommand::DropBuffer(name) => {
            write_words(
                Operation::Object(ObjectOperation::DropBuffer),
                &[*name],
                stream,
            )
        }
    }
}
