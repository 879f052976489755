ghost use Rattle.std.specs.Prelude.{◌≡◌, length, true};
ghost use Rattle.gl_numbers.specs.Fields.{FitsLetters, FitsTail};
ghost use Rattle.command_stream.specs.Operations.{row_of, allows};
ghost use Rattle.command_stream.specs.Commands.{parts_of, operation_of, body_of};

use crate::buffer_commands::{BufferCommand, buffer_command};
use crate::object_commands::{ObjectCommand, object_command};
use crate::operation::Operation;

/// A command for the driver (OpenGL ES 2.0), by its subject. Names of objects are the driver's.
#[derive(Clone, Copy, Debug, PartialEq, Eq)]
pub enum Command<'a> {
    /// Makes or deletes an object.
    Object(ObjectCommand),
    /// Binds a buffer, or gives one its storage or its bytes.
    Buffer(BufferCommand<'a>),
}

/// The command of an operation with this body.
#[inline(always)]
pub fn command_of(operation: Operation, body: &[u8]) -> Command<'_>
    requires { allows operation (length body.now) ≡ true }
    ensures operation { operation_of result ≡ operation }
    ensures body { body_of result ≡ body.now }
    ensures values { FitsLetters (row_of operation).letters (parts_of result).values }
    ensures tail { FitsTail (row_of operation).tail (parts_of result).tail }
{
    match operation {
        Operation::Object(operation) => Command::Object(object_command(operation, body)),
        Operation::Buffer(operation) => Command::Buffer(buffer_command(operation, body)),
    }
}
