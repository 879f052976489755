ghost use Rattle.std.specs.Prelude.{◌≡◌, ◌+◌, ◌*◌, ◌≤◌, [], ◌++◌, length};
ghost use Rattle.std.specs.List.{flat_map};
ghost use Rattle.gl_numbers.specs.Bytes.{le32};
ghost use Rattle.wire_io.specs.Faults.{HasCause};
ghost use Rattle.wire_io.specs.Sinks.{Sends};
ghost use Rattle.gl_numbers.specs.Fields.{body};
ghost use Rattle.command_stream.specs.Operations.{body_max};
ghost use Rattle.command_stream.specs.Commands.{Allowed, command_encoding, with_words, encoding_of, stream_start};

use crate::buffer_commands::write_buffer_command;
use crate::command::Command;
use crate::object_commands::write_object_command;
use crate::operation::{HEADER_BYTES, Operation, STREAM_MAGIC, STREAM_VERSION};
use crate::taking::hold;
use gl_numbers::{two_words, word_bytes};
use wire_io::{Failed, Sink, write_all};

/// No operation has more fields, counted in words.
const WORDS_MAX: usize = 8;

/// The bytes of a header and of the fields of any operation.
const HEAD_MAX: usize = 40;

/// The stream's header.
#[tactic(auto, unfolding(gl_numbers::specs::Bytes::le32))]
pub fn start() -> [u8; 8]
    ensures { result ≡ stream_start }
{
    two_words(STREAM_MAGIC, STREAM_VERSION)
}

/// Writes the stream's header; after Failed a prefix of it was appended.
pub fn write_start<S: Sink>(stream: &mut S) -> Result<(), Failed>
    ensures bytes { Sends (S.held stream.old) (S.held stream.new) result stream_start }
    ensures cause { HasCause (S.faults stream.old) (S.faults stream.new) result }
{
    write_all(&start(), stream)
}

/// Writes a command's header and its fields, as words.
#[inline(always)]
pub fn write_head<S: Sink>(
    number: u32,
    len: u32,
    words: &[u32],
    stream: &mut S,
) -> Result<(), Failed>
    requires { length words.now ≤ WORDS_MAX }
    ensures bytes { Sends (S.held stream.old) (S.held stream.new) result (le32 number ++ (le32 len ++ flat_map le32 words.now)) }
    ensures cause { HasCause (S.faults stream.old) (S.faults stream.new) result }
{
    let mut head = [0; HEAD_MAX];
    hold(&mut head, 0, &word_bytes(number));
    hold(&mut head, 4, &word_bytes(len));
    let mut held = HEADER_BYTES;
    for word in words {
        hold(&mut head, held, &word_bytes(*word));
        held += 4;
    }
    write_all(&head[..held], stream)
}

/// Writes a command whose fields are these words, with nothing after them.
#[inline(always)]
pub fn write_words<S: Sink>(
    operation: Operation,
    words: &[u32],
    stream: &mut S,
) -> Result<(), Failed>
    requires { length words.now ≤ WORDS_MAX }
    ensures bytes { Sends (S.held stream.old) (S.held stream.new) result (encoding_of (with_words operation words.now [])) }
    ensures cause { HasCause (S.faults stream.old) (S.faults stream.new) result }
{
    write_head(operation.number(), 4 * words.len() as u32, words, stream)
}

/// Writes a command whose fields are these words, with the bytes after them, which are not copied.
#[inline(always)]
pub fn write_with_bytes<S: Sink>(
    operation: Operation,
    words: &[u32],
    bytes: &[u8],
    stream: &mut S,
) -> Result<(), Failed>
    requires few { length words.now ≤ WORDS_MAX }
    requires short { length (body (with_words operation words.now bytes.now)) ≤ body_max }
    ensures bytes { Sends (S.held stream.old) (S.held stream.new) result (encoding_of (with_words operation words.now bytes.now)) }
    ensures cause { HasCause (S.faults stream.old) (S.faults stream.new) result }
{
    let len = 4 * words.len() as u32 + bytes.len() as u32;
    let Ok(()) = write_head(operation.number(), len, words, stream) else {
        return Err(Failed);
    };
    write_all(bytes, stream)
}

/// Writes a command's header and body; after Failed a prefix of them was appended. Its bytes are not copied.
#[inline(always)]
pub fn write_command<S: Sink>(c: &Command<'_>, stream: &mut S) -> Result<(), Failed>
    requires { Allowed c.now }
    ensures bytes { Sends (S.held stream.old) (S.held stream.new) result (command_encoding c.now) }
    ensures cause { HasCause (S.faults stream.old) (S.faults stream.new) result }
{
    match c {
        Command::Object(c) => write_object_command(c, stream),
        Command::Buffer(c) => write_buffer_command(c, stream),
    }
}
