//! The bytes of lists of calls, replies and commands, for the tests.

ghost use Rattle.std.specs.Prelude.{◌≡◌, ◌<◌, ◌^◌};
ghost use Rattle.gl_numbers.specs.Bytes.{IsLong};

use crate::attrib_encoded::write_attrib_record;
use crate::in_short::{CREATE, GET_ERROR};
use call_records::{
    BufferCall, Call, Fill, New, ObjectCall, QueryCall, Reply, write_call, write_reply,
};
use command_stream::{BufferCommand, Command, ObjectCommand, write_command, write_start};
use std::alloc::Global;
use std::test::Fail;
use wire_io::{Failed, MemSink, write_all};

/// The most bytes of a list of calls, replies or commands in the tests.
const ROOM: usize = 1024;

/// A word, which is below 2^32.
pub fn word(n: u32) -> u32
    ensures same { result ≡ n }
    ensures word { result < 2 ^ 32 }
{
    n
}

/// A number of 64 bits with a sign.
pub fn long(n: i64) -> i64
    ensures same { result ≡ n }
    ensures long { IsLong result }
{
    n
}

/// Writes a call's record, where the bytes that it ends in have their room. The tests of the other state write their own.
#[tactic(auto, using(call_records::proofs::Lengths::lengths))]
fn write_record(call: &Call<'_>, out: &mut MemSink) -> Result<(), Failed> {
    match *call {
        Call::Object(ObjectCall::Create(New::Buffer)) => write_call(&CREATE, out),
        Call::Object(ObjectCall::Delete { kind, handle }) => {
            let handle = word(handle);
            write_call(&Call::Object(ObjectCall::Delete { kind, handle }), out)
        }
        Call::Object(ObjectCall::IsKind { kind, handle }) => {
            let handle = word(handle);
            write_call(&Call::Object(ObjectCall::IsKind { kind, handle }), out)
        }
        Call::Buffer(call) => write_buffer_record(call, out),
        Call::Attrib(call) => write_attrib_record(call, out),
        Call::Query(QueryCall::GetError) => write_call(&GET_ERROR, out),
        Call::Texture(_)
        | Call::Query(QueryCall::IsEnabled(_) | QueryCall::GetParameter(_))
        | Call::Raster(_)
        | Call::Draw(_) => Err(Failed),
    }
}

/// The same of a call about a bound buffer.
#[tactic(auto, using(call_records::proofs::Lengths::lengths))]
fn write_buffer_record(call: BufferCall<'_>, out: &mut MemSink) -> Result<(), Failed> {
    match call {
        BufferCall::BindBuffer { target, handle } => {
            let (target, handle) = (word(target), word(handle));
            write_call(
                &Call::Buffer(BufferCall::BindBuffer { target, handle }),
                out,
            )
        }
        BufferCall::BufferData {
            target,
            usage,
            fill,
        } => { write_data_record(target, usage, fill, out) }
        BufferCall::BufferSubData {
            target,
            offset,
            bytes,
        } => {
            if bytes.len() > ROOM {
                return Err(Failed);
            }
            let (target, offset) = (word(target), long(offset));
            write_call(
                &Call::Buffer(BufferCall::BufferSubData {
                    target,
                    offset,
                    bytes,
                }),
                out,
            )
        }
        BufferCall::GetBufferParameter { target, name } => {
            let (target, name) = (word(target), word(name));
            write_call(
                &Call::Buffer(BufferCall::GetBufferParameter { target, name }),
                out,
            )
        }
    }
}

/// The same of a bufferData.
#[tactic(auto, using(call_records::proofs::Lengths::lengths))]
fn write_data_record(
    target: u32,
    usage: u32,
    fill: Fill<'_>,
    out: &mut MemSink,
) -> Result<(), Failed> {
    match fill {
        Fill::Size(size) => {
            let fill = Fill::Size(long(size));
            write_call(
                &Call::Buffer(BufferCall::BufferData {
                    target,
                    usage,
                    fill,
                }),
                out,
            )
        }
        Fill::Bytes(bytes) => {
            if bytes.len() > ROOM {
                return Err(Failed);
            }
            let fill = Fill::Bytes(bytes);
            write_call(
                &Call::Buffer(BufferCall::BufferData {
                    target,
                    usage,
                    fill,
                }),
                out,
            )
        }
    }
}

/// Writes a command, where the bytes that it ends in have their room.
#[tactic(auto, using(call_records::proofs::Lengths::lengths))]
fn write_short_command(command: &Command<'_>, out: &mut MemSink) -> Result<(), Failed> {
    match *command {
        Command::Object(ObjectCommand::MakeBuffer(name)) => {
            write_command(&Command::Object(ObjectCommand::MakeBuffer(name)), out)
        }
        Command::Object(ObjectCommand::DropBuffer(name)) => {
            write_command(&Command::Object(ObjectCommand::DropBuffer(name)), out)
        }
        Command::Buffer(BufferCommand::BindBuffer { target, name }) => {
            write_command(
                &Command::Buffer(BufferCommand::BindBuffer { target, name }),
                out,
            )
        }
        Command::Buffer(
            BufferCommand::BufferSize {
                target,
                usage,
                size,
            },
        ) => {
            write_command(
                &Command::Buffer(BufferCommand::BufferSize {
                    target,
                    usage,
                    size,
                }),
                out,
            )
        }
        Command::Buffer(
            BufferCommand::BufferBytes {
                target,
                offset,
                bytes,
            },
        ) => {
            if bytes.len() > ROOM {
                return Err(Failed);
            }
            write_command(
                &Command::Buffer(BufferCommand::BufferBytes {
                    target,
                    offset,
                    bytes,
                }),
                out,
            )
        }
    }
}

fn bytes_of(alloc: Global, out: &MemSink) -> Result<Vec<u8>, Fail> {
    Ok(out.bytes().to_vec(alloc)?)
}

/// The session of these calls.
pub fn session(alloc: Global, calls: &[Call<'_>]) -> Result<Vec<u8>, Fail> {
    let mut out = MemSink::new(vec![in alloc; 0; ROOM]?, Vec::new(alloc));
    write_all(&[0x57, 0x47, 0x4C, 0x52, 1, 0, 0, 0], &mut out)
        .ok()
        .ok_or("no room")?;
    for call in calls {
        write_record(call, &mut out)
            .ok()
            .ok_or("no room for a record")?;
    }
    write_all(&[0; 8], &mut out).ok().ok_or("no room")?;
    bytes_of(alloc, &out)
}

/// The replies' bytes.
pub fn replies(alloc: Global, replies: &[Reply]) -> Result<Vec<u8>, Fail> {
    let mut out = MemSink::new(vec![in alloc; 0; ROOM]?, Vec::new(alloc));
    for reply in replies {
        write_reply(reply, &mut out)
            .ok()
            .ok_or("no room for a reply")?;
    }
    bytes_of(alloc, &out)
}

/// The stream of these commands.
pub fn stream(alloc: Global, commands: &[Command<'_>]) -> Result<Vec<u8>, Fail> {
    let mut out = MemSink::new(vec![in alloc; 0; ROOM]?, Vec::new(alloc));
    write_start(&mut out).ok().ok_or("no room")?;
    for command in commands {
        write_short_command(command, &mut out)
            .ok()
            .ok_or("no room for a command")?;
    }
    bytes_of(alloc, &out)
}
