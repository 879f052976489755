ghost use Rattle.std.specs.Prelude.{◌≤◌, length};
ghost use Rattle.command_stream.specs.Commands.{Allowed};

use crate::{BufferCommand, Command, ObjectCommand, write_command, write_start};
use std::alloc::Global;
use std::test::Fail;
use wire_io::{Failed, MemSink, Sink};

/// The bytes of the stream that `write_stream` writes, with two bytes of data.
pub const STREAM_BYTES: usize = 86;

/// Where each call on the sink begins.
const CALLS: [usize; 7] = [0, 8, 20, 36, 56, 72, 74];

/// The header: `ESCS`, and version 1.
pub const START: [u8; 8] = [0x45, 0x53, 0x43, 0x53, 1, 0, 0, 0];

/// MakeBuffer 3, by hand from the format: words are little-endian.
const MADE: [u8; 12] = [0x01, 0, 0, 0, 4, 0, 0, 0, 3, 0, 0, 0];

/// DropBuffer 3.
const DROPPED: [u8; 12] = [0x06, 0, 0, 0, 4, 0, 0, 0, 3, 0, 0, 0];

/// BindBuffer of ARRAY_BUFFER and 3.
const BOUND: [u8; 16] = [0x0B, 0, 0, 0, 8, 0, 0, 0, 0x92, 0x88, 0, 0, 3, 0, 0, 0];

/// BufferSize of ARRAY_BUFFER, STATIC_DRAW and 2 bytes.
const SIZED: [u8; 20] = [
    0x0C, 0, 0, 0, 12, 0, 0, 0, 0x92, 0x88, 0, 0, 0xE4, 0x88, 0, 0, 2, 0, 0, 0,
];

/// BufferBytes of ARRAY_BUFFER, from the offset 1 on, of two bytes.
const FILLED: [u8; 18] = [
    0x0D, 0, 0, 0, 10, 0, 0, 0, 0x92, 0x88, 0, 0, 1, 0, 0, 0, 0xAA, 0xBB,
];

/// The header, and each command once.
fn write_stream<S: Sink>(bytes: &[u8], stream: &mut S) -> Result<(), Failed>
    requires { length bytes.now ≤ 2 }
{
    write_start(stream)?;
    write_command(&Command::Object(ObjectCommand::MakeBuffer(3)), stream)?;
    let (target, usage) = (0x8892, 0x88E4);
    write_command(
        &Command::Buffer(BufferCommand::BindBuffer { target, name: 3 }),
        stream,
    )?;
    let size = BufferCommand::BufferSize {
        target,
        usage,
        size: 2,
    };
    write_command(&Command::Buffer(size), stream)?;
    let part = BufferCommand::BufferBytes {
        target,
        offset: 0,
        bytes,
    };
    write_command(&Command::Buffer(part), stream)?;
    write_command(&Command::Object(ObjectCommand::DropBuffer(3)), stream)
}

/// The stream of the header and each command once.
pub fn stream(alloc: Global) -> Result<[u8; STREAM_BYTES], Fail> {
    let mut sink = MemSink::new(vec![in alloc; 0; STREAM_BYTES]?, vec![in alloc]?);
    write_stream(&[0xAA, 0xBB], &mut sink)?;
    let mut stream = [0; STREAM_BYTES];
    if sink.bytes().len() == STREAM_BYTES {
        stream.copy_from_slice(sink.bytes());
    }
    Ok(stream)
}

/// Whether the command is written as these bytes.
fn is_written(alloc: Global, c: &Command<'_>, bytes: &[u8]) -> Result<bool, Fail>
    requires { Allowed c.now }
{
    let mut sink = MemSink::new(vec![in alloc; 0; bytes.len()]?, vec![in alloc]?);
    write_command(c, &mut sink)?;
    Ok(sink.bytes() == bytes)
}

#[test]
fn the_header_has_these_bytes(rt: HostRuntime) -> Result<(), Fail> {
    let mut sink = MemSink::new(vec![in rt.alloc(); 0; 8]?, vec![in rt.alloc()]?);
    write_start(&mut sink)?;
    assert_eq!(rt; sink.bytes(), START.as_slice());
    Ok(())
}

#[test]
fn commands_on_objects_have_these_bytes(rt: HostRuntime) -> Result<(), Fail> {
    let make = Command::Object(ObjectCommand::MakeBuffer(3));
    assert!(rt; is_written(rt.alloc(), &make, &MADE)?);
    let drop = Command::Object(ObjectCommand::DropBuffer(3));
    assert!(rt; is_written(rt.alloc(), &drop, &DROPPED)?);
    Ok(())
}

#[test]
fn commands_on_buffers_have_these_bytes(rt: HostRuntime) -> Result<(), Fail> {
    let target = 0x8892;
    let bind = BufferCommand::BindBuffer { target, name: 3 };
    assert!(rt; is_written(rt.alloc(), &Command::Buffer(bind), &BOUND)?);
    let size = BufferCommand::BufferSize {
        target,
        usage: 0x88E4,
        size: 2,
    };
    assert!(rt; is_written(rt.alloc(), &Command::Buffer(size), &SIZED)?);
    let part = BufferCommand::BufferBytes {
        target,
        offset: 1,
        bytes: &[0xAA, 0xBB],
    };
    assert!(rt; is_written(rt.alloc(), &Command::Buffer(part), &FILLED)?);
    Ok(())
}

#[test]
fn a_fault_leaves_what_was_written_before(rt: HostRuntime) -> Result<(), Fail> {
    let whole = stream(rt.alloc())?;
    let mut call = 0u64;
    for held in &CALLS {
        let mut stream = MemSink::new(
            vec![in rt.alloc(); 0; STREAM_BYTES]?,
            vec![in rt.alloc(); call]?,
        );
        assert_eq!(rt;
            write_stream(&[0xAA, 0xBB], &mut stream),
            Err(Failed),
            "call {call}"
        );
        assert!(rt; whole.get(..*held) == Some(stream.bytes()), "call {call}");
        call = call.saturating_add(1);
    }
    Ok(())
}

#[test]
fn a_full_sink_holds_a_prefix_of_the_stream(rt: HostRuntime) -> Result<(), Fail> {
    let whole = stream(rt.alloc())?;
    for room in 0..STREAM_BYTES {
        let mut stream = MemSink::new(vec![in rt.alloc(); 0; room]?, vec![in rt.alloc()]?);
        assert_eq!(rt;
            write_stream(&[0xAA, 0xBB], &mut stream),
            Err(Failed),
            "room {room}"
        );
        assert!(rt; whole.get(..room) == Some(stream.bytes()), "room {room}");
    }
    Ok(())
}
