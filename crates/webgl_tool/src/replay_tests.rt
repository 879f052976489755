//! Streams that are replayed over memory.

use crate::encoded::stream;
use crate::in_short::{
    ARRAY, ELEMENT, INVALID_ENUM, INVALID_OPERATION, INVALID_VALUE, STATIC, bind_buffer,
    buffer_bytes, buffer_size, drop_buffer, make_buffer,
};
use crate::over_memory::{Ran, replay};
use command_stream::Command;
use std::alloc::Global;
use std::test::Fail;
use wire_io::Status;

/// The line of the four commands of `filling`.
const LINE: &str = "commands 4 draws 0 clears 0 mipmaps 0\n";

/// Makes a buffer, binds it, and gives it two bytes.
fn filling() -> [Command<'static>; 4] {
    [
        make_buffer(3),
        bind_buffer(ARRAY, 3),
        buffer_size(ARRAY, STATIC, 2),
        buffer_bytes(ARRAY, 0, &[0xAA, 0xBB]),
    ]
}

/// The first bytes of its stream, whose header ends at byte 8, and whose commands end at bytes 20, 36, 56 and 74; and then
/// these bytes.
fn filling_stream(alloc: Global, taken: usize, then: &[u8]) -> Result<Vec<u8>, Fail> {
    let whole = stream(alloc, &filling())?;
    let mut bytes = whole.as_slice().get(..taken).ok_or("cut")?.to_vec(alloc)?;
    bytes.extend_from_slice(then)?;
    Ok(bytes)
}

/// Whether the status is this one, `out` holds this text, and the second sink nothing.
fn printed(ran: &Ran, status: Status, text: &str) -> bool {
    ran.gave(status, text.as_bytes(), &[])
}

#[test]
fn a_stream_may_end_between_two_commands(rt: HostRuntime) -> Result<(), Fail> {
    for (taken, line) in [
        (8usize, "commands 0 draws 0 clears 0 mipmaps 0\n"),
        (20, "commands 1 draws 0 clears 0 mipmaps 0\n"),
        (56, "commands 3 draws 0 clears 0 mipmaps 0\n"),
        (74, LINE),
    ] {
        let bytes = filling_stream(rt.alloc(), taken, &[])?;
        let ran = replay(rt.alloc(), bytes.as_slice(), &[], &[])?;
        assert!(rt; printed(&ran, Status::Ok, line), "{taken} bytes");
    }
    Ok(())
}

#[test]
fn a_stream_that_is_refused_or_cut_prints_nothing(rt: HostRuntime) -> Result<(), Fail> {
    let cases: [(usize, &[u8], Status); 13] = [
        (0, &[], Status::Truncated { at: 0 }),
        (7, &[], Status::Truncated { at: 7 }),
        (9, &[], Status::Truncated { at: 9 }),
        (35, &[], Status::Truncated { at: 35 }),
        (73, &[], Status::Truncated { at: 73 }),
        (
            0,
            &[0x45, 0x53, 0x43, 0x54, 1, 0, 0, 0],
            Status::BadInput { at: 0, kind: 2 },
        ),
        (
            0,
            &[0x57, 0x47, 0x4C, 0x52, 2, 0, 0, 0],
            Status::BadInput { at: 0, kind: 2 },
        ),
        (
            0,
            &[0x45, 0x53, 0x43, 0x53, 2, 0, 0, 0],
            Status::BadInput { at: 4, kind: 3 },
        ),
        (
            0,
            &[0x45, 0x53, 0x43, 0x53, 1, 0, 0, 1],
            Status::BadInput { at: 4, kind: 3 },
        ),
        (
            8,
            &[0x02, 0, 0, 0, 0, 0, 0, 0],
            Status::BadInput { at: 8, kind: 4 },
        ),
        (
            20,
            &[0x00, 0, 0, 0, 0, 0, 0, 0],
            Status::BadInput { at: 20, kind: 4 },
        ),
        (
            36,
            &[0x0B, 0, 0, 0, 0x09, 0, 0, 0],
            Status::BadInput { at: 36, kind: 4 },
        ),
        (
            74,
            &[0x0D, 0, 0, 0, 0x41, 0, 0, 0x01],
            Status::BadInput { at: 74, kind: 4 },
        ),
    ];
    for (taken, then, status) in cases {
        let bytes = filling_stream(rt.alloc(), taken, then)?;
        let ran = replay(rt.alloc(), bytes.as_slice(), &[], &[])?;
        assert!(rt; printed(&ran, status, ""), "{status}");
    }
    Ok(())
}

#[test]
fn each_refusal_of_a_command_has_its_code(rt: HostRuntime) -> Result<(), Fail> {
    let cases: [(&str, Command<'_>, u32); 13] = [
        ("make the name 0", make_buffer(0), INVALID_OPERATION),
        ("make a name in use", make_buffer(3), INVALID_OPERATION),
        (
            "drop a name that isn't made",
            drop_buffer(4),
            INVALID_OPERATION,
        ),
        ("bind to no target", bind_buffer(0x1234, 3), INVALID_ENUM),
        (
            "bind a name that isn't made",
            bind_buffer(ARRAY, 5),
            INVALID_OPERATION,
        ),
        (
            "bind to the other target",
            bind_buffer(ELEMENT, 3),
            INVALID_OPERATION,
        ),
        (
            "size at no target",
            buffer_size(0x1234, STATIC, 2),
            INVALID_ENUM,
        ),
        (
            "size of no usage",
            buffer_size(ARRAY, 0x1234, 2),
            INVALID_ENUM,
        ),
        (
            "too large a size",
            buffer_size(ARRAY, STATIC, 67_108_865),
            INVALID_VALUE,
        ),
        (
            "size of nothing bound",
            buffer_size(ELEMENT, STATIC, 2),
            INVALID_OPERATION,
        ),
        (
            "bytes at no target",
            buffer_bytes(0x1234, 0, &[]),
            INVALID_ENUM,
        ),
        (
            "bytes of nothing bound",
            buffer_bytes(ELEMENT, 0, &[]),
            INVALID_OPERATION,
        ),
        (
            "bytes past the end",
            buffer_bytes(ARRAY, 1, &[7, 8]),
            INVALID_VALUE,
        ),
    ];
    for (name, command, code) in cases {
        let alloc = rt.alloc();
        let mut commands = filling().to_vec(alloc)?;
        commands.push(command)?;
        let mut bytes = stream(alloc, commands.as_slice())?;
        // the fault is told before what comes after it is read
        bytes.extend_from_slice(&[0xFF, 0, 0, 0, 0, 0, 0, 0])?;
        let ran = replay(alloc, bytes.as_slice(), &[], &[])?;
        let status = Status::ReplayFault { command: 5, code };
        assert!(rt; printed(&ran, status, ""), "{name}");
    }
    Ok(())
}

#[test]
fn a_replay_ends_at_a_failing_end(rt: HostRuntime) -> Result<(), Fail> {
    let cases: [(usize, &[u64], &[u64], Status, &str); 9] = [
        (74, &[0], &[], Status::ReadFault, ""),
        (74, &[1], &[], Status::ReadFault, ""),
        (74, &[2], &[], Status::ReadFault, ""),
        (74, &[3], &[], Status::Ok, LINE),
        (74, &[], &[0], Status::WriteFault, ""),
        (74, &[], &[1], Status::WriteFault, LINE),
        (74, &[], &[2], Status::Ok, LINE),
        (7, &[], &[0], Status::WriteFault, ""),
        (7, &[0], &[0], Status::WriteFault, ""),
    ];
    for (taken, reads, calls, status, text) in cases {
        let bytes = filling_stream(rt.alloc(), taken, &[])?;
        let ran = replay(rt.alloc(), bytes.as_slice(), reads, calls)?;
        assert!(rt;
            printed(&ran, status, text),
            "reads {reads:?}, calls {calls:?}"
        );
    }
    Ok(())
}
