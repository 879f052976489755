//! The calls on buffers, run over memory: what each is refused for, returns and sends.

use crate::in_short::{
    ARRAY, CREATE, DONE, DYNAMIC, ELEMENT, GET_ERROR, INVALID_ENUM, INVALID_OPERATION,
    INVALID_VALUE, SIZE, STATIC, USAGE, bind, bind_buffer, buffer_bytes, buffer_size, data, delete,
    drop_buffer, is_buffer, make_buffer, number, parameter, patch, refused, size,
};
use crate::over_memory::{is_served, run};
use call_records::{Call, Reply};
use command_stream::Command;
use std::alloc::Global;
use std::test::Fail;
use wire_io::Status;

/// A case: its name, the calls, their replies, and their commands.
type Case<'a> = (&'static str, &'a [Call<'a>], &'a [Reply], &'a [Command<'a>]);

/// Whether these calls, after createBuffer and bindBuffer of it to ARRAY_BUFFER, are answered by these replies and send
/// these commands.
fn is_served_after_bind(
    alloc: Global,
    calls: &[Call<'_>],
    replies: &[Reply],
    commands: &[Command<'_>],
) -> Result<bool, Fail> {
    let mut all_calls = [CREATE, bind(ARRAY, 1)].to_vec(alloc)?;
    all_calls.extend_from_slice(calls)?;
    let mut all_replies = [number(1), DONE].to_vec(alloc)?;
    all_replies.extend_from_slice(replies)?;
    let mut all_commands = [make_buffer(3), bind_buffer(ARRAY, 3)].to_vec(alloc)?;
    all_commands.extend_from_slice(commands)?;
    is_served(
        alloc,
        all_calls.as_slice(),
        all_replies.as_slice(),
        all_commands.as_slice(),
    )
}

#[test]
fn a_deleted_buffer_is_unbound_and_gone(rt: HostRuntime) -> Result<(), Fail> {
    let cases: [Case<'_>; 7] = [
        (
            "once",
            &[delete(1), delete(1)],
            &[DONE, DONE],
            &[drop_buffer(3)],
        ),
        ("null", &[delete(0)], &[DONE], &[]),
        (
            "never given",
            &[delete(2)],
            &[refused(INVALID_OPERATION)],
            &[],
        ),
        (
            "isBuffer",
            &[
                is_buffer(1),
                delete(1),
                is_buffer(1),
                is_buffer(0),
                is_buffer(2),
            ],
            &[number(1), DONE, number(0), number(0), number(0)],
            &[drop_buffer(3)],
        ),
        (
            "not bound again",
            &[delete(1), bind(ARRAY, 1)],
            &[DONE, refused(INVALID_OPERATION)],
            &[drop_buffer(3)],
        ),
        (
            "no data afterwards",
            &[size(ARRAY, STATIC, 4), delete(1), size(ARRAY, STATIC, 4)],
            &[DONE, DONE, refused(INVALID_OPERATION)],
            &[buffer_size(ARRAY, STATIC, 4), drop_buffer(3)],
        ),
        (
            "another one stays bound",
            &[
                CREATE,
                bind(ELEMENT, 2),
                delete(1),
                size(ELEMENT, STATIC, 4),
            ],
            &[number(2), DONE, DONE, DONE],
            &[
                make_buffer(4),
                bind_buffer(ELEMENT, 4),
                drop_buffer(3),
                buffer_size(ELEMENT, STATIC, 4),
            ],
        ),
    ];
    for (name, calls, replies, commands) in cases {
        assert!(rt;
            is_served_after_bind(rt.alloc(), calls, replies, commands)?,
            "{name}"
        );
    }
    Ok(())
}

#[test]
fn a_buffer_is_bound_to_one_target(rt: HostRuntime) -> Result<(), Fail> {
    // both bindings stay: the buffer that was bound before still takes data, and nothing is bound to the other target
    let calls = [
        bind(ELEMENT, 1),
        size(ARRAY, STATIC, 1),
        size(ELEMENT, STATIC, 1),
    ];
    let replies = [refused(INVALID_OPERATION), DONE, refused(INVALID_OPERATION)];
    let commands = [buffer_size(ARRAY, STATIC, 1)];
    assert!(rt; is_served_after_bind(rt.alloc(), &calls, &replies, &commands)?);
    Ok(())
}

#[test]
fn a_call_is_refused_by_its_first_rule(rt: HostRuntime) -> Result<(), Fail> {
    let cases: [(&str, Call<'_>, u32); 15] = [
        ("bufferData, target", size(1, 1, -1), INVALID_ENUM),
        ("usage", size(ELEMENT, 0x88E1, -1), INVALID_ENUM),
        ("negative", size(ELEMENT, STATIC, -1), INVALID_VALUE),
        ("too large", size(ARRAY, STATIC, 67_108_865), INVALID_VALUE),
        (
            "larger than a word",
            size(ARRAY, STATIC, 4_294_967_300),
            INVALID_VALUE,
        ),
        ("none bound", size(ELEMENT, STATIC, 4), INVALID_OPERATION),
        ("bufferSubData, target", patch(1, -1, &[]), INVALID_ENUM),
        ("negative offset", patch(ELEMENT, -1, &[]), INVALID_VALUE),
        (
            "none bound for a part",
            patch(ELEMENT, 0, &[]),
            INVALID_OPERATION,
        ),
        (
            "past the end",
            patch(ARRAY, 5, &[7, 0, 0, 0]),
            INVALID_VALUE,
        ),
        ("no bytes past the end", patch(ARRAY, 9, &[]), INVALID_VALUE),
        (
            "far past the end",
            patch(ARRAY, 4_294_967_296, &[7]),
            INVALID_VALUE,
        ),
        ("getBufferParameter, target", parameter(1, 1), INVALID_ENUM),
        ("name", parameter(ELEMENT, 0x8766), INVALID_ENUM),
        (
            "none bound for a parameter",
            parameter(ELEMENT, SIZE),
            INVALID_OPERATION,
        ),
    ];
    for (name, call, code) in cases {
        let calls = [size(ARRAY, STATIC, 8), call, GET_ERROR, GET_ERROR];
        let replies = [DONE, refused(code), number(code), number(0)];
        let commands = [buffer_size(ARRAY, STATIC, 8)];
        assert!(rt;
            is_served_after_bind(rt.alloc(), &calls, &replies, &commands)?,
            "{name}"
        );
    }
    Ok(())
}

#[test]
fn sizes_and_bytes_are_taken_within_the_limits(rt: HostRuntime) -> Result<(), Fail> {
    let cases: [Case<'_>; 8] = [
        (
            "nothing",
            &[size(ARRAY, 0x88E0, 0)],
            &[DONE],
            &[buffer_size(ARRAY, 0x88E0, 0)],
        ),
        (
            "the most",
            &[size(ARRAY, DYNAMIC, 67_108_864)],
            &[DONE],
            &[buffer_size(ARRAY, DYNAMIC, 67_108_864)],
        ),
        (
            "bytes",
            &[data(ARRAY, STATIC, &[7, 8])],
            &[DONE],
            &[
                buffer_size(ARRAY, STATIC, 2),
                buffer_bytes(ARRAY, 0, &[7, 8]),
            ],
        ),
        (
            "no bytes at the end",
            &[size(ARRAY, STATIC, 8), patch(ARRAY, 8, &[])],
            &[DONE, DONE],
            &[buffer_size(ARRAY, STATIC, 8)],
        ),
        (
            "up to the end",
            &[size(ARRAY, STATIC, 8), patch(ARRAY, 4, &[7, 0, 0, 9])],
            &[DONE, DONE],
            &[
                buffer_size(ARRAY, STATIC, 8),
                buffer_bytes(ARRAY, 4, &[7, 0, 0, 9]),
            ],
        ),
        (
            "all of it",
            &[size(ARRAY, STATIC, 2), patch(ARRAY, 0, &[7, 8])],
            &[DONE, DONE],
            &[
                buffer_size(ARRAY, STATIC, 2),
                buffer_bytes(ARRAY, 0, &[7, 8]),
            ],
        ),
        (
            "the size and the usage are those of the last bufferData",
            &[
                parameter(ARRAY, SIZE),
                parameter(ARRAY, USAGE),
                size(ARRAY, DYNAMIC, 5),
                parameter(ARRAY, SIZE),
                parameter(ARRAY, USAGE),
            ],
            &[number(0), number(STATIC), DONE, number(5), number(DYNAMIC)],
            &[buffer_size(ARRAY, DYNAMIC, 5)],
        ),
        (
            "each code has its flag",
            &[
                parameter(1, 1),
                bind(ARRAY, 9),
                GET_ERROR,
                GET_ERROR,
                GET_ERROR,
            ],
            &[
                refused(INVALID_ENUM),
                refused(INVALID_OPERATION),
                number(INVALID_ENUM),
                number(INVALID_OPERATION),
                number(0),
            ],
            &[],
        ),
    ];
    for (name, calls, replies, commands) in cases {
        assert!(rt;
            is_served_after_bind(rt.alloc(), calls, replies, commands)?,
            "{name}"
        );
    }
    Ok(())
}

#[test]
fn the_last_handle_is_1048576(rt: HostRuntime) -> Result<(), Fail> {
    let alloc = rt.alloc();
    let mut input = [0x57, 0x47, 0x4C, 0x52, 1, 0, 0, 0].to_vec(alloc)?;
    for _ in 0..1_048_577u32 {
        input.extend_from_slice(&[1, 0, 0, 0, 0, 0, 0, 0])?;
    }
    input.extend_from_slice(&[0; 8])?;
    let ran = run(alloc, input.as_slice(), 12_582_976, [&[], &[], &[]])?;
    assert_eq!(rt; ran.status, Status::Ok);
    // twelve bytes for each handle, and eight for the call that is refused
    assert_eq!(rt; ran.out.bytes().len(), 12_582_920);
    let last = [
        0, 0, 0, 0, 1, 0, 0, 0, 0, 0, 0x10, 0, 0x02, 0x05, 0, 0, 0, 0, 0, 0,
    ];
    assert!(rt; ran.out.bytes().ends_with(&last));
    assert_eq!(rt; ran.stream.bytes().len(), 12_582_920);
    Ok(())
}
