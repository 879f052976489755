//! Sessions that are run over memory, and the bytes that they are made of.

use crate::encoded::{replies, session, stream};
use crate::exit_status;
use crate::filling::{ends, filling_replies, filling_session, filling_stream};
use crate::in_short::{
    ARRAY, CREATE, DONE, DYNAMIC, ELEMENT, GET_ERROR, INVALID_ENUM, INVALID_OPERATION, SIZE,
    STATIC, bind, bind_buffer, buffer_bytes, buffer_size, data, delete, drop_buffer, is_buffer,
    make_buffer, number, parameter, patch, refused, size,
};
use crate::over_memory::{is_served, run};
use std::test::Fail;
use wire_io::Status;

#[test]
fn each_record_reply_and_command_has_its_bytes(rt: HostRuntime) -> Result<(), Fail> {
    let alloc = rt.alloc();
    let calls = [
        CREATE,
        delete(258),
        is_buffer(3),
        bind(ARRAY, 1),
        size(ELEMENT, DYNAMIC, -1),
        data(ARRAY, STATIC, &[0xAA, 0xBB]),
        patch(ARRAY, 4_294_967_298, &[0xAA]),
        parameter(ARRAY, SIZE),
        GET_ERROR,
    ];
    let bytes: [u8; 151] = [
        0x57, 0x47, 0x4C, 0x52, 0x01, 0x00, 0x00, 0x00, // WGLR, version 1
        0x01, 0x00, 0x00, 0x00, 0x00, 0x00, 0x00, 0x00, // createBuffer
        0x07, 0x00, 0x00, 0x00, 0x04, 0x00, 0x00, 0x00, // deleteBuffer
        0x02, 0x01, 0x00, 0x00, // handle 258
        0x0D, 0x00, 0x00, 0x00, 0x04, 0x00, 0x00, 0x00, // isBuffer
        0x03, 0x00, 0x00, 0x00, // handle 3
        0x13, 0x00, 0x00, 0x00, 0x08, 0x00, 0x00, 0x00, // bindBuffer
        0x92, 0x88, 0x00, 0x00, 0x01, 0x00, 0x00, 0x00, // ARRAY_BUFFER, handle 1
        0x14, 0x00, 0x00, 0x00, 0x10, 0x00, 0x00, 0x00, // bufferData with a size
        0x93, 0x88, 0x00, 0x00, 0xE8, 0x88, 0x00, 0x00, // ELEMENT_ARRAY_BUFFER, DYNAMIC_DRAW
        0xFF, 0xFF, 0xFF, 0xFF, 0xFF, 0xFF, 0xFF, 0xFF, // size -1
        0x15, 0x00, 0x00, 0x00, 0x0A, 0x00, 0x00, 0x00, // bufferData with bytes
        0x92, 0x88, 0x00, 0x00, 0xE4, 0x88, 0x00, 0x00, // ARRAY_BUFFER, STATIC_DRAW
        0xAA, 0xBB, // its two bytes
        0x16, 0x00, 0x00, 0x00, 0x0D, 0x00, 0x00, 0x00, // bufferSubData
        0x92, 0x88, 0x00, 0x00, // ARRAY_BUFFER
        0x02, 0x00, 0x00, 0x00, 0x01, 0x00, 0x00, 0x00, // offset 2^32 + 2
        0xAA, // its byte
        0x17, 0x00, 0x00, 0x00, 0x08, 0x00, 0x00, 0x00, // getBufferParameter
        0x92, 0x88, 0x00, 0x00, 0x64, 0x87, 0x00, 0x00, // ARRAY_BUFFER, BUFFER_SIZE
        0x56, 0x00, 0x00, 0x00, 0x00, 0x00, 0x00, 0x00, // getError
        0x00, 0x00, 0x00, 0x00, 0x00, 0x00, 0x00, 0x00, // the closing record
    ];
    assert_eq!(rt; session(alloc, &calls)?.as_slice(), bytes.as_slice());
    let bytes: [u8; 28] = [
        0x00, 0x00, 0x00, 0x00, 0x00, 0x00, 0x00, 0x00, // no error, nothing
        0x00, 0x00, 0x00, 0x00, 0x01, 0x00, 0x00, 0x00, 0x02, 0x01, 0x00, 0x00, // the number 258
        0x02, 0x05, 0x00, 0x00, 0x00, 0x00, 0x00, 0x00, // INVALID_OPERATION
    ];
    let answers = [DONE, number(258), refused(INVALID_OPERATION)];
    assert_eq!(rt; replies(alloc, &answers)?.as_slice(), bytes.as_slice());
    let bytes: [u8; 86] = [
        0x45, 0x53, 0x43, 0x53, 0x01, 0x00, 0x00, 0x00, // ESCS, version 1
        0x01, 0x00, 0x00, 0x00, 0x04, 0x00, 0x00, 0x00, 0x03, 0x00, 0x00, 0x00, // MakeBuffer 3
        0x06, 0x00, 0x00, 0x00, 0x04, 0x00, 0x00, 0x00, 0x02, 0x01, 0x00, 0x00, // DropBuffer 258
        0x0B, 0x00, 0x00, 0x00, 0x08, 0x00, 0x00, 0x00, // BindBuffer
        0x92, 0x88, 0x00, 0x00, 0x03, 0x00, 0x00, 0x00, // ARRAY_BUFFER, 3
        0x0C, 0x00, 0x00, 0x00, 0x0C, 0x00, 0x00, 0x00, // BufferSize
        0x92, 0x88, 0x00, 0x00, 0xE4, 0x88, 0x00, 0x00, 0x02, 0x00, 0x00, 0x00, // 2 bytes
        0x0D, 0x00, 0x00, 0x00, 0x0A, 0x00, 0x00, 0x00, // BufferBytes
        0x92, 0x88, 0x00, 0x00, 0x01, 0x00, 0x00, 0x00, 0xAA, 0xBB, // from byte 1 on
    ];
    let commands = [
        make_buffer(3),
        drop_buffer(258),
        bind_buffer(ARRAY, 3),
        buffer_size(ARRAY, STATIC, 2),
        buffer_bytes(ARRAY, 1, &[0xAA, 0xBB]),
    ];
    assert_eq!(rt; stream(alloc, &commands)?.as_slice(), bytes.as_slice());
    Ok(())
}

#[test]
fn accepted_and_refused_calls_are_answered(rt: HostRuntime) -> Result<(), Fail> {
    let calls = [
        bind(ARRAY, 99),
        bind(1, 0),
        CREATE,
        bind(ARRAY, 1),
        bind(ELEMENT, 1),
        data(ELEMENT, STATIC, &[7]),
        data(ARRAY, 0x88E1, &[7]),
        data(ARRAY, DYNAMIC, &[]),
        bind(ARRAY, 0),
        data(ARRAY, STATIC, &[7, 8]),
        GET_ERROR,
        GET_ERROR,
        GET_ERROR,
    ];
    let answers = [
        refused(INVALID_OPERATION),
        refused(INVALID_ENUM),
        number(1),
        DONE,
        refused(INVALID_OPERATION),
        refused(INVALID_OPERATION),
        refused(INVALID_ENUM),
        DONE,
        DONE,
        refused(INVALID_OPERATION),
        number(INVALID_ENUM),
        number(INVALID_OPERATION),
        number(0),
    ];
    let commands = [
        make_buffer(3),
        bind_buffer(ARRAY, 3),
        buffer_size(ARRAY, DYNAMIC, 0),
        bind_buffer(ARRAY, 0),
    ];
    assert!(rt; is_served(rt.alloc(), &calls, &answers, &commands)?);
    assert!(rt; is_served(rt.alloc(), &[], &[], &[])?, "no call at all");
    assert!(rt; ends(rt.alloc(), 66, [&[], &[], &[]], Status::Ok, (40, 74))?);
    Ok(())
}

#[test]
fn a_session_cut_short_is_answered_up_to_there(rt: HostRuntime) -> Result<(), Fail> {
    for (taken, left) in [
        (0usize, (0usize, 8usize)),
        (7, (0, 8)),
        (15, (0, 8)),
        (16, (12, 20)),
        (31, (12, 20)),
        (49, (20, 36)),
        (50, (28, 74)),
        (58, (40, 74)),
        (65, (40, 74)),
    ] {
        let status = Status::Truncated { at: taken as u64 };
        assert!(rt;
            ends(rt.alloc(), taken, [&[], &[], &[]], status, left)?,
            "cut at {taken}"
        );
    }
    Ok(())
}

#[test]
fn bad_input_is_refused_where_it_stands(rt: HostRuntime) -> Result<(), Fail> {
    let cases: [(usize, &[u8], u64, u32, (usize, usize)); 12] = [
        (0, &[0x57, 0x47, 0x4C, 0x53, 2, 0, 0, 0], 0, 2, (0, 8)),
        (0, &[0x52, 0x4C, 0x47, 0x57, 1, 0, 0, 0], 0, 2, (0, 8)),
        (0, &[0x57, 0x47, 0x4C, 0x52, 2, 0, 0, 0], 4, 3, (0, 8)),
        (8, &[0x02, 0, 0, 0, 0, 0, 0, 0], 8, 4, (0, 8)),
        (8, &[0x15, 0, 0, 0, 0x04, 0, 0, 0], 8, 6, (0, 8)),
        (8, &[0, 0, 0, 0, 0, 0, 0, 0, 0x01], 16, 7, (0, 8)),
        (16, &[0x5A, 0, 0, 0, 0x41, 0, 0, 0x01], 16, 4, (12, 20)),
        (16, &[0x15, 0, 0, 0, 0x41, 0, 0, 0x01], 16, 5, (12, 20)),
        (16, &[0x00, 0, 0, 0, 0x41, 0, 0, 0x01], 16, 5, (12, 20)),
        (32, &[0x13, 0, 0, 0, 0x09, 0, 0, 0], 32, 6, (20, 36)),
        (58, &[0x00, 0, 0, 0, 0x01, 0, 0, 0], 58, 6, (40, 74)),
        (66, &[0x00], 66, 7, (40, 74)),
    ];
    for (taken, bytes, at, kind, (replied, sent)) in cases {
        let alloc = rt.alloc();
        let whole = filling_session(alloc)?;
        let mut input = whole.as_slice().get(..taken).ok_or("cut")?.to_vec(alloc)?;
        input.extend_from_slice(bytes)?;
        let ran = run(alloc, input.as_slice(), 256, [&[], &[], &[]])?;
        let out = filling_replies(alloc)?;
        let stream = filling_stream(alloc)?;
        assert!(rt;
            ran.gave(
                Status::BadInput { at, kind },
                out.as_slice().get(..replied).ok_or("cut")?,
                stream.as_slice().get(..sent).ok_or("cut")?
            ),
            "kind {kind} at {at}"
        );
    }
    Ok(())
}

#[test]
fn each_status_has_its_exit_status(rt: HostRuntime) {
    for (status, code) in [
        (Status::Ok, 0),
        (Status::OutOfMemory, 1),
        (Status::Usage, 2),
        (Status::BadInput { at: 8, kind: 4 }, 3),
        (Status::Truncated { at: 8 }, 4),
        (Status::ReadFault, 5),
        (Status::WriteFault, 6),
        (
            Status::ReplayFault {
                command: 1,
                code: 1,
            },
            7,
        ),
    ] {
        assert_eq!(rt; exit_status(status), code, "{status}");
    }
}
