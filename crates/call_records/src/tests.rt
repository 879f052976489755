ghost use Rattle.call_records.specs.Records.{Fits};

use crate::{
    BufferCall, Call, Fill, New, ObjectCall, ObjectKind, QueryCall, ReadEnd, RecordBuf, Step,
    read_call, read_start, write_call,
};
use std::alloc::AllocError;
use std::test::Fail;
use wire_io::{MemSink, MemSource};

/// A source of these bytes, whose calls of these numbers fail.
pub(crate) fn source(
    rt: &HostRuntime,
    bytes: &[u8],
    fail: &[u64],
) -> Result<MemSource, AllocError> {
    Ok(MemSource::new(bytes.to_vec(rt.alloc())?, fail.to_vec(rt.alloc())?))
}

/// Whether a call's bytes are written, and to a sink with less room the prefix of them that it holds.
fn writes(rt: &HostRuntime, call: &Call<'_>, bytes: &[u8]) -> Result<bool, AllocError>
    requires { Fits call.now }
{
    let mut out = MemSink::new(vec![in rt.alloc(); 0; 64]?, Vec::new(rt.alloc()));
    if write_call(call, &mut out).is_err() || out.bytes() != bytes {
        return Ok(false);
    }
    for room in 0..bytes.len() {
        let mut full = MemSink::new(vec![in rt.alloc(); 0; room]?, Vec::new(rt.alloc()));
        if write_call(call, &mut full).is_ok() || full.bytes() != &bytes[..room] {
            return Ok(false);
        }
    }
    Ok(true)
}

/// Whether these bytes are read as the call, and cut anywhere are truncated at their length, and the call is
/// written as these bytes.
pub(crate) fn stands_for(
    rt: &HostRuntime,
    buf: &mut RecordBuf,
    record: &[u8],
    call: &Call<'_>,
) -> Result<bool, AllocError> {
    for cut in 0..record.len() {
        let mut input = source(rt, &record[..cut], &[])?;
        if read_call(&mut input, 8, buf) != Err(ReadEnd::Truncated(8 + cut as u64)) {
            return Ok(false);
        }
    }
    let mut input = source(rt, record, &[])?;
    let Ok(Step::Call(read)) = read_call(&mut input, 8, buf) else {
        return Ok(false);
    };
    let written = writes(rt, &read, record)?;
    Ok(read == *call && read.size() == record.len() && written)
}

#[test]
fn calls_about_objects_have_their_records(rt: HostRuntime) -> Result<(), Fail> {
    let mut buf = RecordBuf::make(rt.alloc())?;
    let kind = ObjectKind::Buffer;
    let cases: [(&[u8], ObjectCall); 3] = [
        (&[1, 0, 0, 0, 0, 0, 0, 0], ObjectCall::Create(New::Buffer)),
        (
            &[7, 0, 0, 0, 4, 0, 0, 0, 2, 1, 0, 0],
            ObjectCall::Delete { kind, handle: 258 },
        ),
        (
            &[0x0D, 0, 0, 0, 4, 0, 0, 0, 3, 0, 0, 0],
            ObjectCall::IsKind { kind, handle: 3 },
        ),
    ];
    for (record, call) in cases {
        assert!(rt;
            stands_for(&rt, &mut buf, record, &Call::Object(call))?,
            "{call:?}"
        );
    }
    Ok(())
}

#[test]
fn calls_about_buffers_have_their_records(rt: HostRuntime) -> Result<(), Fail> {
    let mut buf = RecordBuf::make(rt.alloc())?;
    let cases: [(&[u8], BufferCall<'_>); 5] = [
        (
            &[0x13, 0, 0, 0, 8, 0, 0, 0, 0x92, 0x88, 0, 0, 1, 0, 0, 0],
            BufferCall::BindBuffer {
                target: 0x8892,
                handle: 1,
            },
        ),
        (
            &[
                0x14, 0, 0, 0, 0x10, 0, 0, 0, 0x93, 0x88, 0, 0, 0xE8, 0x88, 0, 0, // a size:
                0xFE, 0xFF, 0xFF, 0xFF, 0xFE, 0xFF, 0xFF, 0xFF,
            ],
            BufferCall::BufferData {
                target: 0x8893,
                usage: 0x88E8,
                fill: Fill::Size(-0x1_0000_0002),
            },
        ),
        (
            &[
                0x15, 0, 0, 0, 0x0A, 0, 0, 0, 0x92, 0x88, 0, 0, 0xE4, 0x88, 0, 0, 0xAA, 0xBB,
            ],
            BufferCall::BufferData {
                target: 0x8892,
                usage: 0x88E4,
                fill: Fill::Bytes(&[0xAA, 0xBB]),
            },
        ),
        (
            &[
                0x16, 0, 0, 0, 0x0E, 0, 0, 0, 0x92, 0x88, 0, 0, // an offset, and two bytes:
                2, 0, 0, 0, 1, 0, 0, 0, 0xAA, 0xBB,
            ],
            BufferCall::BufferSubData {
                target: 0x8892,
                offset: 0x1_0000_0002,
                bytes: &[0xAA, 0xBB],
            },
        ),
        (
            &[
                0x17, 0, 0, 0, 8, 0, 0, 0, 0x92, 0x88, 0, 0, 0x64, 0x87, 0, 0,
            ],
            BufferCall::GetBufferParameter {
                target: 0x8892,
                name: 0x8764,
            },
        ),
    ];
    for (record, call) in cases {
        assert!(rt;
            stands_for(&rt, &mut buf, record, &Call::Buffer(call))?,
            "{call:?}"
        );
    }
    Ok(())
}

#[test]
fn calls_that_ask_have_their_records(rt: HostRuntime) -> Result<(), Fail> {
    let mut buf = RecordBuf::make(rt.alloc())?;
    let call = Call::Query(QueryCall::GetError);
    assert!(rt; stands_for(&rt, &mut buf, &[0x56, 0, 0, 0, 0, 0, 0, 0], &call)?);
    Ok(())
}

#[test]
#[tactic(auto, using(crate::proofs::Lengths::lengths))]
fn a_session_is_read_record_by_record(rt: HostRuntime) -> Result<(), Fail> {
    let create = Call::Object(ObjectCall::Create(New::Buffer));
    let bind = Call::Buffer(BufferCall::BindBuffer {
        target: 0x8892,
        handle: 1,
    });
    let ask = Call::Query(QueryCall::GetError);
    let mut out = MemSink::new(vec![in rt.alloc(); 0; 64]?, Vec::new(rt.alloc()));
    let created = write_call(&create, &mut out).is_ok();
    let bound = write_call(&bind, &mut out).is_ok();
    let asked = write_call(&ask, &mut out).is_ok();
    assert!(rt; created && bound && asked);
    let mut session = b"WGLR\x01\0\0\0".to_vec(rt.alloc())?;
    session.extend_from_slice(out.bytes())?;
    session.extend_from_slice(&[0; 8])?;
    let mut input = source(&rt, session.as_slice(), &[])?;
    let mut buf = RecordBuf::make(rt.alloc())?;
    assert_eq!(rt; read_start(&mut input), Ok(()));
    for (at, call) in [(8, create), (16, bind), (32, ask)] {
        assert!(rt;
            read_call(&mut input, at, &mut buf) == Ok(Step::Call(call)),
            "at {at}"
        );
    }
    assert!(rt; read_call(&mut input, 40, &mut buf) == Ok(Step::End));
    Ok(())
}

#[test]
fn a_record_is_refused_at_its_first_cause(rt: HostRuntime) -> Result<(), Fail> {
    let mut buf = RecordBuf::make(rt.alloc())?;
    let cases: [(&[u8], ReadEnd); 11] = [
        (&[], ReadEnd::Truncated(8)),
        (&[0x56, 0, 0, 0, 0, 0, 0], ReadEnd::Truncated(15)),
        (&[0x02, 0, 0, 0, 0, 0, 0, 0], ReadEnd::UnknownOp(8)),
        (&[0x02, 0, 0, 0, 0x41, 0, 0, 0x01], ReadEnd::UnknownOp(8)),
        (&[0x56, 0, 0, 0, 0x41, 0, 0, 0x01], ReadEnd::BodyLong(8)),
        (&[0x16, 0, 0, 0, 0x41, 0, 0, 0x01], ReadEnd::BodyLong(8)),
        (&[0x14, 0, 0, 0, 0x40, 0, 0, 0x01], ReadEnd::BodyShape(8)),
        (&[0x15, 0, 0, 0, 0x40, 0, 0, 0x01], ReadEnd::Truncated(16)),
        (&[0x16, 0, 0, 0, 0x40, 0, 0, 0x01], ReadEnd::Truncated(16)),
        (&[0, 0, 0, 0, 0x01, 0, 0, 0, 0], ReadEnd::BodyShape(8)),
        (&[0, 0, 0, 0, 0, 0, 0, 0, 0x56], ReadEnd::AfterEnd(16)),
    ];
    for (bytes, end) in cases {
        let mut input = source(&rt, bytes, &[])?;
        assert!(rt; read_call(&mut input, 8, &mut buf) == Err(end), "{end:?}");
    }
    let last = 0x4000_0000_0000_0000 - 7;
    let mut input = source(&rt, &[0x56, 0, 0, 0, 0, 0, 0, 0], &[])?;
    assert!(rt; read_call(&mut input, last, &mut buf) == Err(ReadEnd::InputLong(last)));
    assert!(rt;
        read_call(&mut input, last - 1, &mut buf)
            == Ok(Step::Call(Call::Query(QueryCall::GetError)))
    );
    Ok(())
}

#[test]
fn a_body_shorter_or_longer_than_its_fields_is_refused(rt: HostRuntime) -> Result<(), Fail> {
    let mut buf = RecordBuf::make(rt.alloc())?;
    for (operation, len) in [
        (1, 1),
        (7, 3),
        (7, 5),
        (13, 3),
        (13, 5),
        (19, 7),
        (19, 9),
        (20, 15),
        (20, 17),
        (21, 7),
        (22, 11),
        (23, 7),
        (23, 9),
        (24, 3),
        (24, 5),
        (25, 3),
        (25, 5),
        (26, 27),
        (26, 29),
        (27, 19),
        (27, 21),
        (28, 7),
        (28, 9),
        (29, 7),
        (29, 9),
        (86, 1),
    ] {
        let mut record = [0u8; 40];
        record[0] = operation;
        record[4] = len;
        let mut input = source(&rt, &record, &[])?;
        assert!(rt;
            read_call(&mut input, 8, &mut buf) == Err(ReadEnd::BodyShape(8)),
            "operation {operation} with {len} bytes"
        );
    }
    Ok(())
}

#[test]
fn a_session_header_is_refused_by_its_words(rt: HostRuntime) -> Result<(), Fail> {
    let cases: [(&[u8], ReadEnd); 3] = [
        (&[0x57, 0x47, 0x4C, 0x53, 2, 0, 0, 0], ReadEnd::Magic(0)),
        (&[0x57, 0x47, 0x4C, 0x52, 2, 0, 0, 0], ReadEnd::Version(4)),
        (&[0x57, 0x47, 0x4C, 0x53, 2], ReadEnd::Truncated(5)),
    ];
    for (bytes, end) in cases {
        let mut input = source(&rt, bytes, &[])?;
        assert_eq!(rt; read_start(&mut input), Err(end));
    }
    Ok(())
}

#[test]
fn a_failing_source_is_a_read_fault(rt: HostRuntime) -> Result<(), Fail> {
    let mut buf = RecordBuf::make(rt.alloc())?;
    let mut input = source(&rt, b"WGLR\x01\0\0\0", &[0])?;
    assert_eq!(rt; read_start(&mut input), Err(ReadEnd::ReadFault));
    for fail in [0, 1] {
        let bind = [0x13, 0, 0, 0, 0x08, 0, 0, 0, 1, 2, 3, 4, 5, 6, 7, 8];
        let mut input = source(&rt, &bind, &[fail])?;
        assert!(rt;
            read_call(&mut input, 8, &mut buf) == Err(ReadEnd::ReadFault),
            "call {fail}"
        );
        let mut input = source(&rt, &[0; 8], &[fail])?;
        assert!(rt;
            read_call(&mut input, 8, &mut buf) == Err(ReadEnd::ReadFault),
            "call {fail}"
        );
    }
    Ok(())
}
