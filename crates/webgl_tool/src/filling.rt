//! A session that fills a buffer, cut short and with failing ends, for the tests.

use crate::encoded::{replies, session, stream};
use crate::in_short::{
    ARRAY, CREATE, DONE, GET_ERROR, STATIC, bind, bind_buffer, buffer_bytes, buffer_size, data,
    make_buffer, number,
};
use crate::over_memory::run;
use call_records::Call;
use std::alloc::Global;
use std::test::Fail;
use wire_io::Status;

/// Makes a buffer, binds it, gives it two bytes, and asks for the error.
fn filling() -> [Call<'static>; 4] {
    [
        CREATE,
        bind(ARRAY, 1),
        data(ARRAY, STATIC, &[0xAA, 0xBB]),
        GET_ERROR,
    ]
}

/// The bytes of its session, 66 of them.
pub fn filling_session(alloc: Global) -> Result<Vec<u8>, Fail> {
    session(alloc, &filling())
}

/// Its replies, which end at bytes 12, 20, 28 and 40.
pub fn filling_replies(alloc: Global) -> Result<Vec<u8>, Fail> {
    replies(alloc, &[number(1), DONE, DONE, number(0)])
}

/// Its stream, whose header ends at byte 8, and whose commands end at bytes 20, 36, 56 and 74.
pub fn filling_stream(alloc: Global) -> Result<Vec<u8>, Fail> {
    stream(
        alloc,
        &[
            make_buffer(3),
            bind_buffer(ARRAY, 3),
            buffer_size(ARRAY, STATIC, 2),
            buffer_bytes(ARRAY, 0, &[0xAA, 0xBB]),
        ],
    )
}

/// Whether a run of the first bytes of the session ends so, with this many bytes of its replies and of its stream, where
/// these calls on the three ends fail.
pub fn ends(
    alloc: Global,
    taken: usize,
    failing: [&[u64]; 3],
    status: Status,
    left: (usize, usize),
) -> Result<bool, Fail> {
    let (replied, sent) = left;
    let input = filling_session(alloc)?;
    let ran = run(
        alloc,
        input.as_slice().get(..taken).ok_or("cut")?,
        256,
        failing,
    )?;
    let out = filling_replies(alloc)?;
    let stream = filling_stream(alloc)?;
    Ok(ran.gave(
        status,
        out.as_slice().get(..replied).ok_or("cut")?,
        stream.as_slice().get(..sent).ok_or("cut")?,
    ))
}
