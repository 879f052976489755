use crate::tests::{source, stands_for};
use crate::{Call, DrawCall, QueryCall, ReadEnd, RecordBuf, TextureCall, read_call};
use std::test::Fail;

#[test]
fn calls_about_pixel_store_parameters_and_the_end_of_drawing_have_their_records(
    rt: HostRuntime,
) -> Result<(), Fail> {
    let mut buf = RecordBuf::make(rt.alloc())?;
    let cases: [(&[u8], Call<'_>); 4] = [
        (
            &[
                0x38, 0, 0, 0, 8, 0, 0, 0, 0x40, 0x92, 0, 0, 0xFE, 0xFF, 0xFF, 0xFF,
            ],
            Call::Texture(TextureCall::PixelStorei {
                name: 0x9240,
                value: -2,
            }),
        ),
        (
            &[0x57, 0, 0, 0, 4, 0, 0, 0, 0x33, 0x0D, 0, 0],
            Call::Query(QueryCall::GetParameter(0x0D33)),
        ),
        (
            &[0x58, 0, 0, 0, 0, 0, 0, 0],
            Call::Draw(DrawCall::Finish { waits: false }),
        ),
        (
            &[0x59, 0, 0, 0, 0, 0, 0, 0],
            Call::Draw(DrawCall::Finish { waits: true }),
        ),
    ];
    for (record, call) in cases {
        assert!(rt; stands_for(&rt, &mut buf, record, &call)?, "{call:?}");
    }
    Ok(())
}

#[test]
fn a_body_of_another_length_is_refused(rt: HostRuntime) -> Result<(), Fail> {
    let mut buf = RecordBuf::make(rt.alloc())?;
    let records: [[u8; 16]; 4] = [
        [0x38, 0, 0, 0, 7, 0, 0, 0, 0x40, 0x92, 0, 0, 0, 0, 0, 0],
        [0x57, 0, 0, 0, 8, 0, 0, 0, 0x33, 0x0D, 0, 0, 0, 0, 0, 0],
        [0x58, 0, 0, 0, 1, 0, 0, 0, 0, 0, 0, 0, 0, 0, 0, 0],
        [0x59, 0, 0, 0, 4, 0, 0, 0, 0, 0, 0, 0, 0, 0, 0, 0],
    ];
    for record in records {
        let mut input = source(&rt, &record, &[])?;
        assert!(rt;
            read_call(&mut input, 8, &mut buf) == Err(ReadEnd::BodyShape(8)),
            "{record:?}"
        );
    }
    Ok(())
}
