use crate::tests::stands_for;
use crate::{AttribCall, Call, RecordBuf};
use std::test::Fail;

#[test]
fn calls_about_attributes_have_their_records(rt: HostRuntime) -> Result<(), Fail> {
    let mut buf = RecordBuf::make(rt.alloc())?;
    let cases: [(&[u8], AttribCall); 6] = [
        (
            &[0x18, 0, 0, 0, 4, 0, 0, 0, 0x0F, 1, 0, 0],
            AttribCall::AttribArray {
                index: 271,
                on: true,
            },
        ),
        (
            &[0x19, 0, 0, 0, 4, 0, 0, 0, 0x0F, 0, 0, 0],
            AttribCall::AttribArray {
                index: 15,
                on: false,
            },
        ),
        (
            &[
                0x1A, 0, 0, 0, 0x1C, 0, 0, 0, 3, 0, 0, 0, 0xFF, 0xFF, 0xFF, 0xFF, // a type:
                0x06, 0x14, 0, 0, 0, 1, 0, 0, // a stride, and an offset:
                0xFE, 0xFF, 0xFF, 0xFF, 4, 0, 0, 0, 1, 0, 0, 0,
            ],
            AttribCall::VertexAttribPointer {
                index: 3,
                size: -1,
                kind: 0x1406,
                normalized: 256,
                stride: -2,
                offset: 0x1_0000_0004,
            },
        ),
        (
            &[
                0x1B, 0, 0, 0, 0x14, 0, 0, 0, 1, 0, 0, 0, // four words:
                0, 0, 0x80, 0x3F, 0, 0, 0, 0x80, 1, 0, 0xC0, 0x7F, 0xFF, 0xFF, 0xFF, 0xFF,
            ],
            AttribCall::VertexAttrib {
                index: 1,
                x: 0x3F80_0000,
                y: 0x8000_0000,
                z: 0x7FC0_0001,
                w: 0xFFFF_FFFF,
            },
        ),
        (
            &[0x1C, 0, 0, 0, 8, 0, 0, 0, 2, 0, 0, 0, 0x22, 0x86, 0, 0],
            AttribCall::GetVertexAttrib {
                index: 2,
                name: 0x8622,
            },
        ),
        (
            &[0x1D, 0, 0, 0, 8, 0, 0, 0, 2, 0, 0, 0, 0x45, 0x86, 0, 0],
            AttribCall::GetVertexAttribOffset {
                index: 2,
                name: 0x8645,
            },
        ),
    ];
    for (record, call) in cases {
        assert!(rt;
            stands_for(&rt, &mut buf, record, &Call::Attrib(call))?,
            "{call:?}"
        );
    }
    Ok(())
}
