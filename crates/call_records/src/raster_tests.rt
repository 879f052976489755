use crate::tests::{source, stands_for};
use crate::{
    Call, ColorCall, DepthStencilCall, QueryCall, RasterCall, ReadEnd, RecordBuf, ViewCall,
    read_call,
};
use std::test::Fail;

#[test]
fn calls_about_colors_have_their_records(rt: HostRuntime) -> Result<(), Fail> {
    let mut buf = RecordBuf::make(rt.alloc())?;
    let cases: [(&[u8], ColorCall); 5] = [
        (
            &[
                0x44, 0, 0, 0, 0x10, 0, 0, 0, // 1.0, 0.5, -0.0 and no number:
                0, 0, 0x80, 0x3F, 0, 0, 0, 0x3F, 0, 0, 0, 0x80, 0xFF, 0xFF, 0xFF, 0xFF,
            ],
            ColorCall::BlendColor {
                red: 0x3F80_0000,
                green: 0x3F00_0000,
                blue: 0x8000_0000,
                alpha: 0xFFFF_FFFF,
            },
        ),
        (
            &[0x45, 0, 0, 0, 8, 0, 0, 0, 6, 0x80, 0, 0, 0x0A, 0x80, 0, 0],
            ColorCall::BlendEquationSeparate {
                rgb: 0x8006,
                alpha: 0x800A,
            },
        ),
        (
            &[
                0x46, 0, 0, 0, 0x10, 0, 0, 0, 2, 3, 0, 0, 3, 3, 0, 0, 1, 0, 0, 0, 4, 0x80, 0, 0,
            ],
            ColorCall::BlendFuncSeparate {
                src_rgb: 0x0302,
                dst_rgb: 0x0303,
                src_alpha: 1,
                dst_alpha: 0x8004,
            },
        ),
        (
            &[
                0x47, 0, 0, 0, 0x10, 0, 0, 0, 0, 0, 0, 0, 1, 0, 0, 0, 2, 0, 0, 0, 0, 1, 0, 0,
            ],
            ColorCall::ColorMask {
                red: 0,
                green: 1,
                blue: 2,
                alpha: 0x0100,
            },
        ),
        (
            &[
                0x51, 0, 0, 0, 0x10, 0, 0, 0, 1, 2, 3, 4, 5, 6, 7, 8, 9, 10, 11, 12, 13, 14, 15, 16,
            ],
            ColorCall::ClearColor {
                red: 0x0403_0201,
                green: 0x0807_0605,
                blue: 0x0C0B_0A09,
                alpha: 0x100F_0E0D,
            },
        ),
    ];
    for (record, call) in cases {
        assert!(rt;
            stands_for(
                &rt,
                &mut buf,
                record,
                &Call::Raster(RasterCall::Color(call))
            )?,
            "{call:?}"
        );
    }
    Ok(())
}

#[test]
fn calls_about_depths_and_stencil_values_have_their_records(rt: HostRuntime) -> Result<(), Fail> {
    let mut buf = RecordBuf::make(rt.alloc())?;
    let cases: [(&[u8], DepthStencilCall); 6] = [
        (
            &[0x48, 0, 0, 0, 4, 0, 0, 0, 3, 2, 0, 0],
            DepthStencilCall::DepthFunc(0x0203),
        ),
        (
            &[0x49, 0, 0, 0, 4, 0, 0, 0, 0, 0, 0, 0x80],
            DepthStencilCall::DepthMask(0x8000_0000),
        ),
        (
            &[
                0x4A, 0, 0, 0, 0x10, 0, 0, 0, 8, 4, 0, 0, 7, 2, 0, 0, 0xFE, 0xFF, 0xFF, 0xFF, 0xFF,
                0, 0, 0,
            ],
            DepthStencilCall::StencilFuncSeparate {
                face: 0x0408,
                func: 0x0207,
                reference: -2,
                mask: 0xFF,
            },
        ),
        (
            &[
                0x4B, 0, 0, 0, 8, 0, 0, 0, 4, 4, 0, 0, 0xFF, 0xFF, 0xFF, 0xFF,
            ],
            DepthStencilCall::StencilMaskSeparate {
                face: 0x0404,
                mask: 0xFFFF_FFFF,
            },
        ),
        (
            &[
                0x4C, 0, 0, 0, 0x10, 0, 0, 0, 5, 4, 0, 0, 0, 0, 0, 0, 0, 0x1E, 0, 0, 7, 0x85, 0, 0,
            ],
            DepthStencilCall::StencilOpSeparate {
                face: 0x0405,
                fail: 0,
                depth_fail: 0x1E00,
                depth_pass: 0x8507,
            },
        ),
        (
            &[0x52, 0, 0, 0, 4, 0, 0, 0, 0, 0, 0, 0x80],
            DepthStencilCall::ClearStencil(-0x8000_0000),
        ),
    ];
    for (record, call) in cases {
        let whole = Call::Raster(RasterCall::DepthStencil(call));
        assert!(rt; stands_for(&rt, &mut buf, record, &whole)?, "{call:?}");
    }
    Ok(())
}

#[test]
fn calls_about_what_is_drawn_have_their_records(rt: HostRuntime) -> Result<(), Fail> {
    let mut buf = RecordBuf::make(rt.alloc())?;
    let (x, y, width, height) = (-1, 2, 300, 0x7FFF_FFFF);
    let cases: [(&[u8], ViewCall); 6] = [
        (
            &[0x41, 0, 0, 0, 4, 0, 0, 0, 0xE2, 0x0B, 0, 0],
            ViewCall::Capability {
                capability: 0x0BE2,
                on: true,
            },
        ),
        (
            &[0x42, 0, 0, 0, 4, 0, 0, 0, 0xD0, 0x0B, 0, 0],
            ViewCall::Capability {
                capability: 0x0BD0,
                on: false,
            },
        ),
        (
            &[0x4D, 0, 0, 0, 4, 0, 0, 0, 4, 4, 0, 0],
            ViewCall::CullFace(0x0404),
        ),
        (
            &[0x4E, 0, 0, 0, 4, 0, 0, 0, 0, 9, 0, 0],
            ViewCall::FrontFace(0x0900),
        ),
        (
            &[
                0x4F, 0, 0, 0, 0x10, 0, 0, 0, 0xFF, 0xFF, 0xFF, 0xFF, 2, 0, 0, 0, 0x2C, 1, 0, 0,
                0xFF, 0xFF, 0xFF, 0x7F,
            ],
            ViewCall::Viewport {
                x,
                y,
                width,
                height,
            },
        ),
        (
            &[
                0x50, 0, 0, 0, 0x10, 0, 0, 0, 0xFF, 0xFF, 0xFF, 0xFF, 2, 0, 0, 0, 0x2C, 1, 0, 0,
                0xFF, 0xFF, 0xFF, 0x7F,
            ],
            ViewCall::Scissor {
                x,
                y,
                width,
                height,
            },
        ),
    ];
    for (record, call) in cases {
        assert!(rt;
            stands_for(&rt, &mut buf, record, &Call::Raster(RasterCall::View(call)))?,
            "{call:?}"
        );
    }
    let asks = Call::Query(QueryCall::IsEnabled(0x0BD0));
    assert!(rt;
        stands_for(
            &rt,
            &mut buf,
            &[0x43, 0, 0, 0, 4, 0, 0, 0, 0xD0, 0x0B, 0, 0],
            &asks
        )?
    );
    Ok(())
}

#[test]
fn a_raster_body_of_another_length_is_refused(rt: HostRuntime) -> Result<(), Fail> {
    let mut buf = RecordBuf::make(rt.alloc())?;
    let sizes: [(u8, u8); 18] = [
        (65, 4),
        (66, 4),
        (67, 4),
        (68, 16),
        (69, 8),
        (70, 16),
        (71, 16),
        (72, 4),
        (73, 4),
        (74, 16),
        (75, 8),
        (76, 16),
        (77, 4),
        (78, 4),
        (79, 16),
        (80, 16),
        (81, 16),
        (82, 4),
    ];
    for (operation, size) in sizes {
        for len in [size.wrapping_sub(1), size.wrapping_add(1)] {
            let mut record = [0u8; 32];
            record[0] = operation;
            record[4] = len;
            let mut input = source(&rt, &record, &[])?;
            assert!(rt;
                read_call(&mut input, 8, &mut buf) == Err(ReadEnd::BodyShape(8)),
                "operation {operation} with {len} bytes"
            );
        }
    }
    Ok(())
}
