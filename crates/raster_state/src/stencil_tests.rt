use crate::tests::{FIRST, SIDE, sets};
use crate::{Raster, RasterWords, StencilSide};
use call_records::{DepthStencilCall, RasterCall};

/// The state at the start, but for the stencil state of the sides that a face names.
fn with_sides(face: u32, side: StencilSide) -> RasterWords {
    RasterWords {
        front: if face == 0x0405 { SIDE } else { side },
        back: if face == 0x0404 { SIDE } else { side },
        ..FIRST
    }
}

#[test]
fn stencil_calls_set_the_sides_of_their_face(rt: HostRuntime) {
    for face in [0x0404, 0x0405, 0x0408] {
        for (func, reference, mask) in [
            (0x0200, 1, 0),
            (0x0202, -1, 1),
            (0x0207, 0x7FFF_FFFF, 0xFF),
            (0x0206, -0x8000_0000, 0xFFFF_FFFF),
        ] {
            let call = DepthStencilCall::StencilFuncSeparate {
                face,
                func,
                reference,
                mask,
            };
            let side = StencilSide {
                func,
                reference,
                value_mask: mask,
                ..SIDE
            };
            sets(&rt, RasterCall::DepthStencil(call), with_sides(face, side));
        }
        for mask in [0, 1, 0xFF, 0xFFFF_FFFF] {
            let call = DepthStencilCall::StencilMaskSeparate { face, mask };
            let side = StencilSide {
                write_mask: mask,
                ..SIDE
            };
            sets(&rt, RasterCall::DepthStencil(call), with_sides(face, side));
        }
        for [fail, depth_fail, depth_pass] in [
            [0, 0x1E01, 0x1E02],
            [0x1E03, 0x150A, 0x8507],
            [0x8508, 0x1E00, 0],
        ] {
            let call = DepthStencilCall::StencilOpSeparate {
                face,
                fail,
                depth_fail,
                depth_pass,
            };
            let side = StencilSide {
                ops: [fail, depth_fail, depth_pass],
                ..SIDE
            };
            sets(&rt, RasterCall::DepthStencil(call), with_sides(face, side));
        }
    }
}

/// A stencil test of a face.
fn test(face: u32, reference: i32, mask: u32) -> DepthStencilCall {
    DepthStencilCall::StencilFuncSeparate {
        face,
        func: 0x0202,
        reference,
        mask,
    }
}

#[test]
fn the_stencil_state_is_split_by_reference_and_masks_alone(rt: HostRuntime) {
    let write = |face, mask| DepthStencilCall::StencilMaskSeparate { face, mask };
    let operations = DepthStencilCall::StencilOpSeparate {
        face: 0x0404,
        fail: 0,
        depth_fail: 0,
        depth_pass: 0,
    };
    // calls in their order, and whether front and back are split after each
    let calls = [
        (test(0x0404, 0, 0xFFFF_FFFF), false),
        (operations, false),
        (test(0x0404, 1, 0xFFFF_FFFF), true),
        (test(0x0405, 1, 0xFFFF_FFFF), false),
        (test(0x0405, -1, 0xFFFF_FFFF), true),
        (test(0x0408, -1, 0xFFFF_FFFF), false),
        (test(0x0405, -1, 0xFFFF_FFFE), true),
        (test(0x0404, -1, 0xFFFF_FFFE), false),
        (write(0x0404, 1), true),
        (write(0x0405, 1), false),
        (write(0x0405, 0x8000_0001), true),
        (write(0x0408, 0), false),
    ];
    let mut raster = Raster::new();
    for (call, split) in calls {
        assert_eq!(rt;
            raster.apply(&RasterCall::DepthStencil(call)),
            Ok(()),
            "{call:?}"
        );
        assert_eq!(rt; raster.stencil_split(), split, "after {call:?}");
    }
}
