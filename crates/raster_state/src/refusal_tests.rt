use crate::Raster;
use crate::tests::FIRST;
use call_records::{ColorCall, DepthStencilCall, RasterCall, ViewCall};
use gl_numbers::GlError;
use std::process::Abort;

/// A call is refused with this error, and changes nothing.
fn refused(rt: &impl Abort, call: RasterCall, error: GlError) {
    let mut raster = Raster::new();
    assert_eq!(rt; raster.apply(&call), Err(error), "{call:?}");
    assert_eq!(rt; *raster.words(), FIRST, "{call:?}");
}

#[test]
fn a_word_that_is_no_capability_is_refused(rt: HostRuntime) {
    for capability in [
        0,
        1,
        0x0B43,
        0x0B45,
        0x0B70,
        0x0B72,
        0x0B8F,
        0x0B91,
        0x0BCF,
        0x0BD1,
        0x0BE1,
        0x0BE3,
        0x0C10,
        0x0C12,
        0x8036,
        0x8038,
        0x809D,
        0x809F,
        0x80A1,
        0xFFFF_FFFF,
    ] {
        for on in [true, false] {
            let call = ViewCall::Capability { capability, on };
            refused(&rt, RasterCall::View(call), GlError::Enum);
        }
    }
}

#[test]
fn a_word_that_is_no_blend_equation_is_refused(rt: HostRuntime) {
    for bad in [0, 0x8005, 0x8007, 0x8009, 0x800C, 0xFFFF_FFFF] {
        for (rgb, alpha) in [(bad, 0x8006), (0x800A, bad), (bad, bad)] {
            let call = ColorCall::BlendEquationSeparate { rgb, alpha };
            refused(&rt, RasterCall::Color(call), GlError::Enum);
        }
    }
}

/// blendFuncSeparate with these factors is refused with this error.
fn factors_refused(rt: &impl Abort, factors: [u32; 4], error: GlError) {
    let [src_rgb, dst_rgb, src_alpha, dst_alpha] = factors;
    let call = ColorCall::BlendFuncSeparate {
        src_rgb,
        dst_rgb,
        src_alpha,
        dst_alpha,
    };
    refused(rt, RasterCall::Color(call), error);
}

#[test]
fn a_word_that_is_no_blend_factor_is_refused(rt: HostRuntime) {
    for bad in [2, 0x02FF, 0x0309, 0x8000, 0x8005, 0xFFFF_FFFF] {
        for place in 0..4 {
            let mut factors = [1, 0, 0x0302, 0x0303];
            factors[place] = bad;
            factors_refused(&rt, factors, GlError::Enum);
        }
    }
    // SRC_ALPHA_SATURATE is a factor of the source alone
    factors_refused(&rt, [1, 0x0308, 1, 0], GlError::Enum);
    factors_refused(&rt, [1, 0, 1, 0x0308], GlError::Enum);
}

#[test]
fn constant_colors_and_alpha_values_are_not_mixed(rt: HostRuntime) {
    for color in [0x8001, 0x8002] {
        for alpha in [0x8003, 0x8004] {
            factors_refused(&rt, [color, alpha, 1, 0], GlError::Operation);
            factors_refused(&rt, [alpha, color, 1, 0], GlError::Operation);
            factors_refused(&rt, [color, alpha, 2, 0], GlError::Enum);
            factors_refused(&rt, [alpha, color, 1, 0x0308], GlError::Enum);
        }
    }
}

#[test]
fn a_word_that_is_no_comparison_is_refused(rt: HostRuntime) {
    for func in [0, 0x01FF, 0x0208, 0xFFFF_FFFF] {
        let call = DepthStencilCall::DepthFunc(func);
        refused(&rt, RasterCall::DepthStencil(call), GlError::Enum);
        for face in [0x0404, 0x0405, 0x0408, 0x0406] {
            let call = DepthStencilCall::StencilFuncSeparate {
                face,
                func,
                reference: 1,
                mask: 1,
            };
            refused(&rt, RasterCall::DepthStencil(call), GlError::Enum);
        }
    }
}

#[test]
fn a_word_that_names_no_side_is_refused(rt: HostRuntime) {
    for face in [0, 0x0403, 0x0406, 0x0407, 0x0409, 0xFFFF_FFFF] {
        refused(
            &rt,
            RasterCall::View(ViewCall::CullFace(face)),
            GlError::Enum,
        );
        for call in [
            DepthStencilCall::StencilFuncSeparate {
                face,
                func: 0x0200,
                reference: 1,
                mask: 1,
            },
            DepthStencilCall::StencilMaskSeparate { face, mask: 1 },
            DepthStencilCall::StencilOpSeparate {
                face,
                fail: 0,
                depth_fail: 0,
                depth_pass: 0,
            },
        ] {
            refused(&rt, RasterCall::DepthStencil(call), GlError::Enum);
        }
    }
}

#[test]
fn a_word_that_is_no_stencil_operation_is_refused(rt: HostRuntime) {
    for bad in [1, 0x1DFF, 0x1E04, 0x1509, 0x150B, 0x8506, 0x8509] {
        for place in 0..3 {
            let mut ops = [0x1E00, 0x1E01, 0];
            ops[place] = bad;
            let [fail, depth_fail, depth_pass] = ops;
            for face in [0x0404, 0x0405, 0x0408, 0x0409] {
                let call = DepthStencilCall::StencilOpSeparate {
                    face,
                    fail,
                    depth_fail,
                    depth_pass,
                };
                refused(&rt, RasterCall::DepthStencil(call), GlError::Enum);
            }
        }
    }
}

#[test]
fn a_word_that_is_no_winding_is_refused(rt: HostRuntime) {
    for winding in [0, 0x08FF, 0x0902, 0xFFFF_FFFF] {
        let call = ViewCall::FrontFace(winding);
        refused(&rt, RasterCall::View(call), GlError::Enum);
    }
}

#[test]
fn a_negative_width_or_height_is_refused(rt: HostRuntime) {
    let (x, y) = (-7, 5);
    for (width, height) in [(-1, 0), (0, -1), (-1, -1), (-0x8000_0000, 0x7FFF_FFFF)] {
        for call in [
            ViewCall::Viewport {
                x,
                y,
                width,
                height,
            },
            ViewCall::Scissor {
                x,
                y,
                width,
                height,
            },
        ] {
            refused(&rt, RasterCall::View(call), GlError::Value);
        }
    }
}
