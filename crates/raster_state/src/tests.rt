use crate::{Raster, RasterWords, StencilSide};
use call_records::{ColorCall, DepthStencilCall, RasterCall, ViewCall};
use gl_numbers::GlError;
use std::process::Abort;

/// The stencil state of a side at the start.
pub(crate) const SIDE: StencilSide = StencilSide {
    func: 0x0207,
    reference: 0,
    value_mask: 0xFFFF_FFFF,
    write_mask: 0xFFFF_FFFF,
    ops: [0x1E00, 0x1E00, 0x1E00],
};

/// The raster state at the start.
pub(crate) const FIRST: RasterWords = RasterWords {
    enabled: [false, false, false, true, false, false, false, false, false],
    blend_color: [0, 0, 0, 0],
    blend_equation: [0x8006, 0x8006],
    blend_func: [1, 0, 1, 0],
    color_mask: [true, true, true, true],
    depth_func: 0x0201,
    depth_mask: true,
    front: SIDE,
    back: SIDE,
    cull_side: 0x0405,
    winding: 0x0901,
    viewport: [0, 0, 300, 150],
    scissor: [0, 0, 300, 150],
    clear_color: [0, 0, 0, 0],
    clear_stencil: 0,
};

/// From the start on, a call sets these words, and so it does again.
pub(crate) fn sets(rt: &impl Abort, call: RasterCall, expected: RasterWords) {
    let mut raster = Raster::new();
    for _ in 0..2 {
        assert_eq!(rt; raster.apply(&call), Ok(()), "{call:?}");
        assert_eq!(rt; *raster.words(), expected, "{call:?}");
    }
}

#[test]
fn the_state_at_the_start(rt: HostRuntime) {
    let raster = Raster::new();
    assert_eq!(rt; *raster.words(), FIRST);
    assert!(rt; !raster.stencil_split());
}

#[test]
fn each_capability_is_enabled_and_disabled_alone(rt: HostRuntime) {
    for (place, capability) in [
        0x0B44, 0x0B71, 0x0B90, 0x0BD0, 0x0BE2, 0x0C11, 0x8037, 0x809E, 0x80A0,
    ]
    .iter()
    .enumerate()
    {
        for on in [true, false] {
            let mut enabled = FIRST.enabled;
            enabled[place] = on;
            let call = ViewCall::Capability {
                capability: *capability,
                on,
            };
            sets(
                &rt,
                RasterCall::View(call),
                RasterWords { enabled, ..FIRST },
            );
        }
    }
}

#[test]
fn colors_are_kept_as_they_are_given(rt: HostRuntime) {
    // words of 2.0, -0.0, infinity and one that is no number; and of 1.0, 0.5, 0.25 and 0.0
    for [red, green, blue, alpha] in [
        [0x4000_0000, 0x8000_0000, 0x7F80_0000, 0xFFFF_FFFF],
        [0x3F80_0000, 0x3F00_0000, 0x3E80_0000, 0],
    ] {
        let blend = ColorCall::BlendColor {
            red,
            green,
            blue,
            alpha,
        };
        let clear = ColorCall::ClearColor {
            red,
            green,
            blue,
            alpha,
        };
        let words = [red, green, blue, alpha];
        sets(
            &rt,
            RasterCall::Color(blend),
            RasterWords {
                blend_color: words,
                ..FIRST
            },
        );
        sets(
            &rt,
            RasterCall::Color(clear),
            RasterWords {
                clear_color: words,
                ..FIRST
            },
        );
    }
}

#[test]
fn blend_equations_and_factors_are_set_for_colors_and_alpha_values(rt: HostRuntime) {
    for (rgb, alpha) in [
        (0x8006, 0x800A),
        (0x800A, 0x800B),
        (0x800B, 0x8006),
        (0x800B, 0x800B),
    ] {
        sets(
            &rt,
            RasterCall::Color(ColorCall::BlendEquationSeparate { rgb, alpha }),
            RasterWords {
                blend_equation: [rgb, alpha],
                ..FIRST
            },
        );
    }
    for [src_rgb, dst_rgb, src_alpha, dst_alpha] in [
        [0x0302, 0x0303, 1, 0],
        [0x0300, 0x0301, 0x0304, 0x0305],
        [0x0306, 0x0307, 0x0308, 0x8001],
        [0x8001, 0x8002, 0x8003, 0x8004],
        [0x8003, 0x8004, 0x8001, 0x8002],
        [0x0308, 0x8003, 0x8001, 0x8004],
    ] {
        let call = ColorCall::BlendFuncSeparate {
            src_rgb,
            dst_rgb,
            src_alpha,
            dst_alpha,
        };
        sets(
            &rt,
            RasterCall::Color(call),
            RasterWords {
                blend_func: [src_rgb, dst_rgb, src_alpha, dst_alpha],
                ..FIRST
            },
        );
    }
}

#[test]
fn a_mask_is_false_for_0_alone(rt: HostRuntime) {
    for (word, flag) in [
        (0, false),
        (1, true),
        (2, true),
        (0x100, true),
        (0xFFFF_FFFF, true),
    ] {
        let depth = DepthStencilCall::DepthMask(word);
        sets(
            &rt,
            RasterCall::DepthStencil(depth),
            RasterWords {
                depth_mask: flag,
                ..FIRST
            },
        );
        for place in 0..4 {
            let (mut words, mut flags) = ([1, 1, 1, 1], [true, true, true, true]);
            words[place] = word;
            flags[place] = flag;
            let [red, green, blue, alpha] = words;
            let color = ColorCall::ColorMask {
                red,
                green,
                blue,
                alpha,
            };
            sets(
                &rt,
                RasterCall::Color(color),
                RasterWords {
                    color_mask: flags,
                    ..FIRST
                },
            );
        }
    }
}

#[test]
fn words_of_depth_culling_and_winding_are_kept(rt: HostRuntime) {
    for word in 0x0200..0x0208 {
        sets(
            &rt,
            RasterCall::DepthStencil(DepthStencilCall::DepthFunc(word)),
            RasterWords {
                depth_func: word,
                ..FIRST
            },
        );
    }
    for word in [0x0404, 0x0405, 0x0408] {
        sets(
            &rt,
            RasterCall::View(ViewCall::CullFace(word)),
            RasterWords {
                cull_side: word,
                ..FIRST
            },
        );
    }
    for word in [0x0900, 0x0901] {
        sets(
            &rt,
            RasterCall::View(ViewCall::FrontFace(word)),
            RasterWords {
                winding: word,
                ..FIRST
            },
        );
    }
}

#[test]
fn viewport_scissor_and_stencil_clear_value_keep_their_signs(rt: HostRuntime) {
    for [x, y, width, height] in [
        [1, 2, 3, 4],
        [0, 0, 0, 0],
        [-1, -2, 0x7FFF_FFFF, 0],
        [-0x8000_0000, 0x7FFF_FFFF, 0, 0x7FFF_FFFF],
    ] {
        let viewport = ViewCall::Viewport {
            x,
            y,
            width,
            height,
        };
        let scissor = ViewCall::Scissor {
            x,
            y,
            width,
            height,
        };
        let words = [x, y, width, height];
        sets(
            &rt,
            RasterCall::View(viewport),
            RasterWords {
                viewport: words,
                ..FIRST
            },
        );
        sets(
            &rt,
            RasterCall::View(scissor),
            RasterWords {
                scissor: words,
                ..FIRST
            },
        );
        sets(
            &rt,
            RasterCall::DepthStencil(DepthStencilCall::ClearStencil(x)),
            RasterWords {
                clear_stencil: x,
                ..FIRST
            },
        );
    }
}

#[test]
fn the_last_call_decides_and_a_refused_one_changes_nothing(rt: HostRuntime) {
    let mut raster = Raster::new();
    for (sides, returned, cull_side) in [
        (0x0404, Ok(()), 0x0404),
        (0x0406, Err(GlError::Enum), 0x0404),
        (0x0408, Ok(()), 0x0408),
        (0, Err(GlError::Enum), 0x0408),
        (0x0405, Ok(()), 0x0405),
    ] {
        let call = RasterCall::View(ViewCall::CullFace(sides));
        assert_eq!(rt; raster.apply(&call), returned, "{call:?}");
        assert_eq!(rt;
            *raster.words(),
            RasterWords { cull_side, ..FIRST },
            "{call:?}"
        );
    }
}
