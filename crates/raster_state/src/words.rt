ghost use Rattle.std.specs.Prelude.{◌≡◌};
ghost use Rattle.raster_state.specs.FirstWords.{first_side, first_words};

use gl_numbers::{ALWAYS, BACK, CCW, FUNC_ADD, KEEP, LESS, ONE, ZERO};

/// The stencil state of front or back polygons (OpenGL ES 2.0 section 4.1.4).
#[derive(Clone, Copy, Debug, PartialEq, Eq)]
pub struct StencilSide {
    /// The comparison, NEVER to ALWAYS.
    pub func: u32,
    /// The reference that is compared, as it was given.
    pub reference: i32,
    /// Which bits of the reference and of the stencil value are compared.
    pub value_mask: u32,
    /// Which bits of the stencil value are written.
    pub write_mask: u32,
    /// The operations where the stencil test fails, where the depth test fails, and where both pass.
    pub ops: [u32; 3],
}

/// All raster state of a page, as its calls set it: enumerated values as their GL words, floats as the words of their bits.
#[derive(Clone, Copy, Debug, PartialEq, Eq)]
pub struct RasterWords {
    /// Whether each capability is enabled, by its place.
    pub enabled: [bool; 9],
    /// The blend colour: red, green, blue, alpha (OpenGL ES 2.0 section 4.1.6).
    pub blend_color: [u32; 4],
    /// The blend equations of colours and of alpha values (OpenGL ES 2.0 section 4.1.6).
    pub blend_equation: [u32; 2],
    /// The blend factors of colours, source and destination, and then those of alpha values (OpenGL ES 2.0 section 4.1.6).
    pub blend_func: [u32; 4],
    /// Whether red, green, blue and alpha are written (OpenGL ES 2.0 section 4.2.2).
    pub color_mask: [bool; 4],
    /// The comparison of depths, NEVER to ALWAYS (OpenGL ES 2.0 section 4.1.5).
    pub depth_func: u32,
    /// Whether depths are written (OpenGL ES 2.0 section 4.2.2).
    pub depth_mask: bool,
    /// The stencil state of polygons that face the viewer.
    pub front: StencilSide,
    /// The stencil state of polygons that face away.
    pub back: StencilSide,
    /// The sides that are culled: FRONT, BACK or FRONT_AND_BACK (OpenGL ES 2.0 section 3.5.1).
    pub cull_side: u32,
    /// How the corners of a polygon that faces the viewer go around: CW or CCW (OpenGL ES 2.0 section 3.5.1).
    pub winding: u32,
    /// The viewport in pixels: x, y, width, height (OpenGL ES 2.0 section 2.12.1).
    pub viewport: [i32; 4],
    /// The scissor box in pixels: x, y, width, height (OpenGL ES 2.0 section 4.1.2).
    pub scissor: [i32; 4],
    /// The colour that is cleared to: red, green, blue, alpha (OpenGL ES 2.0 section 4.2.3).
    pub clear_color: [u32; 4],
    /// The stencil value that is cleared to, as it was given (OpenGL ES 2.0 section 4.2.3).
    pub clear_stencil: i32,
}

impl StencilSide {
    /// The stencil state of a side at the start: ALWAYS with reference 0, all bits of both masks, and KEEP for each operation.
    fn first() -> StencilSide
        ensures { result ≡ first_side }
    {
        StencilSide {
            func: ALWAYS,
            reference: 0,
            value_mask: 0xFFFF_FFFF,
            write_mask: 0xFFFF_FFFF,
            ops: [KEEP, KEEP, KEEP],
        }
    }
}

impl RasterWords {
    /// The raster state at the start: DITHER alone is enabled, blending is FUNC_ADD with ONE and ZERO, all is written, the depth
    /// comparison is LESS, BACK is culled and CCW faces the viewer; viewport and scissor box are 300 by 150 pixels.
    pub(crate) fn first() -> RasterWords
        ensures { result ≡ first_words }
    {
        RasterWords {
            enabled: [false, false, false, true, false, false, false, false, false],
            blend_color: [0, 0, 0, 0],
            blend_equation: [FUNC_ADD, FUNC_ADD],
            blend_func: [ONE, ZERO, ONE, ZERO],
            color_mask: [true, true, true, true],
            depth_func: LESS,
            depth_mask: true,
            front: StencilSide::first(),
            back: StencilSide::first(),
            cull_side: BACK,
            winding: CCW,
            viewport: [0, 0, 300, 150],
            scissor: [0, 0, 300, 150],
            clear_color: [0, 0, 0, 0],
            clear_stencil: 0,
        }
    }
}
