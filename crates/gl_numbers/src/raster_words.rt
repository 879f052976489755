ghost use Rattle.std.specs.Prelude.{◌≡◌};
ghost use Rattle.gl_numbers.specs.RasterWords.{is_blend_equation, is_comparison, is_constant_alpha, is_constant_color, is_destination_factor, is_source_factor, is_stencil_operation, is_winding, side_of};

/// Polygons that face the viewer.
pub const FRONT: u32 = 0x0404;
/// Polygons that face away.
pub const BACK: u32 = 0x0405;
/// All polygons.
pub const FRONT_AND_BACK: u32 = 0x0408;

/// A polygon faces the viewer where its corners go around clockwise.
pub const CW: u32 = 0x0900;
/// A polygon faces the viewer where its corners go around counter-clockwise.
pub const CCW: u32 = 0x0901;

/// Never.
pub const NEVER: u32 = 0x0200;
/// Where the new value is below the stored one.
pub const LESS: u32 = 0x0201;
/// Where the two are equal.
pub const EQUAL: u32 = 0x0202;
/// Where the new value is the stored one or below it.
pub const LEQUAL: u32 = 0x0203;
/// Where the new value is above the stored one.
pub const GREATER: u32 = 0x0204;
/// Where the two differ.
pub const NOTEQUAL: u32 = 0x0205;
/// Where the new value is the stored one or above it.
pub const GEQUAL: u32 = 0x0206;
/// Always.
pub const ALWAYS: u32 = 0x0207;

/// The sum of the source and the destination.
pub const FUNC_ADD: u32 = 0x8006;
/// The source less the destination.
pub const FUNC_SUBTRACT: u32 = 0x800A;
/// The destination less the source.
pub const FUNC_REVERSE_SUBTRACT: u32 = 0x800B;

/// The factor 0, and the stencil operation that stores 0.
pub const ZERO: u32 = 0;
/// The factor 1.
pub const ONE: u32 = 1;
/// The colour of the source.
pub const SRC_COLOR: u32 = 0x0300;
/// 1 less the colour of the source.
pub const ONE_MINUS_SRC_COLOR: u32 = 0x0301;
/// The alpha value of the source.
pub const SRC_ALPHA: u32 = 0x0302;
/// 1 less the alpha value of the source.
pub const ONE_MINUS_SRC_ALPHA: u32 = 0x0303;
/// The alpha value of the destination.
pub const DST_ALPHA: u32 = 0x0304;
/// 1 less the alpha value of the destination.
pub const ONE_MINUS_DST_ALPHA: u32 = 0x0305;
/// The colour of the destination.
pub const DST_COLOR: u32 = 0x0306;
/// 1 less the colour of the destination.
pub const ONE_MINUS_DST_COLOR: u32 = 0x0307;
/// The least of the source's alpha value and 1 less the destination's: a factor of the source alone.
pub const SRC_ALPHA_SATURATE: u32 = 0x0308;
/// The blend colour.
pub const CONSTANT_COLOR: u32 = 0x8001;
/// 1 less the blend colour.
pub const ONE_MINUS_CONSTANT_COLOR: u32 = 0x8002;
/// The alpha value of the blend colour.
pub const CONSTANT_ALPHA: u32 = 0x8003;
/// 1 less the alpha value of the blend colour.
pub const ONE_MINUS_CONSTANT_ALPHA: u32 = 0x8004;

/// The stencil value stays.
pub const KEEP: u32 = 0x1E00;
/// The reference replaces the stencil value.
pub const REPLACE: u32 = 0x1E01;
/// The stencil value grows by 1, up to the largest.
pub const INCR: u32 = 0x1E02;
/// The stencil value falls by 1, down to 0.
pub const DECR: u32 = 0x1E03;
/// The bits of the stencil value are inverted.
pub const INVERT: u32 = 0x150A;
/// The stencil value grows by 1, and 0 follows the largest.
pub const INCR_WRAP: u32 = 0x8507;
/// The stencil value falls by 1, and the largest follows 0.
pub const DECR_WRAP: u32 = 0x8508;

/// The sides of polygons that a call speaks of (OpenGL ES 2.0 sections 3.5.1 and 4.1.4).
#[derive(Clone, Copy, Debug, PartialEq, Eq)]
pub enum Side {
    /// FRONT
    Front,
    /// BACK
    Back,
    /// FRONT_AND_BACK
    FrontAndBack,
}

impl Side {
    /// The sides of this GL word; None exactly where it is none of the three.
    #[tactic(auto, unfolding(crate::specs::RasterWords::side_of))]
    pub fn from_u32(n: u32) -> Option<Self>
        ensures { result ≡ side_of n }
    {
        match n {
            FRONT => Some(Side::Front),
            BACK => Some(Side::Back),
            FRONT_AND_BACK => Some(Side::FrontAndBack),
            _ => None,
        }
    }
}

/// Whether the word is a winding: CW or CCW (OpenGL ES 2.0 section 3.5.1).
#[tactic(auto, unfolding(crate::specs::RasterWords::is_winding))]
pub fn is_winding(n: u32) -> bool
    ensures { result ≡ is_winding n }
{
    n == CW || n == CCW
}

/// Whether the word is a comparison: NEVER to ALWAYS, 0x0200 to 0x0207 (OpenGL ES 2.0 sections 4.1.4 and 4.1.5).
#[tactic(auto, unfolding(crate::specs::RasterWords::is_comparison))]
pub fn is_comparison(n: u32) -> bool
    ensures { result ≡ is_comparison n }
{
    matches!(n, NEVER..=ALWAYS)
}

/// Whether the word is a blend equation: FUNC_ADD, FUNC_SUBTRACT or FUNC_REVERSE_SUBTRACT (OpenGL ES 2.0 section 4.1.6).
#[tactic(auto, unfolding(crate::specs::RasterWords::is_blend_equation))]
pub fn is_blend_equation(n: u32) -> bool
    ensures { result ≡ is_blend_equation n }
{
    n == FUNC_ADD || n == FUNC_SUBTRACT || n == FUNC_REVERSE_SUBTRACT
}

/// Whether the word is a blend factor of the destination: ZERO, ONE, one of the colours and alpha values from SRC_COLOR to
/// ONE_MINUS_DST_COLOR, or one of the constants from CONSTANT_COLOR to ONE_MINUS_CONSTANT_ALPHA (OpenGL ES 2.0 section 4.1.6,
/// table 4.2).
#[tactic(auto, unfolding(crate::specs::RasterWords::is_destination_factor))]
pub fn is_destination_factor(n: u32) -> bool
    ensures { result ≡ is_destination_factor n }
{
    matches!(
        n,
        ZERO..=ONE
            | SRC_COLOR..=ONE_MINUS_DST_COLOR
            | CONSTANT_COLOR..=ONE_MINUS_CONSTANT_ALPHA
    )
}

/// Whether the word is a blend factor of the source: one of the destination's, or SRC_ALPHA_SATURATE (OpenGL ES 2.0 section
/// 4.1.6, table 4.2).
#[tactic(auto, unfolding(crate::specs::RasterWords::is_source_factor))]
pub fn is_source_factor(n: u32) -> bool
    ensures { result ≡ is_source_factor n }
{
    is_destination_factor(n) || n == SRC_ALPHA_SATURATE
}

/// Whether the word is a blend factor of the blend colour's colours: CONSTANT_COLOR or ONE_MINUS_CONSTANT_COLOR (WebGL 1.0
/// section 6.13).
#[tactic(auto, unfolding(crate::specs::RasterWords::is_constant_color))]
pub fn is_constant_color(n: u32) -> bool
    ensures { result ≡ is_constant_color n }
{
    n == CONSTANT_COLOR || n == ONE_MINUS_CONSTANT_COLOR
}

/// Whether the word is a blend factor of the blend colour's alpha value: CONSTANT_ALPHA or ONE_MINUS_CONSTANT_ALPHA (WebGL
/// 1.0 section 6.13).
#[tactic(auto, unfolding(crate::specs::RasterWords::is_constant_alpha))]
pub fn is_constant_alpha(n: u32) -> bool
    ensures { result ≡ is_constant_alpha n }
{
    n == CONSTANT_ALPHA || n == ONE_MINUS_CONSTANT_ALPHA
}

/// Whether the word is a stencil operation: ZERO, KEEP to DECR, INVERT, INCR_WRAP or DECR_WRAP (OpenGL ES 2.0 section 4.1.4).
#[tactic(auto, unfolding(crate::specs::RasterWords::is_stencil_operation))]
pub fn is_stencil_operation(n: u32) -> bool
    ensures { result ≡ is_stencil_operation n }
{
    matches!(n, ZERO | KEEP..=DECR | INVERT | INCR_WRAP | DECR_WRAP)
}
