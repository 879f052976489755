ghost use Rattle.std.specs.Prelude.{◌≡◌};
ghost use Rattle.gl_numbers.specs.PixelWords.{pixel_parameter_of};

/// Rows of texels that the page gives begin at multiples of so many bytes (OpenGL ES 2.0 section 3.6.1).
pub const UNPACK_ALIGNMENT: u32 = 0x0CF5;
/// Rows of texels that the page reads begin at multiples of so many bytes (OpenGL ES 2.0 section 4.3.1).
pub const PACK_ALIGNMENT: u32 = 0x0D05;
/// Whether the rows that the page gives are taken from the last to the first (WebGL 1.0 section 5.14.8).
pub const UNPACK_FLIP_Y_WEBGL: u32 = 0x9240;
/// Whether colours that the page gives are multiplied by their alpha value (WebGL 1.0 section 5.14.8).
pub const UNPACK_PREMULTIPLY_ALPHA_WEBGL: u32 = 0x9241;
/// How the colour space of an image is converted: BROWSER_DEFAULT_WEBGL, or 0 for none (WebGL 1.0 section 5.14.8).
pub const UNPACK_COLORSPACE_CONVERSION_WEBGL: u32 = 0x9243;
/// The browser converts the colour space of an image as it does by default.
pub const BROWSER_DEFAULT_WEBGL: u32 = 0x9244;

/// What pixelStorei sets (WebGL 1.0 sections 5.14.3 and 5.14.8; OpenGL ES 2.0 sections 3.6.1 and 4.3.1).
#[derive(Clone, Copy, Debug, PartialEq, Eq)]
pub enum PixelParameter {
    /// UNPACK_ALIGNMENT
    UnpackAlignment,
    /// PACK_ALIGNMENT
    PackAlignment,
    /// UNPACK_FLIP_Y_WEBGL
    FlipY,
    /// UNPACK_PREMULTIPLY_ALPHA_WEBGL
    PremultiplyAlpha,
    /// UNPACK_COLORSPACE_CONVERSION_WEBGL
    ColorspaceConversion,
}

impl PixelParameter {
    /// The parameter of this GL word; None exactly where it is none of the five.
    #[tactic(auto, unfolding(crate::specs::PixelWords::pixel_parameter_of))]
    pub fn from_u32(n: u32) -> Option<Self>
        ensures { result ≡ pixel_parameter_of n }
    {
        match n {
            UNPACK_ALIGNMENT => Some(PixelParameter::UnpackAlignment),
            PACK_ALIGNMENT => Some(PixelParameter::PackAlignment),
            UNPACK_FLIP_Y_WEBGL => Some(PixelParameter::FlipY),
            UNPACK_PREMULTIPLY_ALPHA_WEBGL => Some(PixelParameter::PremultiplyAlpha),
            UNPACK_COLORSPACE_CONVERSION_WEBGL => Some(PixelParameter::ColorspaceConversion),
            _ => None,
        }
    }
}
