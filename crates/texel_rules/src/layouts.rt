ghost use Rattle.std.specs.Prelude.{◌≡◌};
ghost use Rattle.texel_rules.specs.Layouts.{is_allowed, texel_bytes};

use gl_numbers::{Format, TexelType};

/// How many levels a face of a texture has at most, from 2048x2048 to 1x1 (OpenGL ES 2.0 section 3.7.7).
pub const LEVEL_COUNT: u32 = 12;

/// How one texel lies in memory (OpenGL ES 2.0 section 3.6.2).
#[derive(Clone, Copy, Debug, PartialEq, Eq)]
pub struct Layout {
    /// Which channels it has.
    pub format: Format,
    /// How they lie.
    pub kind: TexelType,
}

impl Layout {
    /// Whether the format and the type go together (OpenGL ES 2.0 section 3.7.1).
    pub fn is_allowed(self) -> bool
        ensures { result ≡ is_allowed self }
    {
        match self.kind {
            TexelType::UnsignedByte => true,
            TexelType::UnsignedShort4444 | TexelType::UnsignedShort5551 => {
                self.format == Format::Rgba
            }
            TexelType::UnsignedShort565 => self.format == Format::Rgb,
        }
    }

    /// How many bytes a texel has, from 1 to 4.
    pub fn texel_bytes(self) -> u32
        ensures { result ≡ texel_bytes self }
    {
        match (self.kind, self.format) {
            (TexelType::UnsignedByte, Format::Alpha | Format::Luminance) => 1,
            (TexelType::UnsignedByte, Format::LuminanceAlpha) => 2,
            (TexelType::UnsignedByte, Format::Rgb) => 3,
            (TexelType::UnsignedByte, Format::Rgba) => 4,
            _ => 2,
        }
    }
}

/// A texel taken apart, each channel in its own width. A channel that the format lacks is 0, and a luminance stands in
/// `r`.
#[derive(Clone, Copy, Debug, PartialEq, Eq)]
pub struct Texel {
    /// Red, or the luminance.
    pub r: u8,
    /// Green.
    pub g: u8,
    /// Blue.
    pub b: u8,
    /// Alpha.
    pub a: u8,
}

/// One level of an image of a texture (OpenGL ES 2.0 section 3.7.1).
#[derive(Clone, Copy, Debug, PartialEq, Eq)]
pub struct LevelInfo {
    /// In texels.
    pub width: u32,
    /// In texels.
    pub height: u32,
    /// How its texels lay when they were given.
    pub layout: Layout,
}
