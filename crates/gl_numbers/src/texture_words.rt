ghost use Rattle.std.specs.Prelude.{◌≡◌};
ghost use Rattle.gl_numbers.specs.TextureWords.{face_of, face_target, format_of, format_word, texel_type_of, texel_type_word, texture_target_of, texture_target_word};

/// The target of two-dimensional textures, and the name of their one image.
pub const TEXTURE_2D: u32 = 0x0DE1;
/// The target of cube map textures.
pub const TEXTURE_CUBE_MAP: u32 = 0x8513;
/// The face of a cube map that looks along the positive x axis; the five others follow it.
pub const TEXTURE_CUBE_MAP_POSITIVE_X: u32 = 0x8515;
/// The face of a cube map that looks along the negative x axis.
pub const TEXTURE_CUBE_MAP_NEGATIVE_X: u32 = 0x8516;
/// The face of a cube map that looks along the positive y axis.
pub const TEXTURE_CUBE_MAP_POSITIVE_Y: u32 = 0x8517;
/// The face of a cube map that looks along the negative y axis.
pub const TEXTURE_CUBE_MAP_NEGATIVE_Y: u32 = 0x8518;
/// The face of a cube map that looks along the positive z axis.
pub const TEXTURE_CUBE_MAP_POSITIVE_Z: u32 = 0x8519;
/// The face of a cube map that looks along the negative z axis.
pub const TEXTURE_CUBE_MAP_NEGATIVE_Z: u32 = 0x851A;

/// Texels of alpha alone.
pub const ALPHA: u32 = 0x1906;
/// Texels of red, green and blue.
pub const RGB: u32 = 0x1907;
/// Texels of red, green, blue and alpha.
pub const RGBA: u32 = 0x1908;
/// Texels of luminance alone.
pub const LUMINANCE: u32 = 0x1909;
/// Texels of luminance and alpha.
pub const LUMINANCE_ALPHA: u32 = 0x190A;

/// One byte for each channel.
pub const UNSIGNED_BYTE: u32 = 0x1401;
/// A texel of 16 bits, four for each of four channels.
pub const UNSIGNED_SHORT_4_4_4_4: u32 = 0x8033;
/// A texel of 16 bits, five for each colour and one for alpha.
pub const UNSIGNED_SHORT_5_5_5_1: u32 = 0x8034;
/// A texel of 16 bits, five for red, six for green and five for blue.
pub const UNSIGNED_SHORT_5_6_5: u32 = 0x8363;

/// A target that a texture is bound to (OpenGL ES 2.0 section 3.7.13, WebGL 1.0 section 5.14.8).
#[derive(Clone, Copy, Debug, PartialEq, Eq)]
pub enum TexTarget {
    /// TEXTURE_2D
    Texture2d,
    /// TEXTURE_CUBE_MAP
    CubeMap,
}

impl TexTarget {
    /// The target of this GL word; None exactly where it is neither.
    pub fn from_u32(n: u32) -> Option<Self>
        ensures { result ≡ texture_target_of n }
    {
        match n {
            TEXTURE_2D => Some(TexTarget::Texture2d),
            TEXTURE_CUBE_MAP => Some(TexTarget::CubeMap),
            _ => None,
        }
    }

    /// The GL word of this target.
    pub fn word(self) -> u32
        ensures { result ≡ texture_target_word self }
    {
        match self {
            TexTarget::Texture2d => TEXTURE_2D,
            TexTarget::CubeMap => TEXTURE_CUBE_MAP,
        }
    }
}

/// An image of a texture: the one of a two-dimensional texture, or one of the six faces of a cube map (OpenGL ES 2.0
/// section 3.7.1).
#[derive(Clone, Copy, Debug, PartialEq, Eq)]
pub enum Face {
    /// TEXTURE_2D
    Texture2d,
    /// TEXTURE_CUBE_MAP_POSITIVE_X
    PositiveX,
    /// TEXTURE_CUBE_MAP_NEGATIVE_X
    NegativeX,
    /// TEXTURE_CUBE_MAP_POSITIVE_Y
    PositiveY,
    /// TEXTURE_CUBE_MAP_NEGATIVE_Y
    NegativeY,
    /// TEXTURE_CUBE_MAP_POSITIVE_Z
    PositiveZ,
    /// TEXTURE_CUBE_MAP_NEGATIVE_Z
    NegativeZ,
}

impl Face {
    /// The face of this GL word; None exactly where it is none of the seven.
    pub fn from_u32(n: u32) -> Option<Self>
        ensures { result ≡ face_of n }
    {
        match n {
            TEXTURE_2D => Some(Face::Texture2d),
            TEXTURE_CUBE_MAP_POSITIVE_X => Some(Face::PositiveX),
            TEXTURE_CUBE_MAP_NEGATIVE_X => Some(Face::NegativeX),
            TEXTURE_CUBE_MAP_POSITIVE_Y => Some(Face::PositiveY),
            TEXTURE_CUBE_MAP_NEGATIVE_Y => Some(Face::NegativeY),
            TEXTURE_CUBE_MAP_POSITIVE_Z => Some(Face::PositiveZ),
            TEXTURE_CUBE_MAP_NEGATIVE_Z => Some(Face::NegativeZ),
            _ => None,
        }
    }

    /// The target of the textures that have this face.
    pub fn target(self) -> TexTarget
        ensures { result ≡ face_target self }
    {
        match self {
            Face::Texture2d => TexTarget::Texture2d,
            _ => TexTarget::CubeMap,
        }
    }
}

/// Which channels a texel has (OpenGL ES 2.0 section 3.6.2).
#[derive(Clone, Copy, Debug, PartialEq, Eq)]
pub enum Format {
    /// ALPHA
    Alpha,
    /// RGB
    Rgb,
    /// RGBA
    Rgba,
    /// LUMINANCE
    Luminance,
    /// LUMINANCE_ALPHA
    LuminanceAlpha,
}

impl Format {
    /// The format of this GL word; None exactly where it is none of the five.
    pub fn from_u32(n: u32) -> Option<Self>
        ensures { result ≡ format_of n }
    {
        match n {
            ALPHA => Some(Format::Alpha),
            RGB => Some(Format::Rgb),
            RGBA => Some(Format::Rgba),
            LUMINANCE => Some(Format::Luminance),
            LUMINANCE_ALPHA => Some(Format::LuminanceAlpha),
            _ => None,
        }
    }

    /// The GL word of this format.
    pub fn word(self) -> u32
        ensures { result ≡ format_word self }
    {
        match self {
            Format::Alpha => ALPHA,
            Format::Rgb => RGB,
            Format::Rgba => RGBA,
            Format::Luminance => LUMINANCE,
            Format::LuminanceAlpha => LUMINANCE_ALPHA,
        }
    }
}

/// How the channels of a texel lie in memory (OpenGL ES 2.0 section 3.6.2).
#[derive(Clone, Copy, Debug, PartialEq, Eq)]
pub enum TexelType {
    /// UNSIGNED_BYTE
    UnsignedByte,
    /// UNSIGNED_SHORT_4_4_4_4
    UnsignedShort4444,
    /// UNSIGNED_SHORT_5_5_5_1
    UnsignedShort5551,
    /// UNSIGNED_SHORT_5_6_5
    UnsignedShort565,
}

impl TexelType {
    /// The type of this GL word; None exactly where it is none of the four.
    pub fn from_u32(n: u32) -> Option<Self>
        ensures { result ≡ texel_type_of n }
    {
        match n {
            UNSIGNED_BYTE => Some(TexelType::UnsignedByte),
            UNSIGNED_SHORT_4_4_4_4 => Some(TexelType::UnsignedShort4444),
            UNSIGNED_SHORT_5_5_5_1 => Some(TexelType::UnsignedShort5551),
            UNSIGNED_SHORT_5_6_5 => Some(TexelType::UnsignedShort565),
            _ => None,
        }
    }

    /// The GL word of this type.
    pub fn word(self) -> u32
        ensures { result ≡ texel_type_word self }
    {
        match self {
            TexelType::UnsignedByte => UNSIGNED_BYTE,
            TexelType::UnsignedShort4444 => UNSIGNED_SHORT_4_4_4_4,
            TexelType::UnsignedShort5551 => UNSIGNED_SHORT_5_5_5_1,
            TexelType::UnsignedShort565 => UNSIGNED_SHORT_5_6_5,
        }
    }
}
