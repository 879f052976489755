ghost use Rattle.std.specs.Prelude.{◌≡◌};
ghost use Rattle.gl_numbers.specs.TextureParameters.{is_magnification, is_minification, is_mipmap_filter, is_texture_parameter, is_wrap};

/// How a texture is sampled where a texel is larger than a pixel: NEAREST or LINEAR (OpenGL ES 2.0 section 3.7.8).
pub const TEXTURE_MAG_FILTER: u32 = 0x2800;
/// How a texture is sampled where a texel is smaller than a pixel (OpenGL ES 2.0 section 3.7.7).
pub const TEXTURE_MIN_FILTER: u32 = 0x2801;
/// What is sampled left and right of a texture (OpenGL ES 2.0 section 3.7.6).
pub const TEXTURE_WRAP_S: u32 = 0x2802;
/// What is sampled above and below a texture (OpenGL ES 2.0 section 3.7.6).
pub const TEXTURE_WRAP_T: u32 = 0x2803;

/// The nearest texel of the base level.
pub const NEAREST: u32 = 0x2600;
/// The mean of the four nearest texels of the base level.
pub const LINEAR: u32 = 0x2601;
/// The nearest texel of the nearest level.
pub const NEAREST_MIPMAP_NEAREST: u32 = 0x2700;
/// The mean of texels of the nearest level.
pub const LINEAR_MIPMAP_NEAREST: u32 = 0x2701;
/// The nearest texels of two levels.
pub const NEAREST_MIPMAP_LINEAR: u32 = 0x2702;
/// The means of texels of two levels.
pub const LINEAR_MIPMAP_LINEAR: u32 = 0x2703;

/// The texture again.
pub const REPEAT: u32 = 0x2901;
/// The texels at the edge.
pub const CLAMP_TO_EDGE: u32 = 0x812F;
/// The texture again, mirrored every other time.
pub const MIRRORED_REPEAT: u32 = 0x8370;

/// Whether a texture has a parameter of this word: one of the two filters and the two wraps, 0x2800 to 0x2803 (OpenGL
/// ES 2.0 section 3.7.4).
pub fn is_texture_parameter(n: u32) -> bool
    ensures { result ≡ is_texture_parameter n }
{
    n == TEXTURE_MAG_FILTER || n == TEXTURE_MIN_FILTER || n == TEXTURE_WRAP_S || n == TEXTURE_WRAP_T
}

/// Whether the word is a magnification filter: NEAREST or LINEAR (OpenGL ES 2.0 section 3.7.4).
pub fn is_magnification(n: u32) -> bool
    ensures { result ≡ is_magnification n }
{
    n == NEAREST || n == LINEAR
}

/// Whether the word is a minification filter that reads other levels than the base (OpenGL ES 2.0 section 3.7.7).
pub fn is_mipmap_filter(n: u32) -> bool
    ensures { result ≡ is_mipmap_filter n }
{
    n == NEAREST_MIPMAP_NEAREST
        || n == LINEAR_MIPMAP_NEAREST
        || n == NEAREST_MIPMAP_LINEAR
        || n == LINEAR_MIPMAP_LINEAR
}

/// Whether the word is a minification filter (OpenGL ES 2.0 section 3.7.4).
pub fn is_minification(n: u32) -> bool
    ensures { result ≡ is_minification n }
{
    is_magnification(n) || is_mipmap_filter(n)
}

/// Whether the word is a wrap: REPEAT, CLAMP_TO_EDGE or MIRRORED_REPEAT (OpenGL ES 2.0 section 3.7.4).
pub fn is_wrap(n: u32) -> bool
    ensures { result ≡ is_wrap n }
{
    n == REPEAT || n == CLAMP_TO_EDGE || n == MIRRORED_REPEAT
}
