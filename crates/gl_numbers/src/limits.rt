/// The most bytes that a buffer has, 64 MiB: this project's own limit (OpenGL ES 2.0 section 2.9 leaves it to the driver).
pub const BUFFER_BYTES_MAX: u32 = 67_108_864;

/// The most handles that a page is given, over all kinds of object: this project's own limit.
pub const HANDLES_MAX: u32 = 1_048_576;

/// How many vertex attributes there are (MAX_VERTEX_ATTRIBS, OpenGL ES 2.0 section 2.7, which asks for 8 at least): this
/// project's own limit.
pub const VERTEX_ATTRIBS_MAX: u32 = 16;

/// The longest side of a texture, a cube map and a renderbuffer, in pixels (OpenGL ES 2.0 sections 3.7.1 and 4.4.3 ask for 64
/// at least, of cube maps for 16 and of renderbuffers for 1): this project's own limit.
pub const IMAGE_SIDE_MAX: u32 = 2048;

/// How many vectors of uniforms a vertex shader may have (OpenGL ES 2.0 section 2.10.4 asks for 128 at least): this project's
/// own limit.
pub const VERTEX_UNIFORM_VECTORS_MAX: u32 = 256;

/// How many vectors of uniforms a fragment shader may have (OpenGL ES 2.0 section 3.8.1 asks for 16 at least): this project's
/// own limit.
pub const FRAGMENT_UNIFORM_VECTORS_MAX: u32 = 224;

/// How many vectors of varyings a program may have (OpenGL ES 2.0 section 2.10.5 asks for 8 at least): this project's own limit.
pub const VARYING_VECTORS_MAX: u32 = 16;

/// How many texture units a fragment shader may sample (OpenGL ES 2.0 section 3.8.2 asks for 8 at least): this project's own
/// limit.
pub const TEXTURE_UNITS_MAX: u32 = 16;

/// How many texture units a vertex shader may sample (OpenGL ES 2.0 section 2.10.5 allows 0): this project's own limit.
pub const VERTEX_TEXTURE_UNITS_MAX: u32 = 4;

/// How many texture units there are (OpenGL ES 2.0 section 2.10.5 asks for 8 at least): this project's own limit.
pub const COMBINED_TEXTURE_UNITS_MAX: u32 = 20;
