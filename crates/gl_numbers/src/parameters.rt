ghost use Rattle.std.specs.Prelude.{◌≡◌};
ghost use Rattle.gl_numbers.specs.Parameters.{bound_target_of, limit_of, limit_value, parameter_of, raster_parameter_of};

use crate::buffer_words::BufferTarget;
use crate::limits::{
    COMBINED_TEXTURE_UNITS_MAX, FRAGMENT_UNIFORM_VECTORS_MAX, IMAGE_SIDE_MAX, TEXTURE_UNITS_MAX,
    VARYING_VECTORS_MAX, VERTEX_ATTRIBS_MAX, VERTEX_TEXTURE_UNITS_MAX, VERTEX_UNIFORM_VECTORS_MAX,
};
use crate::pixel_words::PixelParameter;

/// The buffer that is bound to ARRAY_BUFFER (OpenGL ES 2.0 section 6.2, as the words that follow).
pub const ARRAY_BUFFER_BINDING: u32 = 0x8894;
/// The buffer that is bound to ELEMENT_ARRAY_BUFFER.
pub const ELEMENT_ARRAY_BUFFER_BINDING: u32 = 0x8895;

/// The sides of polygons that are culled.
pub const CULL_FACE_MODE: u32 = 0x0B45;
/// How the corners of a polygon that faces the viewer go around.
pub const FRONT_FACE: u32 = 0x0B46;
/// Whether depths are written.
pub const DEPTH_WRITEMASK: u32 = 0x0B72;
/// The comparison of depths.
pub const DEPTH_FUNC: u32 = 0x0B74;
/// The stencil value that is cleared to.
pub const STENCIL_CLEAR_VALUE: u32 = 0x0B91;
/// The viewport.
pub const VIEWPORT: u32 = 0x0BA2;
/// The scissor box.
pub const SCISSOR_BOX: u32 = 0x0C10;
/// The colour that is cleared to.
pub const COLOR_CLEAR_VALUE: u32 = 0x0C22;
/// Which components of a colour are written.
pub const COLOR_WRITEMASK: u32 = 0x0C23;
/// The blend colour.
pub const BLEND_COLOR: u32 = 0x8005;

/// The longest side of a texture.
pub const MAX_TEXTURE_SIZE: u32 = 0x0D33;
/// The longest side of a cube map.
pub const MAX_CUBE_MAP_TEXTURE_SIZE: u32 = 0x851C;
/// The longest side of a renderbuffer.
pub const MAX_RENDERBUFFER_SIZE: u32 = 0x84E8;
/// How many vertex attributes there are.
pub const MAX_VERTEX_ATTRIBS: u32 = 0x8869;
/// How many vectors of uniforms a vertex shader may have.
pub const MAX_VERTEX_UNIFORM_VECTORS: u32 = 0x8DFB;
/// How many vectors of varyings a program may have.
pub const MAX_VARYING_VECTORS: u32 = 0x8DFC;
/// How many vectors of uniforms a fragment shader may have.
pub const MAX_FRAGMENT_UNIFORM_VECTORS: u32 = 0x8DFD;
/// How many texture units a fragment shader may sample.
pub const MAX_TEXTURE_IMAGE_UNITS: u32 = 0x8872;
/// How many texture units a vertex shader may sample.
pub const MAX_VERTEX_TEXTURE_IMAGE_UNITS: u32 = 0x8B4C;
/// How many texture units there are.
pub const MAX_COMBINED_TEXTURE_IMAGE_UNITS: u32 = 0x8B4D;

/// Raster state that getParameter returns (OpenGL ES 2.0 section 6.2).
#[derive(Clone, Copy, Debug, PartialEq, Eq)]
pub enum RasterParameter {
    /// CULL_FACE_MODE
    CullSide,
    /// FRONT_FACE
    Winding,
    /// DEPTH_WRITEMASK
    DepthMask,
    /// DEPTH_FUNC
    DepthFunc,
    /// STENCIL_CLEAR_VALUE
    ClearStencil,
    /// VIEWPORT
    Viewport,
    /// SCISSOR_BOX
    Scissor,
    /// COLOR_CLEAR_VALUE
    ClearColor,
    /// COLOR_WRITEMASK
    ColorMask,
    /// BLEND_COLOR
    BlendColor,
}

impl RasterParameter {
    /// The parameter of this GL word; None exactly where it is none of the ten.
    #[tactic(auto, unfolding(crate::specs::Parameters::raster_parameter_of))]
    pub fn from_u32(n: u32) -> Option<Self>
        ensures { result ≡ raster_parameter_of n }
    {
        match n {
            CULL_FACE_MODE => Some(RasterParameter::CullSide),
            FRONT_FACE => Some(RasterParameter::Winding),
            DEPTH_WRITEMASK => Some(RasterParameter::DepthMask),
            DEPTH_FUNC => Some(RasterParameter::DepthFunc),
            STENCIL_CLEAR_VALUE => Some(RasterParameter::ClearStencil),
            VIEWPORT => Some(RasterParameter::Viewport),
            SCISSOR_BOX => Some(RasterParameter::Scissor),
            COLOR_CLEAR_VALUE => Some(RasterParameter::ClearColor),
            COLOR_WRITEMASK => Some(RasterParameter::ColorMask),
            BLEND_COLOR => Some(RasterParameter::BlendColor),
            _ => None,
        }
    }
}

/// A limit that getParameter returns (OpenGL ES 2.0 section 6.2, tables of implementation dependent values).
#[derive(Clone, Copy, Debug, PartialEq, Eq)]
pub enum Limit {
    /// MAX_TEXTURE_SIZE
    TextureSize,
    /// MAX_CUBE_MAP_TEXTURE_SIZE
    CubeMapSize,
    /// MAX_RENDERBUFFER_SIZE
    RenderbufferSize,
    /// MAX_VERTEX_ATTRIBS
    VertexAttribs,
    /// MAX_VERTEX_UNIFORM_VECTORS
    VertexUniformVectors,
    /// MAX_VARYING_VECTORS
    VaryingVectors,
    /// MAX_FRAGMENT_UNIFORM_VECTORS
    FragmentUniformVectors,
    /// MAX_TEXTURE_IMAGE_UNITS
    TextureUnits,
    /// MAX_VERTEX_TEXTURE_IMAGE_UNITS
    VertexTextureUnits,
    /// MAX_COMBINED_TEXTURE_IMAGE_UNITS
    CombinedTextureUnits,
}

impl Limit {
    /// The limit of this GL word; None exactly where it is none of the ten.
    #[tactic(auto, unfolding(crate::specs::Parameters::limit_of))]
    pub fn from_u32(n: u32) -> Option<Self>
        ensures { result ≡ limit_of n }
    {
        match n {
            MAX_TEXTURE_SIZE => Some(Limit::TextureSize),
            MAX_CUBE_MAP_TEXTURE_SIZE => Some(Limit::CubeMapSize),
            MAX_RENDERBUFFER_SIZE => Some(Limit::RenderbufferSize),
            MAX_VERTEX_ATTRIBS => Some(Limit::VertexAttribs),
            MAX_VERTEX_UNIFORM_VECTORS => Some(Limit::VertexUniformVectors),
            MAX_VARYING_VECTORS => Some(Limit::VaryingVectors),
            MAX_FRAGMENT_UNIFORM_VECTORS => Some(Limit::FragmentUniformVectors),
            MAX_TEXTURE_IMAGE_UNITS => Some(Limit::TextureUnits),
            MAX_VERTEX_TEXTURE_IMAGE_UNITS => Some(Limit::VertexTextureUnits),
            MAX_COMBINED_TEXTURE_IMAGE_UNITS => Some(Limit::CombinedTextureUnits),
            _ => None,
        }
    }

    /// The limit: pixels for a side, else a count.
    pub fn value(self) -> u32
        ensures { result ≡ limit_value self }
    {
        match self {
            Limit::TextureSize | Limit::CubeMapSize | Limit::RenderbufferSize => IMAGE_SIDE_MAX,
            Limit::VertexAttribs => VERTEX_ATTRIBS_MAX,
            Limit::VertexUniformVectors => VERTEX_UNIFORM_VECTORS_MAX,
            Limit::VaryingVectors => VARYING_VECTORS_MAX,
            Limit::FragmentUniformVectors => FRAGMENT_UNIFORM_VECTORS_MAX,
            Limit::TextureUnits => TEXTURE_UNITS_MAX,
            Limit::VertexTextureUnits => VERTEX_TEXTURE_UNITS_MAX,
            Limit::CombinedTextureUnits => COMBINED_TEXTURE_UNITS_MAX,
        }
    }
}

/// What getParameter returns (WebGL 1.0 section 5.14.3), by the part of the state that has it.
#[derive(Clone, Copy, Debug, PartialEq, Eq)]
pub enum Parameter {
    /// The buffer that is bound to a target.
    Bound(BufferTarget),
    /// A pixel store word.
    Pixel(PixelParameter),
    /// Raster state.
    Raster(RasterParameter),
    /// A limit.
    Limit(Limit),
}

impl Parameter {
    /// The parameter of this GL word; None exactly where it is none of these.
    #[tactic(auto, unfolding(crate::specs::Parameters::parameter_of))]
    pub fn from_u32(n: u32) -> Option<Self>
        ensures { result ≡ parameter_of n }
    {
        if let Some(target) = bound_target(n) {
            return Some(Parameter::Bound(target));
        }
        if let Some(parameter) = PixelParameter::from_u32(n) {
            return Some(Parameter::Pixel(parameter));
        }
        if let Some(parameter) = RasterParameter::from_u32(n) {
            return Some(Parameter::Raster(parameter));
        }
        match Limit::from_u32(n) {
            Some(limit) => Some(Parameter::Limit(limit)),
            None => None,
        }
    }
}

/// The target whose bound buffer this GL word asks for; None exactly where it asks for none.
fn bound_target(n: u32) -> Option<BufferTarget>
    ensures { result ≡ bound_target_of n }
{
    match n {
        ARRAY_BUFFER_BINDING => Some(BufferTarget::Array),
        ELEMENT_ARRAY_BUFFER_BINDING => Some(BufferTarget::ElementArray),
        _ => None,
    }
}
