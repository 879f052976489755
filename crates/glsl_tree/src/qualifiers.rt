ghost use Rattle.std.specs.Prelude.{◌≡◌};
ghost use Rattle.glsl_tree.specs.Qualifiers.{basic_text, precision_text, direction_text};

/// A basic type, but for `void` (GLSL ES 1.00.17 section 4.1).
#[derive(Clone, Copy)]
pub enum Basic {
    /// `float`
    Float,
    /// `int`
    Int,
    /// `bool`
    Bool,
    /// `vec2`
    Vec2,
    /// `vec3`
    Vec3,
    /// `vec4`
    Vec4,
    /// `ivec2`
    IVec2,
    /// `ivec3`
    IVec3,
    /// `ivec4`
    IVec4,
    /// `bvec2`
    BVec2,
    /// `bvec3`
    BVec3,
    /// `bvec4`
    BVec4,
    /// `mat2`
    Mat2,
    /// `mat3`
    Mat3,
    /// `mat4`
    Mat4,
    /// `sampler2D`
    Sampler2D,
    /// `samplerCube`
    SamplerCube,
}

impl Basic {
    /// The keyword.
    pub fn text(self) -> &'static [u8]
        ensures { result.now ≡ basic_text self }
    {
        match self {
            Basic::Float => b"float",
            Basic::Int => b"int",
            Basic::Bool => b"bool",
            Basic::Vec2 => b"vec2",
            Basic::Vec3 => b"vec3",
            Basic::Vec4 => b"vec4",
            Basic::IVec2 => b"ivec2",
            Basic::IVec3 => b"ivec3",
            Basic::IVec4 => b"ivec4",
            Basic::BVec2 => b"bvec2",
            Basic::BVec3 => b"bvec3",
            Basic::BVec4 => b"bvec4",
            Basic::Mat2 => b"mat2",
            Basic::Mat3 => b"mat3",
            Basic::Mat4 => b"mat4",
            Basic::Sampler2D => b"sampler2D",
            Basic::SamplerCube => b"samplerCube",
        }
    }
}

/// A precision qualifier (section 4.5.2).
#[derive(Clone, Copy)]
pub enum Precision {
    /// `lowp`
    Low,
    /// `mediump`
    Medium,
    /// `highp`
    High,
}

impl Precision {
    /// The keyword.
    pub fn text(self) -> &'static [u8]
        ensures { result.now ≡ precision_text self }
    {
        match self {
            Precision::Low => b"lowp",
            Precision::Medium => b"mediump",
            Precision::High => b"highp",
        }
    }
}

/// A storage qualifier, with the invariance of a varying (sections 4.3 and 4.6.1).
#[derive(Clone, Copy)]
pub enum Storage {
    /// `const`
    Const,
    /// `attribute`
    Attribute,
    /// `varying`
    Varying,
    /// `invariant varying`
    InvariantVarying,
    /// `uniform`
    Uniform,
}

/// The direction of a parameter (section 6.1.1).
#[derive(Clone, Copy)]
pub enum Direction {
    /// `in`
    In,
    /// `out`
    Out,
    /// `inout`
    InOut,
}

impl Direction {
    /// The keyword.
    pub fn text(self) -> &'static [u8]
        ensures { result.now ≡ direction_text self }
    {
        match self {
            Direction::In => b"in",
            Direction::Out => b"out",
            Direction::InOut => b"inout",
        }
    }
}
