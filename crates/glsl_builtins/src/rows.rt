ghost use Rattle.std.specs.Prelude.{◌≡◌};
ghost use Rattle.glsl_builtins.specs.Functions.{kind_at, is_in};

use gl_numbers::Stage;
use glsl_types::{Base, Component};

/// The stages whose shaders have a built-in.
#[derive(Clone, Copy, Debug, PartialEq, Eq)]
pub enum Stages {
    /// Vertex and fragment shaders.
    Both,
    /// Vertex shaders alone.
    Vertex,
    /// Fragment shaders alone.
    Fragment,
}

impl Stages {
    /// Whether a shader of this stage is one of them.
    pub fn has(self, stage: Stage) -> bool
        ensures { result ≡ is_in stage self }
    {
        match (self, stage) {
            (Stages::Both, _) => true,
            (Stages::Vertex, Stage::Vertex) => true,
            (Stages::Fragment, Stage::Fragment) => true,
            _ => false,
        }
    }
}

/// A type in the table of functions (GLSL ES 1.00.17 chapter 8). The first five stand for a type of each size, and those
/// of one row for types of one size: `General` and `BoolVector` may be `vec3` and `bvec3`, but not `vec3` and `bvec2`.
#[derive(Clone, Copy, Debug, PartialEq, Eq)]
pub enum Form {
    /// `float`, `vec2`, `vec3` or `vec4`: genType of chapter 8.
    General,
    /// `vec2`, `vec3` or `vec4`.
    Vector,
    /// `ivec2`, `ivec3` or `ivec4`.
    IntVector,
    /// `bvec2`, `bvec3` or `bvec4`.
    BoolVector,
    /// `mat2`, `mat3` or `mat4`.
    Matrix,
    /// `float`
    Float,
    /// `bool`
    Bool,
    /// `vec2`
    Vec2,
    /// `vec3`
    Vec3,
    /// `vec4`
    Vec4,
    /// `sampler2D`
    Sampler2D,
    /// `samplerCube`
    SamplerCube,
}

impl Form {
    /// The type where the size is this; None where there is none of that size.
    pub fn at(self, size: u32) -> Option<Base>
        ensures { result ≡ kind_at size self }
    {
        match self {
            Form::General => Base::vector(Component::Float, size),
            Form::Vector if size > 1 => Base::vector(Component::Float, size),
            Form::IntVector if size > 1 => Base::vector(Component::Int, size),
            Form::BoolVector if size > 1 => Base::vector(Component::Bool, size),
            Form::Vector | Form::IntVector | Form::BoolVector => None,
            Form::Matrix => Base::matrix(size),
            Form::Float => Some(Base::Float),
            Form::Bool => Some(Base::Bool),
            Form::Vec2 => Some(Base::Vec2),
            Form::Vec3 => Some(Base::Vec3),
            Form::Vec4 => Some(Base::Vec4),
            Form::Sampler2D => Some(Base::Sampler2D),
            Form::SamplerCube => Some(Base::SamplerCube),
        }
    }
}

/// A row of the table of functions: their names, the arguments that each of them takes, what it returns, and the
/// shaders that have it.
pub type FunctionRow = (&'static [&'static [u8]], &'static [Form], Form, Stages);
