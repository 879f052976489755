ghost use Rattle.std.specs.Prelude.{◌≡◌, ◌≤◌};
ghost use Rattle.glsl_types.specs.Bases.{named, component_of, size, columns, components, vector, matrix, is_sampler, same_base};

use glsl_tree::Basic;

/// What the components of a type are (GLSL ES 1.00.17 sections 4.1.1 to 4.1.4).
#[derive(Clone, Copy, Debug, PartialEq, Eq)]
pub enum Component {
    /// A number with a fraction.
    Float,
    /// A whole number with a sign.
    Int,
    /// A truth value.
    Bool,
}

/// A type but for its array size (section 4.1).
#[derive(Clone, Copy, Debug, PartialEq, Eq)]
pub enum Base {
    /// `float`
    Float,
    /// `int`
    Int,
    /// `bool`
    Bool,
    /// `vec2`
    Vec2,
    /// `vec3`
    Vec3,
    /// `vec4`
    Vec4,
    /// `ivec2`
    IVec2,
    /// `ivec3`
    IVec3,
    /// `ivec4`
    IVec4,
    /// `bvec2`
    BVec2,
    /// `bvec3`
    BVec3,
    /// `bvec4`
    BVec4,
    /// `mat2`
    Mat2,
    /// `mat3`
    Mat3,
    /// `mat4`
    Mat4,
    /// `sampler2D`
    Sampler2D,
    /// `samplerCube`
    SamplerCube,
    /// The structure that the shader declares at this place among its structures, from 1; 0 is the type of
    /// `gl_DepthRange` (section 7.5).
    Struct(u32),
}

impl Base {
    /// The type of this keyword.
    pub fn named(basic: Basic) -> Base
        ensures { result ≡ named basic }
    {
        match basic {
            Basic::Float => Base::Float,
            Basic::Int => Base::Int,
            Basic::Bool => Base::Bool,
            Basic::Vec2 => Base::Vec2,
            Basic::Vec3 => Base::Vec3,
            Basic::Vec4 => Base::Vec4,
            Basic::IVec2 => Base::IVec2,
            Basic::IVec3 => Base::IVec3,
            Basic::IVec4 => Base::IVec4,
            Basic::BVec2 => Base::BVec2,
            Basic::BVec3 => Base::BVec3,
            Basic::BVec4 => Base::BVec4,
            Basic::Mat2 => Base::Mat2,
            Basic::Mat3 => Base::Mat3,
            Basic::Mat4 => Base::Mat4,
            Basic::Sampler2D => Base::Sampler2D,
            Basic::SamplerCube => Base::SamplerCube,
        }
    }

    /// The scalar or the vector of so many components; None where the size is not from 1 to 4.
    pub fn vector(component: Component, size: u32) -> Option<Base>
        ensures { result ≡ vector component size }
    {
        match (component, size) {
            (Component::Float, 1) => Some(Base::Float),
            (Component::Float, 2) => Some(Base::Vec2),
            (Component::Float, 3) => Some(Base::Vec3),
            (Component::Float, 4) => Some(Base::Vec4),
            (Component::Int, 1) => Some(Base::Int),
            (Component::Int, 2) => Some(Base::IVec2),
            (Component::Int, 3) => Some(Base::IVec3),
            (Component::Int, 4) => Some(Base::IVec4),
            (Component::Bool, 1) => Some(Base::Bool),
            (Component::Bool, 2) => Some(Base::BVec2),
            (Component::Bool, 3) => Some(Base::BVec3),
            (Component::Bool, 4) => Some(Base::BVec4),
            _ => None,
        }
    }

    /// The matrix of so many columns of as many rows; None where the size is not from 2 to 4.
    pub fn matrix(size: u32) -> Option<Base>
        ensures { result ≡ matrix size }
    {
        match size {
            2 => Some(Base::Mat2),
            3 => Some(Base::Mat3),
            4 => Some(Base::Mat4),
            _ => None,
        }
    }

    /// What its components are; None of a sampler and of a structure.
    pub fn component(self) -> Option<Component>
        ensures { result ≡ component_of self }
    {
        match self {
            Base::Float | Base::Vec2 | Base::Vec3 | Base::Vec4 => Some(Component::Float),
            Base::Mat2 | Base::Mat3 | Base::Mat4 => Some(Component::Float),
            Base::Int | Base::IVec2 | Base::IVec3 | Base::IVec4 => Some(Component::Int),
            Base::Bool | Base::BVec2 | Base::BVec3 | Base::BVec4 => Some(Component::Bool),
            Base::Sampler2D | Base::SamplerCube | Base::Struct(_) => None,
        }
    }

    /// How many components a scalar, a vector or one column of a matrix has; 0 of a sampler and of a structure.
    pub fn size(self) -> u32
        ensures size { result ≡ size self }
        ensures within { result ≤ 4 }
    {
        match self {
            Base::Float | Base::Int | Base::Bool => 1,
            Base::Vec2 | Base::IVec2 | Base::BVec2 | Base::Mat2 => 2,
            Base::Vec3 | Base::IVec3 | Base::BVec3 | Base::Mat3 => 3,
            Base::Vec4 | Base::IVec4 | Base::BVec4 | Base::Mat4 => 4,
            Base::Sampler2D | Base::SamplerCube | Base::Struct(_) => 0,
        }
    }

    /// How many columns a matrix has; 0 of any other type.
    pub fn columns(self) -> u32
        ensures columns { result ≡ columns self }
        ensures within { result ≤ 4 }
    {
        match self {
            Base::Mat2 => 2,
            Base::Mat3 => 3,
            Base::Mat4 => 4,
            _ => 0,
        }
    }

    /// How many components it has in all, at most 16; 0 of a sampler and of a structure.
    pub fn components(self) -> u32
        ensures components { result ≡ components self }
        ensures within { result ≤ 16 }
    {
        match self {
            Base::Mat2 => 4,
            Base::Mat3 => 9,
            Base::Mat4 => 16,
            _ => self.size(),
        }
    }

    /// Whether it is a sampler (section 4.1.7).
    pub fn is_sampler(self) -> bool
        ensures { result ≡ is_sampler self }
    {
        matches!(self, Base::Sampler2D | Base::SamplerCube)
    }

    /// Whether the two are one type. Structures are one exactly where they come from one declaration (section 4.1.8).
    pub fn is_same(self, other: Base) -> bool
        ensures { result ≡ same_base self other }
    {
        self == other
    }
}
