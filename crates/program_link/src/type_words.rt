ghost use Rattle.std.specs.Prelude.{◌≡◌};
ghost use Rattle.program_link.specs.TypeWords.{type_word};

use glsl_types::Base;

/// The GL word of a type; 0 of a structure, which is never active itself (OpenGL ES 2.0 section 2.10.4, table 2.8).
pub(crate) fn type_word(base: Base) -> u32
    ensures { result ≡ type_word base }
{
    match base {
        Base::Float => 0x1406,
        Base::Vec2 => 0x8B50,
        Base::Vec3 => 0x8B51,
        Base::Vec4 => 0x8B52,
        Base::Int => 0x1404,
        Base::IVec2 => 0x8B53,
        Base::IVec3 => 0x8B54,
        Base::IVec4 => 0x8B55,
        Base::Bool => 0x8B56,
        Base::BVec2 => 0x8B57,
        Base::BVec3 => 0x8B58,
        Base::BVec4 => 0x8B59,
        Base::Mat2 => 0x8B5A,
        Base::Mat3 => 0x8B5B,
        Base::Mat4 => 0x8B5C,
        Base::Sampler2D => 0x8B5E,
        Base::SamplerCube => 0x8B60,
        Base::Struct(_) => 0,
    }
}
