ghost use Rattle.std.specs.Prelude.{◌≡◌};
ghost use Rattle.uniform_values.specs.Kinds.{fits, is_zero, kept, kind_type, takes};

use crate::slots::width;
use glsl_types::{Base, Component};

/// The type of the values that a uniform call of this kind gives: 1 to 4 are uniform1f to uniform4f and uniform1fv to
/// uniform4fv, 5 to 8 their forms for integers, 9 to 11 uniformMatrix2fv to uniformMatrix4fv; None of any other kind
/// (OpenGL ES 2.0 section 2.10.4).
pub fn kind_type(kind: u32) -> Option<Base>
    ensures { result ≡ kind_type kind }
{
    match kind {
        1 => Some(Base::Float),
        2 => Some(Base::Vec2),
        3 => Some(Base::Vec3),
        4 => Some(Base::Vec4),
        5 => Some(Base::Int),
        6 => Some(Base::IVec2),
        7 => Some(Base::IVec3),
        8 => Some(Base::IVec4),
        9 => Some(Base::Mat2),
        10 => Some(Base::Mat3),
        11 => Some(Base::Mat4),
        _ => None,
    }
}

/// Whether a uniform with components of the kind `own` takes values with components of the kind `given`.
fn takes(own: Option<Component>, given: Option<Component>) -> bool
    ensures { result ≡ takes own given }
{
    match (own, given) {
        (Some(Component::Bool), Some(_)) => true,
        (Some(Component::Float), Some(Component::Float)) => true,
        (Some(Component::Int), Some(Component::Int)) => true,
        (None, Some(Component::Int)) => true,
        _ => false,
    }
}

/// Whether values of the type `given` can be those of a uniform of the type `own`.
pub(crate) fn fits(own: Base, given: Base) -> bool
    ensures { result ≡ fits own given }
{
    given.components() == width(own)
        && given.columns() == own.columns()
        && takes(own.component(), given.component())
}

/// Whether a word is the number 0, of floats either zero.
fn is_zero(given: Base, word: u32) -> bool
    ensures { result ≡ is_zero given word }
{
    word == 0 || word == 0x8000_0000 && given.component() == Some(Component::Float)
}

/// The word that a uniform keeps of a word that it is given.
pub(crate) fn kept(own: Base, given: Base, word: u32) -> u32
    ensures { result ≡ kept own given word }
{
    if own.component() != Some(Component::Bool) {
        word
    } else if is_zero(given, word) {
        0
    } else {
        1
    }
}
