use gl_numbers::Name;
use glsl_tree::Text;
use glsl_types::{Base, SlType};

/// An active attribute or uniform, as getActiveAttrib and getActiveUniform tell it (OpenGL ES 2.0 section 2.10.4).
#[derive(Clone, Copy, Debug, PartialEq, Eq)]
pub struct Active {
    /// Its name; that of an array ends in `[0]`.
    pub name: Name,
    /// The size of an array, and 1 of what is none.
    pub size: u32,
    /// The GL word of its type.
    pub kind: u32,
    /// The first location of an attribute, or the first slot of a uniform.
    pub first: u32,
}

/// An active attribute.
#[derive(Drop)]
pub struct Attribute {
    /// Its name, of at most 256 bytes.
    pub name: Text,
    /// Its type.
    pub base: Base,
    /// Its location, or the first of them where it is a matrix.
    pub location: u32,
}

/// An active uniform that is no structure.
#[derive(Drop)]
pub struct Uniform {
    /// Its name without the `[0]` of an array.
    pub name: Text,
    /// Its type.
    pub kind: SlType,
    /// The slot of its first element.
    pub first: u32,
}
