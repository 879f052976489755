ghost use Rattle.std.specs.Prelude.{◌≡◌, ◌<◌, ◌≤◌};
ghost use Rattle.gl_numbers.specs.AttribWords.{attrib_parameter_of, attrib_type_of, attrib_type_size, attrib_type_word};

use crate::texture_words::UNSIGNED_BYTE;

/// A byte with a sign.
pub const BYTE: u32 = 0x1400;
/// A number of two bytes with a sign.
pub const SHORT: u32 = 0x1402;
/// A number of two bytes without a sign.
pub const UNSIGNED_SHORT: u32 = 0x1403;
/// A float of four bytes (IEEE 754 single).
pub const FLOAT: u32 = 0x1406;

/// Whether an attribute's array is enabled (OpenGL ES 2.0 section 6.1.8, as the seven words that follow).
pub const VERTEX_ATTRIB_ARRAY_ENABLED: u32 = 0x8622;
/// How many elements each vertex has in an array.
pub const VERTEX_ATTRIB_ARRAY_SIZE: u32 = 0x8623;
/// The bytes from one vertex to the next in an array, 0 where they follow each other.
pub const VERTEX_ATTRIB_ARRAY_STRIDE: u32 = 0x8624;
/// The type of an array's elements.
pub const VERTEX_ATTRIB_ARRAY_TYPE: u32 = 0x8625;
/// The constant of an attribute, four floats.
pub const CURRENT_VERTEX_ATTRIB: u32 = 0x8626;
/// Where an array begins in its buffer, in bytes.
pub const VERTEX_ATTRIB_ARRAY_POINTER: u32 = 0x8645;
/// Whether the integers of an array are scaled to 0 to 1, or to -1 to 1 where they have a sign.
pub const VERTEX_ATTRIB_ARRAY_NORMALIZED: u32 = 0x886A;
/// The buffer of an array.
pub const VERTEX_ATTRIB_ARRAY_BUFFER_BINDING: u32 = 0x889F;

/// The type of the elements of a vertex array (OpenGL ES 2.0 section 2.8; WebGL 1.0 section 5.14.10).
#[derive(Clone, Copy, Debug, PartialEq, Eq)]
pub enum AttribType {
    /// BYTE
    Byte,
    /// UNSIGNED_BYTE
    UnsignedByte,
    /// SHORT
    Short,
    /// UNSIGNED_SHORT
    UnsignedShort,
    /// FLOAT
    Float,
}

impl AttribType {
    /// The type of this GL word; None exactly where it is none of the five.
    pub fn from_u32(n: u32) -> Option<Self>
        ensures { result ≡ attrib_type_of n }
    {
        match n {
            BYTE => Some(AttribType::Byte),
            UNSIGNED_BYTE => Some(AttribType::UnsignedByte),
            SHORT => Some(AttribType::Short),
            UNSIGNED_SHORT => Some(AttribType::UnsignedShort),
            FLOAT => Some(AttribType::Float),
            _ => None,
        }
    }

    /// The GL word of this type.
    pub fn word(self) -> u32
        ensures { result ≡ attrib_type_word self }
    {
        match self {
            AttribType::Byte => BYTE,
            AttribType::UnsignedByte => UNSIGNED_BYTE,
            AttribType::Short => SHORT,
            AttribType::UnsignedShort => UNSIGNED_SHORT,
            AttribType::Float => FLOAT,
        }
    }

    /// The bytes of one element of this type: 1, 2 or 4.
    pub fn size(self) -> u32
        ensures value { result ≡ attrib_type_size self }
        ensures least { 0 < result }
        ensures most { result ≤ 4 }
    {
        match self {
            AttribType::Byte | AttribType::UnsignedByte => 1,
            AttribType::Short | AttribType::UnsignedShort => 2,
            AttribType::Float => 4,
        }
    }
}

/// What getVertexAttrib returns of an attribute (OpenGL ES 2.0 section 6.1.8; WebGL 1.0 section 5.14.10).
#[derive(Clone, Copy, Debug, PartialEq, Eq)]
pub enum AttribParameter {
    /// VERTEX_ATTRIB_ARRAY_ENABLED
    Enabled,
    /// VERTEX_ATTRIB_ARRAY_SIZE
    Size,
    /// VERTEX_ATTRIB_ARRAY_STRIDE
    Stride,
    /// VERTEX_ATTRIB_ARRAY_TYPE
    ElementType,
    /// CURRENT_VERTEX_ATTRIB
    Current,
    /// VERTEX_ATTRIB_ARRAY_NORMALIZED
    Normalized,
    /// VERTEX_ATTRIB_ARRAY_BUFFER_BINDING
    BufferBinding,
}

impl AttribParameter {
    /// The parameter of this GL word; None exactly where it is none of the seven.
    pub fn from_u32(n: u32) -> Option<Self>
        ensures { result ≡ attrib_parameter_of n }
    {
        match n {
            VERTEX_ATTRIB_ARRAY_ENABLED => Some(AttribParameter::Enabled),
            VERTEX_ATTRIB_ARRAY_SIZE => Some(AttribParameter::Size),
            VERTEX_ATTRIB_ARRAY_STRIDE => Some(AttribParameter::Stride),
            VERTEX_ATTRIB_ARRAY_TYPE => Some(AttribParameter::ElementType),
            CURRENT_VERTEX_ATTRIB => Some(AttribParameter::Current),
            VERTEX_ATTRIB_ARRAY_NORMALIZED => Some(AttribParameter::Normalized),
            VERTEX_ATTRIB_ARRAY_BUFFER_BINDING => Some(AttribParameter::BufferBinding),
            _ => None,
        }
    }
}
