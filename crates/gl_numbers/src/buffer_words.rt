ghost use Rattle.std.specs.Prelude.{◌≡◌};
ghost use Rattle.gl_numbers.specs.BufferWords.{buffer_target_of, is_buffer_parameter, usage_of, usage_word};

/// The target of vertex data.
pub const ARRAY_BUFFER: u32 = 0x8892;
/// The target of index data.
pub const ELEMENT_ARRAY_BUFFER: u32 = 0x8893;

/// Written once, drawn a few times.
pub const STREAM_DRAW: u32 = 0x88E0;
/// Written once, drawn many times.
pub const STATIC_DRAW: u32 = 0x88E4;
/// Written often, drawn many times.
pub const DYNAMIC_DRAW: u32 = 0x88E8;

/// The parameter of a buffer that is its size in bytes (OpenGL ES 2.0 section 6.1.3).
pub const BUFFER_SIZE: u32 = 0x8764;
/// The parameter of a buffer that is its usage (OpenGL ES 2.0 section 6.1.3).
pub const BUFFER_USAGE: u32 = 0x8765;

/// A target that a buffer is bound to (OpenGL ES 2.0 section 2.9, WebGL 1.0 section 5.14.5).
#[derive(Clone, Copy, Debug, PartialEq, Eq)]
pub enum BufferTarget {
    /// ARRAY_BUFFER
    Array,
    /// ELEMENT_ARRAY_BUFFER
    ElementArray,
}

/// Whether a buffer has a parameter of this word: BUFFER_SIZE or BUFFER_USAGE (OpenGL ES 2.0 section 6.1.3).
pub fn is_buffer_parameter(n: u32) -> bool
    ensures { result ≡ is_buffer_parameter n }
{
    n == BUFFER_SIZE || n == BUFFER_USAGE
}

impl BufferTarget {
    /// The target of this GL word; None exactly where it is neither.
    pub fn from_u32(n: u32) -> Option<Self>
        ensures { result ≡ buffer_target_of n }
    {
        match n {
            ARRAY_BUFFER => Some(BufferTarget::Array),
            ELEMENT_ARRAY_BUFFER => Some(BufferTarget::ElementArray),
            _ => None,
        }
    }
}

/// How a page means to use a buffer's bytes (OpenGL ES 2.0 section 2.9, table 2.6).
#[derive(Clone, Copy, Debug, PartialEq, Eq)]
pub enum Usage {
    /// STREAM_DRAW
    StreamDraw,
    /// STATIC_DRAW
    StaticDraw,
    /// DYNAMIC_DRAW
    DynamicDraw,
}

impl Usage {
    /// The usage of this GL word; None exactly where it is none of the three.
    pub fn from_u32(n: u32) -> Option<Self>
        ensures { result ≡ usage_of n }
    {
        match n {
            STREAM_DRAW => Some(Usage::StreamDraw),
            STATIC_DRAW => Some(Usage::StaticDraw),
            DYNAMIC_DRAW => Some(Usage::DynamicDraw),
            _ => None,
        }
    }

    /// The GL word of this usage.
    pub fn word(self) -> u32
        ensures { result ≡ usage_word self }
    {
        match self {
            Usage::StreamDraw => STREAM_DRAW,
            Usage::StaticDraw => STATIC_DRAW,
            Usage::DynamicDraw => DYNAMIC_DRAW,
        }
    }
}
