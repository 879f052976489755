ghost use Rattle.std.specs.Prelude.{◌≡◌, ◌&&◌};
ghost use Rattle.attrib_state.specs.Rules.{element_count_of, is_multiple, offset_of, stride_of};

use gl_numbers::AttribType;

/// The largest stride of an array, in bytes (WebGL 1.0 section 5.14.10).
pub const STRIDE_MAX: u32 = 255;

/// Where the array of an attribute lies in its buffer, as vertexAttribPointer is told it (OpenGL ES 2.0 section 2.8).
#[derive(Clone, Copy, Debug, PartialEq, Eq)]
pub struct Pointer {
    /// How many elements a vertex has; 1 to 4 are allowed.
    pub size: i32,
    /// The GL word of the type of the elements.
    pub kind: u32,
    /// Whether integers are scaled to 0 to 1, or to -1 to 1 where they have a sign.
    pub normalized: bool,
    /// The bytes from one vertex to the next, 0 where they follow each other; 0 to 255 are allowed.
    pub stride: i32,
    /// The bytes of the buffer before the first vertex; a negative number isn't allowed.
    pub offset: i64,
}

/// How many elements a vertex has, where it is 1 to 4.
pub(crate) fn element_count(size: i32) -> Option<u32>
    ensures { result ≡ element_count_of size }
{
    match u32::try_from(size) {
        Ok(n) if n >= 1 && n <= 4 => Some(n),
        _ => None,
    }
}

/// A stride in bytes, where it is 0 to 255.
pub(crate) fn stride_bytes(stride: i32) -> Option<u32>
    ensures { result ≡ stride_of stride }
{
    match u32::try_from(stride) {
        Ok(n) if n <= STRIDE_MAX => Some(n),
        _ => None,
    }
}

/// An offset in bytes, where it isn't negative.
pub(crate) fn offset_bytes(offset: i64) -> Option<u64>
    ensures { result ≡ offset_of offset }
{
    match u64::try_from(offset) {
        Ok(n) => Some(n),
        Err(_) => None,
    }
}

/// Whether a stride and an offset are multiples of the size of an element of this type.
pub(crate) fn is_aligned(kind: AttribType, stride: u32, offset: u64) -> bool
    ensures { result ≡ (is_multiple kind stride && is_multiple kind offset) }
{
    stride % kind.size() == 0 && offset % u64::from(kind.size()) == 0
}
