use gl_numbers::{AttribType, Handle};

/// A vertex attribute (OpenGL ES 2.0 sections 2.7 and 2.8): its array, which lies in a buffer, and its constant. A disabled
/// array keeps all that was said of it.
#[derive(Clone, Copy, Debug, PartialEq, Eq)]
pub struct Attrib {
    /// Whether vertices take their values from the array; else each has the constant.
    pub enabled: bool,
    /// The buffer that the array lies in, if it has one.
    pub buffer: Option<Handle>,
    /// How many elements a vertex has in the array: 1 to 4.
    pub size: u32,
    /// The type of the elements.
    pub kind: AttribType,
    /// Whether integers are scaled to 0 to 1, or to -1 to 1 where they have a sign.
    pub normalized: bool,
    /// The bytes from one vertex to the next, 0 to 255; where it is 0, they follow each other with nothing between.
    pub stride: u32,
    /// The bytes of the buffer before the first vertex.
    pub offset: u64,
    /// The words of the constant's four floats (IEEE 754 single).
    pub constant: [u32; 4],
}
