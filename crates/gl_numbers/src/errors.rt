ghost use Rattle.std.specs.Prelude.{◌≡◌};
ghost use Rattle.gl_numbers.specs.Errors.{code_of};

/// The answer of getError where no flag is set, and the `raised` of a reply that raises nothing.
pub const NO_ERROR: u32 = 0;
/// An enumerated argument is out of range.
pub const INVALID_ENUM: u32 = 0x0500;
/// A numeric argument is out of range.
pub const INVALID_VALUE: u32 = 0x0501;
/// The call is not allowed in the present state.
pub const INVALID_OPERATION: u32 = 0x0502;
/// Memory is wanting.
pub const OUT_OF_MEMORY: u32 = 0x0505;
/// The bound framebuffer is not complete.
pub const INVALID_FRAMEBUFFER_OPERATION: u32 = 0x0506;

/// out of memory: an allocation was refused. It is merged with no other error.
#[derive(Clone, Copy, Debug, PartialEq, Eq)]
pub struct Memory;

/// What a GL call can raise (OpenGL ES 2.0 section 2.5, WebGL 1.0 section 5.14.3).
#[derive(Clone, Copy, Debug, PartialEq, Eq)]
pub enum GlError {
    /// INVALID_ENUM
    Enum,
    /// INVALID_VALUE
    Value,
    /// INVALID_OPERATION
    Operation,
    /// OUT_OF_MEMORY
    Memory,
    /// INVALID_FRAMEBUFFER_OPERATION
    Framebuffer,
}

impl GlError {
    /// The error's GL code, from 0x0500 to 0x0506.
    pub fn code(self) -> u32
        ensures { result ≡ code_of self }
    {
        match self {
            GlError::Enum => INVALID_ENUM,
            GlError::Value => INVALID_VALUE,
            GlError::Operation => INVALID_OPERATION,
            GlError::Memory => OUT_OF_MEMORY,
            GlError::Framebuffer => INVALID_FRAMEBUFFER_OPERATION,
        }
    }
}
