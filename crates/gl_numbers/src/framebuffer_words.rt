ghost use Rattle.std.specs.Prelude.{◌≡◌};
ghost use Rattle.gl_numbers.specs.FramebufferWords.{is_renderbuffer_format, point_of, point_word};

/// Where the colour image of a framebuffer is attached.
pub const COLOR_ATTACHMENT0: u32 = 0x8CE0;
/// Where the depth image of a framebuffer is attached.
pub const DEPTH_ATTACHMENT: u32 = 0x8D00;
/// Where the stencil image of a framebuffer is attached.
pub const STENCIL_ATTACHMENT: u32 = 0x8D20;
/// Where an image of depth and stencil is attached (WebGL 1.0 section 6.6).
pub const DEPTH_STENCIL_ATTACHMENT: u32 = 0x821A;

/// A renderbuffer of four channels of 4 bits.
pub const RGBA4: u32 = 0x8056;
/// A renderbuffer of three colours of 5 bits and one bit of alpha.
pub const RGB5_A1: u32 = 0x8057;
/// A renderbuffer of colours of 5, 6 and 5 bits.
pub const RGB565: u32 = 0x8D62;
/// A renderbuffer of depths of 16 bits.
pub const DEPTH_COMPONENT16: u32 = 0x81A5;
/// A renderbuffer of stencil values of 8 bits.
pub const STENCIL_INDEX8: u32 = 0x8D48;
/// A renderbuffer of depths and stencil values, as a page names it (WebGL 1.0 section 6.6).
pub const DEPTH_STENCIL: u32 = 0x84F9;

/// The framebuffer has no missing or unfit image.
pub const FRAMEBUFFER_COMPLETE: u32 = 0x8CD5;
/// An image is unfit for its point, or has no texel.
pub const FRAMEBUFFER_INCOMPLETE_ATTACHMENT: u32 = 0x8CD6;
/// No image is attached.
pub const FRAMEBUFFER_INCOMPLETE_MISSING_ATTACHMENT: u32 = 0x8CD7;
/// Two images differ in width or height.
pub const FRAMEBUFFER_INCOMPLETE_DIMENSIONS: u32 = 0x8CD9;
/// The images aren't supported together.
pub const FRAMEBUFFER_UNSUPPORTED: u32 = 0x8CDD;

/// A point of a framebuffer at which an image is attached (OpenGL ES 2.0 section 4.4.3, WebGL 1.0 section 6.6).
#[derive(Clone, Copy, Debug, PartialEq, Eq)]
pub enum Point {
    /// COLOR_ATTACHMENT0
    Color,
    /// DEPTH_ATTACHMENT
    Depth,
    /// STENCIL_ATTACHMENT
    Stencil,
    /// DEPTH_STENCIL_ATTACHMENT
    DepthStencil,
}

impl Point {
    /// The point of this GL word; None exactly where it is none of the four.
    pub fn from_u32(n: u32) -> Option<Self>
        ensures { result ≡ point_of n }
    {
        match n {
            COLOR_ATTACHMENT0 => Some(Point::Color),
            DEPTH_ATTACHMENT => Some(Point::Depth),
            STENCIL_ATTACHMENT => Some(Point::Stencil),
            DEPTH_STENCIL_ATTACHMENT => Some(Point::DepthStencil),
            _ => None,
        }
    }

    /// The GL word of this point.
    pub fn word(self) -> u32
        ensures { result ≡ point_word self }
    {
        match self {
            Point::Color => COLOR_ATTACHMENT0,
            Point::Depth => DEPTH_ATTACHMENT,
            Point::Stencil => STENCIL_ATTACHMENT,
            Point::DepthStencil => DEPTH_STENCIL_ATTACHMENT,
        }
    }
}

/// Whether the word is a format of a page's renderbuffers (OpenGL ES 2.0 section 4.4.3, WebGL 1.0 section 6.6).
pub fn is_renderbuffer_format(n: u32) -> bool
    ensures { result ≡ is_renderbuffer_format n }
{
    n == RGBA4
        || n == RGB5_A1
        || n == RGB565
        || n == DEPTH_COMPONENT16
        || n == STENCIL_INDEX8
        || n == DEPTH_STENCIL
}
