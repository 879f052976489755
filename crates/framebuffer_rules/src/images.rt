ghost use Rattle.std.specs.Prelude.{◌≡◌, Some};
ghost use Rattle.texel_rules.specs.FramebufferStatus.{framebuffer_status, is_color_renderbuffer, is_color_texture, is_fit, spoils};
ghost use Rattle.framebuffer_rules.specs.Images.{alone_status, attached_at, four_attached, image_of, together_status};

use gl_numbers::{
    DEPTH_COMPONENT16, DEPTH_STENCIL, FRAMEBUFFER_COMPLETE, FRAMEBUFFER_INCOMPLETE_ATTACHMENT,
    FRAMEBUFFER_INCOMPLETE_DIMENSIONS, FRAMEBUFFER_INCOMPLETE_MISSING_ATTACHMENT,
    FRAMEBUFFER_UNSUPPORTED, Handle, Point, RGB, RGB5_A1, RGB565, RGBA, RGBA4, STENCIL_INDEX8,
    UNSIGNED_BYTE, UNSIGNED_SHORT_4_4_4_4, UNSIGNED_SHORT_5_5_5_1, UNSIGNED_SHORT_5_6_5,
};

/// An image by what it belongs to: a renderbuffer, or a face of a texture, at its base level (OpenGL ES 2.0 section
/// 4.4.3).
#[derive(Clone, Copy, Debug, PartialEq, Eq)]
pub struct Image {
    /// The renderbuffer or the texture.
    pub h: Handle,
    /// The GL word of the texture's face, and 0 for a renderbuffer.
    pub face: u32,
}

/// What the status of a framebuffer depends on at one point. An attached renderbuffer without storage, and a texture
/// without a base on the face, are images whose sides are 0.
#[derive(Clone, Copy, Debug, PartialEq, Eq)]
pub struct ImageInfo {
    /// Whether it is a texture's; else it is a renderbuffer's.
    pub texture: bool,
    /// In texels.
    pub width: u32,
    /// In texels.
    pub height: u32,
    /// The GL word of the format of a texture's texels, or of a renderbuffer.
    pub format: u32,
    /// The GL word of the type of a texture's texels, and 0 for a renderbuffer.
    pub kind: u32,
}

/// The status of a framebuffer with these images at the points colour, depth, stencil, and depth and stencil, as a GL
/// word (OpenGL ES 2.0 section 4.4.5). Images at two of the last three points aren't supported (WebGL 1.0 section 6.6).
pub fn status(images: &[Option<ImageInfo>; 4]) -> u32
    ensures { result ≡ framebuffer_status (attached_at images.now) }
{
    status_of(images[0], images[1], images[2], images[3])
}

/// The status of a framebuffer with these images.
fn status_of(
    color: Option<ImageInfo>,
    depth: Option<ImageInfo>,
    stencil: Option<ImageInfo>,
    depth_stencil: Option<ImageInfo>,
) -> u32
    ensures { result ≡ framebuffer_status (four_attached color depth stencil depth_stencil) }
{
    match (color, depth, stencil, depth_stencil) {
        (None, None, None, None) => FRAMEBUFFER_INCOMPLETE_MISSING_ATTACHMENT,
        (Some(a), None, None, None) => alone(Point::Color, a),
        (None, Some(b), None, None) => alone(Point::Depth, b),
        (None, None, Some(b), None) => alone(Point::Stencil, b),
        (None, None, None, Some(b)) => alone(Point::DepthStencil, b),
        (Some(a), Some(b), None, None) => together(a, Point::Depth, b),
        (Some(a), None, Some(b), None) => together(a, Point::Stencil, b),
        (Some(a), None, None, Some(b)) => together(a, Point::DepthStencil, b),
        _ => FRAMEBUFFER_UNSUPPORTED,
    }
}

/// The status of a framebuffer with one image.
fn alone(point: Point, image: ImageInfo) -> u32
    ensures { result ≡ alone_status point (image_of image) }
{
    if is_spoilt(point, image) {
        FRAMEBUFFER_INCOMPLETE_ATTACHMENT
    } else {
        FRAMEBUFFER_COMPLETE
    }
}

/// The status of a framebuffer with a colour image and another.
fn together(color: ImageInfo, point: Point, other: ImageInfo) -> u32
    ensures { result ≡ together_status (image_of color) point (image_of other) }
{
    if is_spoilt(Point::Color, color) || is_spoilt(point, other) {
        FRAMEBUFFER_INCOMPLETE_ATTACHMENT
    } else if color.width != other.width || color.height != other.height {
        FRAMEBUFFER_INCOMPLETE_DIMENSIONS
    } else {
        FRAMEBUFFER_COMPLETE
    }
}

/// Whether an image spoils the framebuffer: it has no texels, or is unfit for its point.
fn is_spoilt(point: Point, image: ImageInfo) -> bool
    ensures { result ≡ spoils point (Some (image_of image)) }
{
    image.width == 0 || image.height == 0 || !is_fit(point, image)
}

/// Whether an image is fit for a point, by its format and type.
fn is_fit(point: Point, image: ImageInfo) -> bool
    ensures { result ≡ is_fit point (image_of image) }
{
    match point {
        Point::Color if image.texture => is_color_texture(image.format, image.kind),
        Point::Color => is_color_renderbuffer(image.format),
        Point::Depth => !image.texture && image.format == DEPTH_COMPONENT16,
        Point::Stencil => !image.texture && image.format == STENCIL_INDEX8,
        Point::DepthStencil => !image.texture && image.format == DEPTH_STENCIL,
    }
}

/// Whether a texture of this format and type is a colour image.
fn is_color_texture(format: u32, kind: u32) -> bool
    ensures { result ≡ is_color_texture format kind }
{
    (kind == UNSIGNED_BYTE && (format == RGBA || format == RGB))
        || (format == RGBA && (kind == UNSIGNED_SHORT_4_4_4_4 || kind == UNSIGNED_SHORT_5_5_5_1))
        || (format == RGB && kind == UNSIGNED_SHORT_5_6_5)
}

/// Whether a renderbuffer of this format is a colour image.
fn is_color_renderbuffer(format: u32) -> bool
    ensures { result ≡ is_color_renderbuffer format }
{
    format == RGBA4 || format == RGB5_A1 || format == RGB565
}
