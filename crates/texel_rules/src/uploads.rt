ghost use Rattle.std.specs.Prelude.{◌≡◌, ◌<◌, ◌≤◌, length};
ghost use Rattle.texel_rules.specs.UploadedTexels.{IsUpload, UploadedTexels, pitch, row_bytes, view_bytes};

use crate::{Layout, plain_row, row_place};

/// An image as a page hands it over: its sides, how its texels lie, and the parameters of the pixel store (OpenGL ES 2.0
/// section 3.6.1, WebGL 1.0 section 5.14.8).
#[derive(Clone, Copy, Debug)]
pub struct Upload {
    /// In texels, at most 2,048.
    pub width: u32,
    /// In texels, at most 2,048.
    pub height: u32,
    /// How the texels lie.
    pub layout: Layout,
    /// UNPACK_ALIGNMENT, in bytes: 1, 2, 4 or 8.
    pub alignment: u32,
    /// UNPACK_FLIP_Y_WEBGL: the last row of the bytes is row 0 of the image.
    pub flip: bool,
    /// UNPACK_PREMULTIPLY_ALPHA_WEBGL: colours are multiplied by their alpha.
    pub premultiply: bool,
}

impl Upload {
    /// How many bytes the texels of a row have. The image is within the limits: an allowed layout, sides of at most 2,048
    /// texels, and an alignment of at most 8 bytes.
    pub fn row_bytes(&self) -> u32
        requires { IsUpload self.now }
        ensures { result ≡ row_bytes self.now }
    {
        self.width * self.layout.texel_bytes()
    }

    /// From one row to the next, in bytes: a row's bytes rounded up to the alignment (OpenGL ES 2.0 section 3.6.1). The image
    /// is within the limits.
    pub fn pitch(&self) -> u32
        requires { IsUpload self.now }
        ensures { result ≡ pitch self.now }
    {
        (self.row_bytes() + (self.alignment - 1)) / self.alignment * self.alignment
    }

    /// How many bytes a view of the image has at least: all rows but the last with their padding, and the last without; 0
    /// where a side is 0 (WebGL 1.0 section 5.14.8). The image is within the limits.
    pub fn view_bytes(&self) -> u32
        requires { IsUpload self.now }
        ensures { result ≡ view_bytes self.now }
    {
        if self.width == 0 || self.height == 0 {
            0
        } else {
            (self.height - 1) * self.pitch() + self.row_bytes()
        }
    }
}

/// Writes row y of an image, which lies in the view from its first byte on: exactly the uploaded texels of that row (OpenGL
/// ES 2.0 sections 3.6.1 and 3.6.2, WebGL 1.0 section 5.14.8). The image is within the limits, y is below its height, the view
/// has the bytes of the whole image, and `into` has those of a row.
pub fn upload_row(upload: &Upload, view: &[u8], y: u32, into: &mut [u8])
    requires image { IsUpload upload.now }
    requires row { y < upload.now.height }
    requires all { view_bytes upload.now ≤ length view.now }
    requires one { length into.old ≡ row_bytes upload.now }
    ensures { UploadedTexels upload.now view.now y into.new }
{
    let place = row_place(upload.height, upload.pitch(), upload.flip, y) as usize;
    let from = &view[place..place + into.len()];
    plain_row(upload.layout, upload.premultiply, from, into);
}
