ghost use Rattle.std.specs.Prelude.{◌≡◌, ◌*◌, ◌<◌, ◌^◌, true, length};
ghost use Rattle.texel_rules.specs.Layouts.{IsAllowed};
ghost use Rattle.texel_rules.specs.Texels.{is_premultiplied};
ghost use Rattle.texel_rules.specs.UploadedTexels.{IsWhole, converted_row, source_row};

use crate::{Layout, pack_texel, premultiply, read_texel};
use gl_numbers::Format;

/// Converts a row of whole texels: each is taken apart, premultiplied where that is on, and packed again (OpenGL ES 2.0
/// section 3.6.2, WebGL 1.0 section 5.14.8). Both slices have the same number of bytes, and the layout is allowed.
/// Where no texel changes the row is copied whole.
pub fn plain_row(layout: Layout, premultiplied: bool, from: &[u8], into: &mut [u8])
    requires allowed { IsAllowed layout }
    requires whole { IsWhole layout from.now }
    requires same { length into.old ≡ length from.now }
    ensures { into.new ≡ converted_row layout premultiplied from.now }
{
    if premultiplied && is_premultiplied(layout.format) {
        premultiply_row(layout, from, into);
    } else {
        into.copy_from_slice(from);
    }
}

/// Whether texels of the format have an alpha and a channel that it multiplies.
fn is_premultiplied(format: Format) -> bool
    ensures { result ≡ is_premultiplied format }
{
    match format {
        Format::Rgba | Format::LuminanceAlpha => true,
        Format::Alpha | Format::Luminance | Format::Rgb => false,
    }
}

/// Converts a row of whole texels, each premultiplied.
fn premultiply_row(layout: Layout, from: &[u8], into: &mut [u8])
    requires allowed { IsAllowed layout }
    requires whole { IsWhole layout from.now }
    requires same { length into.old ≡ length from.now }
    ensures { into.new ≡ converted_row layout true from.now }
{
    let size = layout.texel_bytes() as usize;
    let mut at = 0;
    while at < from.len() {
        let next = at + size;
        let texel = premultiply(layout, read_texel(layout, &from[at..next]));
        pack_texel(layout, texel, &mut into[at..next]);
        at = next;
    }
}

/// Where row y of an image begins in the bytes of a view, in bytes: rows lie `pitch` bytes apart, the last first with
/// `flip` (UNPACK_FLIP_Y_WEBGL, WebGL 1.0 section 5.14.8). `y` is below the height, and all rows have fewer than 2^32
/// bytes.
pub fn row_place(height: u32, pitch: u32, flip: bool, y: u32) -> u32
    requires row { y < height }
    requires all { height * pitch < 2 ^ 32 }
    ensures { result ≡ source_row height flip y * pitch }
{
    if flip {
        (height - 1 - y) * pitch
    } else {
        y * pitch
    }
}
