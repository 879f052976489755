ghost use Rattle.std.specs.Prelude.{◌≡◌, [], ◌∷◌, Some, None, if◌then◌else◌, OnOk, OnErr};
ghost use Rattle.gl_numbers.specs.BufferRules.{whole};
ghost use Rattle.gl_numbers.specs.Refusals.{Judged};
ghost use Rattle.gl_model.specs.PixelStore.{bad_pixel_value, first_pixels, is_alignment, is_conversion, pixel_word, with_pixel};

use gl_numbers::{BROWSER_DEFAULT_WEBGL, GlError, PixelParameter};
use std::marker::Model;

/// How the texels that a page gives and reads lie in memory, and how colours are taken (WebGL 1.0 section 5.14.8).
#[derive(Drop)]
pub struct Pixels {
    unpack_alignment: u32,
    pack_alignment: u32,
    flip_y: bool,
    premultiply_alpha: bool,
    colorspace_conversion: u32,
}

impl Model for Pixels {
    ghost use Rattle.gl_model.specs.PixelStore.{PixelStore};
    ghost use Rattle.gl_context.specs.Codes.{pixels_code};

    ghost Value = { PixelStore };

    ghost coded = { pixels_code };

    ghost view = { λ p. record {
      unpack_alignment = p.unpack_alignment;
      pack_alignment = p.pack_alignment;
      flip_y = p.flip_y;
      premultiply_alpha = p.premultiply_alpha;
      colorspace_conversion = p.colorspace_conversion;
    } };
}

/// An alignment in bytes, where the number is one: 1, 2, 4 or 8.
#[inline(always)]
fn alignment(value: i32) -> Option<u32>
    ensures { result ≡ (if is_alignment value then Some (whole value) else None) }
{
    match u32::try_from(value) {
        Ok(n) if n == 1 || n == 2 || n == 4 || n == 8 => Some(n),
        _ => None,
    }
}

/// How colour spaces are converted, where the number says so.
#[inline(always)]
fn conversion(value: i32) -> Option<u32>
    ensures { result ≡ (if is_conversion value then Some (whole value) else None) }
{
    match u32::try_from(value) {
        Ok(n) if n == 0 || n == BROWSER_DEFAULT_WEBGL => Some(n),
        _ => None,
    }
}

impl Pixels {
    /// The pixel store at the start: rows begin at multiples of four bytes, nothing is flipped or multiplied, and colour spaces
    /// are converted by default.
    pub fn new() -> Self
        ensures { result ≡ first_pixels }
    {
        Pixels {
            unpack_alignment: 4,
            pack_alignment: 4,
            flip_y: false,
            premultiply_alpha: false,
            colorspace_conversion: BROWSER_DEFAULT_WEBGL,
        }
    }

    /// Sets a parameter. Value where the parameter doesn't take the value; then nothing changes.
    pub fn set(&mut self, parameter: PixelParameter, value: i32) -> Result<(), GlError>
        ensures judged { Judged (bad_pixel_value (Some parameter) value ∷ []) result }
        ensures ok { OnOk result (self.new ≡ with_pixel parameter value self.old) }
        ensures err { OnErr result (self.new ≡ self.old) }
    {
        match parameter {
            PixelParameter::UnpackAlignment => {
                let Some(bytes) = alignment(value) else {
                    return Err(GlError::Value);
                };
                self.unpack_alignment = bytes;
            }
            PixelParameter::PackAlignment => {
                let Some(bytes) = alignment(value) else {
                    return Err(GlError::Value);
                };
                self.pack_alignment = bytes;
            }
            PixelParameter::FlipY => self.flip_y = value != 0,
            PixelParameter::PremultiplyAlpha => self.premultiply_alpha = value != 0,
            PixelParameter::ColorspaceConversion => {
                let Some(word) = conversion(value) else {
                    return Err(GlError::Value);
                };
                self.colorspace_conversion = word;
            }
        }
        Ok(())
    }

    /// A parameter, as getParameter returns it; 1 is true, 0 is false.
    #[inline(always)]
    pub fn word(&self, parameter: PixelParameter) -> u32
        ensures { result ≡ pixel_word parameter self.now }
    {
        match parameter {
            PixelParameter::UnpackAlignment => self.unpack_alignment,
            PixelParameter::PackAlignment => self.pack_alignment,
            PixelParameter::FlipY => u32::from(self.flip_y),
            PixelParameter::PremultiplyAlpha => u32::from(self.premultiply_alpha),
            PixelParameter::ColorspaceConversion => self.colorspace_conversion,
        }
    }
}
