ghost use Rattle.std.specs.Prelude.{◌≡◌, IfSome, IsTrue};
ghost use Rattle.gl_numbers.specs.TextureParameters.{is_mipmap_filter, is_texture_parameter};
ghost use Rattle.texel_rules.specs.TextureComplete.{first_parameters, is_sampled};
ghost use Rattle.texture_levels.specs.Rules.{parameter, value_of, with_parameter, word};

use gl_numbers::{
    CLAMP_TO_EDGE, LINEAR, NEAREST_MIPMAP_LINEAR, REPEAT, TEXTURE_MAG_FILTER, TEXTURE_MIN_FILTER,
    TEXTURE_WRAP_S, is_magnification, is_minification, is_mipmap_filter, is_wrap,
};
use std::marker::Model;
use texel_rules::LevelInfo;

/// The parameters of a texture, each a GL word (OpenGL ES 2.0 section 3.7.4).
#[derive(Drop)]
pub(crate) struct Words {
    mag_filter: u32,
    min_filter: u32,
    wrap_s: u32,
    wrap_t: u32,
}

impl Model for Words {
    ghost use Rattle.texel_rules.specs.TextureComplete.{Parameters};
    ghost use Rattle.texture_levels.specs.Codes.{parameters_code};

    ghost Value = { Parameters };

    ghost coded = { parameters_code };

    ghost view = { λ a. record { mag_filter = a.mag_filter; min_filter = a.min_filter; wrap_s = a.wrap_s; wrap_t = a.wrap_t } };
}

impl Words {
    /// The parameters of a new texture.
    pub(crate) fn new() -> Words
        ensures { result ≡ first_parameters }
    {
        Words {
            mag_filter: LINEAR,
            min_filter: NEAREST_MIPMAP_LINEAR,
            wrap_s: REPEAT,
            wrap_t: REPEAT,
        }
    }

    /// A parameter, by its word.
    pub(crate) fn get(&self, name: u32) -> u32
        requires { IsTrue (is_texture_parameter name) }
        ensures { result ≡ parameter name self.now }
    {
        match name {
            TEXTURE_MAG_FILTER => self.mag_filter,
            TEXTURE_MIN_FILTER => self.min_filter,
            TEXTURE_WRAP_S => self.wrap_s,
            _ => self.wrap_t,
        }
    }

    /// Gives a parameter a value.
    pub(crate) fn set(&mut self, name: u32, value: u32)
        requires { IsTrue (is_texture_parameter name) }
        ensures { self.new ≡ with_parameter name value self.old }
    {
        match name {
            TEXTURE_MAG_FILTER => self.mag_filter = value,
            TEXTURE_MIN_FILTER => self.min_filter = value,
            TEXTURE_WRAP_S => self.wrap_s = value,
            _ => self.wrap_t = value,
        }
    }

    /// Whether a texture with this base may be sampled: one whose sides aren't powers of two only with both wraps
    /// CLAMP_TO_EDGE and without its other levels.
    pub(crate) fn may_sample(&self, base: LevelInfo) -> bool
        ensures { result ≡ is_sampled self.now base }
    {
        (base.width.is_power_of_two() && base.height.is_power_of_two())
            || (self.wrap_s == CLAMP_TO_EDGE && self.wrap_t == CLAMP_TO_EDGE && !self.has_mipmaps())
    }

    /// Whether the minification filter reads other levels than the base.
    pub(crate) fn has_mipmaps(&self) -> bool
        ensures { result ≡ is_mipmap_filter self.now.min_filter }
    {
        is_mipmap_filter(self.min_filter)
    }
}

/// The value as a word, if it is one of the parameter's.
pub(crate) fn value_of(name: u32, value: i32) -> Option<u32>
    ensures value { result ≡ value_of name value }
    ensures word { IfSome result (λ n. n ≡ word value) }
{
    let Ok(n) = u32::try_from(value) else {
        return None;
    };
    let is_known = match name {
        TEXTURE_MAG_FILTER => is_magnification(n),
        TEXTURE_MIN_FILTER => is_minification(n),
        _ => is_wrap(n),
    };
    if is_known { Some(n) } else { None }
}
