ghost use Rattle.std.specs.Prelude.{◌≡◌, ◌≤◌, ◌<◌, length};
ghost use Rattle.texel_rules.specs.Layouts.{IsAllowed, channels, texel_bytes};
ghost use Rattle.texel_rules.specs.Texels.{IsTexel, IsWithin, full_alpha, le16, packed, packed_bytes, premultiplied, scaled, texel_of, texel_of_bytes, word_of};

use crate::{Layout, Texel};
use gl_numbers::{Format, TexelType};

/// The texel that lies in these bytes, which are exactly one texel of an allowed layout (OpenGL ES 2.0 section 3.6.2).
pub fn read_texel(layout: Layout, bytes: &[u8]) -> Texel
    requires allowed { IsAllowed layout }
    requires one { length bytes.now ≡ texel_bytes layout }
    ensures value { result ≡ texel_of layout bytes.now }
    ensures within { IsTexel layout result }
{
    match layout.kind {
        TexelType::UnsignedByte => read_bytes(layout.format, bytes),
        TexelType::UnsignedShort4444 => {
            let word = word_at(bytes);
            Texel {
                r: (word / 4096) as u8,
                g: (word / 256 % 16) as u8,
                b: (word / 16 % 16) as u8,
                a: (word % 16) as u8,
            }
        }
        TexelType::UnsignedShort5551 => {
            let word = word_at(bytes);
            Texel {
                r: (word / 2048) as u8,
                g: (word / 64 % 32) as u8,
                b: (word / 2 % 32) as u8,
                a: (word % 2) as u8,
            }
        }
        TexelType::UnsignedShort565 => {
            let word = word_at(bytes);
            Texel {
                r: (word / 2048) as u8,
                g: (word / 32 % 64) as u8,
                b: (word % 32) as u8,
                a: 0,
            }
        }
    }
}

/// The word of 16 bits that the first two bytes are, the low one first.
fn word_at(bytes: &[u8]) -> u16
    requires { length bytes.now ≡ 2 }
    ensures { result ≡ word_of bytes.now }
{
    u16::from_le_bytes([bytes[0], bytes[1]])
}

/// A texel of one byte for each channel.
fn read_bytes(format: Format, bytes: &[u8]) -> Texel
    requires { length bytes.now ≡ channels format }
    ensures value { result ≡ texel_of_bytes format bytes.now }
    ensures within { IsWithin 8 8 8 8 result }
{
    match format {
        Format::Alpha => Texel {
            r: 0,
            g: 0,
            b: 0,
            a: bytes[0],
        },
        Format::Luminance => Texel {
            r: bytes[0],
            g: 0,
            b: 0,
            a: 0,
        },
        Format::LuminanceAlpha => Texel {
            r: bytes[0],
            g: 0,
            b: 0,
            a: bytes[1],
        },
        Format::Rgb => Texel {
            r: bytes[0],
            g: bytes[1],
            b: bytes[2],
            a: 0,
        },
        Format::Rgba => Texel {
            r: bytes[0],
            g: bytes[1],
            b: bytes[2],
            a: bytes[3],
        },
    }
}

/// The texel premultiplied: the colours of RGBA and the luminance of LUMINANCE_ALPHA times its alpha, rounded to the
/// nearest; a texel of another format as it is (UNPACK_PREMULTIPLY_ALPHA_WEBGL, WebGL 1.0 section 5.14.8).
pub fn premultiply(layout: Layout, t: Texel) -> Texel
    requires allowed { IsAllowed layout }
    requires within { IsTexel layout t }
    ensures value { result ≡ premultiplied layout t }
    ensures within { IsTexel layout result }
{
    let full = full_alpha(layout.kind);
    match layout.format {
        Format::Rgba => Texel {
            r: scaled(full, t.r, t.a),
            g: scaled(full, t.g, t.a),
            b: scaled(full, t.b, t.a),
            a: t.a,
        },
        Format::LuminanceAlpha => Texel {
            r: scaled(full, t.r, t.a),
            ..t
        },
        Format::Alpha | Format::Luminance | Format::Rgb => t,
    }
}

/// The largest alpha of a type, which stands for 1.
fn full_alpha(kind: TexelType) -> u8
    ensures { result ≡ full_alpha kind }
{
    match kind {
        TexelType::UnsignedByte => 255,
        TexelType::UnsignedShort4444 => 15,
        TexelType::UnsignedShort5551 | TexelType::UnsignedShort565 => 1,
    }
}

/// A colour times an alpha of which `full` stands for 1, rounded to the nearest; at most the colour.
fn scaled(full: u8, colour: u8, alpha: u8) -> u8
    requires some { 0 < full }
    requires within { alpha ≤ full }
    ensures value { result ≡ scaled full colour alpha }
    ensures less { result ≤ colour }
{
    let full = u16::from(full);
    ((u16::from(colour) * u16::from(alpha) + full / 2) / full) as u8
}

/// Writes a texel whose channels lie within their widths into these bytes, which are exactly one texel of an allowed
/// layout (OpenGL ES 2.0 section 3.6.2).
pub fn pack_texel(layout: Layout, t: Texel, into: &mut [u8])
    requires allowed { IsAllowed layout }
    requires within { IsTexel layout t }
    requires one { length into.old ≡ texel_bytes layout }
    ensures { into.new ≡ packed layout t }
{
    let (r, g, b, a) = (
        u16::from(t.r),
        u16::from(t.g),
        u16::from(t.b),
        u16::from(t.a),
    );
    match layout.kind {
        TexelType::UnsignedByte => pack_bytes(layout.format, t, into),
        TexelType::UnsignedShort4444 => pack_word(r * 4096 + g * 256 + b * 16 + a, into),
        TexelType::UnsignedShort5551 => pack_word(r * 2048 + g * 64 + b * 2 + a, into),
        TexelType::UnsignedShort565 => pack_word(r * 2048 + g * 32 + b, into),
    }
}

/// Writes a word of 16 bits, the low byte first.
fn pack_word(word: u16, into: &mut [u8])
    requires { length into.old ≡ 2 }
    ensures { into.new ≡ le16 word }
{
    into.copy_from_slice(&word.to_le_bytes());
}

/// Writes a texel of one byte for each channel.
fn pack_bytes(format: Format, t: Texel, into: &mut [u8])
    requires { length into.old ≡ channels format }
    ensures { into.new ≡ packed_bytes format t }
{
    match format {
        Format::Alpha => into.copy_from_slice(&[t.a]),
        Format::Luminance => into.copy_from_slice(&[t.r]),
        Format::LuminanceAlpha => into.copy_from_slice(&[t.r, t.a]),
        Format::Rgb => into.copy_from_slice(&[t.r, t.g, t.b]),
        Format::Rgba => into.copy_from_slice(&[t.r, t.g, t.b, t.a]),
    }
}
