ghost use Rattle.std.specs.Prelude.{◌≡◌, ◌<◌, length};
ghost use Rattle.texel_rules.specs.Layouts.{IsAllowed, texel_bytes};

use crate::{Layout, Texel, pack_texel, plain_row, premultiply, read_texel, row_place};
use gl_numbers::{Format, TexelType};
use std::process::Abort;

/// The pairs of format and type that go together, with the bytes of a texel.
const ALLOWED: [(Format, TexelType, u32); 8] = [
    (Format::Alpha, TexelType::UnsignedByte, 1),
    (Format::Luminance, TexelType::UnsignedByte, 1),
    (Format::LuminanceAlpha, TexelType::UnsignedByte, 2),
    (Format::Rgb, TexelType::UnsignedByte, 3),
    (Format::Rgba, TexelType::UnsignedByte, 4),
    (Format::Rgba, TexelType::UnsignedShort4444, 2),
    (Format::Rgba, TexelType::UnsignedShort5551, 2),
    (Format::Rgb, TexelType::UnsignedShort565, 2),
];

#[test]
fn eight_pairs_of_format_and_type_go_together(rt: HostRuntime) {
    let formats = [
        Format::Alpha,
        Format::Luminance,
        Format::LuminanceAlpha,
        Format::Rgb,
        Format::Rgba,
    ];
    let kinds = [
        TexelType::UnsignedByte,
        TexelType::UnsignedShort4444,
        TexelType::UnsignedShort5551,
        TexelType::UnsignedShort565,
    ];
    for format in formats {
        for kind in kinds {
            let mut bytes = None;
            for (allowed, of, size) in ALLOWED {
                if allowed == format && of == kind {
                    bytes = Some(size);
                }
            }
            let layout = Layout { format, kind };
            assert_eq!(rt; layout.is_allowed(), bytes.is_some());
            if let Some(size) = bytes {
                assert_eq!(rt; layout.texel_bytes(), size);
            }
        }
    }
}

const RGBA_BYTES: Layout = Layout {
    format: Format::Rgba,
    kind: TexelType::UnsignedByte,
};

const RGBA_4444: Layout = Layout {
    format: Format::Rgba,
    kind: TexelType::UnsignedShort4444,
};

const RGBA_5551: Layout = Layout {
    format: Format::Rgba,
    kind: TexelType::UnsignedShort5551,
};

const RGB_565: Layout = Layout {
    format: Format::Rgb,
    kind: TexelType::UnsignedShort565,
};

/// Each byte colour times each byte alpha, rounded to the nearest.
#[test]
fn a_byte_of_colour_is_multiplied_by_a_byte_of_alpha(rt: HostRuntime) {
    for colour in 0..=255u8 {
        for alpha in 0..=255u8 {
            let t = Texel {
                r: colour,
                g: 255,
                b: 0,
                a: alpha,
            };
            let product = (u32::from(colour) * u32::from(alpha) + 127) / 255;
            let got = premultiply(RGBA_BYTES, t);
            assert_eq!(rt; u32::from(got.r), product, "{colour} times {alpha}");
            assert_eq!(rt; (got.g, got.b, got.a), (alpha, 0, alpha));
        }
    }
}

/// The bits of a word from the one whose worth is `low` on, as many as `mask` has.
fn bits(word: u16, low: u16, mask: u16) -> u32
    requires { 0 < low }
{
    u32::from((word / low) & mask)
}

#[test]
fn each_word_of_4444_is_read_multiplied_and_packed(rt: HostRuntime) {
    for word in 0..=65_535u16 {
        let bytes = [(word & 255) as u8, (word / 256) as u8];
        let t = read_texel(RGBA_4444, &bytes);
        let (r, g) = (bits(word, 4096, 15), bits(word, 256, 15));
        let (b, a) = (bits(word, 16, 15), bits(word, 1, 15));
        assert_eq!(rt; (u32::from(t.r), u32::from(t.g)), (r, g), "at {word}");
        assert_eq!(rt; (u32::from(t.b), u32::from(t.a)), (b, a), "at {word}");
        let p = premultiply(RGBA_4444, t);
        let products = ((r * a + 7) / 15, (g * a + 7) / 15);
        assert_eq!(rt; (u32::from(p.r), u32::from(p.g)), products, "at {word}");
        assert_eq!(rt;
            (u32::from(p.b), u32::from(p.a)),
            ((b * a + 7) / 15, a),
            "at {word}"
        );
        let mut again = [0; 2];
        pack_texel(RGBA_4444, t, &mut again);
        assert_eq!(rt; again, bytes, "at {word}");
    }
}

#[test]
fn each_word_of_5551_is_read_multiplied_and_packed(rt: HostRuntime) {
    for word in 0..=65_535u16 {
        let bytes = [(word & 255) as u8, (word / 256) as u8];
        let t = read_texel(RGBA_5551, &bytes);
        let (r, g) = (bits(word, 2048, 31), bits(word, 64, 31));
        let (b, a) = (bits(word, 2, 31), bits(word, 1, 1));
        assert_eq!(rt; (u32::from(t.r), u32::from(t.g)), (r, g), "at {word}");
        assert_eq!(rt; (u32::from(t.b), u32::from(t.a)), (b, a), "at {word}");
        let p = premultiply(RGBA_5551, t);
        let kept = if a == 1 { (r, g, b) } else { (0, 0, 0) };
        assert_eq!(rt;
            (u32::from(p.r), u32::from(p.g)),
            (kept.0, kept.1),
            "at {word}"
        );
        assert_eq!(rt; (u32::from(p.b), u32::from(p.a)), (kept.2, a), "at {word}");
        let mut again = [0; 2];
        pack_texel(RGBA_5551, t, &mut again);
        assert_eq!(rt; again, bytes, "at {word}");
    }
}

#[test]
fn each_word_of_565_is_read_and_packed(rt: HostRuntime) {
    for word in 0..=65_535u16 {
        let bytes = [(word & 255) as u8, (word / 256) as u8];
        let t = read_texel(RGB_565, &bytes);
        let (r, g, b) = (bits(word, 2048, 31), bits(word, 32, 63), bits(word, 1, 31));
        assert_eq!(rt; (u32::from(t.r), u32::from(t.g)), (r, g), "at {word}");
        assert_eq!(rt; (u32::from(t.b), u32::from(t.a)), (b, 0), "at {word}");
        assert_eq!(rt; premultiply(RGB_565, t), t, "at {word}");
        let mut again = [0; 2];
        pack_texel(RGB_565, t, &mut again);
        assert_eq!(rt; again, bytes, "at {word}");
    }
}

/// Rows of bytes that differ from texel to texel, of each length, with and without premultiply.
#[test]
fn rows_of_each_length_are_converted(rt: HostRuntime) {
    let mut from = [0u8; 268];
    let mut seed = 7u8;
    for byte in from.iter_mut() {
        seed = seed.wrapping_mul(29).wrapping_add(83);
        *byte = seed;
    }
    for texels in 0..=67usize {
        let row = &from[..texels * 4];
        let mut into = [9u8; 268];
        plain_row(RGBA_BYTES, false, row, &mut into[..texels * 4]);
        for (at, byte) in into.iter().enumerate() {
            let want = if at < row.len() { from[at] } else { 9 };
            assert_eq!(rt; *byte, want, "byte {at} of {texels}");
        }
        plain_row(RGBA_BYTES, true, row, &mut into[..texels * 4]);
        for (at, byte) in into.iter().enumerate() {
            let mut want = 9;
            if at < row.len() {
                let alpha = u32::from(from[at / 4 * 4 + 3]);
                let product = (u32::from(from[at]) * alpha + 127) / 255;
                want = if at % 4 == 3 { alpha } else { product };
            }
            assert_eq!(rt; u32::from(*byte), want, "byte {at} of {texels}");
        }
    }
}

/// One texel of this layout, as a row of its own.
fn one(rt: &impl Abort, layout: Layout, premultiplied: bool, from: &[u8], want: &[u8])
    requires allowed { IsAllowed layout }
    requires whole { length from.now ≡ texel_bytes layout }
{
    let mut into = [0u8; 4];
    assert!(rt; from.len() <= 4);
    let place = &mut into[..from.len()];
    plain_row(layout, premultiplied, from, place);
    assert_eq!(rt; *place, *want);
}

#[test]
fn texels_of_each_layout_are_premultiplied(rt: HostRuntime) {
    let bytes = TexelType::UnsignedByte;
    one(
        &rt,
        RGBA_BYTES,
        true,
        &[200, 100, 50, 128],
        &[100, 50, 25, 128],
    );
    one(
        &rt,
        RGBA_BYTES,
        false,
        &[200, 100, 50, 128],
        &[200, 100, 50, 128],
    );
    one(&rt, RGBA_4444, true, &[0x78, 0xF8], &[0x48, 0x84]);
    one(&rt, RGBA_5551, true, &[0x55, 0xAA], &[0x55, 0xAA]);
    one(&rt, RGBA_5551, true, &[0x54, 0xAA], &[0, 0]);
    one(&rt, RGB_565, true, &[0x55, 0xAA], &[0x55, 0xAA]);
    let format = Format::LuminanceAlpha;
    one(
        &rt,
        Layout {
            format,
            kind: bytes,
        },
        true,
        &[200, 128],
        &[100, 128],
    );
    let format = Format::Rgb;
    one(
        &rt,
        Layout {
            format,
            kind: bytes,
        },
        true,
        &[200, 100, 50],
        &[200, 100, 50],
    );
    let format = Format::Luminance;
    one(
        &rt,
        Layout {
            format,
            kind: bytes,
        },
        true,
        &[200],
        &[200],
    );
    let format = Format::Alpha;
    one(
        &rt,
        Layout {
            format,
            kind: bytes,
        },
        true,
        &[128],
        &[128],
    );
}

#[test]
fn rows_are_counted_from_the_last_with_flip(rt: HostRuntime) {
    for (height, pitch, flip, y, want) in [
        (2, 4, true, 0, 4),
        (2, 4, true, 1, 0),
        (2, 4, false, 0, 0),
        (2, 4, false, 1, 4),
        (1, 8192, true, 0, 0),
        (2048, 8192, true, 0, 2047 * 8192),
    ] {
        assert!(rt; y < height && height <= 2048 && pitch <= 8192);
        assert_eq!(rt;
            row_place(height, pitch, flip, y),
            want,
            "row {y} of {height}"
        );
    }
}
