use crate::{Layout, Upload, upload_row};
use gl_numbers::{Format, TexelType};
use std::process::Abort;

/// Bytes of this format.
const fn bytes_of(format: Format) -> Layout {
    Layout {
        format,
        kind: TexelType::UnsignedByte,
    }
}

/// An image of these sides whose rows are aligned so, with the first row first and no premultiply.
fn image(width: u32, height: u32, layout: Layout, alignment: u32) -> Upload {
    Upload {
        width,
        height,
        layout,
        alignment,
        flip: false,
        premultiply: false,
    }
}

/// Stops where an image isn't within the limits, has other rows than these, or has another number of bytes.
fn has_sizes(rt: &impl Abort, upload: &Upload, row: u32, pitch: u32, all: u32) {
    assert!(rt; upload.layout.is_allowed() && upload.width <= 2048 && upload.height <= 2048);
    assert!(rt; upload.alignment > 0 && upload.alignment <= 8);
    assert_eq!(rt; upload.row_bytes(), row);
    assert_eq!(rt; upload.pitch(), pitch);
    assert_eq!(rt; upload.view_bytes(), all);
}

#[test]
fn rows_begin_at_multiples_of_the_alignment(rt: HostRuntime) {
    let rgb = bytes_of(Format::Rgb);
    let rgba = bytes_of(Format::Rgba);
    let alpha = bytes_of(Format::Alpha);
    let shorts = Layout {
        format: Format::Rgba,
        kind: TexelType::UnsignedShort5551,
    };
    for (width, height, layout, alignment, row, pitch, all) in [
        (1, 2, rgb, 1, 3, 3, 6),
        (1, 2, rgb, 2, 3, 4, 7),
        (1, 2, rgb, 4, 3, 4, 7),
        (1, 2, rgb, 8, 3, 8, 11),
        (3, 3, rgb, 4, 9, 12, 33),
        (2, 1, rgba, 8, 8, 8, 8),
        (3, 2, shorts, 4, 6, 8, 14),
        (1, 1, alpha, 8, 1, 8, 1),
        (0, 7, rgba, 4, 0, 0, 0),
        (5, 0, alpha, 4, 5, 8, 0),
        (2048, 2048, rgba, 8, 8192, 8192, 2048 * 8192),
        (2047, 2048, alpha, 8, 2047, 2048, 2048 * 2048 - 1),
    ] {
        has_sizes(
            &rt,
            &image(width, height, layout, alignment),
            row,
            pitch,
            all,
        );
    }
}

/// Stops where row y of an image isn't these bytes.
fn has_row(rt: &impl Abort, upload: &Upload, view: &[u8], y: u32, want: &[u8]) {
    assert!(rt; upload.layout.is_allowed() && upload.width <= 2048 && upload.height <= 2048);
    assert!(rt; upload.alignment > 0 && upload.alignment <= 8);
    assert!(rt; y < upload.height && upload.view_bytes() as usize <= view.len());
    let size = upload.row_bytes() as usize;
    let mut into = [0u8; 8];
    assert!(rt; size <= 8);
    let row = &mut into[..size];
    upload_row(upload, view, y, row);
    assert_eq!(rt; *row, *want, "row {y}");
}

#[test]
fn a_row_is_read_without_the_padding_before_it(rt: HostRuntime) {
    let view = [1, 2, 3, 99, 4, 5, 6, 99, 7, 8, 9];
    let upload = image(1, 3, bytes_of(Format::Rgb), 4);
    has_row(&rt, &upload, &view, 0, &[1, 2, 3]);
    has_row(&rt, &upload, &view, 1, &[4, 5, 6]);
    has_row(&rt, &upload, &view, 2, &[7, 8, 9]);
    let empty = image(0, 3, bytes_of(Format::Rgb), 4);
    has_row(&rt, &empty, &[], 2, &[]);
}

#[test]
fn the_last_row_comes_first_with_flip(rt: HostRuntime) {
    let view = [1, 2, 3, 99, 4, 5, 6, 99, 7, 8, 9];
    let upload = Upload {
        flip: true,
        ..image(1, 3, bytes_of(Format::Rgb), 4)
    };
    has_row(&rt, &upload, &view, 0, &[7, 8, 9]);
    has_row(&rt, &upload, &view, 1, &[4, 5, 6]);
    has_row(&rt, &upload, &view, 2, &[1, 2, 3]);
    let two = Upload {
        height: 2,
        ..upload
    };
    has_row(&rt, &two, &view[..7], 0, &[4, 5, 6]);
    has_row(&rt, &two, &view[..7], 1, &[1, 2, 3]);
}

#[test]
fn the_texels_of_a_row_are_premultiplied(rt: HostRuntime) {
    let view = [200, 128, 255, 255, 9, 9, 9, 9, 100, 0, 50, 255];
    let upload = Upload {
        premultiply: true,
        ..image(2, 2, bytes_of(Format::LuminanceAlpha), 8)
    };
    has_row(&rt, &upload, &view, 0, &[100, 128, 255, 255]);
    has_row(&rt, &upload, &view, 1, &[0, 0, 50, 255]);
}
