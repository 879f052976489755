use crate::{Image, ImageInfo, Targets, status};
use gl_numbers::{
    DEPTH_COMPONENT16, DEPTH_STENCIL, GlError, Kind, Point, RGB565, RGBA, RGBA4, STENCIL_INDEX8,
    UNSIGNED_BYTE,
};
use std::test::Fail;

/// What is attached at a point, in the table of all framebuffers.
#[derive(Clone, Copy, PartialEq, Eq)]
enum Attached {
    Nothing,
    Fit,
    Unfit,
    Empty,
    Small,
}

const EACH: [Attached; 5] = [
    Attached::Nothing,
    Attached::Fit,
    Attached::Unfit,
    Attached::Empty,
    Attached::Small,
];

/// A renderbuffer of a format that is fit for the point, and of one that isn't.
fn image(what: Attached, fit: u32, unfit: u32) -> Option<ImageInfo> {
    let (side, format) = match what {
        Attached::Nothing => return None,
        Attached::Fit => (16, fit),
        Attached::Unfit => (16, unfit),
        Attached::Empty => (0, fit),
        Attached::Small => (8, fit),
    };
    Some(ImageInfo {
        texture: false,
        width: 16,
        height: side,
        format,
        kind: 0,
    })
}

/// Whether something is attached.
fn is_there(what: Attached) -> bool {
    what != Attached::Nothing
}

/// Whether this is attached at a point.
fn is_any(what: Attached, c: Attached, d: Attached, s: Attached, both: Attached) -> bool {
    c == what || d == what || s == what || both == what
}

/// The status by the table of steps.
fn wanted(c: Attached, d: Attached, s: Attached, both: Attached) -> u32 {
    let (at_d, at_s, at_both) = (is_there(d), is_there(s), is_there(both));
    if !is_there(c) && !at_d && !at_s && !at_both {
        0x8CD7
    } else if (at_d && at_s) || (at_d && at_both) || (at_s && at_both) {
        0x8CDD
    } else if is_any(Attached::Unfit, c, d, s, both) || is_any(Attached::Empty, c, d, s, both) {
        0x8CD6
    } else if is_any(Attached::Small, c, d, s, both) && is_any(Attached::Fit, c, d, s, both) {
        0x8CD9
    } else {
        0x8CD5
    }
}

#[test]
fn a_framebuffer_has_the_status_of_the_first_step_that_applies(rt: HostRuntime) {
    for c in EACH {
        for d in EACH {
            for s in EACH {
                for both in EACH {
                    let images = [
                        image(c, RGBA4, STENCIL_INDEX8),
                        image(d, DEPTH_COMPONENT16, DEPTH_STENCIL),
                        image(s, STENCIL_INDEX8, DEPTH_COMPONENT16),
                        image(both, DEPTH_STENCIL, RGBA4),
                    ];
                    assert_eq!(rt; status(&images), wanted(c, d, s, both));
                }
            }
        }
    }
}

#[test]
fn an_image_is_fit_for_its_point_by_its_format(rt: HostRuntime) {
    // texture, format, type, and at which points a framebuffer with it alone is complete: colour, depth, stencil, both
    for (texture, format, kind, fit) in [
        (true, 0x1908, 0x1401, [true, false, false, false]),
        (true, 0x1907, 0x1401, [true, false, false, false]),
        (true, 0x1908, 0x8033, [true, false, false, false]),
        (true, 0x1908, 0x8034, [true, false, false, false]),
        (true, 0x1907, 0x8363, [true, false, false, false]),
        (true, 0x1906, 0x1401, [false, false, false, false]),
        (true, 0x1909, 0x1401, [false, false, false, false]),
        (true, 0x190A, 0x1401, [false, false, false, false]),
        (true, 0x81A5, 0x1401, [false, false, false, false]),
        (true, 0x8056, 0x1401, [false, false, false, false]),
        (false, 0x8056, 0, [true, false, false, false]),
        (false, 0x8057, 0, [true, false, false, false]),
        (false, 0x8D62, 0, [true, false, false, false]),
        (false, 0x81A5, 0, [false, true, false, false]),
        (false, 0x8D48, 0, [false, false, true, false]),
        (false, 0x84F9, 0, [false, false, false, true]),
        (false, 0x88F0, 0, [false, false, false, false]),
        (false, 0x1908, 0x1401, [false, false, false, false]),
    ] {
        for (point, complete) in fit.iter().enumerate() {
            let mut images = [None; 4];
            images[point] = Some(ImageInfo {
                texture,
                width: 4,
                height: 2,
                format,
                kind,
            });
            let want = if *complete { 0x8CD5 } else { 0x8CD6 };
            assert_eq!(rt; status(&images), want, "{format} at {point}");
        }
    }
}

/// A renderbuffer and a framebuffer, and what is attached and stored.
#[test]
fn a_renderbuffer_keeps_its_storage(rt: HostRuntime) -> Result<(), Fail> {
    let mut targets = Targets::new(rt.alloc());
    let Ok(()) = targets.add(3, Kind::Renderbuffer) else {
        return Err("no memory")?;
    };
    let Some(info) = targets.renderbuffer(3) else {
        return Err("no renderbuffer")?;
    };
    assert_eq!(rt; (info.width, info.height, info.format), (0, 0, 0x8056));
    for (format, width, height, want) in [
        (RGBA, 4, 4, Err(GlError::Enum)),
        (0x88F0, -1, 4, Err(GlError::Enum)),
        (RGB565, -1, 4, Err(GlError::Value)),
        (RGB565, 4, 2049, Err(GlError::Value)),
        (RGB565, i32::MIN, 0, Err(GlError::Value)),
        (DEPTH_STENCIL, 2048, 1, Ok(())),
    ] {
        assert!(rt; targets.renderbuffer(3).is_some());
        let answer = store(&mut targets, format, width, height);
        assert_eq!(rt; answer, want, "{format} of {width} and {height}");
    }
    let Some(info) = targets.renderbuffer(3) else {
        return Err("no renderbuffer")?;
    };
    assert_eq!(rt; (info.width, info.height, info.format), (2048, 1, 0x84F9));
    assert_eq!(rt; (info.texture, info.kind), (false, 0));
    targets.gone(3);
    assert_eq!(rt; targets.renderbuffer(3), None);
    Ok(())
}

/// Stores in renderbuffer 3, if it is there.
fn store(targets: &mut Targets, format: u32, width: i32, height: i32) -> Result<(), GlError> {
    match targets.renderbuffer(3) {
        Some(_) => targets.storage(3, format, width, height),
        None => Ok(()),
    }
}

#[test]
fn an_image_is_attached_to_one_framebuffer_at_one_point(rt: HostRuntime) -> Result<(), Fail> {
    let mut targets = Targets::new(rt.alloc());
    for h in [5, 6] {
        let Ok(()) = targets.add(h, Kind::Framebuffer) else {
            return Err("no memory")?;
        };
    }
    let face = Some(Image { h: 2, face: 0x8516 });
    let other = Some(Image { h: 2, face: 0x8517 });
    let depth = Some(Image { h: 3, face: 0 });
    targets.attach(5, Point::Color, face);
    targets.attach(6, Point::Color, other);
    targets.attach(6, Point::Depth, depth);
    assert_eq!(rt; targets.attached(5, Point::Color), face);
    assert_eq!(rt; targets.attached(5, Point::Depth), None);
    assert_eq!(rt; targets.attached(6, Point::Color), other);
    assert_eq!(rt; targets.attached(6, Point::Depth), depth);
    targets.gone(5);
    assert_eq!(rt; targets.attached(5, Point::Color), None);
    assert_eq!(rt; targets.attached(6, Point::Color), other);
    targets.attach(6, Point::Color, None);
    assert_eq!(rt; targets.attached(6, Point::Color), None);
    assert_eq!(rt; targets.attached(6, Point::Depth), depth);
    targets.attach(5, Point::Color, face);
    assert_eq!(rt; targets.attached(5, Point::Color), None, "it is gone");
    Ok(())
}

#[test]
fn sides_that_differ_are_found_after_unfit_images(rt: HostRuntime) {
    let color = Some(ImageInfo {
        texture: true,
        width: 16,
        height: 16,
        format: RGBA,
        kind: UNSIGNED_BYTE,
    });
    let depth = Some(ImageInfo {
        texture: false,
        width: 8,
        height: 16,
        format: DEPTH_COMPONENT16,
        kind: 0,
    });
    assert_eq!(rt; status(&[color, None, None, None]), 0x8CD5);
    assert_eq!(rt; status(&[color, depth, None, None]), 0x8CD9);
    assert_eq!(rt; status(&[color, None, depth, None]), 0x8CD6);
    assert_eq!(rt; status(&[None, depth, None, None]), 0x8CD5);
    assert_eq!(rt; status(&[None; 4]), 0x8CD7);
}

#[test]
fn an_object_of_another_kind_is_no_target(rt: HostRuntime) {
    let mut targets = Targets::new(rt.alloc());
    for kind in [Kind::Buffer, Kind::Texture, Kind::Shader, Kind::Program] {
        assert!(rt; targets.add(4, kind).is_ok());
        assert_eq!(rt; targets.renderbuffer(4), None);
        targets.attach(4, Point::Color, Some(Image { h: 2, face: 0 }));
        assert_eq!(rt; targets.attached(4, Point::Color), None);
    }
}
