use crate::pointer_tests::pointer_of;
use crate::{Attrib, Attribs};
use gl_numbers::{AttribType, GlError, Handle};
use std::process::Abort;

/// What every attribute is at the start.
pub(crate) const FIRST: Attrib = Attrib {
    enabled: false,
    buffer: None,
    size: 4,
    kind: AttribType::Float,
    normalized: false,
    stride: 0,
    offset: 0,
    constant: [0, 0, 0, 0x3F80_0000],
};

/// The attribute of the index is this one, and the others are as at the start.
pub(crate) fn only(rt: &impl Abort, attribs: &Attribs, index: u32, expected: Attrib) {
    for i in 0..16 {
        let wanted = if i == index { expected } else { FIRST };
        assert_eq!(rt; attribs.at(i).copied(), Some(wanted), "at {i}");
    }
}

#[test]
fn there_are_16_attributes(rt: HostRuntime) {
    let attribs = Attribs::new();
    only(&rt, &attribs, 16, FIRST);
    for index in [16, 17, 0xFFFF_FFFF] {
        assert_eq!(rt; attribs.at(index), None, "at {index}");
    }
}

#[test]
fn an_array_is_enabled_and_disabled(rt: HostRuntime) {
    for (index, expected) in [
        (0, Ok(())),
        (15, Ok(())),
        (16, Err(GlError::Value)),
        (0xFFFF_FFFF, Err(GlError::Value)),
    ] {
        let mut attribs = Attribs::new();
        assert_eq!(rt; attribs.enable(index, true), expected, "at {index}");
        let enabled = Attrib {
            enabled: true,
            ..FIRST
        };
        only(&rt, &attribs, index, enabled);
        assert_eq!(rt; attribs.enable(index, true), expected, "again at {index}");
        only(&rt, &attribs, index, enabled);
        assert_eq!(rt; attribs.enable(index, false), expected, "off at {index}");
        only(&rt, &attribs, index, FIRST);
    }
}

#[test]
fn a_constant_is_kept_as_it_is_given(rt: HostRuntime) {
    // words of 2.0, -0.0, infinity and two that are no numbers
    let words = [0x4000_0000, 0x8000_0000, 0x7F80_0000, 0xFFFF_FFFF];
    for (index, words, expected) in [
        (0, words, Ok(())),
        (15, [0x7FC0_0001, 0, 0, 0], Ok(())),
        (16, words, Err(GlError::Value)),
        (0xFFFF_FFFF, words, Err(GlError::Value)),
    ] {
        let mut attribs = Attribs::new();
        assert_eq!(rt; attribs.constant(index, words), expected, "at {index}");
        only(
            &rt,
            &attribs,
            index,
            Attrib {
                constant: words,
                ..FIRST
            },
        );
    }
}

/// Attributes of which one has an array in a buffer and a constant.
fn with_one(rt: &impl Abort, index: u32, buffer: Option<Handle>) -> Attribs {
    let mut attribs = Attribs::new();
    let pointed = attribs.pointer(buffer, index, pointer_of((2, 0x1403, 12, 0)));
    assert_eq!(rt; pointed, Ok(()));
    assert_eq!(rt; attribs.constant(index, [1, 2, 3, 4]), Ok(()));
    attribs
}

/// What that attribute is.
fn pointed(enabled: bool, buffer: Option<Handle>) -> Attrib {
    Attrib {
        enabled,
        buffer,
        size: 2,
        kind: AttribType::UnsignedShort,
        normalized: false,
        stride: 12,
        offset: 0,
        constant: [1, 2, 3, 4],
    }
}

#[test]
fn a_disabled_array_keeps_its_buffer(rt: HostRuntime) {
    let mut attribs = with_one(&rt, 9, Some(7));
    only(&rt, &attribs, 9, pointed(false, Some(7)));
    assert_eq!(rt; attribs.enable(9, true), Ok(()));
    only(&rt, &attribs, 9, pointed(true, Some(7)));
    assert_eq!(rt; attribs.enable(9, false), Ok(()));
    only(&rt, &attribs, 9, pointed(false, Some(7)));
    let none = attribs.pointer(None, 9, pointer_of((2, 0x1403, 12, 0)));
    assert_eq!(rt; none, Ok(()));
    only(&rt, &attribs, 9, pointed(false, None));
}

#[test]
fn a_buffer_that_is_gone_leaves_the_pointer(rt: HostRuntime) {
    for index in [0, 9, 15] {
        let mut attribs = with_one(&rt, index, Some(7));
        assert_eq!(rt; attribs.enable(index, true), Ok(()));
        for other in [0, 6, 8] {
            attribs.buffer_gone(other);
            only(&rt, &attribs, index, pointed(true, Some(7)));
        }
        attribs.buffer_gone(7);
        only(&rt, &attribs, index, pointed(true, None));
        attribs.buffer_gone(7);
        only(&rt, &attribs, index, pointed(true, None));
    }
}

#[test]
fn a_buffer_is_gone_from_each_attribute_that_has_it(rt: HostRuntime) {
    let mut attribs = Attribs::new();
    for (index, buffer) in [(0, 7), (1, 8), (14, 8), (15, 7)] {
        let pointed = attribs.pointer(Some(buffer), index, pointer_of((1, 0x1406, 4, 8)));
        assert_eq!(rt; pointed, Ok(()));
    }
    attribs.buffer_gone(7);
    for (index, buffer, offset) in [
        (0, None, 8),
        (1, Some(8), 8),
        (2, None, 0),
        (14, Some(8), 8),
        (15, None, 8),
    ] {
        let held = match attribs.at(index) {
            Some(attribute) => (attribute.buffer, attribute.offset),
            None => (None, 1),
        };
        assert_eq!(rt; held, (buffer, offset), "at {index}");
    }
}
