use crate::tests::{FIRST, only};
use crate::{Attrib, Attribs, Pointer};
use gl_numbers::{AttribType, GlError, Handle};

const ENUM: GlError = GlError::Enum;

const VALUE: GlError = GlError::Value;

const OPERATION: GlError = GlError::Operation;

/// The size, the word of the type, the stride and the offset of a pointer.
type Numbers = (i32, u32, i32, i64);

/// A pointer to elements that aren't normalized.
pub(crate) fn pointer_of(numbers: Numbers) -> Pointer {
    let (size, kind, stride, offset) = numbers;
    Pointer {
        size,
        kind,
        normalized: false,
        stride,
        offset,
    }
}

/// A case that is refused: its name, the bound buffer, the index, the pointer and the error.
type Refused = (&'static str, Option<Handle>, u32, Numbers, GlError);

#[test]
fn a_pointer_is_refused_by_its_first_rule(rt: HostRuntime) {
    let one = Some(7);
    let cases: [Refused; 31] = [
        ("index", one, 16, (2, 0x1402, 4, 8), VALUE),
        ("last index", one, 0xFFFF_FFFF, (2, 0x1402, 4, 8), VALUE),
        ("index, size", one, 16, (5, 0x1402, 4, 8), VALUE),
        ("index, type", one, 16, (2, 0x1404, 4, 8), VALUE),
        ("index, buffer", None, 16, (2, 0x1402, 4, 8), VALUE),
        ("no element", one, 3, (0, 0x1402, 4, 8), VALUE),
        ("five elements", one, 3, (5, 0x1402, 4, 8), VALUE),
        ("negative size", one, 3, (-1, 0x1402, 4, 8), VALUE),
        ("size, type", one, 3, (5, 0x1404, 4, 8), VALUE),
        ("no type", one, 3, (2, 0, 4, 8), ENUM),
        ("below BYTE", one, 3, (2, 0x13FF, 4, 8), ENUM),
        ("INT", one, 3, (2, 0x1404, 4, 8), ENUM),
        ("UNSIGNED_INT", one, 3, (2, 0x1405, 4, 8), ENUM),
        ("above FLOAT", one, 3, (2, 0x1407, 4, 8), ENUM),
        ("type, stride", one, 3, (2, 0x1404, 256, 8), ENUM),
        ("type, offset", one, 3, (2, 0x1404, 4, -1), ENUM),
        ("stride", one, 3, (2, 0x1400, 256, 8), VALUE),
        ("negative stride", one, 3, (2, 0x1400, -1, 8), VALUE),
        ("negative offset", one, 3, (2, 0x1400, 4, -1), VALUE),
        ("least offset", one, 3, (2, 0x1400, 4, i64::MIN), VALUE),
        ("stride, buffer", None, 3, (2, 0x1400, 256, 8), VALUE),
        ("offset, buffer", None, 3, (2, 0x1400, 4, -1), VALUE),
        ("stride, multiple", one, 3, (2, 0x1402, 257, 8), VALUE),
        ("no buffer", None, 3, (2, 0x1402, 4, 8), OPERATION),
        ("none for a byte", None, 3, (1, 0x1400, 0, 1), OPERATION),
        ("buffer, multiple", None, 3, (2, 0x1402, 4, 9), OPERATION),
        ("SHORT at 3", one, 3, (2, 0x1402, 3, 8), OPERATION),
        ("UNSIGNED_SHORT", one, 3, (2, 0x1403, 4, 9), OPERATION),
        ("FLOAT at 6", one, 3, (2, 0x1406, 6, 8), OPERATION),
        ("FLOAT from 10", one, 3, (2, 0x1406, 4, 10), OPERATION),
        ("FLOAT at 5", None, 3, (2, 0x1406, 5, 0), OPERATION),
    ];
    for (name, bound, index, numbers, code) in cases {
        let mut attribs = Attribs::new();
        let returned = attribs.pointer(bound, index, pointer_of(numbers));
        assert_eq!(rt; returned, Err(code), "{name}");
        only(&rt, &attribs, 16, FIRST);
    }
}

/// A case that is taken: the bound buffer, the index, the pointer and its type.
type Taken = (Option<Handle>, u32, Numbers, AttribType);

#[test]
fn a_pointer_is_taken_within_its_limits(rt: HostRuntime) {
    let one = Some(7);
    let cases: [Taken; 12] = [
        (one, 0, (1, 0x1400, 255, 1), AttribType::Byte),
        (one, 15, (4, 0x1401, 3, 3), AttribType::UnsignedByte),
        (one, 3, (2, 0x1402, 254, 2), AttribType::Short),
        (one, 3, (3, 0x1403, 2, 6), AttribType::UnsignedShort),
        (one, 3, (3, 0x1406, 252, 4), AttribType::Float),
        (one, 3, (4, 0x1406, 0, 0), AttribType::Float),
        (None, 3, (4, 0x1406, 16, 0), AttribType::Float),
        (None, 3, (1, 0x1400, 1, 0), AttribType::Byte),
        (one, 3, (1, 0x1400, 0, i64::MAX), AttribType::Byte),
        (one, 3, (1, 0x1406, 0, 0x1_0000_0004), AttribType::Float),
        (Some(1), 3, (1, 0x1401, 0, 0), AttribType::UnsignedByte),
        (Some(1_048_576), 3, (1, 0x1402, 8, 2), AttribType::Short),
    ];
    for (buffer, index, numbers, kind) in cases {
        let (size, _, stride, offset) = numbers;
        for normalized in [false, true] {
            let mut attribs = Attribs::new();
            let pointer = Pointer {
                normalized,
                ..pointer_of(numbers)
            };
            assert_eq!(rt;
                attribs.pointer(buffer, index, pointer),
                Ok(()),
                "{pointer:?}"
            );
            let expected = Attrib {
                buffer,
                size: size.unsigned_abs(),
                kind,
                normalized,
                stride: stride.unsigned_abs(),
                offset: offset.unsigned_abs(),
                ..FIRST
            };
            only(&rt, &attribs, index, expected);
        }
    }
}
