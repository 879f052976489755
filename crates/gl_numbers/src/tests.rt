use crate::{
    AttribParameter, AttribType, BufferTarget, GlError, Name, Usage, Words, four_words, i64_at,
    three_words, two_words, u32_at, word_bytes,
};
use std::test::Fail;

#[test]
fn errors_have_the_codes_of_gl(rt: HostRuntime) {
    for (error, code) in [
        (GlError::Enum, 0x0500),
        (GlError::Value, 0x0501),
        (GlError::Operation, 0x0502),
        (GlError::Memory, 0x0505),
        (GlError::Framebuffer, 0x0506),
    ] {
        assert_eq!(rt; error.code(), code);
    }
}

#[test]
fn buffer_targets_are_two_words(rt: HostRuntime) {
    for (word, target) in [
        (0x8892, Some(BufferTarget::Array)),
        (0x8893, Some(BufferTarget::ElementArray)),
        (0x8891, None),
        (0x8894, None),
        (0, None),
        (0xFFFF_FFFF, None),
    ] {
        assert_eq!(rt; BufferTarget::from_u32(word), target, "at {word}");
    }
}

#[test]
fn usages_are_three_words(rt: HostRuntime) {
    for (word, usage) in [
        (0x88E0, Some(Usage::StreamDraw)),
        (0x88E4, Some(Usage::StaticDraw)),
        (0x88E8, Some(Usage::DynamicDraw)),
        (0x88DF, None),
        (0x88E1, None),
        (0x88E2, None),
        (0x88E5, None),
        (0x88E9, None),
        (0x88EA, None),
        (0, None),
    ] {
        assert_eq!(rt; Usage::from_u32(word), usage, "at {word}");
        if let Some(usage) = usage {
            assert_eq!(rt; usage.word(), word);
        }
    }
}

#[test]
fn attribute_types_are_five_words(rt: HostRuntime) {
    for (word, expected) in [
        (0x1400, Some((AttribType::Byte, 1))),
        (0x1401, Some((AttribType::UnsignedByte, 1))),
        (0x1402, Some((AttribType::Short, 2))),
        (0x1403, Some((AttribType::UnsignedShort, 2))),
        (0x1406, Some((AttribType::Float, 4))),
        (0x13FF, None),
        (0x1404, None),
        (0x1405, None),
        (0x1407, None),
        (0, None),
        (0xFFFF_FFFF, None),
    ] {
        let kind = AttribType::from_u32(word);
        assert_eq!(rt; kind.map(|k| (k, k.size())), expected, "at {word}");
        if let Some(kind) = kind {
            assert_eq!(rt; kind.word(), word);
        }
    }
}

#[test]
fn attribute_parameters_are_seven_words(rt: HostRuntime) {
    for (word, parameter) in [
        (0x8622, Some(AttribParameter::Enabled)),
        (0x8623, Some(AttribParameter::Size)),
        (0x8624, Some(AttribParameter::Stride)),
        (0x8625, Some(AttribParameter::ElementType)),
        (0x8626, Some(AttribParameter::Current)),
        (0x886A, Some(AttribParameter::Normalized)),
        (0x889F, Some(AttribParameter::BufferBinding)),
        (0x8621, None),
        (0x8627, None),
        (0x8645, None),
        (0x8869, None),
        (0x886B, None),
        (0x889E, None),
        (0x88A0, None),
        (0, None),
        (0xFFFF_FFFF, None),
    ] {
        assert_eq!(rt; AttribParameter::from_u32(word), parameter, "at {word}");
    }
}

#[test]
fn a_name_holds_up_to_256_bytes(rt: HostRuntime) -> Result<(), Fail> {
    let bytes = [0xABu8; 257];
    let longest = Name::new(&bytes[..256]).ok_or("256 bytes fit")?;
    assert_eq!(rt; longest.as_slice(), &bytes[..256]);
    assert_eq!(rt; Name::new(&bytes), None);
    let short = Name::new(b"u_color").ok_or("seven bytes fit")?;
    assert_eq!(rt; short.as_slice(), b"u_color".as_slice());
    assert_eq!(rt; Name::new(b"u_color"), Some(short));
    assert!(rt; short != longest);
    Ok(())
}

#[test]
fn words_hold_up_to_16(rt: HostRuntime) -> Result<(), Fail> {
    let words = [0x8000_0001u32; 17];
    let longest = Words::new(&words[..16]).ok_or("16 words fit")?;
    assert_eq!(rt; longest.as_slice(), &words[..16]);
    assert_eq!(rt; Words::new(&words), None);
    let none = Words::new(&[]).ok_or("no word fits")?;
    assert_eq!(rt; none.as_slice().len(), 0);
    assert!(rt; none != longest);
    Ok(())
}

#[test]
fn words_lie_with_the_low_byte_first(rt: HostRuntime) {
    assert_eq!(rt; u32_at(&[0x92, 0x88, 0, 0x7F, 9]), 0x7F00_8892);
    assert_eq!(rt;
        i64_at(&[0xFE, 0xFF, 0xFF, 0xFF, 0xFF, 0xFF, 0xFF, 0xFF, 1]),
        -2
    );
    assert_eq!(rt; i64_at(&[0, 0, 0, 0, 1, 0, 0, 0]), 0x1_0000_0000);
    assert_eq!(rt; word_bytes(0x0102_0304), [4, 3, 2, 1]);
    assert_eq!(rt; two_words(0x0102_0304, 5), [4, 3, 2, 1, 5, 0, 0, 0]);
    assert_eq!(rt;
        three_words(0x8892, 0x88E4, 0xFFFF_FFFE),
        [0x92, 0x88, 0, 0, 0xE4, 0x88, 0, 0, 0xFE, 0xFF, 0xFF, 0xFF]
    );
    assert_eq!(rt;
        four_words(1, 0x0200, 3, 0x0400_0000),
        [1, 0, 0, 0, 0, 2, 0, 0, 3, 0, 0, 0, 0, 0, 0, 4]
    );
}
