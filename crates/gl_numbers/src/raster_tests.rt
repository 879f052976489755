use crate::{
    Capability, Side, is_blend_equation, is_comparison, is_constant_alpha, is_constant_color,
    is_destination_factor, is_source_factor, is_stencil_operation, is_winding,
};

#[test]
fn capabilities_are_nine_words_in_their_order(rt: HostRuntime) {
    let words = [
        (0x0B44, Capability::CullFace),
        (0x0B71, Capability::DepthTest),
        (0x0B90, Capability::StencilTest),
        (0x0BD0, Capability::Dither),
        (0x0BE2, Capability::Blend),
        (0x0C11, Capability::ScissorTest),
        (0x8037, Capability::PolygonOffsetFill),
        (0x809E, Capability::SampleAlphaToCoverage),
        (0x80A0, Capability::SampleCoverage),
    ];
    for (place, (word, capability)) in words.iter().enumerate() {
        assert_eq!(rt; Capability::from_u32(*word), Some(*capability), "at {word}");
        assert_eq!(rt; capability.place(), place, "at {word}");
    }
    for word in [
        0,
        0x0B43,
        0x0B45,
        0x0B70,
        0x0B72,
        0x0B8F,
        0x0B91,
        0x0BCF,
        0x0BD1,
        0x0BE1,
        0x0BE3,
        0x0C10,
        0x0C12,
        0x8036,
        0x8038,
        0x809D,
        0x809F,
        0x80A1,
        0xFFFF_FFFF,
    ] {
        assert_eq!(rt; Capability::from_u32(word), None, "at {word}");
    }
}

#[test]
fn sides_are_three_words(rt: HostRuntime) {
    for (word, side) in [
        (0x0404, Some(Side::Front)),
        (0x0405, Some(Side::Back)),
        (0x0408, Some(Side::FrontAndBack)),
        (0, None),
        (0x0403, None),
        (0x0406, None),
        (0x0407, None),
        (0x0409, None),
        (0xFFFF_FFFF, None),
    ] {
        assert_eq!(rt; Side::from_u32(word), side, "at {word}");
    }
}

#[test]
fn windings_comparisons_and_equations_are_their_words(rt: HostRuntime) {
    for word in [0x0900, 0x0901] {
        assert!(rt; is_winding(word), "at {word}");
    }
    for word in [0, 0x08FF, 0x0902, 0xFFFF_FFFF] {
        assert!(rt; !is_winding(word), "at {word}");
    }
    for word in 0x0200..0x0208 {
        assert!(rt; is_comparison(word), "at {word}");
    }
    for word in [0, 0x01FF, 0x0208, 0xFFFF_FFFF] {
        assert!(rt; !is_comparison(word), "at {word}");
    }
    for word in [0x8006, 0x800A, 0x800B] {
        assert!(rt; is_blend_equation(word), "at {word}");
    }
    for word in [0, 0x8005, 0x8007, 0x8008, 0x8009, 0x800C, 0xFFFF_FFFF] {
        assert!(rt; !is_blend_equation(word), "at {word}");
    }
}

#[test]
fn blend_factors_are_their_words(rt: HostRuntime) {
    // a word; whether it is a factor of the source, of the destination, of constant colours and of constant alpha values
    for (word, [source, destination, color, alpha]) in [
        (0, [true, true, false, false]),
        (1, [true, true, false, false]),
        (2, [false, false, false, false]),
        (0x02FF, [false, false, false, false]),
        (0x0300, [true, true, false, false]),
        (0x0301, [true, true, false, false]),
        (0x0302, [true, true, false, false]),
        (0x0303, [true, true, false, false]),
        (0x0304, [true, true, false, false]),
        (0x0305, [true, true, false, false]),
        (0x0306, [true, true, false, false]),
        (0x0307, [true, true, false, false]),
        (0x0308, [true, false, false, false]),
        (0x0309, [false, false, false, false]),
        (0x8000, [false, false, false, false]),
        (0x8001, [true, true, true, false]),
        (0x8002, [true, true, true, false]),
        (0x8003, [true, true, false, true]),
        (0x8004, [true, true, false, true]),
        (0x8005, [false, false, false, false]),
        (0xFFFF_FFFF, [false, false, false, false]),
    ] {
        assert_eq!(rt; is_source_factor(word), source, "at {word}");
        assert_eq!(rt; is_destination_factor(word), destination, "at {word}");
        assert_eq!(rt; is_constant_color(word), color, "at {word}");
        assert_eq!(rt; is_constant_alpha(word), alpha, "at {word}");
    }
}

#[test]
fn stencil_operations_are_eight_words(rt: HostRuntime) {
    for word in [0, 0x1E00, 0x1E01, 0x1E02, 0x1E03, 0x150A, 0x8507, 0x8508] {
        assert!(rt; is_stencil_operation(word), "at {word}");
    }
    for word in [
        1,
        0x1DFF,
        0x1E04,
        0x1509,
        0x150B,
        0x8506,
        0x8509,
        0xFFFF_FFFF,
    ] {
        assert!(rt; !is_stencil_operation(word), "at {word}");
    }
}
