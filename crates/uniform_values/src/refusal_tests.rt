use crate::tests::{holds, kind, made, set};
use gl_numbers::GlError;
use glsl_types::Base;
use std::test::Fail;

/// A slot, the kind, whether to transpose, the words, and what the call returns.
type Row = (u32, u32, bool, &'static [u32], Result<(), GlError>);

const VALUE: Result<(), GlError> = Err(GlError::Value);

const OPERATION: Result<(), GlError> = Err(GlError::Operation);

/// Slot 0 is a vec4, 1 and 2 are mat2[2], 3 is a sampler2D, 4 and 5 are samplerCube[2], 6 is a bool[1].
const ROWS: [Row; 28] = [
    // no word, or no whole number of values
    (0, 4, false, &[], VALUE),
    (0, 4, false, &[1, 2, 3], VALUE),
    (1, 9, false, &[1, 2, 3, 4, 5], VALUE),
    (0, 3, false, &[1, 2], VALUE),
    (0, 4, false, &[1, 2, 3, 4, 5], VALUE),
    // a matrix to be transposed, also where it doesn't fit
    (1, 9, true, &[1, 2, 3, 4], VALUE),
    (
        0,
        11,
        true,
        &[1, 2, 3, 4, 5, 6, 7, 8, 9, 10, 11, 12, 13, 14, 15, 16],
        VALUE,
    ),
    (1, 9, true, &[1, 2], VALUE),
    (0, 4, true, &[1, 2, 3, 4], Ok(())),
    // values that don't fit, also where there are too many
    (0, 3, false, &[1, 2, 3], OPERATION),
    (0, 9, false, &[1, 2, 3, 4], OPERATION),
    (1, 4, false, &[1, 2, 3, 4], OPERATION),
    (0, 3, false, &[1, 2, 3, 4, 5, 6], OPERATION),
    (3, 1, false, &[99], OPERATION),
    (6, 6, false, &[1, 2], OPERATION),
    // more than one value for what is no array
    (0, 4, false, &[1, 2, 3, 4, 5, 6, 7, 8], OPERATION),
    (3, 5, false, &[1, 99], OPERATION),
    (6, 5, false, &[1, 2], Ok(())),
    (2, 9, false, &[1, 2, 3, 4, 5, 6, 7, 8], Ok(())),
    // texture units are 0 to 19
    (3, 5, false, &[19], Ok(())),
    (3, 5, false, &[20], VALUE),
    (3, 5, false, &[0xFFFF_FFFF], VALUE),
    (4, 5, false, &[19, 0], Ok(())),
    (4, 5, false, &[0, 20], VALUE),
    (4, 5, false, &[20, 0], VALUE),
    (4, 5, false, &[0, 0, 20], VALUE),
    (5, 5, false, &[0, 19], Ok(())),
    (5, 5, false, &[0, 20], VALUE),
];

#[test]
fn the_first_rule_refuses_and_then_nothing_changes(rt: HostRuntime) -> Result<(), Fail> {
    let kinds = [
        kind(Base::Vec4, 0),
        kind(Base::Mat2, 2),
        kind(Base::Sampler2D, 0),
        kind(Base::SamplerCube, 2),
        kind(Base::Bool, 1),
    ];
    for (number, given, transpose, words, expected) in ROWS {
        let mut values = made(&rt, rt.alloc(), &kinds);
        let done = set(
            &rt,
            rt.alloc(),
            &mut values,
            (number, given, transpose),
            words,
        )?;
        assert_eq!(rt;
            done,
            expected,
            "slot {number} kind {given} words {words:?}"
        );
        if expected.is_err() {
            holds(
                &rt,
                &values,
                &[&[0; 4], &[0; 4], &[0; 4], &[0], &[0], &[0], &[0]],
            );
            assert_eq!(rt; values.next_dirty(), None);
        }
    }
    Ok(())
}
