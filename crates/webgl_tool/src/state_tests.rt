//! The calls on the pixel store, getParameter, flush and finish, run over memory from bytes to bytes.

use crate::in_short::{
    ARRAY, DONE, ELEMENT, INVALID_ENUM, INVALID_OPERATION, INVALID_VALUE, list, number, refused,
};
use crate::over_memory::{Answered, are_answered, run};
use std::test::Fail;
use wire_io::Status;

#[test]
fn numbers_at_the_start(rt: HostRuntime) -> Result<(), Fail> {
    for (name, value) in [
        (0x8894, 0),
        (0x8895, 0),
        (0x0CF5, 4),
        (0x0D05, 4),
        (0x9240, 0),
        (0x9241, 0),
        (0x9243, 0x9244),
        (0x0B45, 0x0405),
        (0x0B46, 0x0901),
        (0x0B72, 1),
        (0x0B74, 0x0201),
        (0x0B91, 0),
        (0x0D33, 2048),
        (0x851C, 2048),
        (0x84E8, 2048),
        (0x8869, 16),
        (0x8DFB, 256),
        (0x8DFC, 16),
        (0x8DFD, 224),
        (0x8872, 16),
        (0x8B4C, 4),
        (0x8B4D, 20),
    ] {
        assert!(rt;
            are_answered(rt.alloc(), &[(87, &[name], number(value))])?,
            "at {name}"
        );
    }
    Ok(())
}

#[test]
fn lists_at_the_start(rt: HostRuntime) -> Result<(), Fail> {
    for (name, words) in [
        (0x0BA2, [0, 0, 300, 150]),
        (0x0C10, [0, 0, 300, 150]),
        (0x0C22, [0, 0, 0, 0]),
        (0x0C23, [1, 1, 1, 1]),
        (0x8005, [0, 0, 0, 0]),
    ] {
        assert!(rt;
            are_answered(rt.alloc(), &[(87, &[name], list(&words))])?,
            "at {name}"
        );
    }
    Ok(())
}

#[test]
fn a_word_that_is_no_parameter_is_refused(rt: HostRuntime) -> Result<(), Fail> {
    for name in [
        0,
        0x8893,
        0x8896,
        0x0CF4,
        0x0CF6,
        0x0D04,
        0x0D06,
        0x923F,
        0x9242,
        0x9244,
        0x0B44,
        0x0B47,
        0x0B71,
        0x0B73,
        0x0B75,
        0x0B90,
        0x0B92,
        0x0BA1,
        0x0BA3,
        0x0C0F,
        0x0C11,
        0x0C21,
        0x0C24,
        0x8004,
        0x8006,
        0x0D32,
        0x0D34,
        0x851B,
        0x851D,
        0x84E7,
        0x84E9,
        0x8868,
        0x886A,
        0x8DFA,
        0x8DFE,
        0x8871,
        0x8873,
        0x8B4B,
        0x8B4E,
        0xFFFF_FFFF,
    ] {
        let calls: [Answered<'_>; 3] = [
            (87, &[name], refused(INVALID_ENUM)),
            (86, &[], number(INVALID_ENUM)),
            (86, &[], number(0)),
        ];
        assert!(rt; are_answered(rt.alloc(), &calls)?, "at {name}");
    }
    // what the standard has and isn't built
    for name in [0x8B8D, 0x84E0, 0x8069, 0x8514, 0x8CA6, 0x8CA7] {
        let calls: [Answered<'_>; 1] = [(87, &[name], refused(INVALID_ENUM))];
        assert!(rt; are_answered(rt.alloc(), &calls)?, "at {name}");
    }
    Ok(())
}

#[test]
fn what_a_call_sets_is_returned(rt: HostRuntime) -> Result<(), Fail> {
    let least = 0x8000_0000;
    let minus_one = 0xFFFF_FFFF;
    let calls: [Answered<'_>; 20] = [
        (77, &[0x0408], DONE),
        (87, &[0x0B45], number(0x0408)),
        (78, &[0x0900], DONE),
        (87, &[0x0B46], number(0x0900)),
        (73, &[0], DONE),
        (87, &[0x0B72], number(0)),
        (73, &[2], DONE),
        (87, &[0x0B72], number(1)),
        (72, &[0x0207], DONE),
        (87, &[0x0B74], number(0x0207)),
        (82, &[minus_one], DONE),
        (87, &[0x0B91], number(minus_one)),
        (79, &[minus_one, least, 0, 7], DONE),
        (87, &[0x0BA2], list(&[minus_one, least, 0, 7])),
        (80, &[1, 2, 3, 4], DONE),
        (87, &[0x0C10], list(&[1, 2, 3, 4])),
        (81, &[0x7FC0_0001, 0x4000_0000, 1, least], DONE),
        (87, &[0x0C22], list(&[0x7FC0_0001, 0x4000_0000, 1, least])),
        (71, &[0, 1, 2, minus_one], DONE),
        (87, &[0x0C23], list(&[0, 1, 1, 1])),
    ];
    assert!(rt; are_answered(rt.alloc(), &calls)?);
    let calls: [Answered<'_>; 8] = [
        (68, &[0x4000_0000, least, minus_one, 0], DONE),
        (87, &[0x8005], list(&[0x4000_0000, least, minus_one, 0])),
        // what is refused sets nothing
        (77, &[0x0407], refused(INVALID_ENUM)),
        (87, &[0x0B45], number(0x0405)),
        (79, &[1, 2, minus_one, 4], refused(INVALID_VALUE)),
        (87, &[0x0BA2], list(&[0, 0, 300, 150])),
        (72, &[0x0208], refused(INVALID_ENUM)),
        (87, &[0x0B74], number(0x0201)),
    ];
    assert!(rt; are_answered(rt.alloc(), &calls)?);
    Ok(())
}

#[test]
fn pixel_store_words_are_set_and_returned(rt: HostRuntime) -> Result<(), Fail> {
    for name in [0x0CF5, 0x0D05] {
        for bytes in [1, 2, 4, 8] {
            let calls: [Answered<'_>; 4] = [
                (56, &[name, bytes], DONE),
                (87, &[name], number(bytes)),
                (56, &[name, 3], refused(INVALID_VALUE)),
                (87, &[name], number(bytes)),
            ];
            assert!(rt; are_answered(rt.alloc(), &calls)?, "at {name}, {bytes}");
        }
    }
    for name in [0x9240, 0x9241] {
        let calls: [Answered<'_>; 8] = [
            (56, &[name, 1], DONE),
            (87, &[name], number(1)),
            (56, &[name, 0], DONE),
            (87, &[name], number(0)),
            (56, &[name, 0x8000_0000], DONE),
            (87, &[name], number(1)),
            // each by itself
            (87, &[0x9240 + 0x9241 - name], number(0)),
            (87, &[0x0CF5], number(4)),
        ];
        assert!(rt; are_answered(rt.alloc(), &calls)?, "at {name}");
    }
    let calls: [Answered<'_>; 4] = [
        (56, &[0x9243, 0], DONE),
        (87, &[0x9243], number(0)),
        (56, &[0x9243, 0x9244], DONE),
        (87, &[0x9243], number(0x9244)),
    ];
    assert!(rt; are_answered(rt.alloc(), &calls)?);
    Ok(())
}

#[test]
fn pixel_store_is_refused_by_its_first_rule(rt: HostRuntime) -> Result<(), Fail> {
    let minus_one = 0xFFFF_FFFF;
    for (name, value, code) in [
        (0x0CF4, 4, INVALID_ENUM),
        (0x0CF6, 3, INVALID_ENUM),
        (0x0D04, 4, INVALID_ENUM),
        (0x0D06, minus_one, INVALID_ENUM),
        (0x923F, 0, INVALID_ENUM),
        (0x9242, 0, INVALID_ENUM),
        (0x9244, 7, INVALID_ENUM),
        (0x0CF5, 0, INVALID_VALUE),
        (0x0CF5, 3, INVALID_VALUE),
        (0x0CF5, 7, INVALID_VALUE),
        (0x0CF5, 9, INVALID_VALUE),
        (0x0CF5, 16, INVALID_VALUE),
        (0x0CF5, minus_one, INVALID_VALUE),
        (0x0D05, 0, INVALID_VALUE),
        (0x0D05, 5, INVALID_VALUE),
        (0x0D05, 0x8000_0004, INVALID_VALUE),
        (0x9243, 1, INVALID_VALUE),
        (0x9243, 0x9243, INVALID_VALUE),
        (0x9243, 0x9245, INVALID_VALUE),
        (0x9243, 0x8000_9244, INVALID_VALUE),
    ] {
        let calls: [Answered<'_>; 4] = [
            (56, &[name, value], refused(code)),
            (87, &[0x0CF5], number(4)),
            (87, &[0x0D05], number(4)),
            (87, &[0x9243], number(0x9244)),
        ];
        assert!(rt; are_answered(rt.alloc(), &calls)?, "at {name}, {value}");
    }
    Ok(())
}

#[test]
fn flush_and_finish_do_nothing(rt: HostRuntime) -> Result<(), Fail> {
    let calls: [Answered<'_>; 5] = [
        (88, &[], DONE),
        (89, &[], DONE),
        (78, &[1], refused(INVALID_ENUM)),
        (89, &[], DONE),
        (86, &[], number(INVALID_ENUM)),
    ];
    assert!(rt; are_answered(rt.alloc(), &calls)?);
    Ok(())
}

/// Adds the bytes of these words.
fn add_words(bytes: &mut Vec<u8>, lists: &[&[u32]]) -> Result<(), Fail> {
    for words in lists {
        for word in words.iter() {
            bytes.extend_from_slice(&word.to_le_bytes())?;
        }
    }
    Ok(())
}

#[test]
fn bound_buffers_are_returned_until_they_are_deleted(rt: HostRuntime) -> Result<(), Fail> {
    // two buffers are made and bound, one to each target; the first is deleted, and then null is bound to the other target
    let records: [&[u32]; 12] = [
        &[1, 0],
        &[1, 0],
        &[19, 8, ARRAY, 2],
        &[19, 8, ELEMENT, 1],
        &[87, 4, 0x8894],
        &[87, 4, 0x8895],
        &[7, 4, 1],
        &[87, 4, 0x8895],
        &[87, 4, 0x8894],
        &[19, 8, ELEMENT, 1],
        &[19, 8, ARRAY, 0],
        &[87, 4, 0x8894],
    ];
    let replies: [&[u32]; 12] = [
        &[0, 1, 1],
        &[0, 1, 2],
        &[0, 0],
        &[0, 0],
        &[0, 1, 2],
        &[0, 1, 1],
        &[0, 0],
        &[0, 1, 0],
        &[0, 1, 2],
        &[INVALID_OPERATION, 0],
        &[0, 0],
        &[0, 1, 0],
    ];
    let mut bytes = [0x57, 0x47, 0x4C, 0x52, 1, 0, 0, 0].to_vec(rt.alloc())?;
    add_words(&mut bytes, &records)?;
    bytes.extend_from_slice(&[0; 8])?;
    let mut out = Vec::new(rt.alloc());
    add_words(&mut out, &replies)?;
    let ran = run(rt.alloc(), bytes.as_slice(), 1024, [&[], &[], &[]])?;
    assert!(rt; ran.status == Status::Ok && ran.out.bytes() == out.as_slice());
    Ok(())
}
