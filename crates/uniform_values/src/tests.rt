ghost use Rattle.std.specs.Prelude.{◌≡◌, ◌≤◌};
ghost use Rattle.uniform_values.specs.Layout.{slot_count, slots_max};

use crate::{Tail32, Values, kind_type};
use gl_numbers::{GlError, word_bytes};
use glsl_types::{Base, SlType};
use std::alloc::{AllocError, Global};
use std::process::Abort;
use std::test::Fail;

/// The words of the floats 1.0, -0.0 and of one that is no number.
const ONE: u32 = 0x3F80_0000;

const MINUS_ZERO: u32 = 0x8000_0000;

const NO_NUMBER: u32 = 0x7FC0_0001;

/// A type, with the size of an array or 0.
pub(crate) fn kind(base: Base, array: u32) -> SlType
    ensures { result ≡ record { base = base; array = array } }
{
    SlType { base, array }
}

/// New values of uniforms of these types.
pub(crate) fn made(rt: &impl Abort, alloc: Global, kinds: &[SlType]) -> Values
    requires { slot_count kinds.now ≤ slots_max }
{
    match Values::make(alloc, kinds) {
        Ok(values) => values,
        Err(_) => panic!(rt; "out of memory"),
    }
}

/// The bytes of words.
pub(crate) fn bytes_of(alloc: Global, words: &[u32]) -> Result<Vec<u8>, AllocError> {
    let mut bytes = Vec::new(alloc);
    for word in words {
        bytes.extend_from_slice(&word_bytes(*word))?;
    }
    Ok(bytes)
}

/// Sets a slot that is there, by a kind that is one.
pub(crate) fn set(
    rt: &impl Abort,
    alloc: Global,
    values: &mut Values,
    call: (u32, u32, bool),
    words: &[u32],
) -> Result<Result<(), GlError>, AllocError> {
    let (number, kind, transpose) = call;
    let bytes = bytes_of(alloc, words)?;
    assert!(rt; number < values.len() && kind_type(kind).is_some());
    let tail = match Tail32::new(&bytes) {
        Some(tail) => tail,
        None => panic!(rt; "no whole words"),
    };
    Ok(values.set(number, kind, transpose, &tail))
}

/// Asserts that the slots have these words, one slot after another.
pub(crate) fn holds(rt: &impl Abort, values: &Values, words: &[&[u32]]) {
    assert_eq!(rt; values.len() as usize, words.len());
    for number in 0..values.len() {
        let held = values.get(number);
        let expected = words.get(number as usize).copied();
        assert_eq!(rt; Some(held.as_slice()), expected, "slot {number}");
    }
}

#[test]
fn each_type_takes_the_kinds_that_fit_it(rt: HostRuntime) -> Result<(), Fail> {
    let fitting: [(Base, [u32; 2]); 17] = [
        (Base::Float, [1, 1]),
        (Base::Vec2, [2, 2]),
        (Base::Vec3, [3, 3]),
        (Base::Vec4, [4, 4]),
        (Base::Int, [5, 5]),
        (Base::IVec2, [6, 6]),
        (Base::IVec3, [7, 7]),
        (Base::IVec4, [8, 8]),
        (Base::Bool, [1, 5]),
        (Base::BVec2, [2, 6]),
        (Base::BVec3, [3, 7]),
        (Base::BVec4, [4, 8]),
        (Base::Mat2, [9, 9]),
        (Base::Mat3, [10, 10]),
        (Base::Mat4, [11, 11]),
        (Base::Sampler2D, [5, 5]),
        (Base::SamplerCube, [5, 5]),
    ];
    let sizes = [1, 2, 3, 4, 1, 2, 3, 4, 4, 9, 16];
    let ones = [1; 16];
    for (base, kinds) in fitting {
        for (i, size) in sizes.iter().enumerate() {
            let given = i as u32 + 1;
            let mut values = made(&rt, rt.alloc(), &[kind(base, 0)]);
            let done = set(
                &rt,
                rt.alloc(),
                &mut values,
                (0, given, false),
                &ones[..(*size).min(16)],
            )?;
            let fits = given == kinds[0] || given == kinds[1];
            let expected = if fits {
                Ok(())
            } else {
                Err(GlError::Operation)
            };
            assert_eq!(rt; done, expected, "{base:?} of kind {given}");
            if fits {
                holds(&rt, &values, &[&ones[..(*size).min(16)]]);
            }
        }
    }
    assert!(rt; kind_type(0).is_none() && kind_type(12).is_none());
    Ok(())
}

#[test]
fn words_go_from_the_slot_to_the_end_of_the_array(rt: HostRuntime) -> Result<(), Fail> {
    let kinds = [
        kind(Base::Float, 0),
        kind(Base::Vec2, 3),
        kind(Base::Float, 0),
    ];
    let rows: [(u32, &[u32], [u32; 6]); 6] = [
        (1, &[1, 2], [1, 2, 0, 0, 0, 0]),
        (1, &[1, 2, 3, 4], [1, 2, 3, 4, 0, 0]),
        (1, &[1, 2, 3, 4, 5, 6], [1, 2, 3, 4, 5, 6]),
        (1, &[1, 2, 3, 4, 5, 6, 7, 8], [1, 2, 3, 4, 5, 6]),
        (2, &[1, 2, 3, 4, 5, 6], [0, 0, 1, 2, 3, 4]),
        (3, &[1, 2, 3, 4], [0, 0, 0, 0, 1, 2]),
    ];
    for (number, words, expected) in rows {
        let mut values = made(&rt, rt.alloc(), &kinds);
        let done = set(&rt, rt.alloc(), &mut values, (number, 2, false), words)?;
        assert_eq!(rt; done, Ok(()));
        let (first, second, third) = (&expected[..2], &expected[2..4], &expected[4..]);
        holds(&rt, &values, &[&[0], first, second, third, &[0]]);
    }
    Ok(())
}

#[test]
fn booleans_are_kept_as_0_and_1(rt: HostRuntime) -> Result<(), Fail> {
    let rows: [(u32, [u32; 4], [u32; 4]); 2] = [
        (4, [0, MINUS_ZERO, ONE, NO_NUMBER], [0, 0, 1, 1]),
        (8, [0, MINUS_ZERO, 1, 0xFFFF_FFFF], [0, 1, 1, 1]),
    ];
    for (given, words, expected) in rows {
        let mut values = made(&rt, rt.alloc(), &[kind(Base::BVec4, 0)]);
        assert_eq!(rt;
            set(&rt, rt.alloc(), &mut values, (0, given, false), &words)?,
            Ok(())
        );
        holds(&rt, &values, &[&expected]);
    }
    let mut values = made(&rt, rt.alloc(), &[kind(Base::Vec4, 0)]);
    let words = [MINUS_ZERO, NO_NUMBER, 0xFFFF_FFFF, ONE];
    assert_eq!(rt;
        set(&rt, rt.alloc(), &mut values, (0, 4, false), &words)?,
        Ok(())
    );
    holds(&rt, &values, &[&words]);
    Ok(())
}

#[test]
fn a_slot_that_was_set_waits_until_it_is_taken(rt: HostRuntime) -> Result<(), Fail> {
    let kinds = [
        kind(Base::Float, 2),
        kind(Base::Sampler2D, 2),
        kind(Base::Bool, 0),
    ];
    let mut values = made(&rt, rt.alloc(), &kinds);
    assert_eq!(rt; values.next_dirty(), None);
    // a slot, how many words, and the slots that wait afterwards
    let rows: [(u32, u32, &[u32], &[u32]); 5] = [
        (4, 5, &[0], &[4]),
        (2, 5, &[0, 0, 0], &[2, 3]),
        (0, 1, &[ONE], &[0]),
        (1, 1, &[ONE, ONE], &[1]),
        (0, 1, &[ONE, ONE], &[0, 1]),
    ];
    for (number, given, words, waiting) in rows {
        assert_eq!(rt;
            set(&rt, rt.alloc(), &mut values, (number, given, false), words)?,
            Ok(())
        );
        for expected in waiting {
            assert_eq!(rt; values.next_dirty(), Some(*expected));
        }
        assert_eq!(rt; values.next_dirty(), None);
    }
    for number in [3, 0, 4, 0] {
        let given = if number == 0 { 1 } else { 5 };
        assert_eq!(rt;
            set(&rt, rt.alloc(), &mut values, (number, given, false), &[0])?,
            Ok(())
        );
    }
    for expected in [Some(0), Some(3), Some(4), None] {
        assert_eq!(rt; values.next_dirty(), expected);
    }
    Ok(())
}

#[test]
fn slots_are_laid_out_in_order(rt: HostRuntime) -> Result<(), Fail> {
    let kinds = [
        kind(Base::Mat3, 2),
        kind(Base::SamplerCube, 1),
        kind(Base::IVec2, 0),
    ];
    let values = made(&rt, rt.alloc(), &kinds);
    let rows = [
        (Base::Mat3, true, 2, 0),
        (Base::Mat3, true, 1, 9),
        (Base::SamplerCube, true, 1, 18),
        (Base::IVec2, false, 1, 19),
    ];
    for (number, row) in rows.iter().enumerate() {
        let slot = values.slot(number as u32);
        let found = slot.map(|slot| (slot.base, slot.array, slot.room, slot.at));
        assert_eq!(rt; found, Some(*row), "slot {number}");
    }
    assert!(rt; values.slot(4).is_none() && values.len() == 4);
    holds(&rt, &values, &[&[0; 9], &[0; 9], &[0], &[0; 2]]);
    Ok(())
}

#[test]
fn words_are_read_from_bytes(rt: HostRuntime) {
    let bytes = [1, 0, 0, 0, 0x78, 0x56, 0x34, 0x12];
    for len in 0..9 {
        let tail = Tail32::new(&bytes[..len]);
        let expected = if len % 4 == 0 { Some(len / 4) } else { None };
        assert_eq!(rt; tail.map(|tail| tail.len()), expected);
    }
    if let Some(tail) = Tail32::new(&bytes) {
        assert!(rt; tail.len() == 2);
        assert!(rt; tail.word(0) == 1 && tail.word(1) == 0x1234_5678);
    }
}
