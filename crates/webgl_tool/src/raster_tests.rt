//! The calls on raster state, run over memory from bytes to bytes: what each is refused for and returns.

use crate::in_short::{DONE, INVALID_ENUM, INVALID_OPERATION, INVALID_VALUE, number, refused};
use crate::over_memory::{Answered, are_answered};
use std::test::Fail;

#[test]
fn capabilities_are_enabled_disabled_and_told(rt: HostRuntime) -> Result<(), Fail> {
    for capability in [
        0x0B44, 0x0B71, 0x0B90, 0x0BD0, 0x0BE2, 0x0C11, 0x8037, 0x809E, 0x80A0,
    ] {
        let first = if capability == 0x0BD0 { 1 } else { 0 };
        let word = [capability];
        let calls: [Answered<'_>; 9] = [
            (67, &word, number(first)),
            (65, &word, DONE),
            (67, &word, number(1)),
            (65, &[0x0B45], refused(INVALID_ENUM)),
            (67, &word, number(1)),
            (66, &word, DONE),
            (67, &word, number(0)),
            (66, &[0], refused(INVALID_ENUM)),
            (67, &[0x0B45], refused(INVALID_ENUM)),
        ];
        assert!(rt; are_answered(rt.alloc(), &calls)?, "at {capability}");
    }
    Ok(())
}

#[test]
fn each_call_on_raster_state_is_answered(rt: HostRuntime) -> Result<(), Fail> {
    let calls: [Answered<'_>; 18] = [
        (
            68,
            &[0x3F80_0000, 0x8000_0000, 0x7F80_0000, 0xFFFF_FFFF],
            DONE,
        ),
        (69, &[0x8006, 0x800B], DONE),
        (70, &[0x0302, 0x0303, 0x0308, 0x8004], DONE),
        (71, &[0, 1, 2, 0xFFFF_FFFF], DONE),
        (72, &[0x0203], DONE),
        (73, &[0], DONE),
        (74, &[0x0404, 0x0207, 0xFFFF_FFFF, 0xFF], DONE),
        (75, &[0x0405, 0], DONE),
        (76, &[0x0408, 0, 0x1E03, 0x8508], DONE),
        (77, &[0x0408], DONE),
        (78, &[0x0900], DONE),
        (79, &[0xFFFF_FFFF, 0x8000_0000, 0, 0x7FFF_FFFF], DONE),
        (80, &[1, 2, 3, 4], DONE),
        (81, &[0, 0, 0, 0x3F80_0000], DONE),
        (82, &[0x8000_0000], DONE),
        (65, &[0x0BE2], DONE),
        (66, &[0x0BD0], DONE),
        (86, &[], number(0)),
    ];
    assert!(rt; are_answered(rt.alloc(), &calls)?);
    Ok(())
}

#[test]
fn a_refused_call_on_raster_state_raises_its_first_error(rt: HostRuntime) -> Result<(), Fail> {
    let calls: [Answered<'_>; 18] = [
        (69, &[0x8006, 0x8007], refused(INVALID_ENUM)),
        (70, &[0x8001, 0x8003, 1, 0], refused(INVALID_OPERATION)),
        (70, &[0x8004, 0x8002, 1, 0], refused(INVALID_OPERATION)),
        (70, &[0x8001, 0x8003, 1, 0x0308], refused(INVALID_ENUM)),
        (72, &[0x0208], refused(INVALID_ENUM)),
        (74, &[0x0406, 0x0207, 0, 0], refused(INVALID_ENUM)),
        (74, &[0x0408, 0x0208, 0, 0], refused(INVALID_ENUM)),
        (75, &[0, 0], refused(INVALID_ENUM)),
        (76, &[0x0404, 0, 0, 1], refused(INVALID_ENUM)),
        (77, &[0x0407], refused(INVALID_ENUM)),
        (78, &[0x0902], refused(INVALID_ENUM)),
        (79, &[0, 0, 0xFFFF_FFFF, 0], refused(INVALID_VALUE)),
        (80, &[0, 0, 0, 0x8000_0000], refused(INVALID_VALUE)),
        (65, &[0x0B43], refused(INVALID_ENUM)),
        (86, &[], number(INVALID_ENUM)),
        (86, &[], number(INVALID_VALUE)),
        (86, &[], number(INVALID_OPERATION)),
        (86, &[], number(0)),
    ];
    assert!(rt; are_answered(rt.alloc(), &calls)?);
    Ok(())
}
