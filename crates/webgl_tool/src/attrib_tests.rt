//! The calls on vertex attributes, run over memory: what each is refused for, does and returns. None sends a command.

use crate::encoded::session;
use crate::in_short::{
    ARRAY, CREATE, DONE, ELEMENT, GET_ERROR, INVALID_ENUM, INVALID_OPERATION, INVALID_VALUE, array,
    attribute, attribute_offset, bind, bind_buffer, constant, delete, drop_buffer, list,
    make_buffer, number, pointer, refused,
};
use crate::over_memory::is_served;
use call_records::{AttribCall, Call, Reply};
use std::test::Fail;

const ENABLED: u32 = 0x8622;

const SIZE: u32 = 0x8623;

const STRIDE: u32 = 0x8624;

const TYPE: u32 = 0x8625;

const CURRENT: u32 = 0x8626;

const POINTER: u32 = 0x8645;

const NORMALIZED: u32 = 0x886A;

const BUFFER: u32 = 0x889F;

const FLOAT: u32 = 0x1406;

#[test]
fn each_record_on_attributes_has_its_bytes(rt: HostRuntime) -> Result<(), Fail> {
    let calls = [
        array(15, true),
        array(258, false),
        pointer(3, (2, 0x1402, -4, 4_294_967_298)),
        constant(1, [0x3F80_0000, 0x8000_0000, 0, 0x7FC0_0001]),
        attribute(2, ENABLED),
        attribute_offset(2, POINTER),
    ];
    let bytes: [u8; 136] = [
        0x57, 0x47, 0x4C, 0x52, 0x01, 0x00, 0x00, 0x00, // WGLR, version 1
        0x18, 0x00, 0x00, 0x00, 0x04, 0x00, 0x00, 0x00, // enableVertexAttribArray
        0x0F, 0x00, 0x00, 0x00, // index 15
        0x19, 0x00, 0x00, 0x00, 0x04, 0x00, 0x00, 0x00, // disableVertexAttribArray
        0x02, 0x01, 0x00, 0x00, // index 258
        0x1A, 0x00, 0x00, 0x00, 0x1C, 0x00, 0x00, 0x00, // vertexAttribPointer
        0x03, 0x00, 0x00, 0x00, 0x02, 0x00, 0x00, 0x00, // index 3, size 2
        0x02, 0x14, 0x00, 0x00, 0x00, 0x00, 0x00, 0x00, // SHORT, not normalized
        0xFC, 0xFF, 0xFF, 0xFF, // stride -4
        0x02, 0x00, 0x00, 0x00, 0x01, 0x00, 0x00, 0x00, // offset 2^32 + 2
        0x1B, 0x00, 0x00, 0x00, 0x14, 0x00, 0x00, 0x00, // vertexAttrib
        0x01, 0x00, 0x00, 0x00, // index 1
        0x00, 0x00, 0x80, 0x3F, 0x00, 0x00, 0x00, 0x80, // 1.0, -0.0
        0x00, 0x00, 0x00, 0x00, 0x01, 0x00, 0xC0, 0x7F, // 0.0, no number
        0x1C, 0x00, 0x00, 0x00, 0x08, 0x00, 0x00, 0x00, // getVertexAttrib
        0x02, 0x00, 0x00, 0x00, 0x22, 0x86, 0x00, 0x00, // index 2, VERTEX_ATTRIB_ARRAY_ENABLED
        0x1D, 0x00, 0x00, 0x00, 0x08, 0x00, 0x00, 0x00, // getVertexAttribOffset
        0x02, 0x00, 0x00, 0x00, 0x45, 0x86, 0x00, 0x00, // index 2, VERTEX_ATTRIB_ARRAY_POINTER
        0x00, 0x00, 0x00, 0x00, 0x00, 0x00, 0x00, 0x00, // the closing record
    ];
    assert_eq!(rt; session(rt.alloc(), &calls)?.as_slice(), bytes.as_slice());
    Ok(())
}

#[test]
fn attributes_at_the_start(rt: HostRuntime) -> Result<(), Fail> {
    for index in [0, 15] {
        let calls = [
            attribute(index, ENABLED),
            attribute(index, SIZE),
            attribute(index, STRIDE),
            attribute(index, TYPE),
            attribute(index, CURRENT),
            attribute(index, NORMALIZED),
            attribute(index, BUFFER),
            attribute_offset(index, POINTER),
        ];
        let replies = [
            number(0),
            number(4),
            number(0),
            number(FLOAT),
            list(&[0, 0, 0, 0x3F80_0000]),
            number(0),
            number(0),
            list(&[0, 0]),
        ];
        assert!(rt; is_served(rt.alloc(), &calls, &replies, &[])?, "{index}");
    }
    Ok(())
}

#[test]
fn a_call_on_attributes_is_refused_by_its_first_rule(rt: HostRuntime) -> Result<(), Fail> {
    let cases: [(&str, Call<'_>, u32); 19] = [
        ("enable", array(16, true), INVALID_VALUE),
        ("disable", array(0xFFFF_FFFF, false), INVALID_VALUE),
        ("index", pointer(16, (5, 1, -1, -1)), INVALID_VALUE),
        ("size", pointer(15, (0, 1, -1, -1)), INVALID_VALUE),
        ("five", pointer(15, (5, FLOAT, 0, 0)), INVALID_VALUE),
        ("type", pointer(15, (4, 0x1404, -1, -1)), INVALID_ENUM),
        ("stride", pointer(15, (1, FLOAT, 256, 4)), INVALID_VALUE),
        ("negative", pointer(15, (1, FLOAT, -1, 4)), INVALID_VALUE),
        ("offset", pointer(15, (1, FLOAT, 0, -1)), INVALID_VALUE),
        (
            "none bound",
            pointer(15, (1, FLOAT, 2, 1)),
            INVALID_OPERATION,
        ),
        ("multiple", pointer(15, (1, FLOAT, 2, 0)), INVALID_OPERATION),
        ("constant", constant(16, [0; 4]), INVALID_VALUE),
        ("get, index", attribute(16, 1), INVALID_VALUE),
        ("get, before", attribute(15, 0x8621), INVALID_ENUM),
        ("get, after", attribute(15, 0x8627), INVALID_ENUM),
        ("get, pointer", attribute(15, POINTER), INVALID_ENUM),
        ("offset, index", attribute_offset(16, 1), INVALID_VALUE),
        ("offset, name", attribute_offset(15, BUFFER), INVALID_ENUM),
        ("offset, next", attribute_offset(15, 0x8646), INVALID_ENUM),
    ];
    for (name, call, code) in cases {
        let calls = [call, GET_ERROR, GET_ERROR, attribute(15, STRIDE)];
        let replies = [refused(code), number(code), number(0), number(0)];
        assert!(rt; is_served(rt.alloc(), &calls, &replies, &[])?, "{name}");
    }
    Ok(())
}

#[test]
fn an_attribute_is_told_after_each_call(rt: HostRuntime) -> Result<(), Fail> {
    let words = [0x4000_0000, 0xFF80_0000, 0x7FC0_0001, 0xFFFF_FFFF];
    let normalized = Call::Attrib(AttribCall::VertexAttribPointer {
        index: 9,
        size: 3,
        kind: 0x1403,
        normalized: 256,
        stride: 254,
        offset: 0x1_0000_0002,
    });
    let cases: [(&str, Call<'_>, Call<'_>, Reply); 15] = [
        ("on", array(9, true), attribute(9, ENABLED), number(1)),
        ("another", array(8, true), attribute(9, ENABLED), number(0)),
        ("off", array(9, false), attribute(9, ENABLED), number(0)),
        (
            "words",
            constant(9, words),
            attribute(9, CURRENT),
            list(&words),
        ),
        ("size", normalized, attribute(9, SIZE), number(3)),
        ("type", normalized, attribute(9, TYPE), number(0x1403)),
        ("any word", normalized, attribute(9, NORMALIZED), number(1)),
        ("stride", normalized, attribute(9, STRIDE), number(254)),
        ("buffer", normalized, attribute(9, BUFFER), number(1)),
        (
            "two words",
            normalized,
            attribute_offset(9, POINTER),
            list(&[2, 1]),
        ),
        (
            "largest",
            pointer(9, (1, 0x1400, 0, i64::MAX)),
            attribute_offset(9, POINTER),
            list(&[0xFFFF_FFFF, 0x7FFF_FFFF]),
        ),
        (
            "not normalized",
            pointer(9, (1, 0x1401, 255, 1)),
            attribute(9, NORMALIZED),
            number(0),
        ),
        ("still off", normalized, attribute(9, ENABLED), number(0)),
        (
            "the same constant",
            normalized,
            attribute(9, CURRENT),
            list(&[0, 0, 0, 0x3F80_0000]),
        ),
        ("the next one", normalized, attribute(10, BUFFER), number(0)),
    ];
    for (name, call, get, reply) in cases {
        let calls = [CREATE, bind(ARRAY, 1), call, get];
        let replies = [number(1), DONE, DONE, reply];
        let commands = [make_buffer(3), bind_buffer(ARRAY, 3)];
        assert!(rt;
            is_served(rt.alloc(), &calls, &replies, &commands)?,
            "{name}"
        );
    }
    Ok(())
}

#[test]
fn an_array_is_in_the_buffer_that_is_bound(rt: HostRuntime) -> Result<(), Fail> {
    let calls = [
        CREATE,
        bind(ELEMENT, 1),
        pointer(0, (2, FLOAT, 0, 4)),
        pointer(0, (2, FLOAT, 0, 0)),
        attribute(0, BUFFER),
        CREATE,
        bind(ARRAY, 2),
        attribute(0, BUFFER),
        pointer(0, (2, FLOAT, 0, 4)),
        bind(ARRAY, 0),
        attribute(0, BUFFER),
        attribute_offset(0, POINTER),
    ];
    let replies = [
        number(1),
        DONE,
        refused(INVALID_OPERATION),
        DONE,
        number(0),
        number(2),
        DONE,
        number(0),
        DONE,
        DONE,
        number(2),
        list(&[4, 0]),
    ];
    let commands = [
        make_buffer(3),
        bind_buffer(ELEMENT, 3),
        make_buffer(4),
        bind_buffer(ARRAY, 4),
        bind_buffer(ARRAY, 0),
    ];
    assert!(rt; is_served(rt.alloc(), &calls, &replies, &commands)?);
    Ok(())
}

#[test]
fn a_deleted_buffer_is_taken_from_the_attributes(rt: HostRuntime) -> Result<(), Fail> {
    // 1 is pointed at by two attributes, 2 by one, and 2 is bound
    let calls = [
        CREATE,
        bind(ARRAY, 1),
        pointer(0, (2, FLOAT, 8, 4)),
        array(0, true),
        pointer(15, (2, FLOAT, 8, 4)),
        CREATE,
        bind(ARRAY, 2),
        pointer(1, (2, FLOAT, 8, 4)),
        delete(1),
        attribute(0, BUFFER),
        attribute(0, ENABLED),
        attribute(0, STRIDE),
        attribute_offset(0, POINTER),
        attribute(15, BUFFER),
        attribute(1, BUFFER),
        delete(1),
        delete(0),
        attribute(1, BUFFER),
        delete(2),
        attribute(1, BUFFER),
        pointer(1, (2, FLOAT, 8, 4)),
    ];
    let replies = [
        number(1),
        DONE,
        DONE,
        DONE,
        DONE,
        number(2),
        DONE,
        DONE,
        DONE,
        number(0),
        number(1),
        number(8),
        list(&[4, 0]),
        number(0),
        number(2),
        DONE,
        DONE,
        number(2),
        DONE,
        number(0),
        refused(INVALID_OPERATION),
    ];
    let commands = [
        make_buffer(3),
        bind_buffer(ARRAY, 3),
        make_buffer(4),
        bind_buffer(ARRAY, 4),
        drop_buffer(3),
        drop_buffer(4),
    ];
    assert!(rt; is_served(rt.alloc(), &calls, &replies, &commands)?);
    Ok(())
}
