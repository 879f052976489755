ghost use Rattle.std.specs.Prelude.{◌≡◌};

use crate::{Buffers, Content};
use gl_numbers::{BufferTarget, GlError, Handle, Usage};
use std::alloc::Global;
use std::marker::Brand;
use std::process::Abort;
use std::sync::ledger::{Blank, Ledger};
use std::test::Fail;
use step_count::Steps;

const ARRAY: BufferTarget = BufferTarget::Array;

const ELEMENT: BufferTarget = BufferTarget::ElementArray;

/// Buffers of which one was made and bound to the target.
fn with_one(
    rt: &impl Abort,
    alloc: Global,
    target: BufferTarget,
    h: Handle,
) -> Result<Buffers, Fail> {
    let mut buffers = Buffers::new(alloc);
    let Ok(()) = buffers.add(h) else {
        return Err("no memory")?;
    };
    assert_eq!(rt; buffers.bind(target, Some(h)), Ok(()));
    Ok(buffers)
}

#[test]
fn nothing_is_bound_at_first(rt: HostRuntime) {
    let mut buffers = Buffers::new(rt.alloc());
    assert_eq!(rt; buffers.bound(ARRAY), None);
    assert_eq!(rt; buffers.bound(ELEMENT), None);
    for (size, code) in [
        (0, GlError::Operation),
        (67_108_864, GlError::Operation),
        (67_108_865, GlError::Value),
        (0xFFFF_FFFF, GlError::Value),
    ] {
        let returned = buffers.data(ARRAY, Content::Size(size), Usage::StaticDraw);
        assert_eq!(rt; returned, Err(code), "at {size}");
    }
    for (offset, code) in [
        (-1, GlError::Value),
        (i64::MIN, GlError::Value),
        (0, GlError::Operation),
        (i64::MAX, GlError::Operation),
    ] {
        assert_eq!(rt;
            buffers.sub_data(ELEMENT, offset, &[]),
            Err(code),
            "at {offset}"
        );
    }
}

#[test]
fn a_buffer_stays_with_its_first_target(rt: HostRuntime) -> Result<(), Fail> {
    let mut buffers = with_one(&rt, rt.alloc(), ARRAY, 5)?;
    let Some(h) = buffers.bound(ARRAY) else {
        return Err("not bound")?;
    };
    assert_eq!(rt; h, 5);
    assert_eq!(rt; buffers.usage(h), 0x88E4, "STATIC_DRAW at first");
    assert_eq!(rt; buffers.bind(ELEMENT, Some(h)), Err(GlError::Operation));
    assert_eq!(rt; buffers.bound(ARRAY), Some(5));
    assert_eq!(rt; buffers.bound(ELEMENT), None);
    Ok(())
}

#[test]
fn a_vertex_buffer_keeps_its_size(rt: HostRuntime) -> Result<(), Fail> {
    let mut buffers = with_one(&rt, rt.alloc(), ARRAY, 1)?;
    let content = Content::Size(67_108_864);
    assert_eq!(rt; buffers.data(ARRAY, content, Usage::StaticDraw), Ok(()));
    for (offset, expected) in [
        (67_108_863, Ok(())),
        (67_108_864, Err(GlError::Value)),
        (i64::MAX, Err(GlError::Value)),
    ] {
        assert_eq!(rt;
            buffers.sub_data(ARRAY, offset, &[7]),
            expected,
            "at {offset}"
        );
    }
    let Some(h) = buffers.bound(ARRAY) else {
        return Err("not bound")?;
    };
    assert_eq!(rt; buffers.size(h), 67_108_864);
    Ok(())
}

/// What is done to an element buffer, and what it then holds.
#[derive(Clone, Copy)]
enum Act<'a> {
    Fill(&'a [u8]),
    Zeros(u32),
    Patch {
        offset: i64,
        bytes: &'a [u8],
        expected: Result<(), GlError>,
    },
    Holds(&'a [u8]),
}

/// A bufferSubData, and what it returns.
fn patch(offset: i64, bytes: &[u8], expected: Result<(), GlError>) -> Act<'_> {
    Act::Patch {
        offset,
        bytes,
        expected,
    }
}

/// The bytes of the bound element buffer, of at most one block, are these.
fn holds<L: Ledger>(rt: &impl Abort, buffers: &Buffers, steps: &mut Steps<L>, expected: &[u8]) {
    let Some(h) = buffers.bound(ELEMENT) else {
        assert!(rt; false, "an element buffer is bound");
        return;
    };
    let bytes = buffers.element_bytes(h);
    assert_eq!(rt; bytes.len(), expected.len());
    assert_eq!(rt; buffers.size(h) as usize, expected.len());
    if !bytes.is_empty() {
        assert_eq!(rt; bytes.block(0, steps), expected);
    }
}

/// Does each act in turn, with a counter over `L`.
fn do_all<L: Ledger>(rt: &impl Abort, buffers: &mut Buffers, blank: Blank, acts: &[Act<'_>])
    requires name { blank.name ≡ L.name }
    requires parts { blank.parts ≡ L.parts }
    requires two { L.parts ≡ 2 }
{
    let mut steps = Steps::<L>::start(blank);
    for act in acts {
        match *act {
            Act::Fill(bytes) => {
                assert!(rt; bytes.len() < 100);
                let returned = buffers.data(ELEMENT, Content::Bytes(bytes), Usage::StreamDraw);
                assert_eq!(rt; returned, Ok(()));
            }
            Act::Zeros(size) => {
                let returned = buffers.data(ELEMENT, Content::Size(size), Usage::DynamicDraw);
                assert_eq!(rt; returned, Ok(()));
            }
            Act::Patch {
                offset,
                bytes,
                expected,
            } => {
                assert_eq!(rt;
                    buffers.sub_data(ELEMENT, offset, bytes),
                    expected,
                    "at {offset}"
                );
            }
            Act::Holds(expected) => holds(rt, buffers, &mut steps, expected),
        }
    }
}

#[test]
fn an_element_buffer_keeps_its_bytes(rt: HostRuntime) -> Result<(), Fail> {
    let mut buffers = with_one(&rt, rt.alloc(), ELEMENT, 3)?;
    let acts = [
        Act::Holds(&[]),
        Act::Fill(&[1, 2, 3, 4]),
        patch(3, &[8, 9], Err(GlError::Value)),
        patch(5, &[], Err(GlError::Value)),
        patch(-1, &[], Err(GlError::Value)),
        patch(i64::MAX, &[8], Err(GlError::Value)),
        Act::Holds(&[1, 2, 3, 4]),
        patch(2, &[8, 9], Ok(())),
        patch(4, &[], Ok(())),
        Act::Holds(&[1, 2, 8, 9]),
        Act::Zeros(3),
        Act::Holds(&[0, 0, 0]),
    ];
    do_all::<Brand>(&rt, &mut buffers, Blank::new(2), &acts);
    Ok(())
}

#[test]
fn a_buffer_that_is_gone_is_bound_nowhere(rt: HostRuntime) -> Result<(), Fail> {
    let mut buffers = with_one(&rt, rt.alloc(), ELEMENT, 1)?;
    buffers.gone(2);
    assert_eq!(rt; buffers.bound(ELEMENT), Some(1), "another was gone");
    buffers.gone(1);
    assert_eq!(rt; buffers.bound(ELEMENT), None);
    let returned = buffers.data(ELEMENT, Content::Size(1), Usage::StaticDraw);
    assert_eq!(rt; returned, Err(GlError::Operation));
    Ok(())
}
