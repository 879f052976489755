use crate::Values;
use crate::fixtures::{NOTHING, Row, Source, made};
use glsl_types::Base;
use std::test::Fail;
use uniform_values::Tail32;

#[test]
fn attributes_have_locations_in_source_order(rt: HostRuntime) -> Result<(), Fail> {
    let vertex = Source {
        attributes: &[
            (b"position", Base::Vec3, 0, b"hu"),
            (b"unused", Base::Vec4, 0, b"h"),
            (b"bones", Base::Mat3, 0, b"hu"),
            (b"bound", Base::Vec2, 0, b"hu"),
            (b"last", Base::Float, 0, b"hu"),
        ],
        ..NOTHING
    };
    let executable = made(
        &rt,
        rt.alloc(),
        (vertex, NOTHING),
        &[(b"bound", 2), (b"unused", 0)],
    );
    let names: [(&[u8], Option<u32>, u32); 5] = [
        (b"position", Some(0), 0x8B51),
        (b"bones", Some(3), 0x8B5B),
        (b"bound", Some(2), 0x8B50),
        (b"last", Some(1), 0x1406),
        (b"unused", None, 0),
    ];
    for (i, (name, location, kind)) in names.iter().enumerate() {
        assert_eq!(rt; executable.attribute(name), *location, "attribute {i}");
        match executable.active_attribute(i as u32) {
            Some(active) => {
                assert_eq!(rt; active.name.as_slice(), *name);
                assert_eq!(rt; (active.size, active.kind), (1, *kind));
                assert_eq!(rt; Some(active.first), *location);
            }
            None => assert!(rt; location.is_none()),
        }
    }
    for name in [b"".as_slice(), b"positio", b"positions", b"bones[0]"] {
        assert_eq!(rt; executable.attribute(name), None);
    }
    Ok(())
}

/// The structures of a scene.
const SCENE: &[(&[u8], &[Row])] = &[
    (
        b"Light",
        &[(b"color", Base::Vec3, 0, b"h"), (b"on", Base::Bool, 2, b"")],
    ),
    (
        b"Scene",
        &[
            (b"lights", Base::Struct(1), 2, b""),
            (b"fog", Base::Float, 0, b"h"),
        ],
    ),
];

#[test]
fn uniforms_have_slots_in_the_order_of_use(rt: HostRuntime) -> Result<(), Fail> {
    let vertex = Source {
        uniforms: &[
            (b"both", Base::Vec4, 3, b"hu"),
            (b"later", Base::Float, 0, b"h"),
            (b"scene", Base::Struct(2), 0, b"u"),
        ],
        structs: SCENE,
        ..NOTHING
    };
    let fragment = Source {
        uniforms: &[
            (b"map", Base::Sampler2D, 0, b"lu"),
            (b"both", Base::Vec4, 3, b"hu"),
            (b"later", Base::Float, 0, b"hu"),
            (b"unused", Base::Float, 0, b"h"),
            (b"one", Base::Mat2, 1, b"hu"),
        ],
        ..NOTHING
    };
    let executable = made(&rt, rt.alloc(), (vertex, fragment), &[]);
    let active: [(&[u8], u32, u32, u32); 9] = [
        (b"both[0]", 3, 0x8B52, 0),
        (b"scene.lights[0].color", 1, 0x8B51, 3),
        (b"scene.lights[0].on[0]", 2, 0x8B56, 4),
        (b"scene.lights[1].color", 1, 0x8B51, 6),
        (b"scene.lights[1].on[0]", 2, 0x8B56, 7),
        (b"scene.fog", 1, 0x1406, 9),
        (b"map", 1, 0x8B5E, 10),
        (b"later", 1, 0x1406, 11),
        (b"one[0]", 1, 0x8B5A, 12),
    ];
    for (i, (name, size, kind, first)) in active.iter().enumerate() {
        assert_eq!(rt; executable.uniform(name), Some(*first), "uniform {i}");
        match executable.active_uniform(i as u32) {
            Some(active) => {
                assert_eq!(rt; active.name.as_slice(), *name);
                let found = (active.size, active.kind, active.first);
                assert_eq!(rt; found, (*size, *kind, *first));
            }
            None => panic!(rt; "no uniform {i}"),
        }
    }
    assert!(rt; executable.active_uniform(9).is_none());
    assert!(rt; executable.kinds().len() == 9);
    let names: [(&[u8], Option<u32>); 16] = [
        (b"both", Some(0)),
        (b"both[1]", Some(1)),
        (b"both[2]", Some(2)),
        (b"both[3]", None),
        (b"both[01]", None),
        (b"both[+1]", None),
        (b"both[]", None),
        (b"both[4294967296]", None),
        (b"both[1][0]", None),
        (b"one", Some(12)),
        (b"scene", None),
        (b"scene.lights[1].on", Some(7)),
        (b"scene.lights[1].on[1]", Some(8)),
        (b"scene.lights[1]", None),
        (b"later[0]", None),
        (b"unused", None),
    ];
    for (name, slot) in names {
        assert_eq!(rt; executable.uniform(name), slot, "{name:?}");
    }
    Ok(())
}

#[test]
fn values_have_the_slots_of_the_executable(rt: HostRuntime) -> Result<(), Fail> {
    let vertex = Source {
        uniforms: &[
            (b"a", Base::Vec2, 2, b"hu"),
            (b"unused", Base::Mat4, 0, b"h"),
            (b"b", Base::Bool, 0, b"u"),
        ],
        ..NOTHING
    };
    let executable = made(&rt, rt.alloc(), (vertex, NOTHING), &[]);
    let Ok(mut values) = Values::make(rt.alloc(), &executable) else {
        panic!(rt; "out of memory");
    };
    assert_eq!(rt; values.len(), 3);
    let Some(words) = Tail32::new(&[0, 0, 128, 63, 0, 0, 0, 64]) else {
        panic!(rt; "no whole words");
    };
    if 1 < values.len() {
        assert_eq!(rt; values.get(&executable, 1).as_slice(), [0, 0].as_slice());
        assert_eq!(rt; values.set(&executable, 1, 2, false, words), Ok(()));
    }
    assert_eq!(rt; values.next_dirty(), Some(1));
    assert_eq!(rt; values.next_dirty(), None);
    Ok(())
}
