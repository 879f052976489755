use crate::fixtures::{NOTHING, Row, Source, breaks};
use glsl_types::Base;
use std::test::Fail;

/// A name of 256 bytes.
const LONG: &[u8; 256] = &[b'n'; 256];
/// A name of 257 bytes.
const LONGER: &[u8; 257] = &[b'n'; 257];

/// The varyings of a vertex and of a fragment shader, and the rule that they break.
const VARYINGS: [(&[Row], &[Row], u8); 23] = [
    (&[], &[], 0),
    (&[(b"v", Base::Vec4, 0, b"h")], &[], 0),
    (
        &[(b"v", Base::Vec4, 0, b"h")],
        &[(b"v", Base::Vec4, 0, b"mu")],
        0,
    ),
    (
        &[(b"v", Base::Vec4, 0, b"hu")],
        &[(b"v", Base::Vec4, 0, b"l")],
        0,
    ),
    (&[], &[(b"v", Base::Vec4, 0, b"m")], 0),
    (
        &[(b"v", Base::Mat2, 3, b"hi")],
        &[(b"v", Base::Mat2, 3, b"mui")],
        0,
    ),
    (&[], &[(b"v", Base::Vec4, 0, b"mu")], 4),
    (
        &[(b"w", Base::Vec4, 0, b"hu")],
        &[(b"v", Base::Vec4, 0, b"mu")],
        4,
    ),
    (
        &[(b"v", Base::Vec3, 0, b"h")],
        &[(b"v", Base::Vec4, 0, b"m")],
        4,
    ),
    (
        &[(b"v", Base::Vec4, 0, b"h")],
        &[(b"v", Base::Vec4, 1, b"mu")],
        4,
    ),
    (
        &[(b"v", Base::Vec4, 2, b"h")],
        &[(b"v", Base::Vec4, 3, b"mu")],
        4,
    ),
    (
        &[(b"v", Base::Vec4, 0, b"hi")],
        &[(b"v", Base::Vec4, 0, b"mu")],
        4,
    ),
    (
        &[(b"v", Base::Vec4, 0, b"h")],
        &[(b"v", Base::Vec4, 0, b"mi")],
        4,
    ),
    // rows for what the fragment shader uses: 16
    (
        &[(b"v", Base::Vec4, 16, b"h")],
        &[(b"v", Base::Vec4, 16, b"mu")],
        0,
    ),
    (
        &[(b"v", Base::Vec4, 17, b"h")],
        &[(b"v", Base::Vec4, 17, b"mu")],
        7,
    ),
    (
        &[(b"v", Base::Mat4, 5, b"hu")],
        &[(b"v", Base::Mat4, 5, b"m")],
        0,
    ),
    (
        &[(b"v", Base::Mat4, 5, b"hu")],
        &[(b"v", Base::Mat4, 5, b"mu")],
        7,
    ),
    (
        &[(b"v", Base::Float, 17, b"hu")],
        &[(b"v", Base::Float, 17, b"mu")],
        7,
    ),
    (
        &[(b"v", Base::Mat4, 4, b"h")],
        &[(b"v", Base::Mat4, 4, b"mu")],
        0,
    ),
    (
        &[(b"v", Base::Mat3, 5, b"h"), (b"w", Base::Float, 16, b"h")],
        &[(b"v", Base::Mat3, 5, b"mu"), (b"w", Base::Float, 16, b"mu")],
        0,
    ),
    (
        &[(b"v", Base::Mat3, 5, b"h"), (b"w", Base::Vec2, 2, b"h")],
        &[(b"v", Base::Mat3, 5, b"mu"), (b"w", Base::Vec2, 2, b"mu")],
        7,
    ),
    (
        &[(b"v", Base::Vec2, 16, b"h"), (b"w", Base::Vec2, 16, b"h")],
        &[(b"v", Base::Vec2, 16, b"mu"), (b"w", Base::Vec2, 16, b"mu")],
        0,
    ),
    (
        &[(b"v", Base::Vec2, 16, b"h"), (b"w", Base::Vec2, 17, b"h")],
        &[(b"v", Base::Vec2, 16, b"mu"), (b"w", Base::Vec2, 17, b"mu")],
        7,
    ),
];

#[test]
fn varyings_are_declared_in_both_shaders_and_have_room(rt: HostRuntime) -> Result<(), Fail> {
    for (vertex, fragment, rule) in VARYINGS {
        let shaders = (
            Source {
                varyings: vertex,
                ..NOTHING
            },
            Source {
                varyings: fragment,
                ..NOTHING
            },
        );
        breaks(&rt, rt.alloc(), shaders, &[], rule)?;
    }
    Ok(())
}

/// The uniforms of a vertex and of a fragment shader, and the rule that they break.
const UNIFORMS: [(&[Row], &[Row], u8); 34] = [
    (
        &[(b"a", Base::Vec4, 0, b"hu")],
        &[(b"a", Base::Vec4, 0, b"hu")],
        0,
    ),
    (
        &[(b"a", Base::Bool, 0, b"u")],
        &[(b"a", Base::Bool, 0, b"u")],
        0,
    ),
    (
        &[(b"a", Base::Sampler2D, 2, b"lu")],
        &[(b"a", Base::Sampler2D, 2, b"l")],
        0,
    ),
    (
        &[(b"a", Base::Vec4, 0, b"h")],
        &[(b"b", Base::Vec3, 0, b"m")],
        0,
    ),
    (
        &[(b"a", Base::Vec4, 0, b"h")],
        &[(b"a", Base::Vec3, 0, b"h")],
        5,
    ),
    (
        &[(b"a", Base::Int, 0, b"hu")],
        &[(b"a", Base::Int, 0, b"mu")],
        5,
    ),
    (
        &[(b"a", Base::Int, 0, b"hu")],
        &[(b"a", Base::Float, 0, b"hu")],
        5,
    ),
    (
        &[(b"a", Base::Vec4, 2, b"hu")],
        &[(b"a", Base::Vec4, 3, b"hu")],
        5,
    ),
    (
        &[(b"a", Base::Vec4, 0, b"hu")],
        &[(b"a", Base::Vec4, 1, b"h")],
        5,
    ),
    (
        &[(b"a", Base::Sampler2D, 0, b"l")],
        &[(b"a", Base::SamplerCube, 0, b"l")],
        5,
    ),
    // rows in the vertex shader: 256
    (&[(b"a", Base::Vec4, 256, b"hu")], &[], 0),
    (&[(b"a", Base::Vec4, 257, b"hu")], &[], 8),
    (&[(b"a", Base::Vec4, 257, b"h")], &[], 0),
    (&[(b"a", Base::Mat4, 64, b"hu")], &[], 0),
    (
        &[(b"a", Base::Mat4, 64, b"hu"), (b"b", Base::Float, 0, b"hu")],
        &[],
        8,
    ),
    (
        &[
            (b"a", Base::Vec3, 256, b"hu"),
            (b"b", Base::Float, 256, b"hu"),
        ],
        &[],
        0,
    ),
    (
        &[
            (b"a", Base::Vec3, 256, b"hu"),
            (b"b", Base::Float, 257, b"hu"),
        ],
        &[],
        8,
    ),
    (&[(b"a", Base::Float, 65_536, b"hu")], &[], 8),
    (&[(b"a", Base::Mat2, 128, b"hu")], &[], 0),
    (&[(b"a", Base::Mat2, 129, b"hu")], &[], 8),
    (
        &[
            (b"a", Base::Mat3, 85, b"hu"),
            (b"b", Base::BVec3, 2, b"u"),
            (b"c", Base::Int, 256, b"h"),
        ],
        &[],
        8,
    ),
    // rows in the fragment shader: 224
    (&[], &[(b"a", Base::Vec4, 224, b"hu")], 0),
    (&[], &[(b"a", Base::Vec4, 225, b"hu")], 9),
    (
        &[(b"a", Base::Vec4, 225, b"hu")],
        &[(b"a", Base::Vec4, 225, b"h")],
        0,
    ),
    (
        &[(b"a", Base::Vec4, 225, b"hu")],
        &[(b"a", Base::Vec4, 225, b"hu")],
        9,
    ),
    (
        &[(b"a", Base::Vec4, 257, b"hu")],
        &[(b"a", Base::Vec4, 257, b"hu")],
        8,
    ),
    (
        &[],
        &[
            (b"a", Base::Vec2, 224, b"hu"),
            (b"b", Base::Vec2, 224, b"hu"),
        ],
        0,
    ),
    (
        &[],
        &[
            (b"a", Base::Vec2, 224, b"hu"),
            (b"b", Base::Vec2, 225, b"hu"),
        ],
        9,
    ),
    (&[], &[(b"a", Base::Mat4, 56, b"hu")], 0),
    (&[], &[(b"a", Base::Mat4, 57, b"hu")], 9),
    (
        &[(b"a", Base::Mat4, 64, b"hu")],
        &[(b"b", Base::Mat4, 56, b"hu")],
        0,
    ),
    (
        &[(b"a", Base::Mat4, 64, b"hu")],
        &[(b"b", Base::Mat4, 56, b"hu"), (b"c", Base::Int, 0, b"mu")],
        9,
    ),
    (
        &[(b"a", Base::IVec4, 256, b"hu")],
        &[(b"b", Base::IVec3, 225, b"mu")],
        9,
    ),
    (
        &[(b"a", Base::Vec4, 0, b"h"), (b"b", Base::Int, 0, b"h")],
        &[(b"b", Base::Int, 0, b"l")],
        5,
    ),
];

#[test]
fn uniforms_in_both_shaders_are_one_and_have_room(rt: HostRuntime) -> Result<(), Fail> {
    for (vertex, fragment, rule) in UNIFORMS {
        let shaders = (
            Source {
                uniforms: vertex,
                ..NOTHING
            },
            Source {
                uniforms: fragment,
                ..NOTHING
            },
        );
        breaks(&rt, rt.alloc(), shaders, &[], rule)?;
    }
    Ok(())
}

/// Samplers of a vertex and of a fragment shader, and names; and the rule that they break.
const SAMPLERS_AND_NAMES: [(&[Row], &[Row], u8); 21] = [
    (&[(b"a", Base::Sampler2D, 4, b"lu")], &[], 0),
    (&[(b"a", Base::Sampler2D, 5, b"lu")], &[], 10),
    (
        &[
            (b"a", Base::Sampler2D, 3, b"lu"),
            (b"b", Base::SamplerCube, 2, b"lu"),
        ],
        &[],
        10,
    ),
    (
        &[(b"a", Base::Sampler2D, 5, b"l")],
        &[(b"b", Base::SamplerCube, 17, b"l")],
        0,
    ),
    (
        &[(b"a", Base::Sampler2D, 4, b"lu")],
        &[(b"b", Base::SamplerCube, 16, b"lu")],
        0,
    ),
    (&[], &[(b"b", Base::SamplerCube, 17, b"lu")], 10),
    (
        &[(b"a", Base::Sampler2D, 4, b"lu")],
        &[(b"b", Base::SamplerCube, 17, b"lu")],
        10,
    ),
    (
        &[(b"a", Base::Sampler2D, 5, b"l")],
        &[(b"a", Base::Sampler2D, 5, b"lu")],
        0,
    ),
    (
        &[(b"a", Base::Sampler2D, 4, b"lu")],
        &[
            (b"a", Base::Sampler2D, 4, b"lu"),
            (b"b", Base::SamplerCube, 13, b"lu"),
        ],
        10,
    ),
    (
        &[(b"a", Base::Sampler2D, 4, b"lu")],
        &[
            (b"a", Base::Sampler2D, 4, b"lu"),
            (b"b", Base::SamplerCube, 12, b"lu"),
        ],
        0,
    ),
    (&[(LONG, Base::Float, 0, b"hu")], &[], 0),
    (&[(LONGER, Base::Float, 0, b"hu")], &[], 11),
    (&[(LONGER, Base::Float, 0, b"h")], &[], 0),
    (&[(LONG, Base::Float, 1, b"hu")], &[], 11),
    (&[], &[(LONG, Base::Float, 1, b"hu")], 11),
    (&[], &[(LONG, Base::Float, 1, b"h")], 0),
    (&[], &[(LONGER, Base::Mat4, 0, b"hu")], 11),
    (
        &[(LONG, Base::Float, 0, b"h")],
        &[(LONG, Base::Float, 0, b"hu")],
        0,
    ),
    (
        &[],
        &[(b"a", Base::Float, 0, b"hu"), (LONGER, Base::Int, 0, b"m")],
        0,
    ),
    (
        &[
            (LONGER, Base::Float, 0, b"hu"),
            (b"a", Base::Sampler2D, 5, b"lu"),
        ],
        &[],
        10,
    ),
    (
        &[
            (LONGER, Base::Float, 0, b"hu"),
            (b"a", Base::Vec4, 256, b"hu"),
        ],
        &[],
        8,
    ),
];

#[test]
fn samplers_are_counted_and_names_are_measured(rt: HostRuntime) -> Result<(), Fail> {
    for (vertex, fragment, rule) in SAMPLERS_AND_NAMES {
        let shaders = (
            Source {
                uniforms: vertex,
                ..NOTHING
            },
            Source {
                uniforms: fragment,
                ..NOTHING
            },
        );
        breaks(&rt, rt.alloc(), shaders, &[], rule)?;
    }
    Ok(())
}

/// Attributes, the locations that are bound, and the rule that they break.
const ATTRIBUTES: [(&[Row], &[(&[u8], u32)], u8); 17] = [
    (&[(b"a", Base::Vec4, 0, b"hu")], &[], 0),
    (&[(b"a", Base::Vec4, 0, b"hu")], &[(b"a", 15)], 0),
    (&[(b"a", Base::Vec4, 0, b"hu")], &[(b"a", 16)], 6),
    (&[(b"a", Base::Vec4, 0, b"hu")], &[(b"a", 0xFFFF_FFFF)], 6),
    (&[(b"a", Base::Vec4, 0, b"h")], &[(b"a", 16)], 0),
    (&[(b"a", Base::Mat4, 0, b"hu")], &[(b"a", 12)], 0),
    (&[(b"a", Base::Mat4, 0, b"hu")], &[(b"a", 13)], 6),
    (
        &[(b"a", Base::Mat2, 0, b"hu"), (b"b", Base::Float, 0, b"hu")],
        &[(b"a", 2), (b"b", 4)],
        0,
    ),
    (
        &[(b"a", Base::Mat2, 0, b"hu"), (b"b", Base::Float, 0, b"hu")],
        &[(b"a", 2), (b"b", 3)],
        6,
    ),
    (
        &[(b"a", Base::Mat2, 0, b"hu"), (b"b", Base::Float, 0, b"h")],
        &[(b"a", 2), (b"b", 3)],
        0,
    ),
    (
        &[(b"a", Base::Vec4, 0, b"hu"), (b"b", Base::Vec4, 0, b"hu")],
        &[(b"a", 2), (b"b", 2)],
        6,
    ),
    (
        &[(b"a", Base::Vec4, 0, b"hu"), (b"b", Base::Vec4, 0, b"hu")],
        &[(b"a", 2), (b"a", 3), (b"b", 2)],
        0,
    ),
    (
        &[
            (b"a", Base::Mat4, 0, b"hu"),
            (b"b", Base::Mat4, 0, b"hu"),
            (b"c", Base::Mat4, 0, b"hu"),
            (b"d", Base::Mat4, 0, b"hu"),
        ],
        &[],
        0,
    ),
    (
        &[
            (b"a", Base::Mat4, 0, b"hu"),
            (b"b", Base::Mat4, 0, b"hu"),
            (b"c", Base::Mat4, 0, b"hu"),
            (b"d", Base::Mat4, 0, b"hu"),
            (b"e", Base::Float, 0, b"hu"),
        ],
        &[],
        6,
    ),
    (
        &[
            (b"a", Base::Mat4, 0, b"hu"),
            (b"b", Base::Mat4, 0, b"hu"),
            (b"c", Base::Mat4, 0, b"hu"),
            (b"d", Base::Vec4, 0, b"hu"),
        ],
        &[(b"d", 2)],
        0,
    ),
    (
        &[
            (b"a", Base::Mat4, 0, b"hu"),
            (b"b", Base::Mat4, 0, b"hu"),
            (b"c", Base::Mat4, 0, b"hu"),
            (b"d", Base::Vec4, 0, b"hu"),
            (b"e", Base::Vec4, 0, b"hu"),
        ],
        &[(b"d", 3), (b"e", 10)],
        6,
    ),
    (&[(LONGER, Base::Vec4, 0, b"hu")], &[], 11),
];

#[test]
fn attributes_find_locations_that_no_other_has(rt: HostRuntime) -> Result<(), Fail> {
    for (attributes, bound, rule) in ATTRIBUTES {
        let shaders = (
            Source {
                attributes,
                ..NOTHING
            },
            NOTHING,
        );
        breaks(&rt, rt.alloc(), shaders, bound, rule)?;
    }
    Ok(())
}

/// Two fields, and a structure's.
const X: Row = (b"x", Base::Float, 0, b"h");

const Y: Row = (b"y", Base::Vec3, 2, b"h");

const S: Row = (b"s", Base::Struct(1), 2, b"");

/// The structures of a vertex and of a fragment shader, each with a uniform of the last of them, and the rule that they break.
type Structures = &'static [(&'static [u8], &'static [Row])];

const STRUCTURES: [(Structures, Structures, u8); 12] = [
    (&[(b"S", &[X, Y])], &[(b"S", &[X, Y])], 0),
    (&[(b"", &[X, Y])], &[(b"", &[X, Y])], 0),
    (&[(b"", &[]), (b"S", &[X, Y])], &[(b"S", &[X, Y])], 0),
    (&[(b"S", &[X, Y])], &[(b"T", &[X, Y])], 5),
    (&[(b"S", &[X, Y])], &[(b"", &[X, Y])], 5),
    (&[(b"S", &[X, Y])], &[(b"S", &[X])], 5),
    (&[(b"S", &[X, Y])], &[(b"S", &[Y, X])], 5),
    (
        &[(b"S", &[X])],
        &[(b"S", &[(b"x", Base::Float, 0, b"m")])],
        5,
    ),
    (&[(b"S", &[X])], &[(b"S", &[(b"x", Base::Int, 0, b"h")])], 5),
    (
        &[(b"S", &[X])],
        &[(b"S", &[(b"x", Base::Float, 1, b"h")])],
        5,
    ),
    (
        &[(b"A", &[X, Y]), (b"B", &[]), (b"S", &[S])],
        &[(b"A", &[X, Y]), (b"S", &[S])],
        0,
    ),
    (
        &[(b"A", &[X, Y]), (b"B", &[]), (b"S", &[S])],
        &[(b"A", &[X]), (b"S", &[S])],
        5,
    ),
];

/// A uniform of the structure of each number.
const OF_STRUCTURE: [[Row; 1]; 4] = [
    [(b"s", Base::Struct(0), 0, b"u")],
    [(b"s", Base::Struct(1), 0, b"u")],
    [(b"s", Base::Struct(2), 0, b"u")],
    [(b"s", Base::Struct(3), 0, b"u")],
];

#[test]
fn structures_of_two_shaders_are_one_by_names_and_fields(rt: HostRuntime) -> Result<(), Fail> {
    for (ones, others, rule) in STRUCTURES {
        let shaders = (
            Source {
                uniforms: &OF_STRUCTURE[ones.len() % 4],
                structs: ones,
                ..NOTHING
            },
            Source {
                uniforms: &OF_STRUCTURE[others.len() % 4],
                structs: others,
                ..NOTHING
            },
        );
        breaks(&rt, rt.alloc(), shaders, &[], rule)?;
    }
    Ok(())
}

#[test]
fn the_lower_rule_decides(rt: HostRuntime) -> Result<(), Fail> {
    let bad_varying: &[Row] = &[(b"v", Base::Vec4, 17, b"mu")];
    let other_varying: &[Row] = &[(b"v", Base::Vec3, 17, b"mu")];
    let bad_attributes: &[Row] = &[(LONGER, Base::Vec4, 0, b"hu")];
    let bad_uniform: &[Row] = &[(b"a", Base::Sampler2D, 1025, b"lu")];
    let other_uniform: &[Row] = &[(b"a", Base::SamplerCube, 1025, b"lu")];
    let all = Source {
        attributes: bad_attributes,
        uniforms: bad_uniform,
        varyings: bad_varying,
        structs: &[],
    };
    let other = Source {
        varyings: other_varying,
        uniforms: other_uniform,
        ..all
    };
    let rows = [
        (all, other, 16, 4),
        (
            all,
            Source {
                varyings: bad_varying,
                ..other
            },
            16,
            5,
        ),
        (all, all, 16, 6),
        (all, all, 0, 7),
        (
            all,
            Source {
                varyings: &[],
                ..all
            },
            0,
            8,
        ),
        (
            Source {
                uniforms: &[],
                ..all
            },
            Source {
                varyings: &[],
                ..all
            },
            0,
            9,
        ),
    ];
    for (vertex, fragment, location, rule) in rows {
        let bound: [(&[u8], u32); 1] = [(LONG, location)];
        let vertex = if rule == 6 {
            Source {
                attributes: &[(LONG, Base::Mat4, 0, b"hu")],
                ..vertex
            }
        } else {
            vertex
        };
        breaks(&rt, rt.alloc(), (vertex, fragment), &bound, rule)?;
    }
    Ok(())
}
