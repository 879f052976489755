use crate::Executable;
use crate::fixtures::{NOTHING, Row, Source, made};
use glsl_types::Base;
use std::alloc::Global;
use std::process::Abort;
use std::test::Fail;

/// A program, the locations that are bound, and what is active in it, by hand.
#[derive(Clone, Copy)]
struct Program {
    vertex: Source,
    fragment: Source,
    bound: &'static [(&'static [u8], u32)],
    /// Name, location and type of each active attribute.
    attributes: &'static [(&'static [u8], u32, u32)],
    /// Name, size, first slot and type of each active uniform.
    uniforms: &'static [(&'static [u8], u32, u32, u32)],
}

const FLOAT: u32 = 0x1406;

const VEC2: u32 = 0x8B50;

const VEC3: u32 = 0x8B51;

const VEC4: u32 = 0x8B52;

const INT: u32 = 0x1404;

const IVEC2: u32 = 0x8B53;

const BOOL: u32 = 0x8B56;

const MAT3: u32 = 0x8B5B;

const MAT4: u32 = 0x8B5C;

const SAMPLER_2D: u32 = 0x8B5E;

const SAMPLER_CUBE: u32 = 0x8B60;

const COLOURED: Program = Program {
    vertex: Source {
        attributes: &[
            (b"position", Base::Vec2, 0, b"hu"),
            (b"color", Base::Vec3, 0, b"hu"),
        ],
        varyings: &[(b"v_color", Base::Vec3, 0, b"hu")],
        ..NOTHING
    },
    fragment: Source {
        varyings: &[(b"v_color", Base::Vec3, 0, b"mu")],
        ..NOTHING
    },
    bound: &[],
    attributes: &[(b"position", 0, VEC2), (b"color", 1, VEC3)],
    uniforms: &[],
};

const TEXTURED: Program = Program {
    vertex: Source {
        attributes: &[
            (b"a_position", Base::Vec4, 0, b"hu"),
            (b"a_texcoord", Base::Vec2, 0, b"hu"),
        ],
        uniforms: &[(b"u_matrix", Base::Mat4, 0, b"hu")],
        varyings: &[(b"v_texcoord", Base::Vec2, 0, b"hu")],
        ..NOTHING
    },
    fragment: Source {
        uniforms: &[(b"u_texture", Base::Sampler2D, 0, b"lu")],
        varyings: &[(b"v_texcoord", Base::Vec2, 0, b"mu")],
        ..NOTHING
    },
    bound: &[(b"a_texcoord", 0), (b"a_normal", 0)],
    attributes: &[(b"a_position", 1, VEC4), (b"a_texcoord", 0, VEC2)],
    uniforms: &[(b"u_matrix", 1, 0, MAT4), (b"u_texture", 1, 1, SAMPLER_2D)],
};

const LIT: Program = Program {
    vertex: Source {
        attributes: &[
            (b"position", Base::Vec3, 0, b"hu"),
            (b"normal", Base::Vec3, 0, b"hu"),
            (b"uv", Base::Vec2, 0, b"h"),
        ],
        uniforms: &[
            (b"modelView", Base::Mat4, 0, b"hu"),
            (b"projection", Base::Mat4, 0, b"hu"),
            (b"ambient", Base::Vec3, 0, b"h"),
            (b"normalMatrix", Base::Mat3, 0, b"hu"),
            (b"lightDirection", Base::Vec3, 0, b"hu"),
        ],
        varyings: &[(b"light", Base::Float, 0, b"hu")],
        ..NOTHING
    },
    fragment: Source {
        uniforms: &[(b"diffuse", Base::Vec3, 0, b"mu")],
        varyings: &[(b"light", Base::Float, 0, b"mu")],
        ..NOTHING
    },
    bound: &[],
    attributes: &[(b"position", 0, VEC3), (b"normal", 1, VEC3)],
    uniforms: &[
        (b"modelView", 1, 0, MAT4),
        (b"projection", 1, 1, MAT4),
        (b"normalMatrix", 1, 2, MAT3),
        (b"lightDirection", 1, 3, VEC3),
        (b"diffuse", 1, 4, VEC3),
    ],
};

const LIGHT: &[Row] = &[
    (b"position", Base::Vec3, 0, b"h"),
    (b"color", Base::Vec3, 0, b"m"),
    (b"range", Base::Float, 0, b"m"),
];

const MATERIAL: &[Row] = &[
    (b"diffuse", Base::Vec4, 0, b"m"),
    (b"specular", Base::Vec4, 0, b"m"),
    (b"shininess", Base::Float, 0, b"m"),
];

const MANY_LIGHTS: Program = Program {
    vertex: Source {
        attributes: &[
            (b"position", Base::Vec3, 0, b"hu"),
            (b"normal", Base::Vec3, 0, b"hu"),
        ],
        uniforms: &[
            (b"cameraPosition", Base::Vec3, 0, b"h"),
            (b"model", Base::Mat4, 0, b"hu"),
            (b"viewProjection", Base::Mat4, 0, b"hu"),
        ],
        varyings: &[
            (b"place", Base::Vec3, 0, b"hu"),
            (b"direction", Base::Vec3, 0, b"hu"),
        ],
        ..NOTHING
    },
    fragment: Source {
        uniforms: &[
            (b"material", Base::Struct(2), 0, b"u"),
            (b"cameraPosition", Base::Vec3, 0, b"hu"),
            (b"lights", Base::Struct(1), 2, b"u"),
        ],
        varyings: &[
            (b"direction", Base::Vec3, 0, b"mu"),
            (b"place", Base::Vec3, 0, b"hu"),
        ],
        structs: &[(b"Light", LIGHT), (b"Material", MATERIAL)],
        ..NOTHING
    },
    bound: &[],
    attributes: &[(b"position", 0, VEC3), (b"normal", 1, VEC3)],
    uniforms: &[
        (b"model", 1, 0, MAT4),
        (b"viewProjection", 1, 1, MAT4),
        (b"material.diffuse", 1, 2, VEC4),
        (b"material.specular", 1, 3, VEC4),
        (b"material.shininess", 1, 4, FLOAT),
        (b"cameraPosition", 1, 5, VEC3),
        (b"lights[0].position", 1, 6, VEC3),
        (b"lights[0].color", 1, 7, VEC3),
        (b"lights[0].range", 1, 8, FLOAT),
        (b"lights[1].position", 1, 9, VEC3),
        (b"lights[1].color", 1, 10, VEC3),
        (b"lights[1].range", 1, 11, FLOAT),
    ],
};

const SKINNED: Program = Program {
    vertex: Source {
        attributes: &[
            (b"position", Base::Vec3, 0, b"hu"),
            (b"joints", Base::Vec4, 0, b"hu"),
            (b"weights", Base::Vec4, 0, b"hu"),
            (b"uv", Base::Vec2, 0, b"hu"),
        ],
        uniforms: &[
            (b"bones", Base::Mat4, 40, b"hu"),
            (b"viewProjection", Base::Mat4, 0, b"hu"),
        ],
        varyings: &[(b"v_uv", Base::Vec2, 0, b"hu")],
        ..NOTHING
    },
    fragment: Source {
        uniforms: &[(b"map", Base::Sampler2D, 0, b"lu")],
        varyings: &[(b"v_uv", Base::Vec2, 0, b"mu")],
        ..NOTHING
    },
    bound: &[(b"position", 1), (b"uv", 0)],
    attributes: &[
        (b"position", 1, VEC3),
        (b"joints", 2, VEC4),
        (b"weights", 3, VEC4),
        (b"uv", 0, VEC2),
    ],
    uniforms: &[
        (b"bones[0]", 40, 0, MAT4),
        (b"viewProjection", 1, 40, MAT4),
        (b"map", 1, 41, SAMPLER_2D),
    ],
};

const SKY: Program = Program {
    vertex: Source {
        attributes: &[(b"position", Base::Vec2, 0, b"hu")],
        varyings: &[(b"corner", Base::Vec4, 0, b"hu")],
        ..NOTHING
    },
    fragment: Source {
        uniforms: &[
            (b"sky", Base::SamplerCube, 0, b"lu"),
            (b"inverseViewProjection", Base::Mat4, 0, b"mu"),
        ],
        varyings: &[(b"corner", Base::Vec4, 0, b"mu")],
        ..NOTHING
    },
    bound: &[],
    attributes: &[(b"position", 0, VEC2)],
    uniforms: &[
        (b"sky", 1, 0, SAMPLER_CUBE),
        (b"inverseViewProjection", 1, 1, MAT4),
    ],
};

const INSTANCES: Program = Program {
    vertex: Source {
        attributes: &[
            (b"instance", Base::Mat4, 0, b"hu"),
            (b"position", Base::Vec3, 0, b"hu"),
            (b"turn", Base::Mat3, 0, b"hu"),
            (b"color", Base::Vec4, 0, b"hu"),
        ],
        uniforms: &[(b"viewProjection", Base::Mat4, 0, b"hu")],
        varyings: &[(b"v_color", Base::Vec4, 0, b"hu")],
        ..NOTHING
    },
    fragment: Source {
        varyings: &[(b"v_color", Base::Vec4, 0, b"lu")],
        ..NOTHING
    },
    bound: &[(b"instance", 2)],
    attributes: &[
        (b"instance", 2, MAT4),
        (b"position", 0, VEC3),
        (b"turn", 6, MAT3),
        (b"color", 1, VEC4),
    ],
    uniforms: &[(b"viewProjection", 1, 0, MAT4)],
};

const BLUR: Program = Program {
    vertex: Source {
        attributes: &[(b"position", Base::Vec2, 0, b"hu")],
        varyings: &[(b"uv", Base::Vec2, 0, b"hu")],
        ..NOTHING
    },
    fragment: Source {
        uniforms: &[
            (b"image", Base::Sampler2D, 0, b"lu"),
            (b"texel", Base::Vec2, 0, b"mu"),
            (b"exposure", Base::Float, 0, b"m"),
            (b"kernel", Base::Float, 9, b"mu"),
        ],
        varyings: &[(b"uv", Base::Vec2, 0, b"mu")],
        ..NOTHING
    },
    bound: &[(b"position", 15)],
    attributes: &[(b"position", 15, VEC2)],
    uniforms: &[
        (b"image", 1, 0, SAMPLER_2D),
        (b"texel", 1, 1, VEC2),
        (b"kernel[0]", 9, 2, FLOAT),
    ],
};

const PARTICLES: Program = Program {
    vertex: Source {
        attributes: &[
            (b"origin", Base::Vec3, 0, b"hu"),
            (b"spare", Base::Vec4, 0, b"h"),
            (b"velocity", Base::Vec3, 0, b"hu"),
            (b"start", Base::Float, 0, b"hu"),
        ],
        uniforms: &[
            (b"time", Base::Float, 0, b"mu"),
            (b"size", Base::Float, 0, b"hu"),
            (b"gravity", Base::Vec3, 0, b"hu"),
        ],
        varyings: &[(b"age", Base::Float, 0, b"hu")],
        ..NOTHING
    },
    fragment: Source {
        uniforms: &[
            (b"ramp", Base::Sampler2D, 0, b"lu"),
            (b"time", Base::Float, 0, b"mu"),
            (b"fades", Base::Bool, 0, b"u"),
            (b"frames", Base::IVec2, 0, b"mu"),
        ],
        varyings: &[(b"age", Base::Float, 0, b"mu")],
        ..NOTHING
    },
    bound: &[(b"spare", 0)],
    attributes: &[
        (b"origin", 0, VEC3),
        (b"velocity", 1, VEC3),
        (b"start", 2, FLOAT),
    ],
    uniforms: &[
        (b"time", 1, 0, FLOAT),
        (b"size", 1, 1, FLOAT),
        (b"gravity", 1, 2, VEC3),
        (b"ramp", 1, 3, SAMPLER_2D),
        (b"fades", 1, 4, BOOL),
        (b"frames", 1, 5, IVEC2),
    ],
};

const SHADOWS: Program = Program {
    vertex: Source {
        attributes: &[(b"position", Base::Vec3, 0, b"hu")],
        uniforms: &[
            (b"shadows", Base::Sampler2D, 3, b"l"),
            (b"cascades", Base::Mat4, 3, b"hu"),
            (b"model", Base::Mat4, 0, b"hu"),
        ],
        varyings: &[(b"places", Base::Vec4, 3, b"hu")],
        ..NOTHING
    },
    fragment: Source {
        uniforms: &[
            (b"splits", Base::Float, 3, b"mu"),
            (b"shadows", Base::Sampler2D, 3, b"lu"),
            (b"cascades", Base::Mat4, 3, b"h"),
            (b"level", Base::Int, 0, b"mu"),
        ],
        varyings: &[(b"places", Base::Vec4, 3, b"mu")],
        ..NOTHING
    },
    bound: &[],
    attributes: &[(b"position", 0, VEC3)],
    uniforms: &[
        (b"cascades[0]", 3, 0, MAT4),
        (b"model", 1, 3, MAT4),
        (b"splits[0]", 3, 4, FLOAT),
        (b"shadows[0]", 3, 7, SAMPLER_2D),
        (b"level", 1, 10, INT),
    ],
};

/// Asserts that the active attributes are those that are written out, and no other.
fn assert_attributes(
    rt: &impl Abort,
    executable: &Executable,
    attributes: &[(&'static [u8], u32, u32)],
) {
    let mut place: u32 = 0;
    for (name, location, kind) in attributes {
        assert_eq!(rt; executable.attribute(name), Some(*location), "{name:?}");
        match executable.active_attribute(place) {
            Some(active) => {
                assert_eq!(rt; active.name.as_slice(), *name);
                let found = (active.size, active.first, active.kind);
                assert_eq!(rt; found, (1, *location, *kind), "{name:?}");
            }
            None => panic!(rt; "no attribute {name:?}"),
        }
        place = place.saturating_add(1);
    }
    assert!(rt; executable.active_attribute(place).is_none());
}

/// Asserts that the active uniforms are those that are written out, and no other.
fn assert_uniforms(
    rt: &impl Abort,
    executable: &Executable,
    uniforms: &[(&'static [u8], u32, u32, u32)],
) {
    let mut place: u32 = 0;
    for (name, size, first, kind) in uniforms {
        assert_eq!(rt; executable.uniform(name), Some(*first), "{name:?}");
        match executable.active_uniform(place) {
            Some(active) => {
                assert_eq!(rt; active.name.as_slice(), *name);
                let found = (active.size, active.first, active.kind);
                assert_eq!(rt; found, (*size, *first, *kind), "{name:?}");
            }
            None => panic!(rt; "no uniform {name:?}"),
        }
        place = place.saturating_add(1);
    }
    assert!(rt; executable.active_uniform(place).is_none());
}

/// Asserts that what is active in a program is what is written out.
fn assert_active(rt: &impl Abort, alloc: Global, program: Program) {
    let shaders = (program.vertex, program.fragment);
    let executable = made(rt, alloc, shaders, program.bound);
    assert_attributes(rt, &executable, program.attributes);
    assert_uniforms(rt, &executable, program.uniforms);
}

#[test]
fn what_is_active_in_ten_programs(rt: HostRuntime) -> Result<(), Fail> {
    let programs = [
        COLOURED,
        TEXTURED,
        LIT,
        MANY_LIGHTS,
        SKINNED,
        SKY,
        INSTANCES,
        BLUR,
        PARTICLES,
        SHADOWS,
    ];
    for program in programs {
        assert_active(&rt, rt.alloc(), program);
    }
    Ok(())
}
