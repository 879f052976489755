use crate::{Builtin, function, is_function, variable};
use gl_numbers::Stage;
use glsl_types::Base::{
    self, BVec2, BVec3, BVec4, Bool, Float, IVec2, IVec3, IVec4, Int, Mat2, Mat3, Sampler2D,
    SamplerCube, Struct, Vec2, Vec3, Vec4,
};
use glsl_types::SlType;
use std::process::Abort;

/// A function's name, arguments that it takes, its answer for them, and arguments that it refuses.
type Case = (&'static [u8], &'static [Base], Base, &'static [Base]);

/// The functions that both stages have.
const SHARED: [Case; 56] = [
    (b"radians", &[Float], Float, &[Int]),
    (b"degrees", &[Vec2], Vec2, &[IVec2]),
    (b"sin", &[Vec3], Vec3, &[Mat3]),
    (b"cos", &[Vec4], Vec4, &[]),
    (b"tan", &[Float], Float, &[Vec4, Vec4]),
    (b"asin", &[Vec2], Vec2, &[Bool]),
    (b"acos", &[Vec3], Vec3, &[BVec3]),
    (b"exp", &[Vec4], Vec4, &[Sampler2D]),
    (b"log", &[Float], Float, &[Int]),
    (b"exp2", &[Vec2], Vec2, &[IVec2]),
    (b"log2", &[Vec3], Vec3, &[Mat3]),
    (b"sqrt", &[Vec4], Vec4, &[]),
    (b"inversesqrt", &[Float], Float, &[Vec4, Vec4]),
    (b"abs", &[Vec2], Vec2, &[Bool]),
    (b"sign", &[Vec3], Vec3, &[BVec3]),
    (b"floor", &[Vec4], Vec4, &[Sampler2D]),
    (b"ceil", &[Float], Float, &[Int]),
    (b"fract", &[Vec2], Vec2, &[IVec2]),
    (b"normalize", &[Vec3], Vec3, &[Mat3]),
    (b"atan", &[Vec3], Vec3, &[Int]),
    (b"atan", &[Vec2, Vec2], Vec2, &[Vec2, Float]),
    (b"pow", &[Float, Float], Float, &[Int, Int]),
    (b"reflect", &[Vec3, Vec3], Vec3, &[Vec3, Vec2]),
    (b"mod", &[Vec4, Float], Vec4, &[Float, Vec4]),
    (b"mod", &[Vec4, Vec4], Vec4, &[Vec4, Vec3]),
    (b"min", &[Float, Float], Float, &[Float, Int]),
    (b"max", &[Vec2, Float], Vec2, &[Float, Vec2]),
    (b"clamp", &[Vec3, Float, Float], Vec3, &[Vec3, Vec3, Float]),
    (b"clamp", &[Vec3, Vec3, Vec3], Vec3, &[Float, Vec3, Vec3]),
    (b"mix", &[Vec3, Vec3, Float], Vec3, &[Vec3, Vec2, Float]),
    (b"mix", &[Vec3, Vec3, Vec3], Vec3, &[Vec3, Float, Float]),
    (b"step", &[Float, Vec4], Vec4, &[Vec4, Float]),
    (b"step", &[Vec4, Vec4], Vec4, &[Vec2, Vec4]),
    (
        b"smoothstep",
        &[Float, Float, Vec2],
        Vec2,
        &[Vec2, Float, Float],
    ),
    (
        b"smoothstep",
        &[Vec2, Vec2, Vec2],
        Vec2,
        &[Float, Vec2, Vec2],
    ),
    (b"length", &[Vec3], Float, &[IVec3]),
    (b"distance", &[Vec2, Vec2], Float, &[Vec2, Vec3]),
    (b"dot", &[Float, Float], Float, &[Int, Int]),
    (b"cross", &[Vec3, Vec3], Vec3, &[Vec4, Vec4]),
    (
        b"faceforward",
        &[Vec3, Vec3, Vec3],
        Vec3,
        &[Vec3, Vec3, Float],
    ),
    (b"refract", &[Vec3, Vec3, Float], Vec3, &[Vec3, Vec3, Vec3]),
    (b"matrixCompMult", &[Mat3, Mat3], Mat3, &[Mat3, Mat2]),
    (b"lessThan", &[IVec2, IVec2], BVec2, &[BVec2, BVec2]),
    (b"lessThanEqual", &[Vec3, Vec3], BVec3, &[Float, Float]),
    (b"greaterThan", &[IVec4, IVec4], BVec4, &[IVec4, Vec4]),
    (b"greaterThanEqual", &[Vec2, Vec2], BVec2, &[Int, Int]),
    (b"equal", &[BVec3, BVec3], BVec3, &[Bool, Bool]),
    (b"equal", &[IVec2, IVec2], BVec2, &[Mat2, Mat2]),
    (b"notEqual", &[Vec4, Vec4], BVec4, &[Vec4, Vec3]),
    (b"any", &[BVec2], Bool, &[Bool]),
    (b"all", &[BVec4], Bool, &[IVec4]),
    (b"not", &[BVec3], BVec3, &[Bool]),
    (b"texture2D", &[Sampler2D, Vec2], Vec4, &[SamplerCube, Vec2]),
    (
        b"texture2DProj",
        &[Sampler2D, Vec3],
        Vec4,
        &[Sampler2D, Vec2],
    ),
    (
        b"texture2DProj",
        &[Sampler2D, Vec4],
        Vec4,
        &[SamplerCube, Vec4],
    ),
    (
        b"textureCube",
        &[SamplerCube, Vec3],
        Vec4,
        &[Sampler2D, Vec3],
    ),
];

/// The functions that fragment shaders alone have: with a bias of the level.
const OF_FRAGMENTS: [Case; 4] = [
    (
        b"texture2D",
        &[Sampler2D, Vec2, Float],
        Vec4,
        &[Sampler2D, Vec2, Int],
    ),
    (
        b"texture2DProj",
        &[Sampler2D, Vec3, Float],
        Vec4,
        &[Sampler2D, Vec2, Float],
    ),
    (
        b"texture2DProj",
        &[Sampler2D, Vec4, Float],
        Vec4,
        &[Sampler2D, Vec4, Float, Float],
    ),
    (
        b"textureCube",
        &[SamplerCube, Vec3, Float],
        Vec4,
        &[SamplerCube, Vec4, Float],
    ),
];

/// The functions that vertex shaders alone have: with the level.
const OF_VERTICES: [Case; 4] = [
    (
        b"texture2DLod",
        &[Sampler2D, Vec2, Float],
        Vec4,
        &[Sampler2D, Vec2],
    ),
    (
        b"texture2DProjLod",
        &[Sampler2D, Vec3, Float],
        Vec4,
        &[Sampler2D, Vec3],
    ),
    (
        b"texture2DProjLod",
        &[Sampler2D, Vec4, Float],
        Vec4,
        &[Sampler2D, Vec2, Float],
    ),
    (
        b"textureCubeLod",
        &[SamplerCube, Vec3, Float],
        Vec4,
        &[Sampler2D, Vec3, Float],
    ),
];

/// What the function returns for at most four arguments of these types.
fn returned(name: &[u8], stage: Stage, bases: &[Base]) -> Option<SlType> {
    let mut kinds = [SlType::plain(Float); 4];
    for (kind, base) in kinds.iter_mut().zip(bases) {
        *kind = SlType::plain(*base);
    }
    function(name, stage, &kinds[..bases.len().min(4)])
}

fn check(rt: &impl Abort, stage: Stage, cases: &[Case]) {
    for (name, allowed, answer, refused) in cases {
        assert!(rt; is_function(name, stage));
        assert!(rt;
            returned(name, stage, allowed) == Some(SlType::plain(*answer)),
            "{name:?}"
        );
        assert!(rt; returned(name, stage, refused).is_none(), "{name:?}");
    }
}

#[test]
fn each_function_takes_its_arguments_and_no_others(rt: HostRuntime) {
    check(&rt, Stage::Vertex, &SHARED);
    check(&rt, Stage::Fragment, &SHARED);
    check(&rt, Stage::Fragment, &OF_FRAGMENTS);
    check(&rt, Stage::Vertex, &OF_VERTICES);
}

#[test]
fn a_bias_is_for_fragments_and_a_level_for_vertices(rt: HostRuntime) {
    for (name, arguments, _, _) in OF_FRAGMENTS {
        assert!(rt; returned(name, Stage::Vertex, arguments).is_none());
    }
    for (name, arguments, _, _) in OF_VERTICES {
        assert!(rt; returned(name, Stage::Fragment, arguments).is_none());
        assert!(rt; !is_function(name, Stage::Fragment));
    }
}

#[test]
fn no_function_takes_an_array_or_has_another_name(rt: HostRuntime) {
    let array = SlType {
        base: Float,
        array: 1,
    };
    assert!(rt; function(b"sin", Stage::Vertex, &[array]).is_none());
    let names: [&[u8]; 5] = [b"", b"si", b"sinh", b"Sin", b"texture3D"];
    for name in names {
        assert!(rt; !is_function(name, Stage::Vertex));
        assert!(rt; returned(name, Stage::Vertex, &[Float]).is_none());
    }
}

/// A variable's name, its type, its array size, whether it may be assigned, its value, and the stages that have it.
type Variable = (
    &'static [u8],
    Base,
    u32,
    bool,
    Option<u32>,
    &'static [Stage],
);

const BOTH: &[Stage] = &[Stage::Vertex, Stage::Fragment];

const VARIABLES: [Variable; 16] = [
    (b"gl_Position", Vec4, 0, true, None, &[Stage::Vertex]),
    (b"gl_PointSize", Float, 0, true, None, &[Stage::Vertex]),
    (b"gl_FragCoord", Vec4, 0, false, None, &[Stage::Fragment]),
    (b"gl_FrontFacing", Bool, 0, false, None, &[Stage::Fragment]),
    (b"gl_FragColor", Vec4, 0, true, None, &[Stage::Fragment]),
    (b"gl_FragData", Vec4, 1, true, None, &[Stage::Fragment]),
    (b"gl_PointCoord", Vec2, 0, false, None, &[Stage::Fragment]),
    (b"gl_DepthRange", Struct(0), 0, false, None, BOTH),
    (b"gl_MaxVertexAttribs", Int, 0, false, Some(16), BOTH),
    (
        b"gl_MaxVertexUniformVectors",
        Int,
        0,
        false,
        Some(256),
        BOTH,
    ),
    (b"gl_MaxVaryingVectors", Int, 0, false, Some(16), BOTH),
    (
        b"gl_MaxVertexTextureImageUnits",
        Int,
        0,
        false,
        Some(4),
        BOTH,
    ),
    (
        b"gl_MaxCombinedTextureImageUnits",
        Int,
        0,
        false,
        Some(20),
        BOTH,
    ),
    (b"gl_MaxTextureImageUnits", Int, 0, false, Some(16), BOTH),
    (
        b"gl_MaxFragmentUniformVectors",
        Int,
        0,
        false,
        Some(224),
        BOTH,
    ),
    (b"gl_MaxDrawBuffers", Int, 0, false, Some(1), BOTH),
];

#[test]
fn each_variable_and_constant_is_there_in_its_stages_alone(rt: HostRuntime) {
    for (name, base, array, writable, constant, stages) in VARIABLES {
        let builtin = Builtin {
            kind: SlType { base, array },
            writable,
            constant,
        };
        for stage in BOTH {
            let found = if stages.contains(stage) {
                Some(builtin)
            } else {
                None
            };
            assert!(rt; variable(name, *stage) == found);
        }
    }
    assert!(rt; variable(b"gl_Vertex", Stage::Vertex).is_none());
    assert!(rt; variable(b"gl_Positio", Stage::Vertex).is_none());
}
