use crate::rows::Form::{
    Bool, BoolVector, Float, General, IntVector, Matrix, Sampler2D, SamplerCube, Vec2, Vec3, Vec4,
    Vector,
};
use crate::rows::FunctionRow;
use crate::rows::Stages::{Both, Fragment, Vertex};

/// The functions of GLSL ES 1.00.17 chapter 8: their names, their arguments, what they return, and the shaders that
/// have them.
#[rattlefmt::skip]
pub const FUNCTIONS: [FunctionRow; 42] = [
    // Section 8.1, angles and trigonometry.
    (&[b"radians", b"degrees", b"sin", b"cos", b"tan", b"asin", b"acos", b"atan"], &[General], General, Both),
    (&[b"atan"], &[General, General], General, Both),
    // Section 8.2, exponentials.
    (&[b"pow"], &[General, General], General, Both),
    (&[b"exp", b"log", b"exp2", b"log2", b"sqrt", b"inversesqrt"], &[General], General, Both),
    // Section 8.3, common functions.
    (&[b"abs", b"sign", b"floor", b"ceil", b"fract"], &[General], General, Both),
    (&[b"mod", b"min", b"max"], &[General, General], General, Both),
    (&[b"mod", b"min", b"max"], &[General, Float], General, Both),
    (&[b"clamp"], &[General, General, General], General, Both),
    (&[b"clamp"], &[General, Float, Float], General, Both),
    (&[b"mix"], &[General, General, General], General, Both),
    (&[b"mix"], &[General, General, Float], General, Both),
    (&[b"step"], &[General, General], General, Both),
    (&[b"step"], &[Float, General], General, Both),
    (&[b"smoothstep"], &[General, General, General], General, Both),
    (&[b"smoothstep"], &[Float, Float, General], General, Both),
    // Section 8.4, geometry.
    (&[b"length"], &[General], Float, Both),
    (&[b"distance", b"dot"], &[General, General], Float, Both),
    (&[b"cross"], &[Vec3, Vec3], Vec3, Both),
    (&[b"normalize"], &[General], General, Both),
    (&[b"faceforward"], &[General, General, General], General, Both),
    (&[b"reflect"], &[General, General], General, Both),
    (&[b"refract"], &[General, General, Float], General, Both),
    // Section 8.5, matrices.
    (&[b"matrixCompMult"], &[Matrix, Matrix], Matrix, Both),
    // Section 8.6, vectors compared.
    (&[b"lessThan", b"lessThanEqual", b"greaterThan", b"greaterThanEqual"], &[Vector, Vector], BoolVector, Both),
    (&[b"lessThan", b"lessThanEqual", b"greaterThan", b"greaterThanEqual"], &[IntVector, IntVector], BoolVector, Both),
    (&[b"equal", b"notEqual"], &[Vector, Vector], BoolVector, Both),
    (&[b"equal", b"notEqual"], &[IntVector, IntVector], BoolVector, Both),
    (&[b"equal", b"notEqual"], &[BoolVector, BoolVector], BoolVector, Both),
    (&[b"any", b"all"], &[BoolVector], Bool, Both),
    (&[b"not"], &[BoolVector], BoolVector, Both),
    // Section 8.7, look-ups in textures: with a bias in fragment shaders, at a level in vertex shaders.
    (&[b"texture2D"], &[Sampler2D, Vec2], Vec4, Both),
    (&[b"texture2D"], &[Sampler2D, Vec2, Float], Vec4, Fragment),
    (&[b"texture2DProj"], &[Sampler2D, Vec3], Vec4, Both),
    (&[b"texture2DProj"], &[Sampler2D, Vec4], Vec4, Both),
    (&[b"texture2DProj"], &[Sampler2D, Vec3, Float], Vec4, Fragment),
    (&[b"texture2DProj"], &[Sampler2D, Vec4, Float], Vec4, Fragment),
    (&[b"texture2DLod"], &[Sampler2D, Vec2, Float], Vec4, Vertex),
    (&[b"texture2DProjLod"], &[Sampler2D, Vec3, Float], Vec4, Vertex),
    (&[b"texture2DProjLod"], &[Sampler2D, Vec4, Float], Vec4, Vertex),
    (&[b"textureCube"], &[SamplerCube, Vec3], Vec4, Both),
    (&[b"textureCube"], &[SamplerCube, Vec3, Float], Vec4, Fragment),
    (&[b"textureCubeLod"], &[SamplerCube, Vec3, Float], Vec4, Vertex),
];
