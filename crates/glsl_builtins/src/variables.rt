ghost use Rattle.std.specs.Prelude.{◌≡◌, map};
ghost use Rattle.glsl_builtins.specs.Variables.{plain_row, is_variable, variable_among, variable};

use crate::rows::Stages::{self, Both, Fragment, Vertex};
use gl_numbers::Stage;
use glsl_types::Base::{self, Bool, Float, Int, Struct, Vec2, Vec4};
use glsl_types::SlType;

/// A variable or a constant that is built in.
#[derive(Clone, Copy, Debug, PartialEq, Eq)]
pub struct Builtin {
    /// Its type.
    pub kind: SlType,
    /// Whether a shader may assign it.
    pub writable: bool,
    /// Its value, where it is a constant.
    pub constant: Option<u32>,
}

/// A row of the table of variables: its name, its type, the size of an array or 0, whether it may be assigned, the value
/// of a constant, and the shaders that have it.
pub type VariableRow = (&'static [u8], Base, u32, bool, Option<u32>, Stages);

/// The variables and constants of GLSL ES 1.00.17 chapter 7.
#[rattlefmt::skip]
pub const VARIABLES: [VariableRow; 16] = [
    // Section 7.1, of vertex shaders.
    (b"gl_Position", Vec4, 0, true, None, Vertex),
    (b"gl_PointSize", Float, 0, true, None, Vertex),
    // Section 7.2, of fragment shaders.
    (b"gl_FragCoord", Vec4, 0, false, None, Fragment),
    (b"gl_FrontFacing", Bool, 0, false, None, Fragment),
    (b"gl_FragColor", Vec4, 0, true, None, Fragment),
    (b"gl_FragData", Vec4, 1, true, None, Fragment),
    (b"gl_PointCoord", Vec2, 0, false, None, Fragment),
    // Section 7.4, constants: this project's limits.
    (b"gl_MaxVertexAttribs", Int, 0, false, Some(16), Both),
    (b"gl_MaxVertexUniformVectors", Int, 0, false, Some(256), Both),
    (b"gl_MaxVaryingVectors", Int, 0, false, Some(16), Both),
    (b"gl_MaxVertexTextureImageUnits", Int, 0, false, Some(4), Both),
    (b"gl_MaxCombinedTextureImageUnits", Int, 0, false, Some(20), Both),
    (b"gl_MaxTextureImageUnits", Int, 0, false, Some(16), Both),
    (b"gl_MaxFragmentUniformVectors", Int, 0, false, Some(224), Both),
    (b"gl_MaxDrawBuffers", Int, 0, false, Some(1), Both),
    // Section 7.5, uniform state.
    (b"gl_DepthRange", Struct(0), 0, false, None, Both),
];

/// Whether a row is the variable of this name in a shader of this stage.
fn is_variable(row: &VariableRow, name: &[u8], stage: Stage) -> bool
    ensures { result ≡ is_variable name.now stage (plain_row row.now) }
{
    row.5.has(stage) && row.0 == name
}

/// The first of these rows that is the variable of this name in a shader of this stage.
fn variable_among(rows: &[VariableRow], name: &[u8], stage: Stage) -> Option<Builtin>
    ensures { result ≡ variable_among name.now stage (map plain_row rows.now) }
{
    for row in rows {
        if is_variable(row, name, stage) {
            let (_, base, array, writable, constant, _) = *row;
            return Some(Builtin {
                kind: SlType { base, array },
                writable,
                constant,
            });
        }
    }
    None
}

/// The variable or constant of this name in a shader of this stage; None exactly where there is none.
#[tactic(auto, unfolding(crate::specs::Variables::variable))]
pub fn variable(name: &[u8], stage: Stage) -> Option<Builtin>
    ensures { result ≡ variable name.now stage }
{
    variable_among(&VARIABLES, name, stage)
}
