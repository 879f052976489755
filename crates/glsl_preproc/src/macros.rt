use crate::names::Names;
use glsl_tree::Token;

/// A macro (GLSL ES 1.00.17 section 3.4). Its texts stand in the source.
#[derive(Drop)]
pub struct Macro<'s> {
    /// The name that is replaced.
    pub name: &'s [u8],
    /// The names of its parameters, where it takes a list of them.
    pub parameters: Option<Names>,
    /// Its replacement.
    pub body: &'s [Token],
}
