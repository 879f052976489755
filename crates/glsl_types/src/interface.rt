use crate::sequence::Sequence;
use crate::types::{Precision, SlType, Struct};
use glsl_tree::Text;

/// An attribute, a uniform or a varying (GLSL ES 1.00.17 sections 4.3.3 to 4.3.5).
#[derive(Drop)]
pub struct Item {
    /// Its name.
    pub name: Text,
    /// Its type.
    pub kind: SlType,
    /// Its precision, as declared or by default.
    pub precision: Precision,
    /// Whether its name is used in an expression of the shader.
    pub used: bool,
    /// Whether it is invariant (section 4.6.1).
    pub invariant: bool,
}

/// What a shader shares with the page and with the other stage, each list in source order.
#[derive(Drop)]
pub struct Interface {
    /// The attributes.
    pub attributes: Sequence<Item>,
    /// The uniforms.
    pub uniforms: Sequence<Item>,
    /// The varyings.
    pub varyings: Sequence<Item>,
    /// The structures that the shader declares.
    pub structs: Sequence<Struct>,
}
