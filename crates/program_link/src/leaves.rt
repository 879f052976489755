use glsl_tree::Text;
use glsl_types::SlType;

/// A uniform that is no structure: one that a shader declares, or a member of one (OpenGL ES 2.0 section 2.10.4).
#[derive(Drop)]
pub struct Leaf {
    /// Its name, without the `[0]` of an array.
    pub name: Text,
    /// Its type.
    pub kind: SlType,
}
