ghost use Rattle.std.specs.Prelude.{◌≡◌};
ghost use Rattle.glsl_types.specs.Types.{plain_type, same_type};

use crate::bases::Base;
use crate::sequence::Sequence;
use glsl_tree::Text;

/// A type (GLSL ES 1.00.17 sections 4.1 and 4.1.9).
#[derive(Clone, Copy, Debug, PartialEq, Eq)]
pub struct SlType {
    /// The type, or that of the elements of an array.
    pub base: Base,
    /// The size of an array, from 1 to 65,536; 0 where it is none.
    pub array: u32,
}

impl SlType {
    /// A type that is no array.
    pub fn plain(base: Base) -> SlType
        ensures { result ≡ plain_type base }
    {
        SlType { base, array: 0 }
    }

    /// Whether the two are one type.
    pub fn is_same(self, other: SlType) -> bool
        ensures { result ≡ same_type self other }
    {
        self.array == other.array && self.base.is_same(other.base)
    }
}

/// A precision qualifier (section 4.5.2).
#[derive(Clone, Copy, Debug, PartialEq, Eq)]
pub enum Precision {
    /// None, as of a truth value or a structure.
    Unset,
    /// `lowp`
    Low,
    /// `mediump`
    Medium,
    /// `highp`
    High,
}

/// A field of a structure (section 4.1.8).
#[derive(Drop)]
pub struct Field {
    /// Its name.
    pub name: Text,
    /// Its type.
    pub kind: SlType,
    /// Its precision, as declared or by default.
    pub precision: Precision,
}

/// A structure (section 4.1.8).
#[derive(Drop)]
pub struct Struct {
    /// Its name; no bytes where it has none.
    pub name: Text,
    /// Its fields in order.
    pub fields: Sequence<Field>,
}
