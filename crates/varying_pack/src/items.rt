ghost use Rattle.std.specs.Prelude.{◌≡◌, ◌*◌, ◌^◌, ◌<◌};
ghost use Rattle.varying_pack.specs.Placing.{rows_of};

/// A varying or a uniform that is to be placed (GLSL ES 1.00.17 appendix A section 7).
#[derive(Clone, Copy, Debug, PartialEq, Eq)]
pub struct PackItem {
    /// The class of its type, from 1 to 7: `mat4`, `mat2`, `vec4`, `mat3`, `vec3`, `vec2`, and scalars with samplers. A
    /// vector of int or bool has the class of its size. Of others, 0 is placed as a `vec4` before all, and those above 7 as
    /// scalars behind all.
    pub class: u8,
    /// The size of an array, and 1 of what is none.
    pub size: u32,
}

/// How many rows an item of this class and array size takes.
pub(crate) fn item_rows(class: u8, size: u32) -> u64
    ensures rows { result ≡ rows_of class * size }
    ensures within { result < 2 ^ 35 }
{
    let rows = match class {
        1 => 4,
        2 => 2,
        4 => 3,
        _ => 1,
    };
    rows * u64::from(size)
}
