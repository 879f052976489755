ghost use Rattle.std.specs.Prelude.{◌≡◌};
ghost use Rattle.glsl_tree.specs.Spellings.{is_keyword, stands_in_row};

/// The most characters that a name may have, 256.
pub const LONGEST_NAME: usize = 256;

/// The largest number that an integer may spell, 2,147,483,647 (GLSL ES 1.00.17 section 4.1.2, for 32 bits).
pub const LARGEST_INT: u32 = 2_147_483_647;

/// The words that are no names, by their first letters from `a` to `z`: those that the grammar writes out, and those that it
/// reserves (GLSL ES 1.00.17 section 3.7).
#[rattlefmt::skip]
pub const KEYWORDS: [&[&[u8]]; 26] = [
    &[b"asm", b"attribute"],
    &[b"bool", b"break", b"bvec2", b"bvec3", b"bvec4"],
    &[b"cast", b"class", b"const", b"continue"],
    &[b"default", b"discard", b"do", b"double", b"dvec2", b"dvec3", b"dvec4"],
    &[b"else", b"enum", b"extern", b"external"],
    &[b"false", b"fixed", b"flat", b"float", b"for", b"fvec2", b"fvec3", b"fvec4"],
    &[b"goto"],
    &[b"half", b"highp", b"hvec2", b"hvec3", b"hvec4"],
    &[b"if", b"in", b"inline", b"inout", b"input", b"int", b"interface", b"invariant", b"ivec2", b"ivec3",
        b"ivec4"],
    &[],
    &[],
    &[b"long", b"lowp"],
    &[b"mat2", b"mat3", b"mat4", b"mediump"],
    &[b"namespace", b"noinline"],
    &[b"out", b"output"],
    &[b"packed", b"precision", b"public"],
    &[],
    &[b"return"],
    &[b"sampler1D", b"sampler1DShadow", b"sampler2D", b"sampler2DRect", b"sampler2DRectShadow",
        b"sampler2DShadow", b"sampler3D", b"sampler3DRect", b"samplerCube", b"short", b"sizeof", b"static",
        b"struct", b"superp", b"switch"],
    &[b"template", b"this", b"true", b"typedef"],
    &[b"uniform", b"union", b"unsigned", b"using"],
    &[b"varying", b"vec2", b"vec3", b"vec4", b"void", b"volatile"],
    &[b"while"],
    &[],
    &[],
    &[],
];

/// Whether the name stands in the row of this number, if there is one.
#[tactic(auto, unfolding(crate::specs::Spellings::stands_in_row))]
fn stands_in_row(rows: &[&[&[u8]]], number: usize, name: &[u8]) -> bool
    ensures { result ≡ stands_in_row rows.now number name.now }
{
    match rows.get(number) {
        Some(row) => row.contains(&name),
        None => false,
    }
}

/// Whether the name is a word of the language. It is compared with the words of the same first letter alone.
#[tactic(auto, using(crate::proofs::Initials::initials))]
pub fn is_keyword(name: &[u8]) -> bool
    ensures { result ≡ is_keyword name.now }
{
    match name {
        [first @ b'a'..=b'z', ..] => stands_in_row(&KEYWORDS, usize::from(*first - b'a'), name),
        _ => false,
    }
}
