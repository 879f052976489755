ghost use Rattle.std.specs.Prelude.{◌≡◌, ◌≤◌, length};
ghost use Rattle.std.specs.List.{prefix_len};
ghost use Rattle.glsl_tree.specs.Spellings.{is_name_character};
ghost use Rattle.glsl_lex.specs.Fronts.{single_len, pair_len, punctuator_len};

use crate::characters::{is_among, is_name_character};

/// How many letters and digits the text begins with.
#[tactic(auto, using(crate::proofs::Counts::counts))]
pub fn name_len(text: &[u8]) -> usize
    ensures count { result ≡ prefix_len is_name_character text.now }
    ensures within { result ≤ length text.now }
{
    text.iter()
        .take_while(|byte| is_name_character(**byte))
        .count()
}

/// 1 where the byte is an operator or a mark alone, else 0.
fn single_len(a: u8) -> usize
    ensures { result ≡ single_len a }
{
    usize::from(is_among(b".+-/*%<>[](){}^|&~=!:;,?", a))
}

/// How many bytes the longest operator or mark at the front of two bytes has.
fn pair_len(a: u8, b: u8) -> usize
    ensures { result ≡ pair_len a b }
{
    if a == b && is_among(b"+-<>&|^", a) || b == b'=' && is_among(b"+-*/%<>=!&|^", a) {
        2
    } else {
        single_len(a)
    }
}

/// How many bytes the longest operator or mark at the front has, 0 where none stands there.
#[tactic(auto, unfolding(crate::specs::Fronts::punctuator_len))]
pub fn punctuator_len(text: &[u8]) -> usize
    ensures bytes { result ≡ punctuator_len text.now }
    ensures within { result ≤ length text.now }
{
    match text {
        [] => 0,
        [a] => single_len(*a),
        [a, b, b'=', ..] if *a == *b && is_among(b"<>", *a) => 3,
        [a, b, ..] => pair_len(*a, *b),
    }
}
