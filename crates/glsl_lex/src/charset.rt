ghost use Rattle.std.specs.Prelude.{◌≡◌};
ghost use Rattle.glsl_tree.specs.Comments.{is_in_charset};

use crate::characters::is_character;
use crate::comments::{Comment, comment_at};

/// Whether each byte outside comments is a character of the language (GLSL ES 1.00.17 section 3.1). A comment that
/// is not closed reaches to the end of the source.
pub fn check_charset(source: &[u8]) -> bool
    ensures { result ≡ is_in_charset source.now }
{
    let mut rest = source;
    while !rest.is_empty() {
        match comment_at(rest) {
            Comment::None if is_character(rest[0]) => rest = rest.split_at(1).1,
            Comment::None => return false,
            Comment::Line(count) => rest = rest.split_at(count).1,
            Comment::Block(count) => rest = rest.split_at(count).1,
            Comment::Open => return true,
        }
    }
    true
}
