ghost use Rattle.std.specs.Prelude.{◌≡◌, ◌≤◌, ◌<◌, ◌+◌, length};
ghost use Rattle.glsl_tree.specs.Comments.{line_end_len, line_ends, before_line_end, before_close, comment_at};
ghost use Rattle.glsl_lex.specs.Pieces.{comment_of, IsCommentFront};

use crate::characters::is_line_break;

/// What comment stands at the front of a text, with its number of bytes (GLSL ES 1.00.17 section 3.5).
#[derive(Clone, Copy, Debug)]
pub enum Comment {
    /// No comment.
    None,
    /// From `//` to the line's end, without the line end.
    Line(usize),
    /// From `/*` to `*/`.
    Block(usize),
    /// From `/*` to the end of the source.
    Open,
}

/// How many bytes the line end at the front has, 0 where none stands there.
#[tactic(auto, unfolding(glsl_tree::specs::Comments::line_end_len, glsl_tree::specs::Comments::is_line_end_pair))]
pub fn line_end_len(text: &[u8]) -> usize
    ensures bytes { result ≡ line_end_len text.now }
    ensures within { result ≤ length text.now }
{
    match text {
        [b'\r', b'\n', ..] | [b'\n', b'\r', ..] => 2,
        [first, ..] if is_line_break(*first) => 1,
        _ => 0,
    }
}

/// How many lines end in the text.
#[tactic(auto, unfolding(glsl_tree::specs::Comments::line_ends, glsl_tree::specs::Comments::is_line_end_pair))]
pub fn line_ends(text: &[u8]) -> u32
    requires { length text.now ≤ 262144 }
    ensures lines { result ≡ line_ends text.now }
    ensures within { result ≤ length text.now }
{
    let mut rest = text;
    let mut lines = 0;
    loop {
        match rest {
            [b'\r', b'\n', tail @ ..] | [b'\n', b'\r', tail @ ..] => {
                lines += 1;
                rest = tail;
            }
            [first, tail @ ..] => {
                lines += u32::from(is_line_break(*first));
                rest = tail;
            }
            [] => return lines,
        }
    }
}

/// How many bytes come before the next line end.
#[tactic(auto, using(crate::proofs::Counts::counts))]
pub fn before_line_end(text: &[u8]) -> usize
    ensures count { result ≡ before_line_end text.now }
    ensures within { result ≤ length text.now }
{
    text.iter()
        .take_while(|byte| !is_line_break(**byte))
        .count()
}

/// How many bytes come before the first `*/`, all of them where none comes.
#[tactic(auto, unfolding(glsl_tree::specs::Comments::before_close))]
fn before_close(text: &[u8]) -> usize
    ensures count { result ≡ before_close text.now }
    ensures within { result ≤ length text.now }
    ensures closed { result < length text.now → result + 2 ≤ length text.now }
{
    let mut rest = text;
    loop {
        match rest {
            [b'*', b'/', ..] | [] => return text.len() - rest.len(),
            [_, tail @ ..] => rest = tail,
        }
    }
}

/// What comment stands at the front of the text.
#[tactic(auto, unfolding(glsl_tree::specs::Comments::comment_at))]
pub fn comment_at(text: &[u8]) -> Comment
    ensures comment { comment_of result ≡ comment_at text.now }
    ensures front { IsCommentFront text.now result }
{
    match text {
        [b'/', b'/', rest @ ..] => Comment::Line(2 + before_line_end(rest)),
        [b'/', b'*', rest @ ..] => {
            let inside = before_close(rest);
            if inside == rest.len() {
                Comment::Open
            } else {
                Comment::Block(4 + inside)
            }
        }
        _ => Comment::None,
    }
}
