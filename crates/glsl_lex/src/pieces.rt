ghost use Rattle.std.specs.Prelude.{◌≡◌, ◌≤◌, ◌<◌, length, slice_index};
ghost use Rattle.glsl_tree.specs.Spellings.{is_within_limits};
ghost use Rattle.glsl_tree.specs.SourceTokens.{token_at, piece_at};
ghost use Rattle.glsl_lex.specs.Fronts.{begins_number, name_at, first_token};
ghost use Rattle.glsl_lex.specs.Pieces.{piece_of, IsFront};

use crate::characters::{is_blank, is_digit, is_letter};
use crate::comments::{Comment, comment_at, line_end_len, line_ends};
use crate::numbers::{is_int_within, number_at};
use crate::spellings::{name_len, punctuator_len};
use glsl_tree::{Class, LONGEST_NAME, is_keyword};

/// What stands at the front of a text.
#[derive(Clone, Copy, Debug)]
pub enum Piece {
    /// What parts two tokens: how many bytes it has, and how many lines end in it.
    Gap(usize, u32),
    /// A token: its class, and how many bytes it has.
    Token(Class, usize),
    /// Neither.
    Foreign,
}

/// Whether a number stands at the front of the text.
#[tactic(auto, unfolding(crate::specs::Fronts::begins_number))]
fn begins_number(text: &[u8]) -> bool
    ensures { result ≡ begins_number text.now }
{
    match text {
        [b'.', second, ..] => is_digit(*second),
        [first, ..] => is_digit(*first),
        [] => false,
    }
}

/// The name at the front of a text that begins with a letter: its class and how many bytes it has.
fn name_at(text: &[u8]) -> (Class, usize)
    ensures { result ≡ name_at text.now }
{
    let count = name_len(text);
    let class = if is_keyword(&text[..count]) {
        Class::Keyword
    } else {
        Class::Identifier
    };
    (class, count)
}

/// The longest token at the front of the text, if one stands there: its class and how many bytes it has.
#[tactic(auto, unfolding(crate::specs::Fronts::first_token))]
fn longest_token(text: &[u8]) -> Option<(Class, usize)>
    requires { 0 < length text.now }
    ensures { result ≡ first_token (slice_index text.now 0) text.now }
{
    if is_letter(text[0]) {
        return Some(name_at(text));
    }
    if begins_number(text) {
        return Some(number_at(text));
    }
    match punctuator_len(text) {
        0 if text[0] == b'#' => Some((Class::Hash, 1)),
        0 => None,
        count => Some((Class::Punct, count)),
    }
}

/// Whether a token is not too long or too large.
#[tactic(auto, unfolding(glsl_tree::specs::Spellings::is_within_limits))]
fn is_within_limits(class: Class, text: &[u8]) -> bool
    ensures { result ≡ is_within_limits class text.now }
{
    match class {
        Class::Identifier => text.len() <= LONGEST_NAME,
        Class::Int => is_int_within(text),
        _ => true,
    }
}

/// The token at the front of the text.
#[tactic(auto, unfolding(glsl_tree::specs::SourceTokens::token_at))]
fn token_at(text: &[u8]) -> Piece
    requires { 0 < length text.now }
    ensures token { piece_of result ≡ token_at text.now }
    ensures front { IsFront text.now result }
{
    match longest_token(text) {
        Some((class, count)) if is_within_limits(class, &text[..count]) => Piece::Token(
            class, count,
        ),
        _ => Piece::Foreign,
    }
}

/// What stands at the front of the text.
#[tactic(auto, unfolding(glsl_tree::specs::SourceTokens::piece_at))]
pub fn piece_at(text: &[u8]) -> Piece
    requires some { 0 < length text.now }
    requires short { length text.now ≤ 262144 }
    ensures piece { piece_of result ≡ piece_at (slice_index text.now 0) text.now }
    ensures front { IsFront text.now result }
{
    match comment_at(text) {
        Comment::Line(count) => Piece::Gap(count, 0),
        Comment::Block(count) => Piece::Gap(count, line_ends(&text[..count])),
        Comment::Open => Piece::Foreign,
        Comment::None if is_blank(text[0]) => Piece::Gap(1, 0),
        Comment::None => match line_end_len(text) {
            0 => token_at(text),
            count => Piece::Token(Class::NewLine, count),
        },
    }
}
