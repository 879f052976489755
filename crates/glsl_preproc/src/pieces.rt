ghost use Rattle.std.specs.Prelude.{◌≡◌, ◌<◌, IfOk, OnOk, [], ◌∷◌, ◌++◌, true};
ghost use Rattle.std.specs.Fmt.{decimal};
ghost use Rattle.std.specs.Str.{bytes_eq};
ghost use Rattle.glsl_tree.specs.Token.{PlainToken, plain, plain_tokens};
ghost use Rattle.glsl_preproc.specs.Macros.{is_name_token, number_token};
ghost use Rattle.glsl_preproc.specs.Replacement.{opens, closes, is_comma, at_line, line_number};
ghost use Rattle.glsl_preproc.specs.Views.{placed, plain_piece, plain_pieces};

use crate::tokens;
use glsl_tree::{Class, Token};
use std::alloc::{AllocError, Global};

/// How a token within an expansion is spelled.
#[derive(Clone, Copy)]
pub enum Spelling<'s> {
    /// As this token of the source, or of the replacement of a macro.
    Of(&'s Token),
    /// As a number, in decimal digits.
    Number(u32),
}

/// A token within an expansion, without a text of its own.
#[derive(Clone, Copy)]
pub struct Piece<'s> {
    /// How it is spelled.
    pub spelling: Spelling<'s>,
    /// The number of its line.
    pub line: u32,
}

/// A token on a line.
pub fn piece_at<'s>(token: &'s Token, line: u32) -> Piece<'s>
    ensures { plain_piece result ≡ placed (plain token.now) line }
{
    Piece {
        spelling: Spelling::Of(token),
        line,
    }
}

/// A number on a line.
pub fn number_at<'s>(value: u32, line: u32) -> Piece<'s>
    ensures { plain_piece result ≡ placed (number_token (decimal value)) line }
{
    Piece {
        spelling: Spelling::Number(value),
        line,
    }
}

/// The number of the token's line, as a token.
pub fn line_number<'s>(piece: &Piece<'s>) -> Piece<'s>
    ensures { plain_piece result ≡ line_number (plain_piece piece.now) }
{
    number_at(piece.line, piece.line)
}

/// Whether the token is a name, as directives take it: an identifier or a word of the language.
pub fn is_name(piece: &Piece) -> bool
    ensures { result ≡ is_name_token (plain_piece piece.now) }
{
    match piece.spelling {
        Spelling::Of(token) => tokens::is_name(token),
        Spelling::Number(_) => false,
    }
}

/// The text of a name.
pub fn name_text<'s>(piece: &Piece<'s>) -> &'s [u8]
    requires { is_name_token (plain_piece piece.now) ≡ true }
    ensures { result.now ≡ (plain_piece piece.now).text }
{
    match piece.spelling {
        Spelling::Of(token) => token.text.as_slice(),
        Spelling::Number(_) => b"",
    }
}

/// Whether a number is spelled as a mark, which no digit is.
fn is_mark(value: u32, mark: u8) -> bool
    requires { mark < 48 }
    ensures { result ≡ bytes_eq (decimal value) (mark ∷ []) }
{
    let _ = (value, mark);
    false
}

/// Whether the token is `(`.
pub fn opens(piece: &Piece) -> bool
    ensures { result ≡ opens (plain_piece piece.now) }
{
    match piece.spelling {
        Spelling::Of(token) => tokens::opens(token),
        Spelling::Number(value) => is_mark(value, b'('),
    }
}

/// Whether the token is `)`.
pub fn closes(piece: &Piece) -> bool
    ensures { result ≡ closes (plain_piece piece.now) }
{
    match piece.spelling {
        Spelling::Of(token) => tokens::closes(token),
        Spelling::Number(value) => is_mark(value, b')'),
    }
}

/// Whether the token is a comma.
pub fn is_comma(piece: &Piece) -> bool
    ensures { result ≡ is_comma (plain_piece piece.now) }
{
    match piece.spelling {
        Spelling::Of(token) => tokens::is_comma(token),
        Spelling::Number(value) => is_mark(value, b','),
    }
}

/// Adds a token.
pub fn push_piece<'s>(out: &mut Vec<Piece<'s>>, piece: &Piece<'s>) -> Result<(), AllocError>
    ensures { OnOk result (plain_pieces out.new.items ≡ plain_pieces out.old.items ++ plain_piece piece.now ∷ []) }
{
    out.push(*piece)?;
    Ok(())
}

/// Adds tokens as they are.
pub fn append_tokens<'s>(out: &mut Vec<Piece<'s>>, tokens: &'s [Token]) -> Result<(), AllocError>
    ensures { OnOk result (plain_pieces out.new.items ≡ plain_pieces out.old.items ++ plain_tokens tokens.now) }
{
    for token in tokens {
        out.push(piece_at(token, token.line))?;
    }
    Ok(())
}

/// Adds tokens of a replacement, all on one line.
pub fn append_at_line<'s>(
    out: &mut Vec<Piece<'s>>,
    tokens: &'s [Token],
    line: u32,
) -> Result<(), AllocError>
    ensures { OnOk result (plain_pieces out.new.items ≡ plain_pieces out.old.items ++ at_line line (plain_tokens tokens.now)) }
{
    for token in tokens {
        out.push(piece_at(token, line))?;
    }
    Ok(())
}

/// Adds tokens of an argument, all on one line.
pub fn append_pieces<'s>(
    out: &mut Vec<Piece<'s>>,
    pieces: &[Piece<'s>],
    line: u32,
) -> Result<(), AllocError>
    ensures { OnOk result (plain_pieces out.new.items ≡ plain_pieces out.old.items ++ at_line line (plain_pieces pieces.now)) }
{
    for piece in pieces {
        out.push(Piece {
            spelling: piece.spelling,
            line,
        })?;
    }
    Ok(())
}

/// A token with a text of its own.
fn token_of(alloc: Global, piece: &Piece) -> Result<Token, AllocError>
    ensures { IfOk result (λ token. plain token ≡ plain_piece piece.now) }
{
    match piece.spelling {
        Spelling::Of(token) => tokens::copy_at(alloc, token, piece.line),
        Spelling::Number(value) => {
            let digits = format!(in alloc; "{value}")?;
            let text = Vec::from_slice(alloc, digits.as_bytes())?;
            Ok(Token {
                text,
                class: Class::Int,
                line: piece.line,
            })
        }
    }
}

/// Tokens with texts of their own.
pub fn tokens_of(alloc: Global, pieces: &[Piece]) -> Result<Vec<Token>, AllocError>
    ensures { IfOk result (λ v. plain_tokens v.items ≡ plain_pieces pieces.now) }
{
    let mut out = Vec::with_capacity(alloc, pieces.len())?;
    for piece in pieces {
        out.push(token_of(alloc, piece)?)?;
    }
    Ok(out)
}
