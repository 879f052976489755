ghost use Rattle.std.specs.Prelude.{◌≡◌, IfOk};
ghost use Rattle.glsl_tree.specs.Token.{plain};
ghost use Rattle.glsl_tree.specs.declared.token.Class.TheVariants.{Int};
ghost use Rattle.glsl_preproc.specs.Macros.{is_text, is_name_token, class_number, number_token};
ghost use Rattle.glsl_preproc.specs.Replacement.{opens, closes, is_comma};
ghost use Rattle.glsl_preproc.specs.Directives.{is_hash_token, is_int_class, is_params};
ghost use Rattle.glsl_preproc.specs.Expansion.{is_line_end};
ghost use Rattle.glsl_preproc.specs.Views.{placed};

use glsl_tree::{Class, Token};
use std::alloc::{AllocError, Global};

/// Whether the token is spelled so.
pub fn is_text(token: &Token, text: &[u8]) -> bool
    ensures { result ≡ is_text text.now (plain token.now) }
{
    token.text.as_slice() == text
}

/// Whether the token is a name, as directives take it: an identifier or a word of the language.
pub fn is_name(token: &Token) -> bool
    ensures { result ≡ is_name_token (plain token.now) }
{
    matches!(token.class, Class::Identifier | Class::Keyword)
}

/// Whether the token is `#`.
pub fn is_hash(token: &Token) -> bool
    ensures { result ≡ is_hash_token (plain token.now) }
{
    matches!(token.class, Class::Hash)
}

/// Whether the token is the end of a line.
pub fn is_line_end(token: &Token) -> bool
    ensures { result ≡ is_line_end (plain token.now) }
{
    matches!(token.class, Class::NewLine)
}

/// Whether the token is an int.
pub fn is_int(token: &Token) -> bool
    ensures { result ≡ is_int_class token.now.class }
{
    matches!(token.class, Class::Int)
}

/// Whether the token begins the parameters of a macro.
pub fn is_params(token: &Token) -> bool
    ensures { result ≡ is_params token.now.class }
{
    matches!(token.class, Class::Params)
}

/// Whether the token is `(`.
pub fn opens(token: &Token) -> bool
    ensures { result ≡ opens (plain token.now) }
{
    is_text(token, b"(")
}

/// Whether the token is `)`.
pub fn closes(token: &Token) -> bool
    ensures { result ≡ closes (plain token.now) }
{
    is_text(token, b")")
}

/// Whether the token is a comma.
pub fn is_comma(token: &Token) -> bool
    ensures { result ≡ is_comma (plain token.now) }
{
    is_text(token, b",")
}

/// The number of a class, by which two are compared.
pub fn class_number(class: Class) -> u8
    ensures { result ≡ class_number class }
{
    match class {
        Class::Identifier => 0,
        Class::Keyword => 1,
        Class::Int => 2,
        Class::Float => 3,
        Class::Punct => 4,
        Class::Hash => 5,
        Class::NewLine => 6,
        Class::Params => 7,
    }
}

/// A copy of the token, on another line.
pub fn copy_at(alloc: Global, token: &Token, line: u32) -> Result<Token, AllocError>
    ensures { IfOk result (λ copy. plain copy ≡ placed (plain token.now) line) }
{
    let text = Vec::from_slice(alloc, token.text.as_slice())?;
    Ok(Token {
        text,
        class: token.class,
        line,
    })
}

/// A token of a number, which stands on no line.
pub fn number_token(alloc: Global, text: &[u8]) -> Result<Token, AllocError>
    ensures { IfOk result (λ number. plain number ≡ number_token text.now) }
{
    let text = Vec::from_slice(alloc, text)?;
    Ok(Token {
        text,
        class: Class::Int,
        line: 0,
    })
}
