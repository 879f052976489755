//! Types and qualifiers as tokens.

ghost use Rattle.std.specs.Prelude.{◌≡◌, ◌++◌, ◌∷◌, [], OnOk, map, Some, codes};
ghost use Rattle.glsl_tree.specs.Expressions.{word, separated};
ghost use Rattle.glsl_tree.specs.Types as spec;
ghost use Rattle.glsl_tree.specs.Token.{plain_tokens};

use crate::declarations::{Member, SizedName, TypeSpecifier};
use crate::expressions::Expr;
use crate::qualifiers::{Direction, Precision, Storage};
use crate::spell_expressions::{push, push_comma, push_expression, push_mark};
use crate::text::Text;
use crate::token::{Class, Token};
use std::alloc::{AllocError, Global};

/// Adds a keyword.
pub fn push_word(alloc: Global, out: &mut Vec<Token>, text: &[u8]) -> Result<(), AllocError>
    ensures { OnOk result (plain_tokens out.new.items ≡ plain_tokens out.old.items ++ word text.now ∷ []) }
{
    push(alloc, out, Class::Keyword, text)
}

/// Adds a name that may be left out.
pub fn push_name(alloc: Global, out: &mut Vec<Token>, name: &Option<Text>) -> Result<(), AllocError>
    ensures { OnOk result (plain_tokens out.new.items ≡ plain_tokens out.old.items ++ spec.name_tokens name.now) }
{
    match name {
        None => Ok(()),
        Some(text) => push(alloc, out, Class::Identifier, text.as_slice()),
    }
}

/// Adds a precision that may be left out.
pub fn push_precision(
    alloc: Global,
    out: &mut Vec<Token>,
    precision: Option<Precision>,
) -> Result<(), AllocError>
    ensures { OnOk result (plain_tokens out.new.items ≡ plain_tokens out.old.items ++ spec.precision_tokens precision) }
{
    match precision {
        None => Ok(()),
        Some(precision) => push_word(alloc, out, precision.text()),
    }
}

/// Adds a direction that may be left out.
pub fn push_direction(
    alloc: Global,
    out: &mut Vec<Token>,
    direction: Option<Direction>,
) -> Result<(), AllocError>
    ensures { OnOk result (plain_tokens out.new.items ≡ plain_tokens out.old.items ++ spec.direction_tokens direction) }
{
    match direction {
        None => Ok(()),
        Some(direction) => push_word(alloc, out, direction.text()),
    }
}

fn attribute_text() -> &'static [u8]
    ensures { result.now ≡ codes "attribute" }
{
    b"attribute"
}

/// The keyword `invariant`.
pub fn invariant_text() -> &'static [u8]
    ensures { result.now ≡ codes "invariant" }
{
    b"invariant"
}

fn push_qualifier(alloc: Global, out: &mut Vec<Token>, storage: Storage) -> Result<(), AllocError>
    ensures { OnOk result (plain_tokens out.new.items ≡ plain_tokens out.old.items ++ spec.storage_words storage) }
{
    match storage {
        Storage::Const => push_word(alloc, out, b"const"),
        Storage::Attribute => push_word(alloc, out, attribute_text()),
        Storage::Varying => push_word(alloc, out, b"varying"),
        Storage::InvariantVarying => {
            push_word(alloc, out, invariant_text())?;
            push_word(alloc, out, b"varying")
        }
        Storage::Uniform => push_word(alloc, out, b"uniform"),
    }
}

/// Adds a storage qualifier that may be left out.
pub fn push_storage(
    alloc: Global,
    out: &mut Vec<Token>,
    storage: Option<Storage>,
) -> Result<(), AllocError>
    ensures { OnOk result (plain_tokens out.new.items ≡ plain_tokens out.old.items ++ spec.storage_tokens storage) }
{
    match storage {
        None => Ok(()),
        Some(storage) => push_qualifier(alloc, out, storage),
    }
}

/// Adds an expression in square brackets.
pub fn push_array(alloc: Global, out: &mut Vec<Token>, size: &Expr) -> Result<(), AllocError>
    ensures { OnOk result (plain_tokens out.new.items ≡ plain_tokens out.old.items ++ spec.size_tokens (Some size.now)) }
{
    push_mark(alloc, out, b"[")?;
    push_expression(alloc, out, size)?;
    push_mark(alloc, out, b"]")
}

/// Adds an array size that may be left out.
pub fn push_size(alloc: Global, out: &mut Vec<Token>, size: &Option<Expr>) -> Result<(), AllocError>
    ensures { OnOk result (plain_tokens out.new.items ≡ plain_tokens out.old.items ++ spec.size_tokens size.now) }
{
    match size {
        None => Ok(()),
        Some(size) => push_array(alloc, out, size),
    }
}

fn push_sized(alloc: Global, out: &mut Vec<Token>, names: &[SizedName]) -> Result<(), AllocError>
    ensures { OnOk result (plain_tokens out.new.items ≡ plain_tokens out.old.items ++ separated (map spec.sized_tokens names.now)) }
{
    let mut is_first = true;
    for sized in names {
        push_comma(alloc, out, is_first)?;
        push(alloc, out, Class::Identifier, sized.name.as_slice())?;
        push_size(alloc, out, &sized.size)?;
        is_first = false;
    }
    Ok(())
}

/// Adds a type.
#[cycle(spell_type)]
#[tactic(auto, unfolding(crate::specs::Types::type_tokens, crate::specs::Types::member_tokens))]
pub fn push_type(
    alloc: Global,
    out: &mut Vec<Token>,
    kind: &TypeSpecifier,
) -> Result<(), AllocError>
    ensures { OnOk result (plain_tokens out.new.items ≡ plain_tokens out.old.items ++ spec.type_tokens kind.now) }
{
    match kind {
        TypeSpecifier::Basic(basic) => push_word(alloc, out, basic.text()),
        TypeSpecifier::Void => push_word(alloc, out, b"void"),
        TypeSpecifier::Name(text) => push(alloc, out, Class::Identifier, text.as_slice()),
        TypeSpecifier::Struct { name, members } => {
            push_word(alloc, out, b"struct")?;
            push_name(alloc, out, name)?;
            push_mark(alloc, out, b"{")?;
            push_members(alloc, out, members.as_slice())?;
            push_mark(alloc, out, b"}")
        }
    }
}

#[cycle(spell_type)]
fn push_members(alloc: Global, out: &mut Vec<Token>, members: &[Member]) -> Result<(), AllocError>
    ensures { OnOk result (plain_tokens out.new.items ≡ plain_tokens out.old.items ++ spec.joined (map spec.member_tokens members.now)) }
{
    for member in members {
        push_member(alloc, out, member)?;
    }
    Ok(())
}

#[cycle(spell_type)]
#[tactic(auto, unfolding(crate::specs::Types::type_tokens, crate::specs::Types::member_tokens))]
fn push_member(alloc: Global, out: &mut Vec<Token>, member: &Member) -> Result<(), AllocError>
    ensures { OnOk result (plain_tokens out.new.items ≡ plain_tokens out.old.items ++ spec.member_tokens member.now) }
{
    push_precision(alloc, out, member.precision)?;
    push_type(alloc, out, &member.kind)?;
    push_sized(alloc, out, member.names.as_slice())?;
    push_mark(alloc, out, b";")
}
