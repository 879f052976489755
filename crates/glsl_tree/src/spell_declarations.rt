//! Declarations as tokens.

ghost use Rattle.std.specs.Prelude.{◌≡◌, ◌++◌, ◌∷◌, [], OnOk, map, codes};
ghost use Rattle.glsl_tree.specs.Expressions.{separated};
ghost use Rattle.glsl_tree.specs.Declarations as spec;
ghost use Rattle.glsl_tree.specs.Token.{plain_tokens};

use crate::declarations::{Decl, Declarator, FullType, Head, Parameter, Parameters};
use crate::spell_expressions::{push, push_comma, push_expression, push_mark};
use crate::spell_types::{
    invariant_text, push_array, push_direction, push_name, push_precision, push_size, push_storage,
    push_type, push_word,
};
use crate::text::Text;
use crate::token::{Class, Token};
use std::alloc::{AllocError, Global};

/// Adds a type with its qualifiers.
pub fn push_full_type(
    alloc: Global,
    out: &mut Vec<Token>,
    full_type: &FullType,
) -> Result<(), AllocError>
    ensures { OnOk result (plain_tokens out.new.items ≡ plain_tokens out.old.items ++ spec.full_type_tokens full_type.now) }
{
    push_storage(alloc, out, full_type.storage)?;
    push_precision(alloc, out, full_type.precision)?;
    push_type(alloc, out, &full_type.kind)
}

fn push_declarator(
    alloc: Global,
    out: &mut Vec<Token>,
    declarator: &Declarator,
) -> Result<(), AllocError>
    ensures { OnOk result (plain_tokens out.new.items ≡ plain_tokens out.old.items ++ spec.declarator_tokens declarator.now) }
{
    match declarator {
        Declarator::Name(text) => push(alloc, out, Class::Identifier, text.as_slice()),
        Declarator::Array { name, size } => {
            push(alloc, out, Class::Identifier, name.as_slice())?;
            push_array(alloc, out, size)
        }
        Declarator::Initialized { name, value } => {
            push(alloc, out, Class::Identifier, name.as_slice())?;
            push_mark(alloc, out, b"=")?;
            push_expression(alloc, out, value)
        }
    }
}

fn push_declarators(
    alloc: Global,
    out: &mut Vec<Token>,
    declarators: &[Declarator],
) -> Result<(), AllocError>
    ensures { OnOk result (plain_tokens out.new.items
        ≡ plain_tokens out.old.items ++ separated (map spec.declarator_tokens declarators.now)) }
{
    let mut is_first = true;
    for declarator in declarators {
        push_comma(alloc, out, is_first)?;
        push_declarator(alloc, out, declarator)?;
        is_first = false;
    }
    Ok(())
}

fn push_constant(alloc: Global, out: &mut Vec<Token>, is_constant: bool) -> Result<(), AllocError>
    ensures { OnOk result (plain_tokens out.new.items ≡ plain_tokens out.old.items ++ spec.constant_tokens is_constant) }
{
    if is_constant {
        push_word(alloc, out, b"const")
    } else {
        Ok(())
    }
}

fn push_parameter(
    alloc: Global,
    out: &mut Vec<Token>,
    parameter: &Parameter,
) -> Result<(), AllocError>
    ensures { OnOk result (plain_tokens out.new.items ≡ plain_tokens out.old.items ++ spec.parameter_tokens parameter.now) }
{
    push_constant(alloc, out, parameter.is_constant)?;
    push_direction(alloc, out, parameter.direction)?;
    push_precision(alloc, out, parameter.precision)?;
    push_type(alloc, out, &parameter.kind)?;
    push_name(alloc, out, &parameter.name)?;
    push_size(alloc, out, &parameter.size)
}

fn push_parameters(
    alloc: Global,
    out: &mut Vec<Token>,
    parameters: &[Parameter],
) -> Result<(), AllocError>
    ensures { OnOk result (plain_tokens out.new.items
        ≡ plain_tokens out.old.items ++ separated (map spec.parameter_tokens parameters.now)) }
{
    let mut is_first = true;
    for parameter in parameters {
        push_comma(alloc, out, is_first)?;
        push_parameter(alloc, out, parameter)?;
        is_first = false;
    }
    Ok(())
}

fn push_in_head(
    alloc: Global,
    out: &mut Vec<Token>,
    parameters: &Parameters,
) -> Result<(), AllocError>
    ensures { OnOk result (plain_tokens out.new.items ≡ plain_tokens out.old.items ++ spec.parameters_tokens parameters.now) }
{
    match parameters {
        Parameters::Void => push_word(alloc, out, b"void"),
        Parameters::Listed(all) => push_parameters(alloc, out, all.as_slice()),
    }
}

/// Adds a function's head.
pub fn push_head(alloc: Global, out: &mut Vec<Token>, head: &Head) -> Result<(), AllocError>
    ensures { OnOk result (plain_tokens out.new.items ≡ plain_tokens out.old.items ++ spec.head_tokens head.now) }
{
    push_full_type(alloc, out, &head.full_type)?;
    push(alloc, out, Class::Identifier, head.name.as_slice())?;
    push_mark(alloc, out, b"(")?;
    push_in_head(alloc, out, &head.parameters)?;
    push_mark(alloc, out, b")")
}

fn push_names(alloc: Global, out: &mut Vec<Token>, names: &[Text]) -> Result<(), AllocError>
    ensures { OnOk result (plain_tokens out.new.items ≡ plain_tokens out.old.items ++ separated (map spec.one_name names.now)) }
{
    let mut is_first = true;
    for name in names {
        push_comma(alloc, out, is_first)?;
        push(alloc, out, Class::Identifier, name.as_slice())?;
        is_first = false;
    }
    Ok(())
}

fn precision_text() -> &'static [u8]
    ensures { result.now ≡ codes "precision" }
{
    b"precision"
}

/// Adds a declaration.
pub fn push_declaration(
    alloc: Global,
    out: &mut Vec<Token>,
    declaration: &Decl,
) -> Result<(), AllocError>
    ensures { OnOk result (plain_tokens out.new.items ≡ plain_tokens out.old.items ++ spec.declaration_tokens declaration.now) }
{
    match declaration {
        Decl::Prototype(head) => {
            push_head(alloc, out, head)?;
            push_mark(alloc, out, b";")
        }
        Decl::Precision { precision, kind } => {
            push_word(alloc, out, precision_text())?;
            push_word(alloc, out, precision.text())?;
            push_type(alloc, out, kind)?;
            push_mark(alloc, out, b";")
        }
        Decl::Invariant { names } => {
            push_word(alloc, out, invariant_text())?;
            push_names(alloc, out, names.as_slice())?;
            push_mark(alloc, out, b";")
        }
        Decl::Variables {
            full_type,
            declarators,
        } => {
            push_full_type(alloc, out, full_type)?;
            push_declarators(alloc, out, declarators.as_slice())?;
            push_mark(alloc, out, b";")
        }
    }
}
