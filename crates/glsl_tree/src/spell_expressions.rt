//! Expressions as tokens.

ghost use Rattle.std.specs.Prelude.{◌≡◌, ◌++◌, ◌∷◌, [], OnOk, map};
ghost use Rattle.glsl_tree.specs.Expressions.{token, mark, callee_token, expression_tokens, separated, comma};
ghost use Rattle.glsl_tree.specs.Token.{plain_tokens};

use crate::expressions::{Callee, Expr};
use crate::token::{Class, Token};
use sqlite_items::Items;
use std::alloc::{AllocError, Global};

/// Adds a token with this text.
pub fn push(
    alloc: Global,
    out: &mut Vec<Token>,
    class: Class,
    text: &[u8],
) -> Result<(), AllocError>
    ensures { OnOk result (plain_tokens out.new.items ≡ plain_tokens out.old.items ++ token class text.now ∷ []) }
{
    let text = Vec::from_slice(alloc, text)?;
    out.push(Token {
        text,
        class,
        line: 0,
    })?;
    Ok(())
}

/// Adds an operator or a mark.
pub fn push_mark(alloc: Global, out: &mut Vec<Token>, text: &[u8]) -> Result<(), AllocError>
    ensures { OnOk result (plain_tokens out.new.items ≡ plain_tokens out.old.items ++ mark text.now ∷ []) }
{
    push(alloc, out, Class::Punct, text)
}

/// Adds the comma before each part of a list but the first.
pub fn push_comma(alloc: Global, out: &mut Vec<Token>, is_first: bool) -> Result<(), AllocError>
    ensures { OnOk result (plain_tokens out.new.items ≡ plain_tokens out.old.items ++ comma is_first) }
{
    if is_first {
        Ok(())
    } else {
        push_mark(alloc, out, b",")
    }
}

fn push_callee(alloc: Global, out: &mut Vec<Token>, callee: &Callee) -> Result<(), AllocError>
    ensures { OnOk result (plain_tokens out.new.items ≡ plain_tokens out.old.items ++ callee_token callee.now ∷ []) }
{
    match callee {
        Callee::Name(text) => push(alloc, out, Class::Identifier, text.as_slice()),
        Callee::Basic(kind) => push(alloc, out, Class::Keyword, kind.text()),
    }
}

/// Adds an expression.
#[cycle(spell)]
#[tactic(auto, unfolding(crate::specs::Expressions::expression_tokens))]
pub fn push_expression(
    alloc: Global,
    out: &mut Vec<Token>,
    expression: &Expr,
) -> Result<(), AllocError>
    ensures { OnOk result (plain_tokens out.new.items ≡ plain_tokens out.old.items ++ expression_tokens expression.now) }
{
    match expression {
        Expr::Name(text) => push(alloc, out, Class::Identifier, text.as_slice()),
        Expr::Int(text) => push(alloc, out, Class::Int, text.as_slice()),
        Expr::Float(text) => push(alloc, out, Class::Float, text.as_slice()),
        Expr::Truth(true) => push(alloc, out, Class::Keyword, b"true"),
        Expr::Truth(false) => push(alloc, out, Class::Keyword, b"false"),
        Expr::Bracket(inner) => {
            push_mark(alloc, out, b"(")?;
            push_expression(alloc, out, inner.get())?;
            push_mark(alloc, out, b")")
        }
        Expr::Call { callee, arguments } => {
            push_callee(alloc, out, callee)?;
            push_mark(alloc, out, b"(")?;
            push_arguments(alloc, out, arguments.as_slice())?;
            push_mark(alloc, out, b")")
        }
        Expr::CallVoid { callee } => {
            push_callee(alloc, out, callee)?;
            push_mark(alloc, out, b"(")?;
            push(alloc, out, Class::Keyword, b"void")?;
            push_mark(alloc, out, b")")
        }
        Expr::Index { base, index } => {
            push_expression(alloc, out, base.get())?;
            push_mark(alloc, out, b"[")?;
            push_expression(alloc, out, index.get())?;
            push_mark(alloc, out, b"]")
        }
        Expr::Field { base, name } => {
            push_expression(alloc, out, base.get())?;
            push_mark(alloc, out, b".")?;
            push(alloc, out, Class::Identifier, name.as_slice())
        }
        Expr::Postfix { operand, operator } => {
            push_expression(alloc, out, operand.get())?;
            push_mark(alloc, out, operator.text())
        }
        Expr::Prefix { operator, operand } => {
            push_mark(alloc, out, operator.text())?;
            push_expression(alloc, out, operand.get())
        }
        Expr::Binary {
            operator,
            left,
            right,
        } => {
            push_expression(alloc, out, left.get())?;
            push_mark(alloc, out, operator.text())?;
            push_expression(alloc, out, right.get())
        }
        Expr::Conditional {
            condition,
            if_true,
            if_false,
        } => {
            push_expression(alloc, out, condition.get())?;
            push_mark(alloc, out, b"?")?;
            push_expression(alloc, out, if_true.get())?;
            push_mark(alloc, out, b":")?;
            push_expression(alloc, out, if_false.get())
        }
        Expr::Assign {
            operator,
            target,
            value,
        } => {
            push_expression(alloc, out, target.get())?;
            push_mark(alloc, out, operator.text())?;
            push_expression(alloc, out, value.get())
        }
    }
}

/// Adds expressions with commas between them.
#[cycle(spell)]
fn push_arguments(alloc: Global, out: &mut Vec<Token>, arguments: &[Expr]) -> Result<(), AllocError>
    ensures { OnOk result (plain_tokens out.new.items ≡ plain_tokens out.old.items ++ separated (map expression_tokens arguments.now)) }
{
    let mut is_first = true;
    for argument in arguments {
        push_comma(alloc, out, is_first)?;
        push_expression(alloc, out, argument)?;
        is_first = false;
    }
    Ok(())
}
