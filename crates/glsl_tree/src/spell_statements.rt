//! Statements and shaders as tokens.

ghost use Rattle.std.specs.Prelude.{◌≡◌, ◌++◌, ◌∷◌, [], IfOk, OnOk, map};
ghost use Rattle.glsl_tree.specs.Types.{joined};
ghost use Rattle.glsl_tree.specs.Statements as spec;
ghost use Rattle.glsl_tree.specs.Token.{plain_tokens};

use crate::expressions::Expr;
use crate::spell_declarations::{push_declaration, push_full_type, push_head};
use crate::spell_expressions::{push, push_expression, push_mark};
use crate::spell_types::push_word;
use crate::statements::{Condition, Item, Start, Stmt, Unit};
use crate::token::{Class, Token};
use std::alloc::{AllocError, Global};

/// Out of memory: an allocation was refused.
#[derive(Clone, Copy, Debug, PartialEq, Eq)]
pub struct Memory;

fn push_optional(
    alloc: Global,
    out: &mut Vec<Token>,
    expression: &Option<Expr>,
) -> Result<(), AllocError>
    ensures { OnOk result (plain_tokens out.new.items ≡ plain_tokens out.old.items ++ spec.optional_tokens expression.now) }
{
    match expression {
        None => Ok(()),
        Some(expression) => push_expression(alloc, out, expression),
    }
}

fn push_condition(
    alloc: Global,
    out: &mut Vec<Token>,
    condition: &Condition,
) -> Result<(), AllocError>
    ensures { OnOk result (plain_tokens out.new.items ≡ plain_tokens out.old.items ++ spec.condition_tokens condition.now) }
{
    match condition {
        Condition::Expression(expression) => push_expression(alloc, out, expression),
        Condition::Declared {
            full_type,
            name,
            value,
        } => {
            push_full_type(alloc, out, full_type)?;
            push(alloc, out, Class::Identifier, name.as_slice())?;
            push_mark(alloc, out, b"=")?;
            push_expression(alloc, out, value)
        }
    }
}

fn push_optional_condition(
    alloc: Global,
    out: &mut Vec<Token>,
    condition: &Option<Condition>,
) -> Result<(), AllocError>
    ensures { OnOk result (plain_tokens out.new.items ≡ plain_tokens out.old.items ++ spec.optional_condition_tokens condition.now) }
{
    match condition {
        None => Ok(()),
        Some(condition) => push_condition(alloc, out, condition),
    }
}

fn push_start(alloc: Global, out: &mut Vec<Token>, start: &Start) -> Result<(), AllocError>
    ensures { OnOk result (plain_tokens out.new.items ≡ plain_tokens out.old.items ++ spec.start_tokens start.now) }
{
    match start {
        Start::Empty => push_mark(alloc, out, b";"),
        Start::Expression(expression) => {
            push_expression(alloc, out, expression)?;
            push_mark(alloc, out, b";")
        }
        Start::Declaration(declaration) => push_declaration(alloc, out, declaration),
    }
}

fn push_test(
    alloc: Global,
    out: &mut Vec<Token>,
    word: &[u8],
    test: &Expr,
) -> Result<(), AllocError>
    ensures { OnOk result (plain_tokens out.new.items ≡ plain_tokens out.old.items ++ spec.test_tokens word.now test.now) }
{
    push_word(alloc, out, word)?;
    push_mark(alloc, out, b"(")?;
    push_expression(alloc, out, test)?;
    push_mark(alloc, out, b")")
}

fn push_while(alloc: Global, out: &mut Vec<Token>, condition: &Condition) -> Result<(), AllocError>
    ensures { OnOk result (plain_tokens out.new.items ≡ plain_tokens out.old.items ++ spec.while_tokens condition.now) }
{
    push_word(alloc, out, b"while")?;
    push_mark(alloc, out, b"(")?;
    push_condition(alloc, out, condition)?;
    push_mark(alloc, out, b")")
}

fn push_for(
    alloc: Global,
    out: &mut Vec<Token>,
    start: &Start,
    condition: &Option<Condition>,
    step: &Option<Expr>,
) -> Result<(), AllocError>
    ensures { OnOk result (plain_tokens out.new.items ≡ plain_tokens out.old.items ++ spec.for_tokens start.now condition.now step.now) }
{
    push_word(alloc, out, b"for")?;
    push_mark(alloc, out, b"(")?;
    push_start(alloc, out, start)?;
    push_optional_condition(alloc, out, condition)?;
    push_mark(alloc, out, b";")?;
    push_optional(alloc, out, step)?;
    push_mark(alloc, out, b")")
}

fn push_jump(alloc: Global, out: &mut Vec<Token>, word: &[u8]) -> Result<(), AllocError>
    ensures { OnOk result (plain_tokens out.new.items ≡ plain_tokens out.old.items ++ spec.jump_tokens word.now) }
{
    push_word(alloc, out, word)?;
    push_mark(alloc, out, b";")
}

#[cycle(spell_statement)]
#[tactic(auto, unfolding(crate::specs::Statements::statement_tokens))]
fn push_statement(alloc: Global, out: &mut Vec<Token>, statement: &Stmt) -> Result<(), AllocError>
    ensures { OnOk result (plain_tokens out.new.items ≡ plain_tokens out.old.items ++ spec.statement_tokens statement.now) }
{
    match statement {
        Stmt::Block(statements) => {
            push_mark(alloc, out, b"{")?;
            push_statements(alloc, out, statements.as_slice())?;
            push_mark(alloc, out, b"}")
        }
        Stmt::Declaration(declaration) => push_declaration(alloc, out, declaration),
        Stmt::Empty => push_mark(alloc, out, b";"),
        Stmt::Expression(expression) => {
            push_expression(alloc, out, expression)?;
            push_mark(alloc, out, b";")
        }
        Stmt::If {
            condition,
            then,
            otherwise: None,
        } => {
            push_test(alloc, out, b"if", condition)?;
            push_statement(alloc, out, then.get())
        }
        Stmt::If {
            condition,
            then,
            otherwise: Some(branch),
        } => {
            push_test(alloc, out, b"if", condition)?;
            push_statement(alloc, out, then.get())?;
            push_word(alloc, out, b"else")?;
            push_statement(alloc, out, branch.get())
        }
        Stmt::While { condition, body } => {
            push_while(alloc, out, condition)?;
            push_statement(alloc, out, body.get())
        }
        Stmt::Do { body, condition } => {
            push_word(alloc, out, b"do")?;
            push_statement(alloc, out, body.get())?;
            push_test(alloc, out, b"while", condition)?;
            push_mark(alloc, out, b";")
        }
        Stmt::For {
            start,
            condition,
            step,
            body,
        } => {
            push_for(alloc, out, start, condition, step)?;
            push_statement(alloc, out, body.get())
        }
        Stmt::Break => push_jump(alloc, out, b"break"),
        Stmt::Continue => push_jump(alloc, out, b"continue"),
        Stmt::Discard => push_jump(alloc, out, b"discard"),
        Stmt::Return(value) => {
            push_word(alloc, out, b"return")?;
            push_optional(alloc, out, value)?;
            push_mark(alloc, out, b";")
        }
    }
}

#[cycle(spell_statement)]
fn push_statements(
    alloc: Global,
    out: &mut Vec<Token>,
    statements: &[Stmt],
) -> Result<(), AllocError>
    ensures { OnOk result (plain_tokens out.new.items ≡ plain_tokens out.old.items ++ joined (map spec.statement_tokens statements.now)) }
{
    for statement in statements {
        push_statement(alloc, out, statement)?;
    }
    Ok(())
}

fn push_item(alloc: Global, out: &mut Vec<Token>, item: &Item) -> Result<(), AllocError>
    ensures { OnOk result (plain_tokens out.new.items ≡ plain_tokens out.old.items ++ spec.item_tokens item.now) }
{
    match item {
        Item::Declaration(declaration) => push_declaration(alloc, out, declaration),
        Item::Function { head, body } => {
            push_head(alloc, out, head)?;
            push_mark(alloc, out, b"{")?;
            push_statements(alloc, out, body.as_slice())?;
            push_mark(alloc, out, b"}")
        }
    }
}

fn push_items(alloc: Global, out: &mut Vec<Token>, items: &[Item]) -> Result<(), AllocError>
    ensures { OnOk result (plain_tokens out.new.items ≡ plain_tokens out.old.items ++ joined (map spec.item_tokens items.now)) }
{
    for item in items {
        push_item(alloc, out, item)?;
    }
    Ok(())
}

/// The tokens that a shader is spelled with, each with line 0 (GLSL ES 1.00.17 chapter 9). The only error is out of memory.
pub fn spell(alloc: Global, unit: &Unit) -> Result<Vec<Token>, Memory>
    ensures spelled { IfOk result (λ tokens. plain_tokens tokens.items ≡ spec.unit_tokens unit.now) }
{
    let mut out = Vec::new(alloc);
    let Ok(()) = push_items(alloc, &mut out, unit.items.as_slice()) else {
        return Err(Memory);
    };
    Ok(out)
}
