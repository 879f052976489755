ghost use Rattle.std.specs.Prelude.{◌≡◌, ◌+◌, ◌≤◌, ◌++◌, map, length};
ghost use Rattle.glsl_tree.specs.Types.{joined};
ghost use Rattle.glsl_tree.specs.Statements.{condition_tokens, optional_condition_tokens, start_tokens, statement_tokens};
ghost use Rattle.appendix_a.specs.Names as spec;
ghost use Rattle.appendix_a.specs.Names.{in_turn};
ghost use Rattle.appendix_a.specs.Numbered.{names_in, optional_condition_names};

use crate::declared_names::{OTHER, local_names, type_names};
use crate::table::Table;
use glsl_tree::{Condition, Start, Stmt};

/// Adds the names that the condition of a loop declares.
#[tactic(auto, using(crate::proofs::Lengths::of_lengths))]
fn condition_names(table: &mut Table<'_>, test: &Condition)
    requires { table.old.next + length (condition_tokens test.now) ≤ 131073 }
    ensures names { names_in table.new ≡ names_in table.old ++ spec.condition_names test.now }
    ensures next { table.new.next ≤ table.old.next + length (condition_tokens test.now) }
    ensures items { table.new.items.now ≡ table.old.items.now }
{
    match test {
        Condition::Expression(_) => {}
        Condition::Declared { full_type, .. } => {
            type_names(table, &full_type.kind);
            table.push(OTHER);
        }
    }
}

/// Adds the names that a condition declares that may be left out.
#[tactic(auto, using(crate::proofs::Lengths::of_lengths))]
fn optional_names(table: &mut Table<'_>, test: &Option<Condition>)
    requires { table.old.next + length (optional_condition_tokens test.now) ≤ 131073 }
    ensures names { names_in table.new ≡ names_in table.old ++ optional_condition_names test.now }
    ensures next { table.new.next ≤ table.old.next + length (optional_condition_tokens test.now) }
    ensures items { table.new.items.now ≡ table.old.items.now }
{
    match test {
        Some(test) => condition_names(table, test),
        None => {}
    }
}

/// Adds the names that the first part of a `for` declares.
#[tactic(auto, using(crate::proofs::Lengths::of_lengths))]
fn start_names(table: &mut Table<'_>, start: &Start)
    requires { table.old.next + length (start_tokens start.now) ≤ 131073 }
    ensures names { names_in table.new ≡ names_in table.old ++ spec.start_names start.now }
    ensures next { table.new.next ≤ table.old.next + length (start_tokens start.now) }
    ensures items { table.new.items.now ≡ table.old.items.now }
{
    match start {
        Start::Declaration(d) => local_names(table, d),
        Start::Empty | Start::Expression(_) => {}
    }
}

/// Adds the names that a statement declares.
#[cycle(names)]
#[tactic(auto, using(crate::proofs::Lengths::of_lengths), unfolding(crate::specs::Names::statement_names, glsl_tree::specs::Statements::statement_tokens))]
fn statement_names(table: &mut Table<'_>, s: &Stmt)
    requires { table.old.next + length (statement_tokens s.now) ≤ 131073 }
    ensures names { names_in table.new ≡ names_in table.old ++ spec.statement_names s.now }
    ensures next { table.new.next ≤ table.old.next + length (statement_tokens s.now) }
    ensures items { table.new.items.now ≡ table.old.items.now }
{
    match s {
        Stmt::Block(all) => each_statement(table, all.as_slice()),
        Stmt::Declaration(d) => local_names(table, d),
        Stmt::If {
            then,
            otherwise: None,
            ..
        } => statement_names(table, then.get()),
        Stmt::If {
            then,
            otherwise: Some(branch),
            ..
        } => {
            statement_names(table, then.get());
            statement_names(table, branch.get());
        }
        Stmt::While { condition, body } => {
            condition_names(table, condition);
            statement_names(table, body.get());
        }
        Stmt::Do { body, .. } => statement_names(table, body.get()),
        Stmt::For {
            start,
            condition,
            body,
            ..
        } => {
            start_names(table, start);
            optional_names(table, condition);
            statement_names(table, body.get());
        }
        Stmt::Empty
        | Stmt::Expression(_)
        | Stmt::Break
        | Stmt::Continue
        | Stmt::Discard
        | Stmt::Return(_) => {}
    }
}

/// Adds the names that statements declare.
#[cycle(names)]
#[tactic(auto, using(crate::proofs::Lengths::of_lengths))]
pub(crate) fn each_statement(table: &mut Table<'_>, all: &[Stmt])
    requires { table.old.next + length (joined (map statement_tokens all.now)) ≤ 131073 }
    ensures names { names_in table.new ≡ names_in table.old ++ in_turn (map spec.statement_names all.now) }
    ensures next { table.new.next ≤ table.old.next + length (joined (map statement_tokens all.now)) }
    ensures items { table.new.items.now ≡ table.old.items.now }
{
    for s in all {
        statement_names(table, s);
    }
}
