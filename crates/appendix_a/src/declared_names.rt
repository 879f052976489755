ghost use Rattle.std.specs.Prelude.{◌≡◌, ◌+◌, ◌≤◌, ◌++◌, ◌∷◌, map, length, replicate};
ghost use Rattle.glsl_tree.specs.Types.{joined, type_tokens};
ghost use Rattle.glsl_tree.specs.Declarations.{declaration_tokens, head_tokens, parameter_tokens, parameters_tokens};
ghost use Rattle.appendix_a.specs.Names as spec;
ghost use Rattle.appendix_a.specs.Names.{in_turn, listed, Function};
ghost use Rattle.appendix_a.specs.Numbered.{names_in, variable_entry, variables_tokens};
ghost use Rattle.appendix_a.specs.Table.{declared_parameters, of_entry};

use crate::table::Table;
use glsl_tree::{Decl, Declarator, FullType, Head, Parameter, Parameters, Storage, TypeSpecifier};

/// The entry of a name that the limits do not ask for.
pub(crate) const OTHER: u32 = 0;

/// The entry of a structure.
const STRUCTURE: u32 = 1;

/// The entry of a uniform that has no sampler.
const UNIFORM: u32 = 2;

/// Adds the names that a type declares.
#[tactic(auto, unfolding(glsl_tree::specs::Types::type_tokens))]
pub(crate) fn type_names(table: &mut Table<'_>, kind: &TypeSpecifier)
    requires { table.old.next + length (type_tokens kind.now) ≤ 131073 }
    ensures names { names_in table.new ≡ names_in table.old ++ spec.type_names kind.now }
    ensures next { table.new.next ≤ table.old.next + length (type_tokens kind.now) }
    ensures items { table.new.items.now ≡ table.old.items.now }
{
    match kind {
        TypeSpecifier::Struct { name: Some(_), .. } => table.push(STRUCTURE),
        _ => {}
    }
}

/// Adds the names that a parameter declares.
#[tactic(auto, using(crate::proofs::Lengths::of_lengths))]
fn parameter_names(table: &mut Table<'_>, p: &Parameter)
    requires { table.old.next + length (parameter_tokens p.now) ≤ 131073 }
    ensures names { names_in table.new ≡ names_in table.old ++ spec.parameter_names p.now }
    ensures next { table.new.next ≤ table.old.next + length (parameter_tokens p.now) }
    ensures items { table.new.items.now ≡ table.old.items.now }
{
    type_names(table, &p.kind);
    match &p.name {
        Some(_) => table.push(OTHER),
        None => {}
    }
}

/// Adds the names that parameters declare.
#[tactic(auto, using(crate::proofs::Lengths::of_lengths))]
fn each_parameter(table: &mut Table<'_>, all: &[Parameter])
    requires { table.old.next + length (joined (map parameter_tokens all.now)) ≤ 131073 }
    ensures names { names_in table.new ≡ names_in table.old ++ in_turn (map spec.parameter_names all.now) }
    ensures next { table.new.next ≤ table.old.next + length (joined (map parameter_tokens all.now)) }
    ensures items { table.new.items.now ≡ table.old.items.now }
{
    for p in all {
        parameter_names(table, p);
    }
}

/// Adds the names that stand in the brackets of a head.
#[tactic(auto, using(crate::proofs::Lengths::of_lengths))]
fn parameters_names(table: &mut Table<'_>, all: &Parameters)
    requires { table.old.next + length (parameters_tokens all.now) ≤ 131073 }
    ensures names { names_in table.new ≡ names_in table.old ++ in_turn (map spec.parameter_names (listed all.now)) }
    ensures next { table.new.next ≤ table.old.next + length (parameters_tokens all.now) }
    ensures items { table.new.items.now ≡ table.old.items.now }
{
    match all {
        Parameters::Void => {}
        Parameters::Listed(all) => each_parameter(table, all.as_slice()),
    }
}

/// Adds the names that a head declares, where this is the entry of its function.
#[tactic(auto, using(crate::proofs::Lengths::of_lengths))]
pub(crate) fn head_names(table: &mut Table<'_>, h: &Head, entry: u32)
    requires { table.old.next + length (head_tokens h.now) ≤ 131073 }
    ensures names { names_in table.new ≡ names_in table.old
        ++ (spec.type_names h.now.full_type.kind
        ++ (of_entry table.old.items.now entry ∷ in_turn (map spec.parameter_names (listed h.now.parameters)))) }
    ensures next { table.new.next ≤ table.old.next + length (head_tokens h.now) }
    ensures items { table.new.items.now ≡ table.old.items.now }
{
    type_names(table, &h.full_type.kind);
    table.push(entry);
    parameters_names(table, &h.parameters);
}

/// Adds this number of names with this entry.
fn repeated_names(table: &mut Table<'_>, count: usize, entry: u32)
    requires { table.old.next + count ≤ 131073 }
    ensures names { names_in table.new ≡ names_in table.old ++ replicate count (of_entry table.old.items.now entry) }
    ensures next { table.new.next ≡ table.old.next + count }
    ensures items { table.new.items.now ≡ table.old.items.now }
{
    for _ in 0..count {
        table.push(entry);
    }
}

/// The entry of the variables of a declaration, whose type has a sampler or not.
fn variable_entry(sampler: bool, full: &FullType) -> u32
    ensures { result ≡ variable_entry sampler full.now }
{
    match full.storage {
        Some(Storage::Uniform) if !sampler => UNIFORM,
        _ => OTHER,
    }
}

/// Adds the names that a declaration of variables declares, where this is the entry of each.
#[tactic(auto, using(crate::proofs::Lengths::of_lengths))]
fn variables_names(table: &mut Table<'_>, full: &FullType, all: &[Declarator], entry: u32)
    requires { table.old.next + length (variables_tokens full.now all.now) ≤ 131073 }
    ensures names { names_in table.new ≡ names_in table.old
        ++ (spec.type_names full.now.kind ++ replicate (length all.now) (of_entry table.old.items.now entry)) }
    ensures next { table.new.next ≤ table.old.next + length (variables_tokens full.now all.now) }
    ensures items { table.new.items.now ≡ table.old.items.now }
{
    type_names(table, &full.kind);
    repeated_names(table, all.len(), entry);
}

/// Adds the names that a declaration outside of functions declares: its type has a sampler or not, and this is the entry of
/// its function.
#[tactic(auto, using(crate::proofs::Lengths::of_lengths))]
pub(crate) fn declaration_names(table: &mut Table<'_>, d: &Decl, sampler: bool, entry: u32)
    requires room { table.old.next + length (declaration_tokens d.now) ≤ 131073 }
    requires function { of_entry table.old.items.now entry ≡ Some (Function (declared_parameters d.now)) }
    ensures names { names_in table.new ≡ names_in table.old ++ spec.declaration_names sampler d.now }
    ensures next { table.new.next ≤ table.old.next + length (declaration_tokens d.now) }
    ensures items { table.new.items.now ≡ table.old.items.now }
    ensures some { 1 ≤ length (declaration_tokens d.now) }
{
    match d {
        Decl::Prototype(h) => head_names(table, h, entry),
        Decl::Precision { kind, .. } => type_names(table, kind),
        Decl::Invariant { .. } => {}
        Decl::Variables {
            full_type,
            declarators,
        } => {
            let entry = variable_entry(sampler, full_type);
            variables_names(table, full_type, declarators.as_slice(), entry);
        }
    }
}

/// Adds the names that a declaration inside a function declares.
#[tactic(auto, using(crate::proofs::Lengths::of_lengths))]
pub(crate) fn local_names(table: &mut Table<'_>, d: &Decl)
    requires { table.old.next + length (declaration_tokens d.now) ≤ 131073 }
    ensures names { names_in table.new ≡ names_in table.old ++ spec.local_names d.now }
    ensures next { table.new.next ≤ table.old.next + length (declaration_tokens d.now) }
    ensures items { table.new.items.now ≡ table.old.items.now }
{
    match d {
        Decl::Prototype(h) => head_names(table, h, OTHER),
        Decl::Precision { kind, .. } => type_names(table, kind),
        Decl::Invariant { .. } => {}
        Decl::Variables {
            full_type,
            declarators,
        } => variables_names(table, full_type, declarators.as_slice(), OTHER),
    }
}
