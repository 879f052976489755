ghost use Rattle.std.specs.Prelude.{◌≡◌, ◌<◌, [], false, map, length, if◌then◌else◌, slice_index_or};
ghost use Rattle.std.specs.List.{list_any};
ghost use Rattle.std.specs.Option.{option_map};
ghost use Rattle.appendix_a.specs.Names as spec;
ghost use Rattle.appendix_a.specs.Structures.{item_declares, samplers_from, structures_after, type_declares};

use glsl_tree::{Decl, Item, Member, TypeSpecifier};
use glsl_types::Base;

/// The declarations and functions before a place, and for each whether its type has a sampler.
#[derive(Clone, Copy)]
pub(crate) struct Before<'t> {
    /// The declarations and functions.
    pub items: &'t [Item],
    /// For each whether its type has a sampler.
    pub samplers: &'t [bool],
}

/// The type of a declaration, if it has one.
fn declared_type(d: &Decl) -> Option<&TypeSpecifier>
    ensures { option_map (λ t. t.now) result ≡ spec.declared_type d.now }
{
    match d {
        Decl::Prototype(head) => Some(&head.full_type.kind),
        Decl::Precision { kind, .. } => Some(kind),
        Decl::Invariant { .. } => None,
        Decl::Variables { full_type, .. } => Some(&full_type.kind),
    }
}

/// The type of a declaration or a function, if it has one.
fn item_type(item: &Item) -> Option<&TypeSpecifier>
    ensures { option_map (λ t. t.now) result ≡ spec.item_type item.now }
{
    match item {
        Item::Declaration(d) => declared_type(d),
        Item::Function { head, .. } => Some(&head.full_type.kind),
    }
}

/// Whether a type declares a structure of this name.
#[tactic(auto, unfolding(crate::specs::Names::structure_name))]
fn type_declares(kind: &TypeSpecifier, name: &[u8]) -> bool
    ensures { result ≡ type_declares name.now kind.now }
{
    match kind {
        TypeSpecifier::Struct {
            name: Some(own),
            ..
        } => own.as_slice() == name,
        _ => false,
    }
}

/// Whether a declaration or a function declares a structure of this name.
fn item_declares(item: &Item, name: &[u8]) -> bool
    ensures { result ≡ item_declares name.now item.now }
{
    match item_type(item) {
        Some(kind) => type_declares(kind, name),
        None => false,
    }
}

/// Whether the structure of a name has a sampler, as far as the item of this number: before it this was found.
#[tactic(auto, using(crate::proofs::StructureTurns::of_structures))]
fn found_so_far(before: &Before<'_>, n: usize, item: &Item, name: &[u8], found: bool) -> bool
    requires known { before.now.samplers.now ≡ samplers_from [] before.now.items.now }
    requires within { n < length before.now.items.now }
    ensures { result ≡ (if item_declares name.now item.now then slice_index_or before.now.samplers.now n false else found) }
{
    if item_declares(item, name) {
        before.samplers[n]
    } else {
        found
    }
}

/// Whether the last structure of this name has a sampler.
#[tactic(auto, using(crate::proofs::StructureTurns::of_structures))]
fn structure_has_sampler(before: &Before<'_>, name: &[u8]) -> bool
    requires { before.now.samplers.now ≡ samplers_from [] before.now.items.now }
    ensures { result ≡ spec.structure_sampler (structures_after [] before.now.items.now) name.now }
{
    let items = before.items;
    let mut found = false;
    for (n, item) in items.iter().enumerate() {
        found = found_so_far(before, n, item, name, found);
    }
    found
}

/// Whether a type has a sampler.
#[cycle(sampler)]
#[tactic(auto, unfolding(crate::specs::Names::has_sampler, crate::specs::Names::member_has_sampler))]
fn has_sampler(before: &Before<'_>, kind: &TypeSpecifier) -> bool
    requires { before.now.samplers.now ≡ samplers_from [] before.now.items.now }
    ensures { result ≡ spec.has_sampler (structures_after [] before.now.items.now) kind.now }
{
    match kind {
        TypeSpecifier::Basic(basic) => Base::named(*basic).is_sampler(),
        TypeSpecifier::Void => false,
        TypeSpecifier::Name(name) => structure_has_sampler(before, name.as_slice()),
        TypeSpecifier::Struct { members, .. } => any_has_sampler(before, members.as_slice()),
    }
}

/// Whether a line of members has a sampler.
#[cycle(sampler)]
#[tactic(auto, unfolding(crate::specs::Names::has_sampler, crate::specs::Names::member_has_sampler))]
fn any_has_sampler(before: &Before<'_>, members: &[Member]) -> bool
    requires { before.now.samplers.now ≡ samplers_from [] before.now.items.now }
    ensures { result ≡ list_any (λ has. has) (map (spec.member_has_sampler (structures_after [] before.now.items.now)) members.now) }
{
    for line in members {
        if has_sampler(before, &line.kind) {
            return true;
        }
    }
    false
}

/// Whether the type of a declaration or a function has a sampler.
pub(crate) fn item_has_sampler(before: &Before<'_>, item: &Item) -> bool
    requires { before.now.samplers.now ≡ samplers_from [] before.now.items.now }
    ensures { result ≡ spec.item_sampler (structures_after [] before.now.items.now) item.now }
{
    match item_type(item) {
        Some(kind) => has_sampler(before, kind),
        None => false,
    }
}
