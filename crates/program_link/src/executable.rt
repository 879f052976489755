ghost use Rattle.std.specs.Prelude.{◌≡◌, ◌≤◌, ◌+◌, ◌++◌, ◌↔◌, All, IfOk, IfSome, IsSome, List, OnOk, ℕ, length, map, slice_get};
ghost use Rattle.std.specs.List.{flat_map};
ghost use Rattle.std.specs.Option.{option_map};
ghost use Rattle.program_link.specs.Flattening.{full_name};
ghost use Rattle.uniform_values.specs.Layout.{elements, slot_count, slots_max};
ghost use Rattle.program_link.specs.Linked.{location_of_name, slot_names, slot_of_name, told_attribute, told_uniform, uniform_kinds};
ghost use Rattle.program_link.specs.Places.{HasNumbers};
ghost use Rattle.program_link.specs.Rules.{name_bytes_max};

use crate::active::{Active, Attribute, Uniform};
use crate::items::add_name;
use crate::names::element_name;
use crate::type_words::type_word;
use gl_numbers::Name;
use glsl_types::SlType;
use indexmap::IndexMap;
use std::alloc::{AllocError, Global};
use std::marker::Model;
use uniform_values::elements;

/// What a link made, seen as the plain record `Linked`: its active attributes with their locations, and its active uniforms with
/// their slots.
#[derive(Drop)]
pub struct Executable {
    attributes: Vec<Attribute>,
    locations: IndexMap<Vec<u8>, u32>,
    uniforms: Vec<Uniform>,
    slots: IndexMap<Vec<u8>, u32>,
    kinds: Vec<SlType>,
}

impl Model for Executable {
    ghost use Rattle.program_link.specs.Linked.{Linked};

    ghost Value = { Linked };

    ghost use Rattle.program_link.specs.Told.{IsTold};

    ghost view = { λ e. record { attributes = e.attributes.items; uniforms = e.uniforms.items } };

    ghost invariant = { λ e. IsTold e.attributes.items e.locations.entries e.uniforms.items e.slots.entries e.kinds.items };
}

impl Executable {
    /// An executable with these attributes and uniforms.
    pub(crate) fn make(
        alloc: Global,
        attributes: Vec<Attribute>,
        uniforms: Vec<Uniform>,
    ) -> Result<Executable, AllocError>
        requires attributes { All (λ a. length a.name ≤ name_bytes_max) attributes.items }
        requires uniforms { All (λ u. length (full_name u.name u.kind) ≤ name_bytes_max) uniforms.items }
        requires slots { All (λ u. u.first + elements u.kind ≤ 65536) uniforms.items }
        requires few { slot_count (map (λ u. u.kind) uniforms.items) ≤ slots_max }
        ensures { IfOk result (λ e. e ≡ record { attributes = attributes.items; uniforms = uniforms.items }) }
    {
        let locations = locations_of(alloc, &attributes)?;
        let slots = slots_of(alloc, &uniforms)?;
        let kinds = kinds_of(alloc, &uniforms)?;
        Ok(Executable {
            attributes,
            locations,
            uniforms,
            slots,
            kinds,
        })
    }

    /// The location of an attribute (getAttribLocation, OpenGL ES 2.0 section 2.10.4); None exactly where no active attribute has
    /// the name.
    pub fn attribute(&self, name: &[u8]) -> Option<u32>
        ensures { result ≡ location_of_name self.now name.now }
    {
        self.locations.get(name).copied()
    }

    /// The slot of a uniform or of an element of an array (getUniformLocation, OpenGL ES 2.0 section 2.10.4): `a` and `a[0]` name
    /// the first element of an array, `a[k]` the element at k, in decimal without a sign or leading zeros. None exactly where no
    /// active uniform has the name.
    pub fn uniform(&self, name: &[u8]) -> Option<u32>
        ensures { result ≡ slot_of_name self.now name.now }
    {
        self.slots.get(name).copied()
    }

    /// An active attribute by its place from 0 (getActiveAttrib, OpenGL ES 2.0 section 2.10.4); None exactly from their number on.
    pub fn active_attribute(&self, i: u32) -> Option<Active>
        ensures { result ≡ option_map told_attribute (slice_get self.now.attributes i) }
    {
        let Some(attribute) = self.attributes.get(i as usize) else {
            return None;
        };
        let Some(name) = Name::new(attribute.name.as_slice()) else {
            return None;
        };
        Some(Active {
            name,
            size: 1,
            kind: type_word(attribute.base),
            first: attribute.location,
        })
    }

    /// An active uniform by its place from 0 (getActiveUniform, OpenGL ES 2.0 section 2.10.4); None exactly from their number on.
    pub fn active_uniform(&self, i: u32) -> Option<Active>
        ensures { result ≡ option_map told_uniform (slice_get self.now.uniforms i) }
    {
        let Some(uniform) = self.uniforms.get(i as usize) else {
            return None;
        };
        let Some(name) = full_name(uniform.name.as_slice(), uniform.kind) else {
            return None;
        };
        Some(Active {
            name,
            size: elements(uniform.kind),
            kind: type_word(uniform.kind.base),
            first: uniform.first,
        })
    }

    /// The types of the active uniforms, in the order of their slots.
    pub fn kinds(&self) -> &[SlType]
        ensures kinds { result.now ≡ uniform_kinds self.now }
        ensures few { slot_count result.now ≤ slots_max }
    {
        self.kinds.as_slice()
    }
}

/// The locations of attributes by their names.
#[tactic(auto, using(crate::proofs::ByBytes::of_pairs))]
fn locations_of(
    alloc: Global,
    attributes: &[Attribute],
) -> Result<IndexMap<Vec<u8>, u32>, AllocError>
    ensures { IfOk result (λ found. HasNumbers found.entries (map (λ a. (a.name, a.location)) attributes.now)) }
{
    let mut locations = IndexMap::new(alloc);
    for attribute in attributes {
        let name = attribute.name.as_slice();
        add_name(alloc, &mut locations, name, attribute.location)?;
    }
    Ok(locations)
}

/// The slots of uniforms by their names.
#[tactic(auto, using(crate::proofs::ByBytes::of_slots))]
fn slots_of(alloc: Global, uniforms: &[Uniform]) -> Result<IndexMap<Vec<u8>, u32>, AllocError>
    requires { All (λ u. u.first + elements u.kind ≤ 65536) uniforms.now }
    ensures { IfOk result (λ found. HasNumbers found.entries (flat_map slot_names uniforms.now)) }
{
    let mut slots = IndexMap::new(alloc);
    for uniform in uniforms {
        add_slots(alloc, &mut slots, uniform)?;
    }
    Ok(slots)
}

/// Adds the names of a uniform's slots, each if it has none.
#[tactic(auto, using(crate::proofs::ByBytes::of_elements))]
fn add_slots(
    alloc: Global,
    slots: &mut IndexMap<Vec<u8>, u32>,
    uniform: &Uniform,
) -> Result<(), AllocError>
    requires { uniform.now.first + elements uniform.now.kind ≤ 65536 }
    ensures { OnOk result ((pairs : List (List ℕ × ℕ)) → HasNumbers slots.old.entries pairs
        → HasNumbers slots.new.entries (pairs ++ slot_names uniform.now)) }
{
    let name = uniform.name.as_slice();
    add_name(alloc, slots, name, uniform.first)?;
    for place in 0..uniform.kind.array {
        let element = element_name(alloc, name, place)?;
        add_name(alloc, slots, element.as_slice(), uniform.first + place)?;
    }
    Ok(())
}

/// The types of uniforms.
fn kinds_of(alloc: Global, uniforms: &[Uniform]) -> Result<Vec<SlType>, AllocError>
    ensures { IfOk result (λ kinds. kinds.items ≡ map (λ u. u.kind) uniforms.now) }
{
    uniforms.iter().map(|uniform| uniform.kind).collect(alloc)
}

/// The full name of a uniform, which ends in `[0]` where it is an array; None where it has over 256 bytes.
fn full_name(name: &[u8], kind: SlType) -> Option<Name>
    ensures fits { IsSome result ↔ (length (full_name name.now kind) ≤ name_bytes_max) }
    ensures value { IfSome result (λ full. full ≡ full_name name.now kind) }
{
    if kind.array == 0 {
        return Name::new(name);
    }
    if name.len() > 253 {
        return None;
    }
    let mut bytes = [0u8; 256];
    bytes[..name.len()].copy_from_slice(name);
    bytes[name.len()..name.len() + 3].copy_from_slice(b"[0]");
    Name::new(&bytes[..name.len() + 3])
}
