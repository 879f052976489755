ghost use Rattle.std.specs.Prelude.{◌≡◌, ◌++◌, Some, IfOk, OnOk};
ghost use Rattle.program_link.specs.Places.{place_of_name};
ghost use Rattle.program_link.specs.SameTypes.{structure_of};
ghost use Rattle.program_link.specs.Shapes.{AreNumbered, Keeps, Numbering, Tell, field_words, name_words, precision_word, same_by_numbers, shape, structure_word};

use crate::flattening::{number_at, structure_of};
use crate::type_words::type_word;
use glsl_types::{Base, Field, Precision, SlType, Struct};
use indexmap::IndexMap;
use std::alloc::{AllocError, Global};

/// A number for each structure of two shaders: two structures are one exactly where they have one number.
#[derive(Drop)]
pub(crate) struct Shapes {
    vertex: Vec<u64>,
    fragment: Vec<u64>,
}

impl Shapes {
    /// The numbers of the structures of a vertex and of a fragment shader, in time linear in their fields.
    #[tactic(auto, using(crate::proofs::Telling::of_tell))]
    pub(crate) fn of(
        alloc: Global,
        vertex: &[Struct],
        fragment: &[Struct],
    ) -> Result<Shapes, AllocError>
        ensures { IfOk result (λ s. Tell s.vertex.items s.fragment.items vertex.now fragment.now) }
    {
        let mut shapes = IndexMap::new(alloc);
        let vertex = numbers(alloc, vertex, &mut shapes)?;
        let fragment = numbers(alloc, fragment, &mut shapes)?;
        Ok(Shapes { vertex, fragment })
    }

    /// Whether a type of the vertex shader and one of the fragment shader are one.
    #[tactic(auto, unfolding(crate::specs::Shapes::same_by_numbers))]
    pub(crate) fn are_same(&self, vertex: SlType, fragment: SlType) -> bool
        ensures { result ≡ same_by_numbers self.now.vertex.items self.now.fragment.items vertex fragment }
    {
        let same = match (vertex.base, fragment.base) {
            (Base::Struct(a), Base::Struct(b)) => {
                number_at(&self.vertex, a) == number_at(&self.fragment, b)
            }
            (a, b) => a.is_same(b),
        };
        vertex.array == fragment.array && same
    }
}

/// The number of the shape of each structure, among those that are there and new ones.
#[tactic(auto, using(crate::proofs::Numbers::of_numbers))]
fn numbers(
    alloc: Global,
    structs: &[Struct],
    shapes: &mut IndexMap<Vec<u64>, u64>,
) -> Result<Vec<u64>, AllocError>
    requires { Numbering shapes.old.entries }
    ensures numbering { OnOk result (Numbering shapes.new.entries) }
    ensures kept { OnOk result (Keeps shapes.old.entries shapes.new.entries) }
    ensures numbered { IfOk result (λ numbers. AreNumbered shapes.new.entries structs.now numbers.items) }
{
    let mut numbers = Vec::with_capacity(alloc, structs.len())?;
    for structure in structs {
        let words = shape_of(alloc, structure, &numbers)?;
        let number = number_in(shapes, words)?;
        numbers.push(number)?;
    }
    Ok(numbers)
}

/// The number of a shape, its own or the next.
#[tactic(auto, using(crate::proofs::Numbers::of_number))]
fn number_in(shapes: &mut IndexMap<Vec<u64>, u64>, words: Vec<u64>) -> Result<u64, AllocError>
    requires { Numbering shapes.old.entries }
    ensures numbering { OnOk result (Numbering shapes.new.entries) }
    ensures kept { OnOk result (Keeps shapes.old.entries shapes.new.entries) }
    ensures number { IfOk result (λ n. place_of_name shapes.new.entries words.items ≡ Some n) }
{
    if let Some(number) = shapes.get(words.as_slice()) {
        return Ok(*number);
    }
    let number = shapes.len() as u64 + 1;
    let _ = shapes.insert(words, number)?;
    Ok(number)
}

/// The shape of a structure: its name, and of each field name, precision and type, with structures by their numbers. Lengths
/// stand before names, so that no two structures have the same words.
#[tactic(auto, using(crate::proofs::Words::of_shape))]
fn shape_of(alloc: Global, structure: &Struct, numbers: &[u64]) -> Result<Vec<u64>, AllocError>
    ensures { IfOk result (λ words. words.items ≡ shape numbers.now structure.now) }
{
    let mut words = Vec::new(alloc);
    add_name(&mut words, structure.name.as_slice())?;
    for field in structure.fields.as_slice() {
        add_field(&mut words, field, numbers)?;
    }
    Ok(words)
}

/// Adds a field to a shape.
#[tactic(auto, using(crate::proofs::Words::of_field))]
fn add_field(words: &mut Vec<u64>, field: &Field, numbers: &[u64]) -> Result<(), AllocError>
    ensures { OnOk result (words.new.items ≡ words.old.items ++ field_words numbers.now field.now) }
{
    add_name(words, field.name.as_slice())?;
    words.push(precision_word(field.precision))?;
    words.push(u64::from(field.kind.array))?;
    words.push(u64::from(type_word(field.kind.base)))?;
    let number = structure_word(field.kind.base, numbers);
    words.push(number)?;
    Ok(())
}

/// Adds a name to a shape, with its length before it.
#[tactic(auto, using(crate::proofs::Words::of_name))]
fn add_name(words: &mut Vec<u64>, name: &[u8]) -> Result<(), AllocError>
    ensures { OnOk result (words.new.items ≡ words.old.items ++ name_words name.now) }
{
    words.push(name.len() as u64)?;
    for byte in name {
        words.push(u64::from(*byte))?;
    }
    Ok(())
}

/// The number of a structure's shape; 0 of what is no structure.
fn structure_word(base: Base, numbers: &[u64]) -> u64
    ensures { result ≡ structure_word numbers.now (structure_of base) }
{
    match structure_of(base) {
        Some(structure) => number_at(numbers, structure),
        None => 0,
    }
}

/// A word for each precision.
fn precision_word(precision: Precision) -> u64
    ensures { result ≡ precision_word precision }
{
    match precision {
        Precision::Unset => 0,
        Precision::Low => 1,
        Precision::Medium => 2,
        Precision::High => 3,
    }
}
