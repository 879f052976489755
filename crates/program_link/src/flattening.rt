ghost use Rattle.std.specs.Prelude.{◌≡◌, ◌≤◌, ◌<◌, ◌+◌, ◌++◌, ◌∷◌, ◌*◌, ◌^◌, IfOk, OnOk, map, min, reverse, take};
ghost use Rattle.std.specs.List.{sum_by};
ghost use Rattle.program_link.specs.Counted.{counted, number_at};
ghost use Rattle.program_link.specs.Flattening.{element_count, fields_of, flattened};
ghost use Rattle.program_link.specs.Kept.{kept_leaf};
ghost use Rattle.program_link.specs.SameTypes.{structure_at, structure_of};
ghost use Rattle.program_link.specs.Standing.{entries, entry, standing, weight};

use crate::leaves::Leaf;
use crate::names::KeptName;
use glsl_types::{Base, Field, Item, SlType, Struct};
use std::alloc::{AllocError, Global};
use std::marker::Model;
use uniform_values::elements;

/// The most elements that are counted; a count that stands here may be of more.
pub(crate) const ELEMENTS_COUNTED: u64 = 65_536;

/// A uniform that is still to be flattened, with the number of structures that its type is declared after.
#[derive(Drop)]
struct Pending {
    name: KeptName,
    kind: SlType,
    seen: usize,
}

/// The structures of a shader, with the number of elements that each stands for.
#[derive(Drop)]
pub(crate) struct Structures<'a> {
    structs: &'a [Struct],
    counts: Vec<u64>,
}

impl<'a> Model for Structures<'a> {
    ghost use Rattle.std.specs.Prelude.{List};
    ghost use Rattle.glsl_types.specs.declared.types.Struct.{Struct};
    ghost use Rattle.program_link.specs.Counted.{AreCounted};

    ghost Value = { List Struct };

    ghost view = { λ s. s.structs.now };

    ghost invariant = { λ s. AreCounted s.structs.now s.counts.items };
}

impl<'a> Structures<'a> {
    /// These structures; the elements of each are counted once, in time linear in their fields.
    #[tactic(auto, using(crate::proofs::Counting::of_structures))]
    pub(crate) fn of(alloc: Global, structs: &'a [Struct]) -> Result<Structures<'a>, AllocError>
        ensures { IfOk result (λ s. s ≡ structs.now) }
    {
        let mut counts = Vec::with_capacity(alloc, structs.len())?;
        for structure in structs {
            let count = count_fields(structure.fields.as_slice(), &counts);
            counts.push(count)?;
        }
        Ok(Structures { structs, counts })
    }

    /// How many elements uniforms of a type stand for, as far as they are counted.
    #[tactic(auto, using(crate::proofs::Counting::of_counts))]
    pub(crate) fn count(&self, kind: SlType) -> u64
        ensures { result ≡ min 65536 (element_count self.now kind) }
    {
        count(kind, &self.counts)
    }

    /// The fields of a structure by its number, if it is among the first so many.
    #[tactic(auto, using(crate::proofs::Deep::of_fronts))]
    fn fields(&self, number: u32, seen: usize) -> &[Field]
        ensures { result.now ≡ fields_of (structure_at (take seen self.now) number) }
    {
        let Some(place) = number.checked_sub(1) else {
            return &[];
        };
        let place = place as usize;
        match self.structs.get(place) {
            Some(structure) if place < seen => structure.fields.as_slice(),
            _ => &[],
        }
    }

    /// Adds what a uniform stands for. It takes each structure of it apart in turn, so the depth of structures costs no stack.
    #[tactic(auto, using(crate::proofs::Taking::of_loop))]
    pub(crate) fn flatten(
        &self,
        alloc: Global,
        item: &Item,
        leaves: &mut Vec<Leaf>,
    ) -> Result<(), AllocError>
        ensures { OnOk result (leaves.new.items ≡ leaves.old.items ++ map kept_leaf (flattened self.now item.now.name item.now.kind)) }
    {
        let mut pending = Vec::new(alloc);
        let name = KeptName::of(alloc, item.name.as_slice())?;
        let seen = self.structs.len();
        pending.push(Pending {
            name,
            kind: item.kind,
            seen,
        })?;
        while let Some(top) = pending.pop() {
            self.take_apart(alloc, top, &mut pending, leaves)?;
        }
        Ok(())
    }

    /// Adds a uniform that is no structure, or puts the members of a structure on top of what is pending.
    #[tactic(auto, using(crate::proofs::Taking::of_turns))]
    fn take_apart(
        &self,
        alloc: Global,
        top: Pending,
        pending: &mut Vec<Pending>,
        leaves: &mut Vec<Leaf>,
    ) -> Result<(), AllocError>
        ensures stands { OnOk result (leaves.new.items ++ standing self.now (reverse pending.new.items)
            ≡ leaves.old.items ++ standing self.now (top ∷ reverse pending.old.items)) }
        ensures less { OnOk result (weight self.now (reverse pending.new.items) < weight self.now (top ∷ reverse pending.old.items)) }
    {
        let Pending { name, kind, seen } = top;
        match structure_of(kind.base) {
            Some(number) => {
                let fields = self.fields(number, seen);
                let seen = number.saturating_sub(1) as usize;
                add_members(alloc, name.as_slice(), kind.array, fields, seen, pending)?;
            }
            None => {
                let name = name.into_text();
                leaves.push(Leaf { name, kind })?;
            }
        }
        Ok(())
    }
}

/// The number of a structure, of a type that is one.
pub(crate) fn structure_of(base: Base) -> Option<u32>
    ensures { result ≡ structure_of base }
{
    match base {
        Base::Struct(number) => Some(number),
        _ => None,
    }
}

/// What a list has for a structure by its number from 1; 0 where it has nothing.
pub(crate) fn number_at(numbers: &[u64], structure: u32) -> u64
    ensures { result ≡ number_at numbers.now structure }
{
    match structure.checked_sub(1) {
        Some(place) => numbers.get(place as usize).copied().unwrap_or(0),
        None => 0,
    }
}

/// How many elements uniforms of a type stand for, where so many stand for each structure.
#[tactic(auto, unfolding(crate::specs::Counted::counted))]
fn count(kind: SlType, counts: &[u64]) -> u64
    ensures value { result ≡ counted counts.now kind }
    ensures within { result ≤ 65536 }
{
    let one = match structure_of(kind.base) {
        Some(number) => number_at(counts, number),
        None => 1,
    };
    times(elements(kind), one.min(ELEMENTS_COUNTED)).min(ELEMENTS_COUNTED)
}

/// The product of two numbers, the second a count.
fn times(array: u32, count: u64) -> u64
    requires { count ≤ 65536 }
    ensures { result ≡ array * count }
{
    u64::from(array) * count
}

/// How many elements fields stand for, as far as they are counted.
fn count_fields(fields: &[Field], counts: &[u64]) -> u64
    ensures { result ≡ min 65536 (sum_by (λ f. counted counts.now f.kind) fields.now) }
{
    let mut sum = 0;
    for field in fields {
        sum = (sum + count(field.kind, counts)).min(ELEMENTS_COUNTED);
    }
    sum
}

/// Puts the members of a structure, or of the elements of an array of them, on top of what is pending, the first uppermost.
#[tactic(auto, using(crate::proofs::Members::of_members))]
fn add_members(
    alloc: Global,
    name: &[u8],
    array: u32,
    fields: &[Field],
    seen: usize,
    pending: &mut Vec<Pending>,
) -> Result<(), AllocError>
    ensures members { OnOk result (reverse pending.new.items ≡ entries name.now array seen fields.now ++ reverse pending.old.items) }
    ensures range { array < 2 ^ 32 }
{
    if array == 0 {
        return add_fields(alloc, name, fields, seen, pending);
    }
    let mut place = array;
    while place > 0 {
        place -= 1;
        let element = KeptName::element(alloc, name, place)?;
        add_fields(alloc, element.as_slice(), fields, seen, pending)?;
    }
    Ok(())
}

/// Puts the members of a structure on top of what is pending, the first uppermost.
#[tactic(auto, using(crate::proofs::Members::of_fields))]
fn add_fields(
    alloc: Global,
    name: &[u8],
    fields: &[Field],
    seen: usize,
    pending: &mut Vec<Pending>,
) -> Result<(), AllocError>
    ensures { OnOk result (reverse pending.new.items ≡ map (entry name.now seen) fields.now ++ reverse pending.old.items) }
{
    let mut place = fields.len();
    while place > 0 {
        place -= 1;
        let field = &fields[place];
        let member = KeptName::member(alloc, name, field.name.as_slice())?;
        pending.push(Pending {
            name: member,
            kind: field.kind,
            seen,
        })?;
    }
    Ok(())
}
