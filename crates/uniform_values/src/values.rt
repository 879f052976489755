ghost use Rattle.std.specs.Prelude.{◌≡◌, ◌≤◌, ◌<◌, ◌*◌, ◌+◌, ℕ, true, false, IfNone, IfOk, OnOk, OnErr, IfSome, IsSome, Some, length, map, replicate, slice_get, slice_index_or, take};
ghost use Rattle.std.specs.List.{position};
ghost use Rattle.gl_numbers.specs.Refusals.{Judged};
ghost use Rattle.uniform_values.specs.Kinds.{kept, kind_type};
ghost use Rattle.uniform_values.specs.Layout.{slot_count, slots_max};
ghost use Rattle.uniform_values.specs.Rules.{set_rules};
ghost use Rattle.uniform_values.specs.Sound.{LiesWithin, WaitsWithin};
ghost use Rattle.uniform_values.specs.Uniforms.{first_waiting, new_uniforms, replaced_from, taken, with_values, words_of_slot};

use crate::judging::judge;
use crate::kinds::{kept, kind_type};
use crate::slots::{Slot, lay_out, width, word_count};
use crate::tails::Tail32;
use gl_numbers::{GlError, Memory, Words};
use glsl_types::{Base, SlType};
use std::alloc::Global;
use std::marker::Model;

/// The values of the uniforms of an executable, seen as the plain record `Uniforms`.
#[derive(Drop)]
pub struct Values {
    slots: Vec<Slot>,
    words: Vec<u32>,
    waiting: Vec<bool>,
    /// No slot before this one waits.
    first: usize,
    /// No slot from this one on waits.
    end: usize,
}

impl Model for Values {
    ghost use Rattle.uniform_values.specs.Uniforms.{Uniforms};

    ghost Value = { Uniforms };

    ghost use Rattle.uniform_values.specs.Sound.{IsSound};

    ghost view = { λ v. record { slots = v.slots.items; words = v.words.items; waiting = v.waiting.items } };

    ghost invariant = { λ v. IsSound v.slots.items v.words.items v.waiting.items v.first v.end };
}

impl Values {
    /// The values that a link leaves to uniforms of these types, in the order of their slots: all words are 0, and no slot
    /// waits. Err only where memory runs out.
    pub fn make(alloc: Global, kinds: &[SlType]) -> Result<Values, Memory>
        requires { slot_count kinds.now ≤ slots_max }
        ensures { IfOk result (λ values. values ≡ new_uniforms kinds.now) }
    {
        let Ok(slots) = lay_out(alloc, kinds) else {
            return Err(Memory);
        };
        let Ok(words) = vec![in alloc; 0u32; word_count(kinds)] else {
            return Err(Memory);
        };
        let Ok(waiting) = vec![in alloc; false; slots.len()] else {
            return Err(Memory);
        };
        Ok(Values {
            slots,
            words,
            waiting,
            first: 0,
            end: 0,
        })
    }

    /// How many slots there are.
    pub fn len(&self) -> u32
        ensures { result ≡ length self.now.slots }
    {
        self.slots.len() as u32
    }

    /// The slot of this number; None exactly from the number of slots on.
    pub fn slot(&self, number: u32) -> Option<Slot>
        ensures { result ≡ slice_get self.now.slots number }
    {
        self.slots.get(number as usize).copied()
    }

    /// The slot of a number that is one.
    fn slot_at(&self, number: u32) -> Slot
        requires { number < length self.now.slots }
        ensures value { slice_get self.now.slots number ≡ Some result }
        ensures within { LiesWithin number result (length self.now.slots) (length self.now.words) }
    {
        self.slots[number as usize]
    }

    /// Gives the slot of this number and those that follow it in its array the values of the words, of the type that the kind
    /// names (uniform1f to uniform4iv, uniformMatrix2fv to uniformMatrix4fv, OpenGL ES 2.0 section 2.10.4, WebGL 1.0 section
    /// 5.14.10). Words past the end of the array are dropped. By the first that applies: Value where there is no word or no
    /// whole number of values; Value where a matrix is to be transposed; Operation where the uniform can't have values of this
    /// type; Operation where there is more than one value and the uniform is no array; Value where a sampler is given a texture
    /// unit from 20 on, also by a word that would be dropped. Then nothing changes.
    pub fn set(
        &mut self,
        number: u32,
        kind: u32,
        transpose: bool,
        words: &Tail32<'_>,
    ) -> Result<(), GlError>
        requires slot { number < length self.old.slots }
        requires kind { IsSome (kind_type kind) }
        ensures judged { Judged (set_rules (slice_get self.old.slots number) (kind_type kind) transpose words.now) result }
        ensures ok { OnOk result (self.new ≡ with_values number (slice_get self.old.slots number) (kind_type kind) words.now self.old) }
        ensures err { OnErr result (self.new ≡ self.old) }
    {
        let Some(given) = kind_type(kind) else {
            unreachable!()
        };
        let slot = self.slot_at(number);
        let number = number as usize;
        judge(slot, given, transpose, words)?;
        let size = given.components() as usize;
        let count = (words.len() / size).min(slot.room as usize);
        let at = slot.at as usize;
        write(&mut self.words, at, count * size, slot.base, given, words);
        mark(&mut self.waiting, number, count);
        self.first = self.first.min(number);
        self.end = self.end.max(number + count);
        Ok(())
    }

    /// The words of the slot of this number, from 1 to 16 (getUniform, OpenGL ES 2.0 section 6.1.8): of booleans 0 and 1, of a
    /// sampler the number of its texture unit.
    pub fn get(&self, number: u32) -> Words
        requires { number < length self.now.slots }
        ensures { result ≡ words_of_slot (slice_get self.now.slots number) self.now.words }
    {
        let slot = self.slot_at(number);
        let at = slot.at as usize;
        match Words::new(&self.words[at..at + width(slot.base) as usize]) {
            Some(words) => words,
            None => unreachable!(),
        }
    }

    /// The first slot that was set, also to the words that it had, since it was last returned here; None where there is none.
    pub fn next_dirty(&mut self) -> Option<u32>
        ensures value { result ≡ first_waiting self.old }
        ensures after { self.new ≡ taken (first_waiting self.old) self.old }
    {
        match first_true(&self.waiting, self.first, self.end) {
            Some(number) => {
                self.waiting[number] = false;
                self.first = number + 1;
                Some(number as u32)
            }
            None => {
                self.first = self.end;
                None
            }
        }
    }
}

/// The first slot that waits, where those that do are from `first` to `end`.
fn first_true(waiting: &[bool], first: usize, end: usize) -> Option<usize>
    requires { WaitsWithin waiting.now first end }
    ensures value { result ≡ position (λ waits. waits) waiting.now }
    ensures within { IfSome result (λ number. (first ≤ number) × (number < end)) }
    ensures before { IfSome result (λ number. (k : ℕ) → k < number → slice_index_or waiting.now k false ≡ false) }
    ensures none { IfNone result ((k : ℕ) → slice_index_or waiting.now k false ≡ false) }
{
    for number in first..end {
        if waiting[number] {
            return Some(number);
        }
    }
    None
}

/// Writes from a place on the words that a uniform of the type `own` keeps of the first `n` of these, of values of the type
/// `given`.
fn write(words: &mut [u32], at: usize, n: usize, own: Base, given: Base, from: &Tail32<'_>)
    requires room { at + n ≤ length words.old }
    requires enough { n ≤ length from.now }
    ensures { words.new ≡ replaced_from at (map (kept own given) (take n from.now)) words.old }
{
    fill(&mut words[at..at + n], own, given, from);
}

/// Fills a part with the words that a uniform of the type `own` keeps of the first of these, of values of the type `given`.
fn fill(part: &mut [u32], own: Base, given: Base, from: &Tail32<'_>)
    requires { length part.old ≤ length from.now }
    ensures { part.new ≡ map (kept own given) (take (length part.old) from.now) }
{
    for (i, word) in part.iter_mut().enumerate() {
        *word = kept(own, given, from.word(i));
    }
}

/// Says that the slots of a part wait.
fn mark(waiting: &mut [bool], number: usize, count: usize)
    requires { number + count ≤ length waiting.old }
    ensures { waiting.new ≡ replaced_from number (replicate count true) waiting.old }
{
    waiting[number..number + count].fill(true);
}
