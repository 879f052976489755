ghost use Rattle.std.specs.Prelude.{◌≡◌, ◌<◌, IfOk, OnErr, OnOk, IsSome, length, slice_get};
ghost use Rattle.gl_numbers.specs.Refusals.{Judged};
ghost use Rattle.uniform_values.specs.Kinds.{kind_type};
ghost use Rattle.uniform_values.specs.Layout.{slots_of};
ghost use Rattle.uniform_values.specs.Rules.{set_rules};
ghost use Rattle.uniform_values.specs.Uniforms.{first_waiting, new_uniforms, taken, with_values, words_of_slot};
ghost use Rattle.program_link.specs.Linked.{uniform_kinds};

use crate::executable::Executable;
use gl_numbers::{GlError, Memory, Words};
use std::alloc::Global;
use std::marker::Model;
use uniform_values::{Tail32, Values as Uniforms};

/// The values of the uniforms of an executable (OpenGL ES 2.0 section 2.10.4), seen as the plain record `Uniforms`.
#[derive(Drop)]
pub struct Values {
    uniforms: Uniforms,
}

impl Model for Values {
    ghost use Rattle.uniform_values.specs.Uniforms.{Uniforms as Plain};

    ghost Value = { Plain };

    ghost view = { λ v. v.uniforms };
}

impl Values {
    /// The values that a link leaves: all words are 0, and no slot waits. Err only where memory runs out.
    pub fn make(alloc: Global, exe: &Executable) -> Result<Values, Memory>
        ensures { IfOk result (λ values. values ≡ new_uniforms (uniform_kinds exe.now)) }
    {
        let uniforms = Uniforms::make(alloc, exe.kinds())?;
        Ok(Values { uniforms })
    }

    /// How many slots there are.
    pub fn len(&self) -> u32
        ensures { result ≡ length self.now.slots }
    {
        self.uniforms.len()
    }

    /// Gives a slot of the executable, and those that follow it in its array, the values of the words, of the type that the kind
    /// names (uniform1f to uniform4iv, uniformMatrix2fv to uniformMatrix4fv, OpenGL ES 2.0 section 2.10.4, WebGL 1.0 section
    /// 5.14.10). Words past the end of the array are dropped. By the first that applies: Value where there is no word or no
    /// whole number of values; Value where a matrix is to be transposed; Operation where the uniform can't have values of this
    /// type; Operation where there is more than one value and the uniform is no array; Value where a sampler is given a texture
    /// unit from 20 on, also by a word that would be dropped. Then nothing changes.
    pub fn set(
        &mut self,
        exe: &Executable,
        slot: u32,
        kind: u32,
        transpose: bool,
        words: Tail32<'_>,
    ) -> Result<(), GlError>
        requires made { self.old.slots ≡ slots_of (uniform_kinds exe.now) }
        requires slot { slot < length self.old.slots }
        requires kind { IsSome (kind_type kind) }
        ensures judged { Judged (set_rules (slice_get self.old.slots slot) (kind_type kind) transpose words.entry) result }
        ensures ok { OnOk result (self.new ≡ with_values slot (slice_get self.old.slots slot) (kind_type kind) words.entry self.old) }
        ensures err { OnErr result (self.new ≡ self.old) }
    {
        let _ = exe;
        self.uniforms.set(slot, kind, transpose, &words)
    }

    /// The words of a slot of the executable, from 1 to 16 (getUniform, OpenGL ES 2.0 section 6.1.8): of booleans 0 and 1, of a
    /// sampler the number of its texture unit.
    pub fn get(&self, exe: &Executable, slot: u32) -> Words
        requires made { self.now.slots ≡ slots_of (uniform_kinds exe.now) }
        requires slot { slot < length self.now.slots }
        ensures { result ≡ words_of_slot (slice_get self.now.slots slot) self.now.words }
    {
        let _ = exe;
        self.uniforms.get(slot)
    }

    /// The first slot that was set, also to the words that it had, since it was last returned here; None where there is none.
    pub fn next_dirty(&mut self) -> Option<u32>
        ensures value { result ≡ first_waiting self.old }
        ensures after { self.new ≡ taken (first_waiting self.old) self.old }
    {
        self.uniforms.next_dirty()
    }
}
