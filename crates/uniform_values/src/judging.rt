ghost use Rattle.std.specs.Prelude.{◌≡◌, ◌%◌, ◌/◌, ◌<◌, OnOk, Some, length};
ghost use Rattle.std.specs.List.{list_any};
ghost use Rattle.gl_numbers.specs.Refusals.{Judged};
ghost use Rattle.glsl_types.specs.Bases.{components};
ghost use Rattle.uniform_values.specs.Layout.{width};
ghost use Rattle.uniform_values.specs.Rules.{is_no_unit, set_rules};

use crate::kinds::fits;
use crate::slots::Slot;
use crate::tails::Tail32;
use gl_numbers::{COMBINED_TEXTURE_UNITS_MAX, GlError};
use glsl_types::Base;

/// Whether a uniform call on this slot may be done.
pub(crate) fn judge(
    slot: Slot,
    given: Base,
    transpose: bool,
    words: &Tail32<'_>,
) -> Result<(), GlError>
    requires { 0 < components given }
    ensures judged { Judged (set_rules (Some slot) (Some given) transpose words.now) result }
    ensures size { OnOk result (components given ≡ width slot.base) }
{
    let size = given.components() as usize;
    if words.len() == 0 || words.len() % size != 0 {
        return Err(GlError::Value);
    }
    if transpose && given.columns() != 0 {
        return Err(GlError::Value);
    }
    if !fits(slot.base, given) {
        return Err(GlError::Operation);
    }
    if !slot.array && words.len() / size > 1 {
        return Err(GlError::Operation);
    }
    if slot.base.is_sampler() && names_no_unit(words) {
        return Err(GlError::Value);
    }
    Ok(())
}

/// Whether one of the words is the number of no texture unit.
fn names_no_unit(words: &Tail32<'_>) -> bool
    ensures { result ≡ list_any is_no_unit words.now }
{
    for i in 0..words.len() {
        if words.word(i) >= COMBINED_TEXTURE_UNITS_MAX {
            return true;
        }
    }
    false
}
