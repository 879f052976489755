ghost use Rattle.std.specs.Prelude.{◌≡◌};
ghost use Rattle.call_records.specs.declared.replies.Value.TheVariants as Value;
ghost use Rattle.gl_context.specs.Row.{number_of_truth};
ghost use Rattle.gl_context.specs.Deeds.{value_in};

use crate::deed::Told;

/// 1 for what is so, 0 for what isn't.
#[inline(always)]
pub(crate) fn number_of_truth(truth: bool) -> u32
    ensures { result ≡ number_of_truth truth }
{
    if truth { 1 } else { 0 }
}

/// The same as a value.
#[inline(always)]
pub(crate) fn truth(truth: bool) -> Told
    ensures { value_in result ≡ Value.Number (number_of_truth truth) }
{
    Told::Number(number_of_truth(truth))
}
