ghost use Rattle.std.specs.Prelude.{◌≡◌, map};
ghost use Rattle.call_records.specs.declared.replies.Value.TheVariants as Value;
ghost use Rattle.gl_context.specs.Row.{number_of_truth};
ghost use Rattle.gl_context.specs.Deeds.{value_in};
ghost use Rattle.gl_context.specs.ParameterValues.{raster_value, word_of};

use crate::deed::Told;
use crate::values::{number_of_truth, truth};
use gl_numbers::RasterParameter;
use raster_state::RasterWords;

/// The word of the same 32 bits as a number with a sign.
#[tactic(auto, unfolding(crate::specs::ParameterValues::word_of))]
#[inline(always)]
fn word_of(number: i32) -> u32
    ensures { result ≡ word_of number }
{
    number.cast_unsigned()
}

/// Four numbers with a sign, each as the word of the same bits.
fn signed_list(numbers: [i32; 4]) -> Told
    ensures { value_in result ≡ Value.List (map word_of numbers) }
{
    let [x, y, width, height] = numbers;
    Told::Four([word_of(x), word_of(y), word_of(width), word_of(height)])
}

/// Four truth values, each as 1 or 0.
fn truth_list(truths: [bool; 4]) -> Told
    ensures { value_in result ≡ Value.List (map number_of_truth truths) }
{
    let [red, green, blue, alpha] = truths;
    Told::Four([
        number_of_truth(red),
        number_of_truth(green),
        number_of_truth(blue),
        number_of_truth(alpha),
    ])
}

/// Raster state as getParameter returns it (OpenGL ES 2.0 section 6.2).
#[inline(always)]
pub(crate) fn raster_value(parameter: RasterParameter, raster: &RasterWords) -> Told
    ensures { value_in result ≡ raster_value parameter raster.now }
{
    match parameter {
        RasterParameter::CullSide => Told::Number(raster.cull_side),
        RasterParameter::Winding => Told::Number(raster.winding),
        RasterParameter::DepthMask => truth(raster.depth_mask),
        RasterParameter::DepthFunc => Told::Number(raster.depth_func),
        RasterParameter::ClearStencil => Told::Number(word_of(raster.clear_stencil)),
        RasterParameter::Viewport => signed_list(raster.viewport),
        RasterParameter::Scissor => signed_list(raster.scissor),
        RasterParameter::ClearColor => Told::Four(raster.clear_color),
        RasterParameter::ColorMask => truth_list(raster.color_mask),
        RasterParameter::BlendColor => Told::Four(raster.blend_color),
    }
}
