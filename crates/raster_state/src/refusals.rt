ghost use Rattle.std.specs.Prelude.{◌≡◌, not, ◌∷◌, []};
ghost use Rattle.gl_numbers.specs.Refusals.{first_refusal, invalid_enum, when};
ghost use Rattle.raster_state.specs.Rules.{color_rules, depth_stencil_rules, factor_rules, operation_rules, raster_rules, view_rules};

use call_records::{ColorCall, DepthStencilCall, RasterCall, ViewCall};
use gl_numbers::{
    Capability, GlError, Side, is_blend_equation, is_comparison, is_constant_alpha,
    is_constant_color, is_destination_factor, is_source_factor, is_stencil_operation, is_winding,
};

/// The error of the first rule that refuses a call.
pub(crate) fn refusal(call: &RasterCall) -> Option<GlError>
    ensures { result ≡ first_refusal (raster_rules call.now) }
{
    match call {
        RasterCall::Color(call) => color_refusal(call),
        RasterCall::DepthStencil(call) => depth_stencil_refusal(call),
        RasterCall::View(call) => view_refusal(call),
    }
}

/// The same of a call about colours.
fn color_refusal(call: &ColorCall) -> Option<GlError>
    ensures { result ≡ first_refusal (color_rules call.now) }
{
    match call {
        ColorCall::BlendEquationSeparate { rgb, alpha } => {
            if !is_blend_equation(*rgb) || !is_blend_equation(*alpha) {
                return Some(GlError::Enum);
            }
            None
        }
        ColorCall::BlendFuncSeparate {
            src_rgb,
            dst_rgb,
            src_alpha,
            dst_alpha,
        } => factor_refusal(*src_rgb, *dst_rgb, *src_alpha, *dst_alpha),
        ColorCall::BlendColor { .. } => None,
        ColorCall::ColorMask { .. } => None,
        ColorCall::ClearColor { .. } => None,
    }
}

/// The same of blendFuncSeparate, by its factors.
fn factor_refusal(src_rgb: u32, dst_rgb: u32, src_alpha: u32, dst_alpha: u32) -> Option<GlError>
    ensures { result ≡ first_refusal (factor_rules src_rgb dst_rgb src_alpha dst_alpha) }
{
    if !is_source_factor(src_rgb) || !is_destination_factor(dst_rgb) {
        return Some(GlError::Enum);
    }
    if !is_source_factor(src_alpha) || !is_destination_factor(dst_alpha) {
        return Some(GlError::Enum);
    }
    if is_constant_color(src_rgb) && is_constant_alpha(dst_rgb) {
        return Some(GlError::Operation);
    }
    if is_constant_alpha(src_rgb) && is_constant_color(dst_rgb) {
        return Some(GlError::Operation);
    }
    None
}

/// The same of a call about depths and stencil values.
fn depth_stencil_refusal(call: &DepthStencilCall) -> Option<GlError>
    ensures { result ≡ first_refusal (depth_stencil_rules call.now) }
{
    match call {
        DepthStencilCall::DepthFunc(func) => unless_known(is_comparison(*func)),
        DepthStencilCall::StencilFuncSeparate { face, func, .. } => {
            if Side::from_u32(*face).is_none() || !is_comparison(*func) {
                return Some(GlError::Enum);
            }
            None
        }
        DepthStencilCall::StencilMaskSeparate { face, .. } => unless_known(Side::from_u32(
            *face,
        ).is_some()),
        DepthStencilCall::StencilOpSeparate {
            face,
            fail,
            depth_fail,
            depth_pass,
        } => operation_refusal(*face, *fail, *depth_fail, *depth_pass),
        DepthStencilCall::DepthMask(_) => None,
        DepthStencilCall::ClearStencil(_) => None,
    }
}

/// The same of stencilOpSeparate, by its face and operations.
fn operation_refusal(face: u32, fail: u32, depth_fail: u32, depth_pass: u32) -> Option<GlError>
    ensures { result ≡ first_refusal (operation_rules face fail depth_fail depth_pass) }
{
    if Side::from_u32(face).is_none() || !is_stencil_operation(fail) {
        return Some(GlError::Enum);
    }
    if !is_stencil_operation(depth_fail) || !is_stencil_operation(depth_pass) {
        return Some(GlError::Enum);
    }
    None
}

/// The same of a call about what is drawn at all, and where.
fn view_refusal(call: &ViewCall) -> Option<GlError>
    ensures { result ≡ first_refusal (view_rules call.now) }
{
    match call {
        ViewCall::Capability { capability, .. } => unless_known(Capability::from_u32(
            *capability,
        ).is_some()),
        ViewCall::CullFace(sides) => unless_known(Side::from_u32(*sides).is_some()),
        ViewCall::FrontFace(winding) => unless_known(is_winding(*winding)),
        ViewCall::Viewport { width, height, .. } | ViewCall::Scissor { width, height, .. } => {
            if *width < 0 || *height < 0 {
                return Some(GlError::Value);
            }
            None
        }
    }
}

/// Enum, unless a word is one that the call knows.
fn unless_known(known: bool) -> Option<GlError>
    ensures { result ≡ first_refusal (when (not known) invalid_enum ∷ []) }
{
    if known { None } else { Some(GlError::Enum) }
}
