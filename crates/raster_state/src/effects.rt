ghost use Rattle.std.specs.Prelude.{◌≡◌};
ghost use Rattle.gl_numbers.specs.Capabilities.{capability_of};
ghost use Rattle.gl_numbers.specs.RasterWords.{side_of};
ghost use Rattle.raster_state.specs.Effects.{changed_sides, color_effect, depth_stencil_effect, raster_effect, side_after, view_effect, with_capability};

use crate::words::{RasterWords, StencilSide};
use call_records::{ColorCall, DepthStencilCall, RasterCall, ViewCall};
use gl_numbers::{Capability, Side};

impl StencilSide {
    /// The stencil state of a side after a call that names it.
    fn after(self, call: &DepthStencilCall) -> StencilSide
        ensures { result ≡ side_after call.now self }
    {
        match call {
            DepthStencilCall::StencilFuncSeparate {
                func,
                reference,
                mask,
                ..
            } => StencilSide {
                func: *func,
                reference: *reference,
                value_mask: *mask,
                ..self
            },
            DepthStencilCall::StencilMaskSeparate { mask, .. } => StencilSide {
                write_mask: *mask,
                ..self
            },
            DepthStencilCall::StencilOpSeparate {
                fail,
                depth_fail,
                depth_pass,
                ..
            } => StencilSide {
                ops: [*fail, *depth_fail, *depth_pass],
                ..self
            },
            DepthStencilCall::DepthFunc(_) => self,
            DepthStencilCall::DepthMask(_) => self,
            DepthStencilCall::ClearStencil(_) => self,
        }
    }
}

impl RasterWords {
    /// Sets what a call sets that nothing refuses.
    pub(crate) fn set(&mut self, call: &RasterCall)
        ensures { self.new ≡ raster_effect call.now self.old }
    {
        match call {
            RasterCall::Color(call) => self.set_colors(call),
            RasterCall::DepthStencil(call) => self.set_depth_stencil(call),
            RasterCall::View(call) => self.set_view(call),
        }
    }

    /// The same of a call about colours.
    fn set_colors(&mut self, call: &ColorCall)
        ensures { self.new ≡ color_effect call.now self.old }
    {
        match call {
            ColorCall::BlendColor {
                red,
                green,
                blue,
                alpha,
            } => self.blend_color = [*red, *green, *blue, *alpha],
            ColorCall::BlendEquationSeparate { rgb, alpha } => self.blend_equation = [*rgb, *alpha],
            ColorCall::BlendFuncSeparate {
                src_rgb,
                dst_rgb,
                src_alpha,
                dst_alpha,
            } => self.blend_func = [*src_rgb, *dst_rgb, *src_alpha, *dst_alpha],
            ColorCall::ColorMask {
                red,
                green,
                blue,
                alpha,
            } => self.color_mask = [*red != 0, *green != 0, *blue != 0, *alpha != 0],
            ColorCall::ClearColor {
                red,
                green,
                blue,
                alpha,
            } => self.clear_color = [*red, *green, *blue, *alpha],
        }
    }

    /// The same of a call about depths and stencil values.
    fn set_depth_stencil(&mut self, call: &DepthStencilCall)
        ensures { self.new ≡ depth_stencil_effect call.now self.old }
    {
        match call {
            DepthStencilCall::DepthFunc(func) => self.depth_func = *func,
            DepthStencilCall::DepthMask(flag) => self.depth_mask = *flag != 0,
            DepthStencilCall::StencilFuncSeparate { face, .. } => self.set_sides(*face, call),
            DepthStencilCall::StencilMaskSeparate { face, .. } => self.set_sides(*face, call),
            DepthStencilCall::StencilOpSeparate { face, .. } => self.set_sides(*face, call),
            DepthStencilCall::ClearStencil(value) => self.clear_stencil = *value,
        }
    }

    /// The same of a call that names the sides of a face.
    fn set_sides(&mut self, face: u32, call: &DepthStencilCall)
        ensures { self.new ≡ changed_sides (side_of face) (side_after call.now) self.old }
    {
        match Side::from_u32(face) {
            Some(Side::Front) => self.front = self.front.after(call),
            Some(Side::Back) => self.back = self.back.after(call),
            Some(Side::FrontAndBack) => {
                self.front = self.front.after(call);
                self.back = self.back.after(call);
            }
            None => {}
        }
    }

    /// The same of a call about what is drawn at all, and where.
    fn set_view(&mut self, call: &ViewCall)
        ensures { self.new ≡ view_effect call.now self.old }
    {
        match call {
            ViewCall::Capability { capability, on } => self.set_capability(*capability, *on),
            ViewCall::CullFace(sides) => self.cull_side = *sides,
            ViewCall::FrontFace(winding) => self.winding = *winding,
            ViewCall::Viewport {
                x,
                y,
                width,
                height,
            } => self.viewport = [*x, *y, *width, *height],
            ViewCall::Scissor {
                x,
                y,
                width,
                height,
            } => self.scissor = [*x, *y, *width, *height],
        }
    }

    /// Enables or disables the capability of a word, if it is one.
    fn set_capability(&mut self, word: u32, on: bool)
        ensures { self.new ≡ with_capability (capability_of word) on self.old }
    {
        if let Some(capability) = Capability::from_u32(word) {
            self.enabled[capability.place()] = on;
        }
    }
}
