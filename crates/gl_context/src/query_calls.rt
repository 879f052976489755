ghost use Rattle.std.specs.Prelude.{◌≡◌, Ok};
ghost use Rattle.gl_model.specs.PageState.{PageState};
ghost use Rattle.gl_context.specs.QueryRows.{error_row, is_enabled_row, parameter_row, query_row};
ghost use Rattle.gl_context.specs.ParameterValues.{parameter_value};
ghost use Rattle.gl_context.specs.Stands.{Keeps};
ghost use Rattle.gl_context.specs.Deeds.{ReturnsBy, value_in};

use crate::context::Context;
use crate::deed::Told;
use crate::parameters::raster_value;
use crate::values::truth;
use call_records::QueryCall;
use gl_numbers::{Capability, GlError, Parameter};

impl Context {
    /// The calls that ask for the state of the context.
    #[inline(always)]
    pub(crate) fn query(&mut self, call: &QueryCall) -> Result<Told, GlError>
        ensures acts { (w : PageState) → Keeps self.old w → ReturnsBy (query_row w call.now) w self.new result }
        ensures failed { self.new.failed ≡ self.old.failed }
    {
        match call {
            QueryCall::IsEnabled(capability) => self.is_enabled(*capability),
            QueryCall::GetError => Ok(self.get_error()),
            QueryCall::GetParameter(name) => self.get_parameter(*name),
        }
    }

    /// isEnabled (WebGL 1.0 section 5.14.3)
    #[inline(always)]
    fn is_enabled(&self, word: u32) -> Result<Told, GlError>
        ensures acts { (w : PageState) → Keeps self.now w → ReturnsBy (is_enabled_row w word) w self.now result }
    {
        let Some(capability) = Capability::from_u32(word) else {
            return Err(GlError::Enum);
        };
        let on = self.raster.words().enabled[capability.place()];
        Ok(truth(on))
    }

    /// getError (WebGL 1.0 section 5.14.3)
    #[inline(always)]
    fn get_error(&mut self) -> Told
        ensures acts { (w : PageState) → Keeps self.old w → ReturnsBy (error_row w) w self.new (Ok result) }
        ensures failed { self.new.failed ≡ self.old.failed }
    {
        Told::Number(self.errors.take())
    }

    /// What the state has for a parameter; no buffer is 0.
    #[inline(always)]
    fn parameter_value(&self, parameter: Parameter) -> Told
        ensures { (w : PageState) → Keeps self.now w → value_in result ≡ parameter_value w parameter }
    {
        match parameter {
            Parameter::Bound(target) => Told::Number(self.buffers.bound(target).unwrap_or(0)),
            Parameter::Pixel(parameter) => Told::Number(self.pixels.word(parameter)),
            Parameter::Raster(parameter) => raster_value(parameter, self.raster.words()),
            Parameter::Limit(limit) => Told::Number(limit.value()),
        }
    }

    /// getParameter (WebGL 1.0 section 5.14.3)
    #[inline(always)]
    fn get_parameter(&self, name: u32) -> Result<Told, GlError>
        ensures acts { (w : PageState) → Keeps self.now w → ReturnsBy (parameter_row w name) w self.now result }
    {
        match Parameter::from_u32(name) {
            Some(parameter) => Ok(self.parameter_value(parameter)),
            None => Err(GlError::Enum),
        }
    }
}
