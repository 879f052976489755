ghost use Rattle.std.specs.Prelude.{◌≡◌};
ghost use Rattle.gl_model.specs.PageState.{PageState};
ghost use Rattle.gl_context.specs.RasterRows.{raster_row};
ghost use Rattle.gl_context.specs.Stands.{Keeps};
ghost use Rattle.gl_context.specs.Deeds.{ReturnsBy};

use crate::context::Context;
use crate::deed::Told;
use call_records::RasterCall;
use gl_numbers::GlError;

impl Context {
    /// The calls that set raster state. They send nothing.
    pub(crate) fn raster(&mut self, call: &RasterCall) -> Result<Told, GlError>
        ensures acts { (w : PageState) → Keeps self.old w → ReturnsBy (raster_row w call.now) w self.new result }
        ensures failed { self.new.failed ≡ self.old.failed }
    {
        match self.raster.apply(call) {
            Ok(()) => Ok(Told::Nothing),
            Err(error) => Err(error),
        }
    }
}
