ghost use Rattle.std.specs.Prelude.{◌≡◌};
ghost use Rattle.gl_model.specs.PageState.{PageState};
ghost use Rattle.gl_context.specs.TextureRows.{pixel_row, texture_row};
ghost use Rattle.gl_context.specs.Stands.{Keeps};
ghost use Rattle.gl_context.specs.Deeds.{ReturnsBy};

use crate::context::Context;
use crate::deed::Told;
use call_records::TextureCall;
use gl_numbers::{GlError, PixelParameter};

impl Context {
    /// The calls on textures and how their texels are given.
    pub(crate) fn texture(&mut self, call: &TextureCall) -> Result<Told, GlError>
        ensures acts { (w : PageState) → Keeps self.old w → ReturnsBy (texture_row w call.now) w self.new result }
        ensures failed { self.new.failed ≡ self.old.failed }
    {
        match *call {
            TextureCall::PixelStorei { name, value } => self.pixel_store(name, value),
        }
    }

    /// pixelStorei (WebGL 1.0 sections 5.14.3 and 5.14.8)
    fn pixel_store(&mut self, name: u32, value: i32) -> Result<Told, GlError>
        ensures acts { (w : PageState) → Keeps self.old w → ReturnsBy (pixel_row w name value) w self.new result }
        ensures failed { self.new.failed ≡ self.old.failed }
    {
        let Some(parameter) = PixelParameter::from_u32(name) else {
            return Err(GlError::Enum);
        };
        if let Err(error) = self.pixels.set(parameter, value) {
            return Err(error);
        }
        Ok(Told::Nothing)
    }
}
