ghost use Rattle.std.specs.Prelude.{◌≡◌};
ghost use Rattle.gl_model.specs.PageState.{PageState};
ghost use Rattle.gl_context.specs.DrawRows.{draw_row};
ghost use Rattle.gl_context.specs.Stands.{Keeps};
ghost use Rattle.gl_context.specs.Deeds.{ReturnsBy};

use crate::context::Context;
use crate::deed::Told;
use call_records::DrawCall;
use gl_numbers::GlError;

impl Context {
    /// The calls that draw, or ask that what was drawn be done. flush and finish do nothing, since each command is sent at once.
    pub(crate) fn draw(&self, call: &DrawCall) -> Result<Told, GlError>
        ensures acts { (w : PageState) → Keeps self.now w → ReturnsBy (draw_row w call.now) w self.now result }
    {
        match call {
            DrawCall::Finish { .. } => Ok(Told::Nothing),
        }
    }
}
