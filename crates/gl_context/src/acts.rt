ghost use Rattle.std.specs.Prelude.{◌≡◌};
ghost use Rattle.call_records.specs.Records.{Fits};
ghost use Rattle.gl_model.specs.PageState.{PageState};
ghost use Rattle.gl_context.specs.PageStep.{row_of};
ghost use Rattle.gl_context.specs.Stands.{Keeps, IsSound};
ghost use Rattle.gl_context.specs.Deeds.{SendsBy, SendCause};

use crate::context::Context;
use crate::deed::{Stop, Told, quiet};
use call_records::{
    AttribCall, BufferCall, ColorCall, DepthStencilCall, DrawCall, ObjectCall, QueryCall,
    RasterCall, SubjectCall, TextureCall, ViewCall,
};
use wire_io::Sink;

/// A call of one subject, as a context takes it. What takes such a call is compiled once for each subject, without the calls of the
/// others.
pub trait Acts: SubjectCall {
    /// Judges the call; where nothing refuses it, acts on the stores and sends its commands to the driver.
    fn act<S: Sink>(&self, context: &mut Context, stream: &mut S) -> Result<Told, Stop>
        requires { Fits (Self.whole_call self.now) }
        ensures sends { (w : PageState) → Keeps context.old w → IsSound w
            → SendsBy (row_of w (Self.whole_call self.now)) w context.new (S.held stream.old) (S.held stream.new) result }
        ensures cause { SendCause (S.faults stream.old) (S.faults stream.new) result }
        ensures failed { context.new.failed ≡ context.old.failed };
}

impl Acts for ObjectCall {
    #[inline(always)]
    fn act<S: Sink>(&self, context: &mut Context, stream: &mut S) -> Result<Told, Stop> {
        context.object(self, stream)
    }
}

impl<'a> Acts for BufferCall<'a> {
    #[inline(always)]
    fn act<S: Sink>(&self, context: &mut Context, stream: &mut S) -> Result<Told, Stop> {
        context.buffer(self, stream)
    }
}

impl Acts for AttribCall {
    #[inline(always)]
    #[tactic(auto, using(crate::proofs::Sending::sends_quiet, crate::proofs::Sending::quiet_cause))]
    fn act<S: Sink>(&self, context: &mut Context, _stream: &mut S) -> Result<Told, Stop> {
        quiet(context.attrib(self))
    }
}

impl Acts for TextureCall {
    #[inline(always)]
    #[tactic(auto, using(crate::proofs::Sending::sends_quiet, crate::proofs::Sending::quiet_cause))]
    fn act<S: Sink>(&self, context: &mut Context, _stream: &mut S) -> Result<Told, Stop> {
        quiet(context.texture(self))
    }
}

impl Acts for QueryCall {
    #[inline(always)]
    #[tactic(auto, using(crate::proofs::Sending::sends_quiet, crate::proofs::Sending::quiet_cause))]
    fn act<S: Sink>(&self, context: &mut Context, _stream: &mut S) -> Result<Told, Stop> {
        quiet(context.query(self))
    }
}

impl Acts for ColorCall {
    #[inline(always)]
    #[tactic(auto, using(crate::proofs::Sending::sends_quiet, crate::proofs::Sending::quiet_cause))]
    fn act<S: Sink>(&self, context: &mut Context, _stream: &mut S) -> Result<Told, Stop> {
        quiet(context.raster(&RasterCall::Color(*self)))
    }
}

impl Acts for DepthStencilCall {
    #[inline(always)]
    #[tactic(auto, using(crate::proofs::Sending::sends_quiet, crate::proofs::Sending::quiet_cause))]
    fn act<S: Sink>(&self, context: &mut Context, _stream: &mut S) -> Result<Told, Stop> {
        quiet(context.raster(&RasterCall::DepthStencil(*self)))
    }
}

impl Acts for ViewCall {
    #[inline(always)]
    #[tactic(auto, using(crate::proofs::Sending::sends_quiet, crate::proofs::Sending::quiet_cause))]
    fn act<S: Sink>(&self, context: &mut Context, _stream: &mut S) -> Result<Told, Stop> {
        quiet(context.raster(&RasterCall::View(*self)))
    }
}

impl Acts for DrawCall {
    #[inline(always)]
    #[tactic(auto, using(crate::proofs::Sending::sends_quiet, crate::proofs::Sending::quiet_cause))]
    fn act<S: Sink>(&self, context: &mut Context, _stream: &mut S) -> Result<Told, Stop> {
        quiet(context.draw(self))
    }
}
