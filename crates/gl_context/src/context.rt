ghost use Rattle.std.specs.Prelude.{◌≡◌, ◌≤◌, ◌↔◌, ◌⊎◌, false, IsOk, OnOk, OnErr};
ghost use Rattle.std.specs.Io.KnownBytes.{append_known};
ghost use Rattle.gl_numbers.specs.Errors.{code_of};
ghost use Rattle.gl_model.specs.Errors.{raise};
ghost use Rattle.gl_model.specs.PageState.{PageState, first_page};
ghost use Rattle.gl_model.specs.DriverState.{DriverState, first_driver};
ghost use Rattle.wire_io.specs.Faults.{HasCause, Rose};
ghost use Rattle.wire_io.specs.Sinks.{Sends};
ghost use Rattle.call_records.specs.Records.{Fits};
ghost use Rattle.call_records.specs.declared.replies.Value.TheVariants.{Nothing};
ghost use Rattle.command_stream.specs.Commands.{stream_start};
ghost use Rattle.gl_context.specs.Stands.{Stands};
ghost use Rattle.gl_context.specs.Deeds.{map_ok, reply_of};
ghost use Rattle.gl_context.specs.Steps.{StepsOrStops, RepliesOrStops};
ghost use Rattle.call_records.specs.Replies.{reply_encoding};
ghost use Rattle.gl_context.specs.Opening.{Opens};

use crate::acts::Acts;
use crate::deed::{Answer, Stop, Told};
use crate::errors::ErrorFlags;
use crate::pixels::Pixels;
use attrib_state::Attribs;
use buffer_store::Buffers;
use call_records::{write_list, write_nothing, write_number};
use command_stream::write_start;
use gl_numbers::{GlError, NO_ERROR};
use object_names::Names;
use raster_state::Raster;
use std::alloc::Global;
use std::marker::Model;
use std::sync::ledger::Ledger;
use step_count::Steps;
use wire_io::{Failed, Sink};

/// Writing commands failed. The context isn't used again.
#[derive(Clone, Copy, Debug, PartialEq, Eq)]
pub struct WriteFault;

/// Why no context was opened.
#[derive(Clone, Copy, Debug, PartialEq, Eq)]
pub enum Open {
    /// Out of memory.
    Memory,
    /// The stream's header wasn't written.
    Write,
}

/// A WebGL context (WebGL 1.0 section 5.14): the names of its objects, its buffers with what is bound, its vertex attributes, the
/// pixel store, the error flags, and the raster state.
#[derive(Drop)]
pub struct Context {
    pub(crate) names: Names,
    pub(crate) buffers: Buffers,
    pub(crate) attributes: Attribs,
    pub(crate) pixels: Pixels,
    pub(crate) errors: ErrorFlags,
    pub(crate) raster: Raster,
    failed: bool,
}

impl Model for Context {
    ghost use Rattle.gl_context.specs.Stands.{Kept};
    ghost use Rattle.gl_context.specs.Codes.{kept_code};
    ghost use Rattle.gl_context.specs.Tied.{AreTied};

    ghost Value = { Kept };

    ghost coded = { kept_code };

    ghost view = { λ c. record {
      names = c.names;
      buffers = c.buffers;
      attributes = c.attributes;
      pixels = c.pixels;
      errors = c.errors;
      raster = c.raster;
      failed = c.failed;
    } };

    ghost invariant = { λ c. AreTied c.names c.buffers };
}

impl Context {
    /// A context at the start, whose stream's header was written. Write comes only where the stream's number of faults
    /// rose; then a prefix of the header was written.
    pub fn open<S: Sink>(alloc: Global, stream: &mut S) -> Result<Context, Open>
        ensures opens { Opens (S.held stream.old) (S.held stream.new) result }
        ensures later { S.faults stream.old ≤ S.faults stream.new }
        ensures cause { result ≡ Err Open.Write → Rose (S.faults stream.old) (S.faults stream.new) }
    {
        let Ok(()) = write_start(stream) else {
            return Err(Open::Write);
        };
        Ok(Context {
            names: Names::new(alloc),
            buffers: Buffers::new(alloc),
            attributes: Attribs::new(),
            pixels: Pixels::new(),
            errors: ErrorFlags::new(),
            raster: Raster::new(),
            failed: false,
        })
    }

    /// Whether a write failed. Then the context isn't used again.
    #[inline(always)]
    pub fn failed(&self) -> bool
        ensures { result ≡ self.now.failed }
    {
        self.failed
    }

    /// Takes an error into the flags, and answers with it.
    #[inline(always)]
    fn raise(&mut self, error: GlError) -> Answer
        ensures kept { self.new ≡ record self.old { errors = raise error self.old.errors } }
        ensures reply { reply_of result ≡ record { raised = code_of error; value = Nothing } }
    {
        self.errors.raise(error);
        Answer {
            raised: error.code(),
            told: Told::Nothing,
        }
    }

    /// Takes the page's step for a call, and sends its commands to the driver. WriteFault comes only where the stream's number
    /// of faults rose; then a prefix of the commands was sent.
    #[inline(always)]
    fn apply<C: Acts, S: Sink>(&mut self, call: &C, stream: &mut S) -> Result<Answer, WriteFault>
        requires working { self.old.failed ≡ false }
        requires fits { Fits (C.whole_call call.now) }
        ensures steps { (w : PageState) (g : DriverState) → Stands self.old w g
            → StepsOrStops w g (C.whole_call call.now) self.new (S.held stream.old) (S.held stream.new) (map_ok reply_of result) }
        ensures cause { HasCause (S.faults stream.old) (S.faults stream.new) result }
        ensures failed { IsOk result ↔ (self.new.failed ≡ false) }
    {
        match call.act(self, stream) {
            Ok(told) => {
                Ok(Answer {
                    raised: NO_ERROR,
                    told,
                })
            }
            Err(Stop::Raised(error)) => Ok(self.raise(error)),
            Err(Stop::Unsent) => {
                self.failed = true;
                Err(WriteFault)
            }
        }
    }

    /// Answers a call: takes the page's step, sends its commands to the driver, and then writes its reply; `steps` counts the
    /// blocks and cells of index bytes that are read. Failed comes only where the number of faults of one of the sinks rose: then
    /// a prefix of the commands was sent and no reply was written, or all of them were sent and a prefix of the reply was written.
    #[inline(always)]
    pub fn answer<C: Acts, O: Sink, S: Sink, L: Ledger>(
        &mut self,
        call: &C,
        out: &mut O,
        stream: &mut S,
        steps: &mut Steps<L>,
    ) -> Result<(), Failed>
        requires working { self.old.failed ≡ false }
        requires fits { Fits (C.whole_call call.now) }
        ensures steps { (w : PageState) (g : DriverState) → Stands self.old w g
            → RepliesOrStops w g (C.whole_call call.now) self.new (S.held stream.old) (S.held stream.new) (O.held out.old) (O.held out.new) result }
        ensures replies { O.faults out.old ≤ O.faults out.new }
        ensures commands { S.faults stream.old ≤ S.faults stream.new }
        ensures cause { OnErr result (Rose (O.faults out.old) (O.faults out.new) ⊎ Rose (S.faults stream.old) (S.faults stream.new)) }
        ensures working { OnOk result (self.new.failed ≡ false) }
        ensures ticks { steps.new ≡ steps.old }
    {
        let Ok(answer) = self.apply(call, stream) else {
            return Err(Failed);
        };
        write_answer(answer, out)
    }
}

/// Writes the reply of an answer.
#[inline(always)]
fn write_answer<O: Sink>(answer: Answer, out: &mut O) -> Result<(), Failed>
    ensures bytes { Sends (O.held out.old) (O.held out.new) result (reply_encoding (reply_of answer)) }
    ensures cause { HasCause (O.faults out.old) (O.faults out.new) result }
{
    let raised = answer.raised;
    match answer.told {
        Told::Nothing => write_nothing(raised, out),
        Told::Number(n) => write_number(raised, n, out),
        Told::Two(words) => write_list(raised, &words, out),
        Told::Four(words) => write_list(raised, &words, out),
    }
}
