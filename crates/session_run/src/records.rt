ghost use Rattle.std.specs.Prelude.{◌≡◌, false, true, length, IfErr};
ghost use Rattle.gl_numbers.specs.Fields.{allows};
ghost use Rattle.call_records.specs.declared.operations.TheConstants.{BODY_MAX};
ghost use Rattle.call_records.specs.Operations.{row_of};
ghost use Rattle.call_records.specs.Records.{Fits};
ghost use Rattle.gl_model.specs.PageState.{PageState, first_page};
ghost use Rattle.gl_model.specs.DriverState.{DriverState, first_driver};
ghost use Rattle.gl_context.specs.Stands.{Stands};
ghost use Rattle.session_run.specs.Ends.{sinks, ends, faults_of};
ghost use Rattle.session_run.specs.Loop.{AnswersOne, Serves, RunsRecords, IsRecordsEnd};
ghost use Rattle.session_run.specs.Causes.{AnswerCause, RunCause};

use call_records::{
    HEADER_BYTES, Next, Operation, ReadEnd, RecordBuf, Subject, call_of, read_body, read_next,
};
use gl_context::{Acts, Context};
use std::sync::ledger::Ledger;
use step_count::Steps;
use wire_io::{Failed, Sink, Source};

/// Why the records of a session were not run to their end.
#[derive(Clone, Copy, Debug, PartialEq, Eq)]
pub enum RunEnd {
    /// No further record was read.
    Read(ReadEnd),
    /// A sink failed.
    Write,
}

/// Answers one call: sends its commands, and then writes its reply.
#[inline(always)]
fn answer<C: Acts, O: Sink, T: Sink, L: Ledger>(
    context: &mut Context,
    call: &C,
    out: &mut O,
    stream: &mut T,
    steps: &mut Steps<L>,
) -> Result<(), Failed>
    requires fits { Fits (C.whole_call call.now) }
    requires working { context.old.failed ≡ false }
    ensures answers { (w : PageState) (g : DriverState) → Stands context.old w g → AnswersOne w g (C.whole_call call.now) context.new
        (sinks (O.held out.old) (T.held stream.old)) (sinks (O.held out.new) (T.held stream.new)) result }
    ensures cause { AnswerCause (O.faults out.old) (O.faults out.new) (T.faults stream.old) (T.faults stream.new) result }
{
    context.answer(call, out, stream, steps)
}

/// Answers the call of a record: reads its fields, and answers it. Compiled once for each subject, so that no call waits for those
/// of other subjects.
#[inline(never)]
fn serve<'a, K: Subject<'a>, O: Sink, T: Sink, L: Ledger>(
    context: &mut Context,
    subject: K,
    body: &'a [u8],
    out: &mut O,
    stream: &mut T,
    steps: &mut Steps<L>,
) -> Result<(), Failed>
where
    K::Call: Acts + Copy,
    requires allowed { allows BODY_MAX (row_of (K.whole subject)) (length body.now) ≡ true }
    requires working { context.old.failed ≡ false }
    ensures serves { Serves (K.whole subject) body.now context.old context.new
        (sinks (O.held out.old) (T.held stream.old)) (sinks (O.held out.new) (T.held stream.new)) result }
    ensures cause { AnswerCause (O.faults out.old) (O.faults out.new) (T.faults stream.old) (T.faults stream.new) result }
{
    let call = call_of(subject, body);
    answer(context, &call, out, stream, steps)
}

/// Answers the call of a record of any subject.
#[inline(always)]
fn serve_any<O: Sink, T: Sink, L: Ledger>(
    context: &mut Context,
    operation: Operation,
    body: &[u8],
    out: &mut O,
    stream: &mut T,
    steps: &mut Steps<L>,
) -> Result<(), Failed>
    requires allowed { allows BODY_MAX (row_of operation) (length body.now) ≡ true }
    requires working { context.old.failed ≡ false }
    ensures serves { Serves operation body.now context.old context.new
        (sinks (O.held out.old) (T.held stream.old)) (sinks (O.held out.new) (T.held stream.new)) result }
    ensures cause { AnswerCause (O.faults out.old) (O.faults out.new) (T.faults stream.old) (T.faults stream.new) result }
{
    match operation {
        Operation::Object(subject) => serve(context, subject, body, out, stream, steps),
        Operation::Buffer(subject) => serve(context, subject, body, out, stream, steps),
        Operation::Attrib(subject) => serve(context, subject, body, out, stream, steps),
        Operation::Texture(subject) => serve(context, subject, body, out, stream, steps),
        Operation::Query(subject) => serve(context, subject, body, out, stream, steps),
        Operation::Color(subject) => serve(context, subject, body, out, stream, steps),
        Operation::DepthStencil(subject) => serve(context, subject, body, out, stream, steps),
        Operation::View(subject) => serve(context, subject, body, out, stream, steps),
        Operation::Draw(subject) => serve(context, subject, body, out, stream, steps),
    }
}

/// Answers the records of a session, of which the header was taken, up to its end.
pub fn run_records<S: Source, O: Sink, T: Sink, L: Ledger>(
    context: &mut Context,
    buf: &mut RecordBuf,
    input: &mut S,
    out: &mut O,
    stream: &mut T,
    steps: &mut Steps<L>,
) -> Result<(), RunEnd>
    requires { Stands context.old first_page first_driver }
    ensures runs { RunsRecords (ends (S.left input.old) (O.held out.old) (T.held stream.old))
        (ends (S.left input.new) (O.held out.new) (T.held stream.new)) result }
    ensures cause { RunCause (faults_of (S.faults input.old) (O.faults out.old) (T.faults stream.old))
        (faults_of (S.faults input.new) (O.faults out.new) (T.faults stream.new)) result }
    ensures never { IfErr result IsRecordsEnd }
{
    let mut at: u64 = 8;
    loop {
        match read_next(input, at) {
            Ok(Next::End) => return Ok(()),
            Ok(Next::Call { operation, len }) => {
                let after = at + HEADER_BYTES as u64;
                // a body that waits in a buffer of the source's own is lent from there
                let served = match input.peek(len) {
                    Some(body) => {
                        let served = serve_any(context, operation, body, out, stream, steps);
                        input.skip(len);
                        served
                    }
                    None => match read_body(input, after, len, buf) {
                        Ok(body) => serve_any(context, operation, body, out, stream, steps),
                        Err(end) => return Err(RunEnd::Read(end)),
                    },
                };
                let Ok(()) = served else {
                    return Err(RunEnd::Write);
                };
                at = after + len as u64;
            }
            Err(end) => return Err(RunEnd::Read(end)),
        }
    }
}
