ghost use Rattle.std.specs.Prelude.{◌≡◌, ◌≤◌, ◌^◌, List, Option, Some, ℕ, All, length};
ghost use Rattle.std.specs.Io.KnownBytes.{append_known};
ghost use Rattle.call_records.specs.Records.{Fits, session};
ghost use Rattle.call_records.specs.declared.calls.Call as Calls;
ghost use Rattle.command_stream.specs.Commands.{stream_start};
ghost use Rattle.gl_model.specs.PageState.{first_page};
ghost use Rattle.gl_model.specs.DriverState.{first_driver};
ghost use Rattle.gl_context.specs.Stands.{Stands};
ghost use Rattle.session_run.specs.Ends.{ends, faults_of};
ghost use Rattle.session_run.specs.Statuses.{status_of};
ghost use Rattle.session_run.specs.Reads.{ReadsAs, SessionReads};
ghost use Rattle.session_run.specs.Outcomes.{Did, Outcome, WhereAllTold, Untouched, IsSessionStatus, IsComplete};
ghost use Rattle.session_run.specs.Causes.{RunCause, Finishes, SessionCause, Faultless};

use crate::kinds::{
    KIND_AFTER_END, KIND_BODY_LONG, KIND_BODY_SHAPE, KIND_HEADER_LATE, KIND_MAGIC, KIND_OPERATION,
    KIND_VERSION,
};
use crate::records::{RunEnd, run_records};
use call_records::{ReadEnd, RecordBuf, read_start};
use gl_context::{Context, Open};
use std::alloc::Global;
use std::marker::Brand;
use std::sync::ledger::{Blank, Ledger};
use step_count::Steps;
use wire_io::{Sink, Source, Status};

/// Runs a session whose stream's header was written: reads its header, and then reads, answers and sends.
#[tactic(auto, using(crate::proofs::Telling::told_records, crate::proofs::Telling::told_start))]
fn run_opened<S: Source, O: Sink, T: Sink, L: Ledger>(
    context: &mut Context,
    buf: &mut RecordBuf,
    input: &mut S,
    out: &mut O,
    stream: &mut T,
    blank: Blank,
) -> Result<(), RunEnd>
    requires stands { Stands context.old first_page first_driver }
    requires name { blank.name ≡ L.name }
    requires parts { blank.parts ≡ L.parts }
    requires two { L.parts ≡ 2 }
    ensures did { (unopened : Option (List ℕ)) → T.held stream.old ≡ append_known unopened stream_start
        → WhereAllTold (Did result) (ends (S.left input.old) (O.held out.old) unopened)
        (ends (S.left input.new) (O.held out.new) (T.held stream.new)) }
    ensures reads { ReadsAs result (S.left input.old) (S.left input.new) }
    ensures cause { RunCause (faults_of (S.faults input.old) (O.faults out.old) (T.faults stream.old))
        (faults_of (S.faults input.new) (O.faults out.new) (T.faults stream.new)) result }
{
    let mut steps = Steps::<L>::start(blank);
    match read_start(input) {
        Ok(()) => run_records(context, buf, input, out, stream, &mut steps),
        Err(end) => Err(RunEnd::Read(end)),
    }
}

/// The status of an end of reading.
fn status_of(end: ReadEnd) -> Status
    ensures { result ≡ status_of end }
{
    let (at, kind) = match end {
        ReadEnd::Truncated(at) => return Status::Truncated { at },
        ReadEnd::ReadFault => return Status::ReadFault,
        ReadEnd::Magic(at) => (at, KIND_MAGIC),
        ReadEnd::Version(at) => (at, KIND_VERSION),
        ReadEnd::UnknownOp(at) => (at, KIND_OPERATION),
        ReadEnd::BodyLong(at) => (at, KIND_BODY_LONG),
        ReadEnd::BodyShape(at) => (at, KIND_BODY_SHAPE),
        ReadEnd::AfterEnd(at) => (at, KIND_AFTER_END),
        ReadEnd::InputLong(at) => (at, KIND_HEADER_LATE),
    };
    Status::BadInput { at, kind }
}

/// Flushes both sinks, the stream first, and returns the status, or WriteFault where a flush failed.
fn finish<O: Sink, T: Sink>(status: Status, out: &mut O, stream: &mut T) -> Status
    ensures replies { O.held out.new ≡ O.held out.old }
    ensures commands { T.held stream.new ≡ T.held stream.old }
    ensures finishes { Finishes (O.handed_on out.new) (T.handed_on stream.new)
        (O.faults out.old) (O.faults out.new) (T.faults stream.old) (T.faults stream.new) status result }
{
    let sent = stream.flush();
    let answered = out.flush();
    if sent.is_err() || answered.is_err() {
        return Status::WriteFault;
    }
    status
}

/// Runs a session: takes the memory for its records, opens the context, which writes the stream's header, and only then reads:
/// the session's header, and each call, of which it sends the commands and then writes the reply. It flushes both sinks at
/// the end.
pub fn run_session<S: Source, O: Sink, T: Sink>(
    alloc: Global,
    input: &mut S,
    out: &mut O,
    stream: &mut T,
) -> Status
    // where all three tell their bytes: what was read, and the replies and commands that were written for it
    ensures outcome { WhereAllTold (Outcome result) (ends (S.left input.old) (O.held out.old) (T.held stream.old))
        (ends (S.left input.new) (O.held out.new) (T.held stream.new)) }
    // where the source tells its bytes: what was read, and why it was refused
    ensures reads { SessionReads result (S.left input.old) (S.left input.new) }
    ensures cause { SessionCause (O.handed_on out.new) (T.handed_on stream.new)
        (faults_of (S.faults input.old) (O.faults out.old) (T.faults stream.old))
        (faults_of (S.faults input.new) (O.faults out.new) (T.faults stream.new)) result }
    ensures unopened { result ≡ Status.OutOfMemory → Untouched (ends (S.left input.old) (O.held out.old) (T.held stream.old))
        (ends (S.left input.new) (O.held out.new) (T.held stream.new)) }
    ensures never { IsSessionStatus result }
    ensures complete { (calls : List Calls.Call) → All Fits calls → S.left input.old ≡ Some (session calls)
        → length (session calls) ≤ 2 ^ 62
        → Faultless (faults_of (S.faults input.old) (O.faults out.old) (T.faults stream.old))
        (faults_of (S.faults input.new) (O.faults out.new) (T.faults stream.new)) → IsComplete result }
{
    let mut buf = match RecordBuf::make(alloc) {
        Ok(buf) => buf,
        Err(_) => return finish(Status::OutOfMemory, out, stream),
    };
    let mut context = match Context::open(alloc, stream) {
        Ok(context) => context,
        Err(Open::Memory) => return finish(Status::OutOfMemory, out, stream),
        Err(Open::Write) => return Status::WriteFault,
    };
    let ended = run_opened::<S, O, T, Brand>(
        &mut context,
        &mut buf,
        input,
        out,
        stream,
        Blank::new(2),
    );
    let Err(why) = ended else {
        return finish(Status::Ok, out, stream);
    };
    match why {
        RunEnd::Read(end) => finish(status_of(end), out, stream),
        RunEnd::Write => Status::WriteFault,
    }
}
