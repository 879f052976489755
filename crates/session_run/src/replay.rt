ghost use Rattle.std.specs.Prelude.{◌≡◌, ℕ, ◌≤◌, ◌^◌, List, Some, None, All, length};
ghost use Rattle.wire_io.specs.Faults.{Rose};
ghost use Rattle.wire_io.specs.Sources.{WhereTold};
ghost use Rattle.command_stream.specs.declared.command.Command as Commands;
ghost use Rattle.command_stream.specs.Commands.{stream};
ghost use Rattle.command_stream.specs.Commands.{Fits};
ghost use Rattle.gl_model.specs.DriverState.{first_driver};
ghost use Rattle.gl_model.specs.Replay.{replay};
ghost use Rattle.session_run.specs.Playing.{StreamCause};
ghost use Rattle.session_run.specs.ReplayOutcomes.{Played, ReplayOutcome, IsSilent, ReplayCause, IsReplayed};

use crate::line::{finish, tell};
use crate::pieces::read_stream;
use crate::replay_end::ReplayEnd;
use crate::tally::Tally;
use command_stream::Decoder;
use es2_replay::Machine;
use std::alloc::Global;
use wire_io::{Sink, Source, Status};

/// Replays a stream from the driver's start, and returns how many commands it has, and what they made.
fn replay_all<S: Source>(alloc: Global, input: &mut S) -> Result<(u64, Tally), ReplayEnd>
    ensures played { WhereTold (Played result) (S.left input.old) (S.left input.new) }
    ensures cause { StreamCause (S.faults input.old) (S.faults input.new) result }
{
    let Ok(mut decoder) = Decoder::new(alloc) else {
        return Err(ReplayEnd::Memory);
    };
    let mut machine = Machine::new(alloc);
    let mut tally = Tally::none();
    match read_stream(&mut decoder, &mut machine, &mut tally, input) {
        Ok(()) => Ok((machine.count(), tally)),
        Err(end) => Err(end),
    }
}

/// Replays a command stream: reads it in pieces, applies each command to the driver's machine in order, up to the first
/// that has a fault, and at the end writes the line `commands C draws D clears K mipmaps M` with their numbers. The sink is
/// flushed at the end.
pub fn replay_session<S: Source, O: Sink>(alloc: Global, input: &mut S, out: &mut O) -> Status
    ensures outcome { WhereTold (ReplayOutcome result (O.held out.old) (O.held out.new)) (S.left input.old) (S.left input.new) }
    ensures silent { IsSilent result (O.held out.old) (O.held out.new) }
    ensures cause { ReplayCause (O.handed_on out.new)
        (S.faults input.old) (S.faults input.new) (O.faults out.old) (O.faults out.new) result }
    ensures complete { (commands : List Commands.Command) → All Fits commands
        → S.left input.old ≡ Some (stream commands) → length (stream commands) ≤ 2 ^ 62
        → (Rose (S.faults input.old) (S.faults input.new) → ⊥)
        → (Rose (O.faults out.old) (O.faults out.new) → ⊥) → IsReplayed commands result }
    ensures no_fault { (commands : List Commands.Command) → All Fits commands
        → S.left input.old ≡ Some (stream commands) → (replay first_driver commands).fault ≡ None
        → (number code : ℕ) → result ≡ Status.ReplayFault number code → ⊥ }
{
    match replay_all(alloc, input) {
        Ok((count, tally)) => tell(alloc, count, tally, out),
        Err(end) => finish(end.status(), out),
    }
}
