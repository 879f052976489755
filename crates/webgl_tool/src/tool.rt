ghost use Rattle.std.specs.Prelude.{◌≡◌, ℕ, ◌≤◌, ◌^◌, ◌⊎◌, ◌↔◌, List, Some, None, All, length, map, true, false, string_bytes};
ghost use Rattle.wire_io.specs.Faults.{Rose};
ghost use Rattle.wire_io.specs.Sources.{WhereTold};
ghost use Rattle.call_records.specs.Records.{Fits, session};
ghost use Rattle.call_records.specs.declared.calls.Call as Calls;
ghost use Rattle.command_stream.specs.declared.command.Command as Commands;
ghost use Rattle.command_stream.specs.Commands as Streams;
ghost use Rattle.gl_model.specs.DriverState.{first_driver};
ghost use Rattle.gl_model.specs.Replay as Driver;
ghost use Rattle.session_run.specs.Outcomes.{Headline, EndedAs, Stopped, WhereAllTold, Untouched, IsComplete};
ghost use Rattle.session_run.specs.Ends.{ends, faults_of};
ghost use Rattle.session_run.specs.Reads.{WholeSession, RefusedAs};
ghost use Rattle.session_run.specs.Causes.{Faultless};
ghost use Rattle.session_run.specs.ReplayOutcomes.{ToldStream, PartlyToldStream, StoppedAs, IsSilent, IsReplayed};
ghost use Rattle.webgl_tool.specs.Words.{is_run, is_replay};

use session_run::{replay_session, run_session};
use std::alloc::Global;
use wire_io::{Sink, Source, Status};

/// Runs the command that the words name. `run PATH` reads a session from `input`, writes one reply for each call to `out`,
/// and sends the commands for the driver to `stream`. `replay` reads a command stream from `input`, replays it on the
/// driver's machine, and writes one line with its numbers to `out`. Any other words are Usage, and nothing is read or
/// written.
#[tactic(auto, using(crate::proofs::OneCommand::one_command))]
pub fn run_tool<S: Source, O: Sink, T: Sink>(
    alloc: Global,
    words: &[String],
    input: &mut S,
    out: &mut O,
    stream: &mut T,
) -> Status
    // Usage comes exactly where the words aren't those of a command, and nothing is read or written then
    ensures usage { (result ≡ Status.Usage)
        ↔ ((is_run (map string_bytes words.now) ≡ false) × (is_replay (map string_bytes words.now) ≡ false)) }
    ensures input_unused { result ≡ Status.Usage → input.new ≡ input.old }
    ensures out_unused { result ≡ Status.Usage → out.new ≡ out.old }
    ensures stream_unused { result ≡ Status.Usage → stream.new ≡ stream.old }
    // Ok of `run`: the session was read to its end, the replies are the page machine's, and the stream replays to exactly its Shots
    ensures headline { is_run (map string_bytes words.now) ≡ true → result ≡ Status.Ok → WhereAllTold Headline
        (ends (S.left input.old) (O.held out.old) (T.held stream.old))
        (ends (S.left input.new) (O.held out.new) (T.held stream.new)) }
    ensures read_whole { is_run (map string_bytes words.now) ≡ true → result ≡ Status.Ok
        → WhereTold WholeSession (S.left input.old) (S.left input.new) }
    // a refused session: why and where, by the source alone, and the calls before it were served
    ensures bad_input_read { is_run (map string_bytes words.now) ≡ true → (at kind : ℕ) → result ≡ Status.BadInput at kind
        → WhereTold (RefusedAs (Status.BadInput at kind)) (S.left input.old) (S.left input.new) }
    ensures truncated_read { is_run (map string_bytes words.now) ≡ true → (at : ℕ) → result ≡ Status.Truncated at
        → WhereTold (RefusedAs (Status.Truncated at)) (S.left input.old) (S.left input.new) }
    ensures bad_input { is_run (map string_bytes words.now) ≡ true → (at kind : ℕ) → result ≡ Status.BadInput at kind
        → WhereAllTold (EndedAs (Status.BadInput at kind))
        (ends (S.left input.old) (O.held out.old) (T.held stream.old))
        (ends (S.left input.new) (O.held out.new) (T.held stream.new)) }
    ensures truncated { is_run (map string_bytes words.now) ≡ true → (at : ℕ) → result ≡ Status.Truncated at
        → WhereAllTold (EndedAs (Status.Truncated at))
        (ends (S.left input.old) (O.held out.old) (T.held stream.old))
        (ends (S.left input.new) (O.held out.new) (T.held stream.new)) }
    // a fault: whose number rose, and what was read and written before it
    ensures read_fault { result ≡ Status.ReadFault → Rose (S.faults input.old) (S.faults input.new) }
    ensures after_read_fault { is_run (map string_bytes words.now) ≡ true → result ≡ Status.ReadFault
        → WhereAllTold (EndedAs Status.ReadFault)
        (ends (S.left input.old) (O.held out.old) (T.held stream.old))
        (ends (S.left input.new) (O.held out.new) (T.held stream.new)) }
    ensures write_fault { result ≡ Status.WriteFault
        → Rose (O.faults out.old) (O.faults out.new) ⊎ Rose (T.faults stream.old) (T.faults stream.new) }
    ensures after_write_fault { is_run (map string_bytes words.now) ≡ true → result ≡ Status.WriteFault → WhereAllTold Stopped
        (ends (S.left input.old) (O.held out.old) (T.held stream.old))
        (ends (S.left input.new) (O.held out.new) (T.held stream.new)) }
    ensures before_read_fault { is_run (map string_bytes words.now) ≡ true → result ≡ Status.ReadFault
        → WhereTold (RefusedAs Status.ReadFault) (S.left input.old) (S.left input.new) }
    // out of memory comes before the first byte is taken
    ensures out_of_memory { is_run (map string_bytes words.now) ≡ true → result ≡ Status.OutOfMemory → Untouched
        (ends (S.left input.old) (O.held out.old) (T.held stream.old))
        (ends (S.left input.new) (O.held out.new) (T.held stream.new)) }
    ensures no_replay { is_run (map string_bytes words.now) ≡ true → (command code : ℕ) → result ≡ Status.ReplayFault command code → ⊥ }
    // a whole session is answered where no object fails
    ensures complete { is_run (map string_bytes words.now) ≡ true → (calls : List Calls.Call) → All Fits calls
        → S.left input.old ≡ Some (session calls) → length (session calls) ≤ 2 ^ 62 → Faultless
        (faults_of (S.faults input.old) (O.faults out.old) (T.faults stream.old))
        (faults_of (S.faults input.new) (O.faults out.new) (T.faults stream.new)) → IsComplete result }
    // Ok of `replay`: the input is a stream of whole commands that replays without a fault, and its line was written
    ensures replayed { is_replay (map string_bytes words.now) ≡ true → result ≡ Status.Ok
        → WhereTold (ToldStream (O.held out.old) (O.held out.new)) (S.left input.old) (S.left input.new) }
    // a refused stream: why and where, and the commands before it replay without a fault
    ensures replay_bad_input { is_replay (map string_bytes words.now) ≡ true → (at kind : ℕ) → result ≡ Status.BadInput at kind
        → WhereTold (StoppedAs (Status.BadInput at kind)) (S.left input.old) (S.left input.new) }
    ensures replay_truncated { is_replay (map string_bytes words.now) ≡ true → (at : ℕ) → result ≡ Status.Truncated at
        → WhereTold (StoppedAs (Status.Truncated at)) (S.left input.old) (S.left input.new) }
    // the first command that has a fault, and which
    ensures replay_fault { is_replay (map string_bytes words.now) ≡ true → (command code : ℕ)
        → result ≡ Status.ReplayFault command code
        → WhereTold (StoppedAs (Status.ReplayFault command code)) (S.left input.old) (S.left input.new) }
    // `out` gets the line alone, or a prefix of it where a write fails; `stream` gets nothing
    ensures replay_write_fault { is_replay (map string_bytes words.now) ≡ true → result ≡ Status.WriteFault
        → Rose (O.faults out.old) (O.faults out.new) }
    ensures after_replay_write_fault { is_replay (map string_bytes words.now) ≡ true → result ≡ Status.WriteFault
        → WhereTold (λ old new. (O.held out.new ≡ O.held out.old) ⊎ PartlyToldStream (O.held out.old) (O.held out.new) old new)
        (S.left input.old) (S.left input.new) }
    ensures replay_silent { is_replay (map string_bytes words.now) ≡ true → IsSilent result (O.held out.old) (O.held out.new) }
    ensures replay_stream_unused { is_replay (map string_bytes words.now) ≡ true → stream.new ≡ stream.old }
    // a whole stream is replayed where no object fails, and to its end where it has no fault, as what `run` sends has none
    ensures replay_complete { is_replay (map string_bytes words.now) ≡ true → (commands : List Commands.Command)
        → All Streams.Fits commands → S.left input.old ≡ Some (Streams.stream commands) → length (Streams.stream commands) ≤ 2 ^ 62
        → (Rose (S.faults input.old) (S.faults input.new) → ⊥) → (Rose (O.faults out.old) (O.faults out.new) → ⊥)
        → IsReplayed commands result }
    ensures replay_no_fault { is_replay (map string_bytes words.now) ≡ true → (commands : List Commands.Command)
        → All Streams.Fits commands → S.left input.old ≡ Some (Streams.stream commands)
        → (Driver.replay first_driver commands).fault ≡ None → (number code : ℕ) → result ≡ Status.ReplayFault number code → ⊥ }
    // the sinks in use handed on all that they took, but after Usage and WriteFault
    ensures replies_handed_on { (result ≡ Status.Usage → ⊥) → (result ≡ Status.WriteFault → ⊥) → O.handed_on out.new }
    ensures commands_handed_on { is_run (map string_bytes words.now) ≡ true → (result ≡ Status.WriteFault → ⊥) → T.handed_on stream.new }
{
    if names_run(words) {
        run_session(alloc, input, out, stream)
    } else if names_replay(words) {
        replay_session(alloc, input, out)
    } else {
        Status::Usage
    }
}

/// Whether the words are `run` and a path that isn't empty.
fn names_run(words: &[String]) -> bool
    ensures { result ≡ is_run (map string_bytes words.now) }
{
    match words {
        [command, path] => command.as_str() == "run" && !path.is_empty(),
        _ => false,
    }
}

/// Whether the words are `replay` alone.
fn names_replay(words: &[String]) -> bool
    ensures { result ≡ is_replay (map string_bytes words.now) }
{
    match words {
        [command] => command.as_str() == "replay",
        _ => false,
    }
}
