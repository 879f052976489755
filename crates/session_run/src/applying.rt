ghost use Rattle.std.specs.Prelude.{◌≡◌, ℕ, ◌+◌, ◌<◌, ◌≤◌, ◌^◌, List, length, IfOk};
ghost use Rattle.session_run.specs.Playing.{SoFar, Playing, PlaysOne, StepsOn};

use crate::replay_end::ReplayEnd;
use crate::tally::Tally;
use call_records::INPUT_MAX;
use command_stream::{Bad, Command, Decoder, HEADER_BYTES};
use es2_replay::{Fault, Machine};

/// Applies a command, and counts what it made.
fn play(command: &Command<'_>, machine: &mut Machine, tally: &mut Tally) -> Result<(), ReplayEnd>
    requires count { machine.old.count < 2 ^ 62 }
    requires draws { tally.old.draws < 2 ^ 63 }
    requires clears { tally.old.clears < 2 ^ 63 }
    requires mipmaps { tally.old.mipmaps < 2 ^ 63 }
    ensures { PlaysOne command.now machine.old tally.old machine.new tally.new result }
{
    match machine.apply(command) {
        Ok(made) => {
            tally.add(made);
            Ok(())
        }
        Err(Fault::Gl(code)) => Err(ReplayEnd::Faults(machine.count() + 1, code)),
        Err(Fault::Outside) => Err(ReplayEnd::Faults(machine.count() + 1, 1)),
        Err(Fault::Memory) => Err(ReplayEnd::Memory),
    }
}

/// Takes a piece up to the end of the next command, which is applied, or all of it where no command ends in it, and
/// returns how many bytes; `taken` bytes were taken before it.
pub fn step(
    decoder: &mut Decoder,
    machine: &mut Machine,
    tally: &mut Tally,
    taken: u64,
    piece: &[u8],
) -> Result<usize, ReplayEnd>
    requires playing { Playing decoder.old machine.old tally.old }
    requires taken { taken ≡ decoder.old.taken }
    requires some { 0 < length piece.now }
    ensures within { IfOk result (λ n. (0 < n) × (n ≤ length piece.now)) }
    ensures steps { (all : List ℕ) → SoFar all decoder.old machine.old tally.old
        → StepsOn all piece.now decoder.new machine.new tally.new result }
{
    if decoder.idle() && taken + HEADER_BYTES as u64 > INPUT_MAX {
        return Err(ReplayEnd::Late(taken));
    }
    match decoder.feed(piece) {
        Ok((n, None)) => Ok(n),
        Ok((n, Some(command))) => match play(&command, machine, tally) {
            Ok(()) => Ok(n),
            Err(end) => Err(end),
        },
        Err(Bad::Version) => Err(ReplayEnd::Version),
        Err(Bad::Command(at)) => Err(ReplayEnd::Refused(at)),
    }
}
