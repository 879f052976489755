ghost use Rattle.std.specs.Prelude.{◌≡◌, ℕ, ◌≤◌, string_bytes, IfOk};
ghost use Rattle.wire_io.specs.Faults.{Rose};
ghost use Rattle.session_run.specs.Tallies.{counts};
ghost use Rattle.session_run.specs.Playing.{FinishesOne, TellsLine};

use crate::tally::Tally;
use std::alloc::{AllocError, Global};
use wire_io::{Sink, Status, write_all};

/// Flushes the sink, and returns the status, or WriteFault where that failed.
pub fn finish<O: Sink>(status: Status, out: &mut O) -> Status
    ensures same { O.held out.new ≡ O.held out.old }
    ensures finishes { FinishesOne (O.handed_on out.new) (O.faults out.old) (O.faults out.new) status result }
{
    if out.flush().is_err() {
        return Status::WriteFault;
    }
    status
}

/// The line that tells the numbers of a replay; an error where memory runs out.
fn line(alloc: Global, count: u64, tally: Tally) -> Result<String, AllocError>
    ensures { IfOk result (λ text. string_bytes text ≡ counts count tally) }
{
    let Tally {
        draws,
        clears,
        mipmaps,
    } = tally;
    format!(in alloc; "commands {count} draws {draws} clears {clears} mipmaps {mipmaps}\n")
}

/// Writes the line that tells the numbers of a replay, and flushes the sink.
pub fn tell<O: Sink>(alloc: Global, count: u64, tally: Tally, out: &mut O) -> Status
    ensures tells { TellsLine (counts count tally) (O.held out.old) (O.held out.new) result }
    ensures later { O.faults out.old ≤ O.faults out.new }
    ensures write_fault { result ≡ Status.WriteFault → Rose (O.faults out.old) (O.faults out.new) }
    ensures handed_on { (result ≡ Status.WriteFault → ⊥) → O.handed_on out.new }
{
    let Ok(text) = line(alloc, count, tally) else {
        return finish(Status::OutOfMemory, out);
    };
    let Ok(()) = write_all(text.as_bytes(), out) else {
        return Status::WriteFault;
    };
    finish(Status::Ok, out)
}
