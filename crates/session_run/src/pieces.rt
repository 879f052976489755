ghost use Rattle.std.specs.Prelude.{◌≡◌, ℕ, ◌≤◌, List, [], length};
ghost use Rattle.session_run.specs.Playing.{SoFar, Playing, TakesPiece, HasMagic, ReadsOn, StreamCause};

use crate::applying::step;
use crate::replay_end::ReplayEnd;
use crate::tally::Tally;
use command_stream::{Decoder, START_BYTES};
use es2_replay::Machine;
use gl_numbers::u32_at;
use wire_io::{Source, read_full};

/// The first word of a stream: the text `ESCS`.
pub const STREAM_MAGIC: u32 = 0x5343_5345;
/// A stream is read in pieces of at most this many bytes.
pub const PIECE_BYTES: usize = 65_536;

/// Takes a piece, and applies the commands that end in it; `taken` bytes were taken before it.
fn take_piece(
    decoder: &mut Decoder,
    machine: &mut Machine,
    tally: &mut Tally,
    taken: u64,
    piece: &[u8],
) -> Result<(), ReplayEnd>
    requires playing { Playing decoder.old machine.old tally.old }
    requires taken { taken ≡ decoder.old.taken }
    requires short { length piece.now ≤ PIECE_BYTES }
    ensures takes { (all : List ℕ) → SoFar all decoder.old machine.old tally.old
        → TakesPiece all piece.now decoder.new machine.new tally.new result }
{
    let mut used = 0;
    while used < piece.len() {
        match step(decoder, machine, tally, taken + used as u64, &piece[used..]) {
            Ok(n) => used += n,
            Err(end) => return Err(end),
        }
    }
    Ok(())
}

/// Replays what follows a stream's header, up to the end of the input.
fn read_pieces<S: Source>(
    decoder: &mut Decoder,
    machine: &mut Machine,
    tally: &mut Tally,
    input: &mut S,
) -> Result<(), ReplayEnd>
    requires playing { Playing decoder.old machine.old tally.old }
    requires taken { decoder.old.taken ≡ START_BYTES }
    ensures reads { (all : List ℕ) → SoFar all decoder.old machine.old tally.old
        → HasMagic all
        → ReadsOn all (S.left input.old) (S.left input.new) decoder.new machine.new tally.new result }
    ensures cause { StreamCause (S.faults input.old) (S.faults input.new) result }
{
    let mut piece = [0u8; PIECE_BYTES];
    let mut taken = START_BYTES as u64;
    loop {
        let Ok(n) = input.read(&mut piece) else {
            return Err(ReplayEnd::Read);
        };
        if n == 0 {
            return if decoder.idle() {
                Ok(())
            } else {
                Err(ReplayEnd::Truncated(taken))
            };
        }
        match take_piece(decoder, machine, tally, taken, &piece[..n]) {
            Ok(()) => taken += n as u64,
            Err(end) => return Err(end),
        }
    }
}

/// Replays a stream: its header, and what follows it.
pub fn read_stream<S: Source>(
    decoder: &mut Decoder,
    machine: &mut Machine,
    tally: &mut Tally,
    input: &mut S,
) -> Result<(), ReplayEnd>
    requires { SoFar [] decoder.old machine.old tally.old }
    ensures reads { ReadsOn [] (S.left input.old) (S.left input.new) decoder.new machine.new tally.new result }
    ensures cause { StreamCause (S.faults input.old) (S.faults input.new) result }
{
    let mut first = [0u8; START_BYTES];
    let Ok(n) = read_full(input, &mut first) else {
        return Err(ReplayEnd::Read);
    };
    if n < START_BYTES {
        return Err(ReplayEnd::Truncated(n as u64));
    }
    if u32_at(&first) != STREAM_MAGIC {
        return Err(ReplayEnd::Magic);
    }
    match take_piece(decoder, machine, tally, 0, &first) {
        Ok(()) => read_pieces(decoder, machine, tally, input),
        Err(end) => Err(end),
    }
}
