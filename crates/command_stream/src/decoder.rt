ghost use Rattle.std.specs.Prelude.{◌≡◌, ◌+◌, ◌<◌, ◌≤◌, ◌^◌, ◌↔◌, ⊤, [], length, false, true, IsTrue, IfOk};
ghost use Rattle.std.specs.Borrow.{sem, follows_so};
ghost use mathlib.Core.Option.{none};
ghost use Rattle.command_stream.specs.contracts.decoder.Decoder.{the_row};
ghost use Rattle.command_stream.specs.Decoding.{Feeds};
ghost use Rattle.command_stream.specs.DecoderState.{command_at};

use crate::bad::Bad;
use crate::command::{Command, command_of};
use crate::operation::{HEADER_BYTES, START_BYTES};
use crate::room::reach;
use crate::taking::{COMMAND_MAX, Taken, standing, take_in};
use gl_numbers::Memory;
use std::alloc::Global;
use std::marker::Model;

/// The commands of a stream that comes in pieces. It is seen as what it has taken: whether the stream's header
/// is whole, the bytes of the header or else of the command begun, and how many bytes in all.
#[derive(Debug, Drop)]
pub struct Decoder {
    bytes: Vec<u8>,
    held: usize,
    started: bool,
    taken: u64,
}

impl Model for Decoder {
    ghost use Rattle.std.specs.Prelude.{take};
    ghost use Rattle.std.specs.Vec.{vec_capacity};
    ghost use Rattle.command_stream.specs.DecoderState.{DecoderState, IsDecoder};

    ghost Value = { DecoderState };

    ghost view = { λ d. record { started = d.started; begun = take d.held d.bytes.items; taken = d.taken } };

    ghost invariant = { λ d. IsDecoder d.started d.bytes.items (vec_capacity d.bytes) d.held d.taken };
}

impl Decoder {
    /// A decoder that has taken nothing, with room for the longest command; Memory where memory runs out.
    pub fn new(alloc: Global) -> Result<Self, Memory>
        ensures { IfOk result (λ decoder. decoder ≡ record { started = false; begun = []; taken = 0 }) }
    {
        let mut bytes = Vec::new(alloc);
        match bytes.reserve_exact(COMMAND_MAX) {
            Ok(()) => Ok(Decoder {
                bytes,
                held: 0,
                started: false,
                taken: 0,
            }),
            Err(_) => Err(Memory),
        }
    }

    /// Whether the stream's header and any number of whole commands were taken, and nothing else.
    pub fn idle(&self) -> bool
        ensures { IsTrue result ↔ (self.now.started ≡ true) × (self.now.begun ≡ []) }
    {
        self.started && self.held == 0
    }

    /// The offset of the command that comes next or is begun.
    fn command_at(&self) -> u64
        ensures { result ≡ command_at self.now.started self.now.begun self.now.taken }
    {
        if self.started {
            self.taken - self.held as u64
        } else {
            START_BYTES as u64
        }
    }

    /// Takes the piece's bytes up to the end of the next whole command, or all of them where no command ends in
    /// them, and returns how many, and the command. Bad comes exactly where a whole header is refused; then
    /// nothing is taken. A command that stands whole in the piece is lent from there.
    #[inline]
    pub fn feed<'d>(&'d mut self, piece: &'d [u8]) -> Result<(usize, Option<Command<'d>>), Bad>
        requires { self.old.taken < 2 ^ 63 }
        ensures within { IfOk result (λ found. found.0 ≤ length piece.now) }
        ensures progress { IfOk result (λ found. 0 < length piece.now → 0 < found.0) }
        ensures* after { sem 𝓛 (follows_so the_row the_row self.entry.ghost_name none (λ _ _. ⊤)
            (λ new. Feeds self.old piece.now new result)) }
    {
        if self.idle() {
            if let Some((operation, size)) = standing(piece) {
                self.taken += size as u64;
                let whole = &piece[..size];
                return Ok((size, Some(command_of(operation, &whole[HEADER_BYTES..]))));
            }
        }
        self.feed_held(piece)
    }

    /// The same, where the command is lent from the decoder's own bytes, which the piece's follow.
    fn feed_held<'d>(&'d mut self, piece: &[u8]) -> Result<(usize, Option<Command<'d>>), Bad>
        requires { self.old.taken < 2 ^ 63 }
        ensures within { IfOk result (λ found. found.0 ≤ length piece.now) }
        ensures progress { IfOk result (λ found. 0 < length piece.now → 0 < found.0) }
        ensures* after { sem 𝓛 (follows_so the_row the_row self.entry.ghost_name none (λ _ _. ⊤)
            (λ new. Feeds self.old piece.now new result)) }
    {
        reach(&mut self.bytes, self.held, piece);
        match take_in(self.bytes.as_mut_slice(), self.started, self.held, piece) {
            Taken::OtherStart => Err(Bad::Version),
            Taken::OtherCommand => Err(Bad::Command(self.command_at())),
            Taken::Part { started, held } => {
                self.started = started;
                self.held = held;
                self.taken += piece.len() as u64;
                Ok((piece.len(), None))
            }
            Taken::Whole {
                operation,
                taken,
                size,
            } => {
                self.started = true;
                self.held = 0;
                self.taken += taken as u64;
                let whole = &self.bytes.as_slice()[..size];
                Ok((taken, Some(command_of(operation, &whole[HEADER_BYTES..]))))
            }
        }
    }
}
