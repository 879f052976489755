ghost use Rattle.std.specs.Prelude.{◌≡◌, ◌+◌, ◌<◌, ◌≤◌, ◌++◌, min, length, take, true, IfSome};
ghost use Rattle.command_stream.specs.DecoderState.{IsPart};
ghost use Rattle.command_stream.specs.Taking.{AreFirst, Judges, Stands, StartsIn, TakesIn};

use crate::operation::{HEADER_BYTES, Operation, START_BYTES};
use crate::write::start;
use gl_numbers::u32_at;

/// The bytes of the longest command, header and body.
pub const COMMAND_MAX: usize = 16_777_288;

/// What a piece brings of the stream's header.
#[derive(Clone, Copy)]
pub enum Start {
    /// It isn't whole.
    Unfinished,
    /// It ends after this many bytes of the piece.
    Finished(usize),
    /// Other bytes stand in its place.
    Other,
}

/// What was taken of a piece.
#[derive(Clone, Copy)]
pub enum Taken {
    /// All of it, without the end of a command: whether the stream's header is whole, and how many bytes are
    /// held.
    Part {
        started: bool,
        held: usize,
    },
    /// The bytes up to a command's end: its operation, how many bytes of the piece, and its own bytes in all.
    Whole {
        operation: Operation,
        taken: usize,
        size: usize,
    },
    /// Nothing: other bytes stand in place of the stream's header.
    OtherStart,
    /// Nothing: a command's header is refused.
    OtherCommand,
}

/// Copies the piece after the first `held` bytes.
#[inline]
pub fn hold(bytes: &mut [u8], held: usize, piece: &[u8])
    requires { held + length piece.now ≤ length bytes.old }
    ensures size { length bytes.new ≡ length bytes.old }
    ensures content { take (held + length piece.now) bytes.new ≡ take held bytes.old ++ piece.now }
{
    bytes[held..held + piece.len()].copy_from_slice(piece);
}

/// The first eight bytes of what was begun and the piece after it; None where there are fewer.
#[inline]
fn first_eight(begun: &[u8], piece: &[u8]) -> Option<[u8; 8]>
    ensures { AreFirst begun.now piece.now result }
{
    let mut first = [0u8; 8];
    if begun.is_empty() && piece.len() >= 8 {
        first.copy_from_slice(&piece[..8]);
        return Some(first);
    }
    if begun.len() >= 8 {
        first.copy_from_slice(&begun[..8]);
        return Some(first);
    }
    let more = 8 - begun.len();
    if piece.len() < more {
        return None;
    }
    hold(&mut first, 0, begun);
    hold(&mut first, begun.len(), &piece[..more]);
    Some(first)
}

/// The operation and the body's length of a command's header; None where it is refused.
#[inline]
fn judge(header: &[u8; 8]) -> Option<(Operation, u32)>
    ensures { Judges header.now result }
{
    let number = u32_at(header);
    let len = u32_at(&header[4..]);
    match Operation::numbered(number) {
        Some(operation) if operation.allows(len) => Some((operation, len)),
        _ => None,
    }
}

/// The operation of the command that stands whole at the head of a piece, and its bytes in all; None where its end isn't in
/// the piece, or its header is refused.
#[inline]
pub fn standing(piece: &[u8]) -> Option<(Operation, usize)>
    ensures { IfSome result (λ found. Stands piece.now found.0 found.1) }
{
    let Some(first) = first_eight(&[], piece) else {
        return None;
    };
    let Some((operation, len)) = judge(&first) else {
        return None;
    };
    let size = HEADER_BYTES + len as usize;
    if piece.len() < size {
        return None;
    }
    Some((operation, size))
}

/// Looks for the end of the stream's header.
fn look_for_start(begun: &[u8], piece: &[u8]) -> Start
    requires { length begun.now < START_BYTES }
    ensures { StartsIn begun.now piece.now result }
{
    let Some(first) = first_eight(begun, piece) else {
        return Start::Unfinished;
    };
    if first == start() {
        Start::Finished(START_BYTES - begun.len())
    } else {
        Start::Other
    }
}

/// Takes the piece after the first `held` bytes of a command, up to the command's end.
#[inline]
fn take_command(bytes: &mut [u8], held: usize, piece: &[u8]) -> Taken
    requires room { min (held + length piece.now) COMMAND_MAX ≤ length bytes.old }
    requires within { held ≤ length bytes.old }
    requires begun { IsPart true (take held bytes.old) }
    ensures { TakesIn true bytes.old held piece.now bytes.new result }
{
    let Some(first) = first_eight(&bytes[..held], piece) else {
        hold(bytes, held, piece);
        return Taken::Part {
            started: true,
            held: held + piece.len(),
        };
    };
    let Some((operation, len)) = judge(&first) else {
        return Taken::OtherCommand;
    };
    let size = HEADER_BYTES + len as usize;
    let more = size - held;
    if piece.len() < more {
        hold(bytes, held, piece);
        return Taken::Part {
            started: true,
            held: held + piece.len(),
        };
    }
    hold(bytes, held, &piece[..more]);
    Taken::Whole {
        operation,
        taken: more,
        size,
    }
}

/// Takes the piece after the first `held` bytes of the stream's header or else of a command, up to the end of
/// the first whole command.
#[inline]
pub fn take_in(bytes: &mut [u8], started: bool, held: usize, piece: &[u8]) -> Taken
    requires room { min (held + length piece.now) COMMAND_MAX ≤ length bytes.old }
    requires within { held ≤ length bytes.old }
    requires begun { IsPart started (take held bytes.old) }
    ensures { TakesIn started bytes.old held piece.now bytes.new result }
{
    if started {
        return take_command(bytes, held, piece);
    }
    match look_for_start(&bytes[..held], piece) {
        Start::Unfinished => {
            hold(bytes, held, piece);
            Taken::Part {
                started: false,
                held: held + piece.len(),
            }
        }
        Start::Other => Taken::OtherStart,
        Start::Finished(n) => match take_command(bytes, 0, &piece[n..]) {
            Taken::Whole {
                operation,
                taken,
                size,
            } => Taken::Whole {
                operation,
                taken: n + taken,
                size,
            },
            taken => taken,
        },
    }
}
