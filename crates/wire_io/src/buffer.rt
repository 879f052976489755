ghost use Rattle.std.specs.Prelude.{IfSome, ◌≡◌, ◌+◌, ◌-◌, ◌^◌, ◌<◌, ◌≤◌, [], ◌++◌, min, length, take, drop, true, false, OnOk, OnErr};
ghost use Rattle.std.specs.Io.KnownBytes.{IsAtEnd};
ghost use Rattle.wire_io.specs.Faults.{CountsErrors, HasCause};
ghost use Rattle.wire_io.specs.Buffers.{BufferState, empty_buffer, Gives, GivesWaiting, KeepsShort, Passes, ReadsThrough, WritesThrough};

use crate::copies::{copy_prefix, copy_rest};
use crate::status::Failed;
use std::io::{Read, Write};
use std::marker::Model;

/// How many bytes a buffer holds.
const CAPACITY: usize = 65_536;

/// Bytes that wait in order, in a fixed array, on their way from a reader or to a writer; and the number of
/// faults so far. Pieces of the array's size or more go past it, once nothing waits.
#[derive(Drop)]
pub struct Buffer {
    bytes: [u8; CAPACITY],
    start: usize,
    end: usize,
    faults: u64,
}

impl Model for Buffer {
    ghost use Rattle.wire_io.specs.Buffers.{BufferState};
    ghost use Rattle.wire_io.specs.declared.buffer.TheConstants.{CAPACITY};

    ghost Value = { BufferState };

    ghost use Rattle.std.specs.Prelude.{◌-◌, ◌≤◌, take, drop};

    ghost view = { λ b. record { waiting = drop b.start (take b.end b.bytes); room = CAPACITY - b.end; faults = b.faults } };

    ghost invariant = { λ b. (b.start ≤ b.end) × (b.end ≤ CAPACITY) };
}

/// Copies as many bytes of the piece as fit after the first `end`, and returns how many.
#[inline(always)]
fn append_at(bytes: &mut [u8], end: usize, piece: &[u8]) -> usize
    requires { end ≤ length bytes.old }
    ensures fits { result ≡ min (length piece.now) (length bytes.old - end) }
    ensures content { take (end + result) bytes.new ≡ take end bytes.old ++ take result piece.now }
{
    copy_prefix(piece, &mut bytes[end..])
}

/// Writes the bytes from `start` on, and moves `start` past those that were written.
fn write_out<W: Write>(bytes: &[u8], start: &mut usize, out: &mut W) -> Result<(), Failed>
    requires { start.old ≤ length bytes.now }
    ensures within { start.new ≤ length bytes.now }
    ensures whole { OnOk result (start.new ≡ length bytes.now) }
    ensures content { Passes (W.contents out.old) (W.contents out.new) (drop start.old bytes.now) [] (drop start.new bytes.now) }
{
    while *start < bytes.len() {
        let Ok(n) = out.write(&bytes[*start..]) else {
            return Err(Failed);
        };
        if n == 0 {
            return Err(Failed);
        }
        *start += n;
    }
    Ok(())
}

impl Buffer {
    /// An empty buffer with no fault.
    pub fn new() -> Self
        ensures { result ≡ empty_buffer }
    {
        Buffer {
            bytes: [0; CAPACITY],
            start: 0,
            end: 0,
            faults: 0,
        }
    }

    /// Counts a fault.
    #[cold]
    pub fn fault(&mut self) -> Failed
        ensures counted { self.new ≡ record self.old { faults = min (self.old.faults + 1) (2 ^ 64 - 1) } }
        ensures later { self.old.faults ≤ self.new.faults }
    {
        self.faults = self.faults.saturating_add(1);
        Failed
    }

    /// The bytes that wait.
    fn waiting(&self) -> &[u8]
        ensures { result.now ≡ self.now.waiting }
    {
        let filled = &self.bytes[..self.end];
        &filled[self.start..]
    }

    /// Takes as much of the piece as there is room for, and returns how many bytes.
    #[inline(always)]
    fn put(&mut self, piece: &[u8]) -> usize
        ensures fits { result ≡ min (length piece.now) self.old.room }
        ensures content { self.new.waiting ≡ self.old.waiting ++ take result piece.now }
        ensures faults { self.new.faults ≡ self.old.faults }
    {
        let n = append_at(&mut self.bytes, self.end, piece);
        self.end += n;
        n
    }

    /// Gives the next bytes that wait, as many as fit, and returns how many.
    #[inline]
    fn give(&mut self, into: &mut [u8]) -> usize
        ensures fits { result ≡ min (length self.old.waiting) (length into.old) }
        ensures content { self.old.waiting ≡ take result into.new ++ self.new.waiting }
        ensures faults { self.new.faults ≡ self.old.faults }
    {
        let n = copy_rest(&self.bytes[..self.end], self.start, into);
        self.start += n;
        n
    }

    /// Reads as many bytes as the array has, where nothing waits.
    fn fill<R: Read>(&mut self, from: &mut R) -> Result<(), Failed>
        requires { self.old.waiting ≡ [] }
        ensures content { OnOk result (Gives (R.remaining from.old) (R.remaining from.new) [] [] self.new.waiting) }
        ensures end { OnOk result (self.new.waiting ≡ [] → IsAtEnd (R.remaining from.new)) }
        ensures kept { OnErr result (Gives (R.remaining from.old) (R.remaining from.new) [] [] [] × (self.new.waiting ≡ [])) }
        ensures cause { HasCause self.old.faults self.new.faults result }
        ensures counted { CountsErrors self.old.faults self.new.faults result }
    {
        self.start = 0;
        self.end = 0;
        let Ok(n) = from.read(&mut self.bytes) else {
            return Err(self.fault());
        };
        self.end = n;
        Ok(())
    }

    /// Writes all that waits; what a fault leaves unwritten still waits.
    fn drain<W: Write>(&mut self, out: &mut W) -> Result<(), Failed>
        ensures whole { OnOk result ((self.new.waiting ≡ []) × (self.new.room ≡ CAPACITY)) }
        ensures content { Passes (W.contents out.old) (W.contents out.new) self.old.waiting [] self.new.waiting }
        ensures cause { HasCause self.old.faults self.new.faults result }
        ensures counted { CountsErrors self.old.faults self.new.faults result }
    {
        let mut sent = 0;
        let result = write_out(self.waiting(), &mut sent, out);
        self.start += sent;
        if result.is_err() {
            return Err(self.fault());
        }
        self.start = 0;
        self.end = 0;
        Ok(())
    }

    /// The first bytes that wait, where there are so many.
    #[inline(always)]
    pub fn peek(&self, len: usize) -> Option<&[u8]>
        ensures { IfSome result (λ piece. (len ≤ length self.now.waiting) × (piece.now ≡ take len self.now.waiting)) }
    {
        if len > self.end - self.start {
            return None;
        }
        Some(&self.waiting()[..len])
    }

    /// Takes the first bytes that wait.
    #[inline(always)]
    pub fn skip(&mut self, len: usize)
        requires { len ≤ length self.old.waiting }
        ensures left { self.new.waiting ≡ drop len self.old.waiting }
        ensures faults { self.new.faults ≡ self.old.faults }
    {
        self.start += len;
    }

    /// Fills the piece where so many bytes wait.
    #[inline]
    pub fn give_whole(&mut self, into: &mut [u8]) -> bool
        ensures given { result ≡ true → self.old.waiting ≡ into.new ++ self.new.waiting }
        ensures left { result ≡ false → self.new ≡ self.old }
        ensures faults { self.new.faults ≡ self.old.faults }
    {
        if into.len() > self.end - self.start {
            return false;
        }
        let _ = self.give(into);
        true
    }

    /// Takes all of the piece where there is room for it.
    #[inline(always)]
    pub fn keep(&mut self, piece: &[u8]) -> bool
        ensures kept { result ≡ true → self.new.waiting ≡ self.old.waiting ++ piece.now }
        ensures left { result ≡ false → self.new ≡ self.old }
        ensures faults { self.new.faults ≡ self.old.faults }
    {
        if piece.len() > CAPACITY - self.end {
            return false;
        }
        let _ = self.put(piece);
        true
    }

    /// Reads through the buffer: first what waits, then what the reader gives. A piece of the array's size or
    /// more is read past the buffer, where nothing waits.
    pub fn read_from<R: Read>(&mut self, from: &mut R, into: &mut [u8]) -> Result<usize, Failed>
        ensures bytes { ReadsThrough (R.remaining from.old) (R.remaining from.new) self.old.waiting self.new.waiting result into.new }
        ensures waiting { GivesWaiting self.old self.new result into.new }
        ensures cause { HasCause self.old.faults self.new.faults result }
        ensures counted { CountsErrors self.old.faults self.new.faults result }
    {
        if !self.waiting().is_empty() || into.is_empty() {
            return Ok(self.give(into));
        }
        if into.len() >= CAPACITY {
            return self.read_past(from, into);
        }
        self.fill(from)?;
        Ok(self.give(into))
    }

    /// Reads straight into the piece, where nothing waits.
    fn read_past<R: Read>(&mut self, from: &mut R, into: &mut [u8]) -> Result<usize, Failed>
        requires { self.old.waiting ≡ [] }
        ensures bytes { ReadsThrough (R.remaining from.old) (R.remaining from.new) [] [] result into.new }
        ensures stays { self.new.waiting ≡ [] }
        ensures cause { HasCause self.old.faults self.new.faults result }
        ensures counted { CountsErrors self.old.faults self.new.faults result }
    {
        let Ok(n) = from.read(into) else {
            return Err(self.fault());
        };
        Ok(n)
    }

    /// Writes through the buffer: takes what there is room for. A piece of the array's size or more is written
    /// past the buffer, once nothing waits.
    pub fn write_to<W: Write>(&mut self, out: &mut W, piece: &[u8]) -> Result<usize, Failed>
        ensures bytes { WritesThrough (W.contents out.old) (W.contents out.new) self.old.waiting self.new.waiting result piece.now }
        ensures short { KeepsShort self.old self.new result piece.now }
        ensures cause { HasCause self.old.faults self.new.faults result }
        ensures counted { CountsErrors self.old.faults self.new.faults result }
    {
        let is_long = piece.len() >= CAPACITY;
        if self.end == CAPACITY || is_long {
            self.drain(out)?;
        }
        if is_long {
            return self.write_past(out, piece);
        }
        Ok(self.put(piece))
    }

    /// Writes the piece itself, where nothing waits.
    fn write_past<W: Write>(&mut self, out: &mut W, piece: &[u8]) -> Result<usize, Failed>
        requires { self.old.waiting ≡ [] }
        ensures bytes { WritesThrough (W.contents out.old) (W.contents out.new) [] [] result piece.now }
        ensures stays { self.new.waiting ≡ [] }
        ensures cause { HasCause self.old.faults self.new.faults result }
        ensures counted { CountsErrors self.old.faults self.new.faults result }
    {
        match out.write(piece) {
            Ok(n) if n > 0 || piece.is_empty() => Ok(n),
            _ => Err(self.fault()),
        }
    }

    /// Writes all that waits, and flushes the writer.
    pub fn flush_to<W: Write>(&mut self, out: &mut W) -> Result<(), Failed>
        ensures whole { OnOk result (self.new.waiting ≡ []) }
        ensures content { Passes (W.contents out.old) (W.contents out.new) self.old.waiting [] self.new.waiting }
        ensures cause { HasCause self.old.faults self.new.faults result }
        ensures counted { CountsErrors self.old.faults self.new.faults result }
    {
        self.drain(out)?;
        if out.flush().is_err() {
            return Err(self.fault());
        }
        Ok(())
    }
}
