ghost use Rattle.std.specs.Prelude.{◌≡◌, ℕ, List, [], Option, None, OnOk};
ghost use Rattle.wire_io.specs.Faults.{CountsErrors, HasCause};
ghost use Rattle.wire_io.specs.Sources.{Reads};
ghost use Rattle.wire_io.specs.Sinks.{Writes};
ghost use Rattle.wire_io.specs.Buffers.{GivesWaiting, KeepsShort, empty_buffer};

use crate::buffer::Buffer;
use crate::sink::Sink;
use crate::source::Source;
use crate::status::Failed;
use std::io::{Read, Write};
use std::marker::Model;

/// A source over one of std's readers, as standard input. It reads ahead by up to 65,536 bytes, and reads
/// straight into pieces of that length or more. It takes no memory, and contracts know nothing of what is left.
/// An error of any kind that the reader returns is a fault.
#[derive(Drop)]
pub struct StdSource<R: Read + Drop> {
    input: R,
    ahead: Buffer,
}

impl<R: Read + Drop> Model for StdSource<R> {
    ghost use Rattle.wire_io.specs.Buffers.{BufferState};

    ghost Value = { BufferState };

    ghost view = { λ s. s.ahead };
}

impl<R: Read + Drop> StdSource<R> {
    /// A source over this reader, with nothing read ahead and no fault.
    pub fn new(input: R) -> Self
        ensures { result ≡ empty_buffer }
    {
        StdSource {
            input,
            ahead: Buffer::new(),
        }
    }
}

impl<R: Read + Drop> Source for StdSource<R> {
    ghost left = { λ _. None };

    ghost faults = { λ s. s.faults };

    ghost ahead = { λ s. s.waiting };

    #[inline(always)]
    fn peek(&self, len: usize) -> Option<&[u8]> {
        self.ahead.peek(len)
    }

    #[inline(always)]
    fn skip(&mut self, len: usize) {
        self.ahead.skip(len);
    }

    #[inline]
    fn give(&mut self, into: &mut [u8]) -> bool {
        self.ahead.give_whole(into)
    }

    fn read(&mut self, into: &mut [u8]) -> Result<usize, Failed>
        ensures bytes { Reads None None result into.new }
        ensures cause { HasCause self.old.faults self.new.faults result }
        ensures waiting { GivesWaiting self.old self.new result into.new }
        ensures counted { CountsErrors self.old.faults self.new.faults result }
    {
        self.ahead.read_from(&mut self.input, into)
    }
}

/// A sink over one of std's writers, as standard output. Up to 65,536 bytes wait for a `write` that needs their
/// room, or for `flush`; pieces of that length or more are written straight from where they lie. It takes no
/// memory, and contracts know nothing of what it holds. An error of any kind that the writer returns is a fault,
/// and so is a write that takes nothing. What waits when it is dropped is lost.
#[derive(Drop)]
pub struct StdSink<W: Write + Drop> {
    output: W,
    unsent: Buffer,
}

impl<W: Write + Drop> Model for StdSink<W> {
    ghost use Rattle.wire_io.specs.Buffers.{BufferState};

    ghost Value = { BufferState };

    ghost view = { λ s. s.unsent };
}

impl<W: Write + Drop> StdSink<W> {
    /// A sink over this writer, with nothing unsent and no fault.
    pub fn new(output: W) -> Self
        ensures { result ≡ empty_buffer }
    {
        StdSink {
            output,
            unsent: Buffer::new(),
        }
    }
}

impl<W: Write + Drop> Sink for StdSink<W> {
    ghost held = { λ _. None };

    ghost faults = { λ s. s.faults };

    ghost handed_on = { λ s. s.waiting ≡ [] };

    #[inline(always)]
    fn keep(&mut self, bytes: &[u8]) -> bool {
        self.unsent.keep(bytes)
    }

    fn write(&mut self, bytes: &[u8]) -> Result<usize, Failed>
        ensures bytes { Writes None None result bytes.now }
        ensures cause { HasCause self.old.faults self.new.faults result }
        ensures short { KeepsShort self.old self.new result bytes.now }
        ensures counted { CountsErrors self.old.faults self.new.faults result }
    {
        self.unsent.write_to(&mut self.output, bytes)
    }

    fn flush(&mut self) -> Result<(), Failed>
        ensures bytes { ◌≡◌ {A = Option (List ℕ)} None None }
        ensures cause { HasCause self.old.faults self.new.faults result }
        ensures handed_on { OnOk result (self.new.waiting ≡ []) }
        ensures counted { CountsErrors self.old.faults self.new.faults result }
    {
        self.unsent.flush_to(&mut self.output)
    }
}

#[cfg(test)]
mod tests;
