ghost use Rattle.std.specs.Prelude.{◌≡◌, ℕ, ◌<◌, List, [], Option, None, Ok, length, false, true, IsSome, OnOk};
ghost use Rattle.wire_io.specs.Faults.{CountsErrors, HasCause};
ghost use Rattle.wire_io.specs.Sinks.{Writes};
ghost use Rattle.wire_io.specs.Buffers.{KeepsShort, empty_buffer};

use crate::buffer::Buffer;
use crate::sink::Sink;
use crate::status::Failed;
use std::fs;
use std::marker::Model;
use std::rt::Files;

/// A file as a sink: made, and emptied where it is there, at the first `write` of a piece that isn't empty or
/// at the first `flush`, whichever comes first. Up to 65,536 bytes wait for a `write` that needs their room, or
/// for `flush`; pieces of that length or more are written straight from where they lie. It takes no memory, and
/// contracts know nothing of what it holds. An error of any kind that the system returns is a fault, and so is
/// a write that takes nothing. What waits when it is dropped is lost.
#[derive(Drop)]
pub struct LazyFile<'a, R: Files + Drop> {
    files: R,
    path: &'a str,
    file: Option<R::File>,
    unsent: Buffer,
}

impl<'a, R: Files + Drop> Model for LazyFile<'a, R> {
    ghost use Rattle.wire_io.specs.Buffers.{LazyState};
    ghost use Rattle.std.specs.Prelude.{is_some};

    ghost Value = { LazyState };

    ghost view = { λ s. record { path = s.path.now; is_open = is_some s.file; unsent = s.unsent } };
}

impl<'a, R: Files + Drop> LazyFile<'a, R> {
    /// A sink over the file of this path, which isn't touched yet, with no fault.
    pub fn new(files: R, path: &'a str) -> Self
        ensures { result ≡ record { path = path.now; is_open = false; unsent = empty_buffer } }
    {
        LazyFile {
            files,
            path,
            file: None,
            unsent: Buffer::new(),
        }
    }

    /// Makes the file, and writes the piece to it.
    #[cold]
    #[inline(never)]
    fn write_first(&mut self, bytes: &[u8]) -> Result<usize, Failed>
        requires closed { self.old.is_open ≡ false }
        requires some { 0 < length bytes.now }
        ensures bytes { Writes None None result bytes.now }
        ensures cause { HasCause self.old.unsent.faults self.new.unsent.faults result }
        ensures opens { OnOk result (self.new.is_open ≡ true) }
        ensures path { self.new.path ≡ self.old.path }
        ensures short { self.new.is_open ≡ true → KeepsShort self.old.unsent self.new.unsent result bytes.now }
        ensures counted { CountsErrors self.old.unsent.faults self.new.unsent.faults result }
    {
        let Ok(mut file) = fs::create(&self.files, self.path) else {
            return Err(self.unsent.fault());
        };
        let result = self.unsent.write_to(&mut file, bytes);
        self.file = Some(file);
        result
    }
}

impl<'a, R: Files + Drop> Sink for LazyFile<'a, R> {
    ghost held = { λ _. None };

    ghost faults = { λ s. s.unsent.faults };

    ghost handed_on = { λ s. s.unsent.waiting ≡ [] };

    #[inline(always)]
    fn keep(&mut self, bytes: &[u8]) -> bool {
        self.file.is_some() && self.unsent.keep(bytes)
    }

    fn write(&mut self, bytes: &[u8]) -> Result<usize, Failed>
        ensures bytes { Writes None None result bytes.now }
        ensures cause { HasCause self.old.unsent.faults self.new.unsent.faults result }
        ensures empty { length bytes.now ≡ 0 → (result ≡ Ok 0) × (self.new ≡ self.old) }
        ensures opens { OnOk result (0 < length bytes.now → self.new.is_open ≡ true) }
        ensures stays { (self.new.path ≡ self.old.path) × (self.old.is_open ≡ true → self.new.is_open ≡ true) }
        ensures short { self.new.is_open ≡ true → 0 < length bytes.now → KeepsShort self.old.unsent self.new.unsent result bytes.now }
        ensures counted { CountsErrors self.old.unsent.faults self.new.unsent.faults result }
    {
        if bytes.is_empty() {
            return Ok(0);
        }
        match &mut self.file {
            Some(file) => self.unsent.write_to(file, bytes),
            None => self.write_first(bytes),
        }
    }

    fn flush(&mut self) -> Result<(), Failed>
        ensures bytes { ◌≡◌ {A = Option (List ℕ)} None None }
        ensures cause { HasCause self.old.unsent.faults self.new.unsent.faults result }
        ensures handed_on { OnOk result (self.new.unsent.waiting ≡ []) }
        ensures opens { OnOk result (self.new.is_open ≡ true) }
        ensures stays { (self.new.path ≡ self.old.path) × (self.old.is_open ≡ true → self.new.is_open ≡ true) }
        ensures counted { CountsErrors self.old.unsent.faults self.new.unsent.faults result }
    {
        let Some(mut file) = opened(self.file.take(), &self.files, self.path) else {
            return Err(self.unsent.fault());
        };
        let result = self.unsent.flush_to(&mut file);
        self.file = Some(file);
        result
    }
}

/// The file that is open, or else a new one, where it can be made.
fn opened<R: Files>(file: Option<R::File>, files: &R, path: &str) -> Option<R::File>
    ensures { IsSome file → result ≡ file }
{
    match file {
        Some(file) => Some(file),
        None => fs::create(files, path).ok(),
    }
}

#[cfg(test)]
mod tests;
