ghost use Rattle.std.specs.Prelude.{◌≡◌, ◌+◌, ◌-◌, ◌^◌, ◌<◌, ◌≤◌, ◌↔◌, ◌⊎◌, [], Some, min, drop, length, vec_len, Contains, IsTrue, IsErr, IfOk, OnOk, OnErr, is_err, if◌then◌else◌};
ghost use Rattle.wire_io.specs.Faults.{HasCause};
ghost use Rattle.wire_io.specs.Sources.{Reads};
ghost use Rattle.wire_io.specs.Sinks.{Writes};
ghost use Rattle.wire_io.specs.Memory.{SourceState, SinkState};

use crate::copies::{copy_prefix, copy_rest};
use crate::sink::Sink;
use crate::source::Source;
use crate::status::Failed;
use std::marker::Model;

/// A source over bytes in memory that fails exactly at the listed calls of `read`, counted from 0.
#[derive(Debug, Drop)]
pub struct MemSource {
    bytes: Vec<u8>,
    next: usize,
    fail: Vec<u64>,
    calls: u64,
    faults: u64,
}

impl Model for MemSource {
    ghost use Rattle.wire_io.specs.Memory.{SourceState};

    ghost Value = { SourceState };

    ghost use Rattle.std.specs.Prelude.{◌≤◌, drop, vec_len};

    ghost view = { λ s. record { left = drop s.next s.bytes.items; fail = s.fail.items; calls = s.calls; faults = s.faults } };

    ghost invariant = { λ s. s.next ≤ vec_len s.bytes };
}

impl MemSource {
    /// A source with these bytes left, whose calls of `read` fail where `fail` lists them.
    pub fn new(bytes: Vec<u8>, fail: Vec<u64>) -> Self
        ensures { result ≡ record { left = bytes.items; fail = fail.items; calls = 0; faults = 0 } }
    {
        MemSource {
            bytes,
            next: 0,
            fail,
            calls: 0,
            faults: 0,
        }
    }
}

impl Source for MemSource {
    ghost left = { λ s. Some s.left };

    ghost faults = { λ s. s.faults };

    ghost ahead = { λ _. [] };

    fn peek(&self, _len: usize) -> Option<&[u8]> {
        None
    }

    fn skip(&mut self, _len: usize) {}

    fn read(&mut self, into: &mut [u8]) -> Result<usize, Failed>
        ensures bytes { Reads (Some self.old.left) (Some self.new.left) result into.new }
        ensures cause { HasCause self.old.faults self.new.faults result }
        ensures listed { IsErr result ↔ Contains self.old.fail self.old.calls }
        ensures most { IfOk result (λ n. n ≡ min (length self.old.left) (length into.old)) }
        ensures after { IfOk result (λ n. drop n into.new ≡ drop n into.old) }
        ensures untouched { OnErr result (into.new ≡ into.old) }
        ensures stays { self.new.fail ≡ self.old.fail }
        ensures called { self.new.calls ≡ min (self.old.calls + 1) (2 ^ 64 - 1) }
        ensures counted { self.new.faults ≡ (if is_err result then min (self.old.faults + 1) (2 ^ 64 - 1) else self.old.faults) }
    {
        let listed = self.fail.as_slice().contains(&self.calls);
        self.calls = self.calls.saturating_add(1);
        if listed {
            self.faults = self.faults.saturating_add(1);
            return Err(Failed);
        }
        let n = copy_rest(self.bytes.as_slice(), self.next, into);
        self.next += n;
        Ok(n)
    }
}

/// A sink over memory of fixed room. It fails exactly at the listed calls of `write` and `flush`, counted
/// together from 0, and at a write of a piece that isn't empty where no byte is free.
#[derive(Debug, Drop)]
pub struct MemSink {
    room: Vec<u8>,
    len: usize,
    fail: Vec<u64>,
    calls: u64,
    faults: u64,
}

impl Model for MemSink {
    ghost use Rattle.wire_io.specs.Memory.{SinkState};

    ghost Value = { SinkState };

    ghost use Rattle.std.specs.Prelude.{◌≤◌, take, vec_len};

    ghost view = { λ s. record {
      held = take s.len s.room.items;
      room = vec_len s.room;
      fail = s.fail.items;
      calls = s.calls;
      faults = s.faults;
    } };

    ghost invariant = { λ s. s.len ≤ vec_len s.room };
}

impl MemSink {
    /// A sink that holds nothing, and at most as many bytes as `room` has; its calls fail where `fail` lists
    /// them.
    pub fn new(room: Vec<u8>, fail: Vec<u64>) -> Self
        ensures { result ≡ record { held = []; room = vec_len room; fail = fail.items; calls = 0; faults = 0 } }
    {
        MemSink {
            room,
            len: 0,
            fail,
            calls: 0,
            faults: 0,
        }
    }

    /// The bytes held.
    pub fn bytes(&self) -> &[u8]
        ensures { result.now ≡ self.now.held }
    {
        &self.room.as_slice()[..self.len]
    }

    /// Counts a call, and returns whether it is one that fails.
    fn count_call(&mut self) -> bool
        ensures listed { IsTrue result ↔ Contains self.old.fail self.old.calls }
        ensures called { self.new ≡ record self.old { calls = min (self.old.calls + 1) (2 ^ 64 - 1) } }
    {
        let listed = self.fail.as_slice().contains(&self.calls);
        self.calls = self.calls.saturating_add(1);
        listed
    }

    /// Counts a fault.
    fn fault(&mut self) -> Failed
        ensures counted { self.new ≡ record self.old { faults = min (self.old.faults + 1) (2 ^ 64 - 1) } }
        ensures later { self.old.faults ≤ self.new.faults }
    {
        self.faults = self.faults.saturating_add(1);
        Failed
    }
}

impl Sink for MemSink {
    ghost held = { λ s. Some s.held };

    ghost faults = { λ s. s.faults };

    ghost handed_on = { λ _. Unit {0} };

    fn write(&mut self, bytes: &[u8]) -> Result<usize, Failed>
        ensures bytes { Writes (Some self.old.held) (Some self.new.held) result bytes.now }
        ensures cause { HasCause self.old.faults self.new.faults result }
        ensures failing { IsErr result
            ↔ (Contains self.old.fail self.old.calls ⊎ (0 < length bytes.now) × (length self.old.held ≡ self.old.room)) }
        ensures most { IfOk result (λ n. n ≡ min (length bytes.now) (self.old.room - length self.old.held)) }
        ensures stays { (self.new.fail ≡ self.old.fail) × (self.new.room ≡ self.old.room) }
        ensures called { self.new.calls ≡ min (self.old.calls + 1) (2 ^ 64 - 1) }
        ensures counted { self.new.faults ≡ (if is_err result then min (self.old.faults + 1) (2 ^ 64 - 1) else self.old.faults) }
    {
        if self.count_call() || (!bytes.is_empty() && self.len == self.room.len()) {
            return Err(self.fault());
        }
        let n = copy_prefix(bytes, &mut self.room.as_mut_slice()[self.len..]);
        self.len += n;
        Ok(n)
    }

    fn flush(&mut self) -> Result<(), Failed>
        ensures bytes { Some self.new.held ≡ Some self.old.held }
        ensures cause { HasCause self.old.faults self.new.faults result }
        ensures handed_on { OnOk result (Unit {0}) }
        ensures listed { IsErr result ↔ Contains self.old.fail self.old.calls }
        ensures stays { (self.new.fail ≡ self.old.fail) × (self.new.room ≡ self.old.room) }
        ensures called { self.new.calls ≡ min (self.old.calls + 1) (2 ^ 64 - 1) }
        ensures counted { self.new.faults ≡ (if is_err result then min (self.old.faults + 1) (2 ^ 64 - 1) else self.old.faults) }
    {
        if self.count_call() {
            return Err(self.fault());
        }
        Ok(())
    }
}
