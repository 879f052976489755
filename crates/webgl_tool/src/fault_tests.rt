//! Runs whose ends fail, and the order in which they are used.

ghost use Rattle.std.specs.Prelude.{◌-◌, ◌^◌, None, []};

use crate::filling::{ends, filling_session};
use crate::over_memory::words_of;
use crate::tool::run_tool;
use std::cell::Cell;
use std::test::Fail;
use wire_io::{Failed, MemSource, Sink, Source, Status};

#[test]
fn a_failing_read_ends_the_run_after_what_was_served(rt: HostRuntime) -> Result<(), Fail> {
    let mut call = 0u64;
    for left in [
        (0usize, 8usize),
        (0, 8),
        (12, 20),
        (12, 20),
        (20, 36),
        (20, 36),
        (28, 74),
        (40, 74),
        (40, 74),
    ] {
        let failing: [&[u64]; 3] = [&[call], &[], &[]];
        assert!(rt;
            ends(rt.alloc(), 66, failing, Status::ReadFault, left)?,
            "read {call}"
        );
        call = call.saturating_add(1);
    }
    let failing: [&[u64]; 3] = [&[call], &[], &[]];
    assert!(rt;
        ends(rt.alloc(), 66, failing, Status::Ok, (40, 74))?,
        "there is no read {call}"
    );
    Ok(())
}

#[test]
fn a_failing_reply_leaves_its_commands_whole(rt: HostRuntime) -> Result<(), Fail> {
    let mut call = 0u64;
    for left in [(0usize, 20usize), (12, 36), (20, 74), (28, 74), (40, 74)] {
        let failing: [&[u64]; 3] = [&[], &[call], &[]];
        assert!(rt;
            ends(rt.alloc(), 66, failing, Status::WriteFault, left)?,
            "call {call} on out"
        );
        call = call.saturating_add(1);
    }
    Ok(())
}

#[test]
fn a_call_whose_command_fails_has_no_reply(rt: HostRuntime) -> Result<(), Fail> {
    let mut call = 0u64;
    // what a bufferData sends is written in two pieces, of which the second is the bytes; the last call is the flush, after which the
    // replies are flushed too
    for left in [
        (0usize, 0usize),
        (0, 8),
        (12, 20),
        (20, 36),
        (20, 72),
        (40, 74),
    ] {
        let failing: [&[u64]; 3] = [&[], &[], &[call]];
        assert!(rt;
            ends(rt.alloc(), 66, failing, Status::WriteFault, left)?,
            "call {call} on stream"
        );
        call = call.saturating_add(1);
    }
    Ok(())
}

/// A source without a byte, which remembers how many bytes had gone to the stream when it was first read.
#[derive(Drop)]
struct LateSource<'a> {
    sent: &'a Cell<u64>,
    first: &'a Cell<Option<u64>>,
}

impl Source for LateSource<'_> {
    ghost left = { λ _. None };

    ghost faults = { λ _. 2 ^ 64 - 1 };

    ghost ahead = { λ _. [] };

    fn peek(&self, _len: usize) -> Option<&[u8]> {
        None
    }

    fn skip(&mut self, _len: usize) {}

    fn read(&mut self, _into: &mut [u8]) -> Result<usize, Failed> {
        if self.first.get().is_none() {
            self.first.set(Some(self.sent.get()));
        }
        Ok(0)
    }
}

/// A sink that takes all, counts its bytes, and whose flushes join a number of which each digit is a sink.
#[derive(Drop)]
struct Noted<'a> {
    digit: u64,
    taken: &'a Cell<u64>,
    flushes: &'a Cell<u64>,
    fails: bool,
}

impl Sink for Noted<'_> {
    ghost held = { λ _. None };

    ghost faults = { λ _. 2 ^ 64 - 1 };

    ghost handed_on = { λ _. Unit {0} };

    fn write(&mut self, bytes: &[u8]) -> Result<usize, Failed> {
        self.taken
            .set(self.taken.get().wrapping_add(bytes.len() as u64));
        Ok(bytes.len())
    }

    fn flush(&mut self) -> Result<(), Failed> {
        self.flushes.set(self.flushes.get().wrapping_mul(10).wrapping_add(self.digit));
        if self.fails {
            return Err(Failed);
        }
        Ok(())
    }
}

#[test]
fn the_header_is_written_before_the_first_byte_is_read(rt: HostRuntime) -> Result<(), Fail> {
    let alloc = rt.alloc();
    let words = words_of(alloc, &["run", "out.bin"])?;
    let (sent, replied, flushes, first) = (
        Cell::new(0),
        Cell::new(0),
        Cell::new(0),
        Cell::new(None),
    );
    let mut input = LateSource {
        sent: &sent,
        first: &first,
    };
    let mut stream = Noted {
        digit: 1,
        taken: &sent,
        flushes: &flushes,
        fails: false,
    };
    let mut out = Noted {
        digit: 2,
        taken: &replied,
        flushes: &flushes,
        fails: false,
    };
    let ended = run_tool(alloc, words.as_slice(), &mut input, &mut out, &mut stream);
    assert_eq!(rt; ended, Status::Truncated { at: 0 });
    assert_eq!(rt; first.get(), Some(8), "the header has eight bytes");
    assert_eq!(rt; (sent.get(), replied.get()), (8, 0));
    Ok(())
}

#[test]
fn the_stream_is_flushed_before_the_replies(rt: HostRuntime) -> Result<(), Fail> {
    let cases: [(usize, u64, bool, Status); 4] = [
        (66, 99, false, Status::Ok),
        (66, 99, true, Status::WriteFault),
        (66, 3, false, Status::ReadFault),
        (20, 99, false, Status::Truncated { at: 20 }),
    ];
    for (taken, failing_read, fails, status) in cases {
        let alloc = rt.alloc();
        let words = words_of(alloc, &["run", "out.bin"])?;
        let (taken_bytes, flushes) = (Cell::new(0), Cell::new(0));
        let whole = filling_session(alloc)?;
        let bytes = whole.as_slice().get(..taken).ok_or("cut")?.to_vec(alloc)?;
        let mut input = MemSource::new(bytes, vec![in alloc; failing_read]?);
        let mut stream = Noted {
            digit: 1,
            taken: &taken_bytes,
            flushes: &flushes,
            fails,
        };
        let mut out = Noted {
            digit: 2,
            taken: &taken_bytes,
            flushes: &flushes,
            fails: false,
        };
        let ended = run_tool(alloc, words.as_slice(), &mut input, &mut out, &mut stream);
        assert_eq!(rt; ended, status);
        assert_eq!(rt; flushes.get(), 12, "{status}");
    }
    Ok(())
}
