//! A reader, a writer and a folder of the tests' own. They count their calls, take short pieces, fail where they are
//! told to, and remember flushes.

use crate::{Failed, Sink, write_all};
use std::alloc::{AllocError, Allocator, Global};
use std::cell::Cell;
use std::fs::{Metadata, OpenFile, OpenOptions};
use std::io;
use std::io::{Empty, ErrorKind, Read, Seek, SeekFrom, Write};
use std::rt::Files;

/// The byte at this place of the pattern that tests read and write. Its period fits into no buffer a whole number of
/// times, so that a byte that is lost or sent twice shows.
fn byte_at(place: usize) -> u8 {
    (place % 251) as u8
}

/// The bytes of the pattern from one place to another.
fn pattern(alloc: Global, from: usize, past: usize) -> Result<Vec<u8>, AllocError> {
    let mut bytes = Vec::new(alloc);
    for place in from..past {
        bytes.push(byte_at(place))?;
    }
    Ok(bytes)
}

/// Whether there are so many bytes at least, and the first of them are those of the pattern from this place on.
pub fn begins_with_pattern(bytes: &[u8], len: usize, from: usize) -> bool {
    let Some(part) = bytes.get(..len) else {
        return false;
    };
    let mut place = from;
    for byte in part {
        if *byte != byte_at(place) {
            return false;
        }
        place = place.wrapping_add(1);
    }
    true
}

/// Writes the bytes of the pattern from one place to another, in one call.
pub fn write_part<K: Sink>(
    out: &mut K,
    alloc: Global,
    from: usize,
    past: usize,
) -> Result<Result<usize, Failed>, AllocError> {
    let part = pattern(alloc, from, past)?;
    Ok(out.write(part.as_slice()))
}

/// Writes all the bytes of the pattern from one place to another.
pub fn write_whole<K: Sink>(
    out: &mut K,
    alloc: Global,
    from: usize,
    past: usize,
) -> Result<Result<(), Failed>, AllocError> {
    let part = pattern(alloc, from, past)?;
    Ok(write_all(part.as_slice(), out))
}

fn refused() -> io::Error {
    io::Error::from(ErrorKind::Other)
}

/// A reader that gives bytes in short pieces.
#[derive(Drop)]
pub struct ShortReader {
    pub bytes: Vec<u8>,
    pub next: usize,
    /// The most bytes that one call gives.
    pub most: usize,
    /// The call that fails, from 0.
    pub failing: Option<u64>,
    pub calls: u64,
    /// The length of the last piece that it was asked to fill.
    pub asked: usize,
}

impl ShortReader {
    /// A reader of this many bytes of the pattern.
    pub fn new(alloc: Global, len: usize, most: usize) -> Result<Self, AllocError> {
        Ok(ShortReader {
            bytes: pattern(alloc, 0, len)?,
            next: 0,
            most,
            failing: None,
            calls: 0,
            asked: 0,
        })
    }
}

impl Read for ShortReader {
    fn read(&mut self, buf: &mut [u8]) -> io::Result<usize> {
        let call = self.calls;
        self.calls = call.wrapping_add(1);
        self.asked = buf.len();
        if self.failing == Some(call) {
            return Err(refused());
        }
        let rest = self.bytes.as_slice().get(self.next..).unwrap_or(&[]);
        let n = rest.len().min(buf.len()).min(self.most);
        buf[..n].copy_from_slice(&rest[..n]);
        self.next = self.next.wrapping_add(n);
        Ok(n)
    }
}

/// A writer that takes short pieces; it stands for an open file too.
#[derive(Drop)]
pub struct ShortWriter {
    pub held: Vec<u8>,
    /// The most bytes that one call takes.
    pub most: usize,
    /// The write that fails, from 0.
    pub failing: Option<u64>,
    pub fails_to_flush: bool,
    pub writes: u64,
    pub flushes: u64,
}

impl ShortWriter {
    /// A writer that holds nothing.
    pub fn new(alloc: Global, most: usize) -> Self {
        ShortWriter {
            held: Vec::new(alloc),
            most,
            failing: None,
            fails_to_flush: false,
            writes: 0,
            flushes: 0,
        }
    }

    /// Whether it holds this many bytes of the pattern.
    pub fn holds(&self, len: usize) -> bool {
        self.held.len() == len && begins_with_pattern(self.held.as_slice(), len, 0)
    }
}

impl Write for ShortWriter {
    fn write(&mut self, buf: &[u8]) -> io::Result<usize> {
        let call = self.writes;
        self.writes = call.wrapping_add(1);
        if self.failing == Some(call) {
            return Err(refused());
        }
        let n = buf.len().min(self.most);
        if self.held.extend_from_slice(&buf[..n]).is_err() {
            return Err(io::Error::from(ErrorKind::OutOfMemory));
        }
        Ok(n)
    }

    fn flush(&mut self) -> io::Result<()> {
        if self.fails_to_flush {
            return Err(refused());
        }
        self.flushes = self.flushes.wrapping_add(1);
        Ok(())
    }
}

impl Read for ShortWriter {
    fn read(&mut self, _buf: &mut [u8]) -> io::Result<usize> {
        Err(refused())
    }
}

impl Seek for ShortWriter {
    fn seek(&mut self, _to: SeekFrom) -> io::Result<u64> {
        Err(refused())
    }
}

impl OpenFile for ShortWriter {
    fn metadata(&self) -> io::Result<Metadata> {
        Err(refused())
    }

    fn set_len(&self, _size: u64) -> io::Result<()> {
        Err(refused())
    }

    fn sync_all(&self) -> io::Result<()> {
        Err(refused())
    }

    fn sync_data(&self) -> io::Result<()> {
        Err(refused())
    }
}

/// A folder in which one path alone can be made.
#[derive(Drop)]
pub struct Folder {
    pub alloc: Global,
    pub path: &'static str,
    /// The most bytes that one write to its file takes.
    pub most: usize,
    /// How many more times its file can't be made.
    pub refusals: Cell<u64>,
    /// How many times its file was made.
    pub made: Cell<u64>,
}

impl Files for Folder {
    type File = ShortWriter;

    type Dir = Empty;

    fn open_file(&self, how: &OpenOptions, path: &str) -> io::Result<ShortWriter> {
        how.check()?;
        let refusals = self.refusals.get();
        self.refusals.set(refusals.saturating_sub(1));
        if refusals > 0 || path != self.path {
            return Err(refused());
        }
        self.made.set(self.made.get().wrapping_add(1));
        Ok(ShortWriter::new(self.alloc, self.most))
    }

    fn open_dir(&self, _path: &str) -> io::Result<Empty> {
        Err(refused())
    }

    fn metadata(&self, _path: &str) -> io::Result<Metadata> {
        Err(refused())
    }

    fn symlink_metadata(&self, _path: &str) -> io::Result<Metadata> {
        Err(refused())
    }

    fn copy(&self, _from: &str, _to: &str) -> io::Result<u64> {
        Err(refused())
    }

    fn rename(&self, _from: &str, _to: &str) -> io::Result<()> {
        Err(refused())
    }

    fn remove_file(&self, _path: &str) -> io::Result<()> {
        Err(refused())
    }

    fn create_dir(&self, _path: &str) -> io::Result<()> {
        Err(refused())
    }

    fn remove_dir(&self, _path: &str) -> io::Result<()> {
        Err(refused())
    }

    fn remove_dir_all<B: Allocator>(&self, _alloc: B, _path: &str) -> io::Result<()> {
        Err(refused())
    }
}
