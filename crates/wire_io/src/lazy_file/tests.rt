use super::LazyFile;
use crate::fakes::{Folder, write_whole};
use crate::{Failed, Sink, write_all};
use std::cell::Cell;
use std::fs;
use std::test::Fail;

/// A path whose spaces belong to it.
const PATH: &str = " out.bin ";

/// A folder whose file takes short pieces, and can be made after so many refusals.
fn folder(rt: &HostRuntime, refusals: u64) -> Folder {
    Folder {
        alloc: rt.alloc(),
        path: PATH,
        most: 1_000,
        refusals: Cell::new(refusals),
        made: Cell::new(0),
    }
}

#[test]
fn a_file_is_made_once_at_the_first_byte_or_flush(rt: HostRuntime) -> Result<(), Fail> {
    let mut out = LazyFile::new(folder(&rt, 0), PATH);
    assert_eq!(rt; out.write(&[]), Ok(0));
    assert_eq!(rt; out.files.made.get(), 0, "an empty piece makes no file");
    assert_eq!(rt; out.write(&[0]), Ok(1));
    assert_eq!(rt; out.write(&[1]), Ok(1));
    assert_eq!(rt; out.flush(), Ok(()));
    assert_eq!(rt; out.files.made.get(), 1);
    let mut empty = LazyFile::new(folder(&rt, 0), PATH);
    assert_eq!(rt; empty.flush(), Ok(()));
    assert_eq!(rt; empty.files.made.get(), 1, "a flush makes it");
    Ok(())
}

#[test]
fn a_file_that_could_not_be_made_is_made_at_the_next_call(rt: HostRuntime) -> Result<(), Fail> {
    let mut out = LazyFile::new(folder(&rt, 2), PATH);
    assert_eq!(rt; out.write(&[0]), Err(Failed));
    assert_eq!(rt; out.flush(), Err(Failed));
    assert_eq!(rt; out.write(&[0, 1]), Ok(2));
    assert_eq!(rt; out.flush(), Ok(()));
    let file = out.file.as_ref().ok_or("no file")?;
    assert!(rt; file.holds(2));
    Ok(())
}

#[test]
fn short_and_long_pieces_reach_the_file_in_order(rt: HostRuntime) -> Result<(), Fail> {
    let mut out = LazyFile::new(folder(&rt, 0), PATH);
    // the file takes 1,000 bytes at a time, as long as the rest of a piece has 65,536 at least; what is left waits
    for (from, past, held) in [
        (0usize, 3usize, 0usize),
        (3, 70_000, 5_003),
        (70_000, 70_010, 5_003),
        (70_010, 140_000, 75_010),
        (140_000, 200_000, 140_546),
    ] {
        assert_eq!(rt; write_whole(&mut out, rt.alloc(), from, past)?, Ok(()));
        let file = out.file.as_ref().ok_or("no file")?;
        assert!(rt; file.holds(held), "up to {past}");
        assert_eq!(rt; file.flushes, 0);
    }
    assert_eq!(rt; out.flush(), Ok(()));
    let file = out.file.as_ref().ok_or("no file")?;
    assert!(rt; file.holds(200_000));
    assert_eq!(rt; file.flushes, 1, "the file is flushed");
    Ok(())
}

#[test]
fn a_file_that_fails_keeps_what_waits(rt: HostRuntime) -> Result<(), Fail> {
    let mut out = LazyFile::new(folder(&rt, 0), PATH);
    assert_eq!(rt; out.write(&[0, 1, 2]), Ok(3));
    out.file.as_mut().ok_or("no file")?.failing = Some(0);
    assert_eq!(rt; out.flush(), Err(Failed));
    assert_eq!(rt; out.flush(), Ok(()));
    out.file.as_mut().ok_or("no file")?.fails_to_flush = true;
    assert_eq!(rt; out.flush(), Err(Failed));
    let file = out.file.as_ref().ok_or("no file")?;
    assert!(rt; file.holds(3));
    assert_eq!(rt; file.flushes, 1);
    assert_eq!(rt; out.files.made.get(), 1, "the same file all along");
    Ok(())
}

#[test]
fn a_real_file_is_emptied_and_written_under_its_whole_name(rt: HostRuntime) -> Result<(), Fail> {
    let path = " wire_io of the tests ";
    fs::write(&rt, path, "what stood there before")?;
    let mut out = LazyFile::new(&rt, path);
    assert_eq!(rt; fs::read(&rt, path)?.len(), 23, "it isn't touched yet");
    assert_eq!(rt; write_all(&[1, 2, 3], &mut out), Ok(()));
    assert!(rt; fs::read(&rt, path)?.is_empty(), "short pieces wait");
    assert_eq!(rt; out.flush(), Ok(()));
    let held = fs::read(&rt, path)?;
    fs::remove_file(&rt, path)?;
    assert_eq!(rt; held.as_slice(), [1u8, 2, 3].as_slice());
    Ok(())
}

#[test]
fn a_file_in_a_missing_folder_is_a_fault(rt: HostRuntime) -> Result<(), Fail> {
    let mut out = LazyFile::new(&rt, "wire_io_no_such_folder/file.bin");
    assert_eq!(rt; out.write(&[]), Ok(0));
    assert_eq!(rt; out.write(&[1]), Err(Failed));
    assert_eq!(rt; out.flush(), Err(Failed));
    Ok(())
}
