use super::{StdSink, StdSource};
use crate::fakes::{ShortReader, ShortWriter, begins_with_pattern, write_part, write_whole};
use crate::{Failed, Sink, Source, read_full, write_all};
use std::test::Fail;

#[test]
fn short_pieces_are_given_from_what_was_read_ahead(rt: HostRuntime) -> Result<(), Fail> {
    let mut input = StdSource::new(ShortReader::new(rt.alloc(), 1_500, 1_000)?);
    let mut piece = [0u8; 300];
    assert_eq!(rt; input.read(&mut []), Ok(0));
    assert_eq!(rt; input.input.calls, 0, "nothing is read for an empty piece");
    for (place, n, calls) in [
        (0usize, 300usize, 1u64),
        (300, 300, 1),
        (600, 300, 1),
        (900, 100, 1),
        (1_000, 300, 2),
        (1_300, 200, 2),
        (1_500, 0, 3),
    ] {
        assert_eq!(rt; input.read(&mut piece), Ok(n), "from {place} on");
        assert!(rt; begins_with_pattern(&piece, n, place), "from {place} on");
        assert_eq!(rt; input.input.calls, calls, "from {place} on");
        assert_eq!(rt; input.input.asked, 65_536, "it reads ahead");
    }
    Ok(())
}

#[test]
fn long_pieces_are_read_where_they_are_wanted(rt: HostRuntime) -> Result<(), Fail> {
    let mut input = StdSource::new(ShortReader::new(rt.alloc(), 200_000, 40_000)?);
    let mut piece = vec![in rt.alloc(); 0u8; 65_536]?;
    assert_eq!(rt; input.read(piece.as_mut_slice()), Ok(40_000));
    assert_eq!(rt; input.input.asked, 65_536);
    assert!(rt; begins_with_pattern(piece.as_slice(), 40_000, 0));
    assert_eq!(rt;
        read_full(&mut input, &mut [0; 10]),
        Ok(10),
        "a short piece reads ahead"
    );
    let mut long = vec![in rt.alloc(); 0u8; 70_000]?;
    assert_eq!(rt; read_full(&mut input, long.as_mut_slice()), Ok(70_000));
    assert!(rt;
        begins_with_pattern(long.as_slice(), 70_000, 40_010),
        "first what was read ahead"
    );
    assert_eq!(rt; read_full(&mut input, long.as_mut_slice()), Ok(70_000));
    assert!(rt; begins_with_pattern(long.as_slice(), 70_000, 110_010));
    assert_eq!(rt;
        read_full(&mut input, long.as_mut_slice()),
        Ok(19_990),
        "up to the end"
    );
    assert!(rt; begins_with_pattern(long.as_slice(), 19_990, 180_010));
    assert_eq!(rt; input.read(piece.as_mut_slice()), Ok(0));
    Ok(())
}

#[test]
fn a_failing_read_takes_nothing(rt: HostRuntime) -> Result<(), Fail> {
    for len in [10usize, 70_000] {
        let mut reader = ShortReader::new(rt.alloc(), 100_000, 40_000)?;
        reader.failing = Some(1);
        let mut input = StdSource::new(reader);
        let mut piece = vec![in rt.alloc(); 0u8; len]?;
        let mut first = vec![in rt.alloc(); 0u8; 40_000]?;
        assert_eq!(rt; read_full(&mut input, first.as_mut_slice()), Ok(40_000));
        assert_eq!(rt; input.read(piece.as_mut_slice()), Err(Failed));
        let n = len.min(40_000);
        assert_eq!(rt;
            input.read(piece.as_mut_slice()),
            Ok(n),
            "it goes on after the fault"
        );
        assert!(rt; begins_with_pattern(piece.as_slice(), n, 40_000));
    }
    Ok(())
}

#[test]
fn short_pieces_wait_until_a_flush(rt: HostRuntime) -> Result<(), Fail> {
    let mut out = StdSink::new(ShortWriter::new(rt.alloc(), 7));
    assert_eq!(rt; write_part(&mut out, rt.alloc(), 0, 40)?, Ok(40));
    assert_eq!(rt; out.write(&[]), Ok(0));
    assert_eq!(rt; write_part(&mut out, rt.alloc(), 40, 100)?, Ok(60));
    assert_eq!(rt; out.output.writes, 0, "they wait");
    for flushes in [1u64, 2] {
        assert_eq!(rt; out.flush(), Ok(()));
        assert!(rt; out.output.holds(100));
        assert_eq!(rt; out.output.flushes, flushes, "the writer is flushed too");
    }
    Ok(())
}

#[test]
fn long_pieces_are_written_after_what_waits(rt: HostRuntime) -> Result<(), Fail> {
    for (most, n) in [(1_000usize, 1_000usize), (200_000, 65_536)] {
        let alloc = rt.alloc();
        let mut out = StdSink::new(ShortWriter::new(alloc, most));
        assert_eq!(rt; write_part(&mut out, alloc, 0, 10)?, Ok(10));
        assert_eq!(rt; write_part(&mut out, alloc, 10, 65_546)?, Ok(n));
        let held = n.wrapping_add(10);
        assert!(rt; out.output.holds(held), "it does not wait");
        assert_eq!(rt; write_whole(&mut out, alloc, held, 140_000)?, Ok(()));
        assert_eq!(rt; out.flush(), Ok(()));
        assert!(rt; out.output.holds(140_000));
    }
    Ok(())
}

#[test]
fn a_full_buffer_is_written_for_the_next_piece(rt: HostRuntime) -> Result<(), Fail> {
    let mut out = StdSink::new(ShortWriter::new(rt.alloc(), 50_000));
    for (from, past, n, held) in [
        (0usize, 60_000usize, 60_000usize, 0usize),
        (60_000, 100_000, 5_536, 0),
        (65_536, 100_000, 34_464, 65_536),
    ] {
        assert_eq!(rt; write_part(&mut out, rt.alloc(), from, past)?, Ok(n));
        assert!(rt; out.output.holds(held), "after {past}");
    }
    assert_eq!(rt; out.flush(), Ok(()));
    assert!(rt; out.output.holds(100_000));
    Ok(())
}

#[test]
fn a_failing_write_loses_nothing(rt: HostRuntime) -> Result<(), Fail> {
    let alloc = rt.alloc();
    let mut out = StdSink::new(ShortWriter::new(alloc, 40));
    out.output.failing = Some(1);
    assert_eq!(rt; write_part(&mut out, alloc, 0, 100)?, Ok(100));
    assert_eq!(rt; out.flush(), Err(Failed));
    assert!(rt; out.output.holds(40));
    assert_eq!(rt; out.output.flushes, 0);
    assert_eq!(rt; out.flush(), Ok(()), "what is left still waits");
    assert!(rt; out.output.holds(100));
    out.output.failing = Some(out.output.writes);
    assert_eq!(rt;
        write_part(&mut out, alloc, 100, 70_000)?,
        Err(Failed),
        "a long piece"
    );
    out.output.fails_to_flush = true;
    assert_eq!(rt; out.flush(), Err(Failed), "the writer can't be flushed");
    out.output.most = 0;
    assert_eq!(rt;
        write_part(&mut out, alloc, 100, 70_000)?,
        Err(Failed),
        "it takes nothing"
    );
    assert!(rt; out.output.holds(100));
    Ok(())
}

#[test]
fn an_empty_standard_input_is_at_its_end(rt: HostRuntime) -> Result<(), Fail> {
    let mut input = StdSource::new(rt.stdin());
    let mut piece = [7u8; 4];
    assert_eq!(rt; input.read(&mut []), Ok(0));
    assert_eq!(rt; read_full(&mut input, &mut piece), Ok(0));
    assert_eq!(rt; piece, [7; 4]);
    Ok(())
}

#[test]
fn standard_output_takes_a_line(rt: HostRuntime) -> Result<(), Fail> {
    let mut out = StdSink::new(rt.stdout());
    assert_eq!(rt; write_all(b"a line by way of the sink\n", &mut out), Ok(()));
    assert_eq!(rt; out.flush(), Ok(()));
    Ok(())
}
