use crate::{Failed, MemSink, MemSource, Sink, Source, Status, read_full, write_all};
use std::test::Fail;

#[test]
fn a_source_gives_its_bytes_and_then_the_end(rt: HostRuntime) -> Result<(), Fail> {
    let mut input = MemSource::new(vec![in rt.alloc(); 1, 2, 3, 4, 5]?, vec![in rt.alloc()]?);
    let mut piece = [9u8; 3];
    assert_eq!(rt; input.read(&mut []), Ok(0));
    assert_eq!(rt; input.read(&mut piece), Ok(3));
    assert_eq!(rt; piece, [1, 2, 3]);
    assert_eq!(rt; input.read(&mut piece), Ok(2));
    assert_eq!(rt; piece, [4, 5, 3]);
    assert_eq!(rt; input.read(&mut piece), Ok(0));
    Ok(())
}

#[test]
fn a_source_fails_at_the_listed_calls(rt: HostRuntime) -> Result<(), Fail> {
    let mut input = MemSource::new(vec![in rt.alloc(); 1, 2]?, vec![in rt.alloc(); 1, 2, 4]?);
    let mut piece = [0u8; 1];
    assert_eq!(rt; input.read(&mut []), Ok(0));
    assert_eq!(rt;
        input.read(&mut []),
        Err(Failed),
        "an empty piece counts as a call"
    );
    assert_eq!(rt; input.read(&mut piece), Err(Failed));
    assert_eq!(rt; input.read(&mut piece), Ok(1));
    assert_eq!(rt; input.read(&mut piece), Err(Failed));
    assert_eq!(rt; input.read(&mut piece), Ok(1));
    assert_eq!(rt; piece, [2], "a failed call took nothing");
    Ok(())
}

#[test]
fn reads_fill_a_piece_or_stop_at_the_end(rt: HostRuntime) -> Result<(), Fail> {
    let mut input = MemSource::new(vec![in rt.alloc(); 1, 2, 3, 4]?, vec![in rt.alloc(); 3]?);
    let mut piece = [0u8; 3];
    assert_eq!(rt; read_full(&mut input, &mut piece), Ok(3));
    assert_eq!(rt; read_full(&mut input, &mut piece), Ok(1));
    assert_eq!(rt; piece, [4, 2, 3]);
    assert_eq!(rt; read_full(&mut input, &mut piece), Err(Failed));
    Ok(())
}

#[test]
fn a_sink_takes_what_it_has_room_for(rt: HostRuntime) -> Result<(), Fail> {
    let mut out = MemSink::new(vec![in rt.alloc(); 0; 3]?, vec![in rt.alloc()]?);
    assert_eq!(rt; out.write(&[1, 2]), Ok(2));
    assert_eq!(rt; out.write(&[3, 4]), Ok(1));
    assert_eq!(rt; out.write(&[]), Ok(0));
    assert_eq!(rt; out.write(&[5]), Err(Failed), "no byte is free");
    assert_eq!(rt; out.flush(), Ok(()));
    assert_eq!(rt; out.bytes(), [1u8, 2, 3].as_slice());
    Ok(())
}

#[test]
fn a_sink_fails_at_the_listed_calls(rt: HostRuntime) -> Result<(), Fail> {
    let mut out = MemSink::new(vec![in rt.alloc(); 0; 9]?, vec![in rt.alloc(); 1, 3, 4]?);
    assert_eq!(rt; out.write(&[]), Ok(0));
    assert_eq!(rt; out.flush(), Err(Failed), "flushes count with writes");
    assert_eq!(rt; out.write(&[1, 2]), Ok(2));
    assert_eq!(rt; out.write(&[]), Err(Failed));
    assert_eq!(rt; write_all(&[3], &mut out), Err(Failed));
    assert_eq!(rt; write_all(&[4, 5], &mut out), Ok(()));
    assert_eq!(rt; out.bytes(), [1u8, 2, 4, 5].as_slice());
    Ok(())
}

#[test]
fn a_full_sink_keeps_a_prefix_of_the_piece(rt: HostRuntime) -> Result<(), Fail> {
    let mut out = MemSink::new(vec![in rt.alloc(); 0; 2]?, vec![in rt.alloc()]?);
    assert_eq!(rt; write_all(&[1, 2, 3], &mut out), Err(Failed));
    assert_eq!(rt; out.bytes(), [1u8, 2].as_slice());
    Ok(())
}

#[test]
fn a_status_is_printed_as_one_line(rt: HostRuntime) -> Result<(), Fail> {
    let texts = [
        (Status::Ok, "ok"),
        (Status::OutOfMemory, "out of memory"),
        (Status::Usage, "usage"),
        (
            Status::BadInput { at: 20, kind: 4 },
            "bad input at 20 kind 4",
        ),
        (Status::Truncated { at: 7 }, "truncated at 7"),
        (Status::ReadFault, "read fault"),
        (Status::WriteFault, "write fault"),
        (
            Status::ReplayFault {
                command: 3,
                code: 1282,
            },
            "replay fault at command 3 code 1282",
        ),
    ];
    for (status, text) in texts {
        let printed = format!(in rt.alloc(); "{status}")?;
        assert_eq!(rt; printed.as_str(), text);
    }
    Ok(())
}
