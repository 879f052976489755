ghost use Rattle.std.specs.Prelude.{IfOk, ◌+◌, ◌<◌, ◌≤◌, ◌^◌, length};

use crate::tests::{START, stream};
use crate::{Bad, BufferCommand, Command, Decoder, ObjectCommand};
use std::alloc::Global;
use std::test::Fail;

/// The commands of the stream that `stream` gives.
const COMMANDS: [Command<'static>; 5] = [
    Command::Object(ObjectCommand::MakeBuffer(3)),
    Command::Buffer(BufferCommand::BindBuffer {
        target: 0x8892,
        name: 3,
    }),
    Command::Buffer(BufferCommand::BufferSize {
        target: 0x8892,
        usage: 0x88E4,
        size: 2,
    }),
    Command::Buffer(BufferCommand::BufferBytes {
        target: 0x8892,
        offset: 0,
        bytes: &[0xAA, 0xBB],
    }),
    Command::Object(ObjectCommand::DropBuffer(3)),
];

/// Whether the decoder answers so to the piece.
fn answers(
    decoder: &mut Decoder,
    piece: &[u8],
    answer: Result<(usize, Option<Command<'_>>), Bad>,
) -> bool
    requires { decoder.old.taken + length piece.now < 2 ^ 62 }
    ensures { decoder.new.taken ≤ decoder.old.taken + length piece.now }
{
    decoder.feed(piece) == answer
}

/// Feeds the bytes in pieces of at most `size`, compares the commands with those expected, and answers how many
/// there were; one more than are expected where one differs.
fn count_equal(
    decoder: &mut Decoder,
    bytes: &[u8],
    size: usize,
    expected: &[Command<'_>],
) -> Result<usize, Bad>
    requires room { decoder.old.taken + length bytes.now < 2 ^ 62 }
    requires some { 0 < size }
    ensures { decoder.new.taken ≤ decoder.old.taken + length bytes.now }
{
    let mut rest = bytes;
    let mut found = 0usize;
    while !rest.is_empty() {
        match decoder.feed(&rest[..size.min(rest.len())]) {
            Ok((n, command)) => {
                if let Some(command) = command {
                    if expected.get(found) != Some(&command) {
                        return Ok(expected.len().saturating_add(1));
                    }
                    found = found.saturating_add(1);
                }
                rest = &rest[n..];
            }
            Err(bad) => return Err(bad),
        }
    }
    Ok(found)
}

#[test]
fn pieces_of_any_size_give_the_same_commands(rt: HostRuntime) -> Result<(), Fail> {
    let stream = stream(rt.alloc())?;
    for size in [1, 3, 5, 7, 13, 86] {
        let mut decoder = Decoder::new(rt.alloc())?;
        assert_eq!(rt;
            count_equal(&mut decoder, &stream, size.max(1), &COMMANDS),
            Ok(5),
            "pieces of {size}"
        );
        assert!(rt; decoder.idle(), "pieces of {size}");
    }
    Ok(())
}

#[test]
fn one_piece_is_taken_command_by_command(rt: HostRuntime) -> Result<(), Fail> {
    let stream = stream(rt.alloc())?;
    let mut decoder = Decoder::new(rt.alloc())?;
    assert!(rt;
        answers(
            &mut decoder,
            &stream,
            Ok((20, Some(Command::Object(ObjectCommand::MakeBuffer(3)))))
        )
    );
    assert!(rt;
        answers(
            &mut decoder,
            &stream[20..],
            Ok((
                16,
                Some(Command::Buffer(BufferCommand::BindBuffer {
                    target: 0x8892,
                    name: 3
                }))
            ))
        )
    );
    assert!(rt; answers(&mut decoder, &stream[36..38], Ok((2, None))));
    assert!(rt; answers(&mut decoder, &[], Ok((0, None))));
    assert!(rt;
        answers(
            &mut decoder,
            &stream[38..],
            Ok((
                18,
                Some(Command::Buffer(BufferCommand::BufferSize {
                    target: 0x8892,
                    usage: 0x88E4,
                    size: 2
                }))
            ))
        )
    );
    assert!(rt;
        answers(
            &mut decoder,
            &stream[56..],
            Ok((
                18,
                Some(Command::Buffer(BufferCommand::BufferBytes {
                    target: 0x8892,
                    offset: 0,
                    bytes: &[0xAA, 0xBB]
                }))
            ))
        )
    );
    assert!(rt;
        answers(
            &mut decoder,
            &stream[74..],
            Ok((12, Some(Command::Object(ObjectCommand::DropBuffer(3)))))
        )
    );
    Ok(())
}

#[test]
fn it_is_idle_between_two_commands(rt: HostRuntime) -> Result<(), Fail> {
    let stream = stream(rt.alloc())?;
    for (taken, found, idle) in [
        (0, 0, false),
        (1, 0, false),
        (7, 0, false),
        (8, 0, true),
        (9, 0, false),
        (16, 0, false),
        (19, 0, false),
        (20, 1, true),
        (73, 3, false),
        (74, 4, true),
    ] {
        let mut decoder = Decoder::new(rt.alloc())?;
        let prefix = stream.get(..taken).ok_or("prefix")?;
        assert_eq!(rt;
            count_equal(&mut decoder, prefix, 3, &COMMANDS),
            Ok(found),
            "after {taken}"
        );
        assert_eq!(rt; decoder.idle(), idle, "after {taken}");
    }
    Ok(())
}

/// A decoder that has taken this many bytes of the stream.
fn decoder_at(alloc: Global, at: usize) -> Result<Decoder, Fail>
    ensures { IfOk result (λ decoder. decoder.taken ≤ 86) }
{
    let stream = stream(alloc)?;
    let mut decoder = Decoder::new(alloc)?;
    let prefix = stream.get(..at).ok_or("prefix")?;
    count_equal(&mut decoder, prefix, 64, &COMMANDS)?;
    Ok(decoder)
}

#[test]
fn each_refused_header_is_told_at_its_offset(rt: HostRuntime) -> Result<(), Fail> {
    let cases: [([u8; 8], usize, Bad); 14] = [
        ([0x45, 0x53, 0x43, 0x54, 1, 0, 0, 0], 0, Bad::Version),
        ([0x57, 0x47, 0x4C, 0x52, 1, 0, 0, 0], 0, Bad::Version),
        ([0x45, 0x53, 0x43, 0x53, 2, 0, 0, 0], 0, Bad::Version),
        ([0x45, 0x53, 0x43, 0x53, 1, 0, 0, 1], 0, Bad::Version),
        ([0, 0, 0, 0, 0, 0, 0, 0], 8, Bad::Command(8)),
        ([2, 0, 0, 0, 4, 0, 0, 0], 8, Bad::Command(8)),
        ([1, 0, 0, 1, 4, 0, 0, 0], 20, Bad::Command(20)),
        ([1, 0, 0, 0, 0, 0, 0, 0], 20, Bad::Command(20)),
        ([6, 0, 0, 0, 8, 0, 0, 0], 36, Bad::Command(36)),
        ([11, 0, 0, 0, 4, 0, 0, 0], 36, Bad::Command(36)),
        ([12, 0, 0, 0, 13, 0, 0, 0], 56, Bad::Command(56)),
        ([13, 0, 0, 0, 7, 0, 0, 0], 74, Bad::Command(74)),
        ([13, 0, 0, 0, 0x41, 0, 0, 1], 86, Bad::Command(86)),
        (
            [0xFF, 0xFF, 0xFF, 0xFF, 0xFF, 0xFF, 0xFF, 0xFF],
            86,
            Bad::Command(86),
        ),
    ];
    for (header, at, bad) in cases {
        let mut decoder = decoder_at(rt.alloc(), at)?;
        assert!(rt;
            count_equal(&mut decoder, &header, 5, &COMMANDS) == Err(bad),
            "{bad:?}"
        );
    }
    Ok(())
}

#[test]
fn a_refused_header_changes_nothing(rt: HostRuntime) -> Result<(), Fail> {
    let stream = stream(rt.alloc())?;
    let mut decoder = Decoder::new(rt.alloc())?;
    assert!(rt; answers(&mut decoder, &stream[..3], Ok((3, None))));
    assert!(rt; answers(&mut decoder, &[0x54, 1, 0, 0, 0], Err(Bad::Version)));
    assert!(rt;
        answers(
            &mut decoder,
            &[0x53, 1, 0, 0, 0, 9, 0, 0, 0, 4, 0, 0, 0],
            Err(Bad::Command(8))
        )
    );
    assert!(rt; answers(&mut decoder, &stream[3..18], Ok((15, None))));
    assert!(rt;
        answers(
            &mut decoder,
            &stream[18..],
            Ok((2, Some(Command::Object(ObjectCommand::MakeBuffer(3)))))
        )
    );
    assert!(rt; answers(&mut decoder, &stream[20..22], Ok((2, None))));
    assert!(rt; answers(&mut decoder, &[0, 0, 9, 0, 0, 0], Err(Bad::Command(20))));
    assert!(rt;
        answers(
            &mut decoder,
            &stream[22..],
            Ok((
                14,
                Some(Command::Buffer(BufferCommand::BindBuffer {
                    target: 0x8892,
                    name: 3
                }))
            ))
        )
    );
    Ok(())
}

#[test]
fn the_longest_body_is_taken(rt: HostRuntime) -> Result<(), Fail> {
    let mut decoder = Decoder::new(rt.alloc())?;
    let header = [13, 0, 0, 0, 0x40, 0, 0, 1, 0x92, 0x88, 0, 0, 0, 0, 0, 0];
    let data = vec![in rt.alloc(); 7; 16_777_272]?;
    let command = Command::Buffer(BufferCommand::BufferBytes {
        target: 0x8892,
        offset: 0,
        bytes: data.as_slice(),
    });
    assert!(rt; answers(&mut decoder, &START, Ok((8, None))));
    assert!(rt; answers(&mut decoder, &header, Ok((16, None))));
    assert!(rt;
        answers(
            &mut decoder,
            data.as_slice(),
            Ok((16_777_272, Some(command)))
        )
    );
    assert!(rt; decoder.idle());
    Ok(())
}
