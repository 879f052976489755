ghost use Rattle.std.specs.Prelude.{◌<◌, IfOk};

use super::Machine;
use crate::faults::Fault;
use command_stream::{BufferCommand, Command, ObjectCommand};
use std::alloc::Global;
use std::process::Abort;
use std::test::Fail;

const ARRAY: u32 = 0x8892;

const ELEMENT_ARRAY: u32 = 0x8893;

const STATIC_DRAW: u32 = 0x88E4;

fn make<'a>(name: u32) -> Command<'a> {
    Command::Object(ObjectCommand::MakeBuffer(name))
}

fn drop_buffer<'a>(name: u32) -> Command<'a> {
    Command::Object(ObjectCommand::DropBuffer(name))
}

fn bind<'a>(target: u32, name: u32) -> Command<'a> {
    Command::Buffer(BufferCommand::BindBuffer { target, name })
}

fn size<'a>(target: u32, usage: u32, size: u32) -> Command<'a> {
    Command::Buffer(BufferCommand::BufferSize {
        target,
        usage,
        size,
    })
}

fn bytes(target: u32, offset: u32, bytes: &[u8]) -> Command<'_> {
    Command::Buffer(BufferCommand::BufferBytes {
        target,
        offset,
        bytes,
    })
}

/// Seven commands: buffer 3 of the bytes 1 2 3 4 at ARRAY_BUFFER, buffer 4 without bytes at ELEMENT_ARRAY_BUFFER, and
/// buffer 5, which was never bound.
fn with_buffers(alloc: Global) -> Result<Machine, Fault>
    ensures { IfOk result (λ m. m.count < 10) }
{
    let mut machine = Machine::new(alloc);
    machine.apply(&make(3))?;
    machine.apply(&make(4))?;
    machine.apply(&make(5))?;
    machine.apply(&bind(ARRAY, 3))?;
    machine.apply(&size(ARRAY, STATIC_DRAW, 4))?;
    machine.apply(&bytes(ARRAY, 0, &[1, 2, 3, 4]))?;
    machine.apply(&bind(ELEMENT_ARRAY, 4))?;
    Ok(machine)
}

/// The buffer of a name has these bytes.
fn holds(rt: &impl Abort, machine: &Machine, name: u32, expected: &[u8]) {
    match machine.buffers.get(name) {
        Some(buffer) => assert!(rt; buffer.holds(expected), "buffer {name}"),
        None => assert!(rt; false, "buffer {name} is made"),
    }
}

/// After the seven each command has this fault or none, and changes no bytes and no count where it has one.
fn judges(
    rt: &impl Abort,
    alloc: Global,
    cases: &[(Command<'_>, Option<u32>)],
) -> Result<(), Fail> {
    for (command, code) in cases {
        let mut machine = with_buffers(alloc)?;
        let applied = machine.apply(command);
        match *code {
            None => {
                assert_eq!(rt; applied, Ok(None), "{command:?}");
                assert_eq!(rt; machine.count(), 8, "{command:?}");
            }
            Some(code) => {
                assert_eq!(rt; applied, Err(Fault::Gl(code)), "{command:?}");
                assert_eq!(rt; machine.count(), 7, "{command:?}");
                holds(rt, &machine, 3, &[1, 2, 3, 4]);
            }
        }
    }
    Ok(())
}

#[test]
fn names_are_made_once_and_dropped_once(rt: HostRuntime) -> Result<(), Fail> {
    judges(
        &rt,
        rt.alloc(),
        &[
            (make(0), Some(0x0502)),
            (make(3), Some(0x0502)),
            (make(5), Some(0x0502)),
            (make(1), None),
            (make(6), None),
            (make(0xFFFF_FFFF), None),
            (drop_buffer(0), Some(0x0502)),
            (drop_buffer(6), Some(0x0502)),
            (drop_buffer(3), None),
            (drop_buffer(5), None),
        ],
    )
}

#[test]
fn a_buffer_is_bound_to_its_first_target_alone(rt: HostRuntime) -> Result<(), Fail> {
    judges(
        &rt,
        rt.alloc(),
        &[
            (bind(0x8894, 3), Some(0x0500)),
            (bind(0x8891, 6), Some(0x0500)),
            (bind(0, 0), Some(0x0500)),
            (bind(ARRAY, 6), Some(0x0502)),
            (bind(ELEMENT_ARRAY, 2), Some(0x0502)),
            (bind(ARRAY, 4), Some(0x0502)),
            (bind(ELEMENT_ARRAY, 3), Some(0x0502)),
            (bind(ARRAY, 3), None),
            (bind(ARRAY, 5), None),
            (bind(ELEMENT_ARRAY, 5), None),
            (bind(ARRAY, 0), None),
        ],
    )
}

#[test]
fn sizes_go_up_to_64_mib(rt: HostRuntime) -> Result<(), Fail> {
    judges(
        &rt,
        rt.alloc(),
        &[
            (size(0x8894, 0, 67_108_865), Some(0x0500)),
            (size(ARRAY, 0x88E1, 67_108_865), Some(0x0500)),
            (size(ARRAY, 0, 0), Some(0x0500)),
            (size(ARRAY, 0x88E0, 67_108_865), Some(0x0501)),
            (size(ELEMENT_ARRAY, STATIC_DRAW, 0xFFFF_FFFF), Some(0x0501)),
            (size(ARRAY, 0x88E0, 67_108_864), None),
            (size(ELEMENT_ARRAY, 0x88E8, 67_108_864), None),
            (size(ARRAY, STATIC_DRAW, 0), None),
        ],
    )
}

#[test]
fn bytes_lie_inside_their_buffer(rt: HostRuntime) -> Result<(), Fail> {
    judges(
        &rt,
        rt.alloc(),
        &[
            (bytes(0x8894, 9, &[7]), Some(0x0500)),
            (bytes(ARRAY, 0, &[7; 5]), Some(0x0501)),
            (bytes(ARRAY, 1, &[7; 4]), Some(0x0501)),
            (bytes(ARRAY, 4, &[7]), Some(0x0501)),
            (bytes(ARRAY, 5, &[]), Some(0x0501)),
            (bytes(ARRAY, 0xFFFF_FFFF, &[7]), Some(0x0501)),
            (bytes(ELEMENT_ARRAY, 0, &[7]), Some(0x0501)),
            (bytes(ELEMENT_ARRAY, 1, &[]), Some(0x0501)),
            (bytes(ARRAY, 0, &[7; 4]), None),
            (bytes(ARRAY, 3, &[7]), None),
            (bytes(ARRAY, 4, &[]), None),
            (bytes(ELEMENT_ARRAY, 0, &[]), None),
        ],
    )
}

#[test]
fn data_needs_a_bound_buffer(rt: HostRuntime) {
    let mut machine = Machine::new(rt.alloc());
    for target in [ARRAY, ELEMENT_ARRAY] {
        for (command, code) in [
            (size(target, STATIC_DRAW, 67_108_865), 0x0501),
            (size(target, STATIC_DRAW, 67_108_864), 0x0502),
            (bytes(target, 0, &[]), 0x0502),
            (bytes(target, 1, &[7]), 0x0502),
        ] {
            assert_eq!(rt; machine.count(), 0);
            assert_eq!(rt;
                machine.apply(&command),
                Err(Fault::Gl(code)),
                "{command:?}"
            );
        }
    }
}

#[test]
fn bytes_are_written_over_zeros(rt: HostRuntime) -> Result<(), Fail> {
    let mut machine = with_buffers(rt.alloc())?;
    assert_eq!(rt; machine.apply(&bytes(ARRAY, 1, &[7, 8])), Ok(None));
    holds(&rt, &machine, 3, &[1, 7, 8, 4]);
    assert_eq!(rt; machine.apply(&size(ARRAY, STATIC_DRAW, 3)), Ok(None));
    holds(&rt, &machine, 3, &[0, 0, 0]);
    assert_eq!(rt; machine.apply(&bytes(ARRAY, 2, &[9])), Ok(None));
    holds(&rt, &machine, 3, &[0, 0, 9]);
    holds(&rt, &machine, 4, &[]);
    Ok(())
}

#[test]
fn a_dropped_name_is_bound_no_longer_and_comes_back_new(rt: HostRuntime) -> Result<(), Fail> {
    let mut machine = with_buffers(rt.alloc())?;
    assert_eq!(rt; machine.apply(&drop_buffer(3)), Ok(None));
    assert_eq!(rt;
        machine.apply(&bytes(ARRAY, 0, &[])),
        Err(Fault::Gl(0x0502))
    );
    assert_eq!(rt; machine.apply(&bytes(ELEMENT_ARRAY, 0, &[])), Ok(None));
    assert_eq!(rt; machine.apply(&make(3)), Ok(None));
    holds(&rt, &machine, 3, &[]);
    assert_eq!(rt; machine.apply(&bind(ELEMENT_ARRAY, 3)), Ok(None));
    Ok(())
}

#[test]
fn names_of_any_size_hold_their_bytes(rt: HostRuntime) -> Result<(), Fail> {
    for name in [6, 1024, 1032, 1_048_578, 1_048_579, 0xFFFF_FFFF] {
        let mut machine = with_buffers(rt.alloc())?;
        assert_eq!(rt; machine.apply(&make(name)), Ok(None), "{name}");
        assert_eq!(rt; machine.apply(&bind(ARRAY, name)), Ok(None), "{name}");
        assert_eq!(rt; machine.apply(&size(ARRAY, STATIC_DRAW, 2)), Ok(None));
        assert_eq!(rt; machine.apply(&bytes(ARRAY, 1, &[7])), Ok(None));
        holds(&rt, &machine, name, &[0, 7]);
        holds(&rt, &machine, 3, &[1, 2, 3, 4]);
        assert_eq!(rt; machine.apply(&drop_buffer(name)), Ok(None), "{name}");
        assert_eq!(rt; machine.apply(&make(name)), Ok(None), "{name}");
        holds(&rt, &machine, name, &[]);
    }
    Ok(())
}
