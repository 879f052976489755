use crate::{Create, Find, Names};
use gl_numbers::{HANDLES_MAX, Handle, Kind};
use std::process::Abort;
use std::test::Fail;

/// Makes one object of the kind, and returns its handle and driver name.
fn make(names: &mut Names, kind: Kind) -> Result<(Handle, u32), Create> {
    let (_, driver) = names.room(kind)?;
    Ok((names.create(kind), driver))
}

#[test]
fn handles_count_over_all_kinds(rt: HostRuntime) {
    let mut names = Names::new(rt.alloc());
    for (kind, made) in [
        (Kind::Buffer, (1, 3)),
        (Kind::Texture, (2, 4)),
        (Kind::Shader, (3, 0)),
        (Kind::Renderbuffer, (4, 6)),
        (Kind::Framebuffer, (5, 7)),
        (Kind::Program, (6, 0)),
        (Kind::Buffer, (7, 9)),
    ] {
        assert_eq!(rt; make(&mut names, kind), Ok(made));
    }
}

#[test]
fn the_last_handle_is_1048576(rt: HostRuntime) {
    let mut names = Names::new(rt.alloc());
    for h in 1..=HANDLES_MAX {
        assert_eq!(rt; make(&mut names, Kind::Buffer), Ok((h, h.wrapping_add(2))));
    }
    assert_eq!(rt; names.room(Kind::Program), Err(Create::Spent));
    assert_eq!(rt; names.find(1_048_576, Kind::Buffer), Find::Live);
    assert_eq!(rt; names.find(1_048_577, Kind::Buffer), Find::Stranger);
}

/// Checks what a handle names as a buffer.
fn names_buffer(rt: &impl Abort, names: &Names, h: Handle, want: Find) {
    assert_eq!(rt; names.find(h, Kind::Buffer), want);
    assert_eq!(rt; names.is_kind(h, Kind::Buffer), want == Find::Live);
}

#[test]
#[tactic(auto, using(gl_numbers::proofs::ByHandle::of_objects))]
fn a_held_object_is_gone_once_it_is_let_go(rt: HostRuntime) -> Result<(), Fail> {
    let mut names = Names::new(rt.alloc());
    let Ok(_) = names.room(Kind::Buffer) else {
        return Err("no memory")?;
    };
    let h = names.create(Kind::Buffer);
    names_buffer(&rt, &names, 0, Find::Null);
    names_buffer(&rt, &names, h, Find::Live);
    assert_eq!(rt; names.find(h, Kind::Texture), Find::Stranger);
    assert_eq!(rt; names.driver(h), 3);
    names.hold(h);
    assert!(rt; !names.delete(h), "it is held");
    names_buffer(&rt, &names, h, Find::Marked);
    assert!(rt; names.release(h), "it is marked");
    names_buffer(&rt, &names, h, Find::Gone);
    Ok(())
}

#[test]
#[tactic(auto, using(gl_numbers::proofs::ByHandle::of_objects))]
fn an_object_that_nothing_holds_is_gone_at_once(rt: HostRuntime) -> Result<(), Fail> {
    let mut names = Names::new(rt.alloc());
    let Ok(_) = names.room(Kind::Buffer) else {
        return Err("no memory")?;
    };
    let h = names.create(Kind::Buffer);
    names.hold(h);
    assert!(rt; !names.release(h), "it isn't marked");
    assert!(rt; names.delete(h), "nothing holds it");
    names_buffer(&rt, &names, h, Find::Gone);
    Ok(())
}
