use crate::{Bindings, Executable, Link, link};
use gl_numbers::Name;
use glsl_tree::Text;
use glsl_types::{Base, Field, Interface, Item, Precision, Sequence, SlType, Struct};
use std::alloc::{AllocError, Global};
use std::process::Abort;

/// A name, a type with its array size, and marks: `u` used, `i` invariant, `l`, `m` and `h` the precisions.
pub(crate) type Row = (&'static [u8], Base, u32, &'static [u8]);

/// A shader's interface, written out.
#[derive(Clone, Copy)]
pub(crate) struct Source {
    pub attributes: &'static [Row],
    pub uniforms: &'static [Row],
    pub varyings: &'static [Row],
    pub structs: &'static [(&'static [u8], &'static [Row])],
}

/// A shader without any interface.
pub(crate) const NOTHING: Source = Source {
    attributes: &[],
    uniforms: &[],
    varyings: &[],
    structs: &[],
};

/// The precision that marks name.
fn precision(marks: &[u8]) -> Precision {
    if marks.contains(&b'l') {
        Precision::Low
    } else if marks.contains(&b'm') {
        Precision::Medium
    } else if marks.contains(&b'h') {
        Precision::High
    } else {
        Precision::Unset
    }
}

/// The items of rows.
fn items(alloc: Global, rows: &[Row]) -> Result<Sequence<Item>, AllocError> {
    let mut items = Vec::new(alloc);
    for (name, base, array, marks) in rows {
        let name = Text::from_slice(alloc, name)?;
        items.push(Item {
            name,
            kind: SlType {
                base: *base,
                array: *array,
            },
            precision: precision(marks),
            used: marks.contains(&b'u'),
            invariant: marks.contains(&b'i'),
        })?;
    }
    Ok(Sequence::from_vec(items))
}

/// A structure of this name with these fields.
fn structure(alloc: Global, name: &[u8], rows: &[Row]) -> Result<Struct, AllocError> {
    let mut fields = Vec::new(alloc);
    for (name, base, array, marks) in rows {
        let name = Text::from_slice(alloc, name)?;
        fields.push(Field {
            name,
            kind: SlType {
                base: *base,
                array: *array,
            },
            precision: precision(marks),
        })?;
    }
    Ok(Struct {
        name: Text::from_slice(alloc, name)?,
        fields: Sequence::from_vec(fields),
    })
}

/// The interface that is written out.
pub(crate) fn shader(alloc: Global, source: Source) -> Result<Interface, AllocError> {
    let mut structs = Vec::new(alloc);
    for (name, rows) in source.structs {
        let one = structure(alloc, name, rows)?;
        structs.push(one)?;
    }
    Ok(Interface {
        attributes: items(alloc, source.attributes)?,
        uniforms: items(alloc, source.uniforms)?,
        varyings: items(alloc, source.varyings)?,
        structs: Sequence::from_vec(structs),
    })
}

/// The link of two shaders with these locations bound.
fn linked(
    rt: &impl Abort,
    alloc: Global,
    shaders: (Source, Source),
    bound: &[(&[u8], u32)],
) -> Result<Result<Executable, Link>, AllocError> {
    let vertex = shader(alloc, shaders.0)?;
    let fragment = shader(alloc, shaders.1)?;
    let mut bindings = Bindings::new(alloc);
    for (name, index) in bound {
        match Name::new(name) {
            Some(name) => assert_eq!(rt; bindings.set(name, *index), Ok(())),
            None => panic!(rt; "a long name"),
        }
    }
    Ok(link(alloc, &vertex, &fragment, &bindings))
}

/// The link of shaders that break no rule.
pub(crate) fn made(
    rt: &impl Abort,
    alloc: Global,
    shaders: (Source, Source),
    bound: &[(&[u8], u32)],
) -> Executable {
    match linked(rt, alloc, shaders, bound) {
        Ok(Ok(executable)) => executable,
        _ => panic!(rt; "the link fails"),
    }
}

/// Asserts that a link breaks this rule first, or none where it is 0.
pub(crate) fn breaks(
    rt: &impl Abort,
    alloc: Global,
    shaders: (Source, Source),
    bound: &[(&[u8], u32)],
    rule: u8,
) -> Result<(), AllocError> {
    let broken = match linked(rt, alloc, shaders, bound)? {
        Ok(_) => 0,
        Err(Link::Rule(number)) => number,
        Err(Link::Memory) => 255,
    };
    assert_eq!(rt; broken, rule);
    Ok(())
}
