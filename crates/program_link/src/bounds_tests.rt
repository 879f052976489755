use crate::{Bindings, Link, link};
use glsl_tree::Text;
use glsl_types::{Base, Field, Interface, Item, Precision, Sequence, SlType, Struct};
use std::alloc::{AllocError, Global};
use std::test::Fail;

/// A name of 256 bytes, another one for each number.
fn long_name(alloc: Global, number: u32) -> Result<Text, AllocError> {
    let mut name = [b'n'; 256];
    name[252..].copy_from_slice(&number.to_le_bytes());
    Text::from_slice(alloc, &name)
}

/// So many items with names of 256 bytes.
fn items(alloc: Global, count: u32, used: bool) -> Result<Sequence<Item>, AllocError> {
    let mut items = Vec::new(alloc);
    for number in 0..count {
        items.push(Item {
            name: long_name(alloc, number)?,
            kind: SlType::plain(Base::Float),
            precision: Precision::High,
            used,
            invariant: false,
        })?;
    }
    Ok(Sequence::from_vec(items))
}

/// Structures of one field: a float, and then each an array of the one before it.
fn chain(alloc: Global, count: u32, array: u32) -> Result<Sequence<Struct>, AllocError> {
    let mut structs = Vec::new(alloc);
    for number in 0..count {
        let base = if number == 0 {
            Base::Float
        } else {
            Base::Struct(number)
        };
        let field = Field {
            name: Text::from_slice(alloc, b"m")?,
            kind: SlType { base, array },
            precision: Precision::High,
        };
        let mut fields = Vec::new(alloc);
        fields.push(field)?;
        structs.push(Struct {
            name: Text::from_slice(alloc, b"S")?,
            fields: Sequence::from_vec(fields),
        })?;
    }
    Ok(Sequence::from_vec(structs))
}

/// A shader with a uniform of this type, which is used.
fn with_uniform(
    alloc: Global,
    kind: SlType,
    structs: Sequence<Struct>,
) -> Result<Interface, AllocError> {
    let mut uniforms = Vec::new(alloc);
    uniforms.push(Item {
        name: Text::from_slice(alloc, b"u")?,
        kind,
        precision: Precision::Unset,
        used: true,
        invariant: false,
    })?;
    Ok(Interface {
        attributes: items(alloc, 0, false)?,
        uniforms: Sequence::from_vec(uniforms),
        varyings: items(alloc, 0, false)?,
        structs,
    })
}

/// The rule that the link of a shader with itself breaks, or 0.
fn broken(alloc: Global, shader: &Interface) -> u8 {
    match link(alloc, shader, shader, &Bindings::new(alloc)) {
        Ok(_) => 0,
        Err(Link::Rule(number)) => number,
        Err(Link::Memory) => 255,
    }
}

#[test]
fn long_lists_are_linked_in_linear_time(rt: HostRuntime) -> Result<(), Fail> {
    for (used, rule) in [(false, 0), (true, 8)] {
        let shader = Interface {
            attributes: items(rt.alloc(), 20_000, false)?,
            uniforms: items(rt.alloc(), 20_000, used)?,
            varyings: items(rt.alloc(), 20_000, false)?,
            structs: chain(rt.alloc(), 0, 0)?,
        };
        assert_eq!(rt; broken(rt.alloc(), &shader), rule);
    }
    Ok(())
}

#[test]
fn deep_structures_cost_no_stack_and_wide_ones_are_not_built(rt: HostRuntime) -> Result<(), Fail> {
    // how many structures, the size of the array in each, that of the uniform, and the rule
    for (count, array, size, rule) in [
        (6_000, 0, 0, 11),
        (300, 0, 896, 11),
        (300, 0, 897, 9),
        (300, 0, 1_025, 8),
        (40, 65_536, 65_536, 8),
        (2, 30, 0, 9),
        (2, 28, 0, 0),
    ] {
        let structs = chain(rt.alloc(), count, array)?;
        let kind = SlType {
            base: Base::Struct(count),
            array: size,
        };
        let shader = with_uniform(rt.alloc(), kind, structs)?;
        assert_eq!(rt; broken(rt.alloc(), &shader), rule, "{count} of {array}");
    }
    Ok(())
}
