use crate::{Base, Component, Const, Sequence, SlType};
use glsl_tree::Basic;
use std::test::Fail;

/// A keyword, its type, its components, its size and its columns.
type Row = (Basic, Base, Option<Component>, u32, u32);

const ROWS: [Row; 17] = [
    (Basic::Float, Base::Float, Some(Component::Float), 1, 0),
    (Basic::Int, Base::Int, Some(Component::Int), 1, 0),
    (Basic::Bool, Base::Bool, Some(Component::Bool), 1, 0),
    (Basic::Vec2, Base::Vec2, Some(Component::Float), 2, 0),
    (Basic::Vec3, Base::Vec3, Some(Component::Float), 3, 0),
    (Basic::Vec4, Base::Vec4, Some(Component::Float), 4, 0),
    (Basic::IVec2, Base::IVec2, Some(Component::Int), 2, 0),
    (Basic::IVec3, Base::IVec3, Some(Component::Int), 3, 0),
    (Basic::IVec4, Base::IVec4, Some(Component::Int), 4, 0),
    (Basic::BVec2, Base::BVec2, Some(Component::Bool), 2, 0),
    (Basic::BVec3, Base::BVec3, Some(Component::Bool), 3, 0),
    (Basic::BVec4, Base::BVec4, Some(Component::Bool), 4, 0),
    (Basic::Mat2, Base::Mat2, Some(Component::Float), 2, 2),
    (Basic::Mat3, Base::Mat3, Some(Component::Float), 3, 3),
    (Basic::Mat4, Base::Mat4, Some(Component::Float), 4, 4),
    (Basic::Sampler2D, Base::Sampler2D, None, 0, 0),
    (Basic::SamplerCube, Base::SamplerCube, None, 0, 0),
];

#[test]
fn each_keyword_has_its_type_and_its_size(rt: HostRuntime) {
    for (basic, base, component, size, columns) in ROWS {
        assert!(rt; Base::named(basic) == base);
        assert!(rt;
            base.component() == component && base.size() == size && base.columns() == columns
        );
        assert!(rt; base.is_sampler() == component.is_none());
    }
    assert!(rt; Base::Mat3.components() == 9 && Base::Vec3.components() == 3);
    assert!(rt; Base::Struct(1).components() == 0 && !Base::Struct(1).is_sampler());
}

#[test]
fn a_type_is_made_of_its_components_and_its_size(rt: HostRuntime) {
    for (_, base, component, size, columns) in ROWS {
        if let Some(component) = component {
            let made = if columns == 0 {
                Base::vector(component, size)
            } else {
                Base::matrix(size)
            };
            assert!(rt; made == Some(base));
        }
    }
    assert!(rt;
        Base::vector(Component::Int, 0).is_none() && Base::vector(Component::Int, 5).is_none()
    );
    assert!(rt; Base::matrix(1).is_none() && Base::matrix(5).is_none());
}

#[test]
fn two_types_are_one_by_declaration_and_array_size(rt: HostRuntime) {
    assert!(rt;
        Base::Struct(1).is_same(Base::Struct(1)) && !Base::Struct(1).is_same(Base::Struct(2))
    );
    assert!(rt; !Base::Vec2.is_same(Base::IVec2) && !Base::Struct(0).is_same(Base::Float));
    let one = SlType {
        base: Base::Float,
        array: 1,
    };
    assert!(rt; one.is_same(one) && !one.is_same(SlType::plain(Base::Float)));
}

#[test]
fn a_sequence_gives_back_what_it_was_made_of(rt: HostRuntime) -> Result<(), Fail> {
    let sequence = Sequence::from_vec(vec![in rt.alloc(); Const::Int(-1), Const::Float]?);
    assert!(rt; sequence.as_slice() == [Const::Int(-1), Const::Float].as_slice());
    assert!(rt; sequence.into_vec().len() == 2);
    Ok(())
}
