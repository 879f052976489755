use crate::Textures;
use gl_numbers::{Face, Format, GlError, TexTarget, TexelType};
use std::alloc::Global;
use std::test::Fail;
use texel_rules::{Layout, LevelInfo};

const RGBA: Layout = Layout {
    format: Format::Rgba,
    kind: TexelType::UnsignedByte,
};

pub(crate) const CUBE: [Face; 6] = [
    Face::PositiveX,
    Face::NegativeX,
    Face::PositiveY,
    Face::NegativeY,
    Face::PositiveZ,
    Face::NegativeZ,
];

/// A level of RGBA bytes.
pub(crate) fn level(width: u32, height: u32) -> LevelInfo {
    LevelInfo {
        width,
        height,
        layout: RGBA,
    }
}

/// Texture 1 of a target, with bases of this size on each face; None where memory runs out.
pub(crate) fn with_bases(alloc: Global, target: TexTarget, base: LevelInfo) -> Option<Textures> {
    let mut textures = Textures::new(alloc);
    let Ok(()) = textures.add(1) else {
        return None;
    };
    let Ok(()) = textures.take_target(1, target) else {
        return None;
    };
    match target {
        TexTarget::Texture2d => textures.tex_image(1, Face::Texture2d, 0, base),
        TexTarget::CubeMap => {
            for face in CUBE {
                textures.tex_image(1, face, 0, base);
            }
        }
    }
    Some(textures)
}

/// The sides of the levels above a base of RGBA bytes, as far as they go down to 1x1.
const SIDES: [(u32, u32, &[(u32, u32)]); 4] = [
    (1, 1, &[]),
    (4, 2, &[(2, 1), (1, 1)]),
    (8, 8, &[(4, 4), (2, 2), (1, 1)]),
    (1, 16, &[(1, 8), (1, 4), (1, 2), (1, 1)]),
];

#[test]
fn a_built_texture_is_complete(rt: HostRuntime) -> Result<(), Fail> {
    for target in [TexTarget::Texture2d, TexTarget::CubeMap] {
        let face = match target {
            TexTarget::Texture2d => Face::Texture2d,
            TexTarget::CubeMap => Face::NegativeZ,
        };
        for (width, height, above) in SIDES {
            if target == TexTarget::CubeMap && width != height {
                continue;
            }
            let Some(mut textures) = with_bases(rt.alloc(), target, level(width, height)) else {
                return Err("no memory")?;
            };
            assert_eq!(rt; textures.complete(1), above.is_empty());
            assert_eq!(rt; textures.generate_mipmap(1), Ok(()));
            assert!(rt; textures.complete(1));
            for (at, sides) in above.iter().enumerate() {
                let want = Some(level(sides.0, sides.1));
                assert!(rt; at < 11);
                assert_eq!(rt; textures.level(1, face, at as u32 + 1), want);
            }
            assert_eq!(rt; textures.level(1, face, 11), None);
        }
    }
    Ok(())
}

#[test]
fn the_largest_bases_are_built(rt: HostRuntime) -> Result<(), Fail> {
    for (width, height, last) in [(2048, 2048, 11), (1, 2048, 11), (2048, 1, 11)] {
        let target = TexTarget::Texture2d;
        let Some(mut textures) = with_bases(rt.alloc(), target, level(width, height)) else {
            return Err("no memory")?;
        };
        assert_eq!(rt; textures.generate_mipmap(1), Ok(()));
        assert!(rt; textures.complete(1));
        assert_eq!(rt; textures.level(1, Face::Texture2d, last), Some(level(1, 1)));
        textures.tex_image(1, Face::Texture2d, 11, level(2, 1));
        assert!(rt; !textures.complete(1), "the last level is another");
    }
    Ok(())
}

#[test]
fn each_defect_makes_a_texture_incomplete(rt: HostRuntime) -> Result<(), Fail> {
    let other = Layout {
        format: Format::Rgb,
        kind: TexelType::UnsignedByte,
    };
    let shorts = Layout {
        format: Format::Rgba,
        kind: TexelType::UnsignedShort4444,
    };
    let two = level(2, 2);
    for (at, wrong) in [
        (1, level(2, 1)),
        (1, level(1, 2)),
        (
            1,
            LevelInfo {
                layout: other,
                ..two
            },
        ),
        (
            1,
            LevelInfo {
                layout: shorts,
                ..two
            },
        ),
        (2, level(2, 2)),
        (0, level(8, 8)),
        (0, level(4, 0)),
    ] {
        for target in [TexTarget::Texture2d, TexTarget::CubeMap] {
            let face = match target {
                TexTarget::Texture2d => Face::Texture2d,
                TexTarget::CubeMap => Face::NegativeZ,
            };
            let Some(mut textures) = with_bases(rt.alloc(), target, level(4, 4)) else {
                return Err("no memory")?;
            };
            assert_eq!(rt; textures.generate_mipmap(1), Ok(()));
            assert!(rt; textures.complete(1));
            textures.tex_image(1, face, at, wrong);
            assert!(rt; !textures.complete(1), "level {at} is another");
        }
    }
    Ok(())
}

#[test]
fn a_base_that_is_no_power_of_two_is_clamped(rt: HostRuntime) -> Result<(), Fail> {
    let Some(mut textures) = with_bases(rt.alloc(), TexTarget::Texture2d, level(3, 5)) else {
        return Err("no memory")?;
    };
    assert_eq!(rt; textures.generate_mipmap(1), Err(GlError::Operation));
    for (name, value, complete) in [
        (0x2802, 0x812F, false),
        (0x2803, 0x812F, false),
        (0x2801, 0x2601, true),
        (0x2801, 0x2600, true),
        (0x2800, 0x2600, true),
        (0x2801, 0x2700, false),
        (0x2801, 0x2601, true),
        (0x2802, 0x8370, false),
        (0x2802, 0x812F, true),
        (0x2803, 0x2901, false),
    ] {
        assert_eq!(rt; textures.tex_parameter(1, name, value), Ok(()));
        assert_eq!(rt; textures.complete(1), complete, "{value} in {name}");
    }
    for (name, value) in [
        (0x2804, 0x2601),
        (0x2800, 0x2700),
        (0x2801, 0x2901),
        (0x2802, -1),
    ] {
        assert_eq!(rt; textures.tex_parameter(1, name, value), Err(GlError::Enum));
    }
    assert_eq!(rt; textures.parameter(1, 0x2800), 0x2600);
    assert_eq!(rt; textures.parameter(1, 0x2803), 0x2901);
    Ok(())
}

#[test]
fn a_texture_keeps_its_first_target(rt: HostRuntime) -> Result<(), Fail> {
    let mut textures = Textures::new(rt.alloc());
    let Ok(()) = textures.add(1) else {
        return Err("no memory")?;
    };
    assert_eq!(rt; textures.target(1), None);
    assert_eq!(rt; textures.generate_mipmap(1), Err(GlError::Operation));
    assert!(rt; !textures.complete(1));
    let flat = TexTarget::Texture2d;
    assert_eq!(rt; textures.take_target(1, flat), Ok(()));
    assert_eq!(rt;
        textures.take_target(1, TexTarget::CubeMap),
        Err(GlError::Operation)
    );
    assert_eq!(rt; textures.take_target(1, flat), Ok(()));
    assert_eq!(rt; textures.target(1), Some(flat));
    textures.tex_image(1, Face::Texture2d, 0, level(2, 2));
    for (place, layout, want) in [
        ([0, 0, 2, 2], RGBA, Ok(())),
        ([2, 2, 0, 0], RGBA, Ok(())),
        ([1, 1, 2, 2], RGBA, Err(GlError::Value)),
        ([-1, 0, 1, 1], RGBA, Err(GlError::Value)),
        ([0, 0, 1, -1], RGBA, Err(GlError::Value)),
        ([i32::MAX, 0, i32::MAX, 1], RGBA, Err(GlError::Value)),
        (
            [0, 0, 1, 1],
            Layout {
                format: Format::Rgb,
                ..RGBA
            },
            Err(GlError::Operation),
        ),
    ] {
        assert_eq!(rt;
            textures.tex_sub_image(1, Face::Texture2d, 0, place, layout),
            want
        );
    }
    let absent = textures.tex_sub_image(1, Face::Texture2d, 1, [0, 0, 1, 1], RGBA);
    assert_eq!(rt; absent, Err(GlError::Operation));
    textures.gone(1);
    assert_eq!(rt; textures.target(1), None);
    assert_eq!(rt; textures.level(1, Face::Texture2d, 0), None);
    Ok(())
}
