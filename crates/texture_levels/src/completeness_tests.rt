use crate::Textures;
use crate::tests::{CUBE, level, with_bases};
use gl_numbers::{Face, Format, GlError, TexTarget, TexelType};
use std::alloc::Global;
use std::test::Fail;
use texel_rules::{Layout, LevelInfo};

const MIN_FILTER: u32 = 0x2801;

const LINEAR: i32 = 0x2601;

/// The faces of a target.
fn faces_of(target: TexTarget) -> &'static [Face] {
    match target {
        TexTarget::Texture2d => &[Face::Texture2d],
        TexTarget::CubeMap => &CUBE,
    }
}

/// Texture 1 of a target with the levels 4x4, 2x2 and 1x1 of each face, but without one of one face.
fn without_one(alloc: Global, target: TexTarget, of: Face, missing: u32) -> Option<Textures> {
    let mut textures = Textures::new(alloc);
    let Ok(()) = textures.add(1) else {
        return None;
    };
    let Ok(()) = textures.take_target(1, target) else {
        return None;
    };
    for face in faces_of(target) {
        for (at, side) in [(0, 4), (1, 2), (2, 1)] {
            if *face != of || at != missing {
                textures.tex_image(1, *face, at, level(side, side));
            }
        }
    }
    Some(textures)
}

#[test]
fn each_level_of_each_face_is_needed(rt: HostRuntime) -> Result<(), Fail> {
    for target in [TexTarget::Texture2d, TexTarget::CubeMap] {
        for face in faces_of(target) {
            for missing in 0..=3u32 {
                let Some(mut textures) = without_one(rt.alloc(), target, *face, missing) else {
                    return Err("no memory")?;
                };
                assert_eq!(rt; textures.complete(1), missing == 3, "without {missing}");
                assert_eq!(rt; textures.tex_parameter(1, MIN_FILTER, LINEAR), Ok(()));
                assert_eq!(rt; textures.complete(1), missing > 0, "without {missing}");
            }
        }
    }
    Ok(())
}

#[test]
fn a_cube_that_is_no_power_of_two_is_clamped(rt: HostRuntime) -> Result<(), Fail> {
    let Some(mut textures) = with_bases(rt.alloc(), TexTarget::CubeMap, level(3, 3)) else {
        return Err("no memory")?;
    };
    for (name, value, complete) in [
        (0x2801, 0x2601, false),
        (0x2802, 0x812F, false),
        (0x2803, 0x812F, true),
        (0x2801, 0x2702, false),
        (0x2801, 0x2600, true),
        (0x2802, 0x2901, false),
    ] {
        assert_eq!(rt; textures.tex_parameter(1, name, value), Ok(()));
        assert_eq!(rt; textures.complete(1), complete, "{value} in {name}");
    }
    Ok(())
}

/// Bases of which none can be built.
const ODD: [(TexTarget, u32, u32); 7] = [
    (TexTarget::Texture2d, 0, 4),
    (TexTarget::Texture2d, 4, 0),
    (TexTarget::Texture2d, 3, 4),
    (TexTarget::Texture2d, 4, 5),
    (TexTarget::CubeMap, 4, 2),
    (TexTarget::CubeMap, 3, 3),
    (TexTarget::CubeMap, 0, 0),
];

#[test]
fn a_mipmap_needs_bases_with_sides_of_powers_of_two(rt: HostRuntime) -> Result<(), Fail> {
    for (target, width, height) in ODD {
        let Some(mut textures) = with_bases(rt.alloc(), target, level(width, height)) else {
            return Err("no memory")?;
        };
        assert_eq!(rt;
            textures.generate_mipmap(1),
            Err(GlError::Operation),
            "{width} x {height}"
        );
        for face in faces_of(target) {
            assert_eq!(rt; textures.level(1, *face, 1), None);
        }
    }
    Ok(())
}

#[test]
fn a_mipmap_of_a_cube_needs_six_equal_bases(rt: HostRuntime) -> Result<(), Fail> {
    let rgb = Layout {
        format: Format::Rgb,
        kind: TexelType::UnsignedByte,
    };
    let shorts = Layout {
        format: Format::Rgba,
        kind: TexelType::UnsignedShort4444,
    };
    let four = level(4, 4);
    for face in CUBE {
        for other in [
            level(2, 2),
            level(4, 2),
            LevelInfo {
                layout: rgb,
                ..four
            },
            LevelInfo {
                layout: shorts,
                ..four
            },
        ] {
            let Some(mut textures) = with_bases(rt.alloc(), TexTarget::CubeMap, four) else {
                return Err("no memory")?;
            };
            textures.tex_image(1, face, 0, other);
            assert_eq!(rt; textures.generate_mipmap(1), Err(GlError::Operation));
            assert!(rt; !textures.complete(1));
        }
        let Some(mut textures) = without_one(rt.alloc(), TexTarget::CubeMap, face, 0) else {
            return Err("no memory")?;
        };
        assert_eq!(rt; textures.generate_mipmap(1), Err(GlError::Operation));
    }
    Ok(())
}
