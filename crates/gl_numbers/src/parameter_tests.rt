use crate::{BufferTarget, Limit, Parameter, PixelParameter, RasterParameter};

#[test]
fn parameters_are_27_words(rt: HostRuntime) {
    let words = [
        (0x8894, Parameter::Bound(BufferTarget::Array)),
        (0x8895, Parameter::Bound(BufferTarget::ElementArray)),
        (0x0CF5, Parameter::Pixel(PixelParameter::UnpackAlignment)),
        (0x0D05, Parameter::Pixel(PixelParameter::PackAlignment)),
        (0x9240, Parameter::Pixel(PixelParameter::FlipY)),
        (0x9241, Parameter::Pixel(PixelParameter::PremultiplyAlpha)),
        (
            0x9243,
            Parameter::Pixel(PixelParameter::ColorspaceConversion),
        ),
        (0x0B45, Parameter::Raster(RasterParameter::CullSide)),
        (0x0B46, Parameter::Raster(RasterParameter::Winding)),
        (0x0B72, Parameter::Raster(RasterParameter::DepthMask)),
        (0x0B74, Parameter::Raster(RasterParameter::DepthFunc)),
        (0x0B91, Parameter::Raster(RasterParameter::ClearStencil)),
        (0x0BA2, Parameter::Raster(RasterParameter::Viewport)),
        (0x0C10, Parameter::Raster(RasterParameter::Scissor)),
        (0x0C22, Parameter::Raster(RasterParameter::ClearColor)),
        (0x0C23, Parameter::Raster(RasterParameter::ColorMask)),
        (0x8005, Parameter::Raster(RasterParameter::BlendColor)),
        (0x0D33, Parameter::Limit(Limit::TextureSize)),
        (0x851C, Parameter::Limit(Limit::CubeMapSize)),
        (0x84E8, Parameter::Limit(Limit::RenderbufferSize)),
        (0x8869, Parameter::Limit(Limit::VertexAttribs)),
        (0x8DFB, Parameter::Limit(Limit::VertexUniformVectors)),
        (0x8DFC, Parameter::Limit(Limit::VaryingVectors)),
        (0x8DFD, Parameter::Limit(Limit::FragmentUniformVectors)),
        (0x8872, Parameter::Limit(Limit::TextureUnits)),
        (0x8B4C, Parameter::Limit(Limit::VertexTextureUnits)),
        (0x8B4D, Parameter::Limit(Limit::CombinedTextureUnits)),
    ];
    for (word, parameter) in words.iter() {
        assert_eq!(rt; Parameter::from_u32(*word), Some(*parameter), "at {word}");
        for neighbour in [word.wrapping_sub(1), word.wrapping_add(1)] {
            let is_word = words.iter().any(|(other, _)| *other == neighbour);
            assert_eq!(rt;
                Parameter::from_u32(neighbour).is_some(),
                is_word,
                "at {neighbour}"
            );
        }
    }
    for word in [
        0,
        0x8B8D,
        0x84E0,
        0x8069,
        0x8514,
        0x8CA6,
        0x8CA7,
        0xFFFF_FFFF,
    ] {
        assert_eq!(rt; Parameter::from_u32(word), None, "at {word}");
    }
}

#[test]
fn limits_have_their_numbers(rt: HostRuntime) {
    for (limit, value) in [
        (Limit::TextureSize, 2048),
        (Limit::CubeMapSize, 2048),
        (Limit::RenderbufferSize, 2048),
        (Limit::VertexAttribs, 16),
        (Limit::VertexUniformVectors, 256),
        (Limit::VaryingVectors, 16),
        (Limit::FragmentUniformVectors, 224),
        (Limit::TextureUnits, 16),
        (Limit::VertexTextureUnits, 4),
        (Limit::CombinedTextureUnits, 20),
    ] {
        assert_eq!(rt; limit.value(), value, "{limit:?}");
    }
}
