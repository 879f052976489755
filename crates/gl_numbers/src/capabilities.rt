ghost use Rattle.std.specs.Prelude.{◌≡◌, ◌<◌};
ghost use Rattle.gl_numbers.specs.Capabilities.{capability_of, place_of};

/// Polygons of the culled side aren't drawn (OpenGL ES 2.0 section 3.5.1).
pub const CULL_FACE: u32 = 0x0B44;
/// Fragments are compared with the depth buffer (OpenGL ES 2.0 section 4.1.5).
pub const DEPTH_TEST: u32 = 0x0B71;
/// Fragments are compared with the stencil buffer (OpenGL ES 2.0 section 4.1.4).
pub const STENCIL_TEST: u32 = 0x0B90;
/// Colours are dithered (OpenGL ES 2.0 section 4.1.7).
pub const DITHER: u32 = 0x0BD0;
/// Colours are blended with those that are there (OpenGL ES 2.0 section 4.1.6).
pub const BLEND: u32 = 0x0BE2;
/// Fragments outside the scissor box aren't drawn (OpenGL ES 2.0 section 4.1.2).
pub const SCISSOR_TEST: u32 = 0x0C11;
/// Depths of polygons are offset (OpenGL ES 2.0 section 3.5.2).
pub const POLYGON_OFFSET_FILL: u32 = 0x8037;
/// A fragment's alpha value decides which samples it covers (OpenGL ES 2.0 section 4.1.3).
pub const SAMPLE_ALPHA_TO_COVERAGE: u32 = 0x809E;
/// A coverage value decides which samples a fragment covers (OpenGL ES 2.0 section 4.1.3).
pub const SAMPLE_COVERAGE: u32 = 0x80A0;

/// What enable and disable turn on and off (WebGL 1.0 section 5.14.3; OpenGL ES 2.0 chapters 3 and 4).
#[derive(Clone, Copy, Debug, PartialEq, Eq)]
pub enum Capability {
    /// CULL_FACE
    CullFace,
    /// DEPTH_TEST
    DepthTest,
    /// STENCIL_TEST
    StencilTest,
    /// DITHER
    Dither,
    /// BLEND
    Blend,
    /// SCISSOR_TEST
    ScissorTest,
    /// POLYGON_OFFSET_FILL
    PolygonOffsetFill,
    /// SAMPLE_ALPHA_TO_COVERAGE
    SampleAlphaToCoverage,
    /// SAMPLE_COVERAGE
    SampleCoverage,
}

impl Capability {
    /// The capability of this GL word; None exactly where it is none of the nine.
    #[tactic(auto, unfolding(crate::specs::Capabilities::capability_of))]
    pub fn from_u32(n: u32) -> Option<Self>
        ensures { result ≡ capability_of n }
    {
        match n {
            CULL_FACE => Some(Capability::CullFace),
            DEPTH_TEST => Some(Capability::DepthTest),
            STENCIL_TEST => Some(Capability::StencilTest),
            DITHER => Some(Capability::Dither),
            BLEND => Some(Capability::Blend),
            SCISSOR_TEST => Some(Capability::ScissorTest),
            POLYGON_OFFSET_FILL => Some(Capability::PolygonOffsetFill),
            SAMPLE_ALPHA_TO_COVERAGE => Some(Capability::SampleAlphaToCoverage),
            SAMPLE_COVERAGE => Some(Capability::SampleCoverage),
            _ => None,
        }
    }

    /// The place of the capability's flag among the flags of all nine, from 0: in the order of their GL words.
    pub fn place(self) -> usize
        ensures place { result ≡ place_of self }
        ensures within { result < 9 }
    {
        match self {
            Capability::CullFace => 0,
            Capability::DepthTest => 1,
            Capability::StencilTest => 2,
            Capability::Dither => 3,
            Capability::Blend => 4,
            Capability::ScissorTest => 5,
            Capability::PolygonOffsetFill => 6,
            Capability::SampleAlphaToCoverage => 7,
            Capability::SampleCoverage => 8,
        }
    }
}
