use crate::color_calls::ColorCall;
use crate::depth_stencil_calls::DepthStencilCall;
use crate::view_calls::ViewCall;

/// A call that sets raster state (WebGL 1.0 sections 5.14.3 and 5.14.4), by what it speaks of.
#[derive(Clone, Copy, Debug, PartialEq, Eq)]
pub enum RasterCall {
    /// A call about how colours are blended, written and cleared.
    Color(ColorCall),
    /// A call about how depths and stencil values are tested, written and cleared.
    DepthStencil(DepthStencilCall),
    /// A call about what is drawn at all, and where.
    View(ViewCall),
}
