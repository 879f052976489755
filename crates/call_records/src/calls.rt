ghost use Rattle.std.specs.Prelude.{◌≡◌, length, true, []};
ghost use Rattle.gl_numbers.specs.Fields.{allows, body_encoding};
ghost use Rattle.call_records.specs.declared.operations.TheConstants.{BODY_MAX};
ghost use Rattle.call_records.specs.Operations.{row_of};
ghost use Rattle.call_records.specs.Records.{parts_of, operation_of, body_of, encoding, Fits};

use crate::attrib_calls::AttribCall;
use crate::buffer_calls::BufferCall;
use crate::draw_calls::DrawCall;
use crate::object_calls::ObjectCall;
use crate::operations::{HEADER_BYTES, Operation};
use crate::query_calls::QueryCall;
use crate::raster_calls::RasterCall;
use crate::subjects::call_of;
use crate::texture_calls::TextureCall;
use gl_numbers::FieldBytes;

/// A recorded call (WebGL 1.0 section 5.14) with its arguments as words, by subject.
/// A tail of bytes borrows the record buffer.
#[derive(Clone, Copy, Debug, PartialEq, Eq)]
pub enum Call<'a> {
    /// A call about an object as a whole.
    Object(ObjectCall),
    /// A call about the buffer that is bound to a target.
    Buffer(BufferCall<'a>),
    /// A call about a vertex attribute.
    Attrib(AttribCall),
    /// A call about textures.
    Texture(TextureCall),
    /// A call that asks for state.
    Query(QueryCall),
    /// A call that sets raster state.
    Raster(RasterCall),
    /// A call that draws, or asks that what was drawn be done.
    Draw(DrawCall),
}

impl<'a> Call<'a> {
    /// The bytes of the call's whole record, header and body.
    #[inline]
    #[tactic(auto, using(crate::proofs::Lengths::length_fits))]
    pub fn size(&self) -> usize
        requires { Fits self.now }
        ensures { result ≡ length (encoding self.now) }
    {
        HEADER_BYTES + self.operation().row().size() + self.tail().len()
    }

    /// The call of an operation with this body.
    #[inline]
    pub fn of(operation: Operation, body: &'a [u8]) -> Self
        requires { allows BODY_MAX (row_of operation) (length body.now) ≡ true }
        ensures operation { operation_of result ≡ operation }
        ensures body { body_of result ≡ body.now }
        ensures fits { Fits result }
    {
        match operation {
            Operation::Object(operation) => Call::Object(call_of(operation, body)),
            Operation::Buffer(operation) => Call::Buffer(call_of(operation, body)),
            Operation::Attrib(operation) => Call::Attrib(call_of(operation, body)),
            Operation::Texture(operation) => Call::Texture(call_of(operation, body)),
            Operation::Query(operation) => Call::Query(call_of(operation, body)),
            Operation::Color(operation) => Call::Raster(RasterCall::Color(call_of(
                operation, body,
            ))),
            Operation::DepthStencil(operation) => {
                Call::Raster(RasterCall::DepthStencil(call_of(operation, body)))
            }
            Operation::View(operation) => Call::Raster(RasterCall::View(call_of(operation, body))),
            Operation::Draw(operation) => Call::Draw(call_of(operation, body)),
        }
    }

    /// The call's operation.
    #[inline]
    pub fn operation(&self) -> Operation
        ensures { result ≡ operation_of self.now }
    {
        match self {
            Call::Object(call) => Operation::Object(call.operation()),
            Call::Buffer(call) => Operation::Buffer(call.operation()),
            Call::Attrib(call) => Operation::Attrib(call.operation()),
            Call::Texture(call) => Operation::Texture(call.operation()),
            Call::Query(call) => Operation::Query(call.operation()),
            Call::Raster(RasterCall::Color(call)) => Operation::Color(call.operation()),
            Call::Raster(RasterCall::DepthStencil(call)) => {
                Operation::DepthStencil(call.operation())
            }
            Call::Raster(RasterCall::View(call)) => Operation::View(call.operation()),
            Call::Draw(call) => Operation::Draw(call.operation()),
        }
    }

    /// The bytes of the call's fields, in order.
    pub fn fields(&self) -> FieldBytes
        ensures { result ≡ body_encoding (parts_of self.now).values [] }
    {
        match self {
            Call::Object(call) => call.fields(),
            Call::Buffer(call) => call.fields(),
            Call::Attrib(call) => call.fields(),
            Call::Texture(call) => call.fields(),
            Call::Query(call) => call.fields(),
            Call::Raster(RasterCall::Color(call)) => call.fields(),
            Call::Raster(RasterCall::DepthStencil(call)) => call.fields(),
            Call::Raster(RasterCall::View(call)) => call.fields(),
            Call::Draw(call) => call.fields(),
        }
    }

    /// The bytes that follow the call's fields, if any do.
    #[inline]
    pub fn tail(&self) -> &'a [u8]
        ensures { result.now ≡ (parts_of self.now).tail }
    {
        match self {
            Call::Buffer(call) => call.tail(),
            Call::Object(_)
            | Call::Attrib(_)
            | Call::Texture(_)
            | Call::Query(_)
            | Call::Raster(_)
            | Call::Draw(_) => &[],
        }
    }
}
