ghost use Rattle.std.specs.Prelude.{◌≡◌, IfSome};
ghost use Rattle.call_records.specs.declared.operations.Operation.{Operation};
ghost use Rattle.call_records.specs.declared.operations.Operation.TheVariants as Whole;
ghost use Rattle.call_records.specs.Operations.{row_of, operation_numbered};

use crate::attrib_calls::AttribOperation;
use crate::buffer_calls::BufferOperation;
use crate::color_calls::ColorOperation;
use crate::depth_stencil_calls::DepthStencilOperation;
use crate::draw_calls::DrawOperation;
use crate::object_calls::ObjectOperation;
use crate::query_calls::QueryOperation;
use crate::texture_calls::TextureOperation;
use crate::view_calls::ViewOperation;
use gl_numbers::Row;

/// The number of the record that closes a session.
pub const CLOSE: u32 = 0;

/// The bytes of a record's header: its operation, and its body's length in bytes.
pub const HEADER_BYTES: usize = 8;
/// The most bytes of a record's body.
pub const BODY_MAX: usize = 16_777_280;

/// The operations of a session's records, by subject.
#[derive(Clone, Copy)]
pub enum Operation {
    /// An operation of a call about an object as a whole.
    Object(ObjectOperation),
    /// An operation of a call about the buffer that is bound to a target.
    Buffer(BufferOperation),
    /// An operation of a call about a vertex attribute.
    Attrib(AttribOperation),
    /// An operation of a call about textures.
    Texture(TextureOperation),
    /// An operation of a call that asks for state.
    Query(QueryOperation),
    /// An operation of a call about colours.
    Color(ColorOperation),
    /// An operation of a call about depths and stencil values.
    DepthStencil(DepthStencilOperation),
    /// An operation of a call about what is drawn at all, and where.
    View(ViewOperation),
    /// An operation of a call that draws, or asks that what was drawn be done.
    Draw(DrawOperation),
}

impl Operation {
    /// The operation of this number; None exactly where the table has none.
    #[inline(always)]
    #[tactic(auto, unfolding(crate::specs::Operations::operation_numbered))]
    pub fn from_u32(n: u32) -> Option<Self>
        ensures found { result ≡ operation_numbered n }
        ensures number { IfSome result (λ operation. (row_of operation).number ≡ n) }
    {
        if let Some(operation) = ObjectOperation::from_u32(n) {
            return Some(Operation::Object(operation));
        }
        if let Some(operation) = BufferOperation::from_u32(n) {
            return Some(Operation::Buffer(operation));
        }
        if let Some(operation) = AttribOperation::from_u32(n) {
            return Some(Operation::Attrib(operation));
        }
        if let Some(operation) = TextureOperation::from_u32(n) {
            return Some(Operation::Texture(operation));
        }
        if let Some(operation) = QueryOperation::from_u32(n) {
            return Some(Operation::Query(operation));
        }
        if let Some(operation) = ColorOperation::from_u32(n) {
            return Some(Operation::Color(operation));
        }
        if let Some(operation) = DepthStencilOperation::from_u32(n) {
            return Some(Operation::DepthStencil(operation));
        }
        if let Some(operation) = ViewOperation::from_u32(n) {
            return Some(Operation::View(operation));
        }
        match DrawOperation::from_u32(n) {
            Some(operation) => Some(Operation::Draw(operation)),
            None => None,
        }
    }

    /// The operation's row of the record table.
    #[inline(always)]
    pub fn row(self) -> Row
        ensures { result ≡ row_of self }
    {
        match self {
            Operation::Object(operation) => operation.row(),
            Operation::Buffer(operation) => operation.row(),
            Operation::Attrib(operation) => operation.row(),
            Operation::Texture(operation) => operation.row(),
            Operation::Query(operation) => operation.row(),
            Operation::Color(operation) => operation.row(),
            Operation::DepthStencil(operation) => operation.row(),
            Operation::View(operation) => operation.row(),
            Operation::Draw(operation) => operation.row(),
        }
    }
}
