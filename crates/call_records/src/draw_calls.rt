ghost use Rattle.std.specs.Prelude.{◌≡◌, length, true, IfSome, []};
ghost use Rattle.gl_numbers.specs.Fields.{allows, body_encoding, ReadsRow};
ghost use Rattle.call_records.specs.declared.operations.TheConstants.{BODY_MAX};
ghost use Rattle.call_records.specs.DrawRecords.{draw_row, draw_numbered, draw_parts};

use gl_numbers::{FieldBytes, Fields, Row, Tail};

/// A call that draws, or asks that what was drawn be done (WebGL 1.0 section 5.14.11).
#[derive(Clone, Copy, Debug, PartialEq, Eq)]
pub enum DrawCall {
    /// finish where `waits`, else flush
    Finish { waits: bool },
}

/// The operations of these calls, with their numbers in the record table.
#[derive(Clone, Copy)]
pub enum DrawOperation {
    /// flush
    Flush = 88,
    /// finish
    Finish = 89,
}

impl DrawOperation {
    /// The operation of this number; None exactly where none of these has it.
    #[inline(always)]
    #[tactic(auto, unfolding(crate::specs::DrawRecords::draw_numbered))]
    pub fn from_u32(n: u32) -> Option<Self>
        ensures found { result ≡ draw_numbered n }
        ensures number { IfSome result (λ operation. (draw_row operation).number ≡ n) }
    {
        match n {
            _ if n == Self::Flush as u32 => Some(Self::Flush),
            _ if n == Self::Finish as u32 => Some(Self::Finish),
            _ => None,
        }
    }

    /// The operation's row of the record table.
    #[inline(always)]
    pub fn row(self) -> Row
        ensures { result ≡ draw_row self }
    {
        let number = self as u32;
        match self {
            Self::Flush => Row::new(number, "flush", &[], Tail::Nothing),
            Self::Finish => Row::new(number, "finish", &[], Tail::Nothing),
        }
    }
}

impl DrawCall {
    /// The call of an operation, its fields read in order.
    #[inline(always)]
    pub fn read(operation: DrawOperation, fields: &mut Fields<'_>) -> Self
        requires { allows BODY_MAX (draw_row operation) (length fields.old) ≡ true }
        ensures { ReadsRow draw_row operation fields.old fields.new (draw_parts result) }
    {
        match operation {
            DrawOperation::Flush => DrawCall::Finish { waits: false },
            DrawOperation::Finish => DrawCall::Finish { waits: true },
        }
    }

    /// The call's operation.
    #[inline(always)]
    pub fn operation(&self) -> DrawOperation
        ensures { result ≡ (draw_parts self.now).operation }
    {
        match self {
            DrawCall::Finish { waits: false } => DrawOperation::Flush,
            DrawCall::Finish { waits: true } => DrawOperation::Finish,
        }
    }

    /// The bytes of the call's fields, in order.
    pub fn fields(&self) -> FieldBytes
        ensures { result ≡ body_encoding (draw_parts self.now).values [] }
    {
        match self {
            DrawCall::Finish { .. } => FieldBytes::of(&[]),
        }
    }
}
