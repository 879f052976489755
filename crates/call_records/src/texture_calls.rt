ghost use Rattle.std.specs.Prelude.{◌≡◌, length, true, IfSome, []};
ghost use Rattle.gl_numbers.specs.Fields.{allows, body_encoding, ReadsRow};
ghost use Rattle.call_records.specs.declared.operations.TheConstants.{BODY_MAX};
ghost use Rattle.call_records.specs.TextureRecords.{texture_row, texture_numbered, texture_parts};

use gl_numbers::{Field, FieldBytes, Fields, Letter, Row, Tail};

/// A call about textures and how their texels are given (WebGL 1.0 section 5.14.8).
#[derive(Clone, Copy, Debug, PartialEq, Eq)]
pub enum TextureCall {
    /// pixelStorei; the value may be negative.
    PixelStorei { name: u32, value: i32 },
}

/// The operations of these calls, with their numbers in the record table.
#[derive(Clone, Copy)]
pub enum TextureOperation {
    /// pixelStorei: parameter name, value.
    PixelStorei = 56,
}

impl TextureOperation {
    /// The operation of this number; None exactly where none of these has it.
    #[inline(always)]
    #[tactic(auto, unfolding(crate::specs::TextureRecords::texture_numbered))]
    pub fn from_u32(n: u32) -> Option<Self>
        ensures found { result ≡ texture_numbered n }
        ensures number { IfSome result (λ operation. (texture_row operation).number ≡ n) }
    {
        match n {
            _ if n == Self::PixelStorei as u32 => Some(Self::PixelStorei),
            _ => None,
        }
    }

    /// The operation's row of the record table.
    #[inline(always)]
    pub fn row(self) -> Row
        ensures { result ≡ texture_row self }
    {
        use Letter::{I, U};
        let number = self as u32;
        match self {
            Self::PixelStorei => Row::new(number, "pixelStorei", &[U, I], Tail::Nothing),
        }
    }
}

impl TextureCall {
    /// The call of an operation, its fields read in order.
    #[inline(always)]
    pub fn read(operation: TextureOperation, fields: &mut Fields<'_>) -> Self
        requires { allows BODY_MAX (texture_row operation) (length fields.old) ≡ true }
        ensures { ReadsRow texture_row operation fields.old fields.new (texture_parts result) }
    {
        match operation {
            TextureOperation::PixelStorei => TextureCall::PixelStorei {
                name: fields.word(),
                value: fields.int(),
            },
        }
    }

    /// The call's operation.
    #[inline(always)]
    pub fn operation(&self) -> TextureOperation
        ensures { result ≡ (texture_parts self.now).operation }
    {
        match self {
            TextureCall::PixelStorei { .. } => TextureOperation::PixelStorei,
        }
    }

    /// The bytes of the call's fields, in order.
    pub fn fields(&self) -> FieldBytes
        ensures { result ≡ body_encoding (texture_parts self.now).values [] }
    {
        use Field::{Int, Word};
        match self {
            TextureCall::PixelStorei { name, value } => {
                FieldBytes::of(&[Word(*name), Int(*value)])
            }
        }
    }
}
