ghost use Rattle.std.specs.Prelude.{◌≡◌, length, true, IfSome, []};
ghost use Rattle.gl_numbers.specs.Fields.{allows, body_encoding, ReadsRow};
ghost use Rattle.call_records.specs.declared.operations.TheConstants.{BODY_MAX};
ghost use Rattle.call_records.specs.DepthStencilRecords.{depth_stencil_row, depth_stencil_numbered, depth_stencil_parts};

use gl_numbers::{Field, FieldBytes, Fields, Letter, Row, Tail};

/// A call about how depths and stencil values are tested, written and cleared (WebGL 1.0 section 5.14.3).
#[derive(Clone, Copy, Debug, PartialEq, Eq)]
pub enum DepthStencilCall {
    /// depthFunc
    DepthFunc(u32),
    /// depthMask; false for 0, and true for any other word.
    DepthMask(u32),
    /// stencilFuncSeparate; the reference may be negative.
    StencilFuncSeparate {
        face: u32,
        func: u32,
        reference: i32,
        mask: u32,
    },
    /// stencilMaskSeparate
    StencilMaskSeparate {
        face: u32,
        mask: u32,
    },
    /// stencilOpSeparate
    StencilOpSeparate {
        face: u32,
        fail: u32,
        depth_fail: u32,
        depth_pass: u32,
    },
    /// clearStencil; the value may be negative.
    ClearStencil(i32),
}

/// The operations of these calls, with their numbers in the record table.
#[derive(Clone, Copy)]
pub enum DepthStencilOperation {
    /// depthFunc: comparison.
    DepthFunc = 72,
    /// depthMask: flag.
    DepthMask = 73,
    /// stencilFuncSeparate: face, comparison, reference, mask.
    StencilFuncSeparate = 74,
    /// stencilMaskSeparate: face, mask.
    StencilMaskSeparate = 75,
    /// stencilOpSeparate: face, and the operations where the stencil test fails, the depth test fails, and both pass.
    StencilOpSeparate = 76,
    /// clearStencil: value.
    ClearStencil = 82,
}

impl DepthStencilOperation {
    /// The operation of this number; None exactly where none of these has it.
    #[inline(always)]
    #[tactic(auto, unfolding(crate::specs::DepthStencilRecords::depth_stencil_numbered))]
    pub fn from_u32(n: u32) -> Option<Self>
        ensures found { result ≡ depth_stencil_numbered n }
        ensures number { IfSome result (λ operation. (depth_stencil_row operation).number ≡ n) }
    {
        match n {
            _ if n == Self::DepthFunc as u32 => Some(Self::DepthFunc),
            _ if n == Self::DepthMask as u32 => Some(Self::DepthMask),
            _ if n == Self::StencilFuncSeparate as u32 => Some(Self::StencilFuncSeparate),
            _ if n == Self::StencilMaskSeparate as u32 => Some(Self::StencilMaskSeparate),
            _ if n == Self::StencilOpSeparate as u32 => Some(Self::StencilOpSeparate),
            _ if n == Self::ClearStencil as u32 => Some(Self::ClearStencil),
            _ => None,
        }
    }

    /// The operation's row of the record table.
    #[inline(always)]
    pub fn row(self) -> Row
        ensures { result ≡ depth_stencil_row self }
    {
        use Letter::{B, I, U};
        let number = self as u32;
        match self {
            Self::DepthFunc => Row::new(number, "depthFunc", &[U], Tail::Nothing),
            Self::DepthMask => Row::new(number, "depthMask", &[B], Tail::Nothing),
            Self::StencilFuncSeparate => {
                Row::new(number, "stencilFuncSeparate", &[U, U, I, U], Tail::Nothing)
            }
            Self::StencilMaskSeparate => {
                Row::new(number, "stencilMaskSeparate", &[U, U], Tail::Nothing)
            }
            Self::StencilOpSeparate => {
                Row::new(number, "stencilOpSeparate", &[U, U, U, U], Tail::Nothing)
            }
            Self::ClearStencil => Row::new(number, "clearStencil", &[I], Tail::Nothing),
        }
    }
}

impl DepthStencilCall {
    /// The call of an operation, its fields read in order.
    #[inline(always)]
    pub fn read(operation: DepthStencilOperation, fields: &mut Fields<'_>) -> Self
        requires { allows BODY_MAX (depth_stencil_row operation) (length fields.old) ≡ true }
        ensures { ReadsRow depth_stencil_row operation fields.old fields.new (depth_stencil_parts result) }
    {
        match operation {
            DepthStencilOperation::DepthFunc => DepthStencilCall::DepthFunc(fields.word()),
            DepthStencilOperation::DepthMask => DepthStencilCall::DepthMask(fields.word()),
            DepthStencilOperation::StencilFuncSeparate => DepthStencilCall::StencilFuncSeparate {
                face: fields.word(),
                func: fields.word(),
                reference: fields.int(),
                mask: fields.word(),
            },
            DepthStencilOperation::StencilMaskSeparate => DepthStencilCall::StencilMaskSeparate {
                face: fields.word(),
                mask: fields.word(),
            },
            DepthStencilOperation::StencilOpSeparate => DepthStencilCall::StencilOpSeparate {
                face: fields.word(),
                fail: fields.word(),
                depth_fail: fields.word(),
                depth_pass: fields.word(),
            },
            DepthStencilOperation::ClearStencil => DepthStencilCall::ClearStencil(fields.int()),
        }
    }

    /// The call's operation.
    #[inline(always)]
    pub fn operation(&self) -> DepthStencilOperation
        ensures { result ≡ (depth_stencil_parts self.now).operation }
    {
        match self {
            DepthStencilCall::DepthFunc(_) => DepthStencilOperation::DepthFunc,
            DepthStencilCall::DepthMask(_) => DepthStencilOperation::DepthMask,
            DepthStencilCall::StencilFuncSeparate { .. } => {
                DepthStencilOperation::StencilFuncSeparate
            }
            DepthStencilCall::StencilMaskSeparate { .. } => {
                DepthStencilOperation::StencilMaskSeparate
            }
            DepthStencilCall::StencilOpSeparate { .. } => DepthStencilOperation::StencilOpSeparate,
            DepthStencilCall::ClearStencil(_) => DepthStencilOperation::ClearStencil,
        }
    }

    /// The bytes of the call's fields, in order.
    pub fn fields(&self) -> FieldBytes
        ensures { result ≡ body_encoding (depth_stencil_parts self.now).values [] }
    {
        use Field::{Int, Word};
        match self {
            DepthStencilCall::DepthFunc(word) | DepthStencilCall::DepthMask(word) => {
                FieldBytes::of(&[Word(*word)])
            }
            DepthStencilCall::StencilFuncSeparate {
                face,
                func,
                reference,
                mask,
            } => FieldBytes::of(&[Word(*face), Word(*func), Int(*reference), Word(*mask)]),
            DepthStencilCall::StencilMaskSeparate { face, mask } => {
                FieldBytes::of(&[Word(*face), Word(*mask)])
            }
            DepthStencilCall::StencilOpSeparate {
                face,
                fail,
                depth_fail,
                depth_pass,
            } => FieldBytes::of(&[
                Word(*face),
                Word(*fail),
                Word(*depth_fail),
                Word(*depth_pass),
            ]),
            DepthStencilCall::ClearStencil(value) => FieldBytes::of(&[Int(*value)]),
        }
    }
}
