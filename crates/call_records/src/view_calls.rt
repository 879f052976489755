ghost use Rattle.std.specs.Prelude.{◌≡◌, length, true, IfSome, []};
ghost use Rattle.gl_numbers.specs.Fields.{allows, body_encoding, ReadsRow};
ghost use Rattle.call_records.specs.declared.operations.TheConstants.{BODY_MAX};
ghost use Rattle.call_records.specs.ViewRecords.{view_row, view_numbered, view_parts};

use gl_numbers::{Field, FieldBytes, Fields, Letter, Row, Tail};

/// A call about what is drawn at all, and where (WebGL 1.0 sections 5.14.3 and 5.14.4).
#[derive(Clone, Copy, Debug, PartialEq, Eq)]
pub enum ViewCall {
    /// enable, and disable where `on` is false
    Capability {
        capability: u32,
        on: bool,
    },
    /// cullFace
    CullFace(u32),
    /// frontFace
    FrontFace(u32),
    /// viewport, in pixels; each number may be negative.
    Viewport {
        x: i32,
        y: i32,
        width: i32,
        height: i32,
    },
    /// scissor, in pixels; each number may be negative.
    Scissor {
        x: i32,
        y: i32,
        width: i32,
        height: i32,
    },
}

/// The operations of these calls, with their numbers in the record table.
#[derive(Clone, Copy)]
pub enum ViewOperation {
    /// enable: capability.
    Enable = 65,
    /// disable: capability.
    Disable = 66,
    /// cullFace: sides.
    CullFace = 77,
    /// frontFace: winding.
    FrontFace = 78,
    /// viewport: x, y, width, height.
    Viewport = 79,
    /// scissor: x, y, width, height.
    Scissor = 80,
}

impl ViewOperation {
    /// The operation of this number; None exactly where none of these has it.
    #[inline(always)]
    #[tactic(auto, unfolding(crate::specs::ViewRecords::view_numbered))]
    pub fn from_u32(n: u32) -> Option<Self>
        ensures found { result ≡ view_numbered n }
        ensures number { IfSome result (λ operation. (view_row operation).number ≡ n) }
    {
        match n {
            _ if n == Self::Enable as u32 => Some(Self::Enable),
            _ if n == Self::Disable as u32 => Some(Self::Disable),
            _ if n == Self::CullFace as u32 => Some(Self::CullFace),
            _ if n == Self::FrontFace as u32 => Some(Self::FrontFace),
            _ if n == Self::Viewport as u32 => Some(Self::Viewport),
            _ if n == Self::Scissor as u32 => Some(Self::Scissor),
            _ => None,
        }
    }

    /// The operation's row of the record table.
    #[inline(always)]
    pub fn row(self) -> Row
        ensures { result ≡ view_row self }
    {
        use Letter::{I, U};
        let number = self as u32;
        match self {
            Self::Enable => Row::new(number, "enable", &[U], Tail::Nothing),
            Self::Disable => Row::new(number, "disable", &[U], Tail::Nothing),
            Self::CullFace => Row::new(number, "cullFace", &[U], Tail::Nothing),
            Self::FrontFace => Row::new(number, "frontFace", &[U], Tail::Nothing),
            Self::Viewport => Row::new(number, "viewport", &[I, I, I, I], Tail::Nothing),
            Self::Scissor => Row::new(number, "scissor", &[I, I, I, I], Tail::Nothing),
        }
    }
}

impl ViewCall {
    /// The call of an operation, its fields read in order.
    #[inline(always)]
    pub fn read(operation: ViewOperation, fields: &mut Fields<'_>) -> Self
        requires { allows BODY_MAX (view_row operation) (length fields.old) ≡ true }
        ensures { ReadsRow view_row operation fields.old fields.new (view_parts result) }
    {
        match operation {
            ViewOperation::Enable => ViewCall::Capability {
                capability: fields.word(),
                on: true,
            },
            ViewOperation::Disable => ViewCall::Capability {
                capability: fields.word(),
                on: false,
            },
            ViewOperation::CullFace => ViewCall::CullFace(fields.word()),
            ViewOperation::FrontFace => ViewCall::FrontFace(fields.word()),
            ViewOperation::Viewport => ViewCall::Viewport {
                x: fields.int(),
                y: fields.int(),
                width: fields.int(),
                height: fields.int(),
            },
            ViewOperation::Scissor => ViewCall::Scissor {
                x: fields.int(),
                y: fields.int(),
                width: fields.int(),
                height: fields.int(),
            },
        }
    }

    /// The call's operation.
    #[inline(always)]
    pub fn operation(&self) -> ViewOperation
        ensures { result ≡ (view_parts self.now).operation }
    {
        match self {
            ViewCall::Capability { on: true, .. } => ViewOperation::Enable,
            ViewCall::Capability { on: false, .. } => ViewOperation::Disable,
            ViewCall::CullFace(_) => ViewOperation::CullFace,
            ViewCall::FrontFace(_) => ViewOperation::FrontFace,
            ViewCall::Viewport { .. } => ViewOperation::Viewport,
            ViewCall::Scissor { .. } => ViewOperation::Scissor,
        }
    }

    /// The bytes of the call's fields, in order.
    pub fn fields(&self) -> FieldBytes
        ensures { result ≡ body_encoding (view_parts self.now).values [] }
    {
        use Field::{Int, Word};
        match self {
            ViewCall::Capability { capability, .. } => FieldBytes::of(&[Word(*capability)]),
            ViewCall::CullFace(word) | ViewCall::FrontFace(word) => FieldBytes::of(&[Word(*word)]),
            ViewCall::Viewport {
                x,
                y,
                width,
                height,
            }
            | ViewCall::Scissor {
                x,
                y,
                width,
                height,
            } => FieldBytes::of(&[Int(*x), Int(*y), Int(*width), Int(*height)]),
        }
    }
}
