ghost use Rattle.std.specs.Prelude.{◌≡◌, length, true, IfSome, []};
ghost use Rattle.gl_numbers.specs.Fields.{allows, body_encoding, ReadsRow};
ghost use Rattle.call_records.specs.declared.operations.TheConstants.{BODY_MAX};
ghost use Rattle.call_records.specs.ObjectRecords.{object_row, object_numbered, object_parts};

use gl_numbers::{Field, FieldBytes, Fields, Letter, Row, Tail};

/// The kinds of object whose calls have records (WebGL 1.0 sections 5.4 to 5.9).
#[derive(Clone, Copy, Debug, PartialEq, Eq)]
pub enum ObjectKind {
    /// A WebGLBuffer.
    Buffer,
}

/// What a call creates (WebGL 1.0 section 5.14).
#[derive(Clone, Copy, Debug, PartialEq, Eq)]
pub enum New {
    /// createBuffer
    Buffer,
}

/// A call about an object as a whole (WebGL 1.0 section 5.14).
#[derive(Clone, Copy, Debug, PartialEq, Eq)]
pub enum ObjectCall {
    /// createBuffer
    Create(New),
    /// deleteBuffer
    Delete { kind: ObjectKind, handle: u32 },
    /// isBuffer
    IsKind { kind: ObjectKind, handle: u32 },
}

/// The operations of these calls, with their numbers in the record table.
#[derive(Clone, Copy)]
pub enum ObjectOperation {
    /// createBuffer
    CreateBuffer = 1,
    /// deleteBuffer: handle.
    DeleteBuffer = 7,
    /// isBuffer: handle.
    IsBuffer = 13,
}

impl ObjectOperation {
    /// The operation of this number; None exactly where none of these has it.
    #[inline(always)]
    #[tactic(auto, unfolding(crate::specs::ObjectRecords::object_numbered))]
    pub fn from_u32(n: u32) -> Option<Self>
        ensures found { result ≡ object_numbered n }
        ensures number { IfSome result (λ operation. (object_row operation).number ≡ n) }
    {
        match n {
            _ if n == Self::CreateBuffer as u32 => Some(Self::CreateBuffer),
            _ if n == Self::DeleteBuffer as u32 => Some(Self::DeleteBuffer),
            _ if n == Self::IsBuffer as u32 => Some(Self::IsBuffer),
            _ => None,
        }
    }

    /// The operation's row of the record table.
    #[inline(always)]
    pub fn row(self) -> Row
        ensures { result ≡ object_row self }
    {
        let number = self as u32;
        match self {
            Self::CreateBuffer => Row::new(number, "createBuffer", &[], Tail::Nothing),
            Self::DeleteBuffer => Row::new(number, "deleteBuffer", &[Letter::H], Tail::Nothing),
            Self::IsBuffer => Row::new(number, "isBuffer", &[Letter::H], Tail::Nothing),
        }
    }
}

impl ObjectCall {
    /// The call of an operation, its fields read in order.
    #[inline(always)]
    pub fn read(operation: ObjectOperation, fields: &mut Fields<'_>) -> Self
        requires { allows BODY_MAX (object_row operation) (length fields.old) ≡ true }
        ensures { ReadsRow object_row operation fields.old fields.new (object_parts result) }
    {
        match operation {
            ObjectOperation::CreateBuffer => ObjectCall::Create(New::Buffer),
            ObjectOperation::DeleteBuffer => ObjectCall::Delete {
                kind: ObjectKind::Buffer,
                handle: fields.word(),
            },
            ObjectOperation::IsBuffer => ObjectCall::IsKind {
                kind: ObjectKind::Buffer,
                handle: fields.word(),
            },
        }
    }

    /// The call's operation.
    #[inline(always)]
    pub fn operation(&self) -> ObjectOperation
        ensures { result ≡ (object_parts self.now).operation }
    {
        match self {
            ObjectCall::Create(New::Buffer) => ObjectOperation::CreateBuffer,
            ObjectCall::Delete {
                kind: ObjectKind::Buffer,
                ..
            } => ObjectOperation::DeleteBuffer,
            ObjectCall::IsKind {
                kind: ObjectKind::Buffer,
                ..
            } => ObjectOperation::IsBuffer,
        }
    }

    /// The bytes of the call's fields, in order.
    pub fn fields(&self) -> FieldBytes
        ensures { result ≡ body_encoding (object_parts self.now).values [] }
    {
        match self {
            ObjectCall::Create(New::Buffer) => FieldBytes::of(&[]),
            ObjectCall::Delete {
                kind: ObjectKind::Buffer,
                handle,
            }
            | ObjectCall::IsKind {
                kind: ObjectKind::Buffer,
                handle,
            } => FieldBytes::of(&[Field::Word(*handle)]),
        }
    }
}
