ghost use Rattle.std.specs.Prelude.{◌≡◌, length, true, IfSome, []};
ghost use Rattle.gl_numbers.specs.Fields.{allows, body_encoding, ReadsRow};
ghost use Rattle.call_records.specs.declared.operations.TheConstants.{BODY_MAX};
ghost use Rattle.call_records.specs.BufferRecords.{buffer_row, buffer_numbered, buffer_parts};

use gl_numbers::{Field, FieldBytes, Fields, Letter, Row, Tail};

/// What bufferData fills a buffer with (WebGL 1.0 section 5.14.5).
#[derive(Clone, Copy, Debug, PartialEq, Eq)]
pub enum Fill<'a> {
    /// Zeros, of this many bytes; a page may ask for a negative size, or for too many.
    Size(i64),
    /// These bytes, which give the buffer its size.
    Bytes(&'a [u8]),
}

/// A call about the buffer that is bound to a target (WebGL 1.0 section 5.14.5).
#[derive(Clone, Copy, Debug, PartialEq, Eq)]
pub enum BufferCall<'a> {
    /// bindBuffer; the handle 0 stands for null.
    BindBuffer {
        target: u32,
        handle: u32,
    },
    /// bufferData
    BufferData {
        target: u32,
        usage: u32,
        fill: Fill<'a>,
    },
    /// bufferSubData; the offset counts bytes, and may be negative.
    BufferSubData {
        target: u32,
        offset: i64,
        bytes: &'a [u8],
    },
    /// getBufferParameter
    GetBufferParameter {
        target: u32,
        name: u32,
    },
}

/// The operations of these calls, with their numbers in the record table.
#[derive(Clone, Copy)]
pub enum BufferOperation {
    /// bindBuffer: target, handle.
    BindBuffer = 19,
    /// bufferData: target, usage, and a size in bytes.
    BufferSize = 20,
    /// bufferData: target, usage, and the bytes.
    BufferData = 21,
    /// bufferSubData: target, an offset in bytes, and the bytes.
    BufferSubData = 22,
    /// getBufferParameter: target, parameter name.
    GetBufferParameter = 23,
}

impl BufferOperation {
    /// The operation of this number; None exactly where none of these has it.
    #[inline(always)]
    #[tactic(auto, unfolding(crate::specs::BufferRecords::buffer_numbered))]
    pub fn from_u32(n: u32) -> Option<Self>
        ensures found { result ≡ buffer_numbered n }
        ensures number { IfSome result (λ operation. (buffer_row operation).number ≡ n) }
    {
        match n {
            _ if n == Self::BindBuffer as u32 => Some(Self::BindBuffer),
            _ if n == Self::BufferSize as u32 => Some(Self::BufferSize),
            _ if n == Self::BufferData as u32 => Some(Self::BufferData),
            _ if n == Self::BufferSubData as u32 => Some(Self::BufferSubData),
            _ if n == Self::GetBufferParameter as u32 => Some(Self::GetBufferParameter),
            _ => None,
        }
    }

    /// The operation's row of the record table.
    #[inline(always)]
    pub fn row(self) -> Row
        ensures { result ≡ buffer_row self }
    {
        use Letter::{H, L, U};
        let number = self as u32;
        match self {
            Self::BindBuffer => Row::new(number, "bindBuffer", &[U, H], Tail::Nothing),
            Self::BufferSize => Row::new(number, "bufferSize", &[U, U, L], Tail::Nothing),
            Self::BufferData => Row::new(number, "bufferData", &[U, U], Tail::Bytes),
            Self::BufferSubData => Row::new(number, "bufferSubData", &[U, L], Tail::Bytes),
            Self::GetBufferParameter => {
                Row::new(number, "getBufferParameter", &[U, U], Tail::Nothing)
            }
        }
    }
}

impl<'a> BufferCall<'a> {
    /// The call of an operation, its fields and its tail read in order.
    #[inline(always)]
    pub fn read(operation: BufferOperation, fields: &mut Fields<'a>) -> Self
        requires { allows BODY_MAX (buffer_row operation) (length fields.old) ≡ true }
        ensures { ReadsRow buffer_row operation fields.old fields.new (buffer_parts result) }
    {
        match operation {
            BufferOperation::BindBuffer => BufferCall::BindBuffer {
                target: fields.word(),
                handle: fields.word(),
            },
            BufferOperation::BufferSize => BufferCall::BufferData {
                target: fields.word(),
                usage: fields.word(),
                fill: Fill::Size(fields.long()),
            },
            BufferOperation::BufferData => BufferCall::BufferData {
                target: fields.word(),
                usage: fields.word(),
                fill: Fill::Bytes(fields.tail()),
            },
            BufferOperation::BufferSubData => BufferCall::BufferSubData {
                target: fields.word(),
                offset: fields.long(),
                bytes: fields.tail(),
            },
            BufferOperation::GetBufferParameter => BufferCall::GetBufferParameter {
                target: fields.word(),
                name: fields.word(),
            },
        }
    }

    /// The call's operation.
    #[inline(always)]
    pub fn operation(&self) -> BufferOperation
        ensures { result ≡ (buffer_parts self.now).operation }
    {
        match self {
            BufferCall::BindBuffer { .. } => BufferOperation::BindBuffer,
            BufferCall::BufferData {
                fill: Fill::Size(_),
                ..
            } => BufferOperation::BufferSize,
            BufferCall::BufferData {
                fill: Fill::Bytes(_),
                ..
            } => BufferOperation::BufferData,
            BufferCall::BufferSubData { .. } => BufferOperation::BufferSubData,
            BufferCall::GetBufferParameter { .. } => BufferOperation::GetBufferParameter,
        }
    }

    /// The bytes of the call's fields, in order.
    pub fn fields(&self) -> FieldBytes
        ensures { result ≡ body_encoding (buffer_parts self.now).values [] }
    {
        use Field::{Long, Word};
        match self {
            BufferCall::BindBuffer { target, handle } => {
                FieldBytes::of(&[Word(*target), Word(*handle)])
            }
            BufferCall::BufferData {
                target,
                usage,
                fill: Fill::Size(size),
            } => FieldBytes::of(&[Word(*target), Word(*usage), Long(*size)]),
            BufferCall::BufferData {
                target,
                usage,
                fill: Fill::Bytes(_),
            } => FieldBytes::of(&[Word(*target), Word(*usage)]),
            BufferCall::BufferSubData { target, offset, .. } => {
                FieldBytes::of(&[Word(*target), Long(*offset)])
            }
            BufferCall::GetBufferParameter { target, name } => {
                FieldBytes::of(&[Word(*target), Word(*name)])
            }
        }
    }

    /// The bytes that follow the call's fields, if any do.
    #[inline(always)]
    pub fn tail(&self) -> &'a [u8]
        ensures { result.now ≡ (buffer_parts self.now).tail }
    {
        match self {
            BufferCall::BufferData {
                fill: Fill::Bytes(bytes),
                ..
            } => bytes,
            BufferCall::BufferSubData { bytes, .. } => bytes,
            _ => &[],
        }
    }
}
