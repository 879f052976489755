ghost use Rattle.std.specs.Prelude.{◌≡◌, length, true, IfSome, []};
ghost use Rattle.gl_numbers.specs.Fields.{allows, body_encoding, ReadsRow};
ghost use Rattle.call_records.specs.declared.operations.TheConstants.{BODY_MAX};
ghost use Rattle.call_records.specs.AttribRecords.{attrib_row, attrib_numbered, attrib_parts};

use gl_numbers::{Field, FieldBytes, Fields, Letter, Row, Tail};

/// A call about a vertex attribute (WebGL 1.0 section 5.14.10).
#[derive(Clone, Copy, Debug, PartialEq, Eq)]
pub enum AttribCall {
    /// enableVertexAttribArray and disableVertexAttribArray
    AttribArray {
        index: u32,
        on: bool,
    },
    /// vertexAttribPointer; the stride and the offset count bytes, and any numbers may be negative. `normalized` is false for
    /// 0, true for any other word.
    VertexAttribPointer {
        index: u32,
        size: i32,
        kind: u32,
        normalized: u32,
        stride: i32,
        offset: i64,
    },
    /// vertexAttrib4f and its kin; each component is a float's word.
    VertexAttrib {
        index: u32,
        x: u32,
        y: u32,
        z: u32,
        w: u32,
    },
    /// getVertexAttrib
    GetVertexAttrib {
        index: u32,
        name: u32,
    },
    /// getVertexAttribOffset
    GetVertexAttribOffset {
        index: u32,
        name: u32,
    },
}

/// The operations of these calls, with their numbers in the record table.
#[derive(Clone, Copy)]
pub enum AttribOperation {
    /// enableVertexAttribArray: index.
    EnableVertexAttribArray = 24,
    /// disableVertexAttribArray: index.
    DisableVertexAttribArray = 25,
    /// vertexAttribPointer: index, size, type, normalized, a stride and an offset in bytes.
    VertexAttribPointer = 26,
    /// vertexAttrib: index, four components.
    VertexAttrib = 27,
    /// getVertexAttrib: index, parameter name.
    GetVertexAttrib = 28,
    /// getVertexAttribOffset: index, parameter name.
    GetVertexAttribOffset = 29,
}

impl AttribOperation {
    /// The operation of this number; None exactly where none of these has it.
    #[inline(always)]
    #[tactic(auto, unfolding(crate::specs::AttribRecords::attrib_numbered))]
    pub fn from_u32(n: u32) -> Option<Self>
        ensures found { result ≡ attrib_numbered n }
        ensures number { IfSome result (λ operation. (attrib_row operation).number ≡ n) }
    {
        match n {
            _ if n == Self::EnableVertexAttribArray as u32 => Some(Self::EnableVertexAttribArray),
            _ if n == Self::DisableVertexAttribArray as u32 => {
                Some(Self::DisableVertexAttribArray)
            }
            _ if n == Self::VertexAttribPointer as u32 => Some(Self::VertexAttribPointer),
            _ if n == Self::VertexAttrib as u32 => Some(Self::VertexAttrib),
            _ if n == Self::GetVertexAttrib as u32 => Some(Self::GetVertexAttrib),
            _ if n == Self::GetVertexAttribOffset as u32 => Some(Self::GetVertexAttribOffset),
            _ => None,
        }
    }

    /// The operation's row of the record table.
    #[inline(always)]
    pub fn row(self) -> Row
        ensures { result ≡ attrib_row self }
    {
        use Letter::{B, F, I, L, U};
        let number = self as u32;
        match self {
            Self::EnableVertexAttribArray => {
                Row::new(number, "enableVertexAttribArray", &[U], Tail::Nothing)
            }
            Self::DisableVertexAttribArray => {
                Row::new(number, "disableVertexAttribArray", &[U], Tail::Nothing)
            }
            Self::VertexAttribPointer => Row::new(
                number,
                "vertexAttribPointer",
                &[U, I, U, B, I, L],
                Tail::Nothing,
            ),
            Self::VertexAttrib => {
                Row::new(number, "vertexAttrib", &[U, F, F, F, F], Tail::Nothing)
            }
            Self::GetVertexAttrib => Row::new(number, "getVertexAttrib", &[U, U], Tail::Nothing),
            Self::GetVertexAttribOffset => {
                Row::new(number, "getVertexAttribOffset", &[U, U], Tail::Nothing)
            }
        }
    }
}

impl AttribCall {
    /// The call of an operation, its fields read in order.
    #[inline(always)]
    pub fn read(operation: AttribOperation, fields: &mut Fields<'_>) -> Self
        requires { allows BODY_MAX (attrib_row operation) (length fields.old) ≡ true }
        ensures { ReadsRow attrib_row operation fields.old fields.new (attrib_parts result) }
    {
        match operation {
            AttribOperation::EnableVertexAttribArray => AttribCall::AttribArray {
                index: fields.word(),
                on: true,
            },
            AttribOperation::DisableVertexAttribArray => AttribCall::AttribArray {
                index: fields.word(),
                on: false,
            },
            AttribOperation::VertexAttribPointer => AttribCall::VertexAttribPointer {
                index: fields.word(),
                size: fields.int(),
                kind: fields.word(),
                normalized: fields.word(),
                stride: fields.int(),
                offset: fields.long(),
            },
            AttribOperation::VertexAttrib => AttribCall::VertexAttrib {
                index: fields.word(),
                x: fields.word(),
                y: fields.word(),
                z: fields.word(),
                w: fields.word(),
            },
            AttribOperation::GetVertexAttrib => AttribCall::GetVertexAttrib {
                index: fields.word(),
                name: fields.word(),
            },
            AttribOperation::GetVertexAttribOffset => AttribCall::GetVertexAttribOffset {
                index: fields.word(),
                name: fields.word(),
            },
        }
    }

    /// The call's operation.
    #[inline(always)]
    pub fn operation(&self) -> AttribOperation
        ensures { result ≡ (attrib_parts self.now).operation }
    {
        match self {
            AttribCall::AttribArray { on, .. } => {
                if *on {
                    AttribOperation::EnableVertexAttribArray
                } else {
                    AttribOperation::DisableVertexAttribArray
                }
            }
            AttribCall::VertexAttribPointer { .. } => AttribOperation::VertexAttribPointer,
            AttribCall::VertexAttrib { .. } => AttribOperation::VertexAttrib,
            AttribCall::GetVertexAttrib { .. } => AttribOperation::GetVertexAttrib,
            AttribCall::GetVertexAttribOffset { .. } => AttribOperation::GetVertexAttribOffset,
        }
    }

    /// The bytes of the call's fields, in order.
    pub fn fields(&self) -> FieldBytes
        ensures { result ≡ body_encoding (attrib_parts self.now).values [] }
    {
        use Field::{Int, Long, Word};
        match self {
            AttribCall::AttribArray { index, .. } => FieldBytes::of(&[Word(*index)]),
            AttribCall::VertexAttribPointer {
                index,
                size,
                kind,
                normalized,
                stride,
                offset,
            } => FieldBytes::of(&[
                Word(*index),
                Int(*size),
                Word(*kind),
                Word(*normalized),
                Int(*stride),
                Long(*offset),
            ]),
            AttribCall::VertexAttrib { index, x, y, z, w } => {
                FieldBytes::of(&[Word(*index), Word(*x), Word(*y), Word(*z), Word(*w)])
            }
            AttribCall::GetVertexAttrib { index, name } => {
                FieldBytes::of(&[Word(*index), Word(*name)])
            }
            AttribCall::GetVertexAttribOffset { index, name } => {
                FieldBytes::of(&[Word(*index), Word(*name)])
            }
        }
    }
}
