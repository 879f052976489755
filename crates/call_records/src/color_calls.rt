ghost use Rattle.std.specs.Prelude.{◌≡◌, length, true, IfSome, []};
ghost use Rattle.gl_numbers.specs.Fields.{allows, body_encoding, ReadsRow};
ghost use Rattle.call_records.specs.declared.operations.TheConstants.{BODY_MAX};
ghost use Rattle.call_records.specs.ColorRecords.{color_row, color_numbered, color_parts};

use gl_numbers::{Field, FieldBytes, Fields, Letter, Row, Tail};

/// A call about how colours are blended, written and cleared (WebGL 1.0 section 5.14.3).
#[derive(Clone, Copy, Debug, PartialEq, Eq)]
pub enum ColorCall {
    /// blendColor; each value is the word of a float.
    BlendColor {
        red: u32,
        green: u32,
        blue: u32,
        alpha: u32,
    },
    /// blendEquationSeparate
    BlendEquationSeparate {
        rgb: u32,
        alpha: u32,
    },
    /// blendFuncSeparate
    BlendFuncSeparate {
        src_rgb: u32,
        dst_rgb: u32,
        src_alpha: u32,
        dst_alpha: u32,
    },
    /// colorMask; each value is false for 0, and true for any other word.
    ColorMask {
        red: u32,
        green: u32,
        blue: u32,
        alpha: u32,
    },
    /// clearColor; each value is the word of a float.
    ClearColor {
        red: u32,
        green: u32,
        blue: u32,
        alpha: u32,
    },
}

/// The operations of these calls, with their numbers in the record table.
#[derive(Clone, Copy)]
pub enum ColorOperation {
    /// blendColor: red, green, blue, alpha.
    BlendColor = 68,
    /// blendEquationSeparate: the equations of colours and of alpha values.
    BlendEquationSeparate = 69,
    /// blendFuncSeparate: the factors of colours, source and destination, and then those of alpha values.
    BlendFuncSeparate = 70,
    /// colorMask: red, green, blue, alpha.
    ColorMask = 71,
    /// clearColor: red, green, blue, alpha.
    ClearColor = 81,
}

impl ColorOperation {
    /// The operation of this number; None exactly where none of these has it.
    #[inline(always)]
    #[tactic(auto, unfolding(crate::specs::ColorRecords::color_numbered))]
    pub fn from_u32(n: u32) -> Option<Self>
        ensures found { result ≡ color_numbered n }
        ensures number { IfSome result (λ operation. (color_row operation).number ≡ n) }
    {
        match n {
            _ if n == Self::BlendColor as u32 => Some(Self::BlendColor),
            _ if n == Self::BlendEquationSeparate as u32 => Some(Self::BlendEquationSeparate),
            _ if n == Self::BlendFuncSeparate as u32 => Some(Self::BlendFuncSeparate),
            _ if n == Self::ColorMask as u32 => Some(Self::ColorMask),
            _ if n == Self::ClearColor as u32 => Some(Self::ClearColor),
            _ => None,
        }
    }

    /// The operation's row of the record table.
    #[inline(always)]
    pub fn row(self) -> Row
        ensures { result ≡ color_row self }
    {
        use Letter::{B, F, U};
        let number = self as u32;
        match self {
            Self::BlendColor => Row::new(number, "blendColor", &[F, F, F, F], Tail::Nothing),
            Self::BlendEquationSeparate => {
                Row::new(number, "blendEquationSeparate", &[U, U], Tail::Nothing)
            }
            Self::BlendFuncSeparate => {
                Row::new(number, "blendFuncSeparate", &[U, U, U, U], Tail::Nothing)
            }
            Self::ColorMask => Row::new(number, "colorMask", &[B, B, B, B], Tail::Nothing),
            Self::ClearColor => Row::new(number, "clearColor", &[F, F, F, F], Tail::Nothing),
        }
    }
}

impl ColorCall {
    /// The call of an operation, its fields read in order.
    #[inline(always)]
    pub fn read(operation: ColorOperation, fields: &mut Fields<'_>) -> Self
        requires { allows BODY_MAX (color_row operation) (length fields.old) ≡ true }
        ensures { ReadsRow color_row operation fields.old fields.new (color_parts result) }
    {
        match operation {
            ColorOperation::BlendColor => ColorCall::BlendColor {
                red: fields.word(),
                green: fields.word(),
                blue: fields.word(),
                alpha: fields.word(),
            },
            ColorOperation::BlendEquationSeparate => ColorCall::BlendEquationSeparate {
                rgb: fields.word(),
                alpha: fields.word(),
            },
            ColorOperation::BlendFuncSeparate => ColorCall::BlendFuncSeparate {
                src_rgb: fields.word(),
                dst_rgb: fields.word(),
                src_alpha: fields.word(),
                dst_alpha: fields.word(),
            },
            ColorOperation::ColorMask => ColorCall::ColorMask {
                red: fields.word(),
                green: fields.word(),
                blue: fields.word(),
                alpha: fields.word(),
            },
            ColorOperation::ClearColor => ColorCall::ClearColor {
                red: fields.word(),
                green: fields.word(),
                blue: fields.word(),
                alpha: fields.word(),
            },
        }
    }

    /// The call's operation.
    #[inline(always)]
    pub fn operation(&self) -> ColorOperation
        ensures { result ≡ (color_parts self.now).operation }
    {
        match self {
            ColorCall::BlendColor { .. } => ColorOperation::BlendColor,
            ColorCall::BlendEquationSeparate { .. } => ColorOperation::BlendEquationSeparate,
            ColorCall::BlendFuncSeparate { .. } => ColorOperation::BlendFuncSeparate,
            ColorCall::ColorMask { .. } => ColorOperation::ColorMask,
            ColorCall::ClearColor { .. } => ColorOperation::ClearColor,
        }
    }

    /// The bytes of the call's fields, in order.
    pub fn fields(&self) -> FieldBytes
        ensures { result ≡ body_encoding (color_parts self.now).values [] }
    {
        use Field::Word;
        match self {
            ColorCall::BlendColor {
                red,
                green,
                blue,
                alpha,
            }
            | ColorCall::ColorMask {
                red,
                green,
                blue,
                alpha,
            }
            | ColorCall::ClearColor {
                red,
                green,
                blue,
                alpha,
            } => FieldBytes::of(&[Word(*red), Word(*green), Word(*blue), Word(*alpha)]),
            ColorCall::BlendEquationSeparate { rgb, alpha } => {
                FieldBytes::of(&[Word(*rgb), Word(*alpha)])
            }
            ColorCall::BlendFuncSeparate {
                src_rgb,
                dst_rgb,
                src_alpha,
                dst_alpha,
            } => FieldBytes::of(&[
                Word(*src_rgb),
                Word(*dst_rgb),
                Word(*src_alpha),
                Word(*dst_alpha),
            ]),
        }
    }
}
