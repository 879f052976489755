ghost use Rattle.std.specs.Prelude.{◌≡◌, length, true, IfSome, []};
ghost use Rattle.gl_numbers.specs.Fields.{allows, body_encoding, ReadsRow};
ghost use Rattle.call_records.specs.declared.operations.TheConstants.{BODY_MAX};
ghost use Rattle.call_records.specs.QueryRecords.{query_row, query_numbered, query_parts};

use gl_numbers::{Field, FieldBytes, Fields, Letter, Row, Tail};

/// A call that asks for state (WebGL 1.0 section 5.14.3).
#[derive(Clone, Copy, Debug, PartialEq, Eq)]
pub enum QueryCall {
    /// isEnabled
    IsEnabled(u32),
    /// getError
    GetError,
    /// getParameter
    GetParameter(u32),
}

/// The operations of these calls, with their numbers in the record table.
#[derive(Clone, Copy)]
pub enum QueryOperation {
    /// isEnabled: capability.
    IsEnabled = 67,
    /// getError
    GetError = 86,
    /// getParameter: parameter name.
    GetParameter = 87,
}

impl QueryOperation {
    /// The operation of this number; None exactly where none of these has it.
    #[inline(always)]
    #[tactic(auto, unfolding(crate::specs::QueryRecords::query_numbered))]
    pub fn from_u32(n: u32) -> Option<Self>
        ensures found { result ≡ query_numbered n }
        ensures number { IfSome result (λ operation. (query_row operation).number ≡ n) }
    {
        match n {
            _ if n == Self::IsEnabled as u32 => Some(Self::IsEnabled),
            _ if n == Self::GetError as u32 => Some(Self::GetError),
            _ if n == Self::GetParameter as u32 => Some(Self::GetParameter),
            _ => None,
        }
    }

    /// The operation's row of the record table.
    #[inline(always)]
    pub fn row(self) -> Row
        ensures { result ≡ query_row self }
    {
        let number = self as u32;
        match self {
            Self::IsEnabled => Row::new(number, "isEnabled", &[Letter::U], Tail::Nothing),
            Self::GetError => Row::new(number, "getError", &[], Tail::Nothing),
            Self::GetParameter => Row::new(number, "getParameter", &[Letter::U], Tail::Nothing),
        }
    }
}

impl QueryCall {
    /// The call of an operation, its fields read in order.
    #[inline(always)]
    pub fn read(operation: QueryOperation, fields: &mut Fields<'_>) -> Self
        requires { allows BODY_MAX (query_row operation) (length fields.old) ≡ true }
        ensures { ReadsRow query_row operation fields.old fields.new (query_parts result) }
    {
        match operation {
            QueryOperation::IsEnabled => QueryCall::IsEnabled(fields.word()),
            QueryOperation::GetError => QueryCall::GetError,
            QueryOperation::GetParameter => QueryCall::GetParameter(fields.word()),
        }
    }

    /// The call's operation.
    #[inline(always)]
    pub fn operation(&self) -> QueryOperation
        ensures { result ≡ (query_parts self.now).operation }
    {
        match self {
            QueryCall::IsEnabled(_) => QueryOperation::IsEnabled,
            QueryCall::GetError => QueryOperation::GetError,
            QueryCall::GetParameter(_) => QueryOperation::GetParameter,
        }
    }

    /// The bytes of the call's fields, in order.
    pub fn fields(&self) -> FieldBytes
        ensures { result ≡ body_encoding (query_parts self.now).values [] }
    {
        match self {
            QueryCall::IsEnabled(word) | QueryCall::GetParameter(word) => {
                FieldBytes::of(&[Field::Word(*word)])
            }
            QueryCall::GetError => FieldBytes::of(&[]),
        }
    }
}
