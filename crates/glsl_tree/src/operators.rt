ghost use Rattle.std.specs.Prelude.{◌≡◌};
ghost use Rattle.glsl_tree.specs.Operators.{binary_text, assignment_text, prefix_text, postfix_text};

/// An operator between two operands that groups from the left, the comma among them (GLSL ES 1.00.17 section 5.1).
#[derive(Clone, Copy)]
pub enum BinaryOperator {
    /// `,`
    Comma,
    /// `||`
    Or,
    /// `^^`
    Xor,
    /// `&&`
    And,
    /// `==`
    Equal,
    /// `!=`
    NotEqual,
    /// `<`
    Less,
    /// `>`
    Greater,
    /// `<=`
    LessEqual,
    /// `>=`
    GreaterEqual,
    /// `+`
    Add,
    /// `-`
    Subtract,
    /// `*`
    Multiply,
    /// `/`
    Divide,
}

impl BinaryOperator {
    /// The token's text.
    pub fn text(self) -> &'static [u8]
        ensures { result.now ≡ binary_text self }
    {
        match self {
            BinaryOperator::Comma => b",",
            BinaryOperator::Or => b"||",
            BinaryOperator::Xor => b"^^",
            BinaryOperator::And => b"&&",
            BinaryOperator::Equal => b"==",
            BinaryOperator::NotEqual => b"!=",
            BinaryOperator::Less => b"<",
            BinaryOperator::Greater => b">",
            BinaryOperator::LessEqual => b"<=",
            BinaryOperator::GreaterEqual => b">=",
            BinaryOperator::Add => b"+",
            BinaryOperator::Subtract => b"-",
            BinaryOperator::Multiply => b"*",
            BinaryOperator::Divide => b"/",
        }
    }
}

/// An assignment (section 5.8).
#[derive(Clone, Copy)]
pub enum AssignmentOperator {
    /// `=`
    Assign,
    /// `+=`
    Add,
    /// `-=`
    Subtract,
    /// `*=`
    Multiply,
    /// `/=`
    Divide,
}

impl AssignmentOperator {
    /// The token's text.
    pub fn text(self) -> &'static [u8]
        ensures { result.now ≡ assignment_text self }
    {
        match self {
            AssignmentOperator::Assign => b"=",
            AssignmentOperator::Add => b"+=",
            AssignmentOperator::Subtract => b"-=",
            AssignmentOperator::Multiply => b"*=",
            AssignmentOperator::Divide => b"/=",
        }
    }
}

/// An operator before its operand (section 5.1).
#[derive(Clone, Copy)]
pub enum PrefixOperator {
    /// `++`
    Increment,
    /// `--`
    Decrement,
    /// `+`
    Plus,
    /// `-`
    Minus,
    /// `!`
    Not,
}

impl PrefixOperator {
    /// The token's text.
    pub fn text(self) -> &'static [u8]
        ensures { result.now ≡ prefix_text self }
    {
        match self {
            PrefixOperator::Increment => b"++",
            PrefixOperator::Decrement => b"--",
            PrefixOperator::Plus => b"+",
            PrefixOperator::Minus => b"-",
            PrefixOperator::Not => b"!",
        }
    }
}

/// An operator after its operand (section 5.1).
#[derive(Clone, Copy)]
pub enum PostfixOperator {
    /// `++`
    Increment,
    /// `--`
    Decrement,
}

impl PostfixOperator {
    /// The token's text.
    pub fn text(self) -> &'static [u8]
        ensures { result.now ≡ postfix_text self }
    {
        match self {
            PostfixOperator::Increment => b"++",
            PostfixOperator::Decrement => b"--",
        }
    }
}
