use crate::expressions::Expr;
use crate::qualifiers::{Basic, Direction, Precision, Storage};
use crate::text::Text;
use sqlite_items::Items;

/// A name with an optional array size (GLSL ES 1.00.17 section 4.1.9).
#[derive(Drop)]
pub struct SizedName {
    /// The name.
    pub name: Text,
    /// The expression in square brackets.
    pub size: Option<Expr>,
}

/// A type (sections 4.1 and 4.1.8).
#[cycle(kind)]
#[derive(Drop)]
pub enum TypeSpecifier {
    /// A basic type.
    Basic(Basic),
    /// `void`
    Void,
    /// The name of a structure.
    Name(Text),
    /// A structure with its members.
    Struct {
        /// The name that it declares.
        name: Option<Text>,
        /// The lines of members in order.
        members: Items<Member>,
    },
}

/// A line of members of a structure (section 4.1.8).
#[cycle(kind)]
#[derive(Drop)]
pub struct Member {
    /// The precision.
    pub precision: Option<Precision>,
    /// The type.
    pub kind: TypeSpecifier,
    /// The names with their sizes.
    pub names: Items<SizedName>,
}

/// A type with its qualifiers (section 4.7).
#[derive(Drop)]
pub struct FullType {
    /// The storage qualifier.
    pub storage: Option<Storage>,
    /// The precision.
    pub precision: Option<Precision>,
    /// The type.
    pub kind: TypeSpecifier,
}

/// What a declaration declares beside its type (section 4.3).
#[derive(Drop)]
pub enum Declarator {
    /// A name.
    Name(Text),
    /// An array.
    Array {
        /// The name.
        name: Text,
        /// The expression in square brackets.
        size: Expr,
    },
    /// A name with an initial value.
    Initialized {
        /// The name.
        name: Text,
        /// The value.
        value: Expr,
    },
}

/// A parameter of a function (section 6.1.1).
#[derive(Drop)]
pub struct Parameter {
    /// Whether `const` is written.
    pub is_constant: bool,
    /// The direction.
    pub direction: Option<Direction>,
    /// The precision.
    pub precision: Option<Precision>,
    /// The type.
    pub kind: TypeSpecifier,
    /// The name.
    pub name: Option<Text>,
    /// The expression in square brackets.
    pub size: Option<Expr>,
}

/// What stands in the brackets of a function's head (section 6.1).
#[derive(Drop)]
pub enum Parameters {
    /// `void` alone.
    Void,
    /// Any number of parameters.
    Listed(Items<Parameter>),
}

/// A function's head: its type, its name and its parameters (section 6.1).
#[derive(Drop)]
pub struct Head {
    /// The type that it returns.
    pub full_type: FullType,
    /// Its name.
    pub name: Text,
    /// Its parameters.
    pub parameters: Parameters,
}

/// A declaration (chapter 4, and `declaration` of chapter 9).
#[derive(Drop)]
pub enum Decl {
    /// A function's prototype.
    Prototype(Head),
    /// A default precision (section 4.5.3).
    Precision {
        /// The precision.
        precision: Precision,
        /// The type that has it.
        kind: TypeSpecifier,
    },
    /// Names that become invariant (section 4.6.1).
    Invariant {
        /// The names in order.
        names: Items<Text>,
    },
    /// A type, and what is declared with it.
    Variables {
        /// The type.
        full_type: FullType,
        /// The names in order.
        declarators: Items<Declarator>,
    },
}
