//! Declarations (GLSL ES 1.00.17 chapter 4 and section 6.1).

ghost use Rattle.std.specs.Prelude.{◌≡◌, ◌≤◌, ◌<◌, length, IfOk, IfSome};
ghost use Rattle.glsl_tree.specs.Token.{plain, plain_tokens};
ghost use Rattle.glsl_tree.specs.Declarations.{begins_with_name, full_type_height, is_named};
ghost use Rattle.glsl_parse.specs.Answers.{Follows, Gives};
ghost use Rattle.glsl_parse.specs.ExpressionReadings.{listed};
ghost use Rattle.glsl_parse.specs.Symbols.{name_at};
ghost use Rattle.glsl_parse.specs.DeclarationReadings as reading;

use crate::errors::Parse;
use crate::expressions::expression;
use crate::parameters::parameters;
use crate::qualifiers::{full_type, storage_of};
use crate::symbols::Begun;
use crate::tokens::{
    after_mark, after_word, basic_of, begins_with_mark, expect_mark, is_name, is_word, name_at,
    precision_of,
};
use crate::types::{size, type_specifier};
use glsl_tree::{Decl, Declarator, FullType, Head, Text, Token, TypeSpecifier};
use sqlite_items::Items;
use std::alloc::Global;

/// A name with what is declared with it, whose parts have a height of at most `below`.
#[tactic(auto, unfolding(crate::specs::DeclarationReadings::declarator_at, crate::specs::DeclarationReadings::declarator_of), using(crate::proofs::Rooms::rooms))]
fn declarator<'a>(
    alloc: Global,
    below: u32,
    list: &'a [Token],
) -> Result<(Declarator, &'a [Token]), Parse>
    requires { below ≤ 128 }
    ensures found { Gives result (reading.declarator_at below (plain_tokens list.now)) }
    ensures shorter { IfOk result (λ found. length found.1.now < length list.now) }
{
    let (name, rest) = name_at(alloc, list)?;
    if let Some(rest) = after_mark(rest, b"[") {
        if below == 0 {
            return Err(Parse::Syntax);
        }
        let (size, _, rest) = size(alloc, below - 1, rest)?;
        return Ok((Declarator::Array { name, size }, rest));
    }
    if let Some(rest) = after_mark(rest, b"=") {
        let value = expression(alloc, below, 1, rest)?;
        let declarator = Declarator::Initialized {
            name,
            value: value.tree,
        };
        return Ok((declarator, value.rest));
    }
    Ok((Declarator::Name(name), rest))
}

/// Declarators with commas between them, one at least.
#[tactic(auto, unfolding(crate::specs::ExpressionReadings::listed, crate::specs::ExpressionReadings::more_listed), using(crate::proofs::Loops::loops))]
fn declarator_list<'a>(
    alloc: Global,
    below: u32,
    list: &'a [Token],
) -> Result<(Items<Declarator>, &'a [Token]), Parse>
    requires { below ≤ 128 }
    ensures found { Gives result (listed (reading.declarator_at below) (plain_tokens list.now)) }
    ensures shorter { IfOk result (λ found. length found.1.now < length list.now) }
{
    let (first, mut rest) = declarator(alloc, below, list)?;
    let mut all = Items::new(alloc);
    all.push(first)?;
    while let Some(more) = after_mark(rest, b",") {
        let (next, tail) = declarator(alloc, below, more)?;
        all.push(next)?;
        rest = tail;
    }
    Ok((all, rest))
}

/// The declarators before a semicolon, of which there may be none.
#[tactic(auto, unfolding(crate::specs::DeclarationReadings::declarators), using(crate::proofs::Rooms::rooms))]
fn declarators<'a>(
    alloc: Global,
    room: u32,
    list: &'a [Token],
) -> Result<(Items<Declarator>, &'a [Token]), Parse>
    requires { room ≤ 128 }
    ensures found { Gives result (reading.declarators room (plain_tokens list.now)) }
    ensures shorter { IfOk result (λ found. length found.1.now ≤ length list.now) }
{
    if begins_with_mark(list, b";") {
        return Ok((Items::new(alloc), list));
    }
    if room == 0 {
        return Err(Parse::Syntax);
    }
    declarator_list(alloc, room - 1, list)
}

/// Whether a type is a name.
#[tactic(auto, unfolding(glsl_tree::specs::Declarations::is_named))]
fn is_named(kind: &TypeSpecifier) -> bool
    ensures { result ≡ is_named kind.now }
{
    matches!(kind, TypeSpecifier::Name(_))
}

/// Whether a type with its qualifiers begins with a name.
#[tactic(auto, using(crate::proofs::Absent::absent_is))]
fn begins_with_name(full: &FullType) -> bool
    ensures { result ≡ begins_with_name full.now }
{
    full.storage.is_none() && full.precision.is_none() && is_named(&full.kind)
}

/// Whether a declaration may have these declarators: it may have none only where it does not begin with a name.
#[tactic(auto, unfolding(crate::specs::DeclarationReadings::is_declared))]
fn is_declared(full: &FullType, declarators: &Items<Declarator>) -> bool
    ensures { result ≡ reading.is_declared full.now declarators.now }
{
    match declarators.as_slice() {
        [] => !begins_with_name(full),
        _ => true,
    }
}

/// The declaration of what stands after a type, with its semicolon.
#[tactic(auto, unfolding(crate::specs::DeclarationReadings::variables_after))]
fn variables<'a>(
    alloc: Global,
    room: u32,
    full_type: FullType,
    list: &'a [Token],
) -> Result<(Decl, &'a [Token]), Parse>
    requires { room ≤ 128 }
    ensures found { Gives result (reading.variables_after room full_type (plain_tokens list.now)) }
    ensures shorter { IfOk result (λ found. length found.1.now < length list.now) }
{
    let (declarators, rest) = declarators(alloc, room, list)?;
    let rest = expect_mark(rest, b";")?;
    if !is_declared(&full_type, &declarators) {
        return Err(Parse::Syntax);
    }
    let declaration = Decl::Variables {
        full_type,
        declarators,
    };
    Ok((declaration, rest))
}

/// Whether a list begins with a name and an opening bracket.
#[tactic(auto, unfolding(crate::specs::DeclarationReadings::begins_head))]
fn begins_head(list: &[Token]) -> bool
    ensures { result ≡ reading.begins_head (plain_tokens list.now) }
{
    match list.split_first() {
        Some((token, rest)) => is_name(token) && begins_with_mark(rest, b"("),
        None => false,
    }
}

/// A function's head with a height of at most `room`, after its type, which has this height.
#[tactic(auto, unfolding(crate::specs::DeclarationReadings::head_after, crate::specs::DeclarationReadings::parameters_after), using(crate::proofs::Rooms::rooms))]
fn head<'a>(
    alloc: Global,
    room: u32,
    full_type: FullType,
    height: u32,
    list: &'a [Token],
) -> Result<(Head, &'a [Token]), Parse>
    requires small { room ≤ 128 }
    requires measured { height ≡ full_type_height full_type }
    ensures found { Gives result (reading.head_after room full_type (plain_tokens list.now)) }
    ensures shorter { IfOk result (λ found. length found.1.now < length list.now) }
{
    let (name, rest) = name_at(alloc, list)?;
    let rest = expect_mark(rest, b"(")?;
    if height >= room {
        return Err(Parse::Syntax);
    }
    let (parameters, rest) = parameters(alloc, room - 1, rest)?;
    let head = Head {
        full_type,
        name,
        parameters,
    };
    Ok((head, rest))
}

/// A default precision, after `precision`.
#[tactic(auto, unfolding(crate::specs::DeclarationReadings::precision_declared))]
fn precision_declared<'a>(
    alloc: Global,
    room: u32,
    list: &'a [Token],
) -> Result<(Decl, &'a [Token]), Parse>
    requires { room ≤ 128 }
    ensures found { Gives result (reading.precision_declared room (plain_tokens list.now)) }
    ensures shorter { IfOk result (λ found. length found.1.now < length list.now) }
{
    let Some((token, rest)) = list.split_first() else {
        return Err(Parse::Syntax);
    };
    let Some(precision) = precision_of(token) else {
        return Err(Parse::Syntax);
    };
    let (kind, _, rest) = type_specifier(alloc, room, rest)?;
    let rest = expect_mark(rest, b";")?;
    Ok((Decl::Precision { precision, kind }, rest))
}

/// Names with commas between them, one at least.
#[tactic(auto, unfolding(crate::specs::ExpressionReadings::listed, crate::specs::ExpressionReadings::more_listed), using(crate::proofs::Loops::loops))]
fn name_list<'a>(alloc: Global, list: &'a [Token]) -> Result<(Items<Text>, &'a [Token]), Parse>
    ensures found { Gives result (listed name_at (plain_tokens list.now)) }
    ensures shorter { IfOk result (λ found. length found.1.now < length list.now) }
{
    let (first, mut rest) = name_at(alloc, list)?;
    let mut all = Items::new(alloc);
    all.push(first)?;
    while let Some(more) = after_mark(rest, b",") {
        let (next, tail) = name_at(alloc, more)?;
        all.push(next)?;
        rest = tail;
    }
    Ok((all, rest))
}

/// Names that become invariant, after `invariant`.
#[tactic(auto, unfolding(crate::specs::DeclarationReadings::invariant_declared))]
fn invariant_declared<'a>(alloc: Global, list: &'a [Token]) -> Result<(Decl, &'a [Token]), Parse>
    ensures found { Gives result (reading.invariant_declared (plain_tokens list.now)) }
    ensures shorter { IfOk result (λ found. length found.1.now < length list.now) }
{
    let (names, rest) = name_list(alloc, list)?;
    let rest = expect_mark(rest, b";")?;
    Ok((Decl::Invariant { names }, rest))
}

/// The tokens after an `invariant` that `varying` does not follow.
#[tactic(auto, unfolding(crate::specs::DeclarationReadings::after_invariant))]
fn after_invariant<'a>(list: &'a [Token]) -> Option<&'a [Token]>
    ensures found { Follows result (reading.after_invariant (plain_tokens list.now)) }
    ensures shorter { IfSome result (λ rest. length rest.now < length list.now) }
{
    let rest = after_word(list, b"invariant")?;
    match after_word(rest, b"varying") {
        None => Some(rest),
        Some(_) => None,
    }
}

/// A declaration, or a function's head without what ends it; the parts have a height of at most `room`.
#[tactic(auto, unfolding(crate::specs::DeclarationReadings::begun_at))]
pub fn begun<'a>(alloc: Global, room: u32, list: &'a [Token]) -> Result<(Begun, &'a [Token]), Parse>
    requires { room ≤ 128 }
    ensures found { Gives result (reading.begun_at room (plain_tokens list.now)) }
    ensures shorter { IfOk result (λ found. length found.1.now < length list.now) }
{
    if let Some(rest) = after_word(list, b"precision") {
        let (declaration, rest) = precision_declared(alloc, room, rest)?;
        return Ok((Begun::Whole(declaration), rest));
    }
    if let Some(rest) = after_invariant(list) {
        let (declaration, rest) = invariant_declared(alloc, rest)?;
        return Ok((Begun::Whole(declaration), rest));
    }
    let (full_type, height, rest) = full_type(alloc, room, list)?;
    begun_after(alloc, room, full_type, height, rest)
}

/// What stands after a type, which has this height: the rest of a function's head, or of a declaration.
#[tactic(auto, unfolding(crate::specs::DeclarationReadings::begun_after))]
fn begun_after<'a>(
    alloc: Global,
    room: u32,
    full_type: FullType,
    height: u32,
    list: &'a [Token],
) -> Result<(Begun, &'a [Token]), Parse>
    requires small { room ≤ 128 }
    requires measured { height ≡ full_type_height full_type }
    ensures found { Gives result (reading.begun_after room full_type (plain_tokens list.now)) }
    ensures shorter { IfOk result (λ found. length found.1.now < length list.now) }
{
    if begins_head(list) {
        let (head, rest) = head(alloc, room, full_type, height, list)?;
        Ok((Begun::Headed(head), rest))
    } else {
        let (declaration, rest) = variables(alloc, room, full_type, list)?;
        Ok((Begun::Whole(declaration), rest))
    }
}

/// A declaration with a height of at most `room`.
#[tactic(auto, unfolding(crate::specs::DeclarationReadings::declaration_at), using(crate::proofs::Rooms::rooms))]
pub fn declaration<'a>(
    alloc: Global,
    room: u32,
    list: &'a [Token],
) -> Result<(Decl, &'a [Token]), Parse>
    requires { room ≤ 128 }
    ensures found { Gives result (reading.declaration_at room (plain_tokens list.now)) }
    ensures shorter { IfOk result (λ found. length found.1.now < length list.now) }
{
    if room == 0 {
        return Err(Parse::Syntax);
    }
    let (begun, rest) = begun(alloc, room - 1, list)?;
    match begun {
        Begun::Whole(declaration) => Ok((declaration, rest)),
        Begun::Headed(head) => {
            let rest = expect_mark(rest, b";")?;
            Ok((Decl::Prototype(head), rest))
        }
    }
}

/// Whether the token begins a declaration, whatever follows it.
#[tactic(auto, unfolding(crate::specs::DeclarationReadings::begins_declaration))]
fn begins_declaration(token: &Token) -> bool
    ensures { result ≡ reading.begins_declaration (plain token.now) }
{
    storage_of(token).is_some()
        || precision_of(token).is_some()
        || is_word(token, b"invariant")
        || is_word(token, b"precision")
        || is_word(token, b"void")
        || is_word(token, b"struct")
}

/// Whether a list begins with a name.
fn begins_with_a_name(list: &[Token]) -> bool
    ensures { result ≡ reading.begins_with_a_name (plain_tokens list.now) }
{
    match list.first() {
        Some(token) => is_name(token),
        None => false,
    }
}

/// Whether a declaration begins here, and no expression. Two names in a row begin a declaration, and so does a basic type
/// that is not called.
#[tactic(auto, unfolding(crate::specs::DeclarationReadings::declares))]
pub fn declares(list: &[Token]) -> bool
    ensures { result ≡ reading.declares (plain_tokens list.now) }
{
    match list.split_first() {
        Some((token, rest)) => {
            begins_declaration(token)
                || (basic_of(token).is_some() && !begins_with_mark(rest, b"("))
                || (is_name(token) && begins_with_a_name(rest))
        }
        None => false,
    }
}
