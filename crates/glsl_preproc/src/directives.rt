ghost use Rattle.std.specs.Prelude.{◌≡◌, ◌≤◌, [], IfOk, IfSome, not, ◌&&◌, length};
ghost use Rattle.std.specs.Option.{option_map};
ghost use Rattle.std.specs.List.{list_any};
ghost use Rattle.std.specs.Str.{bytes_eq};
ghost use Rattle.glsl_tree.specs.Token.{plain, plain_tokens};
ghost use Rattle.glsl_preproc.specs.Macros.{is_name_token, find_macro};
ghost use Rattle.glsl_preproc.specs.Directives.{kind_of_name, kind_of, parameters_from, parameters_at, macro_of, definition_of, after_define, after_undef, asked_defined, is_version, is_offered, is_extension, are_line_numbers};
ghost use Rattle.glsl_preproc.specs.Views.{plain_macro};
ghost use Rattle.glsl_preproc.specs.DirectiveViews.{names_of, standing, Changes};

use crate::kinds::Kind;
use crate::macro_table::{MacroTable, is_reserved, same_macro};
use crate::macros::Macro;
use crate::names::Names;
use crate::tokens::{closes, is_comma, is_int, is_name, is_params, is_text};
use glsl_tree::Token;
use std::alloc::{AllocError, Global};

/// Which directive a name makes.
#[tactic(auto, unfolding(crate::specs::Directives::kind_of_name))]
fn kind_of_name(name: &[u8]) -> Kind
    ensures { result ≡ kind_of_name name.now }
{
    if name == b"define".as_slice() {
        Kind::Define
    } else if name == b"undef".as_slice() {
        Kind::Undef
    } else if name == b"if".as_slice() {
        Kind::If
    } else if name == b"ifdef".as_slice() {
        Kind::Ifdef
    } else if name == b"ifndef".as_slice() {
        Kind::Ifndef
    } else if name == b"elif".as_slice() {
        Kind::Elif
    } else if name == b"else".as_slice() {
        Kind::Else
    } else if name == b"endif".as_slice() {
        Kind::Endif
    } else if name == b"error".as_slice() {
        Kind::Error
    } else if name == b"pragma".as_slice() {
        Kind::Pragma
    } else if name == b"extension".as_slice() {
        Kind::Extension
    } else if name == b"version".as_slice() {
        Kind::Version
    } else if name == b"line".as_slice() {
        Kind::Line
    } else {
        Kind::Unknown
    }
}

/// Which directive stands behind a `#`.
#[tactic(auto, unfolding(crate::specs::Directives::kind_of))]
pub fn kind_of(list: &[Token]) -> Kind
    ensures { result ≡ kind_of (plain_tokens list.now) }
{
    match list {
        [] => Kind::Empty,
        [name, ..] if is_name(name) => kind_of_name(name.text.as_slice()),
        _ => Kind::Unknown,
    }
}

/// The names of a macro's parameters.
#[derive(Drop)]
struct Parameters {
    /// The names, in order.
    names: Names,
    /// How many tokens they take behind the `(`, the `)` among them.
    count: usize,
}

/// Whether the token is a name that is not among others.
fn is_new_name(names: &Names, token: &Token) -> bool
    ensures { result ≡ (is_name_token (plain token.now) && not (list_any (λ p. bytes_eq p token.now.text.items) names.now)) }
{
    is_name(token) && !names.contains(token.text.as_slice())
}

/// One parameter at least, where different names stand there, parted by commas, and a `)` behind the last.
fn parameters_from(alloc: Global, list: &[Token]) -> Result<Option<Parameters>, AllocError>
    ensures found { IfOk result (λ found. names_of found ≡ parameters_from [] 0 (plain_tokens list.now)) }
    ensures within { IfOk result (λ found. IfSome found (λ p. p.count ≤ length list.now)) }
{
    let mut names = Names::new(alloc);
    let mut rest = list;
    while rest.len() >= 2 {
        let name = &rest[0];
        let separator = &rest[1];
        let tail = rest.split_at(2).1;
        if !is_new_name(&names, name) {
            return Ok(None);
        }
        names.push(alloc, name.text.as_slice())?;
        if closes(separator) {
            let count = list.len() - tail.len();
            return Ok(Some(Parameters { names, count }));
        }
        if !is_comma(separator) {
            return Ok(None);
        }
        rest = tail;
    }
    Ok(None)
}

/// The parameters of a macro, from the first token behind the `(` on.
#[tactic(auto, unfolding(crate::specs::Directives::parameters_at))]
fn parameters_at(alloc: Global, list: &[Token]) -> Result<Option<Parameters>, AllocError>
    ensures found { IfOk result (λ found. names_of found ≡ parameters_at (plain_tokens list.now)) }
    ensures within { IfOk result (λ found. IfSome found (λ p. p.count ≤ length list.now)) }
{
    match list {
        [] => Ok(None),
        [first, ..] if closes(first) => Ok(Some(Parameters {
            names: Names::new(alloc),
            count: 1,
        })),
        _ => parameters_from(alloc, list),
    }
}

/// The macro of a name with the tokens behind it.
fn macro_of<'s>(
    alloc: Global,
    name: &'s [u8],
    rest: &'s [Token],
) -> Result<Option<Macro<'s>>, AllocError>
    ensures { IfOk result (λ found. option_map plain_macro found ≡ macro_of name.now (plain_tokens rest.now)) }
{
    if rest.is_empty() || !is_params(&rest[0]) {
        return Ok(Some(Macro {
            name,
            parameters: None,
            body: rest,
        }));
    }
    let tail = rest.split_at(1).1;
    let Some(parameters) = parameters_at(alloc, tail)? else {
        return Ok(None);
    };
    Ok(Some(Macro {
        name,
        parameters: Some(parameters.names),
        body: tail.split_at(parameters.count).1,
    }))
}

/// The macro that stands behind `#define`.
#[tactic(auto, unfolding(crate::specs::Directives::definition_of))]
fn definition_of<'s>(alloc: Global, list: &'s [Token]) -> Result<Option<Macro<'s>>, AllocError>
    ensures { IfOk result (λ found. option_map plain_macro found ≡ definition_of (plain_tokens list.now)) }
{
    if list.is_empty() || !is_name(&list[0]) || is_reserved(list[0].text.as_slice()) {
        return Ok(None);
    }
    macro_of(alloc, list[0].text.as_slice(), list.split_at(1).1)
}

/// Whether a macro has the name already.
pub enum Standing {
    /// None has.
    New,
    /// The same macro has.
    Same,
    /// Another macro has.
    Other,
}

/// What is known of the macro.
fn standing_of(macros: &MacroTable, m: &Macro) -> Standing
    ensures { result ≡ standing (plain_macro m.now) (find_macro macros.now m.now.name.now) }
{
    match macros.find(m.name) {
        None => Standing::New,
        Some(old) => {
            if same_macro(old, m) {
                Standing::Same
            } else {
                Standing::Other
            }
        }
    }
}

/// Does what a `#define` says, and answers whether it may.
#[tactic(auto, unfolding(crate::specs::Directives::after_define))]
pub fn define<'s>(
    alloc: Global,
    macros: &mut MacroTable<'s>,
    list: &'s [Token],
) -> Result<bool, AllocError>
    ensures { IfOk result (λ done. Changes (after_define macros.old (plain_tokens list.now)) macros.new done) }
{
    let Some(m) = definition_of(alloc, list)? else {
        return Ok(false);
    };
    match standing_of(macros, &m) {
        Standing::New => {
            macros.define(alloc, m)?;
            Ok(true)
        }
        Standing::Same => Ok(true),
        Standing::Other => Ok(false),
    }
}

/// Does what an `#undef` says, and answers whether it may.
#[tactic(auto, unfolding(crate::specs::Directives::after_undef))]
pub fn undefine(macros: &mut MacroTable, list: &[Token]) -> bool
    ensures { Changes (after_undef macros.old (plain_tokens list.now)) macros.new result }
{
    match list {
        [name] if is_name(name) && !is_reserved(name.text.as_slice()) => {
            macros.remove(name.text.as_slice());
            true
        }
        _ => false,
    }
}

/// Whether the one name behind an `#ifdef` is defined.
#[tactic(auto, unfolding(crate::specs::Directives::asked_defined))]
pub fn asked_defined(macros: &MacroTable, list: &[Token]) -> Option<bool>
    ensures { result ≡ asked_defined macros.now (plain_tokens list.now) }
{
    match list {
        [name] if is_name(name) => Some(macros.is_defined(name.text.as_slice())),
        _ => None,
    }
}

/// `#version 100`
#[tactic(auto, unfolding(crate::specs::Directives::is_version))]
pub fn is_version(list: &[Token]) -> bool
    ensures { result ≡ is_version (plain_tokens list.now) }
{
    match list {
        [number] => is_text(number, b"100"),
        _ => false,
    }
}

/// Whether an extension's behavior asks for none that is not there.
fn is_offered(name: &Token, behavior: &Token) -> bool
    ensures { result ≡ is_offered name.now.text.items behavior.now.text.items }
{
    is_text(behavior, b"warn")
        || is_text(behavior, b"disable")
        || is_text(behavior, b"enable") && !is_text(name, b"all")
}

/// `#extension N : B`, which asks for no extension that is not there.
#[tactic(auto, unfolding(crate::specs::Directives::is_extension))]
pub fn is_extension(list: &[Token]) -> bool
    ensures { result ≡ is_extension (plain_tokens list.now) }
{
    match list {
        [name, colon, behavior] => is_name(name)
            && is_text(colon, b":")
            && is_offered(name, behavior),
        _ => false,
    }
}

/// Whether a `#line` has one int or two.
#[tactic(auto, unfolding(crate::specs::Directives::are_line_numbers))]
pub fn are_line_numbers(list: &[Token]) -> bool
    ensures { result ≡ are_line_numbers (plain_tokens list.now) }
{
    match list {
        [a] => is_int(a),
        [a, b] => is_int(a) && is_int(b),
        _ => false,
    }
}
