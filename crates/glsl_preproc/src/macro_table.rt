ghost use Rattle.std.specs.Prelude.{◌≡◌, [], ◌∷◌, IfOk, OnOk, None, not, ◌++◌, codes};
ghost use Rattle.std.specs.Option.{option_map};
ghost use Rattle.std.specs.Str.{bytes_eq};
ghost use Rattle.glsl_tree.specs.Token.{plain, plain_tokens};
ghost use Rattle.glsl_preproc.specs.Macros.{find_macro, with_macro, without_macro, is_defined, has_double_underscore, begins_with_gl, is_reserved, same_token, same_body, same_names, same_parameters, same_macro, first_macros, constant_macro, number_token};
ghost use Rattle.glsl_preproc.specs.Views.{plain_macro, texts};

use crate::macros::Macro;
use crate::names::Names;
use crate::tokens::{class_number, number_token};
use glsl_tree::Token;
use std::alloc::{AllocError, Global};
use std::collections::BTreeMap;
use std::marker::Model;
use std::slice::from_ref;

/// The macros that are defined, by their names. A look-up, a new macro and one that is taken away take steps by the
/// logarithm of the count of macros.
#[derive(Drop)]
pub struct MacroTable<'s> {
    /// The macros.
    macros: BTreeMap<Vec<u8>, Macro<'s>>,
}

impl<'s> Model for MacroTable<'s> {
    ghost use Rattle.std.specs.Prelude.{map};
    ghost use Rattle.glsl_preproc.specs.Macros.{MacroMap};
    ghost use Rattle.glsl_preproc.specs.Views.{plain_entry};

    ghost Value = { MacroMap };

    ghost view = { λ t. map plain_entry t.macros.entries };
}

#[tactic(auto)]
impl<'s> MacroTable<'s> {
    /// No macro at all.
    pub fn new(alloc: Global) -> Self
        ensures { result ≡ [] }
    {
        MacroTable {
            macros: BTreeMap::new(alloc),
        }
    }

    /// The macro of a name.
    pub fn find(&self, name: &[u8]) -> Option<&Macro<'s>>
        ensures { option_map (λ m. plain_macro m.now) result ≡ find_macro self.now name.now }
    {
        self.macros.get(name)
    }

    /// Whether a macro has the name.
    pub fn is_defined(&self, name: &[u8]) -> bool
        ensures { result ≡ is_defined self.now name.now }
    {
        self.find(name).is_some()
    }

    /// Defines a macro, in the place of one of the same name.
    pub fn define(&mut self, alloc: Global, m: Macro<'s>) -> Result<(), AllocError>
        ensures { OnOk result (self.new ≡ with_macro self.old (plain_macro m.entry)) }
    {
        let name = Vec::from_slice(alloc, m.name)?;
        let Ok(_old) = self.macros.insert(name, m) else {
            return Err(AllocError);
        };
        Ok(())
    }

    /// Takes away the macro of a name, if there is one.
    pub fn remove(&mut self, name: &[u8])
        ensures { self.new ≡ without_macro self.old name.now }
    {
        let _ = self.macros.remove(name);
    }
}

/// Whether `__` stands in the name.
#[tactic(auto, unfolding(crate::specs::Macros::has_double_underscore))]
fn has_double_underscore(name: &[u8]) -> bool
    ensures { result ≡ has_double_underscore name.now }
{
    let mut rest = name;
    loop {
        match rest {
            [b'_', b'_', ..] => return true,
            [_, tail @ ..] => rest = tail,
            [] => return false,
        }
    }
}

/// Whether no directive may define or undefine the name.
#[tactic(auto, unfolding(crate::specs::Macros::begins_with_gl))]
pub fn is_reserved(name: &[u8]) -> bool
    ensures { result ≡ is_reserved name.now }
{
    has_double_underscore(name) || matches!(name, [b'G', b'L', b'_', ..])
}

/// Whether two texts are the same.
pub fn same_text(a: &[u8], b: &[u8]) -> bool
    ensures { result ≡ bytes_eq a.now b.now }
{
    a == b
}

/// Whether two tokens have the same text and class.
fn same_token(a: &Token, b: &Token) -> bool
    ensures { result ≡ same_token (plain a.now) (plain b.now) }
{
    a.text.as_slice() == b.text.as_slice() && class_number(a.class) == class_number(b.class)
}

/// Whether two replacements have the same texts and classes.
fn same_body(a: &[Token], b: &[Token]) -> bool
    ensures { result ≡ same_body (plain_tokens a.now) (plain_tokens b.now) }
{
    let mut xs = a;
    let mut ys = b;
    while !xs.is_empty() {
        if ys.is_empty() {
            return false;
        }
        if !same_token(&xs[0], &ys[0]) {
            return false;
        }
        xs = xs.split_at(1).1;
        ys = ys.split_at(1).1;
    }
    ys.is_empty()
}

/// Whether two lists have the same names.
fn same_names(a: &[Vec<u8>], b: &[Vec<u8>]) -> bool
    ensures { result ≡ same_names (texts a.now) (texts b.now) }
{
    let mut xs = a;
    let mut ys = b;
    while !xs.is_empty() {
        if ys.is_empty() {
            return false;
        }
        if !same_text(xs[0].as_slice(), ys[0].as_slice()) {
            return false;
        }
        xs = xs.split_at(1).1;
        ys = ys.split_at(1).1;
    }
    ys.is_empty()
}

/// Whether two macros take the same parameters, or both take none.
fn same_parameters(a: &Option<Names>, b: &Option<Names>) -> bool
    ensures { result ≡ same_parameters a.now b.now }
{
    match (a, b) {
        (None, None) => true,
        (Some(xs), Some(ys)) => same_names(xs.as_slice(), ys.as_slice()),
        _ => false,
    }
}

/// Whether two macros are the same.
pub fn same_macro(a: &Macro, b: &Macro) -> bool
    ensures { result ≡ same_macro (plain_macro a.now) (plain_macro b.now) }
{
    same_parameters(&a.parameters, &b.parameters) && same_body(a.body, b.body)
}

/// A macro without parameters whose replacement is one number.
fn constant_macro<'s>(name: &'s [u8], number: &'s Token) -> Macro<'s>
    ensures { plain_macro result ≡ constant_macro name.now (plain number.now ∷ []) }
{
    Macro {
        name,
        parameters: None,
        body: from_ref(number),
    }
}

/// The numbers that macros stand for before the first directive.
#[derive(Drop)]
pub struct Numbers {
    /// Of `__FILE__`.
    pub zero: Token,
    /// Of `GL_ES` and `GL_FRAGMENT_PRECISION_HIGH`.
    pub one: Token,
    /// Of `__VERSION__`.
    pub version: Token,
}

impl Numbers {
    ghost use Rattle.std.specs.Prelude.{◌≡◌, IfOk, codes};
    ghost use Rattle.glsl_tree.specs.Token.{plain};
    ghost use Rattle.glsl_preproc.specs.Macros.{number_token};

    /// The numbers, as tokens.
    pub fn new(alloc: Global) -> Result<Self, AllocError>
        ensures zero { IfOk result (λ n. plain n.zero ≡ number_token (codes "0")) }
        ensures one { IfOk result (λ n. plain n.one ≡ number_token (codes "1")) }
        ensures version { IfOk result (λ n. plain n.version ≡ number_token (codes "100")) }
    {
        Ok(Numbers {
            zero: number_token(alloc, b"0")?,
            one: number_token(alloc, b"1")?,
            version: number_token(alloc, b"100")?,
        })
    }
}

/// The macros before the first directive.
#[tactic(auto, unfolding(crate::specs::Macros::first_macros))]
pub fn first_macros<'s>(alloc: Global, numbers: &'s Numbers) -> Result<MacroTable<'s>, AllocError>
    requires zero { plain numbers.now.zero ≡ number_token (codes "0") }
    requires one { plain numbers.now.one ≡ number_token (codes "1") }
    requires version { plain numbers.now.version ≡ number_token (codes "100") }
    ensures { IfOk result (λ macros. macros ≡ first_macros) }
{
    let mut macros = MacroTable::new(alloc);
    let line = Macro {
        name: b"__LINE__",
        parameters: None,
        body: &[],
    };
    macros.define(alloc, line)?;
    macros.define(alloc, constant_macro(b"__FILE__", &numbers.zero))?;
    macros.define(alloc, constant_macro(b"__VERSION__", &numbers.version))?;
    macros.define(alloc, constant_macro(b"GL_ES", &numbers.one))?;
    macros.define(
        alloc,
        constant_macro(b"GL_FRAGMENT_PRECISION_HIGH", &numbers.one),
    )?;
    Ok(macros)
}
