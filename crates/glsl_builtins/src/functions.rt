ghost use Rattle.std.specs.Prelude.{◌≡◌, map};
ghost use Rattle.std.specs.List.{list_any};
ghost use Rattle.glsl_builtins.specs.Functions.{is_at, fits_at, size_for, plain_row, is_named};
ghost use Rattle.glsl_builtins.specs.Functions.{answer_in, answer_among, function, is_function};

use crate::rows::{Form, FunctionRow};
use crate::signatures::FUNCTIONS;
use gl_numbers::Stage;
use glsl_types::SlType;

/// Whether a type is what a form stands for where the size is this.
#[tactic(auto, unfolding(crate::specs::Functions::is_at))]
fn is_at(size: u32, form: Form, kind: SlType) -> bool
    ensures { result ≡ is_at size form kind }
{
    match form.at(size) {
        Some(base) => kind.is_same(SlType::plain(base)),
        None => false,
    }
}

/// Whether types are what forms stand for, one for one, where the size is this.
fn fits_at(size: u32, forms: &[Form], kinds: &[SlType]) -> bool
    ensures { result ≡ fits_at size forms.now kinds.now }
{
    match forms {
        [] => kinds.is_empty(),
        [form, forms @ ..] => match kinds {
            [] => false,
            [kind, kinds @ ..] => is_at(size, *form, *kind) && fits_at(size, forms, kinds),
        },
    }
}

/// The size at which types are what forms stand for.
fn size_for(forms: &[Form], kinds: &[SlType]) -> Option<u32>
    ensures { result ≡ size_for forms.now kinds.now }
{
    if fits_at(1, forms, kinds) {
        Some(1)
    } else if fits_at(2, forms, kinds) {
        Some(2)
    } else if fits_at(3, forms, kinds) {
        Some(3)
    } else if fits_at(4, forms, kinds) {
        Some(4)
    } else {
        None
    }
}

/// Whether a row has a function of this name in a shader of this stage.
#[tactic(auto, using(crate::proofs::Mapped::any_of_names))]
fn is_named(row: &FunctionRow, name: &[u8], stage: Stage) -> bool
    ensures { result ≡ is_named name.now stage (plain_row row.now) }
{
    row.3.has(stage) && row.0.contains(&name)
}

/// What a row's function of this name returns for these arguments.
#[tactic(auto, unfolding(crate::specs::Functions::answer_in))]
fn answer_in(row: &FunctionRow, name: &[u8], stage: Stage, kinds: &[SlType]) -> Option<SlType>
    ensures { result ≡ answer_in name.now stage kinds.now (plain_row row.now) }
{
    if !is_named(row, name, stage) {
        return None;
    }
    match size_for(row.1, kinds) {
        Some(size) => match row.2.at(size) {
            Some(base) => Some(SlType::plain(base)),
            None => None,
        },
        None => None,
    }
}

/// What the first of these rows that has such a function returns.
fn answer_among(rows: &[FunctionRow], name: &[u8], stage: Stage, kinds: &[SlType]) -> Option<SlType>
    ensures { result ≡ answer_among name.now stage kinds.now (map plain_row rows.now) }
{
    for row in rows {
        if let Some(kind) = answer_in(row, name, stage, kinds) {
            return Some(kind);
        }
    }
    None
}

/// Whether one of these rows has a function of this name.
fn is_among(rows: &[FunctionRow], name: &[u8], stage: Stage) -> bool
    ensures { result ≡ list_any (is_named name.now stage) (map plain_row rows.now) }
{
    for row in rows {
        if is_named(row, name, stage) {
            return true;
        }
    }
    false
}

/// What the function of this name returns for arguments of these types in a shader of this stage; None exactly where
/// there is no such function.
#[tactic(auto, unfolding(crate::specs::Functions::function))]
pub fn function(name: &[u8], stage: Stage, args: &[SlType]) -> Option<SlType>
    ensures { result ≡ function name.now stage args.now }
{
    answer_among(&FUNCTIONS, name, stage, args)
}

/// Whether a shader of this stage has a function of this name, whatever its arguments are.
#[tactic(auto, unfolding(crate::specs::Functions::is_function))]
pub fn is_function(name: &[u8], stage: Stage) -> bool
    ensures { result ≡ is_function name.now stage }
{
    is_among(&FUNCTIONS, name, stage)
}
