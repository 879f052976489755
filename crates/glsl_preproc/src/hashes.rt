ghost use Rattle.std.specs.Prelude.{◌≡◌};
ghost use Rattle.glsl_tree.specs.Token.{plain_tokens};
ghost use Rattle.glsl_preproc.specs.Expansion.{stray_hash, failing_hash, behind_name, before_hash};

use crate::kinds::Kind;
use crate::tokens::is_hash;
use glsl_tree::Token;

/// The line of the first `#` of a list.
pub fn stray_hash(list: &[Token]) -> Option<u32>
    ensures { result ≡ stray_hash (plain_tokens list.now) }
{
    let mut rest = list;
    while !rest.is_empty() {
        let token = &rest[0];
        if is_hash(token) {
            return Some(token.line);
        }
        rest = rest.split_at(1).1;
    }
    None
}

/// The line of the `#` that fails in a directive of a kind.
pub fn failing_hash(kind: Kind, list: &[Token]) -> Option<u32>
    ensures { result ≡ failing_hash kind (plain_tokens list.now) }
{
    match kind {
        Kind::Pragma => None,
        _ => stray_hash(list),
    }
}

/// The tokens behind a directive's name.
pub fn behind_name(list: &[Token]) -> &[Token]
    ensures { plain_tokens result.now ≡ behind_name (plain_tokens list.now) }
{
    match list {
        [_, rest @ ..] => rest,
        [] => list,
    }
}

/// The tokens before the first `#`.
pub fn before_hash(list: &[Token]) -> &[Token]
    ensures { plain_tokens result.now ≡ before_hash (plain_tokens list.now) }
{
    let mut rest = list;
    while !rest.is_empty() {
        if is_hash(&rest[0]) {
            return list.split_at(list.len() - rest.len()).0;
        }
        rest = rest.split_at(1).1;
    }
    list
}
