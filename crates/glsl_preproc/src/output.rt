ghost use Rattle.std.specs.Prelude.{◌≡◌, ◌≤◌, ℕ, [], ◌∷◌, ◌++◌, IfErr, OnOk, length};
ghost use Rattle.glsl_preproc.specs.Views.{plain_piece, plain_pieces};

use crate::errors::Pre;
use crate::pieces::Piece;
use std::alloc::Global;
use std::marker::Model;

/// The most tokens of an expansion.
const LONGEST: usize = 131_072;

/// The tokens that an expansion leaves, at most 131,072.
#[derive(Drop)]
pub struct Output<'s> {
    /// The tokens.
    pieces: Vec<Piece<'s>>,
}

impl<'s> Model for Output<'s> {
    ghost use Rattle.std.specs.Prelude.{◌≤◌, List, length};
    ghost use Rattle.glsl_tree.specs.Token.{PlainToken};
    ghost use Rattle.glsl_preproc.specs.Views.{plain_pieces};

    ghost Value = { List PlainToken };

    ghost view = { λ o. plain_pieces o.pieces.items };

    ghost invariant = { λ o. length o.pieces.items ≤ 131072 };
}

#[tactic(auto)]
impl<'s> Output<'s> {
    /// No token.
    pub fn new(alloc: Global) -> Self
        ensures { result ≡ [] }
    {
        Output {
            pieces: Vec::new(alloc),
        }
    }

    /// Adds a token, where there is room for it.
    pub fn push(&mut self, piece: &Piece<'s>) -> Result<(), Pre>
        ensures ok { OnOk result (self.new ≡ self.old ++ plain_piece piece.now ∷ []) }
        ensures full { IfErr result (λ e. e ≡ Pre.TooLong → 131072 ≤ length self.old) }
        ensures never { IfErr result (λ e. (line : ℕ) → e ≡ Pre.Directive line → ⊥) }
    {
        if self.pieces.len() >= LONGEST {
            return Err(Pre::TooLong);
        }
        match self.pieces.push(*piece) {
            Ok(()) => Ok(()),
            Err(_) => Err(Pre::Memory),
        }
    }

    /// The tokens.
    pub fn as_slice(&self) -> &[Piece<'s>]
        ensures pieces { plain_pieces result.now ≡ self.now }
        ensures within { length self.now ≤ 131072 }
    {
        self.pieces.as_slice()
    }
}
