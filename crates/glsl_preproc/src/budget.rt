use crate::macros::Macro;
use crate::output::Output;
use crate::parameters::argument_of;
use crate::pieces::{Piece, Spelling, is_name};
use glsl_tree::Token;
use std::alloc::{AllocError, Global};

/// The most work of one expansion, in units of which each takes well below a microsecond and few bytes of memory.
const WORK: u32 = 4_194_304;

/// The work of beginning a list.
const LIST: usize = 1;

/// The work of looking a name up, in the names that are hidden, among the macros, or among parameters.
const LOOK: usize = 1;

/// The work of adding a token to a list, which may be kept for long.
const COPY: usize = 4;

/// How many bytes of a token's text are compared or copied for one unit.
const BYTES: usize = 8;

/// What an expansion may still take.
#[derive(Clone, Copy)]
pub struct Budget {
    /// Where memory is taken from.
    pub alloc: Global,
    /// How much work may be done.
    work: u32,
}

/// How many bytes the text of a token has, where it stands in the source.
fn text_len(piece: &Piece) -> usize {
    match piece.spelling {
        Spelling::Of(token) => token.text.len(),
        Spelling::Number(_) => 0,
    }
}

impl Budget {
    /// Before anything is done.
    pub fn new(alloc: Global) -> Self {
        Budget { alloc, work: WORK }
    }

    /// Takes so much from the work that is left. Where less is left, it is as if no memory were.
    fn spend(&mut self, amount: usize) -> Result<(), AllocError> {
        match u32::try_from(amount) {
            Ok(amount) if amount <= self.work => {
                self.work -= amount;
                Ok(())
            }
            _ => Err(AllocError),
        }
    }

    /// Spends the work of one token in which the end of a call is looked for.
    pub fn spend_scan(&mut self) -> Result<(), AllocError> {
        self.spend(1)
    }

    /// Spends the work of beginning a list.
    pub fn spend_list(&mut self) -> Result<(), AllocError> {
        self.spend(LIST)
    }

    /// Spends the work of a token in the list that is expanded: of handling it, and of looking a name up twice.
    pub fn spend_token(&mut self, piece: &Piece) -> Result<(), AllocError> {
        let looks = if is_name(piece) { 2 * LOOK } else { 0 };
        self.spend(1 + looks + text_len(piece) / BYTES)
    }

    /// Spends the work of adding a token to a list.
    pub fn spend_copy(&mut self, piece: &Piece) -> Result<(), AllocError> {
        self.spend(COPY + text_len(piece) / BYTES)
    }

    /// Spends the work of putting a replacement in the place of a name, before anything is copied.
    pub fn spend_body(&mut self, body: &[Token]) -> Result<(), AllocError> {
        for token in body {
            self.spend(COPY + token.text.len() / BYTES)?;
        }
        Ok(())
    }

    /// Spends the work of copying an argument.
    fn spend_argument(&mut self, pieces: &[Piece]) -> Result<(), AllocError> {
        for piece in pieces {
            self.spend_copy(piece)?;
        }
        Ok(())
    }

    /// Spends the work of putting arguments into a replacement, before anything is copied: each token of it is looked up
    /// among the parameters twice, and each token of an argument is copied wherever its parameter stands.
    pub fn spend_substituted(&mut self, m: &Macro, arguments: &[Output]) -> Result<(), AllocError> {
        for token in m.body {
            self.spend(2 * LOOK + COPY + token.text.len() / BYTES)?;
            if let Some(argument) = argument_of(&m.parameters, arguments, token.text.as_slice()) {
                self.spend_argument(argument.as_slice())?;
            }
        }
        Ok(())
    }
}
