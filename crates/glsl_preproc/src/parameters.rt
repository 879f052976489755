ghost use Rattle.std.specs.Prelude.{◌≡◌, ◌++◌, IfOk, OnOk};
ghost use Rattle.std.specs.Option.{option_map};
ghost use Rattle.glsl_tree.specs.Token.{plain, plain_tokens};
ghost use Rattle.glsl_preproc.specs.Replacement.{argument_of, argument_or, substituted, at_line};
ghost use Rattle.glsl_preproc.specs.Views.{plain_pieces, parameters_of};

use crate::names::Names;
use crate::output::Output;
use crate::pieces::{Piece, append_pieces, piece_at};
use glsl_tree::Token;
use std::alloc::{AllocError, Global};

/// The argument for a name, among those of the parameters.
pub fn argument_of<'a, 's>(
    parameters: &Option<Names>,
    arguments: &'a [Output<'s>],
    name: &[u8],
) -> Option<&'a Output<'s>>
    ensures { option_map (λ v. v.now) result ≡ argument_of (parameters_of parameters.now) arguments.now name.now }
{
    match parameters {
        None => None,
        Some(names) => match names.place(name) {
            Some(place) if place < arguments.len() => Some(&arguments[place]),
            _ => None,
        },
    }
}

/// Adds the tokens of an argument, or the token where it is none of a parameter's name.
fn append_argument<'s>(
    out: &mut Vec<Piece<'s>>,
    argument: Option<&Output<'s>>,
    token: &'s Token,
    line: u32,
) -> Result<(), AllocError>
    ensures { OnOk result (plain_pieces out.new.items ≡ plain_pieces out.old.items
        ++ at_line line (argument_or (option_map (λ v. v.now) argument.entry) (plain token.now))) }
{
    match argument {
        Some(tokens) => append_pieces(out, tokens.as_slice(), line),
        None => {
            out.push(piece_at(token, line))?;
            Ok(())
        }
    }
}

/// A replacement with the arguments in the places of the parameters.
pub fn substituted<'s>(
    alloc: Global,
    parameters: &Option<Names>,
    arguments: &[Output<'s>],
    line: u32,
    body: &'s [Token],
) -> Result<Vec<Piece<'s>>, AllocError>
    ensures { IfOk result (λ pieces. plain_pieces pieces.items ≡ substituted
        (parameters_of parameters.now) arguments.now line (plain_tokens body.now)) }
{
    let mut out = Vec::new(alloc);
    let mut rest = body;
    while !rest.is_empty() {
        let token = &rest[0];
        append_argument(
            &mut out,
            argument_of(parameters, arguments, token.text.as_slice()),
            token,
            line,
        )?;
        rest = rest.split_at(1).1;
    }
    Ok(out)
}
