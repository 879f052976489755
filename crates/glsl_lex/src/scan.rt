ghost use Rattle.std.specs.Prelude.{◌≤◌, ◌<◌, length};
ghost use Rattle.glsl_tree.specs.SourceTokens.{source_tokens};
ghost use Rattle.glsl_lex.specs.Scan.{Answers};

use crate::errors::Lex;
use crate::pieces::{Piece, piece_at};
use crate::scanner::Scanner;
use glsl_tree::Token;
use std::alloc::Global;

/// The tokens of a source, each the longest that stands there (GLSL ES 1.00.17 chapter 3). Unless memory is wanting,
/// the answer is that of the definition, with the first line that fails.
pub fn lex(alloc: Global, source: &[u8]) -> Result<Vec<Token>, Lex>
    requires { length source.now ≤ 262144 }
    ensures { Answers result (source_tokens source.now) }
{
    let mut scanner = Scanner::new(alloc);
    let mut rest = source;
    while !rest.is_empty() {
        match piece_at(rest) {
            Piece::Gap(count, lines) => {
                scanner.skip(lines);
                rest = rest.split_at(count).1;
            }
            Piece::Token(class, count) => {
                let (text, tail) = rest.split_at(count);
                let Ok(()) = scanner.push(alloc, class, text) else {
                    return Err(Lex::Memory);
                };
                rest = tail;
            }
            Piece::Foreign => return Err(Lex::Lexical(scanner.line)),
        }
    }
    Ok(scanner.tokens)
}
