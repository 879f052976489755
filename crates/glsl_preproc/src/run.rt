ghost use Rattle.std.specs.Prelude.{◌≡◌, All, IfOk};
ghost use Rattle.glsl_tree.specs.Token.{plain_tokens};
ghost use Rattle.glsl_preproc.specs.Expansion.{expansion, at_start};
ghost use Rattle.glsl_preproc.specs.ReaderViews.{Answers, Finishes, state_of};
ghost use Rattle.glsl_preproc.specs.TextTokens.{IsTextToken, ParamsBehindDefine};

use crate::errors::Pre;
use crate::macro_table::Numbers;
use crate::pieces::tokens_of;
use crate::reader::Reader;
use crate::tokens::is_line_end;
use glsl_tree::Token;
use std::alloc::Global;

/// Reads the lines of a shader, before whose first the reader is.
fn read_lines<'s>(reader: &mut Reader<'s>, tokens: &'s [Token]) -> Result<(), Pre>
    requires { state_of reader.old ≡ at_start }
    ensures { Finishes (expansion 1024 (plain_tokens tokens.now)) reader.new.tokens result }
{
    let mut start = tokens;
    let mut rest = tokens;
    while !rest.is_empty() {
        let token = &rest[0];
        let tail = rest.split_at(1).1;
        if is_line_end(token) {
            match reader.line_of(start.split_at(start.len() - rest.len()).0) {
                Ok(()) => {}
                Err(e) => return Err(e),
            }
            start = tail;
        }
        rest = tail;
    }
    match reader.line_of(start) {
        Ok(()) => {}
        Err(e) => return Err(e),
    }
    reader.finish()
}

/// The tokens of a shader behind its directives and macros (GLSL ES 1.00.17 section 3.4). Unless memory is wanting,
/// the answer is that of the definition: its tokens, the line at which it fails, or that it has more than 131,072
/// tokens before it ends or fails. The tokens of a source, whose `(` of the class `Params` stand behind `#`, `define`
/// and a name, leave no token of the classes `Hash`, `NewLine` and `Params`.
pub fn expand(alloc: Global, tokens: &[Token]) -> Result<Vec<Token>, Pre>
    ensures answer { Answers (plain_tokens tokens.now) result }
    ensures text { ParamsBehindDefine (plain_tokens tokens.now) → IfOk result (λ out. All IsTextToken (plain_tokens out.items)) }
{
    let Ok(numbers) = Numbers::new(alloc) else {
        return Err(Pre::Memory);
    };
    let Ok(mut reader) = Reader::new(alloc, &numbers) else {
        return Err(Pre::Memory);
    };
    let end = read_lines(&mut reader, tokens);
    let pieces = reader.tokens.as_slice();
    match end {
        Ok(()) => {}
        Err(e) => return Err(e),
    }
    let Ok(out) = tokens_of(alloc, pieces) else {
        return Err(Pre::Memory);
    };
    Ok(out)
}
