ghost use Rattle.std.specs.Prelude.{◌≡◌, ◌-◌, [], ◌∷◌, length, drop};
ghost use Rattle.glsl_tree.specs.Token.{plain, plain_tokens};
ghost use Rattle.glsl_tree.specs.SourceTokens.{is_definition, is_word, is_hash};

use glsl_tree::{Class, Token};
use std::alloc::{AllocError, Global};

/// The tokens so far, and what the next depends on.
#[derive(Drop)]
pub struct Scanner {
    /// The tokens so far.
    pub tokens: Vec<Token>,
    /// The line of the next byte.
    pub line: u32,
    /// Whether a token ends directly before the next byte.
    pub joined: bool,
}

/// Whether the class is that of a name or a word of the language.
fn is_word(class: Class) -> bool
    ensures { result ≡ is_word class }
{
    matches!(class, Class::Identifier | Class::Keyword)
}

/// Whether the class is that of `#`.
fn is_hash(class: Class) -> bool
    ensures { result ≡ is_hash class }
{
    matches!(class, Class::Hash)
}

/// Whether three tokens are `#`, `define` and a name.
#[tactic(auto, unfolding(glsl_tree::specs::SourceTokens::is_definition))]
fn are_definition(hash: &Token, define: &Token, name: &Token) -> bool
    ensures { result ≡ is_definition (plain hash.now ∷ plain define.now ∷ plain name.now ∷ []) }
{
    is_hash(hash.class) && define.text.as_slice() == b"define".as_slice() && is_word(name.class)
}

/// Whether the tokens end with `#`, `define` and a name.
fn ends_with_definition(tokens: &[Token]) -> bool
    ensures { result ≡ is_definition (drop (length tokens.now - 3) (plain_tokens tokens.now)) }
{
    match tokens.split_at(tokens.len().saturating_sub(3)).1 {
        [hash, define, name] => are_definition(hash, define, name),
        _ => false,
    }
}

impl Scanner {
    ghost use Rattle.std.specs.Prelude.{◌<◌, ◌≤◌, ◌+◌, ◌^◌, OnOk};
    ghost use Rattle.glsl_tree.specs.SourceTokens.{at_start, after_gap, after_token};
    ghost use Rattle.glsl_lex.specs.Scan.{before};

    /// Before the first byte of a source.
    pub fn new(alloc: Global) -> Self
        ensures { before result ≡ at_start }
    {
        Scanner {
            tokens: Vec::new(alloc),
            line: 1,
            joined: false,
        }
    }

    /// Goes on behind a gap in which so many lines end.
    #[tactic(auto, unfolding(glsl_tree::specs::SourceTokens::after_gap))]
    pub fn skip(&mut self, lines: u32)
        requires { self.old.line + lines < 2 ^ 32 }
        ensures gap { before self.new ≡ after_gap (before self.old) lines }
        ensures line { self.new.line ≡ self.old.line + lines }
    {
        self.line += lines;
        self.joined = false;
    }

    /// Adds the token that has this text.
    #[tactic(auto, using(std::proofs::lemmas::Grind::common_steps), unfolding(glsl_tree::specs::SourceTokens::after_token, glsl_tree::specs::SourceTokens::opens_parameters))]
    pub fn push(&mut self, alloc: Global, class: Class, text: &[u8]) -> Result<(), AllocError>
        requires { self.old.line + 1 < 2 ^ 32 }
        ensures token { OnOk result (before self.new ≡ after_token (before self.old) class text.now) }
        ensures line { self.new.line ≤ self.old.line + 1 }
    {
        let opens = self.joined
            && text == b"(".as_slice()
            && ends_with_definition(self.tokens.as_slice());
        let line = self.line;
        let text = Vec::from_slice(alloc, text)?;
        let token = Token {
            text,
            class: if opens { Class::Params } else { class },
            line,
        };
        self.tokens.push(token)?;
        self.joined = true;
        if class == Class::NewLine {
            self.line += 1;
        }
        Ok(())
    }
}
