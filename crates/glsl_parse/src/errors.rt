use std::alloc::AllocError;

/// Why there is no tree.
#[derive(Clone, Copy, Debug, PartialEq, Eq)]
pub enum Parse {
    /// No tree of a height of at most 128 spells the tokens.
    Syntax,
    /// Out of memory: an allocation was refused.
    Memory,
}

impl From<AllocError> for Parse {
    ghost use Rattle.std.specs.Prelude.{◌≡◌};
    ghost use Rattle.glsl_parse.specs.declared.errors.Parse.{Parse};

    ghost from_gives = { λ _ e. e ≡ Parse.Memory };

    fn from(_e: AllocError) -> Parse {
        Parse::Memory
    }
}
