ghost use Rattle.std.specs.Prelude.{◌≡◌};
ghost use Rattle.gl_context.specs.Deeds.{stopped};

use gl_numbers::GlError;

/// What a call returns, in so few words that it costs little to hand on.
#[derive(Clone, Copy)]
pub enum Told {
    /// No value.
    Nothing,
    /// A number.
    Number(u32),
    /// A list of two words.
    Two([u32; 2]),
    /// A list of four words.
    Four([u32; 4]),
}

/// Why a call did not do all that it asks for.
#[derive(Clone, Copy)]
pub enum Stop {
    /// It raises this error, and nothing was changed or sent.
    Raised(GlError),
    /// A write failed. A prefix of the call's commands was sent.
    Unsent,
}

/// The outcome of a call that sends nothing.
#[inline(always)]
pub(crate) fn quiet(returned: Result<Told, GlError>) -> Result<Told, Stop>
    ensures { result ≡ stopped returned }
{
    match returned {
        Ok(told) => Ok(told),
        Err(error) => Err(Stop::Raised(error)),
    }
}

/// What is answered to a call: the code of the error that it raised, or 0, and what it returned.
#[derive(Clone, Copy)]
pub(crate) struct Answer {
    /// The code of the error.
    pub raised: u32,
    /// What the call returned.
    pub told: Told,
}
