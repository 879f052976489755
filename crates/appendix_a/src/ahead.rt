ghost use Rattle.std.specs.Prelude.{◌≡◌};
ghost use Rattle.appendix_a.specs.Ahead.{ahead_of, facts_ahead, is_constant, known_next, place_next, past_known, past_place};

use glsl_types::{Facts, Known};

/// The facts of what comes next in the source.
#[derive(Clone, Copy)]
pub(crate) struct Ahead<'a> {
    /// The numbers of names.
    pub places: &'a [u32],
    /// What is known of expressions.
    pub exprs: &'a [Known],
}

impl Ahead<'_> {
    /// The number of the next name; 0 where there is none.
    pub(crate) fn place(&mut self) -> u32
        ensures place { result ≡ place_next (ahead_of self.old) }
        ensures past { ahead_of self.new ≡ past_place (ahead_of self.old) }
    {
        match self.places {
            [first, rest @ ..] => {
                self.places = rest;
                *first
            }
            [] => 0,
        }
    }

    /// Whether the next expression is constant.
    pub(crate) fn constant(&mut self) -> bool
        ensures constant { result ≡ is_constant (known_next (ahead_of self.old)) }
        ensures past { ahead_of self.new ≡ past_known (ahead_of self.old) }
    {
        match self.exprs {
            [first, rest @ ..] => {
                self.exprs = rest;
                !first.constant.as_slice().is_empty()
            }
            [] => false,
        }
    }
}

/// The facts of a shader from its beginning.
pub(crate) fn ahead_in(facts: &Facts) -> Ahead<'_>
    ensures { ahead_of result ≡ facts_ahead facts.now }
{
    Ahead {
        places: facts.places.as_slice(),
        exprs: facts.exprs.as_slice(),
    }
}
