ghost use Rattle.std.specs.Prelude.{◌≡◌, ◌==◌, []};
ghost use Rattle.std.specs.List.{list_any};
ghost use Rattle.appendix_a.specs.Loops.{has, indices};

/// The indices of the loops around a place, by their numbers.
#[derive(Clone, Copy)]
pub(crate) enum Loops<'a> {
    /// There is no loop.
    Nowhere,
    /// A loop, and those around it.
    Within {
        /// The number of its index.
        index: u32,
        /// Those around it.
        outer: &'a Loops<'a>,
    },
}

impl Loops<'_> {
    /// Whether a variable is one of the indices.
    pub(crate) fn has(&self, variable: Option<u32>) -> bool
        ensures { result ≡ has (indices self.now) variable }
    {
        match variable {
            Some(number) => self.has_number(number),
            None => false,
        }
    }

    /// Whether a number is that of one of the indices.
    #[tactic(auto, unfolding(crate::specs::Loops::indices))]
    fn has_number(&self, number: u32) -> bool
        ensures { result ≡ list_any (λ index. index == number) (indices self.now) }
    {
        match self {
            Loops::Nowhere => false,
            Loops::Within { index, outer } => *index == number || outer.has_number(number),
        }
    }
}

/// Where there is no loop.
#[tactic(auto, unfolding(crate::specs::Loops::indices))]
pub(crate) fn no_loops<'a>() -> Loops<'a>
    ensures { indices result ≡ [] }
{
    Loops::Nowhere
}
