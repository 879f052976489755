use crate::parameters::item_gives_back;
use glsl_tree::Item;

/// What the declared names of a shader are, by their numbers.
#[derive(Clone, Copy)]
pub(crate) struct Names<'a> {
    /// The declarations and functions of the shader.
    pub items: &'a [Item],
    /// For each number 0 for what the limits do not ask for, 1 for a structure, 2 for a uniform that has no sampler, and
    /// n + 3 for the function that item n declares.
    pub entries: &'a [u32],
}

impl Names<'_> {
    ghost use Rattle.std.specs.Prelude.{◌≡◌, drop, slice_index_or};
    ghost use Rattle.appendix_a.specs.Table.{named_in};
    ghost use Rattle.appendix_a.specs.Expressions as spec;

    /// The entry of a number.
    fn entry(&self, number: u32) -> u32
        ensures { result ≡ slice_index_or self.now.entries.now number 0 }
    {
        match self.entries.get(number as usize) {
            Some(entry) => *entry,
            None => 0,
        }
    }

    /// Whether a number is a structure's.
    pub(crate) fn is_structure(&self, number: u32) -> bool
        ensures { result ≡ spec.is_structure (named_in self.now number) }
    {
        self.entry(number) == 1
    }

    /// Whether a number is that of a uniform that has no sampler.
    pub(crate) fn is_uniform(&self, number: u32) -> bool
        ensures { result ≡ spec.is_uniform (named_in self.now number) }
    {
        self.entry(number) == 2
    }

    /// Whether the parameter at a place of the function of this number gives a value back.
    pub(crate) fn gives_back(&self, number: u32, place: usize) -> bool
        ensures { result ≡ spec.first_gives_back (drop place (spec.parameters_of (named_in self.now number))) }
    {
        let entry = self.entry(number);
        if entry < 3 {
            return false;
        }
        match self.items.get(entry as usize - 3) {
            Some(item) => item_gives_back(item, place),
            None => false,
        }
    }
}
