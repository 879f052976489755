use crate::names::Names;
use glsl_tree::Item;

/// The number of entries: a shader of at most 131,072 tokens declares no more names, and 0 is the number of built-in names.
pub(crate) const ENTRIES: usize = 131_073;

/// What the declared names are, by their numbers, while the table is filled.
#[derive(Drop)]
pub(crate) struct Table<'a> {
    /// The declarations and functions of the shader.
    pub items: &'a [Item],
    /// The entries, as in `Names`.
    pub entries: [u32; ENTRIES],
    /// The number of the next name.
    pub next: usize,
}

impl Table<'_> {
    ghost use Rattle.std.specs.Prelude.{◌≡◌, ◌+◌, ◌<◌, ◌≤◌, ◌++◌, ◌∷◌, [], take};
    ghost use Rattle.appendix_a.specs.Numbered.{names_in};
    ghost use Rattle.appendix_a.specs.Table.{of_entry};

    /// Adds a name with this entry.
    pub(crate) fn push(&mut self, entry: u32)
        requires { self.old.next < 131073 }
        ensures names { names_in self.new ≡ names_in self.old ++ (of_entry self.old.items.now entry ∷ []) }
        ensures next { self.new.next ≡ self.old.next + 1 }
        ensures items { self.new.items.now ≡ self.old.items.now }
    {
        self.entries[self.next] = entry;
        self.next += 1;
    }
    /// What the declared names are.
    pub(crate) fn names(&self) -> Names<'_>
        requires { self.now.next ≤ 131073 }
        ensures items { result.items.now ≡ self.now.items.now }
        ensures entries { result.entries.now ≡ take self.now.next self.now.entries }
    {
        Names {
            items: self.items,
            entries: &self.entries[..self.next],
        }
    }
}
