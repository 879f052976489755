ghost use Rattle.std.specs.Prelude.{◌≡◌, OnOk, OnErr};
ghost use Rattle.std.specs.FinMap.{empty, get, insert};

use gl_numbers::{Memory, Name};
use std::alloc::Global;
use std::collections::BTreeMap;
use std::marker::Model;

/// The locations that a page bound to names of attributes (bindAttribLocation, OpenGL ES 2.0 section 2.10.4), seen as a finite
/// map by name.
#[derive(Drop)]
pub struct Bindings {
    by_name: BTreeMap<Vec<u8>, u32>,
    alloc: Global,
}

impl Model for Bindings {
    ghost use Rattle.std.specs.Coded.{coded_list, coded_ℕ};
    ghost use Rattle.std.specs.FinMap.{code, from_entries};
    ghost use Rattle.std.specs.Ordering.{nat_cmp};
    ghost use Rattle.std.specs.Cmp.Lexicographic.{slice_cmp};
    ghost use Rattle.program_link.specs.Locations.{Bound, by_bytes};

    ghost Value = { Bound };

    ghost coded = { code {R = slice_cmp nat_cmp} (coded_list coded_ℕ) coded_ℕ };

    ghost view = { λ b. from_entries (by_bytes b.by_name.entries) };
}

#[tactic(auto, using(crate::proofs::BoundNames::of_bound))]
impl Bindings {
    /// No name has a location. Takes no memory.
    pub fn new(alloc: Global) -> Bindings
        ensures { result ≡ empty }
    {
        Bindings {
            by_name: BTreeMap::new(alloc),
            alloc,
        }
    }

    /// Binds a location to a name, in the place of the one that it had. Err only where memory runs out, and then nothing
    /// changes.
    pub fn set(&mut self, name: Name, index: u32) -> Result<(), Memory>
        ensures ok { OnOk result (self.new ≡ insert self.old name index) }
        ensures err { OnErr result (self.new ≡ self.old) }
    {
        let Ok(key) = Vec::from_slice(self.alloc, name.as_slice()) else {
            return Err(Memory);
        };
        match self.by_name.insert(key, index) {
            Ok(_) => Ok(()),
            Err(_) => Err(Memory),
        }
    }

    /// The location that is bound to a name.
    pub(crate) fn get(&self, name: &[u8]) -> Option<u32>
        ensures { result ≡ get self.now name.now }
    {
        self.by_name.get(name).copied()
    }
}
