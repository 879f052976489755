ghost use Rattle.std.specs.Prelude.{◌≡◌, ◌++◌, ◌-◌, [], ◌∷◌, OnOk, length, take};
ghost use Rattle.std.specs.List.{list_any};
ghost use Rattle.std.specs.Str.{bytes_eq};
ghost use Rattle.glsl_preproc.specs.NamePlaces.{index_of};
ghost use Rattle.glsl_preproc.specs.Views.{texts};

use std::alloc::{AllocError, Global};
use std::collections::BTreeMap;
use std::marker::Model;

/// Names in order, as the parameters of a macro or the names that are hidden in a replacement. A name is found by one
/// look, in steps by the logarithm of the count of names.
#[derive(Drop)]
pub struct Names {
    /// The names.
    names: Vec<Vec<u8>>,
    /// The first place of each.
    places: BTreeMap<Vec<u8>, usize>,
}

impl Model for Names {
    ghost use Rattle.std.specs.Prelude.{ℕ, List, map};
    ghost use Rattle.glsl_preproc.specs.NamePlaces.{place_of, IsPlaced};

    ghost Value = { List (List ℕ) };

    ghost view = { λ n. map (λ v. v.items) n.names.items };

    ghost invariant = { λ n. IsPlaced (map (λ v. v.items) n.names.items) (place_of n.places) };
}

#[tactic(auto)]
impl Names {
    /// No name at all.
    pub fn new(alloc: Global) -> Self
        ensures { result ≡ [] }
    {
        Names {
            names: Vec::new(alloc),
            places: BTreeMap::new(alloc),
        }
    }

    /// The names, in order.
    pub fn as_slice(&self) -> &[Vec<u8>]
        ensures { texts result.now ≡ self.now }
    {
        self.names.as_slice()
    }

    /// The first place of a name.
    pub fn place(&self, name: &[u8]) -> Option<usize>
        ensures { result ≡ index_of self.now name.now }
    {
        match self.places.get(name) {
            None => None,
            Some(place) => Some(*place),
        }
    }

    /// Whether a name is among them.
    pub fn contains(&self, name: &[u8]) -> bool
        ensures { result ≡ list_any (λ n. bytes_eq n name.now) self.now }
    {
        self.place(name).is_some()
    }

    /// Adds a name behind the others.
    pub fn push(&mut self, alloc: Global, name: &[u8]) -> Result<(), AllocError>
        ensures { OnOk result (self.new ≡ self.old ++ name.now ∷ []) }
    {
        let copy = Vec::from_slice(alloc, name)?;
        if self.contains(name) {
            self.names.push(copy)?;
            return Ok(());
        }
        let key = Vec::from_slice(alloc, name)?;
        let place = self.names.len();
        self.names.push(copy)?;
        match self.places.insert(key, place) {
            Ok(_) => Ok(()),
            Err(_) => {
                let _ = self.names.pop();
                Err(AllocError)
            }
        }
    }

    /// Takes the last name away, if there is one.
    pub fn pop(&mut self)
        ensures { self.new ≡ take (length self.old - 1) self.old }
    {
        let Some(name) = self.names.pop() else {
            return;
        };
        let place = self.names.len();
        let Some(first) = self.places.get(name.as_slice()) else {
            return;
        };
        if *first != place {
            return;
        }
        let _place = self.places.remove(name.as_slice());
    }
}
