ghost use Rattle.std.specs.Prelude.{◌≡◌, ◌<◌, ◌↔◌, true, IsTrue};
ghost use Rattle.object_names.specs.Objects.{IsOfState, held_once_more, held_once_less, marked, new_object};

use gl_numbers::Kind;
use std::marker::Model;

/// What a handle names, for a call that wants an object of one kind.
#[derive(Clone, Copy, Debug, PartialEq, Eq)]
pub enum Find {
    /// The handle is 0.
    Null,
    /// No object of the kind was ever given this handle.
    Stranger,
    /// The object was deleted, and nothing holds it.
    Gone,
    /// The object was deleted, and something holds it still.
    Marked,
    /// The object wasn't deleted.
    Live,
}

/// One object that was given.
#[derive(Drop)]
pub(crate) struct Entry {
    kind: Kind,
    marked: bool,
    holds: u32,
}

impl Model for Entry {
    ghost use Rattle.object_names.specs.Objects.{Object};

    ghost Value = { Object };

    ghost view = { λ a. record { kind = a.kind; marked = a.marked; holds = a.holds } };
}

impl Entry {
    /// An object that was just made.
    #[inline]
    pub(crate) fn new(kind: Kind) -> Entry
        ensures { result ≡ new_object kind }
    {
        Entry {
            kind,
            marked: false,
            holds: 0,
        }
    }

    /// Its kind.
    #[inline]
    pub(crate) fn kind(&self) -> Kind
        ensures { result ≡ self.now.kind }
    {
        self.kind
    }

    /// Whether it is there: Live, Marked or Gone.
    #[inline]
    pub(crate) fn state(&self) -> Find
        ensures { IsOfState result self.now }
    {
        match (self.marked, self.holds) {
            (false, _) => Find::Live,
            (true, 0) => Find::Gone,
            (true, _) => Find::Marked,
        }
    }

    /// Marks it as deleted, and returns whether nothing holds it.
    #[inline]
    pub(crate) fn mark(&mut self) -> bool
        ensures value { IsTrue result ↔ (self.old.holds ≡ 0) }
        ensures after { self.new ≡ marked self.old }
    {
        self.marked = true;
        self.holds == 0
    }

    /// Holds it once more.
    pub(crate) fn hold(&mut self)
        requires { self.old.holds < 4294967295 }
        ensures { self.new ≡ held_once_more self.old }
    {
        self.holds += 1;
    }

    /// Holds it once less, and returns whether it is gone by that.
    pub(crate) fn release(&mut self) -> bool
        requires { 0 < self.old.holds }
        ensures value { IsTrue result ↔ ((self.old.marked ≡ true) × (self.old.holds ≡ 1)) }
        ensures after { self.new ≡ held_once_less self.old }
    {
        self.holds -= 1;
        self.marked && self.holds == 0
    }
}
