ghost use Rattle.std.specs.Prelude.{◌≡◌, ◌<◌, ◌≤◌, ◌↔◌, ◌-◌, ◌++◌, ◌∷◌, [], Some, None, true, false, length, IsTrue, IsSome, IfSome, IsSomeAnd, IfOk, OnOk, OnErr};
ghost use Rattle.std.specs.Option.{option_copied};
ghost use Rattle.gl_numbers.specs.ByHandle.{changed, object_at};
ghost use Rattle.gl_numbers.specs.Limits.{handles_max};
ghost use Rattle.object_names.specs.Objects.{Finds, IsHoldable, driver_name, held_once_less, held_once_more, marked, new_object, next_handle, no_names};

use crate::entry::{Entry, Find};
use gl_numbers::{HANDLES_MAX, Handle, Kind};
use std::alloc::Global;
use std::marker::Model;

/// Why no object can be made.
#[derive(Clone, Copy, Debug, PartialEq, Eq)]
pub enum Create {
    /// Out of memory.
    Memory,
    /// All 1,048,576 handles were given.
    Spent,
}

/// All objects that were given a handle, in order, and the kind for which `create` has room.
#[derive(Drop)]
pub struct Names {
    entries: Vec<Entry>,
    room: Option<Kind>,
}

impl Model for Names {
    ghost use Rattle.object_names.specs.Objects.{Given};

    ghost Value = { Given };

    ghost use Rattle.std.specs.Prelude.{length, vec_len};
    ghost use Rattle.std.specs.Vec.{vec_capacity};
    ghost use Rattle.object_names.specs.Room.{HasRoom};

    ghost view = { λ a. record { objects = a.entries.items; room = a.room } };

    ghost invariant = { λ a. HasRoom (length a.entries.items) (vec_len a.entries) (vec_capacity a.entries) a.room };
}

impl Names {
    /// No object. Takes no memory.
    #[inline]
    pub fn new(alloc: Global) -> Names
        ensures { result ≡ no_names }
    {
        Names {
            entries: Vec::new(alloc),
            room: None,
        }
    }

    /// Makes room for one more object of the kind, and returns the handle, 1 to 1,048,576, and the driver name
    /// that the next `create` gives it. `Spent` exactly where all handles were given, `Memory` only before that; nothing
    /// changes at an error.
    #[inline]
    pub fn room(&mut self, kind: Kind) -> Result<(Handle, u32), Create>
        ensures value { IfOk result (λ r. r ≡ (next_handle self.old, driver_name kind (next_handle self.old))) }
        ensures ok { OnOk result (self.new ≡ record self.old { room = Some kind }) }
        ensures spent { (result ≡ Err Create.Spent) ↔ (length self.old.objects ≡ handles_max) }
        ensures err { OnErr result (self.new ≡ self.old) }
    {
        let given = self.entries.as_slice().len();
        if given == HANDLES_MAX as usize {
            return Err(Create::Spent);
        }
        let Ok(()) = self.entries.reserve(1) else {
            return Err(Create::Memory);
        };
        self.room = Some(kind);
        let h = given as u32 + 1;
        Ok((h, driver_name_of(kind, h)))
    }

    /// Gives the next handle to a new object of the kind, for which `room` was made by the last call that changed
    /// the names. Takes no memory.
    #[inline]
    pub fn create(&mut self, kind: Kind) -> Handle
        requires { self.old.room ≡ Some kind }
        ensures value { result ≡ next_handle self.old }
        ensures within { result ≤ handles_max }
        ensures after { self.new ≡ record { objects = self.old.objects ++ new_object kind ∷ []; room = None } }
    {
        let Ok(()) = self.entries.push(Entry::new(kind)) else {
            unreachable!()
        };
        self.room = None;
        self.entries.as_slice().len() as u32
    }

    /// What the handle names, for a call that wants an object of the kind.
    #[inline]
    pub fn find(&self, h: Handle, kind: Kind) -> Find
        ensures { Finds self.now.objects h kind result }
    {
        if h == 0 {
            return Find::Null;
        }
        match self.entry(h) {
            Some(entry) if entry.kind() == kind => entry.state(),
            _ => Find::Stranger,
        }
    }

    /// Marks a live object as deleted (OpenGL ES 2.0 appendix C). True exactly where nothing holds it: then it
    /// is gone and its driver name is free.
    #[inline]
    pub fn delete(&mut self, h: Handle) -> bool
        requires { IsSomeAnd (object_at self.old.objects h) (λ o. o.marked ≡ false) }
        ensures value { IfSome (object_at self.old.objects h) (λ o. IsTrue result ↔ (o.holds ≡ 0)) }
        ensures after { self.new ≡ record { objects = changed self.old.objects h marked; room = None } }
    {
        self.room = None;
        let i = place(&self.entries, h);
        let entry = &mut self.entries[i];
        entry.mark()
    }

    /// Holds an object that isn't gone once more, of at most 4,294,967,295 times.
    pub fn hold(&mut self, h: Handle)
        requires { IsSomeAnd (object_at self.old.objects h) IsHoldable }
        ensures { self.new ≡ record { objects = changed self.old.objects h held_once_more; room = None } }
    {
        self.room = None;
        let i = place(&self.entries, h);
        let entry = &mut self.entries[i];
        entry.hold();
    }

    /// Takes one hold of the object back. True exactly where it is marked and this was the last one, and then it is
    /// gone and its driver name is free.
    pub fn release(&mut self, h: Handle) -> bool
        requires { IsSomeAnd (object_at self.old.objects h) (λ o. 0 < o.holds) }
        ensures value { IfSome (object_at self.old.objects h) (λ o. IsTrue result ↔ ((o.marked ≡ true) × (o.holds ≡ 1))) }
        ensures after { self.new ≡ record { objects = changed self.old.objects h held_once_less; room = None } }
    {
        self.room = None;
        let i = place(&self.entries, h);
        let entry = &mut self.entries[i];
        entry.release()
    }

    /// Whether the handle, whatever it is, names a live object of the kind (WebGL 1.0 section 5.14.5, isBuffer).
    #[inline]
    pub fn is_kind(&self, h: Handle, kind: Kind) -> bool
        ensures { IsTrue result ↔ Finds self.now.objects h kind Find.Live }
    {
        matches!(self.find(h, kind), Find::Live)
    }

    /// The driver name of an object that was given: its handle plus 2, and 0 for a shader or a program.
    #[inline]
    pub fn driver(&self, h: Handle) -> u32
        requires { IsSome (object_at self.now.objects h) }
        ensures { IfSome (object_at self.now.objects h) (λ o. result ≡ driver_name o.kind h) }
    {
        let i = place(&self.entries, h);
        driver_name_of(self.entries[i].kind(), h)
    }

    /// The object of this handle.
    #[inline]
    fn entry(&self, h: Handle) -> Option<&Entry>
        ensures { option_copied result ≡ object_at self.now.objects h }
    {
        if h == 0 {
            return None;
        }
        self.entries.as_slice().get(h as usize - 1)
    }
}

/// Where the object of a handle that was given stands.
#[inline]
fn place(entries: &[Entry], h: Handle) -> usize
    requires { IsSome (object_at entries.now h) }
    ensures value { result ≡ h - 1 }
    ensures within { result < length entries.now }
{
    h as usize - 1
}

/// The name that the driver knows an object by; none is made yet for a shader or a program.
#[inline]
fn driver_name_of(kind: Kind, h: Handle) -> u32
    requires { h ≤ handles_max }
    ensures { result ≡ driver_name kind h }
{
    match kind {
        Kind::Buffer | Kind::Texture | Kind::Renderbuffer | Kind::Framebuffer => h + 2,
        Kind::Shader | Kind::Program => 0,
    }
}
