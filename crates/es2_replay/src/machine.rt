ghost use Rattle.std.specs.Prelude.{◌≡◌, ◌+◌, ◌<◌, ◌^◌, None, is_some, OnOk, OnErr};
ghost use Rattle.gl_model.specs.DriverState.{first_driver};
ghost use Rattle.gl_model.specs.DriverStep.{refusal};
ghost use Rattle.es2_replay.specs.Named.{named};
ghost use Rattle.es2_replay.specs.Kept.{state_of};
ghost use Rattle.es2_replay.specs.Applied.{Acts, Applies};

use crate::by_name::ByName;
use crate::faults::{Fault, Shot};
use command_stream::Command;
use gl_numbers::{BufferBindings, GlError, Memory};
use std::alloc::Global;
use std::marker::Model;

/// The driver's machine: the buffers that are made, by name, what is bound, and how many commands were applied.
#[derive(Drop)]
pub struct Machine {
    pub(crate) alloc: Global,
    pub(crate) buffers: ByName,
    pub(crate) bound: BufferBindings,
    count: u64,
}

impl Model for Machine {
    ghost use Rattle.es2_replay.specs.Kept.{Kept};

    ghost Value = { Kept };

    ghost view = { λ m. record { made = m.buffers; bound = m.bound; count = m.count } };
}

impl Machine {
    /// The driver at the start: no object is made, nothing is bound.
    pub fn new(alloc: Global) -> Self
        ensures state { state_of result ≡ first_driver }
        ensures count { result.count ≡ 0 }
    {
        Machine {
            alloc,
            buffers: ByName::new(alloc),
            bound: BufferBindings::new(),
            count: 0,
        }
    }

    /// How many commands were applied without a fault.
    pub fn count(&self) -> u64
        ensures { result ≡ self.now.count }
    {
        self.count
    }

    /// Whether a buffer of this name is made.
    pub(crate) fn is_made(&self, name: u32) -> bool
        ensures { result ≡ is_some (named self.now.made name) }
    {
        self.buffers.get(name).is_some()
    }

    /// Why a command is refused, if it is: the error of its first rule that applies.
    fn refusal(&self, c: &Command<'_>) -> Option<GlError>
        ensures { result ≡ refusal (state_of self.now) c.now }
    {
        match c {
            Command::Object(command) => self.object_refusal(command),
            Command::Buffer(command) => self.buffer_refusal(command),
        }
    }

    /// What a command does that nothing refuses. Err only where memory runs out, and then nothing changes.
    fn act(&mut self, c: &Command<'_>) -> Result<(), Memory>
        requires { refusal (state_of self.old) c.now ≡ None }
        ensures acts { Acts (state_of self.old) c.now (state_of self.new) result }
        ensures unchanged { OnErr result (self.new ≡ self.old) }
        ensures count { self.new.count ≡ self.old.count }
    {
        match c {
            Command::Object(command) => self.act_on_object(command),
            Command::Buffer(command) => self.act_on_buffer(command),
        }
    }

    /// Applies a command: judges it, and then acts on it. At Ok the driver's state is that of its step, and the value is
    /// the kind of what was made, if anything was. `Gl` and `Outside` come exactly where the step has that fault, and
    /// `Memory` in MakeBuffer and BufferSize alone; at each of them nothing changes. Fewer than 2^62 commands were applied.
    pub fn apply(&mut self, c: &Command<'_>) -> Result<Option<Shot>, Fault>
        requires { self.old.count < 2 ^ 62 }
        ensures step { Applies (state_of self.old) c.now (state_of self.new) result }
        ensures unchanged { OnErr result (self.new ≡ self.old) }
        ensures count { OnOk result (self.new.count ≡ self.old.count + 1) }
    {
        if let Some(error) = self.refusal(c) {
            return Err(Fault::Gl(error.code()));
        }
        let Ok(()) = self.act(c) else {
            return Err(Fault::Memory);
        };
        self.count += 1;
        Ok(None)
    }
}

#[cfg(test)]
mod tests;
