ghost use Rattle.std.specs.Prelude.{◌≡◌, None, OnOk, OnErr};
ghost use Rattle.command_stream.specs.declared.command.Command.TheVariants.{Object};
ghost use Rattle.command_stream.specs.declared.object_commands.ObjectCommand.TheVariants.{MakeBuffer, DropBuffer};
ghost use Rattle.gl_model.specs.DriverStep.{refusal, effect};
ghost use Rattle.es2_replay.specs.Named.{named};
ghost use Rattle.es2_replay.specs.Kept.{state_of};
ghost use Rattle.es2_replay.specs.Applied.{Acts};

use crate::buffer_object::BufferObject;
use crate::machine::Machine;
use command_stream::ObjectCommand;
use gl_numbers::{GlError, Memory};

/// The names that `run` gives to the objects of a session are below this.
const LISTED: u32 = 1_048_579;

/// Names that may be given before as many commands were applied: the first names, and those of objects that no command
/// makes.
const AHEAD: u32 = 1024;

impl Machine {
    /// Why a command that makes or drops an object is refused, if it is: a name is made once, and dropped while it is made.
    pub(crate) fn object_refusal(&self, c: &ObjectCommand) -> Option<GlError>
        ensures { result ≡ refusal (state_of self.now) (Object c.now) }
    {
        let refused = match *c {
            ObjectCommand::MakeBuffer(name) => name == 0 || self.is_made(name),
            ObjectCommand::DropBuffer(name) => !self.is_made(name),
        };
        if refused {
            return Some(GlError::Operation);
        }
        None
    }

    /// What a command does that makes or drops an object, and that nothing refuses. Err only where memory runs out, and
    /// then nothing changes.
    pub(crate) fn act_on_object(&mut self, c: &ObjectCommand) -> Result<(), Memory>
        requires { refusal (state_of self.old) (Object c.now) ≡ None }
        ensures acts { Acts (state_of self.old) (Object c.now) (state_of self.new) result }
        ensures unchanged { OnErr result (self.new ≡ self.old) }
        ensures count { self.new.count ≡ self.old.count }
    {
        match *c {
            ObjectCommand::MakeBuffer(name) => self.make_buffer(name),
            ObjectCommand::DropBuffer(name) => {
                self.drop_buffer(name);
                Ok(())
            }
        }
    }

    /// MakeBuffer of a name that isn't made.
    fn make_buffer(&mut self, name: u32) -> Result<(), Memory>
        requires { named self.old.made name ≡ None }
        ensures state { OnOk result (state_of self.new ≡ effect (state_of self.old) (Object (MakeBuffer name))) }
        ensures unchanged { OnErr result (self.new ≡ self.old) }
        ensures count { self.new.count ≡ self.old.count }
    {
        let in_slot = self.has_room_for(name);
        let buffer = BufferObject::new(self.alloc);
        let Ok(()) = self.buffers.insert(name, in_slot, buffer) else {
            return Err(Memory);
        };
        Ok(())
    }

    /// Whether the list of slots is to take a name. A stream names objects one after another, so that the list has a slot
    /// for each command that was applied, and no stream makes it long by a few large names.
    fn has_room_for(&self, name: u32) -> bool {
        name < LISTED && u64::from(name.saturating_sub(AHEAD)) <= self.count()
    }

    /// DropBuffer: the name is made no longer, and bound no longer.
    fn drop_buffer(&mut self, name: u32)
        ensures state { state_of self.new ≡ effect (state_of self.old) (Object (DropBuffer name)) }
        ensures count { self.new.count ≡ self.old.count }
    {
        self.buffers.remove(name);
        self.bound.unbind(name);
    }
}
