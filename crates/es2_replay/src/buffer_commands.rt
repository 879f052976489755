ghost use Rattle.std.specs.Prelude.{◌≡◌, None, OnOk, OnErr};
ghost use Rattle.std.specs.Option.{option_and_then, option_copied};
ghost use Rattle.command_stream.specs.declared.command.Command.TheVariants.{Buffer};
ghost use Rattle.command_stream.specs.declared.buffer_commands.BufferCommand.TheVariants.{BindBuffer, BufferSize, BufferBytes};
ghost use Rattle.gl_numbers.specs.BufferBindings.{bound_to, non_zero};
ghost use Rattle.gl_model.specs.DriverStep.{refusal, effect};
ghost use Rattle.es2_replay.specs.Named.{named};
ghost use Rattle.es2_replay.specs.Kept.{state_of};
ghost use Rattle.es2_replay.specs.Applied.{Acts};

use crate::buffer_object::{BufferObject, Change};
use crate::machine::Machine;
use crate::storage::Storage;
use command_stream::BufferCommand;
use gl_numbers::{BUFFER_BYTES_MAX, BufferTarget, GlError, Memory, Usage};

impl Machine {
    /// Why a command on a buffer is refused, if it is.
    pub(crate) fn buffer_refusal(&self, c: &BufferCommand<'_>) -> Option<GlError>
        ensures { result ≡ refusal (state_of self.now) (Buffer c.now) }
    {
        match c {
            BufferCommand::BindBuffer { target, name } => self.bind_refusal(*target, *name),
            BufferCommand::BufferSize {
                target,
                usage,
                size,
            } => self.size_refusal(*target, *usage, *size),
            BufferCommand::BufferBytes {
                target,
                offset,
                bytes,
            } => self.bytes_refusal(*target, *offset, bytes),
        }
    }

    /// What a command on a buffer does that nothing refuses. Err only where memory runs out, and then nothing changes.
    pub(crate) fn act_on_buffer(&mut self, c: &BufferCommand<'_>) -> Result<(), Memory>
        requires { refusal (state_of self.old) (Buffer c.now) ≡ None }
        ensures acts { Acts (state_of self.old) (Buffer c.now) (state_of self.new) result }
        ensures unchanged { OnErr result (self.new ≡ self.old) }
        ensures count { self.new.count ≡ self.old.count }
    {
        match c {
            BufferCommand::BindBuffer { target, name } => {
                self.bind_buffer(*target, *name);
                Ok(())
            }
            BufferCommand::BufferSize {
                target,
                usage,
                size,
            } => self.buffer_size(*target, *usage, *size),
            BufferCommand::BufferBytes {
                target,
                offset,
                bytes,
            } => {
                self.buffer_bytes(*target, *offset, bytes);
                Ok(())
            }
        }
    }

    /// The name that is bound to the target of a word.
    fn bound_to(&self, target: u32) -> Option<u32>
        ensures { result ≡ bound_to self.now.bound target }
    {
        self.bound.get(BufferTarget::from_u32(target)?)
    }

    /// The buffer that is bound to the target of a word.
    fn bound_buffer(&self, target: u32) -> Option<&BufferObject>
        ensures { option_copied result ≡ option_and_then (named self.now.made) (bound_to self.now.bound target) }
    {
        self.buffers.get(self.bound_to(target)?)
    }

    /// Why BindBuffer is refused, if it is.
    fn bind_refusal(&self, target: u32, name: u32) -> Option<GlError>
        ensures { result ≡ refusal (state_of self.now) (Buffer (BindBuffer target name)) }
    {
        let Some(wanted) = BufferTarget::from_u32(target) else {
            return Some(GlError::Enum);
        };
        let Some(buffer) = self.buffers.get(name) else {
            // No buffer of this name is made, and 0 unbinds.
            return if name != 0 {
                Some(GlError::Operation)
            } else {
                None
            };
        };
        match buffer.first_target() {
            Some(first) if first != wanted => Some(GlError::Operation),
            _ => None,
        }
    }

    /// Why BufferSize is refused, if it is.
    fn size_refusal(&self, target: u32, usage: u32, size: u32) -> Option<GlError>
        ensures { result ≡ refusal (state_of self.now) (Buffer (BufferSize target usage size)) }
    {
        if BufferTarget::from_u32(target).is_none() || Usage::from_u32(usage).is_none() {
            return Some(GlError::Enum);
        }
        if size > BUFFER_BYTES_MAX {
            return Some(GlError::Value);
        }
        if self.bound_buffer(target).is_none() {
            return Some(GlError::Operation);
        }
        None
    }

    /// Why BufferBytes is refused, if it is.
    fn bytes_refusal(&self, target: u32, offset: u32, bytes: &[u8]) -> Option<GlError>
        ensures { result ≡ refusal (state_of self.now) (Buffer (BufferBytes target offset bytes.entry)) }
    {
        if BufferTarget::from_u32(target).is_none() {
            return Some(GlError::Enum);
        }
        let Some(buffer) = self.bound_buffer(target) else {
            return Some(GlError::Operation);
        };
        if offset as usize + bytes.len() > buffer.size() {
            return Some(GlError::Value);
        }
        None
    }

    /// BindBuffer of a name that is made, or of 0.
    fn bind_buffer(&mut self, target: u32, name: u32)
        ensures state { state_of self.new ≡ effect (state_of self.old) (Buffer (BindBuffer target name)) }
        ensures count { self.new.count ≡ self.old.count }
    {
        let Some(wanted) = BufferTarget::from_u32(target) else {
            return;
        };
        self.bound.set(wanted, non_zero(name));
        self.buffers.change(name, Change::Target(wanted));
    }

    /// BufferSize of a buffer that is bound; its zeros are taken before anything changes.
    fn buffer_size(&mut self, target: u32, usage: u32, size: u32) -> Result<(), Memory>
        ensures state { OnOk result (state_of self.new ≡ effect (state_of self.old) (Buffer (BufferSize target usage size))) }
        ensures unchanged { OnErr result (self.new ≡ self.old) }
        ensures count { self.new.count ≡ self.old.count }
    {
        let Ok(zeros) = Storage::zeros(self.alloc, size as usize) else {
            return Err(Memory);
        };
        let Some(name) = self.bound_to(target) else {
            return Ok(());
        };
        let data = Change::Data {
            usage,
            bytes: zeros,
        };
        self.buffers.change(name, data);
        Ok(())
    }

    /// BufferBytes that lie inside the buffer that is bound.
    fn buffer_bytes(&mut self, target: u32, offset: u32, bytes: &[u8])
        requires { refusal (state_of self.old) (Buffer (BufferBytes target offset bytes)) ≡ None }
        ensures state { state_of self.new ≡ effect (state_of self.old) (Buffer (BufferBytes target offset bytes.entry)) }
        ensures count { self.new.count ≡ self.old.count }
    {
        let Some(name) = self.bound_to(target) else {
            return;
        };
        let patch = Change::Patch {
            offset: offset as usize,
            bytes,
        };
        self.buffers.change(name, patch);
    }
}

/// A name, where 0 is none.
fn non_zero(name: u32) -> Option<u32>
    ensures { result ≡ non_zero name }
{
    if name == 0 { None } else { Some(name) }
}
