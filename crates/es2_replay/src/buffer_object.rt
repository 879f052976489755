ghost use Rattle.std.specs.Prelude.{◌≡◌, ◌+◌, ◌≤◌, Some, length};
ghost use Rattle.gl_model.specs.Buffers.{new_buffer, take_target, take_data, patch};
ghost use Rattle.es2_replay.specs.Named.{changed_by, Fits};

use crate::storage::Storage;
use gl_numbers::{BufferTarget, Usage};
use std::alloc::Global;
use std::marker::Model;

/// What a command changes of one buffer.
#[derive(Drop)]
pub enum Change<'a> {
    /// It takes a target, where it has none.
    Target(BufferTarget),
    /// It takes new bytes in place of its own, and the usage of a word.
    Data { usage: u32, bytes: Storage },
    /// Bytes are written over its own, from an offset on.
    Patch { offset: usize, bytes: &'a [u8] },
}

/// A buffer object with all its bytes (OpenGL ES 2.0 section 2.9).
#[derive(Drop)]
pub struct BufferObject {
    first_target: Option<BufferTarget>,
    usage: Usage,
    bytes: Storage,
}

impl Model for BufferObject {
    ghost use Rattle.gl_model.specs.Buffers.{Buffer};

    ghost Value = { Buffer };

    ghost view = { λ b. record { first_target = b.first_target; usage = b.usage; bytes = b.bytes } };
}

impl BufferObject {
    /// A buffer that was just made: no target, no bytes, STATIC_DRAW.
    pub fn new(alloc: Global) -> Self
        ensures { result ≡ new_buffer }
    {
        BufferObject {
            first_target: None,
            usage: Usage::StaticDraw,
            bytes: Storage::none(alloc),
        }
    }

    /// The target that it was first bound to.
    pub fn first_target(&self) -> Option<BufferTarget>
        ensures { result ≡ self.now.first_target }
    {
        self.first_target
    }

    /// How many bytes it has.
    #[inline(always)]
    pub fn size(&self) -> usize
        ensures { result ≡ length self.now.bytes }
    {
        self.bytes.len()
    }

    /// Takes a change.
    #[inline(always)]
    pub fn change(&mut self, change: Change<'_>)
        requires { Fits change self.old }
        ensures { self.new ≡ changed_by change.entry self.old }
    {
        match change {
            Change::Target(target) => self.take_target(target),
            Change::Data { usage, bytes } => self.take_data(usage, bytes),
            Change::Patch { offset, bytes } => self.patch(offset, bytes),
        }
    }

    /// Takes a target, where it has none.
    #[inline]
    fn take_target(&mut self, target: BufferTarget)
        ensures { self.new ≡ take_target (Some target) self.old }
    {
        self.first_target = self.first_target.or(Some(target));
    }

    /// Takes new bytes in place of its own, and the usage of a word.
    #[inline]
    fn take_data(&mut self, usage: u32, bytes: Storage)
        ensures { self.new ≡ take_data usage bytes self.old }
    {
        self.usage = Usage::from_u32(usage).unwrap_or(self.usage);
        self.bytes = bytes;
    }

    /// Writes bytes over its own, from an offset on.
    #[inline]
    fn patch(&mut self, offset: usize, part: &[u8])
        requires { offset + length part.now ≤ length self.old.bytes }
        ensures { self.new ≡ patch offset part.now self.old }
    {
        self.bytes.write(offset, part);
    }

    /// Whether these are its bytes.
    #[cfg(test)]
    pub fn holds(&self, bytes: &[u8]) -> bool {
        self.bytes.holds(bytes)
    }
}
