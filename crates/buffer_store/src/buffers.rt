ghost use Rattle.std.specs.Prelude.{◌≡◌, ◌≤◌, false, IsNone, IsSome, IfSome, OnOk, OnErr};
ghost use Rattle.std.specs.Option.{ForSome};
ghost use Rattle.std.specs.FinMap.{get, insert};
ghost use Rattle.step_count.specs.Content.{content as lent};
ghost use Rattle.gl_numbers.specs.declared.buffer_words.BufferTarget.TheVariants.{ElementArray};
ghost use Rattle.gl_numbers.specs.BufferWords.{usage_word};
ghost use Rattle.gl_numbers.specs.BufferBindings.{binding};
ghost use Rattle.gl_numbers.specs.BufferRules.{is_negative, whole};
ghost use Rattle.gl_numbers.specs.Limits.{buffer_bytes_max};
ghost use Rattle.gl_numbers.specs.Refusals.{Judged};
ghost use Rattle.buffer_store.specs.StoredBuffer.{IsSound, new_stored};
ghost use Rattle.buffer_store.specs.Content.{HasShortBytes};
ghost use Rattle.buffer_store.specs.Stored.{IsBoundFirst, IsOf, nothing_stored};
ghost use Rattle.buffer_store.specs.Rules.{JudgedOrRunsOut, bind_rules, bound_to_target, data_rules, filled, patched, sub_data_rules, without_buffer};

use crate::Content;
use crate::by_handle::ByHandle;
use crate::held::Held;
use gl_numbers::{BufferBindings, BufferTarget, GlError, Handle, Memory, Usage};
use std::alloc::Global;
use std::marker::Model;
use step_count::Bytes;

/// The buffers that a page made and what is bound, seen as the plain record `Stored`.
#[derive(Drop)]
pub struct Buffers {
    buffers: ByHandle,
    bound: BufferBindings,
    alloc: Global,
}

impl Model for Buffers {
    ghost use Rattle.buffer_store.specs.Stored.{Stored, AreBoundFirst};
    ghost use Rattle.buffer_store.specs.Codes.{stored_code};

    ghost Value = { Stored };

    ghost coded = { stored_code };

    ghost view = { λ a. record { buffers = a.buffers; bound = a.bound } };

    ghost invariant = { λ a. AreBoundFirst a.buffers a.bound };
}

impl Buffers {
    /// No buffer, and nothing bound. Takes no memory.
    #[inline]
    pub fn new(alloc: Global) -> Buffers
        ensures { result ≡ nothing_stored }
    {
        Buffers {
            buffers: ByHandle::new(alloc),
            bound: BufferBindings::new(),
            alloc,
        }
    }

    /// Adds the new buffer `h`, which isn't there yet: no bytes, usage STATIC_DRAW, bound to nothing. Err only
    /// where memory runs out, and then nothing changes.
    #[inline]
    pub fn add(&mut self, h: Handle) -> Result<(), Memory>
        requires { IsNone (get self.old.buffers h) }
        ensures ok { OnOk result (self.new ≡ record self.old { buffers = insert self.old.buffers h new_stored }) }
        ensures err { OnErr result (self.new ≡ self.old) }
    {
        self.buffers.add(h, Held::new())
    }

    /// Binds a buffer that is there, or none, to the target (OpenGL ES 2.0 section 2.9). Operation where the
    /// buffer was bound to the other target before (WebGL 1.0 section 6.1), and then nothing changes.
    #[inline]
    pub fn bind(&mut self, target: BufferTarget, h: Option<Handle>) -> Result<(), GlError>
        requires { ForSome h (λ q. IsSome (get self.old.buffers q)) }
        ensures judged { Judged (bind_rules self.old target h) result }
        ensures ok { OnOk result (self.new ≡ bound_to_target self.old target h) }
        ensures err { OnErr result (self.new ≡ self.old) }
    {
        if let Some(h) = h {
            let Ok(()) = self.buffers.claim(self.alloc, target, h) else {
                return Err(GlError::Operation);
            };
        }
        self.bound.set(target, h);
        Ok(())
    }

    /// Gives the bound buffer this content, of at most 67,108,864 bytes where they are given, and this usage
    /// (bufferData, OpenGL ES 2.0 section 2.9). Value where the size is above 67,108,864, Operation where
    /// nothing is bound, Memory only where memory runs out for the bytes of an element buffer; then nothing changes.
    #[inline]
    pub fn data(
        &mut self,
        target: BufferTarget,
        content: Content<'_>,
        usage: Usage,
    ) -> Result<(), GlError>
        requires { HasShortBytes content }
        ensures judged { JudgedOrRunsOut target (data_rules self.old target content.entry) result }
        ensures ok { OnOk result (self.new ≡ filled self.old target content.entry usage) }
        ensures err { OnErr result (self.new ≡ self.old) }
    {
        if content.is_long() {
            return Err(GlError::Value);
        }
        let Some(h) = self.bound(target) else {
            return Err(GlError::Operation);
        };
        let Ok(held) = Held::filled(self.alloc, target, content, usage) else {
            return Err(GlError::Memory);
        };
        self.buffers.replace(target, h, held);
        Ok(())
    }

    /// Writes these bytes into the bound buffer from the offset on (bufferSubData, OpenGL ES 2.0 section 2.9).
    /// Value where the offset is negative, Operation where nothing is bound, Value where the bytes end past the
    /// buffer's end, even if there are none; then nothing changes. Takes no memory.
    #[inline]
    pub fn sub_data(
        &mut self,
        target: BufferTarget,
        offset: i64,
        bytes: &[u8],
    ) -> Result<(), GlError>
        ensures judged { Judged (sub_data_rules self.old target offset bytes.now) result }
        ensures ok { OnOk result (self.new ≡ patched self.old target offset bytes.now) }
        ensures within { OnOk result ((is_negative offset ≡ false) × (whole offset ≤ buffer_bytes_max)) }
        ensures err { OnErr result (self.new ≡ self.old) }
    {
        let Ok(at) = u64::try_from(offset) else {
            return Err(GlError::Value);
        };
        let Some(h) = self.bound(target) else {
            return Err(GlError::Operation);
        };
        let size = u64::from(self.size(h));
        if at > size || bytes.len() as u64 > size - at {
            return Err(GlError::Value);
        }
        if target == BufferTarget::ElementArray {
            self.buffers.patch(h, at as usize, bytes);
        }
        Ok(())
    }

    /// The buffer that is bound to the target, which is there and was first bound to it.
    #[inline]
    pub fn bound(&self, target: BufferTarget) -> Option<Handle>
        ensures value { result ≡ binding self.now.bound target }
        ensures first { IsBoundFirst self.now.buffers target result }
    {
        self.bound.get(target)
    }

    /// The size in bytes of a buffer that is there, at most 67,108,864.
    #[inline]
    pub fn size(&self, h: Handle) -> u32
        requires { IsSome (get self.now.buffers h) }
        ensures value { IfSome (get self.now.buffers h) (λ b. result ≡ b.size) }
        ensures sound { IfSome (get self.now.buffers h) IsSound }
    {
        self.buffers.at(h).size()
    }

    /// The GL word of the usage of a buffer that is there.
    #[inline]
    pub fn usage(&self, h: Handle) -> u32
        requires { IsSome (get self.now.buffers h) }
        ensures { IfSome (get self.now.buffers h) (λ b. result ≡ usage_word b.usage) }
    {
        self.buffers.at(h).usage()
    }

    /// The bytes of a buffer that is there and was first bound to ELEMENT_ARRAY_BUFFER.
    pub fn element_bytes(&self, h: Handle) -> Bytes<'_>
        requires { IsOf ElementArray (get self.now.buffers h) }
        ensures value { IfSome (get self.now.buffers h) (λ b. lent result ≡ b.bytes) }
        ensures sound { IfSome (get self.now.buffers h) IsSound }
    {
        self.buffers.at(h).indices()
    }

    /// Forgets the buffer `h` and resets its bindings (deleteBuffer, OpenGL ES 2.0 section 2.9). Nothing changes where
    /// it isn't there.
    pub fn gone(&mut self, h: Handle)
        ensures { self.new ≡ without_buffer self.old h }
    {
        self.buffers.remove(h);
        self.bound.unbind(h);
    }
}
