ghost use Rattle.std.specs.Prelude.{◌≡◌, ◌+◌, ◌≤◌, length, IfOk, OnErr};
ghost use Rattle.gl_numbers.specs.BufferWords.{usage_word};
ghost use Rattle.gl_numbers.specs.Limits.{buffer_bytes_max};
ghost use Rattle.buffer_store.specs.StoredBuffer.{IsIndexed, IsSound, new_stored, put_bytes, with_bytes, with_first};
ghost use Rattle.buffer_store.specs.Content.{size_of, buffer_of};
ghost use Rattle.step_count.specs.Content.{content};
ghost use Rattle.gl_numbers.specs.declared.buffer_words.BufferTarget.TheVariants.{ElementArray};

use crate::Content;
use gl_numbers::{BufferTarget, Memory, Usage};
use std::alloc::Global;
use std::marker::Model;
use step_count::Bytes;

/// What is kept of a buffer, by the target that it was first bound to.
#[derive(Drop)]
pub(crate) enum Kept {
    /// It was never bound, and so has no bytes.
    Unbound,
    /// It holds vertices: their number of bytes.
    Vertices(u32),
    /// It holds indices: their bytes.
    Indices(Vec<u8>),
}

/// One buffer.
#[derive(Drop)]
pub(crate) struct Held {
    kept: Kept,
    usage: Usage,
}

impl Model for Held {
    ghost use Rattle.buffer_store.specs.StoredBuffer.{StoredBuffer, IsSound};

    ghost Value = { StoredBuffer };

    ghost use Rattle.buffer_store.specs.Held.{shown};

    ghost view = { λ a. shown a.kept a.usage };

    ghost invariant = { λ a. IsSound (shown a.kept a.usage) };
}

impl Held {
    /// A buffer that was just made.
    #[inline]
    pub(crate) fn new() -> Held
        ensures { result ≡ new_stored }
    {
        Held {
            kept: Kept::Unbound,
            usage: Usage::StaticDraw,
        }
    }

    /// A buffer of this target with this content; Err only where memory runs out for the bytes of an element
    /// buffer.
    pub(crate) fn filled(
        alloc: Global,
        target: BufferTarget,
        content: Content<'_>,
        usage: Usage,
    ) -> Result<Held, Memory>
        requires { size_of content ≤ buffer_bytes_max }
        ensures ok { IfOk result (λ b. b ≡ buffer_of target content.entry usage) }
        ensures memory { OnErr result (target ≡ ElementArray) }
    {
        let kept = match target {
            BufferTarget::Array => Kept::Vertices(content.size()),
            BufferTarget::ElementArray => {
                let Ok(bytes) = content.copied(alloc) else {
                    return Err(Memory);
                };
                Kept::Indices(bytes)
            }
        };
        Ok(Held { kept, usage })
    }

    /// The target that it was first bound to.
    #[inline]
    pub(crate) fn first_target(&self) -> Option<BufferTarget>
        ensures value { result ≡ self.now.first_target }
        ensures sound { IsSound self.now }
    {
        match &self.kept {
            Kept::Unbound => None,
            Kept::Vertices(_) => Some(BufferTarget::Array),
            Kept::Indices(_) => Some(BufferTarget::ElementArray),
        }
    }

    /// Its size in bytes, at most 67,108,864.
    #[inline]
    pub(crate) fn size(&self) -> u32
        ensures value { result ≡ self.now.size }
        ensures sound { IsSound self.now }
    {
        match &self.kept {
            Kept::Unbound => 0,
            Kept::Vertices(size) => *size,
            Kept::Indices(bytes) => bytes.as_slice().len() as u32,
        }
    }

    /// The GL word of its usage.
    #[inline]
    pub(crate) fn usage(&self) -> u32
        ensures { result ≡ usage_word self.now.usage }
    {
        self.usage.word()
    }

    /// The bytes of an element buffer.
    pub(crate) fn indices(&self) -> Bytes<'_>
        requires { self.now.first_target ≡ Some ElementArray }
        ensures value { content result ≡ self.now.bytes }
        ensures sound { IsSound self.now }
    {
        match &self.kept {
            Kept::Indices(bytes) => Bytes::new(bytes),
            _ => unreachable!(),
        }
    }

    /// Makes it a buffer of this target, as the first binding does.
    pub(crate) fn take_target(&mut self, alloc: Global, target: BufferTarget)
        requires { self.old.first_target ≡ None }
        ensures { self.new ≡ with_first target self.old }
    {
        self.kept = match target {
            BufferTarget::Array => Kept::Vertices(0),
            BufferTarget::ElementArray => Kept::Indices(Vec::new(alloc)),
        };
    }

    /// Writes these bytes from `at` on into an element buffer.
    #[inline]
    pub(crate) fn patch(&mut self, at: usize, bytes: &[u8])
        requires { IsIndexed (at + length bytes.now) self.old }
        ensures { self.new ≡ with_bytes at bytes.now self.old }
    {
        if let Kept::Indices(kept) = &mut self.kept {
            copy_at(kept, at, bytes);
        }
    }
}

/// Writes `bytes` into `into` from `at` on.
fn copy_at(into: &mut [u8], at: usize, bytes: &[u8])
    requires { at + length bytes.now ≤ length into.old }
    ensures { into.new ≡ put_bytes at bytes.now into.old }
{
    let (_, rest) = into.split_at_mut(at);
    let (place, _) = rest.split_at_mut(bytes.len());
    place.copy_from_slice(bytes);
}
