ghost use Rattle.std.specs.Prelude.{◌≡◌, ◌≤◌, IfOk, nat_lt};
ghost use Rattle.gl_numbers.specs.Limits.{buffer_bytes_max};
ghost use Rattle.buffer_store.specs.Content.{HasShortBytes, bytes_of, size_of};

use gl_numbers::{BUFFER_BYTES_MAX, Memory};
use std::alloc::Global;

/// What bufferData fills a buffer with.
#[derive(Clone, Copy, Debug)]
pub enum Content<'a> {
    /// That many zero bytes.
    Size(u32),
    /// These bytes.
    Bytes(&'a [u8]),
}

impl Content<'_> {
    /// Whether there are more bytes than a buffer holds.
    #[inline]
    pub(crate) fn is_long(self) -> bool
        requires { HasShortBytes self }
        ensures { result ≡ nat_lt buffer_bytes_max (size_of self.entry) }
    {
        match self {
            Content::Size(size) => size > BUFFER_BYTES_MAX,
            Content::Bytes(_) => false,
        }
    }

    /// How many bytes there are, at most 67,108,864.
    #[inline]
    pub(crate) fn size(self) -> u32
        requires { size_of self ≤ buffer_bytes_max }
        ensures { result ≡ size_of self.entry }
    {
        match self {
            Content::Size(size) => size,
            Content::Bytes(bytes) => bytes.len() as u32,
        }
    }

    /// The bytes in memory of their own. Err only where memory runs out.
    pub(crate) fn copied(self, alloc: Global) -> Result<Vec<u8>, Memory>
        ensures { IfOk result (λ copy. copy.items ≡ bytes_of self.entry) }
    {
        let copy = match self {
            Content::Size(size) => vec![in alloc; 0; size as usize],
            Content::Bytes(bytes) => Vec::from_slice(alloc, bytes),
        };
        copy.map_err(|_| Memory)
    }
}
