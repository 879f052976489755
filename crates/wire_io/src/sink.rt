ghost use Rattle.std.specs.Prelude.{◌≡◌, ℕ, List, Option, OnOk, true, false};
ghost use Rattle.std.specs.Io.KnownBytes.{append_known};
ghost use Rattle.wire_io.specs.Faults.{HasCause};
ghost use Rattle.wire_io.specs.Sinks.{Writes, Sends};

use crate::status::Failed;

/// Where replies and commands go.
pub trait Sink {
    /// The bytes that it holds, where they are known.
    ghost held: { Self → Option (List ℕ) };

    /// The number of faults so far; it never falls, and stays at 2^64 - 1.
    ghost faults: { Self → ℕ };

    /// All the bytes that it took were handed on: written to what lies below it, with nothing left in a buffer of
    /// its own.
    ghost handed_on: { Self → Type 0 };

    /// Appends a prefix of the piece and returns its length, at least 1 for a piece that isn't empty. Failed
    /// comes only where the number of faults rose, and then nothing was appended.
    fn write(&mut self, bytes: &[u8]) -> Result<usize, Failed>
        ensures bytes { Writes (held self.old) (held self.new) result bytes.now }
        ensures cause { HasCause (faults self.old) (faults self.new) result };

    /// Appends all of the bytes where the sink has room for them in a buffer of its own, as it has for most short pieces.
    /// Else it returns false, and nothing was appended.
    #[inline]
    fn keep(&mut self, _bytes: &[u8]) -> bool
        ensures kept { result ≡ true → held self.new ≡ append_known (held self.old) _bytes.now }
        ensures left { result ≡ false → held self.new ≡ held self.old }
        ensures faults { faults self.new ≡ faults self.old }
    {
        false
    }

    /// Hands on all that was taken. It never changes what is held, and fails only where the number of faults
    /// rose.
    fn flush(&mut self) -> Result<(), Failed>
        ensures bytes { held self.new ≡ held self.old }
        ensures cause { HasCause (faults self.old) (faults self.new) result }
        ensures handed_on { OnOk result (handed_on self.new) };
}

/// Writes until all of the bytes are taken, which most sinks do at once; after Failed a prefix of them was appended.
#[inline(always)]
pub fn write_all<K: Sink>(bytes: &[u8], out: &mut K) -> Result<(), Failed>
    ensures bytes { Sends (K.held out.old) (K.held out.new) result bytes.now }
    ensures cause { HasCause (K.faults out.old) (K.faults out.new) result }
{
    if out.keep(bytes) {
        return Ok(());
    }
    write_parts(bytes, out)
}

/// Writes the bytes part by part.
#[cold]
#[inline(never)]
fn write_parts<K: Sink>(bytes: &[u8], out: &mut K) -> Result<(), Failed>
    ensures bytes { Sends (K.held out.old) (K.held out.new) result bytes.now }
    ensures cause { HasCause (K.faults out.old) (K.faults out.new) result }
{
    let mut sent = 0;
    while sent < bytes.len() {
        sent += out.write(&bytes[sent..])?;
    }
    Ok(())
}
