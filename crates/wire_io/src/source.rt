ghost use Rattle.std.specs.Prelude.{◌≡◌, ◌≤◌, ℕ, List, Option, length, take, IfSome, true, false};
ghost use Rattle.std.specs.Io.KnownBytes.{prepend_known};
ghost use Rattle.wire_io.specs.Faults.{HasCause};
ghost use Rattle.wire_io.specs.Sources.{Reads, Fills};

use crate::status::Failed;

/// Where a session's bytes come from.
pub trait Source {
    /// The bytes that are left, where they are known.
    ghost left: { Self → Option (List ℕ) };

    /// The number of faults so far; it never falls, and stays at 2^64 - 1.
    ghost faults: { Self → ℕ };

    /// The bytes that wait in a buffer of the source's own.
    ghost ahead: { Self → List ℕ };

    /// Takes at most as many bytes as `into` has, and returns how many; 0 for a piece that isn't empty is
    /// the end. Failed comes only where the number of faults rose, and then nothing was taken.
    fn read(&mut self, into: &mut [u8]) -> Result<usize, Failed>
        ensures bytes { Reads (left self.old) (left self.new) result into.new }
        ensures cause { HasCause (faults self.old) (faults self.new) result };

    /// Fills the piece where so many bytes wait in a buffer of the source's own, as they do for most short pieces. Else it
    /// returns false, and nothing was taken.
    #[inline]
    fn give(&mut self, _into: &mut [u8]) -> bool
        ensures given { result ≡ true → left self.old ≡ prepend_known _into.new (left self.new) }
        ensures left { result ≡ false → left self.new ≡ left self.old }
        ensures faults { faults self.new ≡ faults self.old }
    {
        false
    }

    /// Lends the next bytes where so many wait in a buffer of the source's own, as they do for most short pieces. Nothing is taken.
    fn peek(&self, len: usize) -> Option<&[u8]>
        ensures { IfSome result (λ piece. (len ≤ length (ahead self.now)) × (piece.now ≡ take len (ahead self.now))) };

    /// Takes bytes that wait in a buffer of the source's own.
    fn skip(&mut self, len: usize)
        requires { len ≤ length (ahead self.old) }
        ensures taken { left self.old ≡ prepend_known (take len (ahead self.old)) (left self.new) }
        ensures faults { faults self.new ≡ faults self.old };
}

/// Reads until `into` is full or the end comes, and returns how many bytes were taken.
#[inline]
pub fn read_full<S: Source>(input: &mut S, into: &mut [u8]) -> Result<usize, Failed>
    ensures bytes { Fills (S.left input.old) (S.left input.new) result into.new }
    ensures cause { HasCause (S.faults input.old) (S.faults input.new) result }
{
    if into.is_empty() || input.give(into) {
        return Ok(into.len());
    }
    read_parts(input, into)
}

/// Reads part by part until `into` is full or the end comes.
#[cold]
#[inline(never)]
fn read_parts<S: Source>(input: &mut S, into: &mut [u8]) -> Result<usize, Failed>
    ensures bytes { Fills (S.left input.old) (S.left input.new) result into.new }
    ensures cause { HasCause (S.faults input.old) (S.faults input.new) result }
{
    let mut filled = 0;
    while filled < into.len() {
        let n = input.read(&mut into[filled..])?;
        if n == 0 {
            return Ok(filled);
        }
        filled += n;
    }
    Ok(filled)
}
