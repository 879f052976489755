ghost use Rattle.std.specs.Prelude.{◌≡◌, ◌+◌, ◌-◌, ◌<◌, ◌≤◌, [], ◌++◌, min, length, take, drop};

/// Copies as many bytes as fit from the start of `from` to the start of `into`, and returns how many.
#[inline(always)]
pub fn copy_prefix(from: &[u8], into: &mut [u8]) -> usize
    ensures fits { result ≡ min (length from.now) (length into.old) }
    ensures content { into.new ≡ take result from.now ++ drop result into.old }
    ensures prefix { take result into.new ≡ take result from.now }
    ensures after { drop result into.new ≡ drop result into.old }
{
    let n = from.len().min(into.len());
    into[..n].copy_from_slice(&from[..n]);
    n
}

/// Copies as many bytes as fit from those after the first `next`, and returns how many.
#[inline]
#[tactic(auto, using(crate::proofs::Copying::copied_rest, crate::proofs::Copying::none_left))]
pub fn copy_rest(bytes: &[u8], next: usize, into: &mut [u8]) -> usize
    requires { next ≤ length bytes.now }
    ensures fits { result ≡ min (length bytes.now - next) (length into.old) }
    ensures taken { drop next bytes.now ≡ take result into.new ++ drop (next + result) bytes.now }
    ensures after { drop result into.new ≡ drop result into.old }
    ensures end { result ≡ 0 → 0 < length into.new → drop (next + result) bytes.now ≡ [] }
{
    copy_prefix(&bytes[next..], into)
}
