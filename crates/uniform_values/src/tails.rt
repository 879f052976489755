ghost use Rattle.std.specs.Prelude.{◌≡◌, ◌<◌, ◌%◌, ◌↔◌, IsSome, IfSome, length, slice_index};
ghost use Rattle.uniform_values.specs.Tails.{words_of};

use std::marker::Model;

/// Bytes that are whole words, lent from where they lie and seen as the list of the words, each of four bytes with the low one
/// first.
#[derive(Drop)]
pub struct Tail32<'a> {
    bytes: &'a [u8],
}

impl<'a> Model for Tail32<'a> {
    ghost use Rattle.std.specs.Prelude.{◌≡◌, ℕ, ◌%◌, List, length};
    ghost use Rattle.uniform_values.specs.Tails.{words_of};

    ghost Value = { List ℕ };

    ghost view = { λ t. words_of t.bytes.now };

    ghost invariant = { λ t. length t.bytes.now % 4 ≡ 0 };
}

#[tactic(auto, using(crate::proofs::WordsOf::of_words))]
impl<'a> Tail32<'a> {
    /// The words of these bytes; None exactly where their number is no multiple of 4.
    pub fn new(bytes: &'a [u8]) -> Option<Tail32<'a>>
        ensures whole { IsSome result ↔ (length bytes.now % 4 ≡ 0) }
        ensures value { IfSome result (λ tail. tail ≡ words_of bytes.now) }
    {
        if bytes.len() % 4 != 0 {
            return None;
        }
        Some(Tail32 { bytes })
    }

    /// How many words there are.
    pub fn len(&self) -> usize
        ensures { result ≡ length self.now }
    {
        self.bytes.len() / 4
    }

    /// The word at a place before the end, from 0.
    pub fn word(&self, i: usize) -> u32
        requires { i < length self.now }
        ensures { result ≡ slice_index self.now i }
    {
        let bytes = self.bytes;
        let at = 4 * i;
        u32::from_le_bytes([bytes[at], bytes[at + 1], bytes[at + 2], bytes[at + 3]])
    }
}
