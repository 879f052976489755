ghost use Rattle.std.specs.Prelude.{◌≡◌, ℕ, ◌-◌, ◌<◌, ◌≤◌, ◌↔◌, List, length, take, IsSome, IfSome};

use std::marker::Model;

/// The most bytes that a `Name` holds.
pub const NAME_BYTES: usize = 256;
/// The most words that a `Words` holds.
pub const WORDS: usize = 16;

/// A name of at most 256 bytes, seen as the list of them.
#[derive(Clone, Copy, Debug, PartialEq, Eq)]
pub struct Name {
    bytes: [u8; 256],
    len: usize,
}

impl Model for Name {
    ghost use Rattle.std.specs.Prelude.{ℕ, List, length, take};

    ghost Value = { List ℕ };

    ghost use Rattle.gl_numbers.specs.ShortLists.{IsPadded, padded, padded-of_prefix};
    ghost use Rattle.gl_numbers.specs.declared.short_lists.Name.TheInside.{Inside};
    ghost use Rattle.std.proofs.Common.{ap};

    ghost view = { λ n. take n.len n.bytes };

    ghost invariant = { λ n. IsPadded 256 n.len n.bytes };

    ghost inverse = { λ d. record { bytes = padded 256 d; len = length d } };

    ghost inverse_ok = { λ a h.
        ap (λ p. let inside : Inside = record { bytes = p.0; len = p.1 } in inside) (padded-of_prefix 256 a.len a.bytes h) };
}

impl Name {
    /// The name of these bytes; None exactly where there are more than 256.
    pub fn new(bytes: &[u8]) -> Option<Self>
        ensures fits { IsSome result ↔ (length bytes.now ≤ 256) }
        ensures value { IfSome result (λ name. name ≡ bytes.now) }
    {
        if bytes.len() > NAME_BYTES {
            return None;
        }
        let mut held = [0u8; 256];
        held[..bytes.len()].copy_from_slice(bytes);
        Some(Name {
            bytes: held,
            len: bytes.len(),
        })
    }

    /// The bytes of the name, at most 256.
    pub fn as_slice(&self) -> &[u8]
        ensures value { result.now ≡ self.now }
        ensures within { length result.now ≤ 256 }
    {
        &self.bytes[..self.len]
    }
}

/// A list of at most 16 words, as getParameter answers.
#[derive(Clone, Copy, Debug, PartialEq, Eq)]
pub struct Words {
    words: [u32; 16],
    len: usize,
}

impl Model for Words {
    ghost use Rattle.std.specs.Prelude.{ℕ, List, length, take};

    ghost Value = { List ℕ };

    ghost use Rattle.gl_numbers.specs.ShortLists.{IsPadded, padded, padded-of_prefix};
    ghost use Rattle.gl_numbers.specs.declared.short_lists.Words.TheInside.{Inside};
    ghost use Rattle.std.proofs.Common.{ap};

    ghost view = { λ n. take n.len n.words };

    ghost invariant = { λ n. IsPadded 16 n.len n.words };

    ghost inverse = { λ d. record { words = padded 16 d; len = length d } };

    ghost inverse_ok = { λ a h.
        ap (λ p. let inside : Inside = record { words = p.0; len = p.1 } in inside) (padded-of_prefix 16 a.len a.words h) };
}

impl Words {
    /// The list of these words; None exactly where there are more than 16.
    pub fn new(words: &[u32]) -> Option<Self>
        ensures fits { IsSome result ↔ (length words.now ≤ 16) }
        ensures value { IfSome result (λ list. list ≡ words.now) }
    {
        if words.len() > WORDS {
            return None;
        }
        let mut held = [0u32; 16];
        held[..words.len()].copy_from_slice(words);
        Some(Words {
            words: held,
            len: words.len(),
        })
    }

    /// The words of the list, at most 16.
    pub fn as_slice(&self) -> &[u32]
        ensures value { result.now ≡ self.now }
        ensures within { length result.now ≤ 16 }
    {
        &self.words[..self.len]
    }
}
