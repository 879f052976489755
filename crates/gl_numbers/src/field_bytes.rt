ghost use Rattle.std.specs.Prelude.{◌≡◌, ◌+◌, ◌*◌, ◌≤◌, ◌++◌, length, []};
ghost use Rattle.std.specs.List.{flat_map};
ghost use Rattle.gl_numbers.specs.Bytes.{le32};
ghost use Rattle.gl_numbers.specs.Fields.{body_encoding, value_encoding, values_of, value_of, values_size, value_size};

use crate::fields::Field;
use crate::words_in_bytes::{int_bytes, long_bytes, word_bytes};
use std::marker::Model;

/// The most bytes of the fields of a record or a command.
pub const FIELD_BYTES_MAX: usize = 64;

/// The bytes of a record's fields, at most 64 of them, seen as the list of them.
#[derive(Debug, Drop)]
pub struct FieldBytes {
    bytes: [u8; 64],
    len: usize,
}

impl Model for FieldBytes {
    ghost use Rattle.std.specs.Prelude.{ℕ, List, ◌≤◌, take};

    ghost Value = { List ℕ };

    ghost view = { λ f. take f.len f.bytes };

    ghost invariant = { λ f. f.len ≤ 64 };
}

impl FieldBytes {
    /// The bytes of these values, in order.
    pub fn of(fields: &[Field<'_>]) -> Self
        requires { values_size (values_of fields.now) ≤ FIELD_BYTES_MAX }
        ensures { result ≡ body_encoding (values_of fields.now) [] }
    {
        let mut all = FieldBytes {
            bytes: [0; 64],
            len: 0,
        };
        for field in fields {
            all.push(field);
        }
        all
    }

    /// Adds the bytes of a value.
    fn push(&mut self, field: &Field<'_>)
        requires { length self.old + value_size (value_of field.now) ≤ FIELD_BYTES_MAX }
        ensures { self.new ≡ self.old ++ value_encoding (value_of field.now) }
    {
        match field {
            Field::Word(word) => self.push_bytes(&word_bytes(*word)),
            Field::Int(number) => self.push_bytes(&int_bytes(*number)),
            Field::Long(number) => self.push_bytes(&long_bytes(*number)),
            Field::Words(words) => self.push_words(words),
        }
    }

    /// Adds the bytes of words, in order.
    fn push_words(&mut self, words: &[u32])
        requires { length self.old + 4 * length words.now ≤ FIELD_BYTES_MAX }
        ensures { self.new ≡ self.old ++ flat_map le32 words.now }
    {
        for word in words {
            self.push_bytes(&word_bytes(*word));
        }
    }

    /// Adds these bytes.
    fn push_bytes(&mut self, bytes: &[u8])
        requires { length self.old + length bytes.now ≤ FIELD_BYTES_MAX }
        ensures { self.new ≡ self.old ++ bytes.now }
    {
        self.bytes[self.len..self.len + bytes.len()].copy_from_slice(bytes);
        self.len += bytes.len();
    }

    /// All of the bytes.
    pub fn as_slice(&self) -> &[u8]
        ensures { result.now ≡ self.now }
    {
        &self.bytes[..self.len]
    }
}
