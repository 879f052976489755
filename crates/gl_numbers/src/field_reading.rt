ghost use Rattle.std.specs.Prelude.{◌≡◌, ◌+◌, ◌≤◌, ◌++◌, length, [], FitsSigned};
ghost use Rattle.std.specs.Int.{w32};
ghost use Rattle.gl_numbers.specs.Bytes.{le32, le64, IsLong};
ghost use Rattle.gl_numbers.specs.Fields.{le32_signed};

use crate::words_in_bytes::{i32_at, i64_at, u32_at};
use std::marker::Model;

/// The fields of a body that are still to be read, seen as the bytes that are left.
#[derive(Debug, Drop)]
pub struct Fields<'a> {
    bytes: &'a [u8],
}

impl<'a> Model for Fields<'a> {
    ghost use Rattle.std.specs.Prelude.{ℕ, List};

    ghost Value = { List ℕ };

    ghost view = { λ f. f.bytes.now };
}

impl<'a> Fields<'a> {
    /// The fields of this body, all of them still to be read.
    #[inline]
    pub fn new(body: &'a [u8]) -> Self
        ensures { result ≡ body.now }
    {
        Fields { bytes: body }
    }

    /// Reads a word: a field of the letter u, h, b or f.
    #[inline]
    pub fn word(&mut self) -> u32
        requires { 4 ≤ length self.old }
        ensures bytes { self.old ≡ le32 result ++ self.new }
        ensures left { length self.old ≡ 4 + length self.new }
    {
        let word = u32_at(self.bytes);
        self.bytes = &self.bytes[4..];
        word
    }

    /// Reads a number of 32 bits with a sign: a field of the letter i.
    #[inline]
    pub fn int(&mut self) -> i32
        requires { 4 ≤ length self.old }
        ensures bytes { self.old ≡ le32_signed result ++ self.new }
        ensures range { FitsSigned w32 result }
        ensures left { length self.old ≡ 4 + length self.new }
    {
        let number = i32_at(self.bytes);
        self.bytes = &self.bytes[4..];
        number
    }

    /// Reads a number of 64 bits with a sign: a field of the letter l.
    #[inline]
    pub fn long(&mut self) -> i64
        requires { 8 ≤ length self.old }
        ensures bytes { self.old ≡ le64 result ++ self.new }
        ensures range { IsLong result }
        ensures left { length self.old ≡ 8 + length self.new }
    {
        let number = i64_at(self.bytes);
        self.bytes = &self.bytes[8..];
        number
    }

    /// Reads the tail: all that is left.
    #[inline]
    pub fn tail(&mut self) -> &'a [u8]
        ensures bytes { self.old ≡ result.now ++ self.new }
        ensures end { self.new ≡ [] }
    {
        let tail = self.bytes;
        self.bytes = &[];
        tail
    }
}
