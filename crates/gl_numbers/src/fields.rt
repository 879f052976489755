ghost use Rattle.std.specs.Prelude.{◌≡◌, ◌<◌, ◌^◌};
ghost use Rattle.gl_numbers.specs.Fields.{allows, fields_size, letter_size};

use std::marker::Model;

/// The form of a field of a record or a command, by its letter in the table.
#[derive(Clone, Copy, Debug, PartialEq, Eq)]
pub enum Letter {
    /// u: a word of 32 bits.
    U,
    /// h: the handle of an object, a word.
    H,
    /// b: a truth value, a word that is false for 0 and true otherwise.
    B,
    /// f: a float (IEEE 754 single) as the word of its bits.
    F,
    /// i: a number of 32 bits with a sign.
    I,
    /// l: a number of 64 bits with a sign.
    L,
    /// This many words.
    Words(u32),
}

/// What follows the fields of a record or a command, to the end of its body.
#[derive(Clone, Copy, Debug, PartialEq, Eq)]
pub enum Tail {
    /// Nothing.
    Nothing,
    /// Any bytes.
    Bytes,
    /// Words, of four bytes each.
    Words,
}

/// The value of a field.
#[derive(Clone, Copy, Debug, PartialEq, Eq)]
pub enum Field<'a> {
    /// For the letters u, h, b and f.
    Word(u32),
    /// For the letter i.
    Int(i32),
    /// For the letter l.
    Long(i64),
    /// For several words.
    Words(&'a [u32]),
}

/// A row of a table of records or commands: its number and name, its fields' letters in order, and its tail.
#[derive(Debug, Drop)]
pub struct Row {
    number: u32,
    name: &'static str,
    letters: &'static [Letter],
    tail: Tail,
    size: usize,
}

impl Model for Row {
    ghost use Rattle.std.specs.Prelude.{◌≡◌};
    ghost use Rattle.gl_numbers.specs.Fields.{TableRow, fields_size};

    ghost Value = { TableRow };

    ghost view = { λ r. record { number = r.number; name = r.name.now; letters = r.letters.now; tail = r.tail } };

    ghost invariant = { λ r. r.size ≡ fields_size r.letters.now };
}

impl Letter {
    /// The bytes of a field of this letter.
    pub fn size(self) -> usize
        ensures { result ≡ letter_size self }
    {
        match self {
            Letter::U | Letter::H | Letter::B | Letter::F | Letter::I => 4,
            Letter::L => 8,
            Letter::Words(count) => 4 * count as usize,
        }
    }
}

/// The bytes of fields of these letters in all.
#[inline(always)]
fn size_of(letters: &[Letter]) -> usize
    requires { fields_size letters.now < 2 ^ 32 }
    ensures { result ≡ fields_size letters.now }
{
    let mut size = 0;
    for letter in letters {
        size += letter.size();
    }
    size
}

impl Row {
    /// A row of this number, name, letters and tail.
    #[inline(always)]
    pub fn new(number: u32, name: &'static str, letters: &'static [Letter], tail: Tail) -> Self
        requires { fields_size letters.now < 2 ^ 32 }
        ensures { result ≡ record { number = number; name = name.now; letters = letters.now; tail = tail } }
    {
        Row {
            number,
            name,
            letters,
            tail,
            size: size_of(letters),
        }
    }

    /// The number of the operation.
    #[inline(always)]
    pub fn number(&self) -> u32
        ensures { result ≡ self.now.number }
    {
        self.number
    }

    /// The name of the operation, as the standard has it where a record is a call.
    pub fn name(&self) -> &'static str
        ensures { result.now ≡ self.now.name }
    {
        self.name
    }

    /// The letters of the fields, in order.
    #[inline(always)]
    pub fn letters(&self) -> &'static [Letter]
        ensures { result.now ≡ self.now.letters }
    {
        self.letters
    }

    /// What follows the fields.
    #[inline(always)]
    pub fn tail(&self) -> Tail
        ensures { result ≡ self.now.tail }
    {
        self.tail
    }

    /// The bytes of the fields in all.
    pub fn size(&self) -> usize
        ensures { result ≡ fields_size self.now.letters }
    {
        self.size
    }

    /// Whether a body of `len` bytes is one of this row's, where a body has at most `most` bytes.
    #[inline(always)]
    pub fn allows(&self, most: usize, len: usize) -> bool
        ensures { result ≡ allows most self.now len }
    {
        len <= most
            && match self.tail {
                Tail::Nothing => len == self.size,
                Tail::Bytes => self.size <= len,
                Tail::Words => self.size <= len && (len - self.size) % 4 == 0,
            }
    }
}
