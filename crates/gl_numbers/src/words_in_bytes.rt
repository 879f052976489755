ghost use Rattle.std.specs.Prelude.{◌≡◌, ◌≤◌, ◌++◌, length, drop, FitsSigned};
ghost use Rattle.std.specs.Int.{w32};
ghost use Rattle.gl_numbers.specs.Bytes.{le32, le64, IsLong};
ghost use Rattle.gl_numbers.specs.Fields.{le32_signed};

/// The word whose four bytes, the low one first, begin these bytes.
#[inline]
#[tactic(auto, unfolding(crate::specs::Bytes::le32))]
pub fn u32_at(bytes: &[u8]) -> u32
    requires { 4 ≤ length bytes.now }
    ensures { bytes.now ≡ le32 result ++ drop 4 bytes.now }
{
    u32::from_le_bytes([bytes[0], bytes[1], bytes[2], bytes[3]])
}

/// The number of 32 bits with a sign whose four bytes, the low one first, begin these bytes.
#[inline]
#[tactic(auto, unfolding(crate::specs::Fields::le32_signed))]
pub fn i32_at(bytes: &[u8]) -> i32
    requires { 4 ≤ length bytes.now }
    ensures bytes { bytes.now ≡ le32_signed result ++ drop 4 bytes.now }
    ensures range { FitsSigned w32 result }
{
    i32::from_le_bytes([bytes[0], bytes[1], bytes[2], bytes[3]])
}

/// The number of 64 bits with a sign whose eight bytes, the low one first, begin these bytes.
#[inline]
#[tactic(auto, unfolding(crate::specs::Bytes::le64))]
pub fn i64_at(bytes: &[u8]) -> i64
    requires { 8 ≤ length bytes.now }
    ensures bytes { bytes.now ≡ le64 result ++ drop 8 bytes.now }
    ensures range { IsLong result }
{
    i64::from_le_bytes([
        bytes[0], bytes[1], bytes[2], bytes[3], bytes[4], bytes[5], bytes[6], bytes[7],
    ])
}

/// A word's four bytes, the low one first.
#[inline]
#[tactic(auto, unfolding(crate::specs::Bytes::le32))]
pub fn word_bytes(a: u32) -> [u8; 4]
    ensures { result ≡ le32 a }
{
    a.to_le_bytes()
}

/// The four bytes of a number of 32 bits with a sign, the low one first.
#[inline]
#[tactic(auto, unfolding(crate::specs::Fields::le32_signed))]
pub fn int_bytes(number: i32) -> [u8; 4]
    ensures { result ≡ le32_signed number }
{
    number.to_le_bytes()
}

/// The eight bytes of a number of 64 bits with a sign, the low one first.
#[inline]
#[tactic(auto, unfolding(crate::specs::Bytes::le64))]
pub fn long_bytes(number: i64) -> [u8; 8]
    ensures { result ≡ le64 number }
{
    number.to_le_bytes()
}

/// Two words' bytes.
#[inline]
#[tactic(auto, unfolding(crate::specs::Bytes::le32))]
pub fn two_words(a: u32, b: u32) -> [u8; 8]
    ensures { result ≡ le32 a ++ le32 b }
{
    let [a0, a1, a2, a3] = a.to_le_bytes();
    let [b0, b1, b2, b3] = b.to_le_bytes();
    [a0, a1, a2, a3, b0, b1, b2, b3]
}

/// Three words' bytes.
#[inline]
#[tactic(auto, unfolding(crate::specs::Bytes::le32))]
pub fn three_words(a: u32, b: u32, c: u32) -> [u8; 12]
    ensures { result ≡ le32 a ++ (le32 b ++ le32 c) }
{
    let [a0, a1, a2, a3] = a.to_le_bytes();
    let [b0, b1, b2, b3] = b.to_le_bytes();
    let [c0, c1, c2, c3] = c.to_le_bytes();
    [a0, a1, a2, a3, b0, b1, b2, b3, c0, c1, c2, c3]
}

/// Four words' bytes.
#[inline]
#[tactic(auto, unfolding(crate::specs::Bytes::le32))]
pub fn four_words(a: u32, b: u32, c: u32, d: u32) -> [u8; 16]
    ensures { result ≡ le32 a ++ (le32 b ++ (le32 c ++ le32 d)) }
{
    let [a0, a1, a2, a3] = a.to_le_bytes();
    let [b0, b1, b2, b3] = b.to_le_bytes();
    let [c0, c1, c2, c3] = c.to_le_bytes();
    let [d0, d1, d2, d3] = d.to_le_bytes();
    [
        a0, a1, a2, a3, b0, b1, b2, b3, c0, c1, c2, c3, d0, d1, d2, d3,
    ]
}
