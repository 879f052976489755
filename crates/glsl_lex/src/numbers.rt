ghost use Rattle.std.specs.Prelude.{◌≡◌, ◌≤◌, length, nat_le};
ghost use Rattle.std.specs.List.{prefix_len};
ghost use Rattle.glsl_tree.specs.Characters.{is_digit, is_octal_digit, is_hexadecimal_digit};
ghost use Rattle.glsl_tree.specs.Spellings.{digit_of, number_from, int_of};
ghost use Rattle.glsl_lex.specs.Fronts.{exponent_len, hexadecimal_len, int_len, decimal_at, number_at};

use crate::characters::{is_digit, is_hexadecimal_digit, is_octal_digit};
use glsl_tree::{Class, LARGEST_INT};

/// How many decimal digits the text begins with.
#[tactic(auto, using(crate::proofs::Counts::counts))]
fn digits(text: &[u8]) -> usize
    ensures count { result ≡ prefix_len is_digit text.now }
    ensures within { result ≤ length text.now }
{
    text.iter().take_while(|byte| is_digit(**byte)).count()
}

/// How many octal digits the text begins with.
#[tactic(auto, using(crate::proofs::Counts::counts))]
fn octal_digits(text: &[u8]) -> usize
    ensures count { result ≡ prefix_len is_octal_digit text.now }
    ensures within { result ≤ length text.now }
{
    text.iter()
        .take_while(|byte| is_octal_digit(**byte))
        .count()
}

/// How many hexadecimal digits the text begins with.
#[tactic(auto, using(crate::proofs::Counts::counts))]
fn hexadecimal_digits(text: &[u8]) -> usize
    ensures count { result ≡ prefix_len is_hexadecimal_digit text.now }
    ensures within { result ≤ length text.now }
{
    text.iter()
        .take_while(|byte| is_hexadecimal_digit(**byte))
        .count()
}

/// How many bytes the exponent at the front has, 0 where none stands there (GLSL ES 1.00.17 section 4.1.3).
#[tactic(auto, unfolding(crate::specs::Fronts::exponent_len))]
fn exponent_len(text: &[u8]) -> usize
    ensures bytes { result ≡ exponent_len text.now }
    ensures within { result ≤ length text.now }
{
    let (front, rest) = match text {
        [b'e' | b'E', b'+' | b'-', rest @ ..] => (2, rest),
        [b'e' | b'E', rest @ ..] => (1, rest),
        _ => return 0,
    };
    match digits(rest) {
        0 => 0,
        count => front + count,
    }
}

/// How many bytes the hexadecimal number at the front has, 0 where none stands there.
#[tactic(auto, unfolding(crate::specs::Fronts::hexadecimal_len))]
fn hexadecimal_len(text: &[u8]) -> usize
    ensures bytes { result ≡ hexadecimal_len text.now }
    ensures within { result ≤ length text.now }
{
    match text {
        [b'0', b'x' | b'X', rest @ ..] => match hexadecimal_digits(rest) {
            0 => 0,
            count => 2 + count,
        },
        _ => 0,
    }
}

/// How many bytes the int at the front has, in octal behind a 0, where so many digits stand there.
#[tactic(auto, unfolding(crate::specs::Fronts::int_len))]
fn int_len(text: &[u8], whole: usize) -> usize
    requires { whole ≤ length text.now }
    ensures bytes { result ≡ int_len text.now whole }
    ensures within { result ≤ length text.now }
{
    match text {
        [b'0', rest @ ..] => 1 + octal_digits(rest),
        _ => whole,
    }
}

/// The longest decimal or octal number at the front: its class and how many bytes it has.
#[tactic(auto, using(crate::proofs::Counts::counts), unfolding(crate::specs::Fronts::decimal_at))]
fn decimal_at(text: &[u8]) -> (Class, usize)
    ensures number { result ≡ decimal_at text.now }
    ensures within { result.1 ≤ length text.now }
{
    let whole = digits(text);
    let rest = &text[whole..];
    if let [b'.', fraction @ ..] = rest {
        let count = digits(fraction);
        return (
            Class::Float,
            whole + 1 + count + exponent_len(&fraction[count..]),
        );
    }
    match exponent_len(rest) {
        0 => (Class::Int, int_len(text, whole)),
        exponent => (Class::Float, whole + exponent),
    }
}

/// The longest number at the front of a text that begins with a digit, or with a point and a digit: its class and
/// how many bytes it has.
#[tactic(auto, unfolding(crate::specs::Fronts::number_at))]
pub fn number_at(text: &[u8]) -> (Class, usize)
    ensures number { result ≡ number_at text.now }
    ensures within { result.1 ≤ length text.now }
{
    match hexadecimal_len(text) {
        0 => decimal_at(text),
        count => (Class::Int, count),
    }
}

/// The number that a digit stands for, of any base up to 16.
#[tactic(auto, unfolding(glsl_tree::specs::Spellings::digit_of, glsl_tree::specs::Characters::is_digit))]
fn digit_of(digit: u8) -> u8
    ensures { result ≡ digit_of digit }
{
    match digit {
        b'0'..=b'9' => digit - b'0',
        b'a'..=u8::MAX => digit - b'a' + 10,
        _ => digit.saturating_sub(55),
    }
}

/// Whether digits stand for a number that an int may spell (GLSL ES 1.00.17 section 4.1.2).
#[tactic(auto, using(crate::proofs::Values::number_up))]
fn is_number_within(digits: &[u8], base: u64) -> bool
    requires some { 1 ≤ base }
    requires small { base ≤ 16 }
    ensures { result ≡ nat_le (number_from base 0 digits.now) LARGEST_INT }
{
    let mut number: u64 = 0;
    for digit in digits {
        if number > u64::from(LARGEST_INT) {
            return false;
        }
        number = number * base + u64::from(digit_of(*digit));
    }
    number <= u64::from(LARGEST_INT)
}

/// Whether the number that an int spells is one that it may.
#[tactic(auto, unfolding(glsl_tree::specs::Spellings::int_of))]
pub fn is_int_within(text: &[u8]) -> bool
    ensures { result ≡ nat_le (int_of text.now) LARGEST_INT }
{
    match text {
        [b'0', b'x' | b'X', digits @ ..] => is_number_within(digits, 16),
        [b'0', _, ..] => is_number_within(&text[1..], 8),
        _ => is_number_within(text, 10),
    }
}
