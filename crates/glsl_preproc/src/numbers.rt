ghost use Rattle.std.specs.Prelude.{◌≡◌, ◌≤◌, ◌<◌, pos};
ghost use Rattle.glsl_tree.specs.Spellings.{digit_of, number_from, int_of};
ghost use Rattle.glsl_preproc.specs.Values.{fitting};

/// The number that a digit stands for, of any base up to 16.
#[tactic(auto, unfolding(glsl_tree::specs::Spellings::digit_of, glsl_tree::specs::Characters::is_digit))]
fn digit_of(digit: u8) -> u8
    ensures { result ≡ digit_of digit }
{
    match digit {
        b'0'..=b'9' => digit - b'0',
        b'a'..=u8::MAX => digit - b'a' + 10,
        _ => digit.saturating_sub(55),
    }
}

/// The number that digits stand for, where it has 32 bits with sign.
#[tactic(auto, using(crate::proofs::Fitting::number_up, crate::proofs::Fitting::fitting_small, crate::proofs::Fitting::fitting_large))]
fn number_of(digits: &[u8], base: u64) -> Option<i32>
    requires some { 1 ≤ base }
    requires small { base ≤ 16 }
    ensures { result ≡ fitting (pos (number_from base 0 digits.now)) }
{
    let mut number: u64 = 0;
    for digit in digits {
        if number > 0x7fff_ffff {
            return None;
        }
        number = number * base + u64::from(digit_of(*digit));
    }
    if number > 0x7fff_ffff {
        None
    } else {
        Some(number as i32)
    }
}

/// The number that an int spells.
#[tactic(auto, unfolding(glsl_tree::specs::Spellings::int_of))]
pub fn int_value(text: &[u8]) -> Option<i32>
    ensures { result ≡ fitting (pos (int_of text.now)) }
{
    match text {
        [b'0', b'x' | b'X', digits @ ..] => number_of(digits, 16),
        [b'0', _, ..] => number_of(&text[1..], 8),
        _ => number_of(text, 10),
    }
}
