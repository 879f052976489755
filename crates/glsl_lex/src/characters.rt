ghost use Rattle.std.specs.Prelude.{◌≡◌};
ghost use Rattle.glsl_tree.specs.Characters.{is_among, is_letter, is_digit, is_octal_digit, is_hexadecimal_digit, is_blank, is_line_break, is_mark, is_character};
ghost use Rattle.glsl_tree.specs.Spellings.{is_name_character};

#[tactic(auto, unfolding(glsl_tree::specs::Characters::is_among))]
pub fn is_among(text: &[u8], byte: u8) -> bool
    ensures { result ≡ is_among text.now byte }
{
    text.iter().any(|c| *c == byte)
}

#[tactic(auto, unfolding(glsl_tree::specs::Characters::is_letter))]
pub fn is_letter(byte: u8) -> bool
    ensures { result ≡ is_letter byte }
{
    matches!(byte, b'a'..=b'z' | b'A'..=b'Z' | b'_')
}

#[tactic(auto, unfolding(glsl_tree::specs::Characters::is_digit))]
pub fn is_digit(byte: u8) -> bool
    ensures { result ≡ is_digit byte }
{
    matches!(byte, b'0'..=b'9')
}

#[tactic(auto, unfolding(glsl_tree::specs::Characters::is_octal_digit))]
pub fn is_octal_digit(byte: u8) -> bool
    ensures { result ≡ is_octal_digit byte }
{
    matches!(byte, b'0'..=b'7')
}

#[tactic(auto, unfolding(glsl_tree::specs::Characters::is_hexadecimal_digit))]
pub fn is_hexadecimal_digit(byte: u8) -> bool
    ensures { result ≡ is_hexadecimal_digit byte }
{
    is_digit(byte) || matches!(byte, b'a'..=b'f' | b'A'..=b'F')
}

pub fn is_name_character(byte: u8) -> bool
    ensures { result ≡ is_name_character byte }
{
    is_letter(byte) || is_digit(byte)
}

#[tactic(auto, unfolding(glsl_tree::specs::Characters::is_blank))]
pub fn is_blank(byte: u8) -> bool
    ensures { result ≡ is_blank byte }
{
    matches!(byte, b' ' | b'\t' | 0x0b | 0x0c)
}

#[tactic(auto, unfolding(glsl_tree::specs::Characters::is_line_break))]
pub fn is_line_break(byte: u8) -> bool
    ensures { result ≡ is_line_break byte }
{
    matches!(byte, b'\n' | b'\r')
}

#[tactic(auto, unfolding(glsl_tree::specs::Characters::is_mark))]
pub fn is_mark(byte: u8) -> bool
    ensures { result ≡ is_mark byte }
{
    is_among(b".+-/*%<>[](){}^|&~=!:;,?#", byte)
}

#[tactic(auto, unfolding(glsl_tree::specs::Characters::is_character))]
pub fn is_character(byte: u8) -> bool
    ensures { result ≡ is_character byte }
{
    is_letter(byte) || is_digit(byte) || is_mark(byte) || is_blank(byte) || is_line_break(byte)
}
