//! Classes of bytes, and what follows at a place.

ghost use Rattle.std.specs.Prelude.{◌≡◌, ◌<◌, ◌≤◌, drop, length, IsTrue};
ghost use Rattle.pc_syntax.specs.Words as words;
ghost use Rattle.pc_lex.specs.Comments.{begins_with};
ghost use Rattle.pc_lex.specs.Fronts as fronts;

pub fn is_blank(b: u8) -> bool
    ensures { result ≡ fronts.is_blank b }
{
    b == b' ' || b == b'\n' || b == b'\t' || b == b'\r' || b == 12
}

pub fn is_letter(b: u8) -> bool
    ensures { result ≡ words.is_letter b }
{
    (65 <= b && b <= 90) || (97 <= b && b <= 122)
}

pub fn is_digit(b: u8) -> bool
    ensures { result ≡ words.is_digit b }
{
    48 <= b && b <= 57
}

pub fn is_name_byte(b: u8) -> bool
    ensures { result ≡ words.is_name_byte b }
{
    is_letter(b) || is_digit(b) || b == b'_'
}

pub fn is_text_byte(b: u8) -> bool
    ensures { result ≡ words.is_text_byte b }
{
    b == b'\t' || (32 <= b && b <= 126)
}

/// The small letter of a capital one, and else the byte.
pub fn lower(b: u8) -> u8
    ensures { result ≡ words.lower b }
{
    if 65 <= b && b <= 90 { b + 32 } else { b }
}

/// Whether this byte stands at `at`.
#[tactic(auto, using(crate::proofs::Scanning::begins_here, crate::proofs::Scanning::begins_nowhere))]
pub fn stands_at(text: &[u8], at: usize, byte: u8) -> bool
    ensures is { result ≡ begins_with byte (drop at text.now) }
    ensures inside { IsTrue result → at < length text.now }
{
    at < text.len() && text[at] == byte
}

/// The bytes from a place on.
pub fn rest_of(text: &[u8], at: usize) -> &[u8]
    requires { at ≤ length text.now }
    ensures { result.now ≡ drop at text.now }
{
    &text[at..]
}
