//! Classes of bytes.

ghost use Rattle.std.specs.Prelude.{◌≡◌, nat_le};
ghost use Rattle.std.specs.List.{list_all};
ghost use Rattle.std.specs.Str.{bytes_eq};
ghost use Rattle.pc_syntax.specs.Words as words;

pub fn is_letter(byte: u8) -> bool
    ensures { result ≡ words.is_letter byte }
{
    (65 <= byte && byte <= 90) || (97 <= byte && byte <= 122)
}

pub fn is_digit(byte: u8) -> bool
    ensures { result ≡ words.is_digit byte }
{
    48 <= byte && byte <= 57
}

pub fn is_name_byte(byte: u8) -> bool
    ensures { result ≡ words.is_name_byte byte }
{
    is_letter(byte) || is_digit(byte) || byte == 95
}

pub fn is_text_byte(byte: u8) -> bool
    ensures { result ≡ words.is_text_byte byte }
{
    byte == 9 || (32 <= byte && byte <= 126)
}

/// The small letter of a capital one, and else the byte.
pub fn lower(byte: u8) -> u8
    ensures { result ≡ words.lower byte }
{
    if 65 <= byte && byte <= 90 {
        byte + 32
    } else {
        byte
    }
}

pub fn are_digits(bytes: &[u8]) -> bool
    ensures { result ≡ list_all words.is_digit bytes.now }
{
    let mut rest = bytes;
    while let [byte, tail @ ..] = rest {
        if !is_digit(*byte) {
            return false;
        }
        rest = tail;
    }
    true
}

pub fn are_name_bytes(bytes: &[u8]) -> bool
    ensures { result ≡ list_all words.is_name_byte bytes.now }
{
    let mut rest = bytes;
    while let [byte, tail @ ..] = rest {
        if !is_name_byte(*byte) {
            return false;
        }
        rest = tail;
    }
    true
}

/// Whether the word is this one, written in small letters, in any case.
pub fn is_spelled(word: &[u8], small: &[u8]) -> bool
    ensures { result ≡ bytes_eq small.now (words.lowered word.now) }
{
    let mut rest = word;
    let mut wanted = small;
    while let ([byte, tail @ ..], [letter, letters @ ..]) = (rest, wanted) {
        if lower(*byte) != *letter {
            return false;
        }
        rest = tail;
        wanted = letters;
    }
    rest.is_empty() && wanted.is_empty()
}

/// The number that the digits stand for, or none where it is over 2^128 - 1.
pub fn value_of(digits: &[u8]) -> Option<u128>
    ensures { result ≡ words.numeral_value digits.now }
{
    let mut value: u128 = 0;
    let mut rest = digits;
    while let [digit, tail @ ..] = rest {
        let tens = value.checked_mul(10)?;
        value = tens.checked_add(u128::from(digit.saturating_sub(48)))?;
        rest = tail;
    }
    Some(value)
}
