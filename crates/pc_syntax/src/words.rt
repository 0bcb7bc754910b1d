//! Words: names, numerals, texts and comments (ISO 7185, 6.1).

ghost use Rattle.std.specs.Prelude.{◌≡◌, ◌∷◌, []};
ghost use Rattle.pc_syntax.specs.Words as words;

use crate::bytes::{
    are_digits, are_name_bytes, is_letter, is_spelled, is_text_byte, lower, value_of,
};

/// Whether the word is a key word, in any case.
#[tactic(auto, unfolding(crate::specs::Words::is_key_word))]
pub fn is_key_word(word: &[u8]) -> bool
    ensures { result ≡ words.is_key_word word.now }
{
    let [first, ..] = word else {
        return false;
    };
    match lower(*first) {
        b'a' => is_one_of(word, b"and", b"array", b""),
        b'b' => is_spelled(word, b"begin"),
        b'c' => is_one_of(word, b"case", b"const", b""),
        b'd' => is_one_of(word, b"div", b"do", b"downto"),
        b'e' => is_one_of(word, b"else", b"end", b""),
        b'f' => is_one_of(word, b"file", b"for", b"function"),
        b'g' => is_spelled(word, b"goto"),
        b'i' => is_one_of(word, b"if", b"in", b""),
        b'l' => is_spelled(word, b"label"),
        b'm' => is_spelled(word, b"mod"),
        b'n' => is_one_of(word, b"nil", b"not", b""),
        b'o' => is_one_of(word, b"of", b"or", b""),
        b'p' => is_one_of(word, b"packed", b"procedure", b"program"),
        b'r' => is_one_of(word, b"record", b"repeat", b""),
        b's' => is_spelled(word, b"set"),
        b't' => is_one_of(word, b"then", b"to", b"type"),
        b'u' => is_spelled(word, b"until"),
        b'v' => is_spelled(word, b"var"),
        b'w' => is_one_of(word, b"while", b"with", b""),
        _ => false,
    }
}

/// Whether the word is one of these, in any case.
fn is_one_of(word: &[u8], a: &[u8], b: &[u8], c: &[u8]) -> bool
    ensures { result ≡ words.is_among (a.now ∷ b.now ∷ c.now ∷ []) (words.lowered word.now) }
{
    is_spelled(word, a) || is_spelled(word, b) || is_spelled(word, c)
}

/// Whether the word is a name: a letter, then letters, digits and `_`, and no key word.
#[tactic(auto, unfolding(crate::specs::Words::is_identifier))]
pub fn is_identifier(word: &[u8]) -> bool
    ensures { result ≡ words.is_identifier word.now }
{
    has_name_form(word) && !is_key_word(word)
}

/// Whether the word is a letter, and then letters, digits and `_`.
pub fn has_name_form(word: &[u8]) -> bool
    ensures { result ≡ words.is_name_form word.now }
{
    match word {
        [first, rest @ ..] => is_letter(*first) && are_name_bytes(rest),
        [] => false,
    }
}

/// Whether the word is `forward`, in any case.
#[tactic(auto, unfolding(crate::specs::Words::is_forward))]
pub fn is_forward(word: &[u8]) -> bool
    ensures { result ≡ words.is_forward word.now }
{
    is_spelled(word, b"forward")
}

/// Whether the word is a row of digits that stands for a number not over 2^128 - 1.
#[tactic(auto, unfolding(crate::specs::Words::is_numeral))]
pub fn is_numeral(word: &[u8]) -> bool
    ensures { result ≡ words.is_numeral word.now }
{
    !word.is_empty() && are_digits(word) && value_of(word).is_some()
}

/// Whether the word is a text: one byte or more between apostrophes, each apostrophe in it doubled.
#[tactic(auto, unfolding(crate::specs::Words::is_text))]
pub fn is_text(word: &[u8]) -> bool
    ensures { result ≡ words.is_text word.now }
{
    match word {
        [first, rest @ ..] => *first == 39 && 2 <= rest.len() && ends_text(rest),
        [] => false,
    }
}

/// Whether this is the rest of a text after its opening apostrophe.
fn ends_text(bytes: &[u8]) -> bool
    ensures { result ≡ words.ends_text bytes.now }
{
    let mut rest = bytes;
    while let [byte, next, tail @ ..] = rest {
        if *byte == 39 {
            if *next != 39 {
                return false;
            }
            rest = tail;
        } else {
            if !is_text_byte(*byte) {
                return false;
            }
            rest = &rest[1..];
        }
    }
    matches!(rest, [39])
}

/// Whether the word is one comment with its delimiters.
#[tactic(auto, unfolding(crate::specs::Words::is_comment))]
pub fn is_comment(word: &[u8]) -> bool
    ensures { result ≡ words.is_comment word.now }
{
    match word {
        [123, rest @ ..] => ends_comment(rest),
        [40, 42, rest @ ..] => ends_comment(rest),
        _ => false,
    }
}

/// Whether this is the rest of a comment after its opening mark: the first closing mark ends it.
fn ends_comment(bytes: &[u8]) -> bool
    ensures { result ≡ words.ends_comment bytes.now }
{
    let mut rest = bytes;
    while let [byte, next, _, ..] = rest {
        if *byte == 125 || (*byte == 42 && *next == 41) {
            return false;
        }
        rest = &rest[1..];
    }
    match rest {
        [byte, next] => *byte != 125 && (*next == 125 || (*byte == 42 && *next == 41)),
        [byte] => *byte == 125,
        _ => false,
    }
}
