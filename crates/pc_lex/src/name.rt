//! Names and key words (ISO 7185, 6.1.2 and 6.1.3).

ghost use Rattle.std.specs.Prelude.{◌≡◌, ◌≤◌, ◌<◌, ◌∷◌, [], length};
ghost use Rattle.std.specs.Str.{bytes_eq};
ghost use Rattle.pc_syntax.specs.Words as words;
ghost use Rattle.pc_syntax.specs.Spellings.{key_words};
ghost use Rattle.pc_lex.specs.Names.{name_at, kind_of_word, row_from};
ghost use Rattle.pc_lex.specs.Runs.{run};

use crate::byte::{is_name_byte, lower};
use crate::front::Front;
use crate::symbol::SymbolKind;

/// The name or key word at the beginning of the text: all the letters, digits and `_` there.
#[tactic(auto, unfolding(crate::specs::Names::name_at))]
pub fn read_name(text: &[u8]) -> Front
    ensures { result ≡ name_at text.now }
{
    let len = count_name_bytes(text);
    Front::Symbol(kind_of(&text[..len]), len)
}

#[tactic(auto, using(crate::proofs::Scanning::run_on, crate::proofs::Scanning::run_off, crate::proofs::Scanning::run_end))]
fn count_name_bytes(text: &[u8]) -> usize
    ensures count { result ≡ run words.is_name_byte text.now }
    ensures within { result ≤ length text.now }
{
    for (i, b) in text.iter().enumerate() {
        if !is_name_byte(*b) {
            return i;
        }
    }
    text.len()
}

/// Whether the word is a key word, in any case, and which one.
#[tactic(auto, unfolding(crate::specs::Names::kind_of_word))]
fn kind_of(word: &[u8]) -> SymbolKind
    ensures { result ≡ kind_of_word word.now }
{
    match key_row(word) {
        Some(row) => SymbolKind::Key(row),
        None => SymbolKind::Name,
    }
}

/// The row of a key word, in any case.
fn key_row(word: &[u8]) -> Option<u8>
    ensures { result ≡ row_from 1 key_words (words.lowered word.now) }
{
    if word.len() == 0 {
        return None;
    }
    match lower(word[0]) {
        b'a' => row_of(word, 1, b"and", b"array", b""),
        b'b' => row_of(word, 3, b"begin", b"", b""),
        b'c' => row_of(word, 4, b"case", b"const", b""),
        b'd' => row_of(word, 6, b"div", b"do", b"downto"),
        b'e' => row_of(word, 9, b"else", b"end", b""),
        b'f' => row_of(word, 11, b"file", b"for", b"function"),
        b'g' => row_of(word, 14, b"goto", b"", b""),
        b'i' => row_of(word, 15, b"if", b"in", b""),
        b'l' => row_of(word, 17, b"label", b"", b""),
        b'm' => row_of(word, 18, b"mod", b"", b""),
        b'n' => row_of(word, 19, b"nil", b"not", b""),
        b'o' => row_of(word, 21, b"of", b"or", b""),
        b'p' => row_of(word, 23, b"packed", b"procedure", b"program"),
        b'r' => row_of(word, 26, b"record", b"repeat", b""),
        b's' => row_of(word, 28, b"set", b"", b""),
        b't' => row_of(word, 29, b"then", b"to", b"type"),
        b'u' => row_of(word, 32, b"until", b"", b""),
        b'v' => row_of(word, 33, b"var", b"", b""),
        b'w' => row_of(word, 34, b"while", b"with", b""),
        _ => None,
    }
}

/// The row of the word among `a`, `b` and `c`, of which `a` has the row `row`. The word is not empty;
/// where there are fewer than three, the last ones are.
fn row_of(word: &[u8], row: u8, a: &[u8], b: &[u8], c: &[u8]) -> Option<u8>
    requires { row < 100 }
    ensures { result ≡ row_from row (a.now ∷ b.now ∷ c.now ∷ []) (words.lowered word.now) }
{
    if is_spelled(word, a) {
        Some(row)
    } else if is_spelled(word, b) {
        Some(row + 1)
    } else if is_spelled(word, c) {
        Some(row + 2)
    } else {
        None
    }
}

/// Whether the word is this one, written in small letters, in any case.
#[tactic(auto, using(crate::proofs::Scanning::same_on, crate::proofs::Scanning::same_off, crate::proofs::Scanning::same_end, crate::proofs::Scanning::same_length))]
pub fn is_spelled(word: &[u8], small: &[u8]) -> bool
    ensures { result ≡ bytes_eq small.now (words.lowered word.now) }
{
    if word.len() != small.len() {
        return false;
    }
    for i in 0..word.len() {
        if lower(word[i]) != small[i] {
            return false;
        }
    }
    true
}
