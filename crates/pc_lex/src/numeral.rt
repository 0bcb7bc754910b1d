//! Unsigned numbers (ISO 7185, 6.1.5).

ghost use Rattle.std.specs.Prelude.{◌≡◌, ◌≤◌, ◌<◌, ◌+◌, ◌-◌, ◌*◌, ◌^◌, length, nat_le, MatchOption};
ghost use Rattle.pc_syntax.specs.Words as words;
ghost use Rattle.pc_lex.specs.Numerals.{numeral_at};
ghost use Rattle.pc_lex.specs.Runs.{run};

use crate::byte::is_digit;
use crate::error::LexError;
use crate::front::Front;
use crate::symbol::SymbolKind;

/// The numeral at the beginning of the text: all the digits there.
#[tactic(auto, unfolding(crate::specs::Numerals::numeral_at))]
pub fn read_numeral(text: &[u8]) -> Front
    ensures { result ≡ numeral_at text.now }
{
    let len = count_digits(text);
    if is_within_limit(&text[..len]) {
        Front::Symbol(SymbolKind::Numeral, len)
    } else {
        Front::Fault(LexError::LongNumeral(1))
    }
}

#[tactic(auto, using(crate::proofs::Scanning::run_on, crate::proofs::Scanning::run_off, crate::proofs::Scanning::run_end))]
fn count_digits(text: &[u8]) -> usize
    ensures count { result ≡ run words.is_digit text.now }
    ensures within { result ≤ length text.now }
{
    for (i, b) in text.iter().enumerate() {
        if !is_digit(*b) {
            return i;
        }
    }
    text.len()
}

/// Whether the digits stand for a number not over 2^128 - 1.
#[tactic(auto, using(crate::proofs::Scanning::value_on, crate::proofs::Scanning::value_within, crate::proofs::Scanning::value_over))]
fn is_within_limit(digits: &[u8]) -> bool
    ensures { result ≡ nat_le (words.value_after 0 digits.now) words.numeral_limit }
{
    let mut value: u128 = 0;
    for b in digits {
        match with_digit(value, *b) {
            Some(more) => value = more,
            None => return false,
        }
    }
    true
}

/// The number with a digit after it, where it is not over 2^128 - 1.
fn with_digit(value: u128, digit: u8) -> Option<u128>
    ensures { MatchOption result (2 ^ 128 - 1 < value * 10 + (digit - 48)) (λ more. (more ≡ value * 10 + (digit - 48)) × (more < 2 ^ 128)) }
{
    value
        .checked_mul(10)?
        .checked_add(digit.saturating_sub(b'0') as u128)
}
