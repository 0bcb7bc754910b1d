//! The number of an element, as a word.

ghost use Rattle.std.specs.Prelude.{◌≡◌};
ghost use Rattle.pc_syntax.specs.Paths.{element_number};

use crate::bytes::{are_digits, value_of};

/// The number of an element that the word writes, from 1 to 4294967295, leading zeros allowed. None where the word is no row
/// of digits, or its value is another one.
#[tactic(auto, unfolding(crate::specs::Paths::element_number))]
pub fn element_number(word: &[u8]) -> Option<u32>
    ensures { result ≡ element_number word.now }
{
    if !are_digits(word) {
        return None;
    }
    match value_of(word) {
        Some(0) => None,
        Some(value) => u32::try_from(value).ok(),
        None => None,
    }
}
