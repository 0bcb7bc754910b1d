//! Numerals (ISO 7185, 6.1.5).

ghost use Rattle.std.specs.Prelude.{◌≡◌, false, pos};
ghost use Rattle.pc_syntax.specs.Words.{value_after};
ghost use Rattle.pc_types.specs.Shapes.{IntegerType};
ghost use Rattle.pc_types.specs.Rows.{seen};
ghost use Rattle.pc_rules.specs.Constants as constants;
ghost use Rattle.pc_rules.specs.Meanings as rules;
ghost use Rattle.pc_facts.specs.Known.{Known};
ghost use Rattle.pc_facts.specs.Shows.{ShowsValue};

use pc_facts::{Constant, Value};
use pc_syntax::value_of;
use pc_types::Types;

/// Whether a numeral is over maxint.
#[tactic(auto, unfolding(pc_types::specs::TypeClasses::largest_number, pc_syntax::specs::Words::numeral_limit))]
pub fn is_too_large(word: &[u8]) -> bool
    ensures { result ≡ constants.too_large_number word.now }
{
    match value_of(word) {
        Some(value) => value > 9_223_372_036_854_775_807,
        None => true,
    }
}

/// The value of a numeral that isn't over maxint.
pub fn numeral_value(types: &Types, word: &[u8]) -> Value
    ensures { (k : Known) → k.table ≡ seen types.now → constants.too_large_number word.now ≡ false → ShowsValue k result (record { type = IntegerType; constant = rules.Ordinal (pos (value_after 0 word.now)) }) }
{
    Value {
        of: types.integer(),
        constant: Constant::Ordinal(ordinal_of(word)),
    }
}

/// The number that a numeral stands for; 0 where it is over maxint.
#[tactic(auto, unfolding(pc_types::specs::TypeClasses::largest_number, pc_syntax::specs::Words::numeral_limit))]
fn ordinal_of(word: &[u8]) -> i64
    ensures { constants.too_large_number word.now ≡ false → result ≡ pos (value_after 0 word.now) }
{
    match value_of(word) {
        Some(value) => {
            if value <= 9_223_372_036_854_775_807 {
                value as i64
            } else {
                0
            }
        }
        None => 0,
    }
}
