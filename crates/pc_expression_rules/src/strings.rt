//! The values of texts.

ghost use Rattle.std.specs.Prelude.{◌≡◌, ◌++◌, length, pos, [], ◌∷◌, IfOk, OnOk, OnErr};
ghost use Rattle.pc_types.specs.Shapes.{CharType, TextType};
ghost use Rattle.pc_types.specs.Rows.{seen};
ghost use Rattle.pc_rules.specs.Constants.{text_value};
ghost use Rattle.pc_rules.specs.Meanings as rules;
ghost use Rattle.pc_facts.specs.Known.{Known};
ghost use Rattle.pc_facts.specs.Shows.{ShowsValue};
ghost use Rattle.pc_expression_rules.specs.Texts.{only, kept_text};

use crate::primaries::u32_of;
use pc_facts::{Constant, TextId, Value};
use pc_syntax::Word;
use pc_types::{Operand, Types};
use std::alloc::AllocError;

/// The value of a text with these characters: a char where it is one, and else a string, whose characters become the last ones of the
/// table. Fails for want of memory, and where a number is 2^32 or more, and then the table is as it was.
pub fn text_constant(
    types: &Types,
    texts: &mut Vec<Word>,
    chars: Vec<u8>,
) -> Result<Value, AllocError>
    ensures shown { IfOk result (λ v. (k : Known) → k.table ≡ seen types.now → k.texts ≡ texts.new.items → ShowsValue k v (text_value chars.items)) }
    ensures kept { OnOk result (texts.new.items ≡ texts.old.items ++ kept_text chars.items) }
    ensures failure { OnErr result (texts.new.items ≡ texts.old.items) }
{
    match only_character(chars.as_slice()) {
        Some(character) => Ok(character_value(types, character)),
        None => Ok(keep_text(texts, chars)?),
    }
}

/// The character of a text that has one.
fn only_character(chars: &[u8]) -> Option<u8>
    ensures { result ≡ only chars.now }
{
    match chars {
        [character] => Some(*character),
        _ => None,
    }
}

/// The value of a character.
fn character_value(types: &Types, character: u8) -> Value
    ensures { (k : Known) → k.table ≡ seen types.now → ShowsValue k result (record { type = CharType; constant = rules.Ordinal (pos character) }) }
{
    Value {
        of: types.char_type(),
        constant: Constant::Ordinal(i64::from(character)),
    }
}

/// The value of a string, whose characters become the last ones of the table.
fn keep_text(texts: &mut Vec<Word>, chars: Vec<u8>) -> Result<Value, AllocError>
    ensures shown { IfOk result (λ v. (k : Known) → k.texts ≡ texts.new.items → ShowsValue k v (record { type = TextType (length chars.items); constant = rules.Chars chars.items })) }
    ensures kept { OnOk result (texts.new.items ≡ texts.old.items ++ chars.items ∷ []) }
    ensures failure { OnErr result (texts.new.items ≡ texts.old.items) }
{
    let of = Operand::Text(u32_of(chars.len())?);
    let constant = Constant::Chars(TextId(u32_of(texts.len())?));
    texts.push(Word::from_vec(chars))?;
    Ok(Value { of, constant })
}
