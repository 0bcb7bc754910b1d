//! Numerals and texts as constants (ISO 7185, 6.3).

ghost use Rattle.std.specs.Prelude.{◌≡◌, ◌++◌, List, ℕ, IfOk, OnOk, OnErr};
ghost use Rattle.pc_syntax.specs.declared.kind.Kind.TheVariants as kind;
ghost use Rattle.pc_types.specs.Rows.{seen};
ghost use Rattle.pc_rules.specs.Constants as rule;
ghost use Rattle.pc_rules.specs.Decorated.{with_kind};
ghost use Rattle.pc_facts.specs.Known.{Known};
ghost use Rattle.pc_facts.specs.Shows.{ShowsNode};
ghost use Rattle.pc_expression_rules.specs.Texts.{kept_text};

use crate::characters::characters_of;
use crate::constant_facts::constant_node;
use crate::numerals::{is_too_large, numeral_value};
use crate::strings::text_constant;
use pc_facts::{Facts, add_note_if};
use pc_syntax::{Kind, Word};
use pc_types::Types;
use std::alloc::{AllocError, Global};

/// A numeral; row 5 where it is over maxint. Only memory can fail.
pub fn number_constant(alloc: Global, types: &Types, word: &[u8]) -> Result<Facts, AllocError>
    ensures { IfOk result (λ f. (k : Known) (w : List ℕ) → k.table ≡ seen types.now → ShowsNode k f (with_kind kind.Cnumber w (rule.number_rule word.now))) }
{
    let value = numeral_value(types, word);
    let mut entries = Vec::new(alloc);
    add_note_if(
        alloc,
        &mut entries,
        is_too_large(word),
        5,
        b"number too large",
        b"",
    )?;
    Ok(constant_node(alloc, Kind::Cnumber, false, entries, Some(value)))
}

/// A text: a char where it has one character, and else a string, whose characters become the last ones of the table. Fails for want of
/// memory, and where a number is 2^32 or more, and then the table is as it was.
pub fn string_constant(
    alloc: Global,
    types: &Types,
    texts: &mut Vec<Word>,
    word: &[u8],
) -> Result<Facts, AllocError>
    ensures shown { IfOk result (λ f. (k : Known) (w : List ℕ) → k.table ≡ seen types.now → k.texts ≡ texts.new.items → ShowsNode k f (with_kind kind.Cstring w (rule.string_rule word.now))) }
    ensures kept { OnOk result (texts.new.items ≡ texts.old.items ++ kept_text (rule.characters word.now)) }
    ensures failure { OnErr result (texts.new.items ≡ texts.old.items) }
{
    let chars = characters_of(alloc, word)?;
    let value = text_constant(types, texts, chars)?;
    Ok(constant_node(alloc, Kind::Cstring, false, Vec::new(alloc), Some(value)))
}
