//! Expressions without parts: numerals, texts, `nil`, and holes (ISO 7185, 6.7.1).

ghost use Rattle.std.specs.Prelude.{◌≡◌, List, ℕ, [], IfOk};
ghost use Rattle.pc_syntax.specs.declared.kind.Kind.TheVariants as kind;
ghost use Rattle.pc_types.specs.Shapes.{NilType};
ghost use Rattle.pc_types.specs.Table.{shape_at, IsThere};
ghost use Rattle.pc_types.specs.Rows.{seen};
ghost use Rattle.pc_rules.specs.Constants.{text_value};
ghost use Rattle.pc_rules.specs.Operators.{number_expression, text_expression, constant_expression};
ghost use Rattle.pc_rules.specs.Decorated.{with_kind, hole_rule};
ghost use Rattle.pc_facts.specs.Known.{Known};
ghost use Rattle.pc_facts.specs.Shows.{ShowsNode};

use crate::characters::characters_of;
use crate::numerals::is_too_large;
use pc_facts::{Facts, Judged, Judgement, add_note_if};
use pc_syntax::{Kind, Sort};
use pc_types::{Operand, Types};
use std::alloc::{AllocError, Global};

/// A numeral; row 5 where it is over maxint. Only memory can fail.
pub fn number(alloc: Global, types: &Types, word: &[u8]) -> Result<Facts, AllocError>
    ensures { IfOk result (λ f. (k : Known) (w : List ℕ) → k.table ≡ seen types.now → ShowsNode k f (with_kind kind.Number w (number_expression word.now))) }
{
    let mut entries = Vec::new(alloc);
    add_note_if(
        alloc,
        &mut entries,
        is_too_large(word),
        5,
        b"number too large",
        b"",
    )?;
    Ok(Facts::expression(Kind::Number, false, entries, Some(types.integer())))
}

/// A text: a char where it has one character, and else a string. Fails for want of memory, and where it has 2^32 characters or more.
pub fn text(alloc: Global, types: &Types, word: &[u8]) -> Result<Facts, AllocError>
    ensures { IfOk result (λ f. (k : Known) (w : List ℕ) → k.table ≡ seen types.now → ShowsNode k f (with_kind kind.Text w (text_expression word.now))) }
{
    let chars = characters_of(alloc, word)?;
    let of = text_type(types, chars.as_slice())?;
    Ok(Facts::expression(Kind::Text, false, Vec::new(alloc), Some(of)))
}

/// The type of a text with these characters.
pub fn text_type(types: &Types, chars: &[u8]) -> Result<Operand, AllocError>
    ensures shape { IfOk result (λ of. shape_at (seen types.now) of ≡ (text_value chars.now).type) }
    ensures there { IfOk result (IsThere (seen types.now)) }
{
    match chars {
        [_] => Ok(types.char_type()),
        _ => Ok(Operand::Text(u32_of(chars.len())?)),
    }
}

/// The number as one of 32 bits, or no memory where there is none.
pub fn u32_of(number: usize) -> Result<u32, AllocError>
    ensures { IfOk result (λ n. n ≡ number) }
{
    u32::try_from(number).map_err(|_| AllocError)
}

/// `nil`.
pub fn nil(alloc: Global, types: &Types) -> Facts
    ensures { (k : Known) (w : List ℕ) → k.table ≡ seen types.now → ShowsNode k result (with_kind kind.Nil w (constant_expression [] NilType)) }
{
    Facts::expression(Kind::Nil, false, Vec::new(alloc), Some(types.nil()))
}

/// A hole of this sort.
pub fn hole(alloc: Global, sort: Sort) -> Facts
    ensures { (k : Known) (w : List ℕ) → ShowsNode k result (with_kind (kind.Hole sort) w hole_rule) }
{
    Facts::judged(
        Kind::Hole(sort),
        true,
        Judgement::Same(Judged::nothing(alloc)),
    )
}
