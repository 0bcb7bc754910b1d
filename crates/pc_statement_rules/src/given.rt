//! The values that the labels of a case statement have given so far (ISO 7185, 6.8.3.5).

ghost use Rattle.std.specs.HashMap.{get};
ghost use Rattle.std.specs.Ordering.{int_eq};
ghost use Rattle.std.specs.Prelude.{ℤ, false, option_map, if◌then◌else◌, ◌≡◌, ◌++◌, ◌∷◌, ◌&&◌, [], List, get_or, IfOk, OnOk};
ghost use Rattle.pc_types.specs.Rows.{seen};
ghost use Rattle.pc_types.specs.Table.{shape_at};
ghost use Rattle.pc_rules.specs.CaseStatements as rules;
ghost use Rattle.pc_rules.specs.Meanings.{Value as Labelled};
ghost use Rattle.pc_facts.specs.Known.{Known};
ghost use Rattle.pc_facts.specs.Shows.{ShowsValue};
ghost use Rattle.pc_statement_rules.specs.Given.{ShowsGiven, types_at, types_of, types_with, is_type_among, is_one_type, same_constant_at, same_value_at, is_given_at};

use pc_facts::{Constant, TextId, Value, both, either};
use pc_syntax::Word;
use pc_types::{Operand, Types};
use std::alloc::{AllocError, Global};
use std::collections::HashMap;

/// The values so far: of each ordinal the types with which it was given, no two of which count as one; and the texts.
#[derive(Drop)]
pub(crate) struct Given {
    alloc: Global,
    ordinals: HashMap<i64, Vec<Operand>>,
    texts: Vec<Value>,
}

impl Given {
    /// None so far.
    pub(crate) fn new(alloc: Global) -> Given
        ensures { (k : Known) → ShowsGiven k result [] }
    {
        Given {
            alloc,
            ordinals: HashMap::new(alloc),
            texts: Vec::new(alloc),
        }
    }

    /// One more value: whether it was given before. Only memory can fail.
    pub(crate) fn put(
        &mut self,
        types: &Types,
        texts: &[Word],
        value: Value,
    ) -> Result<bool, AllocError>
        ensures given { IfOk result (λ twice. (k : Known) (vs : List Labelled) (v : Labelled) → k.table ≡ seen types.now → k.texts ≡ texts.now → ShowsGiven k self.old vs → ShowsValue k value v → twice ≡ rules.is_given vs v) }
        ensures values { OnOk result ((k : Known) (vs : List Labelled) (v : Labelled) → k.table ≡ seen types.now → k.texts ≡ texts.now → ShowsGiven k self.old vs → ShowsValue k value v → ShowsGiven k self.new (vs ++ v ∷ [])) }
    {
        match value.constant {
            Constant::Ordinal(i) => Ok(self.put_ordinal(types, i, value.of)?),
            Constant::Chars(_) => Ok(self.put_text(types, texts, value)?),
        }
    }

    fn put_ordinal(&mut self, types: &Types, i: i64, of: Operand) -> Result<bool, AllocError>
        ensures twice { IfOk result (λ twice. twice ≡ is_type_among (seen types.now) (types_of self.old i) (shape_at (seen types.now) of)) }
        ensures put { IfOk result (λ twice. (j : ℤ) → types_of self.new j ≡ (if int_eq i j then types_with twice (types_of self.old i) of else types_of self.old j)) }
        ensures texts { self.new.texts ≡ self.old.texts }
    {
        let mut known = taken(self.alloc, &mut self.ordinals, i);
        let twice = is_type_among(types, known.as_slice(), of);
        add_unless(twice, &mut known, of)?;
        self.ordinals.insert(i, known)?;
        Ok(twice)
    }

    fn put_text(&mut self, types: &Types, texts: &[Word], value: Value) -> Result<bool, AllocError>
        ensures twice { IfOk result (λ twice. twice ≡ is_given_at (seen types.now) texts.now self.old.texts.items value) }
        ensures put { OnOk result (self.new.texts.items ≡ self.old.texts.items ++ value ∷ []) }
        ensures ordinals { self.new.ordinals ≡ self.old.ordinals }
    {
        let twice = is_given(types, texts, self.texts.as_slice(), value);
        self.texts.push(value)?;
        Ok(twice)
    }
}

/// Takes out the types with which an ordinal was given.
fn taken(alloc: Global, ordinals: &mut HashMap<i64, Vec<Operand>>, i: i64) -> Vec<Operand>
    ensures taken { result.items ≡ types_at (option_map (λ v. v.items) (get int_eq ordinals.old i)) }
    ensures others { (j : ℤ) → int_eq i j ≡ false → get int_eq ordinals.new j ≡ get int_eq ordinals.old j }
{
    match ordinals.remove(&i) {
        Some(known) => known,
        None => Vec::new(alloc),
    }
}

/// One more type, unless a condition holds.
fn add_unless(is_so: bool, known: &mut Vec<Operand>, of: Operand) -> Result<(), AllocError>
    ensures { OnOk result (known.new.items ≡ types_with is_so known.old.items of) }
{
    if !is_so {
        known.push(of)?;
    }
    Ok(())
}

/// Whether one of these types counts as one with another.
fn is_type_among(types: &Types, known: &[Operand], of: Operand) -> bool
    ensures { result ≡ is_type_among (seen types.now) known.now (shape_at (seen types.now) of) }
{
    let mut rest = known;
    while let [first, tail @ ..] = rest {
        if is_one_type(types, *first, of) {
            return true;
        }
        rest = tail;
    }
    false
}

/// Whether a value is among these.
fn is_given(types: &Types, texts: &[Word], values: &[Value], value: Value) -> bool
    ensures { result ≡ is_given_at (seen types.now) texts.now values.now value }
{
    let mut rest = values;
    while let [first, tail @ ..] = rest {
        if same_value(types, texts, *first, value) {
            return true;
        }
        rest = tail;
    }
    false
}

/// Whether two values are equal, by their types too.
fn same_value(types: &Types, texts: &[Word], one: Value, other: Value) -> bool
    ensures { result ≡ same_value_at (seen types.now) texts.now one other }
{
    both(
        is_one_type(types, one.of, other.of),
        same_constant(texts, one.constant, other.constant),
    )
}

/// Whether two types count as one for equal constants: all texts do.
fn is_one_type(types: &Types, one: Operand, other: Operand) -> bool
    ensures { result ≡ is_one_type (shape_at (seen types.now) one) (shape_at (seen types.now) other) }
{
    either(
        both(is_text_type(types, one), is_text_type(types, other)),
        types.same(one, other),
    )
}

/// Whether a type is that of a text of more than one character: no other type has no class.
#[tactic(auto, using(crate::proofs::RecordLaws::texts))]
fn is_text_type(types: &Types, of: Operand) -> bool
    ensures { result ≡ rules.is_text_type (shape_at (seen types.now) of) }
{
    !types.is_ordinal(of)
        && !types.is_set(of)
        && !types.is_pointer(of)
        && !types.is_array(of)
        && !types.is_record(of)
}

/// Whether two constants are equal.
fn same_constant(texts: &[Word], one: Constant, other: Constant) -> bool
    ensures { result ≡ same_constant_at texts.now one other }
{
    match (one, other) {
        (Constant::Ordinal(i), Constant::Ordinal(j)) => i == j,
        (Constant::Chars(c), Constant::Chars(d)) => characters(texts, c) == characters(texts, d),
        _ => false,
    }
}

/// The characters of a string by its number.
fn characters(texts: &[Word], id: TextId) -> &[u8]
    ensures { result.now ≡ get_or texts.now id.0 [] }
{
    match texts.get(id.0 as usize) {
        Some(text) => text.bytes(),
        None => &[],
    }
}
