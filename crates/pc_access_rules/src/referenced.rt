//! Names alone, as variables and values (ISO 7185, 6.5.1, 6.5.2, 6.7.1, 6.8.2.2).

ghost use Rattle.std.specs.Prelude.{◌≡◌, ◌++◌, if◌then◌else◌, List, ℕ, [], IfOk};
ghost use Rattle.pc_syntax.specs.Sorts.{is_hole};
ghost use Rattle.pc_types.specs.Rows.{seen};
ghost use Rattle.pc_names.specs.Numbers.{AreDistinct};
ghost use Rattle.pc_rules.specs.Attributes.{Node, at_kid, judged};
ghost use Rattle.pc_rules.specs.Entries.{wrong_number};
ghost use Rattle.pc_rules.specs.Meanings.{Local};
ghost use Rattle.pc_rules.specs.Variables as rule;
ghost use Rattle.pc_rules.specs.Decorated.{with_kind};
ghost use Rattle.pc_syntax.specs.declared.kind.Kind.TheVariants as kind;
ghost use Rattle.pc_facts.specs.Known.{Known};
ghost use Rattle.pc_facts.specs.Shows.{ShowsNode, ShowsName, ShowsJudged};
ghost use Rattle.pc_access_rules.specs.Selves.{ShowsSelf};

use crate::meanings::{
    is_packed_component, is_self, lacks_arguments, value_type, variable_of, variable_type,
};
use pc_facts::{Facts, Judged, Judgement, Named, Signature, Variable, add_kid, add_note_if};
use pc_name_rules::{add_value_entries, add_variable_entries};
use pc_syntax::Kind;
use pc_types::Types;
use std::alloc::{AllocError, Global};

/// A name alone, as a variable or a value, given as written, with what it means, the function whose block it is in, if it is in one,
/// and the signatures by their numbers. Rows 1, 2, 4 and 12. Only memory can fail.
pub fn reference(
    alloc: Global,
    types: &Types,
    word: &[u8],
    named: Named,
    self_function: Option<Variable>,
    signatures: &[Signature],
) -> Result<Facts, AllocError>
    ensures { IfOk result (λ f. (k : Known) (w : List ℕ) (l : Local) (name : Node) → k.table ≡ seen types.now → k.signatures ≡ signatures.now → AreDistinct k.names → ShowsSelf k self_function l.self → ShowsName k named name.at → name.at.word ≡ word.now → ShowsNode k f (with_kind kind.Ref w (rule.reference_rule l name))) }
{
    let value = value_judged(alloc, types, word, named, signatures)?;
    let place = variable_judged(alloc, word, named)?;
    let target = target_judged(alloc, types, word, named, self_function, signatures)?;
    Ok(Facts {
        kind: Kind::Ref,
        hole: named.hole,
        judgement: Judgement::ByUse(value, place, target),
        constant: None,
        variable: variable_of(named.sighting),
        packed_part: is_packed_component(named.sighting),
    })
}

/// The name where a value is needed.
fn value_judged(
    alloc: Global,
    types: &Types,
    word: &[u8],
    named: Named,
    signatures: &[Signature],
) -> Result<Judged, AllocError>
    ensures { IfOk result (λ j. (k : Known) (name : Node) → k.table ≡ seen types.now → k.signatures ≡ signatures.now → ShowsName k named name.at → name.at.word ≡ word.now → ShowsJudged k.table j (judged (is_hole name.kind) (at_kid 1 (rule.value_entries name) ++ (if rule.lacks_arguments name.found then wrong_number else [])) (rule.value_type name.found))) }
{
    let of = value_type(types, named.sighting, signatures);
    let mut own = Vec::new(alloc);
    add_value_entries(alloc, &mut own, word, named)?;
    let mut entries = Vec::new(alloc);
    add_kid(&mut entries, 1, own)?;
    add_note_if(
        alloc,
        &mut entries,
        lacks_arguments(named.sighting, signatures),
        12,
        b"wrong number of arguments",
        b"",
    )?;
    Ok(Judged::of_parts(named.hole, entries, of))
}

/// The name where a variable is needed.
fn variable_judged(alloc: Global, word: &[u8], named: Named) -> Result<Judged, AllocError>
    ensures { IfOk result (λ j. (k : Known) (name : Node) → ShowsName k named name.at → name.at.word ≡ word.now → ShowsJudged k.table j (rule.variable_judged name)) }
{
    let of = variable_type(named.sighting);
    let mut own = Vec::new(alloc);
    add_variable_entries(alloc, &mut own, word, named)?;
    let mut entries = Vec::new(alloc);
    add_kid(&mut entries, 1, own)?;
    Ok(Judged::of_parts(named.hole, entries, of))
}

/// The name as the target of an assignment: a variable, or the function whose block this is.
fn target_judged(
    alloc: Global,
    types: &Types,
    word: &[u8],
    named: Named,
    self_function: Option<Variable>,
    signatures: &[Signature],
) -> Result<Judged, AllocError>
    ensures { IfOk result (λ j. (k : Known) (l : Local) (name : Node) → k.table ≡ seen types.now → k.signatures ≡ signatures.now → AreDistinct k.names → ShowsSelf k self_function l.self → ShowsName k named name.at → name.at.word ≡ word.now → ShowsJudged k.table j (rule.target_judged l name)) }
{
    if is_self(types, self_function, named.sighting) {
        let of = value_type(types, named.sighting, signatures);
        Ok(Judged::of_parts(false, Vec::new(alloc), of))
    } else {
        Ok(variable_judged(alloc, word, named)?)
    }
}
