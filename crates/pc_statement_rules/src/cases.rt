//! Case statements (ISO 7185, 6.8.3.5).

ghost use Rattle.std.specs.Prelude.{◌≡◌, ◌++◌, [], List, ℕ, Option, option_map, IfOk, OnOk};
ghost use Rattle.pc_syntax.specs.declared.kind.Kind.TheVariants as kind;
ghost use Rattle.pc_types.specs.Rows.{seen};
ghost use Rattle.pc_types.specs.Shapes.{Shape};
ghost use Rattle.pc_types.specs.Table.{shape_at};
ghost use Rattle.pc_rules.specs.Attributes.{Node, at_kid, kids_below};
ghost use Rattle.pc_rules.specs.CaseStatements.{case_rule, label_entries, labels_entries, arms_entries, given_by, all_given};
ghost use Rattle.pc_rules.specs.Decorated.{with_kind};
ghost use Rattle.pc_rules.specs.Meanings.{Value as Labelled};
ghost use Rattle.pc_facts.specs.Known.{Known};
ghost use Rattle.pc_facts.specs.Shows.{ShowsNode, ShowsValue, ShowsValues, ShowsLabels, AllShow};
ghost use Rattle.pc_statement_rules.specs.Given.{ShowsGiven, ShowsArmLabels, label_differs_at};
ghost use Rattle.pc_statement_rules.specs.Cases.{IsSelected, Gives};

use crate::given::Given;
use crate::kids::{Handing, next};
use crate::own::{disagree, no_ordinal};
use pc_facts::{Arm, Facts, Value, add_kid, add_note_if};
use pc_judgements::member_type;
use pc_report::ErrorEntry;
use pc_syntax::{Kind, Word};
use pc_types::{Operand, Types};
use std::alloc::{AllocError, Global};

/// A case statement, with row 8 at its expression and rows 11 and 16 at its labels. `texts` has the characters of strings, `arms_at`
/// is the node of the arms, which has their entries; of each arm only the values of its labels are read. Only memory can fail; a place
/// has no number for more than 4,294,967,295 kids.
pub fn case(
    alloc: Global,
    types: &Types,
    texts: &[Word],
    selector: Facts,
    arms: Vec<Arm>,
    arms_at: Facts,
) -> Result<Facts, AllocError>
    ensures { IfOk result (λ f. (k : Known) (w : List ℕ) (a b : Node) → k.table ≡ seen types.now → k.texts ≡ texts.now → ShowsNode k selector a.at → AllShow (ShowsArmLabels k) arms.items (kids_below b) → ShowsNode k arms_at b.at → ShowsNode k f (with_kind kind.Case w (case_rule a b))) }
{
    let of = selector.value_type();
    let at_selector = no_ordinal(alloc, types, of)?;
    let at_arms = arms_own(alloc, types, texts, member_type(types, of), arms)?;
    let mut handing = Handing::new(alloc);
    handing.add(selector)?;
    handing.add(arms_at)?;
    let mut entries = handing.entries;
    add_kid(&mut entries, 1, at_selector)?;
    add_kid(&mut entries, 2, at_arms)?;
    Ok(Facts::statement(alloc, Kind::Case, handing.hole, entries))
}

/// Rows 11 and 16 at the labels of arms, seen from the node of the arms, given the ordinal type of the expression.
fn arms_own(
    alloc: Global,
    types: &Types,
    texts: &[Word],
    of: Option<Operand>,
    arms: Vec<Arm>,
) -> Result<Vec<ErrorEntry>, AllocError>
    ensures { IfOk result (λ es. (k : Known) (t : Option Shape) (ns : List Node) → IsSelected k (seen types.now) texts.now of t → AllShow (ShowsArmLabels k) arms.items ns → es.items ≡ arms_entries t [] 1 ns) }
{
    let mut entries = Vec::new(alloc);
    let mut given = Given::new(alloc);
    let mut count = 0;
    for arm in arms {
        count = next(count)?;
        let own = labels_own(alloc, types, texts, of, &mut given, arm.labels)?;
        add_labels(alloc, &mut entries, count, own)?;
    }
    Ok(entries)
}

/// Adds the entries of the labels of an arm, which are its first kid.
fn add_labels(
    alloc: Global,
    entries: &mut Vec<ErrorEntry>,
    i: u32,
    own: Vec<ErrorEntry>,
) -> Result<(), AllocError>
    ensures { OnOk result (entries.new.items ≡ entries.old.items ++ at_kid i (at_kid 1 own.items)) }
{
    let mut arm = Vec::new(alloc);
    add_kid(&mut arm, 1, own)?;
    add_kid(entries, i, arm)?;
    Ok(())
}

/// Rows 11 and 16 at labels, seen from the node of the labels.
fn labels_own(
    alloc: Global,
    types: &Types,
    texts: &[Word],
    of: Option<Operand>,
    given: &mut Given,
    values: Vec<Option<Value>>,
) -> Result<Vec<ErrorEntry>, AllocError>
    ensures { IfOk result (λ es. (k : Known) (t : Option Shape) (vs : List Labelled) (ns : List Node) → IsSelected k (seen types.now) texts.now of t → ShowsGiven k given.old vs → ShowsLabels k values.items ns → Gives k es.items given.new (labels_entries t vs 1 ns) (vs ++ all_given t ns)) }
{
    let mut entries = Vec::new(alloc);
    let mut count = 0;
    for value in values {
        count = next(count)?;
        let own = label_own(alloc, types, texts, of, given, value)?;
        add_kid(&mut entries, count, own)?;
    }
    Ok(entries)
}

/// Rows 11 and 16 of a label, which may have no value.
fn label_own(
    alloc: Global,
    types: &Types,
    texts: &[Word],
    of: Option<Operand>,
    given: &mut Given,
    value: Option<Value>,
) -> Result<Vec<ErrorEntry>, AllocError>
    ensures { IfOk result (λ es. (k : Known) (t : Option Shape) (vs : List Labelled) (v : Option Labelled) → IsSelected k (seen types.now) texts.now of t → ShowsGiven k given.old vs → ShowsValues k value v → Gives k es.items given.new (label_entries t vs v) (vs ++ given_by t v)) }
{
    match value {
        Some(known) => Ok(value_own(alloc, types, texts, of, given, known)?),
        None => Ok(Vec::new(alloc)),
    }
}

/// Rows 11 and 16 of a label with this value.
fn value_own(
    alloc: Global,
    types: &Types,
    texts: &[Word],
    of: Option<Operand>,
    given: &mut Given,
    value: Value,
) -> Result<Vec<ErrorEntry>, AllocError>
    ensures { IfOk result (λ es. (k : Known) (t : Option Shape) (vs : List Labelled) (v : Labelled) → IsSelected k (seen types.now) texts.now of t → ShowsGiven k given.old vs → ShowsValue k value v → Gives k es.items given.new (label_entries t vs (Some v)) (vs ++ given_by t (Some v))) }
{
    if label_differs(types, of, value.of) {
        return Ok(disagree(alloc)?);
    }
    let twice = given.put(types, texts, value)?;
    let mut entries = Vec::new(alloc);
    add_note_if(alloc, &mut entries, twice, 16, b"constant given twice", b"")?;
    Ok(entries)
}

/// Whether a label's type isn't that of the expression.
fn label_differs(types: &Types, of: Option<Operand>, label: Operand) -> bool
    ensures { result ≡ label_differs_at (option_map (shape_at (seen types.now)) of) (shape_at (seen types.now) label) }
{
    match of {
        Some(known) => !types.same(types.host(known), label),
        None => false,
    }
}
