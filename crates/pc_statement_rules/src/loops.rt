//! For statements (ISO 7185, 6.8.3.9).

ghost use Rattle.std.specs.Prelude.{◌≡◌, ◌||◌, ◌++◌, List, ℕ, get_or, IfOk, OnOk};
ghost use Rattle.pc_syntax.specs.Words.{lowered};
ghost use Rattle.pc_syntax.specs.declared.kind.Kind.TheVariants as kind;
ghost use Rattle.pc_types.specs.Rows.{seen};
ghost use Rattle.pc_types.specs.Table.{nobody};
ghost use Rattle.pc_rules.specs.Attributes.{Node, at_kid};
ghost use Rattle.pc_rules.specs.Decorated.{with_kind};
ghost use Rattle.pc_rules.specs.ForStatements.{for_rule, stands_among};
ghost use Rattle.pc_rules.specs.Meanings.{Local};
ghost use Rattle.pc_rules.specs.Variables.{variable_entries};
ghost use Rattle.pc_facts.specs.Known.{Known};
ghost use Rattle.pc_facts.specs.Shows.{ShowsName, ShowsNode};

use crate::controls::{bound, control_judged};
use pc_facts::{Facts, Named, add_kid, either};
use pc_report::ErrorEntry;
use pc_syntax::Kind;
use pc_types::{OwnerId, Types};
use std::alloc::{AllocError, Global};

/// A for statement with this control variable, which `word` names: rows 18, 19, 8 and 11 beside the entries `named` of its name
/// (rows 1, 2 and 4). `changed_inside` says whether a routine in the block changes the variable, `changed_by_body` whether the body
/// does, `owner` in which block the statement stands. Only memory can fail.
pub fn for_statement(
    alloc: Global,
    types: &Types,
    word: &[u8],
    control: Named,
    named: Vec<ErrorEntry>,
    changed_inside: bool,
    changed_by_body: bool,
    owner: OwnerId,
    first: Facts,
    last: Facts,
    body: Facts,
) -> Result<Facts, AllocError>
    ensures { IfOk result (λ f. (k : Known) (w : List ℕ) (l : Local) (c a b s : Node) → k.table ≡ seen types.now → word.now ≡ c.at.word → ShowsName k control c.at → changed_inside ≡ c.at.changed → named.items ≡ variable_entries c → changed_by_body ≡ stands_among s.at.touches l.owner (lowered c.at.word) → get_or k.table.owners owner.0 nobody ≡ l.owner → ShowsNode k first a.at → ShowsNode k last b.at → ShowsNode k body s.at → ShowsNode k f (with_kind kind.For w (for_rule l c a b s))) }
{
    let hole = any_of_four(control.hole, first.hole, last.hole, body.hole);
    let changed = either(changed_inside, changed_by_body);
    let control = control_judged(alloc, types, word, control, named, changed, owner)?;
    let at_first = bound(alloc, types, control.of, first.value_type())?;
    let at_last = bound(alloc, types, control.of, last.value_type())?;
    let mut entries = Vec::new(alloc);
    add_kids(
        &mut entries,
        first.judgement.into_value().entries,
        last.judgement.into_value().entries,
        body.judgement.into_value().entries,
    )?;
    add_own(&mut entries, at_first, at_last, control.entries)?;
    Ok(Facts::statement(alloc, Kind::For, hole, entries))
}

fn any_of_four(a: bool, b: bool, c: bool, d: bool) -> bool
    ensures { result ≡ (a || (b || (c || d))) }
{
    either(a, either(b, either(c, d)))
}

/// Adds the entries of the bounds and of the body, which are kids 2 to 4.
fn add_kids(
    entries: &mut Vec<ErrorEntry>,
    first: Vec<ErrorEntry>,
    last: Vec<ErrorEntry>,
    body: Vec<ErrorEntry>,
) -> Result<(), AllocError>
    ensures { OnOk result (entries.new.items ≡ entries.old.items ++ at_kid 2 first.items ++ at_kid 3 last.items ++ at_kid 4 body.items) }
{
    add_kid(entries, 2, first)?;
    add_kid(entries, 3, last)?;
    add_kid(entries, 4, body)?;
    Ok(())
}

/// Adds the statement's own entries, at the bounds and at the control variable.
fn add_own(
    entries: &mut Vec<ErrorEntry>,
    first: Vec<ErrorEntry>,
    last: Vec<ErrorEntry>,
    control: Vec<ErrorEntry>,
) -> Result<(), AllocError>
    ensures { OnOk result (entries.new.items ≡ entries.old.items ++ at_kid 2 first.items ++ at_kid 3 last.items ++ at_kid 1 control.items) }
{
    add_kid(entries, 2, first)?;
    add_kid(entries, 3, last)?;
    add_kid(entries, 1, control)?;
    Ok(())
}
