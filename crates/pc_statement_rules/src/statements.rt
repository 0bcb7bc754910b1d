//! Assignments, and statements with a condition (ISO 7185, 6.8.2.2, 6.8.3.4, 6.8.3.7, 6.8.3.8).

ghost use Rattle.std.specs.Prelude.{◌≡◌, ◌∷◌, List, ℕ, IfOk};
ghost use Rattle.pc_types.specs.Rows.{seen};
ghost use Rattle.pc_rules.specs.Attributes.{Node};
ghost use Rattle.pc_rules.specs.Statements.{assign_rule, condition_rule, repeat_rule};
ghost use Rattle.pc_rules.specs.Decorated.{with_kind};
ghost use Rattle.pc_facts.specs.Known.{Known};
ghost use Rattle.pc_facts.specs.Shows.{ShowsNode, AllShow};
ghost use Rattle.pc_syntax.specs.declared.kind.Kind.TheVariants as kind;

use crate::kids::Handing;
use crate::own::no_condition;
use pc_facts::{Facts, add_kid, add_note_if, either};
use pc_judgements::is_unassignable;
use pc_syntax::Kind;
use pc_types::Types;
use std::alloc::{AllocError, Global};

/// An assignment, with row 11 where the value doesn't fit the target. Only memory can fail.
pub fn assignment(
    alloc: Global,
    types: &Types,
    target: Facts,
    value: Facts,
) -> Result<Facts, AllocError>
    ensures { IfOk result (λ f. (k : Known) (w : List ℕ) (a b : Node) → k.table ≡ seen types.now → ShowsNode k target a.at → ShowsNode k value b.at → ShowsNode k f (with_kind kind.Assign w (assign_rule a b))) }
{
    let hole = either(target.hole, value.hole);
    let to = target.judgement.into_target();
    let from = value.judgement.into_value();
    let unfit = is_unassignable(types, to.of, from.of);
    let mut entries = Vec::new(alloc);
    add_kid(&mut entries, 1, to.entries)?;
    add_kid(&mut entries, 2, from.entries)?;
    add_note_if(alloc, &mut entries, unfit, 11, b"types do not agree", b"")?;
    Ok(Facts::statement(alloc, Kind::Assign, hole, entries))
}

/// A statement of this kind whose condition comes first, with row 17: an if, with an else or without, or a while. Only memory can
/// fail.
pub fn condition(
    alloc: Global,
    types: &Types,
    kind: Kind,
    condition: Facts,
    bodies: Vec<Facts>,
) -> Result<Facts, AllocError>
    ensures { IfOk result (λ f. (k : Known) (w : List ℕ) (a : Node) (ns : List Node) → k.table ≡ seen types.now → ShowsNode k condition a.at → AllShow (λ g n. ShowsNode k g n.at) bodies.items ns → ShowsNode k f (with_kind kind w (condition_rule a ns))) }
{
    let own = no_condition(alloc, types, condition.value_type())?;
    let mut handing = Handing::new(alloc);
    handing.add(condition)?;
    handing.add_all(bodies)?;
    Ok(handing.finish_with(alloc, kind, 1, own)?)
}

/// A repeat statement, with row 17. Only memory can fail.
pub fn repetition(
    alloc: Global,
    types: &Types,
    stmts: Facts,
    condition: Facts,
) -> Result<Facts, AllocError>
    ensures { IfOk result (λ f. (k : Known) (w : List ℕ) (a b : Node) → k.table ≡ seen types.now → ShowsNode k stmts a.at → ShowsNode k condition b.at → ShowsNode k f (with_kind kind.Repeat w (repeat_rule a b))) }
{
    let own = no_condition(alloc, types, condition.value_type())?;
    let mut handing = Handing::new(alloc);
    handing.add(stmts)?;
    handing.add(condition)?;
    Ok(handing.finish_with(alloc, Kind::Repeat, 2, own)?)
}
