//! What pointers lead to (ISO 7185, 6.5.4).

ghost use Rattle.std.specs.Prelude.{◌≡◌, List, ℕ, IfOk, IfSome, option_map};
ghost use Rattle.pc_types.specs.Rows.{seen};
ghost use Rattle.pc_types.specs.Table.{shape_at, IsThere};
ghost use Rattle.pc_rules.specs.Attributes.{Node};
ghost use Rattle.pc_rules.specs.Components.{dereference_rule};
ghost use Rattle.pc_rules.specs.Decorated.{with_kind};
ghost use Rattle.pc_syntax.specs.declared.kind.Kind.TheVariants as kind;
ghost use Rattle.pc_facts.specs.Known.{Known};
ghost use Rattle.pc_facts.specs.Shows.{ShowsNode};
ghost use Rattle.pc_access_rules.specs.Pointers as pointers;
ghost use Rattle.pc_access_rules.specs.Pointers.{AreTold, LeadsTo, Targets};

use crate::meanings::operand_of;
use crate::tests::is_no_pointer;
use pc_facts::{Facts, add_kid, add_note_if};
use pc_syntax::Kind;
use pc_types::{Operand, Types};
use std::alloc::{AllocError, Global};

/// What a pointer leads to: `pointer^`. Row 15. Only memory can fail. Work: the number of entries.
pub fn dereference(alloc: Global, types: &Types, pointer: Facts) -> Result<Facts, AllocError>
    ensures { IfOk result (λ f. (k : Known) (targets : Targets) (w : List ℕ) (a : Node) → k.table ≡ seen types.now → AreTold targets k.table → LeadsTo targets a.at.as_place.type → ShowsNode k pointer a.at → ShowsNode k f (with_kind kind.Deref w (dereference_rule a))) }
{
    let of = pointer.place_type();
    let hole = pointer.hole;
    let mut own = pointer.judgement.into_place().entries;
    add_note_if(
        alloc,
        &mut own,
        is_no_pointer(types, of),
        15,
        b"not a pointer",
        b"",
    )?;
    let mut entries = Vec::new(alloc);
    add_kid(&mut entries, 1, own)?;
    Ok(Facts::component(Kind::Deref, hole, entries, target_of(types, of), false))
}

/// The type that pointers of this type lead to, if that is known.
fn target_of(types: &Types, of: Option<Operand>) -> Option<Operand>
    ensures shape { (targets : Targets) → AreTold targets (seen types.now) → option_map (shape_at (seen types.now)) result ≡ pointers.target_of targets (option_map (shape_at (seen types.now)) of) }
    ensures there { IfSome result (IsThere (seen types.now)) }
{
    match of {
        Some(pointer) => target_in(types, pointer),
        None => None,
    }
}

#[tactic(auto, using(crate::proofs::PointerSteps::targets))]
fn target_in(types: &Types, pointer: Operand) -> Option<Operand>
    ensures shape { (targets : Targets) → AreTold targets (seen types.now) → option_map (shape_at (seen types.now)) result ≡ pointers.target_in targets (shape_at (seen types.now) pointer) }
    ensures there { IfSome result (IsThere (seen types.now)) }
{
    match types.pointed(pointer) {
        Some(domain) => operand_of(types.domain(domain)),
        None => None,
    }
}
