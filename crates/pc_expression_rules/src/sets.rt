//! Set constructors (ISO 7185, 6.7.1).

ghost use Rattle.std.specs.Prelude.{◌≡◌, ◌∷◌, List, ℕ, option_map, map, if◌then◌else◌, None, Bool, IsTrue, IfOk};
ghost use Rattle.pc_syntax.specs.declared.kind.Kind.TheVariants as kind;
ghost use Rattle.pc_types.specs.Shapes.{Shape, MembersType};
ghost use Rattle.pc_types.specs.TypeClasses.{is_ordinal, host};
ghost use Rattle.pc_types.specs.Table.{shape_at, IsThere};
ghost use Rattle.pc_types.specs.Rows.{seen};
ghost use Rattle.pc_rules.specs.Attributes.{Node, kids_below};
ghost use Rattle.pc_rules.specs.HandedOn.{any_hole};
ghost use Rattle.pc_rules.specs.Denoters.{some_typed};
ghost use Rattle.pc_rules.specs.SetConstructors as rule;
ghost use Rattle.pc_rules.specs.Decorated.{with_kind};
ghost use Rattle.pc_facts.specs.Known.{Known};
ghost use Rattle.pc_facts.specs.Shows.{ShowsNode, ShowsMember, ShowsType, AllShow};
ghost use Rattle.pc_expression_rules.specs.Members.{ShowsOrdinal, AllHandOn, is_compatible};

use crate::members::{add_members, has_hole};
use pc_facts::{Facts, Member, add_kid, add_note_if, both, is_unknown};
use pc_judgements::set_of;
use pc_syntax::Kind;
use pc_types::{Operand, Types};
use std::alloc::{AllocError, Global};

/// A set constructor with these members; row 8 at each value that is no ordinal, and row 11 where the values' types don't agree. Fails
/// for want of memory, and where there are 2^32 members or more. Work: the number of members and of their entries.
pub fn set_constructor(
    alloc: Global,
    types: &Types,
    members: Vec<Member>,
) -> Result<Facts, AllocError>
    ensures { IfOk result (λ f. (k : Known) (w : List ℕ) (m : Node) → k.table ≡ seen types.now → AllShow (ShowsMember k) members.items (kids_below m) → AllHandOn (kids_below m) → m.at.hole ≡ any_hole (kids_below m) → ShowsNode k f (with_kind kind.Setcon w (rule.set_constructor_rule m))) }
{
    let hole = has_hole(members.as_slice());
    let mut values = Vec::new(alloc);
    let below = add_members(alloc, types, &mut values, members)?;
    let known = are_known(types, values.as_slice());
    let of = members_type(types, values.as_slice());
    let mut entries = Vec::new(alloc);
    add_kid(&mut entries, 1, below)?;
    add_note_if(
        alloc,
        &mut entries,
        both(known, is_unknown(of)),
        11,
        b"types do not agree",
        b"",
    )?;
    Ok(Facts::expression(Kind::Setcon, hole, entries, of))
}

/// Whether all these types are known.
fn are_known(types: &Types, of: &[Option<Operand>]) -> bool
    ensures { result ≡ rule.all_known (map (option_map (shape_at (seen types.now))) of.now) }
{
    let mut rest = of;
    while let [value, tail @ ..] = rest {
        if value.is_none() {
            return false;
        }
        rest = tail;
    }
    true
}

/// Whether all these types are known, and compatible with this one.
fn are_compatible(types: &Types, first: Operand, of: &[Option<Operand>]) -> bool
    ensures { result ≡ rule.all_compatible (shape_at (seen types.now) first) (map (option_map (shape_at (seen types.now))) of.now) }
{
    let mut rest = of;
    while let [value, tail @ ..] = rest {
        if !goes_with(types, first, *value) {
            return false;
        }
        rest = tail;
    }
    true
}

/// Whether a type is known, and compatible with this one.
fn goes_with(types: &Types, first: Operand, of: Option<Operand>) -> bool
    ensures { result ≡ is_compatible (shape_at (seen types.now) first) (option_map (shape_at (seen types.now)) of) }
{
    match of {
        Some(known) => types.compatible(first, known),
        None => false,
    }
}

/// The type of a set of members of these types, if they agree.
fn members_type(types: &Types, of: &[Option<Operand>]) -> Option<Operand>
    ensures { (k : Known) (ns : List Node) → k.table ≡ seen types.now → AllShow (ShowsOrdinal k.table) of.now ns → ShowsType k.table result (rule.members_type (map rule.member_type ns)) }
{
    match of {
        [first, rest @ ..] => type_from(types, *first, rest),
        [] => Some(Operand::NoMembers),
    }
}

/// The same, where there is a first member.
fn type_from(types: &Types, first: Option<Operand>, rest: &[Option<Operand>]) -> Option<Operand>
    ensures { (k : Known) (ns : List Node) → k.table ≡ seen types.now → AllShow (ShowsOrdinal k.table) (first ∷ rest.now) ns → ShowsType k.table result (rule.members_type (map rule.member_type ns)) }
{
    match first {
        Some(known) => set_where(types, are_compatible(types, known, rest), known),
        None => None,
    }
}

/// The type of a set whose first member is of this type, where the condition holds.
fn set_where(types: &Types, is_so: bool, first: Operand) -> Option<Operand>
    ensures { (k : Known) (b : Bool) (s : Shape) → k.table ≡ seen types.now → is_so ≡ b → shape_at k.table first ≡ s → IsThere k.table first → IsTrue (is_ordinal s) → ShowsType k.table result (if b then some_typed (MembersType (host s)) else None) }
{
    if is_so {
        Some(set_of(types, first))
    } else {
        None
    }
}
