//! The members of a set constructor (ISO 7185, 6.7.1).

ghost use Rattle.std.specs.Prelude.{◌≡◌, ◌++◌, ◌∷◌, [], List, IfOk, OnOk, ◌+◌};
ghost use Rattle.pc_types.specs.Rows.{seen};
ghost use Rattle.pc_rules.specs.Attributes.{Node, each_kid};
ghost use Rattle.pc_rules.specs.SetConstructors as rule;
ghost use Rattle.pc_facts.specs.Known.{Known};
ghost use Rattle.pc_facts.specs.Shows.{ShowsNode, ShowsMember, AllShow};
ghost use Rattle.pc_expression_rules.specs.Members.{ShowsOrdinal, hole_in, holes_in};

use pc_facts::{Facts, Member, add_kid, add_note_if, either};
use pc_judgements::{is_no_ordinal, member_type};
use pc_report::ErrorEntry;
use pc_types::{Operand, Types};
use std::alloc::{AllocError, Global};

/// Whether a hole stands in one of the members.
pub fn has_hole(members: &[Member]) -> bool
    ensures { result ≡ holes_in members.now }
{
    let mut rest = members;
    while let [member, tail @ ..] = rest {
        if is_open(member) {
            return true;
        }
        rest = tail;
    }
    false
}

/// Whether a hole stands in a member.
fn is_open(member: &Member) -> bool
    ensures { result ≡ hole_in member.now }
{
    match member {
        Member::One(value) => value.hole,
        Member::Span(low, high) => either(low.hole, high.hole),
    }
}

/// The entries of the members, with row 8 at each value that is no ordinal; adds the types of their expressions, in their order, where
/// they are ordinal. Fails for want of memory, and where there are 2^32 members or more.
pub fn add_members(
    alloc: Global,
    types: &Types,
    of: &mut Vec<Option<Operand>>,
    members: Vec<Member>,
) -> Result<Vec<ErrorEntry>, AllocError>
    ensures entries { IfOk result (λ es. (k : Known) (ns : List Node) → k.table ≡ seen types.now → AllShow (ShowsMember k) members.items ns → es.items ≡ each_kid rule.member_entries 1 ns) }
    ensures types { OnOk result ((k : Known) (os ns : List Node) → k.table ≡ seen types.now → AllShow (ShowsOrdinal k.table) of.old.items os → AllShow (ShowsMember k) members.items ns → AllShow (ShowsOrdinal k.table) of.new.items (os ++ rule.member_values ns)) }
{
    let mut entries = Vec::new(alloc);
    let mut i: u32 = 0;
    for member in members {
        i = next(i)?;
        let kid = add_member(alloc, types, of, member)?;
        add_kid(&mut entries, i, kid)?;
    }
    Ok(entries)
}

/// The next number, or no memory where there is none of 32 bits.
fn next(i: u32) -> Result<u32, AllocError>
    ensures { IfOk result (λ j. j ≡ i + 1) }
{
    match i.checked_add(1) {
        Some(j) => Ok(j),
        None => Err(AllocError),
    }
}

/// The same for one member.
fn add_member(
    alloc: Global,
    types: &Types,
    of: &mut Vec<Option<Operand>>,
    member: Member,
) -> Result<Vec<ErrorEntry>, AllocError>
    ensures entries { IfOk result (λ es. (k : Known) (n : Node) → k.table ≡ seen types.now → ShowsMember k member n → es.items ≡ rule.member_entries n) }
    ensures types { OnOk result ((k : Known) (os : List Node) (n : Node) → k.table ≡ seen types.now → AllShow (ShowsOrdinal k.table) of.old.items os → ShowsMember k member n → AllShow (ShowsOrdinal k.table) of.new.items (os ++ rule.member_values (n ∷ []))) }
{
    match member {
        Member::One(value) => Ok(add_value(alloc, types, of, value)?),
        Member::Span(low, high) => Ok(add_span(alloc, types, of, low, high)?),
    }
}

/// The same for all values from one to another.
fn add_span(
    alloc: Global,
    types: &Types,
    of: &mut Vec<Option<Operand>>,
    low: Facts,
    high: Facts,
) -> Result<Vec<ErrorEntry>, AllocError>
    ensures entries { IfOk result (λ es. (k : Known) (a b : Node) → k.table ≡ seen types.now → ShowsNode k low a.at → ShowsNode k high b.at → es.items ≡ each_kid rule.ordinal_entries 1 (a ∷ b ∷ [])) }
    ensures types { OnOk result ((k : Known) (os : List Node) (a b : Node) → k.table ≡ seen types.now → AllShow (ShowsOrdinal k.table) of.old.items os → ShowsNode k low a.at → ShowsNode k high b.at → AllShow (ShowsOrdinal k.table) of.new.items (os ++ a ∷ b ∷ [])) }
{
    let first = add_value(alloc, types, of, low)?;
    let second = add_value(alloc, types, of, high)?;
    let mut entries = Vec::new(alloc);
    add_kid(&mut entries, 1, first)?;
    add_kid(&mut entries, 2, second)?;
    Ok(entries)
}

/// The same for one value.
fn add_value(
    alloc: Global,
    types: &Types,
    of: &mut Vec<Option<Operand>>,
    value: Facts,
) -> Result<Vec<ErrorEntry>, AllocError>
    ensures entries { IfOk result (λ es. (k : Known) (n : Node) → k.table ≡ seen types.now → ShowsNode k value n.at → es.items ≡ rule.ordinal_entries n) }
    ensures types { OnOk result ((k : Known) (os : List Node) (n : Node) → k.table ≡ seen types.now → AllShow (ShowsOrdinal k.table) of.old.items os → ShowsNode k value n.at → AllShow (ShowsOrdinal k.table) of.new.items (os ++ n ∷ [])) }
{
    let known = value.value_type();
    let ordinal = member_type(types, known);
    let refused = is_no_ordinal(types, known);
    of.push(ordinal)?;
    let mut entries = value.judgement.into_value().entries;
    add_note_if(alloc, &mut entries, refused, 8, b"not an ordinal type", b"")?;
    Ok(entries)
}
