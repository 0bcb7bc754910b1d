//! Entries of an argument that is no variable, or that has a width, and tests of its kind.

ghost use Rattle.std.specs.Prelude.{◌≡◌, ◌++◌, List, ℕ, if◌then◌else◌, [], IfOk};
ghost use Rattle.pc_rules.specs.Attributes.{Node};
ghost use Rattle.pc_rules.specs.Arguments as rule;
ghost use Rattle.pc_rules.specs.RequiredFunctions as functions;
ghost use Rattle.pc_rules.specs.Arguments.{no_variable, no_width};
ghost use Rattle.pc_facts.specs.Known.{Known};
ghost use Rattle.pc_facts.specs.Shows.{ShowsNode};

use pc_facts::{Facts, add_note, add_note_if};
use pc_report::ErrorEntry;
use pc_syntax::Kind;
use std::alloc::{AllocError, Global};

/// Whether an argument has a width.
pub(crate) fn is_width(kind: Kind) -> bool
    ensures { result ≡ rule.is_width kind }
{
    matches!(kind, Kind::Width)
}

/// Whether an argument is a name alone.
pub(crate) fn is_reference(kind: Kind) -> bool
    ensures { result ≡ functions.is_reference kind }
{
    matches!(kind, Kind::Ref)
}

/// The entries of a value, with row 13. Only memory can fail.
pub(crate) fn not_a_variable(alloc: Global, at: Facts) -> Result<Vec<ErrorEntry>, AllocError>
    ensures { IfOk result (λ es. (k : Known) (n : Node) → ShowsNode k at n.at → es.items ≡ n.as_value.entries ++ no_variable) }
{
    let mut entries = at.judgement.into_value().entries;
    add_note(alloc, &mut entries, 13, b"not a variable", b"")?;
    Ok(entries)
}

/// The entries of a value with a width that is out of place, with row 24, and row 13 where a variable is needed. Only memory can
/// fail.
pub(crate) fn misplaced_width(
    alloc: Global,
    by_place: bool,
    at: Facts,
) -> Result<Vec<ErrorEntry>, AllocError>
    ensures { IfOk result (λ es. (k : Known) (n : Node) → ShowsNode k at n.at → es.items ≡ n.as_value.entries ++ (if by_place then no_variable else []) ++ no_width) }
{
    let mut entries = at.judgement.into_value().entries;
    add_note_if(alloc, &mut entries, by_place, 13, b"not a variable", b"")?;
    add_note(alloc, &mut entries, 24, b"width not allowed", b"")?;
    Ok(entries)
}
