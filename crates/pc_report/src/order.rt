//! The order of the error list.

ghost use Rattle.std.specs.Prelude.{◌≡◌, OnOk, OnErr};
ghost use Rattle.std.specs.Ordering.{is_lt};
ghost use Rattle.pc_rules.specs.Errors.{in_order};
ghost use Rattle.pc_report.specs.Order.{is_before};

use crate::entry::ErrorEntry;
use std::alloc::{AllocError, Global};
use std::cmp::Ordering;

/// Puts the entries in the order of the error list: a node stands before its kids and they in their order, and the entries of a
/// node by their rows. Entries of the same place and row keep their order. Only memory can fail, and then nothing has moved. Work:
/// as many comparisons as there are entries where they stand in order before, and else the number of entries times its logarithm.
pub fn put_in_order(alloc: Global, entries: &mut [ErrorEntry]) -> Result<(), AllocError>
    ensures order { OnOk result (entries.new ≡ in_order entries.old) }
    ensures failure { OnErr result (entries.new ≡ entries.old) }
{
    entries.sort_by(alloc, by_place_and_row)?;
    Ok(())
}

/// The order of two entries.
#[tactic(auto, using(crate::specs::OrderLaws::comparing))]
fn by_place_and_row(first: &ErrorEntry, second: &ErrorEntry) -> Ordering
    ensures { is_lt result ≡ is_before first.now second.now }
{
    let places = first.place().cmp(&second.place());
    places.then(first.row().cmp(&second.row()))
}
