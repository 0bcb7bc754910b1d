//! What is known and found while a program is gone through.

use pc_domains::Domains;
use pc_own_names::RoutineNames;
use pc_places::Tables;
use pc_report::ErrorEntry;
use pc_sightings::Touched;
use std::marker::Model;

/// All that is known while a program is gone through, and what is kept of the routines that were gone through, in text order.
#[derive(Drop)]
pub(crate) struct Resolver {
    pub(crate) tables: Tables,
    pub(crate) domains: Domains,
    pub(crate) touched: Touched,
    pub(crate) kept: Vec<RoutineNames>,
}

/// The entries of a block, seen from it, and those of the routines inside, seen from the root.
#[derive(Drop)]
pub(crate) struct BlockEntries {
    pub(crate) own: Vec<ErrorEntry>,
    pub(crate) inside: Vec<ErrorEntry>,
}
