//! What is found at a routine.

use pc_report::ErrorEntry;

/// What is found at a routine in the block around it: its entries there, whether it is the later declaration of a forward one, and whether
/// it is the first of its name that is not.
#[derive(Drop)]
pub struct RoutineFacts {
    pub entries: Vec<ErrorEntry>,
    pub later: bool,
    pub first: bool,
}
