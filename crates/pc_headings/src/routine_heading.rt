//! What is found at the heading of a routine.

use pc_facts::SignatureId;
use pc_places::Parameter;
use pc_report::ErrorEntry;

/// What is found at the heading of a routine: its entries, seen from the routine's node; its parameters, the first of each name; and
/// its signature, where it has neither an error nor a hole. A later declaration has neither parameters nor a signature of its own.
#[derive(Drop)]
pub struct RoutineHeading {
    pub entries: Vec<ErrorEntry>,
    pub parameters: Vec<Parameter>,
    pub signature: Option<SignatureId>,
}
