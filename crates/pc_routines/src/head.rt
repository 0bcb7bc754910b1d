//! The heading of a routine, by numbers.

use pc_names::NameId;

/// The heading of a routine, by numbers: its name, none where it is a hole; whether it is a function, whether its block is a forward, and
/// whether a routine behind it that is no forward one has the same name and is on the same side.
#[derive(Clone, Copy, Debug, PartialEq, Eq)]
pub struct RoutineHead {
    pub name: Option<NameId>,
    pub is_function: bool,
    pub is_forward: bool,
    pub has_later: bool,
}
