//! What is answered to an edit.

/// What is answered to an edit that is accepted.
#[derive(Clone, Copy, Debug, PartialEq, Eq)]
pub struct Accepted {
    /// The count of the steps that the session has made.
    pub count: u64,
    /// How many comments of the given text the tree doesn't keep.
    pub dropped: u64,
}
