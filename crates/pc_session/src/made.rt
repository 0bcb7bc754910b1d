//! What an edit makes.

use pc_syntax::Tree;

/// What an edit makes of a program.
#[derive(Drop)]
pub struct Made {
    /// The new program.
    pub tree: Tree,
    /// How many comments of the given text it doesn't keep.
    pub dropped: u64,
}
