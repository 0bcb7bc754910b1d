//! The region of a block: where its names count.

ghost use Rattle.std.specs.Prelude.{◌≡◌};
ghost use Rattle.pc_scope.specs.Stands.{inner_of};

use crate::names::Names;

/// The names of a block, its number among the kids of its routine, and for each routine in the block in order the number of
/// its region, if it is no hole.
#[derive(Drop)]
pub struct Region {
    pub names: Names,
    pub number: usize,
    pub inner: Vec<Option<usize>>,
}

impl Region {
    /// The number of the region of the n-th routine, from 1.
    pub fn inner(&self, n: u32) -> Option<usize>
        ensures { result ≡ inner_of self.now n }
    {
        let i = n.checked_sub(1)?;
        *self.inner.get(i as usize)?
    }
}
