//! How regions are made of blocks.

ghost use Rattle.std.specs.Prelude.{IfOk};
ghost use Rattle.pc_scope.specs.Blocks.{block_kids};
ghost use Rattle.pc_scope.specs.Sites.{block_at};
ghost use Rattle.pc_scope.specs.Stands.{StandsForBlock, KeepsBlocks};

use crate::headings::routines_of;
use crate::naming::is_routine_kind;
use crate::region::Region;
use crate::site::{Opened, Site, open};
use pc_syntax::Tree;
use std::alloc::{AllocError, Global};

/// Adds the regions of the block of a routine or program, which stands at a site, and of all blocks in it, and answers the
/// number of its own, the last.
pub fn add_block(
    alloc: Global,
    tree: &Tree,
    site: Site,
    regions: &mut Vec<Region>,
) -> Result<usize, AllocError>
    ensures stands { IfOk result (λ r. StandsForBlock regions.new.items r (block_at site (block_kids tree.now.kids))) }
    ensures kept { IfOk result (λ _. KeepsBlocks regions.old.items regions.new.items) }
{
    let routines = routines_of(tree);
    let number = site.number as usize;
    let opened = open(alloc, tree, site)?;
    let mut inner = Vec::with_capacity(alloc, routines.len())?;
    for (i, routine) in routines.iter().enumerate() {
        if !is_routine_kind(routine.kind()) {
            inner.push(None)?;
            continue;
        }
        let site = opened.site(alloc, routines, i)?;
        let region = add_block(alloc, routine, site, regions)?;
        inner.push(Some(region))?;
    }
    let Opened { names, .. } = opened;
    regions.push(Region {
        names,
        number,
        inner,
    })?;
    Ok(regions.len() - 1)
}
