//! Where blocks stand.

ghost use Rattle.std.specs.Prelude.{◌≡◌, ◌+◌, ◌++◌, ◌<◌, ◌^◌, length, slice_get, slice_index, Some, IfOk};
ghost use Rattle.pc_syntax.specs.Plain.{Plain, forest_of};
ghost use Rattle.pc_scope.specs.Around.{Block, block_of};
ghost use Rattle.pc_scope.specs.Blocks.{block_kids, routines_among};
ghost use Rattle.pc_scope.specs.Declarations.{declared_at};
ghost use Rattle.pc_scope.specs.Entries.{all_declared};
ghost use Rattle.pc_scope.specs.Sites.{block_at, Opens};

use crate::counting::counting;
use crate::headings::{block_of, routines_of, spelled_name};
use crate::named::Named;
use crate::names::Names;
use crate::naming::add_below;
use crate::owner::Owner;
use crate::parameters::parameters_at;
use pc_syntax::{Path, Tree};
use std::alloc::{AllocError, Global};

/// Where the block of a routine or program stands: its owner; its place; its number among the kids of the routine; and the
/// parameters that are declared in it.
#[derive(Drop)]
pub struct Site {
    pub owner: Owner,
    pub place: Path,
    pub number: u32,
    pub parameters: Vec<Named>,
}

/// What is known of a block when its routines are gone through: its owner; the place of the list of its routines; its names;
/// and for each routine the number of that whose heading counts.
#[derive(Drop)]
pub struct Opened {
    pub owner: Owner,
    pub list: Path,
    pub names: Names,
    pub numbers: Vec<u32>,
}

/// Adds what the block of a routine or program declares, where the block has a place.
fn add_block_names(
    alloc: Global,
    tree: &Tree,
    at: &Path,
    into: &mut Vec<Named>,
) -> Result<(), AllocError>
    ensures { IfOk result (λ _. all_declared into.new.items ≡ all_declared into.old.items ++ declared_at at.now 1 (block_kids tree.now.kids)) }
{
    match block_of(tree) {
        Some(block) => add_below(alloc, block, at, into),
        None => Ok(()),
    }
}

/// Goes into the block of a routine or program.
pub fn open(alloc: Global, tree: &Tree, site: Site) -> Result<Opened, AllocError>
    ensures { IfOk result (λ opened. Opens opened (block_at site (block_kids tree.now.kids))) }
{
    let Site {
        owner,
        place,
        number: _,
        parameters,
    } = site;
    let mut declared = parameters;
    add_block_names(alloc, tree, &place, &mut declared)?;
    let names = Names::of(alloc, &owner.key, declared)?;
    let numbers = counting(alloc, routines_of(tree))?;
    let list = place.child(alloc, 4)?;
    Ok(Opened {
        owner,
        list,
        names,
        numbers,
    })
}

impl Opened {
    /// Where the block of the routine with an index stands, among the routines of the block that was gone into.
    pub fn site(&self, alloc: Global, routines: &[Tree], i: usize) -> Result<Site, AllocError>
        requires few { length routines.now < 2 ^ 32 }
        requires within { i < length routines.now }
        requires numbers { length self.now.numbers.items ≡ length routines.now }
        ensures { IfOk result (λ site. (b : Block) (r : Plain) → Opens self.now b → routines_among b.kids ≡ forest_of routines.now → slice_get routines.now i ≡ Some r → block_at site (block_kids r.kids) ≡ block_of b (i + 1) r (slice_index self.now.numbers.items i)) }
    {
        let routine = &routines[i];
        let counted = self.numbers[i];
        let number = routine.kids();
        let own = self.list.child(alloc, i as u32 + 1)?;
        let place = own.child(alloc, number)?;
        let heading = self.list.child(alloc, counted)?;
        let name = heading.child(alloc, 1)?;
        let owner = self
            .owner
            .inner(alloc, &self.names, spelled_name(routine), &name)?;
        let parameters = parameters_at(alloc, &self.list, counted, routines)?;
        Ok(Site {
            owner,
            place,
            number,
            parameters,
        })
    }
}
