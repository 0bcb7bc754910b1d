//! Laws of blocks.

ghost use Rattle.pc_block_laws.specs.BodyPlace.{BodyPlaceLaw};
ghost use Rattle.pc_block_laws.specs.Once.{OnceLaw};
ghost use Rattle.pc_block_laws.specs.OwnTypes.{OwnLaw};
ghost use Rattle.pc_block_laws.specs.Owners.{OwnersLaw};
ghost use Rattle.pc_block_laws.specs.Touched.{TouchedLaw};

/// The first of each name alone is known at a place of a block, and stands before it.
pub fn blocks_know_each_name_once()
    ensures { OnceLaw }
{}

/// The types that a block knows behind its type definitions are its own, and are named in them; parameters are no types.
pub fn known_types_are_own()
    ensures { OwnLaw }
{}

/// From node to node of a block its owner, its function and the names that it declares stay; what the place of its statement part is.
pub fn bodies_stand_behind_declarations()
    ensures { BodyPlaceLaw }
{}

/// The owner of a routine is that of none before it, unless it is the later declaration of a forward one with a key, which has the owner of
/// its forward heading.
pub fn owners_are_new()
    ensures { OwnersLaw }
{}

/// A log of numbers says what a list of touched variables says.
pub fn logs_say_what_is_touched()
    ensures { TouchedLaw }
{}
