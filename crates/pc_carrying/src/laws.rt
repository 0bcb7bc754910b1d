//! Laws of the declarations of a block.

ghost use Rattle.pc_carrying.specs.Parts.{BlockLaw, InsideLaw, KindLaw, NodeLaw, PartLaw, RoutineLaw};

/// What a denoter, a definition or a variable declaration has and declares is carried, where what names mean before it is; so it is behind it.
pub fn nodes_are_carried()
    ensures { NodeLaw }
{}

/// The types of a block are carried behind its type part, so that targets fit it that say what they are; and what names mean is good there,
/// and behind the variables and the routines.
pub fn parts_are_carried()
    ensures { PartLaw }
{}

/// From the start of a block to its statement part: what names mean there is good.
pub fn blocks_are_good()
    ensures { BlockLaw }
{}

/// The nodes in the declaration parts of a well-formed block are of the kinds that these laws ask for.
pub fn parts_have_their_kinds()
    ensures { KindLaw }
{}

/// What names mean around the block of a routine is carried, whatever its own types are, and so are its parameters.
pub fn inner_blocks_begin()
    ensures { InsideLaw }
{}

/// What names mean stays good from routine to routine of a block.
pub fn routines_keep_names_good()
    ensures { RoutineLaw }
{}
