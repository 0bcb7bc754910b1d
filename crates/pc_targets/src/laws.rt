//! Laws of the targets of a program.

ghost use Rattle.pc_targets.specs.Blocks.{GoodLaw, HidingLaw, SaidLaw};

/// The targets of a well-formed program say of each name in the block of a routine what this declares as a type, and of the program's
/// other names what the required types are.
pub fn targets_say_what_blocks_declare()
    ensures { SaidLaw }
{}

/// From the start of each block to its statement part, what names mean and the types that are declared are carried and good for the
/// targets of the program.
pub fn each_block_is_good()
    ensures { GoodLaw }
{}

/// What a block finds, and where its nodes stand, doesn't depend on what the names that it declares mean around it.
pub fn blocks_see_the_same()
    ensures { HidingLaw }
{}
