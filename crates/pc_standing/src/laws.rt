//! Laws of the tables of a program at a statement part.

ghost use Rattle.pc_standing.specs.Standing.{BodyLaw, OwnLaw};

/// The tables that stand for the place of a statement part stand for it as the code of statements needs them: what they find for a name
/// is what it means there, with the parameters and the result of a routine.
pub fn declarations_stand_for_bodies()
    ensures { BodyLaw }
{}

/// Before the routines of a block no routine is complete in it, and from there on only its own are.
pub fn routines_are_of_their_block()
    ensures { OwnLaw }
{}
