//! The law of a whole program.

ghost use Rattle.pc_lookup_law.specs.ProgramLaw.{ProgramLaw};

/// At each used name of a well-formed program, in the block or the heading of each of its routines, the look-up by environment and the look-up by the places of declarations
/// agree: on whether a declaration stands before, later, or there is none, and on the class that the declaration at that place has.
pub fn lookups_agree_in_a_program()
    ensures { ProgramLaw }
{}
