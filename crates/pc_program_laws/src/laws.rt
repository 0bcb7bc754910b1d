//! Laws of the routines of a program.

ghost use Rattle.pc_program_laws.specs.Changed.{ChangedLaw};
ghost use Rattle.pc_program_laws.specs.Inside.{InsideLaw};
ghost use Rattle.pc_program_laws.specs.Routines.{RoutinesLaw};
ghost use Rattle.pc_program_laws.specs.Signatures.{SignaturesLaw};
ghost use Rattle.pc_program_laws.specs.Touches.{BodyTouchesLaw};
ghost use Rattle.pc_program_laws.specs.Unsigned.{UnsignedLaw};

/// The first routine of a name in a block gives that name its parameters and result.
pub fn first_ones_give_signatures()
    ensures { SignaturesLaw }
{}

/// The list of a program's routines node by node: a routine, those inside it, and those behind it; those of a block are those of its
/// fourth kid; those inside a routine are those of its block, the last kid. The entries of two lists of routines, one behind the other,
/// are those of the first and those of the second.
pub fn routines_come_in_order()
    ensures { RoutinesLaw }
{}

/// Only the statement part of a block touches variables.
pub fn bodies_touch()
    ensures { BodyTouchesLaw }
{}

/// The routines inside a routine are those below its node, and whether another routine touches a variable of its block is whether it
/// stands among what these touch.
pub fn inner_routines_touch()
    ensures { InsideLaw }
{}

/// What is found among the declarations of a block, and what stands behind them, doesn't look at the parameters and results that names
/// mean, nor at which variables are changed.
pub fn declarations_see_no_signature()
    ensures { UnsignedLaw }
{}

/// Which variables a routine in a block changes is seen in the errors of for statements alone: a block touches the same variables, and
/// judgements aside the same is found at its nodes, whatever is changed.
pub fn changes_are_seen_in_errors_alone()
    ensures { ChangedLaw }
{}
