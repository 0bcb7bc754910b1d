//! Laws of the definitions.

ghost use Rattle.pc_needs.specs.Bodies.{ChangeLaw, ElsewhereLaw, FrameLaw, PlacedLaw, PlacesLaw};
ghost use Rattle.pc_needs.specs.Inside.{TouchesLaw};
ghost use Rattle.pc_needs.specs.Keys.{ForwardLaw, KeysLaw};
ghost use Rattle.pc_needs.specs.Unaffected.{NeedsLaw};

/// A routine that has a key, in two programs, with the same headings, the same own block and the same needs, has the same entries at its
/// headings and in its block, from its places on, and the same is found at each node of its own block.
pub fn needs_decide()
    ensures { NeedsLaw }
{}

/// A key names one routine of a program: its declaration with a block, and at most one forward heading beside it.
pub fn keys_name_one()
    ensures { KeysLaw }
{}

/// A later declaration that has a key has its forward heading among the routines of its program, by the same key, and is given the
/// parameters of that.
pub fn forward_gives()
    ensures { ForwardLaw }
{}

/// Only the routines inside a routine can change the variables of its block.
pub fn inside_touch()
    ensures { TouchesLaw }
{}

/// Two programs that are the same but for their statement parts have the same routines, one by one, but for the own blocks of these.
pub fn frames_keep_routines()
    ensures { FrameLaw }
{}

/// No two routines of a program stand at one place.
pub fn places_name_one()
    ensures { PlacesLaw }
{}

/// Where two programs are equal, or only the statement part of another routine differs that isn't inside it, a routine without a key has
/// the same entries at its headings and in its block, from its own places on, and the same is found at each node of its own block.
pub fn places_decide()
    ensures { PlacedLaw }
{}

/// Where only the statement part of another routine differs that isn't inside it, any routine is itself the same, and so is what is found in it.
pub fn elsewhere_stays()
    ensures { ElsewhereLaw }
{}

/// Where another node is put at a path into the statement part of a routine, nothing else of the program differs.
pub fn changes_stay_inside()
    ensures { ChangeLaw }
{}
