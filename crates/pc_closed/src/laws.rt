//! Laws of what is reached from a type.

ghost use Rattle.pc_closed.specs.Carried.{CarriedLaw, ClosesLaw, TogetherLaw};
ghost use Rattle.pc_closed.specs.Reached.{ReachedLaw};
ghost use Rattle.pc_closed.specs.Settled.{ClosedLaw, OuterLaw};

/// The walk from a shape has visits enough, and finds each domain once that is reached, with what the table says of it, and no other.
pub fn all_is_reached()
    ensures { ReachedLaw }
{}

/// The pointers of a closed type, and of all that is reached from it, lead to what the targets say: those of its own table, those that
/// say what its table does, and those that fit the block of the type.
pub fn closed_types_agree()
    ensures { ClosedLaw }
{}

/// The types of a block before the targets around it fit the block; what leads to the targets around it, and names none of these types,
/// leads to both.
pub fn outer_types_stay()
    ensures { OuterLaw }
{}

/// What denoters make of their parts carries only domains of other blocks that agree with the targets, where the parts and the names in
/// them do; so then do all types of a block.
pub fn denoters_carry()
    ensures { CarriedLaw }
{}

/// Behind the type part of a block, whose targets fit it, the name of one of its types means what the targets say, and carries domains that
/// agree with them: so it does in each block inside.
pub fn blocks_hand_on()
    ensures { ClosesLaw }
{}

/// What is carried is good for the targets alone; the types of a type part, each with all of them and all that they carry along, are good
/// for targets that say what these types are, and what others say elsewhere.
pub fn types_go_together()
    ensures { TogetherLaw }
{}
