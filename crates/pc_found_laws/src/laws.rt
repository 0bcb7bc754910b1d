//! Laws of the view `expr`.

ghost use Rattle.pc_found_laws.specs.FoundThere.{FoundLaw};
ghost use Rattle.pc_found_laws.specs.RolesAlong.{RolesLaw};
ghost use Rattle.pc_found_laws.specs.Seen.{SeenLaw};
ghost use Rattle.pc_found_laws.specs.Standing.{StandingLaw};
ghost use Rattle.pc_found_laws.specs.TypesThere.{TypeLaw};
ghost use Rattle.pc_found_laws.specs.Ways.{WaysLaw};

/// A kid of a node that stands in a statement part stands there too, behind the kids before it.
pub fn ways_go_on_by_a_kid()
    ensures { WaysLaw }
{}

/// What the view finds at the place of a node that stands in a statement part is what the rules find at it there.
pub fn found_at_places()
    ensures { FoundLaw }
{}

/// The role of an expression is known from the kind of the node above it, from the one above that, and from what the name means that is
/// the first kid there.
pub fn roles_come_along_the_way()
    ensures { RolesLaw }
{}

/// Where no `with` is above a node that stands in a statement part, it sees what the statement part sees.
pub fn places_see_what_their_part_sees()
    ensures { SeenLaw }
{}

/// Each expression of a program stands in the statement part of a routine, which is the one around its place.
pub fn expressions_stand_in_statement_parts()
    ensures { StandingLaw }
{}

/// The type at the place of an expression that stands in a statement part is that of its judgement there, in the role that it has.
pub fn types_come_from_what_is_found()
    ensures { TypeLaw }
{}
