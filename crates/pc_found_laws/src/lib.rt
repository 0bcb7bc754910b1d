//! Laws of the view `expr`: what is found at places inside statement parts, for code that goes down to them.
#![tactic(auto)]

mod laws;

pub use laws::{
    expressions_stand_in_statement_parts, found_at_places, places_see_what_their_part_sees,
    roles_come_along_the_way, types_come_from_what_is_found, ways_go_on_by_a_kid,
};
