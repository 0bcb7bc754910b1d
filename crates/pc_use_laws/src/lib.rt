//! Laws of the view `uses`: what a used name means by the places of declarations.
#![tactic(auto)]

mod laws;

pub use laws::{
    fields_are_no_declared_names, fields_are_seen_where_opened, opened_accesses_go_by_steps,
    opened_names_are_known_by_definitions, places_of_a_block_are_its_routines_own,
    uses_come_by_pairs,
};
