//! From which types of a program nothing unknown is reached (ISO 7185, 6.4.4).
//!
//! Start at `Whole`: a flag for each type of a table of types, and what `settle` makes of the types that were added since. What whole
//! means stands in `specs/Whole.antt`, how it is found in `specs/Search.antt`.
#![tactic(auto)]

mod laws;
mod marks;
mod needs;
mod numbers;
mod search;
mod users;
mod whole;

pub use laws::{
    flags_stay_right, numbers_agree_with_rules, reached_places_decide,
    whole_types_lead_to_whole_types,
};
pub use whole::Whole;
