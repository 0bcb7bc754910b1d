//! Laws of the routines of a program, for code that visits them in text order.
#![tactic(auto)]

mod laws;

pub use laws::{
    bodies_touch, changes_are_seen_in_errors_alone, declarations_see_no_signature,
    first_ones_give_signatures, inner_routines_touch, routines_come_in_order,
};
