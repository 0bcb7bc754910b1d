//! A routine in the block around it, up to where its own block begins: its entries there and those of its heading, its number as an
//! owner, its declaration, and its parameters.
//!
//! Start at `routine_site`; what it finds says `SiteFound` of `specs/Sites.antt`.
#![tactic(auto)]

mod declaring;
mod identity;
mod keys;
mod numbering;
mod passing;
mod selves;
mod site;
mod sites;

pub use site::{RoutineFound, RoutineSite};
pub use sites::routine_site;
