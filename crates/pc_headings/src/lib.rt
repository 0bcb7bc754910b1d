//! Headings of routines, and of the program, gone through: their entries, their parameters and their signatures, by numbers.
//!
//! Start at `heading`; `program_heading` is that of the program. What they answer says `Headed` of `specs/`.
#![tactic(auto)]

mod groups;
mod headings;
mod listed;
mod names;
mod parts;
mod program;
mod repeated;
mod results;
mod routine_heading;
mod signatures;
mod types;

pub use headings::heading;
pub use program::program_heading;
pub use routine_heading::RoutineHeading;
