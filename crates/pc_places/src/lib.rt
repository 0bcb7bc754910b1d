//! The tables of a program while its declarations are gone through, and what names mean by them.
//!
//! Start at `Tables`. When they stand for a place among the declarations of a block says `Places` of `specs/`; `steps` takes them to the
//! next place, and `used_name` says what a name means there.
#![tactic(auto)]

mod at_place;
mod constants;
mod names;
mod parameter;
mod steps;
mod tables;

pub use at_place::{constant_at_place, name_at_place};
pub use constants::constant;
pub use names::used_name;
pub use parameter::Parameter;
pub use steps::{announce, complete, declare, is_passed, number, pass, retell};
pub use tables::Tables;
