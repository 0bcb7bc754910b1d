//! A block is begun: its parameters are declared, and all names that it declares somewhere are known.
//!
//! Start at `open_block`; what it does says `Opens` of `Opened` in `specs/`.
#![tactic(auto)]

mod announcing;
mod kinds;
mod opening;
mod parameters;

pub use opening::open_block;
