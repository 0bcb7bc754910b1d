//! The commands of a script: its bytes are cut into units, the units into lines, and the lines into commands.
//!
//! Start at `next_command`. What a script's commands are stands in `specs/Script.antt`, and what a call says of the
//! bytes that it took in `specs/Reading.antt`.
#![tactic(auto)]

mod ahead;
mod command;
mod given;
mod intake;
mod lines;

pub use ahead::{Next, Stop};
pub use command::next_command;
pub use given::Given;
pub use intake::{Intake, unit_length, unit_limit};
