//! What is answered to a script: each of its commands is done, and its reply is written.
//!
//! Start at `pecan` in `run.rt`. What it writes is a transcript of the script
//! (`specs/Transcript.antt`): for each command one piece, which `specs/Obeying.antt` allows as its
//! answer. `obey` in `obeying.rt` does one command.
#![tactic(auto)]

mod laws;
mod obeying;
mod piece;
mod run;
mod status;

pub use laws::one_reply;
pub use obeying::{obey, obey_line};
pub use piece::Piece;
pub use run::pecan;
pub use status::Status;
