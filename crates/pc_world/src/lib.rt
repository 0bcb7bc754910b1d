//! The outside of the program: a source from which bytes come, a sink to which bytes go, and a shelf
//! on which files are kept.
//!
//! Start at the traits `Source`, `Sink` and `Shelf`. Each has a count of faults, and a call fails
//! only where the count rose in that call (`HasCause` of `specs/Causes.antt`). `StdSource` and
//! `StdSink` pass on what a reader or a writer does, and tell of its bytes what it tells itself: of a
//! terminal or a file nothing. `MemSource`, `MemSink` and `MemShelf` are in memory, tell all that
//! they hold (`specs/InMemory.antt`), and fail at exactly the calls that were chosen for them
//! (`specs/Plan.antt`).
#![tactic(auto)]

mod failures;
mod memory_shelf;
mod memory_sink;
mod memory_source;
mod shelf;
mod sink;
mod source;
mod standard;

pub use memory_shelf::MemShelf;
pub use memory_sink::MemSink;
pub use memory_source::MemSource;
pub use shelf::{Shelf, ShelfError};
pub use sink::{Sink, put_all};
pub use source::{Failed, Source};
pub use standard::{StdSink, StdSource};
