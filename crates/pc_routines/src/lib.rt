//! The routines of a block as the block sees them: which is the later declaration of which forward one, which is the first of its name,
//! and what each of them declares.
//!
//! Start at `heads`, which goes once over the routines of a block; then for each of them, in order, come `routine`, `declare_routine` and
//! `Waiting::pass`.
#![tactic(auto)]

mod declaring;
mod facts;
mod forward;
mod gathering;
mod head;
mod kinds;
mod later;
mod noting;
mod routine_at;
mod table;
mod waiting;

pub use declaring::declare_routine;
pub use facts::RoutineFacts;
pub use forward::Forward;
pub use gathering::heads;
pub use head::RoutineHead;
pub use routine_at::routine;
pub use waiting::Waiting;
