//! What names mean at a place (ISO 7185, 6.2.2).
#![tactic(auto)]

mod building;
mod builtin;
mod counting;
mod decl;
mod found;
mod heading;
mod headings;
mod named;
mod names;
mod naming;
mod owner;
mod parameters;
mod places;
mod region;
mod scopes;
mod site;
mod spelling;
mod waiting;

pub use builtin::{Builtin, required};
pub use decl::Decl;
pub use found::Found;
pub use scopes::Scopes;
