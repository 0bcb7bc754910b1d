//! Types (ISO 7185, 6.4).
#![tactic(auto)]

mod build;
mod classes;
mod compatibility;
mod expand;
mod fields;
mod form;
mod opening;
mod operand;
mod outline;
mod owner;
mod required;
mod sameness;
mod sizes;
mod strings;
mod targets;
mod types;

pub use expand::ExpandError;
pub use form::{Definition, DomainId, Form, OwnerId, TypeId};
pub use operand::Operand;
pub use owner::Owner;
pub use types::Types;
