//! The rules of denoters of types (ISO 7185, 6.4), over facts by numbers.
#![tactic(auto)]

mod add;
mod arrays;
mod enumerations;
mod names;
mod node;
mod number;
mod pointers;
mod records;
mod rows;
mod sets;
mod simple;
mod subranges;

pub use add::add_type;
pub use arrays::array;
pub use enumerations::enumerated;
pub use names::{type_name, type_of_sighting};
pub use node::{denoter, sized_denoter};
pub use number::{made, number_of};
pub use pointers::pointer;
pub use records::{FieldList, record_type};
pub use rows::{add_base_too_large, add_no_ordinal, add_too_large};
pub use sets::set;
pub use simple::{no_fields, packed};
pub use subranges::subrange;
