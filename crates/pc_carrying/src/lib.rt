//! What the declarations of a block carry along (ISO 7185, 6.4): from what names mean at its start to what they mean at its statement part.
//!
//! Read `Carrying` of `specs/`: when what names mean is carried, and what is found at the nodes of denoters. Then `Parts`: the parts of a
//! block, and the laws.
#![tactic(auto)]

mod laws;

pub use laws::{
    blocks_are_good, inner_blocks_begin, nodes_are_carried, parts_are_carried,
    parts_have_their_kinds, routines_keep_names_good,
};
