//! What the nodes of a statement part see of their place (ISO 7185, 6.2.2), for the code that will resolve it.
//!
//! Read `Sight` of `specs/`: what is seen from a place, and which kinds of nodes stand in a statement part. `Decorating` names
//! what is found at a node and where the node behind it stands. The pages of laws say how these go on from node to node.
#![tactic(auto)]

mod laws;

pub use laws::statement_parts_see_alike;
