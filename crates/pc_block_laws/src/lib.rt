//! Laws of the declarations of a block, of the owners of a program's routines, and of logs of touched variables.
#![tactic(auto)]

mod laws;

pub use laws::{
    blocks_know_each_name_once, bodies_stand_behind_declarations, known_types_are_own,
    logs_say_what_is_touched, owners_are_new,
};
