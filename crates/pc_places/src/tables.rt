//! All that is known of a program, by numbers.

use pc_facts::{Declared, Signature};
use pc_names::Names;
use pc_syntax::Word;
use pc_types::Types;

/// The types, the names, the declarations, the signatures of routines and the characters of strings that were met so far, each at its
/// number; and a buffer for a name in small letters.
#[derive(Drop)]
pub struct Tables {
    pub types: Types,
    pub names: Names,
    pub declarations: Vec<Declared>,
    pub signatures: Vec<Signature>,
    pub texts: Vec<Word>,
    pub small: Vec<u8>,
}
