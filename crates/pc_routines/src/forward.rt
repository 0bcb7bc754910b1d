//! What a forward routine gives to its later declaration.

use pc_places::Parameter;
use pc_syntax::Key;
use pc_types::OwnerId;

/// A forward routine: as what it declares, by its number; its key, if it has one; and its parameters, which its later declaration has.
#[derive(Drop)]
pub struct Forward {
    pub owner: OwnerId,
    pub key: Option<Key>,
    pub parameters: Vec<Parameter>,
}
