//! The place of a statement part: what its nodes see.

use pc_facts::{Declared, Signature, Variable};
use pc_names::{BlockId, Names};
use pc_sightings::Touched;
use pc_syntax::Word;
use pc_types::{Operand, OwnerId, Types};

/// The block whose statement part this is: the types, names, declarations and signatures of the program, by their numbers; the
/// number of the block; the routine that it belongs to; the function whose block it is, if it is one's; and a log of the variables that
/// other routines have touched, with a mark since which those stand that the routines in this block did.
pub struct Body<'a> {
    pub types: &'a Types,
    pub names: &'a Names,
    pub declarations: &'a [Declared],
    pub signatures: &'a [Signature],
    pub block: BlockId,
    pub owner: OwnerId,
    pub own_function: Option<Variable>,
    pub inside: &'a Touched,
    pub mark: usize,
}

/// What changes while a statement part is gone through: the types of the records that withs have opened, the innermost last; the
/// variables that were assigned, read, passed as variable arguments or used as control variables so far; the characters of the
/// string constants that were met; and a buffer for a name in small letters.
#[derive(Drop)]
pub struct Going {
    pub opened: Vec<Operand>,
    pub touched: Vec<Variable>,
    pub texts: Vec<Word>,
    pub small: Vec<u8>,
}
