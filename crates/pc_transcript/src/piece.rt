//! What is written for one command.

use pc_syntax::Word;

/// What is written for one command: its reply, none for a line that asks for nothing.
#[derive(Drop)]
pub struct Piece {
    /// The bytes, with their last line feed.
    pub text: Word,
    /// Whether the command is refused.
    pub refuses: bool,
}
