//! Commands.

use pc_pretty::Range;
use pc_syntax::{Path, Word};

/// What a command line asks for.
#[derive(Drop)]
pub enum Command {
    /// `load TEXT`: the program that the text writes becomes the session's.
    Load(Word),
    /// `put PATH TEMPLATE`: a piece of this name is put where the path leads.
    Put(Path, Word),
    /// `add PATH K TEMPLATE`: a piece of this name becomes the element with this number, from 1, of the list where the path leads.
    Add(Path, u32, Word),
    /// `fill PATH TEXT`: the piece that the text writes is put where the path leads.
    Fill(Path, Word),
    /// `retype RANGE TEXT`: the text takes the place of the range in the program's printed text.
    Retype(Range, Word),
    /// `cut PATH`: what stands where the path leads is taken out.
    Cut(Path),
    /// `undo`: back to before the last change.
    Undo,
    /// `redo`: the change that was undone last, again.
    Redo,
    /// `show VIEW`.
    Show(ViewName),
}

/// What is to be shown.
#[derive(Debug, Drop, PartialEq, Eq)]
pub enum ViewName {
    /// The text of the program.
    Syntax,
    /// The nodes of its tree, a line for each (the word is `tree`).
    Nodes,
    /// What its routines declare, a line for each routine and each name (the word is `decls`).
    Decls,
    /// Its errors, a line for each.
    Errors,
}
