//! Why a text that has no reading, or one over the limits, can't take the place of a node.

ghost use Rattle.std.specs.Prelude.{◌≡◌, ◌<◌, ◌⊎◌, Some, Err};
ghost use Rattle.std.specs.Option.{IsSome};
ghost use Rattle.pc_syntax.specs.Plain.{Plain};
ghost use Rattle.pc_syntax.specs.WellFormed.{depth_limit, size_limit};
ghost use Rattle.pc_syntax.specs.Measured.{level_count, node_count};
ghost use Rattle.pc_syntax.specs.Places.{at, put};
ghost use Rattle.pc_lex.specs.Views.{IsLexed, plain_symbols};
ghost use Rattle.pc_parse.specs.Reading.{class_of};
ghost use Rattle.pc_parse.specs.Answers.{ReadOrMeasured};
ghost use Rattle.pc_session.specs.Editing.{sort_at, IsOver, Fills};

use crate::editing::refused;
use pc_command::Refusal;
use pc_lex::Lexed;
use pc_parse::Unread;
use pc_syntax::{EditError, Path, Sort, Tree, depth_limit};

/// Why the text with these symbols, which are read as a tree of a sort so, can't take the place of the node at a path. The
/// numbers of a piece over the limits are those of the whole new tree.
pub fn unfilled(tree: &Tree, path: &Path, sort: Sort, lexed: &Lexed, error: Unread) -> Refusal
    requires lexed { IsLexed lexed.now }
    requires answered { ReadOrMeasured (class_of sort) lexed.now.text.now (plain_symbols lexed.now.symbols.items) lexed.now.tail.items (Err error) }
    requires place { IsSome (at path.now tree.now) }
    requires sorted { sort_at path.now tree.now ≡ Some sort }
    ensures { Fills path.now lexed.now.text.now tree.now (Err result) }
{
    match error {
        Unread::NotFit(number) => Refusal::NotFit(number),
        Unread::Over { depth, size } => refused(over_with(tree, path, depth, size)),
        Unread::NoMemory => Refusal::NoMemory,
    }
}

/// The refusal of the whole tree with a piece of so many levels and nodes at a path.
fn over_with(tree: &Tree, path: &Path, depth: u32, size: u64) -> EditError
    requires place { IsSome (at path.now tree.now) }
    requires over { (depth_limit < depth) ⊎ (size_limit < size) }
    ensures { (q : Plain) → depth ≡ level_count q → size ≡ node_count q → IsOver (put path.now tree.now q) (Err result) }
{
    let Some(levels) = tree.depth_with(path, depth) else {
        return EditError::NoPlace;
    };
    if levels > depth_limit() {
        return EditError::TooDeep(levels);
    }
    match tree.size_with(path, size) {
        Some(nodes) => EditError::TooLarge(nodes),
        None => EditError::NoPlace,
    }
}
