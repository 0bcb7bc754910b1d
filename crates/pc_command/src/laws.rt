//! Laws of the definitions.

ghost use Rattle.pc_command.specs.Laws.{PassesOver, NeedsItsText};

/// A text from the lines after a line counts exactly where `here_word` says that the line takes one.
pub fn texts_that_are_taken()
    ensures passes_over { PassesOver }
    ensures needs { NeedsItsText }
{}
