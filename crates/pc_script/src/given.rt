use pc_syntax::Word;

/// A command as it stands in a script: its line, and the text that it took from the lines after it.
///
/// The line has no line end, and its leading spaces are kept. A line or a text of over 1,000,000 bytes is its first
/// 1,000,001 bytes. A text has a line feed after each of its lines. `here` is none where the line takes no text, and
/// where the script ends before the text does.
#[derive(Drop)]
pub struct Given {
    pub line: Word,
    pub here: Option<Word>,
}
