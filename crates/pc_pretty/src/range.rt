//! Ranges: parts of a text by lines and columns.

ghost use Rattle.std.specs.Prelude.{◌≡◌, ◌==◌, ◌&&◌, ◌≤◌, ◌<◌, IfSome, length};
ghost use Rattle.pc_pretty.specs.Ranges.{place_at, range_span};

use pc_lex::Span;

/// A part of a text: from a line and column to before another, both counted from 1, columns in bytes. A line has one
/// column more than it has bytes, that of its line feed.
#[derive(Clone, Copy, Debug, PartialEq, Eq)]
pub struct Range {
    pub from_line: u32,
    pub from_column: u32,
    pub to_line: u32,
    pub to_column: u32,
}

/// The span of a range in a text whose lines all end with a line feed. None where an end isn't in the text or precedes
/// the start.
pub fn span_of(text: &[u8], range: &Range) -> Option<Span>
    ensures value { result ≡ range_span text.now range.now }
    ensures within { IfSome result (λ span. (span.from ≤ span.to) × (span.to ≤ length text.now)) }
{
    let from = place(text, range.from_line, range.from_column)?;
    let to = place(text, range.to_line, range.to_column)?;
    if from <= to {
        Some(Span { from, to })
    } else {
        None
    }
}

/// The place of a line and column, in bytes from 0. None where no byte stands there.
fn place(text: &[u8], line: u32, column: u32) -> Option<usize>
    ensures value { result ≡ place_at text.now line column }
    ensures within { IfSome result (λ at. at < length text.now) }
{
    let mut on_line = 1usize;
    let mut at_column = 1usize;
    for (at, byte) in text.iter().enumerate() {
        if is_there(on_line, at_column, line, column) {
            return Some(at);
        }
        if *byte == b'\n' {
            on_line += 1;
            at_column = 1;
        } else {
            at_column += 1;
        }
    }
    None
}

/// Whether these are the line and the column.
fn is_there(on_line: usize, at_column: usize, line: u32, column: u32) -> bool
    ensures { result ≡ (on_line == line && at_column == column) }
{
    on_line == line as usize && at_column == column as usize
}
