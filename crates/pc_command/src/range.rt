//! The form of a range.

ghost use Rattle.std.specs.Prelude.{◌≡◌, ◌==◌, option_map};
ghost use Rattle.std.specs.List.{position};
ghost use Rattle.pc_command.specs.Ranges.{halves, place_of, range_of};

use pc_pretty::Range;
use pc_syntax::element_number;

/// The range that a word writes: `L:C-L:C`, each number from 1 to 4294967295, leading zeros allowed. None where the word hasn't
/// that form.
#[tactic(auto, unfolding(crate::specs::Ranges::range_of))]
pub fn range_of(word: &[u8]) -> Option<Range>
    ensures { result ≡ range_of word.now }
{
    let (from, to) = halves(b'-', word)?;
    let (from_line, from_column) = place_of(from)?;
    let (to_line, to_column) = place_of(to)?;
    Some(Range {
        from_line,
        from_column,
        to_line,
        to_column,
    })
}

// The line and the column that a word writes: `L:C`.
#[tactic(auto, unfolding(crate::specs::Ranges::place_of))]
fn place_of(word: &[u8]) -> Option<(u32, u32)>
    ensures { result ≡ place_of word.now }
{
    let (line, column) = halves(b':', word)?;
    let line = element_number(line)?;
    let column = element_number(column)?;
    Some((line, column))
}

// What stands before the first such mark, and what stands behind it.
#[tactic(auto, unfolding(crate::specs::Ranges::halves))]
fn halves(mark: u8, word: &[u8]) -> Option<(&[u8], &[u8])>
    ensures { option_map (λ parts. (parts.0.now, parts.1.now)) result ≡ halves mark word.now }
{
    match mark_at(mark, word) {
        Some(i) => Some((&word[..i], &word[i + 1..])),
        None => None,
    }
}

// Where the first such mark stands, from 0.
fn mark_at(mark: u8, word: &[u8]) -> Option<usize>
    ensures { result ≡ position (λ byte. byte == mark) word.now }
{
    word.iter().position(|byte| *byte == mark)
}
