//! The view `errors`: a line for each entry.

ghost use Rattle.std.specs.Prelude.{◌≡◌, ◌++◌, IfOk};
ghost use Rattle.std.specs.List.{flat_map};
ghost use Rattle.pc_views.specs.Limit.{limited, Agrees};
ghost use Rattle.pc_decl.specs.ErrorsText.{entry_line};

use crate::shown::push_path;
use pc_report::ErrorEntry;
use pc_views::{limited, text_limit};
use std::alloc::{AllocError, Global};

/// The text of the view `errors` for these entries: a line for each, in their order. A line is the path of the entry and its text,
/// with a space between and a line feed at the end. A text of more than 10,000,000 bytes is the one line `view too large` instead.
/// Fails for want of memory only. Work: in proportion to the text up to that limit.
#[tactic(auto, using(crate::specs::AgreesLaws::shown))]
pub fn errors_view(alloc: Global, entries: &[ErrorEntry]) -> Result<Vec<u8>, AllocError>
    ensures { IfOk result (λ text. text.items ≡ limited (flat_map entry_line entries.now)) }
{
    let mut text = Vec::new(alloc);
    push_lines(alloc, &mut text, entries)?;
    limited(alloc, text)
}

/// Adds the lines of the entries, and stops where the text is over the limit.
fn push_lines(alloc: Global, text: &mut Vec<u8>, entries: &[ErrorEntry]) -> Result<(), AllocError>
    ensures { IfOk result (λ _. Agrees text.new.items (text.old.items ++ flat_map entry_line entries.now)) }
{
    for entry in entries {
        if text.len() > text_limit() {
            return Ok(());
        }
        push_line(alloc, text, entry)?;
    }
    Ok(())
}

/// Adds the line of an entry.
fn push_line(alloc: Global, text: &mut Vec<u8>, entry: &ErrorEntry) -> Result<(), AllocError>
    ensures { IfOk result (λ _. text.new.items ≡ text.old.items ++ entry_line entry.now) }
{
    push_path(alloc, text, entry.place())?;
    text.push(b' ')?;
    text.extend_from_slice(entry.text())?;
    text.push(b'\n')?;
    Ok(())
}
