//! The printed text of a tree.

ghost use Rattle.std.specs.Prelude.{◌≡◌, ◌+◌, ◌*◌, ◌≤◌, ◌++◌, IfOk, IsTrue, length};
ghost use Rattle.pc_syntax.specs.Spellings.{spelling_of};
ghost use Rattle.pc_syntax.specs.WellFormed.{depth_of};
ghost use Rattle.pc_pretty.specs.Spacing as table;
ghost use Rattle.pc_pretty.specs.Spacing.{spaces};
ghost use Rattle.pc_pretty.specs.Printed as spec;
ghost use Rattle.pc_pretty.specs.Joined.{join, piece_spans, symbol_span};
ghost use Rattle.pc_pretty.specs.Preorder.{AddsSpans, text_spans};
ghost use Rattle.pc_layout.specs.Noted.{HasNotes};
ghost use Rattle.pc_pretty.specs.Notes.{tree_notes};
ghost use Rattle.pc_pretty.specs.Laws.{Spelled, ReadsBack};

use crate::spacing::{Place, Spacing, space};
use crate::spans::{keep_place, put_span, through};
use pc_layout::node_items;
use pc_lex::Span;
use pc_syntax::{Item, Kind, Lexeme, Note, Tree};
use std::alloc::{AllocError, Global};

/// The text of a tree: its symbols with white space between them, and a line feed at the end. The notes of a node
/// stand before its first symbol, each on a line of its own. Fails for want of memory only.
pub fn print(alloc: Global, tree: &Tree) -> Result<Vec<u8>, AllocError>
    ensures value { IfOk result (λ text. text.items ≡ spec.printed tree.now) }
    ensures spelled { IfOk result (λ text. Spelled text.items tree.now) }
    ensures noted { IfOk result (λ _. HasNotes tree.now (tree_notes tree.now)) }
    ensures read_back { IfOk result (λ text. ReadsBack text.items tree.now) }
{
    let _ = tree.depth();
    let mut spans = Vec::new(alloc);
    print_whole(alloc, tree, false, &mut spans)
}

/// The text of a tree, and, if they are asked for, the spans of its nodes in preorder behind those that are there.
#[tactic(auto, unfolding(crate::specs::Printed::printed))]
pub fn print_whole(
    alloc: Global,
    tree: &Tree,
    asked: bool,
    spans: &mut Vec<Option<Span>>,
) -> Result<Vec<u8>, AllocError>
    ensures value { IfOk result (λ text. text.items ≡ spec.printed tree.now) }
    ensures spans { IfOk result (λ _. IsTrue asked → spans.new.items ≡ spans.old.items ++ text_spans tree.now) }
{
    let _ = tree.depth();
    let mut text = Vec::new(alloc);
    let place = Place {
        spacing: Spacing::Tight,
        indentation: 0,
    };
    let _ = print_node(alloc, tree, place, asked, &mut text, spans)?;
    text.push(b'\n')?;
    Ok(text)
}

/// Adds the text of a node at a place, and the spans of the node and all below it, if they are asked for. Gives its
/// span; none where it has no symbol.
fn print_node(
    alloc: Global,
    tree: &Tree,
    place: Place,
    asked: bool,
    out: &mut Vec<u8>,
    spans: &mut Vec<Option<Span>>,
) -> Result<Option<Span>, AllocError>
    requires { place.indentation + 2 * depth_of tree.now ≤ 512 }
    ensures text { IfOk result (λ _. out.new.items ≡ out.old.items ++ spec.text_of (spec.pieces_of tree.now place)) }
    ensures span { IfOk result (λ span. span ≡ join (piece_spans (length out.old.items) (spec.pieces_of tree.now place))) }
    ensures spans { IfOk result (λ _. IsTrue asked → AddsSpans tree.now (piece_spans (length out.old.items) (spec.pieces_of tree.now place)) spans.old.items spans.new.items) }
{
    let kind = tree.kind();
    let word = tree.word();
    let kids = tree.kid_slice();
    let items = node_items(alloc, kind, word, kids.len())?;
    let indentation = place.inner();
    let at = keep_place(asked, spans)?;
    let mut number = 0;
    let mut kept = Some(push_notes(out, place, tree.notes())?);
    let mut span = None;
    for (n, item) in items.as_slice().iter().enumerate() {
        let own = own_place(kept, kind, n, *item, indentation);
        let printed = match item {
            Item::Literal(lexeme) => Some(push_symbol(out, own, *lexeme, &[])?),
            Item::Word(lexeme) => Some(push_symbol(out, own, *lexeme, word)?),
            Item::Kid(_) => {
                let kid = &kids[number];
                number += 1;
                print_node(alloc, kid, own, asked, out, spans)?
            }
        };
        kept = kept_next(kind, kept, own, printed.is_some());
        span = through(span, printed);
    }
    put_span(asked, spans, at, span);
    Ok(span)
}

/// Adds the notes of a node at a place, and says where its first symbol stands behind them.
fn push_notes(out: &mut Vec<u8>, place: Place, notes: &[Note]) -> Result<Place, AllocError>
    requires { place.indentation ≤ 998 }
    ensures text { IfOk result (λ _. out.new.items ≡ out.old.items ++ spec.note_text notes.now place) }
    ensures behind { IfOk result (λ behind. behind ≡ spec.behind notes.now place) }
{
    let mut at = place;
    for note in notes {
        push_gap(out, at)?;
        out.extend_from_slice(note.bytes())?;
        at = Place {
            spacing: Spacing::Line,
            indentation: at.inner(),
        };
    }
    Ok(at)
}

/// The place of the item with a number of a node: the one that is kept, or else its own.
fn own_place(kept: Option<Place>, kind: Kind, n: usize, item: Item, indentation: u32) -> Place
    ensures { result ≡ spec.or_own kept (spec.place (table.space kind n item) indentation) }
{
    match kept {
        Some(place) => place,
        None => Place {
            spacing: space(kind, n, item),
            indentation,
        },
    }
}

/// What is kept after an item that was printed or had no symbol.
#[tactic(auto, unfolding(crate::specs::Printed::kept_after))]
fn kept_next(kind: Kind, kept: Option<Place>, own: Place, printed: bool) -> Option<Place>
    ensures { result ≡ spec.kept_next kind kept own printed }
{
    if printed {
        return None;
    }
    match kind {
        Kind::Stmts => Some(own),
        _ => kept,
    }
}

/// Adds a symbol at a place: the white space before it and how it is written. Gives its span.
fn push_symbol(
    out: &mut Vec<u8>,
    place: Place,
    lexeme: Lexeme,
    word: &[u8],
) -> Result<Span, AllocError>
    requires { place.indentation ≤ 1000 }
    ensures text { IfOk result (λ _. out.new.items ≡ out.old.items ++ (spec.gap_at place ++ (spelling_of lexeme ++ word.now))) }
    ensures span { IfOk result (λ span. span ≡ symbol_span (length out.old.items) (spec.gap_at place) (spelling_of lexeme ++ word.now)) }
{
    push_gap(out, place)?;
    let from = out.len();
    out.extend_from_slice(lexeme.spelling())?;
    out.extend_from_slice(word)?;
    Ok(Span {
        from,
        to: out.len(),
    })
}

/// Adds the white space of a place.
fn push_gap(out: &mut Vec<u8>, place: Place) -> Result<(), AllocError>
    requires { place.indentation ≤ 1000 }
    ensures { IfOk result (λ _. out.new.items ≡ out.old.items ++ spec.gap_at place) }
{
    match place.spacing {
        Spacing::Tight => {}
        Spacing::Space => out.push(b' ')?,
        Spacing::Line | Spacing::Deeper => {
            out.push(b'\n')?;
            push_spaces(out, place.inner())?;
        }
    }
    Ok(())
}

/// Adds so many spaces.
fn push_spaces(out: &mut Vec<u8>, count: u32) -> Result<(), AllocError>
    ensures { IfOk result (λ _. out.new.items ≡ out.old.items ++ spaces count) }
{
    for _i in 0..count {
        out.push(b' ')?;
    }
    Ok(())
}
