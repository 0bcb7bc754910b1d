//! The notes of a tree that was read: each node that bears notes gets the comments directly before its first symbol.

ghost use Rattle.std.specs.Prelude.{◌≡◌, ◌+◌, ◌-◌, ◌<◌, ◌≤◌, ◌++◌, ◌∷◌, [], IfOk, length, map, take, drop, slice_index_or, unwrap_or};
ghost use Rattle.std.specs.List.{All};
ghost use Rattle.pc_lex.specs.Views.{IsLexed, plain_symbols};
ghost use Rattle.pc_layout.specs.Noted as noted;
ghost use Rattle.pc_parse.specs.Comments.{bytes_at, IsNote, notes_of_lexed, comments_in};
ghost use Rattle.pc_parse.specs.Placing.{breadth, is_kid, row, IsPlaced, IsWhole};

use crate::quiet::{behind, is_quiet};
use pc_layout::node_items;
use pc_lex::{Lexed, Span};
use pc_syntax::{Item, Kind, Note, Tree};
use std::alloc::{AllocError, Global};

/// A tree whose nodes have their notes.
#[derive(Drop)]
pub struct Placed {
    /// None where it is as it was.
    pub tree: Option<Tree>,
    /// The place after its last symbol, in symbols from 0.
    pub end: usize,
    /// How many notes its nodes have.
    pub count: u64,
}

/// How many comments the text has, before symbols and after the last one.
pub fn comments_in(lexed: &Lexed) -> u64
    requires { IsLexed lexed.now }
    ensures { result ≡ comments_in (plain_symbols lexed.now.symbols.items) lexed.now.tail.items }
{
    let _most = bytes_in(lexed.text);
    let mut count = lexed.tail.len() as u64;
    for symbol in &lexed.symbols {
        count = count.saturating_add(symbol.notes.len() as u64);
    }
    count
}

/// How many bytes a text has.
fn bytes_in(text: &[u8]) -> usize
    ensures { result ≡ length text.now }
{
    text.len()
}

/// The tree with its notes, where its symbols begin at a place, in symbols from 0. The parts in which nothing changes are
/// shared with the tree.
pub fn place_notes(
    alloc: Global,
    tree: &Tree,
    lexed: &Lexed,
    start: usize,
) -> Result<Placed, AllocError>
    requires lexed { IsLexed lexed.now }
    requires within { start + breadth tree.now ≤ length lexed.now.symbols.items }
    ensures { IfOk result (IsPlaced tree.now (notes_of_lexed lexed.now) start) }
{
    let kind = tree.kind();
    if is_quiet(kind) {
        return Ok(Placed {
            tree: None,
            end: behind(tree, start),
            count: 0,
        });
    }
    let kids = tree.kid_slice();
    let items = node_items(alloc, kind, tree.word(), kids.len())?;
    let mut made: Vec<Tree> = Vec::new(alloc);
    let mut number = 0;
    let mut at = start;
    let mut count = 0u64;
    for (n, item) in items.as_slice().iter().enumerate() {
        if is_kid(*item) {
            let kid = &kids[number];
            let below = place_notes(alloc, kid, lexed, at)?;
            keep(&mut made, kids, number, kid, below.tree)?;
            number += 1;
            at = below.end;
            count = count.saturating_add(below.count);
        } else {
            at += 1;
        }
    }
    finish(alloc, tree, lexed, start, made, at, count)
}

/// Whether the item is a kid.
fn is_kid(item: Item) -> bool
    ensures { result ≡ is_kid item }
{
    matches!(item, Item::Kid(_))
}

/// Adds a kid after the first `number` kids, with its notes where they are given.
fn keep(
    made: &mut Vec<Tree>,
    kids: &[Tree],
    number: usize,
    kid: &Tree,
    noted: Option<Tree>,
) -> Result<(), AllocError>
    requires few { length made.old.items ≤ number }
    requires there { number < length kids.now }
    requires kid { kid.now ≡ slice_index_or kids.now number kid.now }
    ensures row { IfOk result (λ _. row made.new.items kids.now (number + 1) ≡ row made.old.items kids.now number ++ unwrap_or noted kid.now ∷ []) }
    ensures few { IfOk result (λ _. length made.new.items ≤ number + 1) }
{
    if let Some(tree) = noted {
        fill(made, kids, number)?;
        made.push(tree)?;
    }
    Ok(())
}

/// Adds the first `number` kids behind those that were made, as they are.
fn fill(made: &mut Vec<Tree>, kids: &[Tree], number: usize) -> Result<(), AllocError>
    requires few { length made.old.items ≤ number }
    requires there { number ≤ length kids.now }
    ensures { IfOk result (λ _. made.new.items ≡ row made.old.items kids.now number) }
{
    for i in made.len()..number {
        made.push(kids[i].copy()?)?;
    }
    Ok(())
}

/// The node with its own notes and those of its kids.
fn finish(
    alloc: Global,
    tree: &Tree,
    lexed: &Lexed,
    start: usize,
    mut made: Vec<Tree>,
    end: usize,
    below: u64,
) -> Result<Placed, AllocError>
    requires lexed { IsLexed lexed.now }
    requires within { end ≤ length lexed.now.symbols.items }
    requires whole { IsWhole tree.now (notes_of_lexed lexed.now) start made.items end below }
    ensures { IfOk result (IsPlaced tree.now (notes_of_lexed lexed.now) start) }
{
    let kind = tree.kind();
    let kids = tree.kid_slice();
    let notes = own_notes(alloc, kind, kids.len(), lexed, start, end)?;
    if made.is_empty() && notes.is_empty() && tree.notes().is_empty() {
        return Ok(Placed {
            tree: None,
            end,
            count: below,
        });
    }
    let count = below.saturating_add(notes.len() as u64);
    fill(&mut made, kids, kids.len())?;
    let noted = Tree::of_noted(alloc, kind, tree.word(), notes, made)?;
    Ok(Placed {
        tree: Some(noted),
        end,
        count,
    })
}

/// The notes of a node with so many kids, whose symbols stand from a place to before another.
fn own_notes(
    alloc: Global,
    kind: Kind,
    kids: usize,
    lexed: &Lexed,
    start: usize,
    end: usize,
) -> Result<Vec<Note>, AllocError>
    requires lexed { IsLexed lexed.now }
    requires within { end ≤ length lexed.now.symbols.items }
    ensures { IfOk result (λ notes. notes.items ≡ noted.own_notes kind kids (take (end - start) (drop start (notes_of_lexed lexed.now)))) }
{
    if end <= start || !keeps_notes(kind, kids) {
        return Ok(Vec::new(alloc));
    }
    notes_of(alloc, lexed.text, &lexed.symbols[start].notes)
}

/// Whether a node of this kind with so many kids bears notes.
fn keeps_notes(kind: Kind, kids: usize) -> bool
    ensures { result ≡ noted.keeps_notes kind kids }
{
    kind.bears_notes() && !(kids == 0 && kind.is_list())
}

/// The comments of the text that stand at these places.
fn notes_of(alloc: Global, text: &[u8], places: &[Span]) -> Result<Vec<Note>, AllocError>
    requires { All (IsNote text.now) places.now }
    ensures { IfOk result (λ notes. notes.items ≡ map (bytes_at text.now) places.now) }
{
    let mut notes = Vec::new(alloc);
    for place in places {
        notes.push(Note::new(alloc, &text[place.from..place.to])?)?;
    }
    Ok(notes)
}
