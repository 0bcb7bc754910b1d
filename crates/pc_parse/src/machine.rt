//! The machine that reads symbols, a small step at a time.

ghost use Rattle.std.specs.Prelude.{◌≡◌, true, ◌&&◌, IfOk, List, [], ◌∷◌};
ghost use Rattle.pc_syntax.specs.Spellings.{spelling_of};
ghost use Rattle.pc_parse.specs.Machine.{leaf_word, awaited};
ghost use Rattle.pc_parse.specs.Measured as measured;
ghost use Rattle.pc_parse.specs.Tables.{recast, closes, turned_word};
ghost use Rattle.pc_parse.specs.Views.{start_view, grow_view, switch_view, awaited_view, first_view, frame_view, stack, state_view, outcome_view, row_view, IsBuildable};
ghost use Rattle.pc_parse.specs.Rows.{has_kids, made, added, no_kids};

use crate::beginnings::{Beginning, kid_beginning};
use crate::growths::{Growth, node_growth};
use crate::leaves::Leaves;
use crate::lexemes::comes_next;
use crate::rows::{Cut, Node, Row};
use crate::turns::{closes, next_element, recast, turn, turned_word};
use pc_syntax::{Class, Item, Kind, Lexeme, is_forward};
use std::alloc::{AllocError, Global};

/// The front of a node: its kids so far, and what is left of its items.
#[derive(Drop)]
pub struct Frame<'a> {
    node: Node<'a>,
    items: &'static [Item],
}

/// Where the machine stands: nothing is read yet; within a node; or at a node whose kids are there.
#[derive(Drop)]
pub enum Position<'a> {
    Opening,
    Within(Frame<'a>),
    Ended(Node<'a>),
}

/// What a step leads to: a position before the same symbol or after it, the tree, or nothing.
#[derive(Drop)]
pub enum Outcome<'a> {
    Moved(Position<'a>),
    Took(Position<'a>),
    Accepted(Cut),
    Refused,
}

/// One step at the next symbol, which is spelled so.
pub fn step<'a>(
    alloc: Global,
    root: Class,
    position: Position<'a>,
    below: &mut Vec<Frame<'a>>,
    next: Option<Lexeme>,
    word: &'a [u8],
    leaves: &mut Leaves,
) -> Result<Outcome<'a>, AllocError>
    requires { IsBuildable position }
    ensures { IfOk result (λ o. outcome_view o (stack below.new.items)
        ≡ measured.plan root (state_view position.entry (stack below.old.items)) next word.now) }
{
    match position {
        Position::Opening => {
            below.clear();
            Ok(begin(alloc, kid_beginning(root, next), word))
        }
        Position::Within(frame) => step_within(alloc, frame, below, next, word, leaves),
        Position::Ended(node) => step_ended(alloc, root, node, below, next, leaves),
    }
}

/// A kid begins.
fn begin<'a>(alloc: Global, beginning: Beginning, word: &'a [u8]) -> Outcome<'a>
    ensures { (fs : List measured.Frame) → outcome_view result fs ≡ measured.on_start (start_view beginning) word.now fs }
{
    match beginning {
        Beginning::Leaf(kind) => {
            if fits_leaf(kind, word) {
                Outcome::Took(Position::Ended(Node::bare(alloc, kind, word)))
            } else {
                Outcome::Refused
            }
        }
        Beginning::Open(kind, word, items) => Outcome::Took(Position::Within(Frame {
            node: Node::bare(alloc, kind, word),
            items,
        })),
        Beginning::Predict(kind, items) => Outcome::Moved(Position::Within(Frame {
            node: Node::bare(alloc, kind, b""),
            items,
        })),
        Beginning::Blank(kind) => Outcome::Moved(Position::Ended(Node::bare(alloc, kind, b""))),
        Beginning::Nothing => Outcome::Refused,
    }
}

/// Whether the word is one that the leaf may have.
fn fits_leaf(kind: Kind, word: &[u8]) -> bool
    ensures { result ≡ leaf_word kind word.now }
{
    match kind {
        Kind::Forward => is_forward(word),
        _ => true,
    }
}

/// A step within a node.
#[tactic(auto, using(crate::proofs::Stacks::stack_push))]
fn step_within<'a>(
    alloc: Global,
    frame: Frame<'a>,
    below: &mut Vec<Frame<'a>>,
    next: Option<Lexeme>,
    word: &'a [u8],
    leaves: &mut Leaves,
) -> Result<Outcome<'a>, AllocError>
    requires { IsBuildable (Position.Within frame) }
    ensures { IfOk result (λ o. outcome_view o (stack below.new.items)
        ≡ measured.at_items frame.entry.items.now (frame_view frame.entry) (stack below.old.items) next word.now) }
{
    match first_item(frame.items) {
        None => step_past(alloc, frame.node, below, next, word),
        Some((Item::Literal(lexeme), more)) => {
            if comes_next(lexeme, next) {
                return Ok(Outcome::Took(Position::Within(Frame {
                    node: frame.node,
                    items: more,
                })));
            }
            Ok(match turn(frame.node.kind, frame.items, next) {
                Some((kind, items)) => turned(frame.node, kind, items),
                None => match recast(frame.node.kind, frame.items, next) {
                    Some((kind, items)) => recasted(frame.node, kind, items),
                    None => Outcome::Refused,
                },
            })
        }
        Some((Item::Word(_), _)) => Ok(Outcome::Refused),
        Some((Item::Kid(class), _)) => match kid_beginning(class, next) {
            Beginning::Nothing => step_aside(alloc, frame, below, next, leaves),
            beginning => {
                below.push(frame)?;
                Ok(begin(alloc, beginning, word))
            }
        },
    }
}

/// A step where the awaited kid can't come: the node goes on as another, or it is a list that ends.
fn step_aside<'a>(
    alloc: Global,
    frame: Frame<'a>,
    below: &mut Vec<Frame<'a>>,
    next: Option<Lexeme>,
    leaves: &mut Leaves,
) -> Result<Outcome<'a>, AllocError>
    requires { IsBuildable (Position.Within frame) }
    ensures { IfOk result (λ o. outcome_view o (stack below.new.items)
        ≡ measured.on_recast (recast frame.entry.node.kind frame.entry.items.now next) (measured.at_close frame.entry.items.now (frame_view frame.entry) (stack below.old.items)) (frame_view frame.entry) (stack below.old.items)) }
{
    match recast(frame.node.kind, frame.items, next) {
        Some((kind, items)) => Ok(recasted(frame.node, kind, items)),
        None => close(alloc, frame, below, leaves),
    }
}

/// A node goes on as another, and leaves the symbol.
fn recasted<'a>(node: Node<'a>, kind: Kind, items: &'static [Item]) -> Outcome<'a>
    ensures { (fs : List measured.Frame) → outcome_view result fs ≡ measured.Stay (measured.Reading (measured.frame kind node.entry.word.now (row_view node.entry.kids) items.now) fs) }
{
    Outcome::Moved(Position::Within(Frame {
        node: Node {
            kind,
            word: node.word,
            kids: node.kids,
        },
        items,
    }))
}

/// A list ends in front of its last separator: the node below goes on past its last `;`.
#[tactic(auto, using(crate::proofs::Stacks::stack_push))]
fn close<'a>(
    alloc: Global,
    frame: Frame<'a>,
    below: &mut Vec<Frame<'a>>,
    leaves: &mut Leaves,
) -> Result<Outcome<'a>, AllocError>
    requires { IsBuildable (Position.Within frame) }
    ensures { IfOk result (λ o. outcome_view o (stack below.new.items)
        ≡ measured.at_close frame.entry.items.now (frame_view frame.entry) (stack below.old.items)) }
{
    let Some(outer) = below.pop() else {
        return Ok(Outcome::Refused);
    };
    if !may_close(&frame, &outer) {
        return Ok(Outcome::Refused);
    }
    Ok(past_semicolon(outer.node, frame.node.cut(alloc, leaves)?)?)
}

/// Whether the list ends in front of its last separator within the node.
fn may_close(frame: &Frame, outer: &Frame) -> bool
    ensures { result ≡ has_kids (row_view frame.now.node.kids) && closes frame.now.node.kind frame.now.items.now outer.now.node.kind outer.now.items.now }
{
    frame.node.kids.has_kids() && closes(frame.node.kind, frame.items, outer.node.kind, outer.items)
}

/// A node past its last `;`, with the list that stands in front of that.
fn past_semicolon<'a>(node: Node<'a>, list: Cut) -> Result<Outcome<'a>, AllocError>
    ensures { IfOk result (λ o. (fs : List measured.Frame) → outcome_view o fs
        ≡ measured.Stay (measured.Reading (measured.frame node.entry.kind (spelling_of Lexeme.Semicolon) (added (row_view node.entry.kids) list) (Item.Literal Lexeme.KeyEnd ∷ [])) fs)) }
{
    Ok(Outcome::Moved(Position::Within(Frame {
        node: Node {
            kind: node.kind,
            word: b";",
            kids: node.kids.with(list)?,
        },
        items: &[Item::Literal(Lexeme::KeyEnd)],
    })))
}

/// The first of the items, and the others.
fn first_item(items: &'static [Item]) -> Option<(Item, &'static [Item])>
    ensures { items.now ≡ first_view result }
{
    match items {
        [item, more @ ..] => Some((*item, more)),
        [] => None,
    }
}

/// A node goes on with other items, as another kind.
fn turned<'a>(node: Node<'a>, kind: Kind, items: &'static [Item]) -> Outcome<'a>
    ensures { (fs : List measured.Frame) → outcome_view result fs ≡ measured.Take (measured.Reading (measured.frame kind (turned_word kind node.entry.word.now) (row_view node.entry.kids) items.now) fs) }
{
    Outcome::Took(Position::Within(Frame {
        node: Node {
            kind,
            word: turned_word(kind, node.word),
            kids: node.kids,
        },
        items,
    }))
}

/// A step past the items of a node: it goes on at the symbol, begins a further element, or ends.
#[tactic(auto, using(crate::proofs::Stacks::stack_push))]
fn step_past<'a>(
    alloc: Global,
    node: Node<'a>,
    below: &mut Vec<Frame<'a>>,
    next: Option<Lexeme>,
    word: &'a [u8],
) -> Result<Outcome<'a>, AllocError>
    ensures { IfOk result (λ o. outcome_view o (stack below.new.items)
        ≡ measured.at_items [] (measured.frame node.entry.kind node.entry.word.now (row_view node.entry.kids) []) (stack below.old.items) next word.now) }
{
    if let Some((kind, items)) = turn(node.kind, &[], next) {
        return Ok(turned(node, kind, items));
    }
    let Some(class) = next_element(node.kind, next) else {
        return Ok(Outcome::Moved(Position::Ended(node)));
    };
    let items = element_items(class);
    below.push(Frame { node, items })?;
    Ok(begin(alloc, kid_beginning(class, next), word))
}

/// The items of one element.
fn element_items(class: Class) -> &'static [Item]
    ensures { result.now ≡ Item.Kid class ∷ [] }
{
    match class {
        Class::Program => &[Item::Kid(Class::Program)],
        Class::Block => &[Item::Kid(Class::Block)],
        Class::Constdef => &[Item::Kid(Class::Constdef)],
        Class::Typedef => &[Item::Kid(Class::Typedef)],
        Class::Vardef => &[Item::Kid(Class::Vardef)],
        Class::Routine => &[Item::Kid(Class::Routine)],
        Class::Parameter => &[Item::Kid(Class::Parameter)],
        Class::Denoter => &[Item::Kid(Class::Denoter)],
        Class::Structured => &[Item::Kid(Class::Structured)],
        Class::Ordinal => &[Item::Kid(Class::Ordinal)],
        Class::Field => &[Item::Kid(Class::Field)],
        Class::Constant => &[Item::Kid(Class::Constant)],
        Class::Bare => &[Item::Kid(Class::Bare)],
        Class::Statement => &[Item::Kid(Class::Statement)],
        Class::Body => &[Item::Kid(Class::Body)],
        Class::Arm => &[Item::Kid(Class::Arm)],
        Class::Argument => &[Item::Kid(Class::Argument)],
        Class::Member => &[Item::Kid(Class::Member)],
        Class::Operand => &[Item::Kid(Class::Operand)],
        Class::Expression => &[Item::Kid(Class::Expression)],
        Class::Simple => &[Item::Kid(Class::Simple)],
        Class::Term => &[Item::Kid(Class::Term)],
        Class::Factor => &[Item::Kid(Class::Factor)],
        Class::Access => &[Item::Kid(Class::Access)],
        Class::Name => &[Item::Kid(Class::Name)],
        Class::Heads => &[Item::Kid(Class::Heads)],
        Class::Args => &[Item::Kid(Class::Args)],
        Class::Params => &[Item::Kid(Class::Params)],
        Class::Names => &[Item::Kid(Class::Names)],
        Class::Labels => &[Item::Kid(Class::Labels)],
        Class::Indexes => &[Item::Kid(Class::Indexes)],
        Class::Exprs => &[Item::Kid(Class::Exprs)],
        Class::Accesses => &[Item::Kid(Class::Accesses)],
        Class::Members => &[Item::Kid(Class::Members)],
        Class::Consts => &[Item::Kid(Class::Consts)],
        Class::Types => &[Item::Kid(Class::Types)],
        Class::Vars => &[Item::Kid(Class::Vars)],
        Class::Routines => &[Item::Kid(Class::Routines)],
        Class::Fields => &[Item::Kid(Class::Fields)],
        Class::Stmts => &[Item::Kid(Class::Stmts)],
        Class::Arms => &[Item::Kid(Class::Arms)],
    }
}

/// A step at a node whose kids are there.
fn step_ended<'a>(
    alloc: Global,
    root: Class,
    node: Node<'a>,
    below: &mut Vec<Frame<'a>>,
    next: Option<Lexeme>,
    leaves: &mut Leaves,
) -> Result<Outcome<'a>, AllocError>
    requires { IsBuildable (Position.Ended node) }
    ensures { IfOk result (λ o. outcome_view o (stack below.new.items)
        ≡ measured.at_kid (measured.awaited_by root (stack below.old.items)) node.entry.kind (made node.entry.kind node.entry.word.now (row_view node.entry.kids)) (stack below.old.items) next) }
{
    let Some((class, more)) = awaited_by(root, below) else {
        return Ok(Outcome::Refused);
    };
    let kind = node.kind;
    let cut = node.cut(alloc, leaves)?;
    match node_growth(kind, class, next) {
        Growth::Give => {
            if class.has(kind) {
                give(cut, more, below, next)
            } else {
                Ok(Outcome::Refused)
            }
        }
        Growth::Wrap(kind) => Ok(Outcome::Moved(Position::Ended(one_kid(alloc, kind, b"", cut)?))),
        Growth::Shift(kind, word, items) => Ok(Outcome::Took(Position::Within(Frame {
            node: one_kid(alloc, kind, word, cut)?,
            items,
        }))),
        Growth::Enter(kind, items) => Ok(Outcome::Moved(Position::Within(Frame {
            node: one_kid(alloc, kind, b"", cut)?,
            items,
        }))),
    }
}

/// The kid that the innermost node awaits, and the items after it; where there is none, the whole.
#[tactic(auto, using(crate::proofs::Stacks::stack_push))]
fn awaited_by(root: Class, below: &[Frame]) -> Option<(Class, &'static [Item])>
    ensures { awaited_view result ≡ measured.awaited_by root (stack below.now) }
{
    match below.last() {
        Some(frame) => awaited_kid(frame.items),
        None => Some((root, &[])),
    }
}

/// The kid that items await, and the items after it.
fn awaited_kid(items: &'static [Item]) -> Option<(Class, &'static [Item])>
    ensures { awaited_view result ≡ awaited items.now }
{
    match items {
        [Item::Kid(class), more @ ..] => Some((*class, more)),
        _ => None,
    }
}

/// A finished node is the awaited kid.
#[tactic(auto, using(crate::proofs::Stacks::stack_push))]
fn give<'a>(
    cut: Cut,
    more: &'static [Item],
    below: &mut Vec<Frame<'a>>,
    next: Option<Lexeme>,
) -> Result<Outcome<'a>, AllocError>
    ensures { IfOk result (λ o. outcome_view o (stack below.new.items)
        ≡ measured.on_give true cut more.now (stack below.old.items) next) }
{
    let Some(frame) = below.pop() else {
        return Ok(match next {
            Some(_) => Outcome::Refused,
            None => Outcome::Accepted(cut),
        });
    };
    let Node { kind, word, kids } = frame.node;
    let kids = kids.with(cut)?;
    Ok(Outcome::Moved(Position::Within(Frame {
        node: Node { kind, word, kids },
        items: more,
    })))
}

/// A node with its first kid.
fn one_kid<'a>(alloc: Global, kind: Kind, word: &'a [u8], cut: Cut) -> Result<Node<'a>, AllocError>
    ensures { IfOk result (λ node. (node.kind ≡ kind) × (node.word.now ≡ word.now) × (row_view node.kids ≡ added no_kids cut)) }
{
    Ok(Node {
        kind,
        word,
        kids: Row::none(alloc).with(cut)?,
    })
}
