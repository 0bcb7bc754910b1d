//! Reading a tree from the symbols of a text.

ghost use Rattle.std.specs.Prelude.{◌≡◌, ◌+◌, ◌≤◌, ℕ, Err, IfOk, length, drop};
ghost use Rattle.pc_syntax.specs.Plain.{Plain};
ghost use Rattle.pc_lex.specs.Views.{IsLexed, plain_symbols, syms};
ghost use Rattle.pc_layout.specs.NotedLaws.{IsBare};
ghost use Rattle.pc_parse.specs.Proper.{Proper};
ghost use Rattle.pc_parse.specs.Lookahead.{look, word_at};
ghost use Rattle.pc_parse.specs.Reading.{class_of};
ghost use Rattle.pc_parse.specs.Answers.{Answered, ReadOrMeasured, Deepens};
ghost use Rattle.pc_parse.specs.Ends.{Ends, Tells, FirstLimit, IsNoted};
ghost use Rattle.pc_parse.specs.Placing.{breadth};
ghost use Rattle.pc_parse.specs.Rows as rows;

use crate::error::{ParseError, Unread};
use crate::leaves::Leaves;
use crate::machine::{Frame, Outcome, Position, step};
use crate::notes::{comments_in, place_notes};
use crate::rows::Cut;
use pc_lex::{Lexed, Symbol, SymbolKind};
use pc_syntax::{Class, Lexeme, Sort, Steps, Tree, depth_limit};
use std::alloc::{AllocError, Global};
use std::sync::ledger::Ledger;

/// A text that was read: its tree, and how many of its comments are not kept.
#[derive(Drop)]
pub struct Reading {
    pub tree: Tree,
    pub dropped: u64,
}

/// The one tree of the sort that has the symbols of the text, and of their comments those that its nodes bear. `NotFit`
/// exactly where no tree has the symbols, with the least number of them that begin no text of the sort; `TooDeep` or
/// `TooLarge` where the tree has more than 256 levels or too many nodes. It takes one step of work for each symbol of a
/// text that it gives the tree of, and else at most one for each symbol up to the one that doesn't fit.
pub fn read<L: Ledger>(
    alloc: Global,
    sort: Sort,
    lexed: &Lexed,
    work: &mut Steps<L>,
) -> Result<Reading, ParseError>
    requires { IsLexed lexed.now }
    ensures answered { Answered (class_of sort) lexed.now.text.now (plain_symbols lexed.now.symbols.items) lexed.now.tail.items result }
    ensures work { work.new ≤ work.old + length lexed.now.symbols.items }
    ensures whole { IfOk result (λ _. work.new ≡ work.old + length lexed.now.symbols.items) }
    ensures refused { (k : ℕ) → result ≡ Err (ParseError.NotFit k) → work.new ≤ work.old + k }
{
    match read_or_measure(alloc, sort, lexed, work) {
        Ok(reading) => Ok(reading),
        Err(unread) => Err(first_limit(unread)),
    }
}

/// The same as `read`, but of a tree over a limit both numbers are told: how many levels and how many nodes it has.
pub fn read_or_measure<L: Ledger>(
    alloc: Global,
    sort: Sort,
    lexed: &Lexed,
    work: &mut Steps<L>,
) -> Result<Reading, Unread>
    requires { IsLexed lexed.now }
    ensures answered { ReadOrMeasured (class_of sort) lexed.now.text.now (plain_symbols lexed.now.symbols.items) lexed.now.tail.items result }
    ensures work { work.new ≤ work.old + length lexed.now.symbols.items }
    ensures whole { IfOk result (λ _. work.new ≡ work.old + length lexed.now.symbols.items) }
    ensures refused { (k : ℕ) → result ≡ Err (Unread.NotFit k) → work.new ≤ work.old + k }
{
    let Run { end, taken } = run_machine(alloc, sort, &lexed.symbols);
    work.tick_by(taken as u64);
    let cut = match end {
        End::Made(cut) => cut,
        End::Refused => return Err(Unread::NotFit(taken as u64 + 1)),
        End::NoMemory => return Err(Unread::NoMemory),
    };
    let tree = match tell(cut) {
        Ok(tree) => tree,
        Err(unread) => return Err(unread),
    };
    let Ok(reading) = with_notes(alloc, tree, lexed) else {
        return Err(Unread::NoMemory);
    };
    Ok(reading)
}

/// The same with the first limit alone that the tree is over: that of the levels, or else that of the nodes.
fn first_limit(unread: Unread) -> ParseError
    ensures { FirstLimit unread result }
{
    match unread {
        Unread::NotFit(number) => ParseError::NotFit(number),
        Unread::Over { depth, size } => {
            if depth > depth_limit() {
                ParseError::TooDeep(depth)
            } else {
                ParseError::TooLarge(size)
            }
        }
        Unread::NoMemory => ParseError::NoMemory,
    }
}

/// The tree with its notes, and the number of comments that it doesn't keep.
fn with_notes(alloc: Global, tree: Tree, lexed: &Lexed) -> Result<Reading, AllocError>
    requires lexed { IsLexed lexed.now }
    requires bare { IsBare tree }
    requires symbols { breadth tree ≡ length lexed.now.symbols.items }
    ensures { IfOk result (IsNoted tree lexed.now) }
{
    let comments = comments_in(lexed);
    if comments == lexed.tail.len() as u64 {
        return Ok(Reading {
            tree,
            dropped: comments,
        });
    }
    let _ = tree.depth();
    let placed = place_notes(alloc, &tree, lexed, 0)?;
    let dropped = comments - placed.count;
    Ok(Reading {
        tree: placed.tree.unwrap_or(tree),
        dropped,
    })
}

/// How many levels the one tree of the sort has that the text writes, whatever its depth and size; none where no tree has
/// the symbols. A number over the last one of its type is that.
pub fn depth_of(alloc: Global, sort: Sort, lexed: &Lexed) -> Result<Option<u32>, AllocError>
    requires { IsLexed lexed.now }
    ensures { IfOk result (Deepens (class_of sort) lexed.now.text.now (plain_symbols lexed.now.symbols.items)) }
{
    let Run { end, taken: _ } = run_machine(alloc, sort, &lexed.symbols);
    match end {
        End::Made(cut) => Ok(Some(cut.depth)),
        End::Refused => Ok(None),
        End::NoMemory => Err(AllocError),
    }
}

/// How a run of the machine ended, and how many symbols it took.
#[derive(Drop)]
struct Run {
    end: End,
    taken: usize,
}

/// What a run of the machine comes to: what is kept of the tree, a symbol or an end that doesn't fit, or want of memory.
#[derive(Drop)]
enum End {
    Made(Cut),
    Refused,
    NoMemory,
}

/// Runs the machine to its end.
fn run_machine(alloc: Global, sort: Sort, symbols: &[Symbol]) -> Run
    requires { Proper (syms (plain_symbols symbols.now)) }
    ensures { Ends (class_of sort) (plain_symbols symbols.now) result }
{
    let Ok(mut leaves) = Leaves::new(alloc) else {
        return Run {
            end: End::NoMemory,
            taken: 0,
        };
    };
    turn_by_turn(alloc, sort, symbols, &mut leaves)
}

/// Runs the machine to its end, with leaves that may be shared, and counts the symbols that it takes.
fn turn_by_turn(alloc: Global, sort: Sort, symbols: &[Symbol], leaves: &mut Leaves) -> Run
    requires { Proper (syms (plain_symbols symbols.now)) }
    ensures { Ends (class_of sort) (plain_symbols symbols.now) result }
{
    let root = class_of(sort);
    let mut below: Vec<Frame> = Vec::new(alloc);
    let mut position = Position::Opening;
    let mut at: usize = 0;
    'reading: loop {
        let rest = rest_of(symbols, at);
        let next = next_lexeme(rest);
        let word = next_word(rest);
        let Ok(outcome) = step(alloc, root, position, &mut below, next, word, leaves) else {
            return Run {
                end: End::NoMemory,
                taken: at,
            };
        };
        match outcome {
            Outcome::Moved(to) => position = to,
            Outcome::Took(to) => {
                position = to;
                at += 1;
            }
            Outcome::Accepted(cut) => {
                return Run {
                    end: End::Made(cut),
                    taken: at,
                };
            }
            Outcome::Refused => {
                return Run {
                    end: End::Refused,
                    taken: at,
                };
            }
        }
    }
}

/// The class of all nodes of a sort.
fn class_of(sort: Sort) -> Class
    ensures { result ≡ class_of sort }
{
    match sort {
        Sort::Program => Class::Program,
        Sort::Block => Class::Block,
        Sort::ConstDef => Class::Constdef,
        Sort::TypeDef => Class::Typedef,
        Sort::VarDef => Class::Vardef,
        Sort::Routine => Class::Routine,
        Sort::Parameter => Class::Parameter,
        Sort::Denoter => Class::Denoter,
        Sort::Field => Class::Field,
        Sort::Constant => Class::Constant,
        Sort::Statement => Class::Statement,
        Sort::Arm => Class::Arm,
        Sort::Expression => Class::Operand,
        Sort::Name => Class::Name,
    }
}

/// The symbols from a place on, counted from 0.
fn rest_of<'s, 'a>(symbols: &'s [Symbol<'a>], at: usize) -> &'s [Symbol<'a>]
    requires { at ≤ length symbols.now }
    ensures { result.now ≡ drop at symbols.now }
{
    &symbols[at..]
}

/// What the next symbol is.
fn next_lexeme(rest: &[Symbol]) -> Option<Lexeme>
    ensures { result ≡ look (syms (plain_symbols rest.now)) }
{
    match rest.first() {
        Some(symbol) => Some(symbol.lexeme()),
        None => None,
    }
}

/// The spelling of the next symbol where it is a name, a numeral or a text, and else nothing.
#[tactic(auto, unfolding(pc_lex::specs::Views::kept))]
fn next_word<'a>(rest: &[Symbol<'a>]) -> &'a [u8]
    ensures { result.now ≡ word_at (syms (plain_symbols rest.now)) }
{
    match rest.first() {
        Some(symbol) => match symbol.kind {
            SymbolKind::Name | SymbolKind::Numeral | SymbolKind::Text => symbol.spelling,
            _ => b"",
        },
        None => b"",
    }
}

/// The tree where it is within the limits, and else its numbers.
fn tell(cut: Cut) -> Result<Tree, Unread>
    ensures { (t : Plain) → cut ≡ rows.cut t → Tells t result }
{
    let Cut { depth, size, tree } = cut;
    match tree {
        Some(tree) => Ok(tree),
        None => Err(Unread::Over { depth, size }),
    }
}
