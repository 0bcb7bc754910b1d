//! Trees that are made, and edits by place of the section's tree, which is `?program` at first.
//!
//! `make KIND WORD` with lines `note COMMENT` and `COUNT SORT PATH TEXT`, so often that node; `tree SORT PATH TEXT`;
//! `put PATH TEMPLATE`, `put PATH = SORT PATH TEXT`, `add PATH NUMBER TEMPLATE`, `add PATH NUMBER = SORT PATH TEXT`, `cut PATH`: each
//! answers the counts of the tree that is the section's from then on, or why there is none. `with PATH LEVELS NODES` measures it
//! with such a piece, `at PATH` tells a node's kind, `kid NUMBER` a kid's, `class NUMBER` what may stand there, `show` shows the
//! nodes, `notes` the comments of the first one, and `same SORT PATH TEXT` compares.

use crate::grown::{counts, cut_at, node, number, small, word};
use crate::state::State;
use crate::trouble::Trouble;
use pc_syntax::{EditError, Kind, Note, Path, Sort, Steps, Tree, is_comment, template};
use pc_views::tree_view;
use std::alloc::Global;
use std::sync::ledger::Ledger;

pub fn answer<L: Ledger>(
    alloc: Global,
    state: &mut State,
    input: &[u8],
    work: &mut Steps<L>,
) -> Result<Vec<u8>, Trouble> {
    let (call, rest) = word(input);
    let made = match call {
        b"make" => made(alloc, rest, work)?,
        b"tree" => Ok(node(alloc, rest, work)?),
        b"put" => put(alloc, &state.tree, rest, work)?,
        b"add" => added(alloc, &state.tree, rest, work)?,
        b"cut" => state.tree.cut(alloc, &Path::read(alloc, rest)?),
        b"same" => {
            let same = state.tree.same(&node(alloc, rest, work)?);
            return Ok(format!(in alloc; "{same}\n")?.into_bytes());
        }
        _ => return told(alloc, &state.tree, call, rest),
    };
    match made {
        Ok(tree) => {
            state.tree = tree;
            counts(alloc, &state.tree)
        }
        Err(error) => Ok(format!(in alloc; "{error}\n")?.into_bytes()),
    }
}

// What is asked of the tree.
fn told(alloc: Global, tree: &Tree, call: &[u8], rest: &[u8]) -> Result<Vec<u8>, Trouble> {
    match call {
        b"with" => measured(alloc, tree, rest),
        b"at" => kind_of(alloc, tree.at(&Path::read(alloc, rest)?)),
        b"kid" => kind_of(alloc, tree.kid(small(rest)?)),
        b"class" => match tree.kind().class(small(rest)?) {
            Some(class) => Ok(format!(in alloc; "{class:?}\n")?.into_bytes()),
            None => Ok(b"none\n".to_vec(alloc)?),
        },
        b"show" => Ok(tree_view(alloc, tree)?),
        b"notes" => notes_of(alloc, tree),
        _ => Err(Trouble::BadInput),
    }
}

fn kind_of(alloc: Global, node: Option<&Tree>) -> Result<Vec<u8>, Trouble> {
    match node {
        Some(node) => Ok(format!(in alloc; "{:?}\n", node.kind())?.into_bytes()),
        None => Ok(b"none\n".to_vec(alloc)?),
    }
}

fn notes_of(alloc: Global, tree: &Tree) -> Result<Vec<u8>, Trouble> {
    let mut text = format!(in alloc; "{}", tree.notes().len())?.into_bytes();
    for note in tree.notes() {
        text.push(b' ')?;
        text.extend_from_slice(note.bytes())?;
    }
    text.push(b'\n')?;
    Ok(text)
}

fn measured(alloc: Global, tree: &Tree, rest: &[u8]) -> Result<Vec<u8>, Trouble> {
    let (path, counts) = word(rest);
    let (levels, nodes) = word(counts);
    let path = Path::read(alloc, path)?;
    let depth = tree.depth_with(&path, small(levels)?);
    let size = tree.size_with(&path, number(nodes)?);
    match (depth, size) {
        (Some(depth), Some(size)) => {
            Ok(format!(in alloc; "{size} nodes, {depth} levels\n")?.into_bytes())
        }
        (None, None) => Ok(b"none\n".to_vec(alloc)?),
        _ => Ok(b"one alone\n".to_vec(alloc)?),
    }
}

// A piece: a template by its name, or `= SORT PATH TEXT`.
fn piece<L: Ledger>(alloc: Global, named: &[u8], work: &mut Steps<L>) -> Result<Tree, Trouble> {
    if let Some(written) = named.strip_prefix(b"= ") {
        return node(alloc, written, work);
    }
    match template(alloc, named)? {
        Some(tree) => Ok(tree),
        None => Err(Trouble::BadInput),
    }
}

fn put<L: Ledger>(
    alloc: Global,
    tree: &Tree,
    rest: &[u8],
    work: &mut Steps<L>,
) -> Result<Result<Tree, EditError>, Trouble> {
    let (path, named) = word(rest);
    let piece = piece(alloc, named, work)?;
    Ok(tree.put(alloc, &Path::read(alloc, path)?, &piece))
}

fn added<L: Ledger>(
    alloc: Global,
    tree: &Tree,
    rest: &[u8],
    work: &mut Steps<L>,
) -> Result<Result<Tree, EditError>, Trouble> {
    let (path, rest) = word(rest);
    let (k, named) = word(rest);
    let piece = piece(alloc, named, work)?;
    Ok(tree.add(alloc, &Path::read(alloc, path)?, small(k)?, &piece))
}

fn made<L: Ledger>(
    alloc: Global,
    rest: &[u8],
    work: &mut Steps<L>,
) -> Result<Result<Tree, EditError>, Trouble> {
    let (head, below) = cut_at(rest, b'\n');
    let (kind, spelled) = word(head);
    let kind = kind_named(kind)?;
    let mut notes = Vec::new(alloc);
    let mut kids = Vec::new(alloc);
    for line in below.split(|byte| *byte == b'\n') {
        let (first, rest) = word(line);
        if first == b"note".as_slice() {
            if !is_comment(rest) {
                return Err(Trouble::BadInput);
            }
            notes.push(Note::new(alloc, rest)?)?;
        } else if !line.is_empty() {
            let kid = node(alloc, rest, work)?;
            for _ in 0..small(first)? {
                kids.push(kid.copy()?)?;
            }
        }
    }
    Ok(Tree::make(alloc, kind, spelled, notes, kids))
}

fn kind_named(name: &[u8]) -> Result<Kind, Trouble> {
    match name {
        b"?name" => Ok(Kind::Hole(Sort::Name)),
        b"args" => Ok(Kind::Args),
        b"compound" => Ok(Kind::Compound),
        b"consts" => Ok(Kind::Consts),
        b"if" => Ok(Kind::If),
        b"ifelse" => Ok(Kind::Ifelse),
        b"mul" => Ok(Kind::Mul),
        b"name" => Ok(Kind::Name),
        b"parens" => Ok(Kind::Parens),
        b"stmts" => Ok(Kind::Stmts),
        b"vars" => Ok(Kind::Vars),
        _ => Err(Trouble::BadInput),
    }
}
