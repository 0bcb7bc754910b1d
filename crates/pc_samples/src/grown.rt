//! The words of an input, and the trees that it speaks of.

use crate::trouble::Trouble;
use pc_lex::lex;
use pc_parse::read;
use pc_pretty::Range;
use pc_syntax::{Kind, Path, Sort, Steps, Tree, template};
use std::alloc::Global;
use std::sync::ledger::Ledger;

/// What stands before the first byte like this one, and what stands behind it; all of it and nothing where there is none.
pub fn cut_at(input: &[u8], mark: u8) -> (&[u8], &[u8]) {
    match input.iter().position(|byte| *byte == mark) {
        Some(len) => (
            input.get(..len).unwrap_or(input),
            input.get(len.saturating_add(1)..).unwrap_or(b""),
        ),
        None => (input, b""),
    }
}

/// The word before the first space, and what stands behind that space.
pub fn word(input: &[u8]) -> (&[u8], &[u8]) {
    cut_at(input, b' ')
}

/// The value of a row of digits.
pub fn number(word: &[u8]) -> Result<u64, Trouble> {
    if word.is_empty() {
        return Err(Trouble::BadInput);
    }
    let mut value = 0u64;
    for byte in word {
        value = with_digit(value, *byte)?;
    }
    Ok(value)
}

// The number with one more digit behind it.
fn with_digit(value: u64, byte: u8) -> Result<u64, Trouble> {
    let digit = match byte {
        b'0'..=b'9' => u64::from(byte - b'0'),
        _ => return Err(Trouble::BadInput),
    };
    let Some(tens) = value.checked_mul(10) else {
        return Err(Trouble::BadInput);
    };
    match tens.checked_add(digit) {
        Some(sum) => Ok(sum),
        None => Err(Trouble::BadInput),
    }
}

/// The value of a row of digits, of 32 bits.
pub fn small(word: &[u8]) -> Result<u32, Trouble> {
    match u32::try_from(number(word)?) {
        Ok(value) => Ok(value),
        Err(_) => Err(Trouble::BadInput),
    }
}

/// The range that is written `1:2-3:4`, of any numbers.
pub fn range(alloc: Global, word: &[u8]) -> Result<Range, Trouble> {
    let mut numbers = Vec::new(alloc);
    for part in word.split(|byte| *byte == b':' || *byte == b'-') {
        numbers.push(small(part)?)?;
    }
    match numbers.as_slice() {
        [from_line, from_column, to_line, to_column] => {
            Ok(Range {
                from_line: *from_line,
                from_column: *from_column,
                to_line: *to_line,
                to_column: *to_column,
            })
        }
        _ => Err(Trouble::BadInput),
    }
}

/// The sort whose holes have this name.
pub fn sort(alloc: Global, name: &[u8]) -> Result<Sort, Trouble> {
    let mut hole = b"?".to_vec(alloc)?;
    hole.extend_from_slice(name)?;
    match template(alloc, &hole)? {
        Some(tree) => match tree.kind() {
            Kind::Hole(sort) => Ok(sort),
            _ => Err(Trouble::BadInput),
        },
        None => Err(Trouble::BadInput),
    }
}

/// The tree of a sort that a text writes.
pub fn tree<L: Ledger>(
    alloc: Global,
    sort: Sort,
    text: &[u8],
    work: &mut Steps<L>,
) -> Result<Tree, Trouble> {
    let Ok(lexed) = lex(alloc, text) else {
        return Err(Trouble::NoTree);
    };
    match read(alloc, sort, &lexed, work) {
        Ok(reading) => Ok(reading.tree),
        Err(_) => Err(Trouble::NoTree),
    }
}

/// The node that `SORT PATH TEXT` speaks of: that at the path, of the tree that the text writes.
pub fn node<L: Ledger>(alloc: Global, input: &[u8], work: &mut Steps<L>) -> Result<Tree, Trouble> {
    let (name, rest) = word(input);
    let (path, text) = word(rest);
    let path = Path::read(alloc, path)?;
    let whole = tree(alloc, sort(alloc, name)?, text, work)?;
    match whole.at(&path) {
        Some(node) => Ok(node.copy()?),
        None => Err(Trouble::NoTree),
    }
}

/// The levels, nodes and holes of a tree, on a line.
pub fn counts(alloc: Global, tree: &Tree) -> Result<Vec<u8>, Trouble> {
    let (levels, nodes, holes) = (tree.depth(), tree.size(), tree.holes());
    Ok(format!(in alloc; "{nodes} nodes, {levels} levels, {holes} holes\n")?.into_bytes())
}
