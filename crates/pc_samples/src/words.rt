//! Words, paths, keys, numbers and templates.
//!
//! `form WORD`, `path WORD`, `root`, `below PATH NUMBER`, `key WORD`, `number WORD`, `template NAME`, `templates NAME ..`.

use crate::grown::{small, word};
use crate::trouble::Trouble;
use pc_syntax::{
    Key, Path, element_number, is_comment, is_forward, is_identifier, is_key_word, is_numeral,
    is_text, template,
};
use std::alloc::Global;

pub fn answer(alloc: Global, input: &[u8]) -> Result<Vec<u8>, Trouble> {
    let (call, rest) = word(input);
    match call {
        b"form" => Ok(format!(in alloc; "{}\n", form_of(rest))?.into_bytes()),
        b"path" => path(alloc, rest),
        b"root" => steps(alloc, &Path::root(alloc)),
        b"below" => {
            let (from, number) = word(rest);
            let below = Path::read(alloc, from)?.child(alloc, small(number)?)?;
            steps(alloc, &below)
        }
        b"key" => key(alloc, rest),
        b"number" => match element_number(rest) {
            Some(number) => Ok(format!(in alloc; "{number}\n")?.into_bytes()),
            None => Ok(b"none\n".to_vec(alloc)?),
        },
        b"template" => named(alloc, rest),
        b"templates" => count(alloc, rest),
        _ => Err(Trouble::BadInput),
    }
}

fn form_of(word: &[u8]) -> &'static str {
    if is_key_word(word) {
        "key word"
    } else if is_forward(word) {
        "forward"
    } else if is_identifier(word) {
        "name"
    } else if is_numeral(word) {
        "numeral"
    } else if is_text(word) {
        "text"
    } else if is_comment(word) {
        "comment"
    } else {
        "none"
    }
}

fn path(alloc: Global, word: &[u8]) -> Result<Vec<u8>, Trouble> {
    match Path::read(alloc, word) {
        Ok(path) => steps(alloc, &path),
        Err(error) => Ok(format!(in alloc; "{error}\n")?.into_bytes()),
    }
}

fn steps(alloc: Global, path: &Path) -> Result<Vec<u8>, Trouble> {
    Ok(format!(in alloc; "{:?}\n", path.steps())?.into_bytes())
}

fn key(alloc: Global, word: &[u8]) -> Result<Vec<u8>, Trouble> {
    let mut text = Vec::new(alloc);
    match Key::read(alloc, word) {
        Ok(key) => {
            text.extend_from_slice(format!(in alloc; "{}", key.names().len())?.as_bytes())?;
            for name in key.names() {
                text.push(b' ')?;
                text.extend_from_slice(name.bytes())?;
            }
        }
        Err(error) => text.extend_from_slice(format!(in alloc; "{error}")?.as_bytes())?,
    }
    text.push(b'\n')?;
    Ok(text)
}

fn named(alloc: Global, name: &[u8]) -> Result<Vec<u8>, Trouble> {
    let Some(tree) = template(alloc, name)? else {
        return Ok(b"none\n".to_vec(alloc)?);
    };
    let mut text = format!(in alloc; "{:?} ", tree.kind())?.into_bytes();
    if !tree.word().is_empty() {
        text.extend_from_slice(tree.word())?;
        text.push(b' ')?;
    }
    let (size, holes) = (tree.size(), tree.holes());
    text.extend_from_slice(format!(in alloc; "{size} nodes, {holes} holes\n")?.as_bytes())?;
    Ok(text)
}

fn count(alloc: Global, names: &[u8]) -> Result<Vec<u8>, Trouble> {
    let (mut all, mut found) = (0u32, 0u32);
    for name in names.split(|byte| *byte == b' ') {
        all = all.saturating_add(1);
        if template(alloc, name)?.is_some() {
            found = found.saturating_add(1);
        }
    }
    Ok(format!(in alloc; "{found} of {all}\n")?.into_bytes())
}
