//! The commands of a script.
//!
//! `script` and the numbers of the reads that fail, and below that line the script: each command with its line in angles and
//! its text in braces, and then `.` at the end, `!` for too many units or `?` for a failed read. `lengths` and the script below
//! that line: how long the first command's line and text are, and how many commands there are.

use crate::grown::{cut_at, number, word};
use crate::trouble::Trouble;
use pc_script::{Given, Intake, Next, Stop, next_command};
use pc_world::MemSource;
use std::alloc::Global;

pub fn answer(alloc: Global, input: &[u8]) -> Result<Vec<u8>, Trouble> {
    let (head, script) = cut_at(input, b'\n');
    let (call, fails) = word(head);
    let script = script.to_vec(alloc)?;
    let mut source = MemSource::new(script, numbers(alloc, fails)?);
    match call {
        b"script" => shown(alloc, &mut source),
        b"lengths" => lengths(alloc, &mut source),
        _ => Err(Trouble::BadInput),
    }
}

/// Numbers with spaces between them.
pub fn numbers(alloc: Global, words: &[u8]) -> Result<Vec<u64>, Trouble> {
    let mut all = Vec::new(alloc);
    for part in words.split(|byte| *byte == b' ') {
        if !part.is_empty() {
            all.push(number(part)?)?;
        }
    }
    Ok(all)
}

fn shown(alloc: Global, source: &mut MemSource) -> Result<Vec<u8>, Trouble> {
    let mut intake = Intake::new(alloc)?;
    let mut shown = Vec::new(alloc);
    for _ in 0..20 {
        let end: &[u8] = match next_command(alloc, &mut intake, source) {
            Ok(Next::Item(given)) => {
                push_command(&mut shown, &given)?;
                continue;
            }
            Ok(Next::End) => b".\n",
            Ok(Next::TooMany) => b"!\n",
            Err(Stop::ReadFailed) => b"?\n",
            Err(Stop::NoMemory) => return Err(Trouble::NoMemory),
        };
        shown.extend_from_slice(end)?;
        return Ok(shown);
    }
    Err(Trouble::BadInput)
}

fn push_command(shown: &mut Vec<u8>, given: &Given) -> Result<(), Trouble> {
    shown.push(b'<')?;
    shown.extend_from_slice(given.line.bytes())?;
    shown.push(b'>')?;
    if let Some(here) = &given.here {
        shown.push(b'{')?;
        shown.extend_from_slice(here.bytes())?;
        shown.push(b'}')?;
    }
    Ok(())
}

fn lengths(alloc: Global, source: &mut MemSource) -> Result<Vec<u8>, Trouble> {
    let mut intake = Intake::new(alloc)?;
    let mut text = Vec::new(alloc);
    for commands in 0..20u32 {
        match next_command(alloc, &mut intake, source) {
            Ok(Next::Item(given)) => {
                if commands == 0 {
                    push_lengths(alloc, &mut text, &given)?;
                }
            }
            Ok(_) => {
                let count = format!(in alloc; "{commands} commands\n")?;
                text.extend_from_slice(count.as_bytes())?;
                return Ok(text);
            }
            Err(_) => return Err(Trouble::BadInput),
        }
    }
    Err(Trouble::BadInput)
}

fn push_lengths(alloc: Global, text: &mut Vec<u8>, given: &Given) -> Result<(), Trouble> {
    let line = format!(in alloc; "line {}, ", given.line.bytes().len())?;
    text.extend_from_slice(line.as_bytes())?;
    if let Some(here) = &given.here {
        let here = format!(in alloc; "text {}, ", here.bytes().len())?;
        text.extend_from_slice(here.as_bytes())?;
    }
    Ok(())
}
