//! Whole runs over objects in memory: a script, and all that is written.

use crate::commands::numbers;
use crate::grown::{cut_at, number, word};
use crate::trouble::Trouble;
use pc_syntax::Steps;
use pc_transcript::{Status, pecan};
use pc_world::{MemShelf, MemSink, MemSource};
use std::alloc::Global;
use std::sync::ledger::Ledger;

// How a run is disturbed: the reads and the writes with these numbers fail, the sink has room for so many bytes, and the
// command line has a word.
#[derive(Drop)]
struct Faults {
    reads: Vec<u64>,
    writes: Vec<u64>,
    room: usize,
    words: Vec<String>,
}

impl Faults {
    fn none(alloc: Global) -> Faults {
        Faults {
            reads: Vec::new(alloc),
            writes: Vec::new(alloc),
            room: 100_000,
            words: Vec::new(alloc),
        }
    }
}

/// The script is the input.
pub fn answer<L: Ledger>(
    alloc: Global,
    input: &[u8],
    work: &mut Steps<L>,
) -> Result<Vec<u8>, Trouble> {
    run(alloc, input, Faults::none(alloc), work)
}

/// The first line says what goes wrong: `reads` or `writes` with the numbers of those that fail, `room` with the number of bytes that
/// the sink takes, or `word` for a word of the command line. The script stands below it.
pub fn faulty<L: Ledger>(
    alloc: Global,
    input: &[u8],
    work: &mut Steps<L>,
) -> Result<Vec<u8>, Trouble> {
    let (head, script) = cut_at(input, b'\n');
    let (what, rest) = word(head);
    let mut faults = Faults::none(alloc);
    match what {
        b"reads" => faults.reads = numbers(alloc, rest)?,
        b"writes" => faults.writes = numbers(alloc, rest)?,
        b"room" => faults.room = number(rest)? as usize,
        b"word" => faults.words.push(String::from_str(alloc, "x")?)?,
        _ => return Err(Trouble::BadInput),
    }
    run(alloc, script, faults, work)
}

// What is written, and the status where it isn't `Done`.
fn run<L: Ledger>(
    alloc: Global,
    script: &[u8],
    faults: Faults,
    work: &mut Steps<L>,
) -> Result<Vec<u8>, Trouble> {
    let Faults {
        reads,
        writes,
        room,
        words,
    } = faults;
    let mut source = MemSource::new(script.to_vec(alloc)?, reads);
    let mut sink = MemSink::new(alloc, room, writes)?;
    let mut shelf = MemShelf::new(Vec::new(alloc), Vec::new(alloc));
    let status = pecan(alloc, &words, &mut source, &mut sink, &mut shelf, work);
    let mut text = sink.bytes().to_vec(alloc)?;
    if status != Status::Done {
        let ended = format!(in alloc; "({status:?}, {})\n", status.code())?;
        text.extend_from_slice(ended.as_bytes())?;
    }
    Ok(text)
}
