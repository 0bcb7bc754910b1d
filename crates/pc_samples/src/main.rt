//! Cases as data: this program reads cases from files, makes the public calls of the crates, and compares what they
//! answer with what the files say.
//!
//! Start at `cases.rt`, which has the format of the files; `topic.rt` lists them. Each topic's module turns the input of
//! a case into calls, and the answers into text.
#![tactic(auto)]

ghost use Rattle.std.specs.Prelude.{◌≡◌, ◌<◌};

mod cases;
mod commands;
mod edits;
mod escape;
mod grown;
mod lexing;
mod lines;
mod places;
mod printing;
mod reading;
mod replies;
mod retyping;
mod scripts;
mod sessions;
mod state;
mod topic;
mod trouble;
mod words;

use crate::cases::Tally;
use crate::topic::Topic;
use pc_syntax::Steps;
use std::alloc::Global;
use std::fs;
use std::io::Write;
use std::marker::Brand;
use std::process::ExitCode;
use std::rt::Files;
use std::sync::ledger::{Blank, Ledger};

fn main(rt: HostRuntime) -> ExitCode {
    let mut tally = Tally::new(rt.alloc());
    counted::<_, Brand>(&rt, rt.alloc(), &mut tally, Blank::new(1));
    let written = rt.stdout().write_all(tally.report());
    let (held, failed) = (tally.held, tally.failed);
    let ended = println!(rt; "{held} cases hold, {failed} fail");
    ExitCode::from(u8::from(failed != 0 || written.is_err() || ended.is_err()))
}

// The cases of all files, with a count of work of their own.
fn counted<R: Files + AllocGlobal, L: Ledger>(
    rt: &R,
    alloc: Global,
    tally: &mut Tally,
    blank: Blank,
)
    requires name { blank.name ≡ L.name }
    requires parts { blank.parts ≡ L.parts }
    requires some { 0 < blank.parts }
{
    let mut work = Steps::<L>::new(blank);
    for (name, topic) in Topic::FILES {
        match fs::read(rt, name) {
            Ok(text) => tally.run(alloc, name, topic, &text, &mut work),
            Err(_) => tally.unread(alloc, name),
        }
    }
}
