//! Each reply is one write and one flush, where the sink takes it whole.

ghost use Rattle.std.specs.Prelude.{◌≡◌, ◌<◌, None};

use pc_syntax::Steps;
use pc_transcript::{Status, pecan};
use pc_world::{Failed, MemShelf, MemSource, Sink};
use std::alloc::Global;
use std::marker::Brand;
use std::sync::ledger::{Blank, Ledger};
use std::test::Fail;

// A sink that counts its calls.
#[derive(Drop)]
struct CountingSink {
    writes: u64,
    flushes: u64,
    in_turn: bool,
}

impl Sink for CountingSink {
    ghost written = { λ s. None };

    ghost handed_on = { λ s. None };

    ghost faults = { λ s. 0 };

    fn write(&mut self, piece: &[u8]) -> Result<usize, Failed> {
        self.in_turn = self.in_turn && self.writes == self.flushes;
        self.writes = self.writes.saturating_add(1);
        Ok(piece.len())
    }

    fn flush(&mut self) -> Result<(), Failed> {
        self.flushes = self.flushes.saturating_add(1);
        Ok(())
    }
}

fn count<L: Ledger>(alloc: Global, sink: &mut CountingSink, blank: Blank) -> Result<Status, Fail>
    requires name { blank.name ≡ L.name }
    requires parts { blank.parts ≡ L.parts }
    requires some { 0 < blank.parts }
{
    let mut work = Steps::<L>::new(blank);
    let mut source = MemSource::new(
        b"show syntax\nfrob\nshow syntax\n".to_vec(alloc)?,
        Vec::new(alloc),
    );

    let mut shelf = MemShelf::new(Vec::new(alloc), Vec::new(alloc));
    Ok(pecan(alloc, &[], &mut source, sink, &mut shelf, &mut work))
}

#[test]
fn each_reply_is_one_write_and_one_flush(rt: HostRuntime) -> Result<(), Fail> {
    let mut sink = CountingSink {
        writes: 0,
        flushes: 0,
        in_turn: true,
    };
    let status = count::<Brand>(rt.alloc(), &mut sink, Blank::new(1))?;
    assert_eq!(rt; status, Status::Done);
    assert_eq!(rt; sink.writes, 3);
    assert_eq!(rt; sink.flushes, 3);
    assert!(rt; sink.in_turn);
    Ok(())
}
