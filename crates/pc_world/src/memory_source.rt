//! A source in memory.

ghost use Rattle.std.specs.Prelude.{◌≡◌, ◌<◌, ◌≤◌, Some, length, IsErr, vec_len};

use crate::failures::Failures;
use crate::{Failed, Source};

/// A source of these bytes, which fails at chosen reads.
#[derive(Drop)]
pub struct MemSource {
    bytes: Vec<u8>,
    taken: usize,
    failures: Failures,
    ghost within: { taken ≤ vec_len bytes },
}

impl MemSource {
    ghost use Rattle.pc_world.specs.Plan.{first_plan};
    ghost use Rattle.pc_world.specs.InMemory.{source_plan};

    /// A source of `bytes`. Exactly the reads fail whose numbers, counted from 1, stand in `fails`;
    /// a read that fails has a number too.
    pub fn new(bytes: Vec<u8>, fails: Vec<u64>) -> MemSource
        ensures told { ⟦<MemSource as Source>⟧.left result ≡ Some bytes.items }
        ensures fresh { ⟦<MemSource as Source>⟧.faults result ≡ 0 }
        ensures plan { source_plan result ≡ first_plan fails.items }
    {
        MemSource {
            bytes,
            taken: 0,
            failures: Failures::new(fails),
        }
    }
}

impl Source for MemSource {
    ghost use Rattle.std.specs.Io.{ReadsAtMost};
    ghost use Rattle.std.specs.Io.KnownBytes.{ReadConsumes};
    ghost use Rattle.pc_world.specs.Causes.{HasCause};
    ghost use Rattle.pc_world.specs.Plan.{IsNextCall};
    ghost use Rattle.pc_world.specs.InMemory.{source_left, source_faults, source_plan};

    ghost left = { source_left };

    ghost faults = { source_faults };

    fn read(&mut self, into: &mut [u8]) -> Result<usize, Failed>
        requires { 0 < length into.old }
        ensures bound { ReadsAtMost result into.new }
        ensures bytes { ReadConsumes (source_left self.old) (source_left self.new) result into.new }
        ensures cause { HasCause (source_faults self.old) (source_faults self.new) result }
        ensures plan { IsNextCall (source_plan self.old) (source_plan self.new) (IsErr result) }
    {
        self.failures.pass()?;
        let left = &self.bytes[self.taken..];
        let count = left.len().min(into.len());
        into[..count].copy_from_slice(&left[..count]);
        self.taken += count;
        Ok(count)
    }
}
