//! A sink in memory.

ghost use Rattle.std.specs.Prelude.{◌≡◌, ◌≤◌, Some, [], min, length, IfOk, OnOk, OnErr, IsErr, vec_len, vec_capacity};

use crate::failures::Failures;
use crate::{Failed, Sink};
use std::alloc::{AllocError, Global};

/// A sink with room for so many bytes, which fails at chosen calls.
#[derive(Drop)]
pub struct MemSink {
    bytes: Vec<u8>,
    room: usize,
    handed: usize,
    failures: Failures,
    ghost handed_within: { handed ≤ vec_len bytes },
    ghost within: { vec_len bytes ≤ room },
    ghost reserved: { room ≤ vec_capacity bytes },
}

impl MemSink {
    ghost use Rattle.pc_world.specs.Plan.{first_plan};
    ghost use Rattle.pc_world.specs.InMemory.{sink_plan, sink_room};

    /// An empty sink that takes `room` bytes in all; it takes its memory now. Exactly the writes and
    /// flushes fail whose numbers, counted together from 1, stand in `fails`; a call that fails has a
    /// number too. `AllocError` where there is no memory for the room.
    pub fn new(alloc: Global, room: usize, fails: Vec<u64>) -> Result<MemSink, AllocError>
        ensures told { IfOk result (λ sink. ⟦<MemSink as Sink>⟧.written sink ≡ Some []) }
        ensures handed_on { IfOk result (λ sink. ⟦<MemSink as Sink>⟧.handed_on sink ≡ Some []) }
        ensures fresh { IfOk result (λ sink. ⟦<MemSink as Sink>⟧.faults sink ≡ 0) }
        ensures room { IfOk result (λ sink. sink_room sink ≡ room) }
        ensures plan { IfOk result (λ sink. sink_plan sink ≡ first_plan fails.items) }
    {
        Ok(MemSink {
            bytes: Vec::with_capacity(alloc, room)?,
            room,
            handed: 0,
            failures: Failures::new(fails),
        })
    }

    /// The bytes that were written, handed on or not.
    pub fn bytes(&self) -> &[u8]
        ensures { ⟦<MemSink as Sink>⟧.written self.now ≡ Some result.now }
    {
        &self.bytes
    }
}

impl Sink for MemSink {
    ghost use Rattle.std.specs.Io.{WritesAtMost};
    ghost use Rattle.std.specs.Io.KnownBytes.{Keeps, WriteAppends};
    ghost use Rattle.pc_world.specs.Causes.{HasCause, WriteHasCause};
    ghost use Rattle.pc_world.specs.HandedOn.{HandsOn, HandsOnNothing};
    ghost use Rattle.pc_world.specs.Plan.{IsNextCall};
    ghost use Rattle.pc_world.specs.InMemory.{sink_written, sink_handed_on, sink_room, sink_faults, sink_plan};

    ghost written = { sink_written };

    ghost handed_on = { sink_handed_on };

    ghost faults = { sink_faults };

    fn write(&mut self, piece: &[u8]) -> Result<usize, Failed>
        ensures bound { WritesAtMost result piece.now }
        ensures bytes { WriteAppends (sink_written self.old) (sink_written self.new) result piece.now }
        ensures amount { IfOk result (λ n. n ≡ min (length piece.now) (sink_room self.old)) }
        ensures handed_on { HandsOnNothing (sink_handed_on self.old) (sink_handed_on self.new) }
        ensures cause { WriteHasCause (sink_faults self.old) (sink_faults self.new) result piece.now }
        ensures plan { IsNextCall (sink_plan self.old) (sink_plan self.new) (IsErr result) }
    {
        self.failures.pass()?;
        let count = piece.len().min(self.room - self.bytes.len());
        if count == 0 && !piece.is_empty() {
            self.failures.add_fault();
        }
        self.bytes.extend_from_slice(&piece[..count]).unwrap();
        Ok(count)
    }

    fn flush(&mut self) -> Result<(), Failed>
        ensures bytes { Keeps (sink_written self.old) (sink_written self.new) }
        ensures handed_on { OnOk result (HandsOn (sink_written self.new) (sink_handed_on self.new)) }
        ensures failed { OnErr result (HandsOnNothing (sink_handed_on self.old) (sink_handed_on self.new)) }
        ensures cause { HasCause (sink_faults self.old) (sink_faults self.new) result }
        ensures plan { IsNextCall (sink_plan self.old) (sink_plan self.new) (IsErr result) }
    {
        self.failures.pass()?;
        self.handed = self.bytes.len();
        Ok(())
    }
}
