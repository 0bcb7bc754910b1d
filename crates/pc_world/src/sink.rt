//! Where bytes go.

ghost use Rattle.std.specs.Prelude.{ℕ, ◌≤◌, List, Option, length, take, OnOk, OnErr};
ghost use Rattle.std.specs.Io.{WritesAtMost};
ghost use Rattle.std.specs.Io.KnownBytes.{Appends, Keeps, WriteAppends};
ghost use Rattle.pc_world.specs.Causes.{HasCause, WriteHasCause};
ghost use Rattle.pc_world.specs.HandedOn.{HandsOn};

use crate::Failed;

/// Bytes go here: they are written, and a flush hands on what was written.
pub trait Sink {
    /// The bytes written so far, where the sink tells them.
    ghost written: { Self → Option (List ℕ) };

    /// The bytes handed on so far, where the sink tells them.
    ghost handed_on: { Self → Option (List ℕ) };

    /// How often it failed, a number of 64 bits.
    ghost faults: { Self → ℕ };

    /// Appends a front of the piece, and answers how many bytes of it. A failed write appends
    /// nothing. A write that takes nothing of a nonempty piece is a fault, though it answers 0.
    fn write(&mut self, piece: &[u8]) -> Result<usize, Failed>
        ensures bound { WritesAtMost result piece.now }
        ensures bytes { WriteAppends (written self.old) (written self.new) result piece.now }
        ensures cause { WriteHasCause (faults self.old) (faults self.new) result piece.now };

    /// Hands on all that was written. It changes no bytes, failed or not.
    fn flush(&mut self) -> Result<(), Failed>
        ensures bytes { Keeps (written self.old) (written self.new) }
        ensures handed_on { OnOk result (HandsOn (written self.new) (handed_on self.new)) }
        ensures cause { HasCause (faults self.old) (faults self.new) result };
}

/// Writes until the whole piece is appended. `Failed` at the first failed write, or write of nothing;
/// a front of the piece is appended then. It does not flush.
pub fn put_all<K: Sink>(sink: &mut K, piece: &[u8]) -> Result<(), Failed>
    ensures ok { OnOk result (Appends (K.written sink.old) (K.written sink.new) piece.now) }
    ensures err { OnErr result ((n : ℕ) × (n ≤ length piece.now) × Appends (K.written sink.old) (K.written sink.new) (take n piece.now)) }
    ensures cause { HasCause (K.faults sink.old) (K.faults sink.new) result }
{
    let mut done = 0;
    while done < piece.len() {
        let taken = sink.write(&piece[done..])?;
        if taken == 0 {
            return Err(Failed);
        }
        done += taken;
    }
    Ok(())
}
