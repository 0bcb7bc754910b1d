// The bytes of a script, as far as its units may be read.
ghost use Rattle.std.specs.Prelude.{true, false, List, ℕ, Bool, ◌≡◌, ◌≢◌, ◌<◌, ◌≤◌, ◌↔◌, Err, IsTrue, IsErrOf, IfOk, vec_len};
ghost use Rattle.pc_script.specs.Causes.{StopHasCause};
ghost use Rattle.pc_script.specs.Ahead.{Takes, IsSame};
ghost use Rattle.pc_script.specs.Reading.{Took, Fails};
ghost use Rattle.pc_script.specs.Script.{unit_limit, unit_length};

use crate::ahead::{Next, Stop};
use pc_world::Source;
use std::alloc::{AllocError, Global};

/// The most units of a script that may be taken: 10,000,000.
#[tactic(auto, unfolding(crate::specs::Script::unit_limit))]
pub fn unit_limit() -> u64
    ensures { result ≡ unit_limit }
{
    10_000_000
}

/// The most bytes of a unit, which ends sooner at a line feed: 1,000,000.
#[tactic(auto, unfolding(crate::specs::Script::unit_length))]
pub fn unit_length() -> u64
    ensures value { result ≡ unit_length }
    ensures some { 0 < result }
{
    1_000_000
}

const CHUNK: usize = 65_536;

/// Bytes that were read from a source and not taken yet, and the units that may still be taken.
///
/// It belongs to one source. Once that gave no byte, it isn't read again.
#[derive(Drop)]
pub struct Intake {
    buffer: Vec<u8>,
    start: usize,
    end: usize,
    ended: bool,
    left: u64,
    room: u64,
    ghost in_order: { start ≤ end },
    ghost in_buffer: { end ≤ vec_len buffer },
    ghost some_buffer: { 0 < vec_len buffer },
    ghost some_room: { 0 < room },
    ghost few_units: { left ≤ unit_limit },
    ghost unit_room: { room ≤ unit_length },
}

impl Intake {
    ghost use Rattle.pc_script.specs.Intake.{bytes_of, commands_to_come, has_ended, allowance, LowersAt, EndsAt};
    ghost use Rattle.pc_script.specs.Script.{commands_in};

    /// For a source from which nothing was read.
    pub fn new(alloc: Global) -> Result<Intake, AllocError>
        ensures fresh { IfOk result (λ intake. (rest : List ℕ) (more : Bool) → commands_to_come intake rest more ≡ commands_in rest more) }
        ensures unended { IfOk result (λ intake. has_ended intake ≡ false) }
    {
        let left = unit_limit();
        let room = unit_length();
        Ok(Intake {
            buffer: vec![in alloc; 0; CHUNK]?,
            start: 0,
            end: 0,
            ended: false,
            left,
            room,
        })
    }

    // Reads once where nothing is kept and the end wasn't met. It answers whether a byte is kept then.
    fn fill<S: Source>(&mut self, source: &mut S) -> Result<bool, Stop>
        ensures ok { IfOk result (λ some. Took (bytes_of self.old (S.left source.old)) (bytes_of self.new (S.left source.new)) IsSame) }
        ensures stopped { IsErrOf result Stop.ReadFailed → Fails (bytes_of self.old (S.left source.old)) (S.left source.new) }
        ensures ended { IfOk result (λ some. some ≡ false → has_ended self.new ≡ true) }
        ensures kept { IfOk result (λ some. IsTrue some ↔ (self.new.start < self.new.end)) }
        ensures cause { StopHasCause (S.faults source.old) (S.faults source.new) result }
        ensures memory { result ≢ Err Stop.NoMemory }
        ensures same { (self.new.left ≡ self.old.left) × (self.new.room ≡ self.old.room) }
    {
        if self.start < self.end {
            return Ok(true);
        }
        if self.ended {
            return Ok(false);
        }
        let count = match source.read(self.buffer.as_mut_slice()) {
            Ok(count) => count,
            Err(_) => return Err(Stop::ReadFailed),
        };
        self.start = 0;
        self.end = count;
        self.ended = count == 0;
        Ok(0 < count)
    }

    /// The next byte, the end of the script, or that its units are taken and a further byte is there.
    pub(crate) fn next<S: Source>(&mut self, source: &mut S) -> Result<Next<u8>, Stop>
        ensures ok { IfOk result (λ next. Took (bytes_of self.old (S.left source.old)) (bytes_of self.new (S.left source.new)) (Takes next)) }
        ensures stopped { IsErrOf result Stop.ReadFailed → Fails (bytes_of self.old (S.left source.old)) (S.left source.new) }
        ensures ended { IfOk result (EndsAt (has_ended self.new)) }
        ensures falls { IfOk result (LowersAt (allowance self.old) (allowance self.new)) }
        ensures cause { StopHasCause (S.faults source.old) (S.faults source.new) result }
        ensures memory { result ≢ Err Stop.NoMemory }
    {
        if !self.fill(source)? {
            return Ok(Next::End);
        }
        if self.left == 0 {
            return Ok(Next::TooMany);
        }
        let byte = self.buffer[self.start];
        self.start += 1;
        if byte == b'\n' || self.room == 1 {
            self.left -= 1;
            self.room = unit_length();
        } else {
            self.room -= 1;
        }
        Ok(Next::Item(byte))
    }
}
