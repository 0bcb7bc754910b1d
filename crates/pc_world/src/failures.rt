//! Failures on purpose: the objects in memory fail at calls that were chosen when they were made.

ghost use Rattle.std.specs.Prelude.{◌≡◌, ◌≤◌, IsErr};
ghost use Rattle.pc_world.specs.Causes.{HasCause, Rose};

use crate::Failed;

/// Which calls fail, by their numbers from 1, and how many calls and how many faults there were.
#[derive(Drop)]
pub(crate) struct Failures {
    numbers: Vec<u64>,
    calls: u64,
    faults: u64,
}

impl Failures {
    ghost use Rattle.pc_world.specs.Plan.{plan_of, first_plan, IsNextCall};

    /// No call and no fault so far.
    pub(crate) fn new(numbers: Vec<u64>) -> Failures
        ensures plan { plan_of result ≡ first_plan numbers.items }
        ensures fresh { result.faults ≡ 0 }
    {
        Failures {
            numbers,
            calls: 0,
            faults: 0,
        }
    }

    /// One call more. It is a fault where its number was chosen.
    pub(crate) fn pass(&mut self) -> Result<(), Failed>
        ensures plan { IsNextCall (plan_of self.old) (plan_of self.new) (IsErr result) }
        ensures cause { HasCause self.old.faults self.new.faults result }
    {
        self.calls = self.calls.saturating_add(1);
        if self.numbers.contains(&self.calls) {
            self.add_fault();
            return Err(Failed);
        }
        Ok(())
    }

    /// One fault more.
    pub(crate) fn add_fault(&mut self)
        ensures plan { plan_of self.new ≡ plan_of self.old }
        ensures later { self.old.faults ≤ self.new.faults }
        ensures rose { Rose self.old.faults self.new.faults }
    {
        self.faults = self.faults.saturating_add(1);
    }
}
