// The calls of an object in memory, and which of them are to fail.
ghost use Rattle.std.specs.Prelude.{◌≡◌, ◌≤◌, true, false};
ghost use Rattle.outside.specs.Schedule.{is_next_listed, after_call, first_schedule};

use std::marker::Model;

/// Numbers the calls of an object from 0, and counts those that failed.
#[derive(Drop)]
pub struct Schedule {
    fail: Vec<u32>,
    calls: u64,
    faults: u64,
}

impl Model for Schedule {
    ghost use Rattle.outside.specs.Schedule.{Schedule as ScheduleValue};

    ghost Value = { ScheduleValue };

    ghost view = { λ s. record { fail = s.fail.items; calls = s.calls; faults = s.faults } };
}

impl Schedule {
    /// No call yet; those of these numbers are to fail.
    pub fn new(fail: Vec<u32>) -> Schedule
        ensures first { result ≡ first_schedule fail.items }
    {
        Schedule {
            fail,
            calls: 0,
            faults: 0,
        }
    }

    /// Whether the next call is to fail.
    pub fn is_next_listed(&self) -> bool
        ensures value { result ≡ is_next_listed self.now }
    {
        let call = self.calls;
        self.fail.iter().any(|n| u64::from(*n) == call)
    }

    /// Counts a call that failed.
    pub fn failed(&mut self)
        ensures after { self.new ≡ after_call true self.old }
        ensures later { self.old.faults ≤ self.new.faults }
    {
        self.calls = self.calls.saturating_add(1);
        self.faults = self.faults.saturating_add(1);
    }

    /// Counts a call that didn't fail.
    pub fn went_well(&mut self)
        ensures after { self.new ≡ after_call false self.old }
    {
        self.calls = self.calls.saturating_add(1);
    }
}
