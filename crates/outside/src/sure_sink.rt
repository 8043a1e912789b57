// A sink that never fails.
use crate::{Failed, Sink};

/// A sink that takes every byte and keeps their number alone. Its count of faults is constantly 0.
#[derive(Drop)]
pub struct SureSink {
    taken: u64,
}

impl SureSink {
    ghost use Rattle.std.specs.Prelude.{◌≡◌};
    ghost use Rattle.outside.specs.Sure.{sure_sink_taken};

    /// No byte was taken yet.
    pub fn new() -> SureSink
        ensures none { sure_sink_taken result ≡ 0 }
    {
        SureSink { taken: 0 }
    }

    /// The number of the bytes that were taken, up to the greatest u64.
    pub fn taken(&self) -> u64
        ensures number { result ≡ sure_sink_taken self.now }
    {
        self.taken
    }
}

impl Sink for SureSink {
    ghost use Rattle.std.specs.Prelude.{◌≡◌, ◌≤◌, ◌<◌, ◌+◌, ◌-◌, ◌^◌, None, min, length, Ok, OnErr};
    ghost use Rattle.outside.specs.Causes.{Rose};
    ghost use Rattle.outside.specs.Told.{Takes};
    ghost use Rattle.outside.specs.Sure.{sure_sink_taken};

    ghost held = { λ s. None };

    ghost faults = { λ s. 0 };

    fn write(&mut self, bytes: &[u8]) -> Result<usize, Failed>
        ensures bytes { Takes None None bytes.now result }
        ensures later { 0 ≤ 0 }
        ensures failed { OnErr result (Rose 0 0) }
        ensures stuck { result ≡ Ok 0 → 0 < length bytes.now → Rose 0 0 }
        ensures all { result ≡ Ok (length bytes.now) }
        ensures number { sure_sink_taken self.new ≡ min (sure_sink_taken self.old + length bytes.now) (2 ^ 64 - 1) }
    {
        self.taken = self.taken.saturating_add(bytes.len() as u64);
        Ok(bytes.len())
    }
}
