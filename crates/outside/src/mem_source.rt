// A source in memory, with the numbers of the calls that are to fail.
ghost use Rattle.std.specs.Prelude.{◌≤◌, vec_len};

use crate::schedule::Schedule;
use crate::{Failed, Source};

/// A source of these bytes, and how many of them are taken.
///
/// `Failed` comes exactly where the call's number, from 0, is listed. Any other call takes as many
/// bytes as are left and as there is room for.
#[derive(Drop)]
pub struct MemSource {
    bytes: Vec<u8>,
    taken: usize,
    calls: Schedule,
    ghost in_range: { taken ≤ vec_len bytes },
}

impl MemSource {
    ghost use Rattle.std.specs.Prelude.{◌≡◌};
    ghost use Rattle.outside.specs.Schedule.{first_schedule};
    ghost use Rattle.outside.specs.Memory.{source_left, source_calls};

    /// All of these bytes are left, and the calls of these numbers are to fail.
    pub fn new(bytes: Vec<u8>, fail: Vec<u32>) -> MemSource
        ensures left { source_left result ≡ bytes.items }
        ensures calls { source_calls result ≡ first_schedule fail.items }
    {
        MemSource {
            bytes,
            taken: 0,
            calls: Schedule::new(fail),
        }
    }
}

impl Source for MemSource {
    ghost use Rattle.std.specs.Prelude.{◌≡◌, ◌<◌, Some, min, length, is_err, IfOk, OnErr};
    ghost use Rattle.std.specs.Io.{ReadsAtMost};
    ghost use Rattle.std.specs.Io.KnownBytes.{ReadConsumes};
    ghost use Rattle.outside.specs.Causes.{Rose};
    ghost use Rattle.outside.specs.Schedule.{is_next_listed, after_call};
    ghost use Rattle.outside.specs.Memory.{source_left, source_calls};

    ghost left = { λ s. Some (source_left s) };

    ghost faults = { λ s. (source_calls s).faults };

    fn read(&mut self, buf: &mut [u8]) -> Result<usize, Failed>
        requires room { 0 < length buf.old }
        ensures bound { ReadsAtMost result buf.new }
        ensures bytes { ReadConsumes (Some (source_left self.old)) (Some (source_left self.new)) result buf.new }
        ensures later { (source_calls self.old).faults ≤ (source_calls self.new).faults }
        ensures failed { OnErr result (Rose (source_calls self.old).faults (source_calls self.new).faults) }
        ensures exactly { is_err result ≡ is_next_listed (source_calls self.old) }
        ensures taken { IfOk result (λ n. n ≡ min (length buf.old) (length (source_left self.old))) }
        ensures calls { source_calls self.new ≡ after_call (is_next_listed (source_calls self.old)) (source_calls self.old) }
    {
        if self.calls.is_next_listed() {
            self.calls.failed();
            return Err(Failed);
        }
        self.calls.went_well();
        let n = buf.len().min(self.bytes.len() - self.taken);
        buf[..n].copy_from_slice(&self.bytes[self.taken..self.taken + n]);
        self.taken += n;
        Ok(n)
    }
}
