// A sink in memory, with the numbers of the calls that are to fail.
ghost use Rattle.std.specs.Prelude.{◌≤◌, vec_len, vec_capacity};

use crate::schedule::Schedule;
use crate::{Failed, Sink};
use std::alloc::{AllocError, Global};

/// A sink with room for some bytes, for which it took the memory when it was made.
///
/// `Failed` comes exactly where the call's number, from 0, is listed, or where the room is full and
/// there is something to write; nothing is added then.
#[derive(Drop)]
pub struct MemSink {
    bytes: Vec<u8>,
    room: usize,
    /// At most so many bytes, at least 1, are taken at a call.
    pub piece: usize,
    calls: Schedule,
    ghost within: { vec_len bytes ≤ room },
    ghost reserved: { room ≤ vec_capacity bytes },
    ghost some: { 1 ≤ piece },
}

impl MemSink {
    ghost use Rattle.std.specs.Prelude.{◌≡◌, [], IfOk};
    ghost use Rattle.outside.specs.Schedule.{first_schedule};
    ghost use Rattle.outside.specs.Memory.{sink_held, sink_room, sink_calls};

    /// An empty sink with room for so many bytes, where the calls of these numbers are to fail.
    pub fn new(alloc: Global, room: usize, fail: Vec<u32>) -> Result<MemSink, AllocError>
        ensures empty { IfOk result (λ s. sink_held s ≡ []) }
        ensures room { IfOk result (λ s. sink_room s ≡ room) }
        ensures piece { IfOk result (λ s. s.piece ≡ usize.MAX) }
        ensures calls { IfOk result (λ s. sink_calls s ≡ first_schedule fail.items) }
    {
        Ok(MemSink {
            bytes: Vec::with_capacity(alloc, room)?,
            room,
            piece: usize::MAX,
            calls: Schedule::new(fail),
        })
    }

    /// What the sink holds.
    pub fn bytes(&self) -> &[u8]
        ensures bytes { result.now ≡ sink_held self.now }
    {
        &self.bytes
    }
}

impl Sink for MemSink {
    ghost use Rattle.std.specs.Prelude.{◌≡◌, ◌<◌, ◌-◌, Some, min, length, Ok, OnErr, IfOk, is_err};
    ghost use Rattle.outside.specs.Causes.{Rose};
    ghost use Rattle.outside.specs.Told.{Takes};
    ghost use Rattle.outside.specs.Schedule.{after_call};
    ghost use Rattle.outside.specs.Memory.{sink_held, sink_room, sink_calls, sink_fails};

    ghost held = { λ s. Some (sink_held s) };

    ghost faults = { λ s. (sink_calls s).faults };

    fn write(&mut self, bytes: &[u8]) -> Result<usize, Failed>
        ensures bytes { Takes (Some (sink_held self.old)) (Some (sink_held self.new)) bytes.now result }
        ensures later { (sink_calls self.old).faults ≤ (sink_calls self.new).faults }
        ensures failed { OnErr result (Rose (sink_calls self.old).faults (sink_calls self.new).faults) }
        ensures stuck { result ≡ Ok 0 → 0 < length bytes.now → Rose (sink_calls self.old).faults (sink_calls self.new).faults }
        ensures exactly { is_err result ≡ sink_fails self.old bytes.now }
        ensures taken { IfOk result (λ n. n ≡ min (length bytes.now) (min self.old.piece (sink_room self.old - length (sink_held self.old)))) }
        ensures none { OnErr result (sink_held self.new ≡ sink_held self.old) }
        ensures room { sink_room self.new ≡ sink_room self.old }
        ensures piece { self.new.piece ≡ self.old.piece }
        ensures calls { sink_calls self.new ≡ after_call (sink_fails self.old bytes.now) (sink_calls self.old) }
    {
        let free = self.room - self.bytes.len();
        if self.calls.is_next_listed() || (free == 0 && !bytes.is_empty()) {
            self.calls.failed();
            return Err(Failed);
        }
        self.calls.went_well();
        let n = bytes.len().min(self.piece).min(free);
        match self.bytes.extend_from_slice(&bytes[..n]) {
            Ok(()) => Ok(n),
            Err(_) => unreachable!(),
        }
    }
}
