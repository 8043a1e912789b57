// The output of a program on its way to a sink.
ghost use Rattle.std.specs.Prelude.{◌≡◌, ◌≤◌, ◌++◌, ◌∷◌, [], OnOk, OnErr};
ghost use Rattle.outside.specs.Causes.{Rose};
ghost use Rattle.subject.specs.Output.{Moves, GainsFront};

use arrayvec::ArrayVec;
use outside::{Failed, Sink, put_all};
use std::marker::Model;

// The bytes that wait at most.
const ROOM: usize = 4096;

/// Bytes that wait for a sink, which contracts see as their list.
#[derive(Drop)]
pub(crate) struct Output {
    waiting: ArrayVec<u8, ROOM>,
}

impl Model for Output {
    ghost use Rattle.std.specs.Prelude.{List, ℕ};

    ghost Value = { List ℕ };

    ghost view = { λ s. s.waiting.items };
}

impl Output {
    /// No byte waits.
    pub(crate) fn new() -> Output
        ensures empty { result ≡ [] }
    {
        Output {
            waiting: ArrayVec::new(),
        }
    }

    /// Writes the bytes that wait. `Failed` comes only where the sink's count of faults rose, and a
    /// front of the bytes was then written.
    pub(crate) fn drain<S: Sink>(&mut self, out: &mut S) -> Result<(), Failed>
        ensures moved { OnOk result (Moves (S.held out.old) (S.held out.new) self.old self.new []) }
        ensures empty { OnOk result (self.new ≡ []) }
        ensures front { OnErr result (GainsFront (S.held out.old) (S.held out.new) self.old) }
        ensures later { S.faults out.old ≤ S.faults out.new }
        ensures failed { OnErr result (Rose (S.faults out.old) (S.faults out.new)) }
    {
        put_all(out, self.waiting.as_slice())?;
        self.waiting.clear();
        Ok(())
    }

    /// Adds a byte, behind a drain where there is no room.
    pub(crate) fn push<S: Sink>(&mut self, out: &mut S, byte: u8) -> Result<(), Failed>
        ensures moved { OnOk result (Moves (S.held out.old) (S.held out.new) self.old self.new (byte ∷ [])) }
        ensures front { OnErr result (GainsFront (S.held out.old) (S.held out.new) self.old) }
        ensures later { S.faults out.old ≤ S.faults out.new }
        ensures failed { OnErr result (Rose (S.faults out.old) (S.faults out.new)) }
    {
        if self.waiting.is_full() {
            self.drain(out)?;
        }
        self.waiting.push(byte);
        Ok(())
    }
}
