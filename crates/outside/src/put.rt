// Writes all of some bytes.
ghost use Rattle.std.specs.Prelude.{◌≤◌, OnErr};
ghost use Rattle.outside.specs.Causes.{Rose};
ghost use Rattle.outside.specs.Told.{TakesAll};

use crate::{Failed, Sink};

/// Writes all of these bytes. `Failed` comes only where the sink's count of faults rose, and a front
/// of the bytes was then added.
pub fn put_all<S: Sink>(out: &mut S, bytes: &[u8]) -> Result<(), Failed>
    ensures bytes { TakesAll (S.held out.old) (S.held out.new) bytes.now result }
    ensures later { S.faults out.old ≤ S.faults out.new }
    ensures failed { OnErr result (Rose (S.faults out.old) (S.faults out.new)) }
{
    let mut done = 0;
    while done < bytes.len() {
        match out.write(&bytes[done..]) {
            Ok(0) => return Err(Failed),
            Ok(n) => done += n,
            Err(failed) => return Err(failed),
        }
    }
    Ok(())
}
