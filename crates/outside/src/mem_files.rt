// Files in memory, with the numbers of the calls that are to fail.
ghost use Rattle.std.specs.Prelude.{◌≡◌, IfOk};

use crate::list::{find, front};
use crate::schedule::Schedule;
use crate::{FileErr, Files, PutErr};
use num_le::Name;
use std::alloc::{AllocError, Global};

/// Files in memory. Of several members of one name the first alone counts.
///
/// Reads and writes are numbered together, from 0. `Failed` comes exactly where the call's number is
/// listed and no absent file is read, and nothing changes then.
#[derive(Drop)]
pub struct MemFiles {
    alloc: Global,
    list: Vec<(Name, Vec<u8>)>,
    calls: Schedule,
}

impl MemFiles {
    ghost use Rattle.std.specs.Prelude.{Some, None, MatchOption};
    ghost use Rattle.outside.specs.Named.{named};
    ghost use Rattle.outside.specs.Schedule.{first_schedule};
    ghost use Rattle.outside.specs.Memory.{files_held, files_calls};

    /// These files, where the calls of these numbers are to fail.
    pub fn new(alloc: Global, list: Vec<(Name, Vec<u8>)>, fail: Vec<u32>) -> MemFiles
        ensures held { files_held result ≡ named list.items }
        ensures calls { files_calls result ≡ first_schedule fail.items }
    {
        MemFiles {
            alloc,
            list,
            calls: Schedule::new(fail),
        }
    }

    /// The bytes of this file, `None` exactly where there is none. It is no call of `Files`.
    pub fn bytes(&self, name: &[u8]) -> Option<&[u8]>
        ensures bytes { MatchOption result (files_held self.now name.now ≡ None) (λ v. files_held self.now name.now ≡ Some v.now) }
    {
        find(&self.list, name)
    }
}

// A new member of the list.
fn member(alloc: Global, name: &[u8], bytes: &[u8]) -> Result<(Name, Vec<u8>), AllocError>
    ensures member { IfOk result (λ m. (m.0 ≡ name.now) × (m.1.items ≡ bytes.now)) }
{
    Ok((Name::of(alloc, name)?, bytes.to_vec(alloc)?))
}

impl Files for MemFiles {
    ghost use Rattle.std.specs.Prelude.{◌≤◌, ◌↔◌, Some, IsErrOf, IsTrue};
    ghost use Rattle.outside.specs.Causes.{Rose};
    ghost use Rattle.outside.specs.Told.{ReadsFile, WritesHeld};
    ghost use Rattle.outside.specs.Schedule.{is_next_listed, after_call};
    ghost use Rattle.outside.specs.Memory.{files_held, files_calls, read_fails};

    ghost held = { λ s. Some (files_held s) };

    ghost faults = { λ s. (files_calls s).faults };

    fn read(&mut self, alloc: Global, name: &[u8], most: usize) -> Result<Vec<u8>, FileErr>
        ensures content { ReadsFile (Some (files_held self.old)) name.now most result }
        ensures unchanged { Some (files_held self.new) ≡ Some (files_held self.old) }
        ensures later { (files_calls self.old).faults ≤ (files_calls self.new).faults }
        ensures failed { IsErrOf result FileErr.Failed → Rose (files_calls self.old).faults (files_calls self.new).faults }
        ensures exactly { IsErrOf result FileErr.Failed ↔ IsTrue (read_fails self.old name.now) }
        ensures calls { files_calls self.new ≡ after_call (read_fails self.old name.now) (files_calls self.old) }
    {
        let Some(bytes) = find(&self.list, name) else {
            self.calls.went_well();
            return Err(FileErr::Absent);
        };
        if self.calls.is_next_listed() {
            self.calls.failed();
            return Err(FileErr::Failed);
        }
        self.calls.went_well();
        match front(bytes, most).to_vec(alloc) {
            Ok(copy) => Ok(copy),
            Err(_) => Err(FileErr::Memory),
        }
    }

    fn write(&mut self, name: &[u8], bytes: &[u8]) -> Result<(), PutErr>
        ensures content { WritesHeld (Some (files_held self.old)) (Some (files_held self.new)) name.now bytes.now result }
        ensures later { (files_calls self.old).faults ≤ (files_calls self.new).faults }
        ensures failed { IsErrOf result PutErr.Failed → Rose (files_calls self.old).faults (files_calls self.new).faults }
        ensures exactly { IsErrOf result PutErr.Failed ↔ IsTrue (is_next_listed (files_calls self.old)) }
        ensures kept { IsErrOf result PutErr.Failed → files_held self.new ≡ files_held self.old }
        ensures calls { files_calls self.new ≡ after_call (is_next_listed (files_calls self.old)) (files_calls self.old) }
    {
        if self.calls.is_next_listed() {
            self.calls.failed();
            return Err(PutErr::Failed);
        }
        self.calls.went_well();
        match member(self.alloc, name, bytes) {
            Ok(entry) => match self.list.insert(0, entry) {
                Ok(()) => Ok(()),
                Err(_) => Err(PutErr::Memory),
            },
            Err(_) => Err(PutErr::Memory),
        }
    }
}
