// Files in memory that never fail.
use crate::list::{find, front};
use crate::{FileErr, Files, PutErr};
use num_le::Name;
use std::alloc::Global;

/// Files in memory whose count of faults is constantly 0. Of several members of one name the first
/// alone counts. They keep nothing of a write, and tell nothing of their content after one.
#[derive(Drop)]
pub struct SureFiles {
    list: Vec<(Name, Vec<u8>)>,
    written: bool,
}

impl SureFiles {
    ghost use Rattle.std.specs.Prelude.{◌≡◌, Some};
    ghost use Rattle.outside.specs.Named.{named};
    ghost use Rattle.outside.specs.Sure.{sure_files_held};

    /// These files.
    pub fn new(list: Vec<(Name, Vec<u8>)>) -> SureFiles
        ensures held { sure_files_held result ≡ Some (named list.items) }
    {
        SureFiles {
            list,
            written: false,
        }
    }
}

impl Files for SureFiles {
    ghost use Rattle.std.specs.Prelude.{◌≡◌, ◌≤◌, None, Ok, IsErrOf};
    ghost use Rattle.outside.specs.Causes.{Rose};
    ghost use Rattle.outside.specs.Told.{WritesHeld};
    ghost use Rattle.outside.specs.Sure.{sure_files_held};

    ghost held = { sure_files_held };

    ghost faults = { λ s. 0 };

    fn read(&mut self, alloc: Global, name: &[u8], most: usize) -> Result<Vec<u8>, FileErr> {
        match find(&self.list, name) {
            None => Err(FileErr::Absent),
            Some(bytes) => match front(bytes, most).to_vec(alloc) {
                Ok(copy) => Ok(copy),
                Err(_) => Err(FileErr::Memory),
            },
        }
    }

    fn write(&mut self, name: &[u8], bytes: &[u8]) -> Result<(), PutErr>
        ensures content { WritesHeld (sure_files_held self.old) (sure_files_held self.new) name.now bytes.now result }
        ensures later { 0 ≤ 0 }
        ensures failed { IsErrOf result PutErr.Failed → Rose 0 0 }
        ensures always { result ≡ Ok tt }
        ensures untold { sure_files_held self.new ≡ None }
    {
        self.written = true;
        Ok(())
    }
}
