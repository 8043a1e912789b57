// What is outside: files, a source of bytes and a sink for bytes.
ghost use Rattle.std.specs.Prelude.{◌≡◌, ◌<◌, ◌≤◌, ℕ, List, Option, length, Ok, OnErr, IsErrOf};
ghost use Rattle.std.specs.Io.{ReadsAtMost};
ghost use Rattle.std.specs.Io.KnownBytes.{ReadConsumes};
ghost use Rattle.outside.specs.Causes.{Rose};

use std::alloc::Global;

/// The outside failed.
#[derive(Debug, Drop)]
pub struct Failed;

/// Why a file wasn't read.
#[derive(Debug, Drop)]
pub enum FileErr {
    /// There is no such file.
    Absent,
    /// The outside failed.
    Failed,
    /// Memory was wanting.
    Memory,
}

/// Why a file wasn't written.
#[derive(Debug, Drop)]
pub enum PutErr {
    /// The outside failed.
    Failed,
    /// Memory was wanting.
    Memory,
}

/// Files by their names.
///
/// What they hold is told (`held`, by name) or isn't. Faults are counted: the count never falls, and
/// `Failed` comes only where it rose in that call.
pub trait Files {
    ghost use Rattle.outside.specs.Told.{ReadsFile, WritesHeld};

    ghost held: { Self → Option (List ℕ → Option (List ℕ)) };

    ghost faults: { Self → ℕ };

    /// The bytes of a file, or the first `most` of them where it has more. `Absent` comes exactly where
    /// there is no such file. All files stay as they were.
    fn read(&mut self, alloc: Global, name: &[u8], most: usize) -> Result<Vec<u8>, FileErr>
        ensures content { ReadsFile (held self.old) name.now most result }
        ensures unchanged { held self.new ≡ held self.old }
        ensures later { faults self.old ≤ faults self.new }
        ensures failed { IsErrOf result FileErr.Failed → Rose (faults self.old) (faults self.new) };

    /// Makes the named file hold these bytes; every other file stays as it was. After `Failed` the file
    /// holds a front of the bytes or what it held before, after `Memory` what it held before.
    fn write(&mut self, name: &[u8], bytes: &[u8]) -> Result<(), PutErr>
        ensures content { WritesHeld (held self.old) (held self.new) name.now bytes.now result }
        ensures later { faults self.old ≤ faults self.new }
        ensures failed { IsErrOf result PutErr.Failed → Rose (faults self.old) (faults self.new) };
}

/// A source of bytes.
///
/// What is left in it is told (`left`) or isn't. Faults are counted: the count never falls, and
/// `Failed` comes only where it rose in that call.
pub trait Source {
    ghost left: { Self → Option (List ℕ) };

    ghost faults: { Self → ℕ };

    /// Takes the next bytes, at most as many as there is room for, and puts them at the front of `buf`.
    /// The answer is their number, 0 only where nothing is left. After `Failed` nothing was taken.
    fn read(&mut self, buf: &mut [u8]) -> Result<usize, Failed>
        requires room { 0 < length buf.old }
        ensures bound { ReadsAtMost result buf.new }
        ensures bytes { ReadConsumes (left self.old) (left self.new) result buf.new }
        ensures later { faults self.old ≤ faults self.new }
        ensures failed { OnErr result (Rose (faults self.old) (faults self.new)) };
}

/// A sink for bytes.
///
/// What it holds is told (`held`) or isn't. Faults are counted: the count never falls, and `Failed`
/// comes only where it rose in that call.
pub trait Sink {
    ghost use Rattle.outside.specs.Told.{Takes};

    ghost held: { Self → Option (List ℕ) };

    ghost faults: { Self → ℕ };

    /// Adds the first of these bytes to what the sink holds. The answer is their number; 0 for bytes
    /// that aren't empty is a fault. After `Failed` some front of the bytes was added, maybe none.
    fn write(&mut self, bytes: &[u8]) -> Result<usize, Failed>
        ensures bytes { Takes (held self.old) (held self.new) bytes.now result }
        ensures later { faults self.old ≤ faults self.new }
        ensures failed { OnErr result (Rose (faults self.old) (faults self.new)) }
        ensures stuck { result ≡ Ok 0 → 0 < length bytes.now → Rose (faults self.old) (faults self.new) };
}
