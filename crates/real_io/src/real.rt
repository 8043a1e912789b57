// The real files, source and sink. Nothing is told of what files hold; a source and a sink tell what
// their reader and writer do, and those of the system tell nothing. Each failure is counted.
ghost use Rattle.std.specs.Prelude.{◌≡◌, ◌≢◌, IfOk, IfErr, IfSome, take};
ghost use Rattle.outside.specs.Told.{TakesAll};

use outside::{Failed, FileErr, Files, PutErr, Sink, Source};
use std::alloc::Global;
use std::io::{ErrorKind, Read, Write};
use std::{fs, rt};

/// The files of the system.
#[derive(Drop)]
pub struct RealFiles<'a, R> {
    system: &'a R,
    faults: u64,
}

impl<'a, R: rt::Files> RealFiles<'a, R> {
    ghost use Rattle.real_io.specs.Counted.{files_faults};

    /// No call has failed yet.
    pub fn new(system: &'a R) -> RealFiles<'a, R>
        ensures faults { files_faults result ≡ 0 }
    {
        RealFiles { system, faults: 0 }
    }
}

// The first bytes of a reader, at most so many.
fn front<R: Read + Drop>(alloc: Global, reader: R, most: usize) -> Result<Vec<u8>, FileErr>
    ensures bytes { IfOk result (λ v. IfSome (R.remaining reader) (λ bytes. v.items ≡ take most bytes)) }
    ensures there { IfErr result (λ e. e ≢ FileErr.Absent) }
{
    let mut bytes = Vec::new(alloc);
    match reader.take(most as u64).read_to_end(&mut bytes) {
        Ok(_) => Ok(bytes),
        Err(error) => match error.kind() {
            ErrorKind::OutOfMemory => Err(FileErr::Memory),
            _ => Err(FileErr::Failed),
        },
    }
}

// Writes all the bytes, and hands on what the writer keeps.
fn put<W: Write>(writer: &mut W, bytes: &[u8]) -> Result<(), Failed>
    ensures bytes { TakesAll (W.contents writer.old) (W.contents writer.new) bytes.now result }
{
    let mut done = 0;
    while done < bytes.len() {
        match writer.write(&bytes[done..]) {
            Ok(0) => return Err(Failed),
            Ok(n) => done += n,
            Err(_) => return Err(Failed),
        }
    }
    match writer.flush() {
        Ok(()) => Ok(()),
        Err(_) => Err(Failed),
    }
}

impl<'a, R: rt::Files> Files for RealFiles<'a, R> {
    ghost use Rattle.std.specs.Prelude.{None};

    ghost held = { λ s. None };

    ghost faults = { λ s. s.faults };

    fn read(&mut self, alloc: Global, name: &[u8], most: usize) -> Result<Vec<u8>, FileErr> {
        let Ok(path) = str::from_utf8(name) else {
            return Err(FileErr::Absent);
        };
        let answer = match fs::open(self.system, path) {
            Ok(file) => front(alloc, file, most),
            Err(error) => match error.kind() {
                ErrorKind::NotFound => Err(FileErr::Absent),
                ErrorKind::OutOfMemory => Err(FileErr::Memory),
                _ => Err(FileErr::Failed),
            },
        };
        if matches!(answer, Err(FileErr::Failed)) {
            self.faults = self.faults.saturating_add(1);
        }
        answer
    }

    fn write(&mut self, name: &[u8], bytes: &[u8]) -> Result<(), PutErr> {
        let written = match str::from_utf8(name) {
            Ok(path) => match fs::create(self.system, path) {
                Ok(mut file) => put(&mut file, bytes).is_ok(),
                Err(_) => false,
            },
            Err(_) => false,
        };
        if written {
            Ok(())
        } else {
            self.faults = self.faults.saturating_add(1);
            Err(PutErr::Failed)
        }
    }
}

/// A source over any reader. What is left in it is what the reader tells.
#[derive(Drop)]
pub struct RealSource<R> {
    reader: R,
    faults: u64,
}

impl<R: Read> RealSource<R> {
    ghost use Rattle.real_io.specs.Counted.{source_faults};

    /// No call has failed yet.
    pub fn new(reader: R) -> RealSource<R>
        ensures faults { source_faults result ≡ 0 }
    {
        RealSource { reader, faults: 0 }
    }
}

impl<R: Read> Source for RealSource<R> {
    ghost left = { λ s. R.remaining s.reader };

    ghost faults = { λ s. s.faults };

    fn read(&mut self, buf: &mut [u8]) -> Result<usize, Failed> {
        match self.reader.read(buf) {
            Ok(count) => Ok(count),
            Err(_) => {
                self.faults = self.faults.saturating_add(1);
                Err(Failed)
            }
        }
    }
}

/// A sink over any writer. It holds what the writer tells.
#[derive(Drop)]
pub struct RealSink<W> {
    writer: W,
    faults: u64,
}

impl<W: Write> RealSink<W> {
    ghost use Rattle.real_io.specs.Counted.{sink_faults};

    /// No call has failed yet.
    pub fn new(writer: W) -> RealSink<W>
        ensures faults { sink_faults result ≡ 0 }
    {
        RealSink { writer, faults: 0 }
    }
}

impl<W: Write> Sink for RealSink<W> {
    ghost held = { λ s. W.contents s.writer };

    ghost faults = { λ s. s.faults };

    fn write(&mut self, bytes: &[u8]) -> Result<usize, Failed> {
        match put(&mut self.writer, bytes) {
            Ok(()) => Ok(bytes.len()),
            Err(failed) => {
                self.faults = self.faults.saturating_add(1);
                Err(failed)
            }
        }
    }
}
