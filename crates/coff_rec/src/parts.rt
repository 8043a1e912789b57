// The parts of a file, and the file that they make.
ghost use Rattle.std.specs.Prelude.{◌≡◌};

use crate::entry::AuxRec;
use crate::records::{FileHead, LineRec, OptHead, Reloc, SecHead, SymRec};
use std::marker::Model;

/// The bytes of an image.
#[derive(Debug, Drop)]
pub struct Image {
    pub bytes: Vec<u8>,
}

/// A kind of record that a file counts.
#[derive(Clone, Copy, Debug, PartialEq, Eq)]
pub enum Which {
    Relocs,
    Lines,
}

/// A part of the memory of a process that has a limit: .text, or .data with .bss.
#[derive(Clone, Copy, Debug, PartialEq, Eq)]
pub enum Part {
    Text,
    Init,
}

/// A list of records, or of bytes.
#[derive(Debug, Drop)]
pub struct Records<T> {
    list: Vec<T>,
}

impl<T> Model for Records<T> {
    ghost use Rattle.std.specs.Prelude.{List};

    ghost Value = { List T };

    ghost view = { λ s. s.list.items };
}

impl<T> Records<T> {
    /// The records of this list.
    pub fn of(list: Vec<T>) -> Records<T>
        ensures list { result ≡ list.items }
    {
        Records { list }
    }

    /// The records, in order.
    pub fn as_slice(&self) -> &[T]
        ensures list { result.now ≡ self.now }
    {
        &self.list
    }
}

/// What a file says: its headers, the bytes of .text and .data, their relocations, the line entries,
/// the symbols with their auxiliary entries, and the string table with its length field.
#[derive(Debug, Drop)]
pub struct Parts {
    pub head: FileHead,
    pub opt: Option<OptHead>,
    pub secs: Records<SecHead>,
    pub text: Records<u8>,
    pub init: Records<u8>,
    pub text_relocs: Records<Reloc>,
    pub init_relocs: Records<Reloc>,
    pub lines: Records<LineRec>,
    pub syms: Records<SymRec>,
    pub auxs: Records<AuxRec>,
    pub strings: Records<u8>,
}
