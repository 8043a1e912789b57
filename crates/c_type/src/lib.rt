//! Types of the language, their sizes and their cells.
//!
//! A structure, union or enumeration is known by its tag's number in a list of tags. A scalar is an
//! integer, an enumeration or a pointer; the cells of a type are its scalars with their offsets.
#![tactic(auto)]

mod cells;
pub mod members;
mod sizes;

pub use cells::cell_at;
use num_le::Name;
pub use sizes::{align, size};

/// An integer type.
#[derive(Clone, Copy, Debug, Drop, PartialEq, Eq)]
pub enum Kind {
    Char,
    UChar,
    Short,
    UShort,
    Int,
    UInt,
    Long,
    ULong,
}

/// A tag's number in the list of tags, from 0.
#[derive(Clone, Copy, Debug, Drop, PartialEq, Eq)]
pub struct TagId(pub u32);

/// A type of the language. An array has its number of elements, which is 0 where the dimension is missing.
#[derive(Debug, Drop)]
pub enum CType {
    Num(Kind),
    Void,
    Ptr(Box<CType>),
    Arr(u32, Box<CType>),
    Struct(TagId),
    Union(TagId),
    Enum(TagId),
    Fun(Box<CType>),
}

/// A member with its offset in bytes, or an enumerator with its value in 32 bits.
#[derive(Debug, Drop)]
pub struct Member {
    pub name: Name,
    pub off: u32,
    pub ty: CType,
}

/// What a tag stands for.
#[derive(Clone, Copy, Debug, Drop, PartialEq, Eq)]
pub enum TagKind {
    Struct,
    Union,
    Enum,
}

/// A structure, union or enumeration. Its name is empty where it has none; its size and alignment are in bytes.
#[derive(Debug, Drop)]
pub struct Tag {
    pub name: Name,
    pub kind: TagKind,
    pub members: Vec<Member>,
    pub size: u32,
    pub align: u32,
}

/// The tags of a unit, in the order of their closing braces.
#[derive(Debug, Drop)]
pub struct Tags {
    pub list: Vec<Tag>,
}

#[cfg(test)]
mod tests;
