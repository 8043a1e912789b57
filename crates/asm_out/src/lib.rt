//! The object that an assembly text makes.
//!
//! *ObjectOf* says which parts are an object of the items, and the causes say why items have none. These are
//! definitions, with small texts computed; no code makes an object yet.
#![tactic(auto)]

ghost use Rattle.asm_out.specs.Rows.{ObjectsAreMade, ExternalsAreMade, TagsAreMade, CausesAreFound};

mod codes;

pub use codes::{
    F_AR32WR, F_LNNO, I386MAGIC, MOST_INIT, MOST_RECORDS, MOST_TEXT, STYP_BSS, STYP_DATA, STYP_TEXT,
};

/// Three small texts make the objects that a.out(4), syms(4) and linenum(4) give them.
pub fn objects_are_made()
    ensures law { ObjectsAreMade }
    ensures externals { ExternalsAreMade }
    ensures tags { TagsAreMade }
{
    // The law is all that is promised.
}

/// A text of each kind that has no object, with its cause.
pub fn causes_are_found()
    ensures law { CausesAreFound }
{
    // The law is all that is promised.
}
