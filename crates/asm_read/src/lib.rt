//! Assembly text read as items.
//!
//! A line is tokens; between semicolons stand labels and a statement; a statement is a word and its
//! arguments, with a row for each word; and a group from `.def` to `.endef` is one item. [`read`] answers
//! the items of a text, or the line at which it leaves the grammar.
#![tactic(auto)]

ghost use Rattle.std.specs.Prelude.{◌≡◌, ◌<◌, ℕ, length, true, IfOk};
ghost use Rattle.asm_item.specs.Normal.{are_normal};
ghost use Rattle.asm_read.specs.Reading as spec;
ghost use Rattle.asm_read.specs.Grammar.{IsText, Leaves, stmts};

mod arguments;
mod keywords;
mod laws;
mod numerals;
mod reader;
mod stmt_list;
mod stmts;
mod table;
mod token;

use asm_item::Items;
pub use laws::{
    grammar_is_read, lines_are_few, lines_have_tokens, only_normal_items, others_leave,
    read_undoes_print,
};
use reader::Reader;
use std::alloc::{AllocError, AllocFailed, Global};
use stmt_list::text_stmts;
use thiserror::Error;

/// Why a text is not read.
#[derive(Debug, Drop, Error)]
pub enum AsmErr {
    /// The text leaves the grammar at this line, counted from 1.
    #[error("line {0} is not assembly text")]
    NotAsm(u32),
    /// No memory was left.
    #[error("out of memory")]
    Memory,
}

impl From<AllocError> for AsmErr {
    ghost use Rattle.asm_read.specs.declared.AsmErr.{AsmErr};
    ghost use Rattle.std.specs.Prelude.{◌≡◌};

    ghost from_gives = { λ _ e. e ≡ AsmErr.Memory };

    fn from(_: AllocError) -> AsmErr {
        AsmErr::Memory
    }
}

impl<T: Drop> From<AllocFailed<T>> for AsmErr {
    ghost use Rattle.asm_read.specs.declared.AsmErr.{AsmErr};
    ghost use Rattle.std.specs.Prelude.{◌≡◌};

    ghost from_gives = { λ _ e. e ≡ AsmErr.Memory };

    fn from(_: AllocFailed<T>) -> AsmErr {
        AsmErr::Memory
    }
}

// Takes statement after statement.
fn read_stmts(alloc: Global, text: &[u8]) -> Result<Items, AsmErr>
    requires countable { length (spec.lines_of text.now) < 4294967295 }
    ensures items { IfOk result (λ items. spec.reading text.now ≡ Ok items) }
    ensures line { (n : ℕ) → result ≡ Err (AsmErr.NotAsm n) → spec.reading text.now ≡ Err n }
{
    let mut queue = text_stmts(alloc, text)?;
    let mut reader = Reader::new(alloc);
    while let Some(at) = queue.pop_front() {
        reader.take(at)?;
    }
    Ok(Items::from(reader.finish()?))
}

/// The items of a text, which are normal.
///
/// The text has fewer than 4294967295 lines. After [`AsmErr::NotAsm`] the line is that of the first label
/// or statement that can't stand there after those before it, and where there is none, that of the `.def`
/// that isn't closed.
pub fn read(alloc: Global, text: &[u8]) -> Result<Items, AsmErr>
    requires countable { length (spec.lines_of text.now) < 4294967295 }
    ensures items { IfOk result (λ items. spec.reading text.now ≡ Ok items) }
    ensures grammar { IfOk result (λ items. IsText (stmts (spec.text_stmts text.now)) items) }
    ensures normal { IfOk result (λ items. are_normal items ≡ true) }
    ensures line { (n : ℕ) → result ≡ Err (AsmErr.NotAsm n) → spec.reading text.now ≡ Err n }
    ensures leaves { (n : ℕ) → result ≡ Err (AsmErr.NotAsm n) → Leaves (spec.text_stmts text.now) n }
{
    read_stmts(alloc, text)
}
