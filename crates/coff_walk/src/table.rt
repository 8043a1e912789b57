// A symbol table and its string table, borrowed.
ghost use Rattle.std.specs.Prelude.{◌≡◌, ◌<◌, ◌≤◌, ◌+◌, ◌*◌, ◌^◌, length, drop, Some, None, MatchOption};
ghost use Rattle.coff_rec.specs.Symbols.{zero_at, up_to, until_zero, name_of, is_long, long_at};
ghost use Rattle.coff_walk.specs.Walk.{Symtab, record_at, symbol_at, next_of, Stands};

use coff_rec::{AuxRec, Kind, SymRec, part, symbol_kind};
use num_le::get32;
use std::marker::Model;

/// The symbols of a file with their auxiliary entries, and its string table.
#[derive(Debug, Drop)]
pub struct Table<'a> {
    entries: &'a [u8],
    strings: &'a [u8],
    count: usize,
}

impl<'a> Model for Table<'a> {
    ghost use Rattle.std.specs.Prelude.{◌≡◌, ◌<◌, ◌*◌, ◌^◌, length};
    ghost use Rattle.coff_walk.specs.Walk.{Symtab};

    ghost Value = { Symtab };

    ghost view = { λ t. record { entries = t.entries.now; strings = t.strings.now; count = t.count } };

    ghost invariant = { λ t. (length t.entries.now ≡ 18 * t.count) × (t.count < 2 ^ 32) };
}

/// A symbol as far as nesting goes.
#[derive(Clone, Copy, Debug)]
pub struct Place {
    /// The index of the next symbol.
    pub next: usize,
    pub kind: Kind,
}

/// Where the first zero byte stands.
pub fn first_zero(b: &[u8]) -> Option<usize>
    ensures { result ≡ zero_at b.now }
{
    b.iter().position(|x| *x == 0)
}

fn before_zero(b: &[u8]) -> &[u8]
    ensures { result.now ≡ until_zero b.now }
{
    match first_zero(b) {
        Some(n) => &b[..n],
        None => b,
    }
}

// A name of the eight bytes of a symbol.
fn long_or_short<'a>(name: &'a [u8], strings: &'a [u8]) -> &'a [u8]
    requires eight { length name.now ≡ 8 }
    ensures { result.now ≡ name_of strings.now name.now }
{
    if get32(name, 0) != 0 {
        return before_zero(name);
    }
    let at = get32(name, 4) as usize;
    if at < strings.len() {
        before_zero(&strings[at..])
    } else {
        &[]
    }
}

impl<'a> Table<'a> {
    /// The table of these entries and strings.
    pub fn new(entries: &'a [u8], strings: &'a [u8], count: u32) -> Table<'a>
        requires whole { length entries.now ≡ 18 * count }
        ensures table { result ≡ record { entries = entries.now; strings = strings.now; count = count } }
    {
        Table {
            entries,
            strings,
            count: count as usize,
        }
    }

    /// How many symbols and auxiliary entries there are.
    pub fn count(&self) -> usize
        ensures count { result ≡ self.now.count }
        ensures small { result < 2 ^ 32 }
    {
        self.count
    }

    /// The string table.
    pub fn strings(&self) -> &'a [u8]
        ensures strings { result.now ≡ self.now.strings }
    {
        self.strings
    }

    /// What stands at an index, read as a symbol.
    #[tactic(auto, unfolding(crate::specs::Walk::record_at))]
    pub fn record(&self, n: usize) -> SymRec
        requires inside { n < self.now.count }
        ensures record { result ≡ record_at self.now n }
        ensures small { n + 1 + result.n_numaux < 2 ^ 33 }
    {
        SymRec::get(self.entries, 18 * n)
    }

    /// The name of the symbol at an index: the bytes in the symbol, or those at its place in the string
    /// table, up to the first zero byte.
    #[tactic(auto, unfolding(crate::specs::Walk::record_at, crate::specs::Walk::symbol_at, coff_rec::specs::Records::symbol_in))]
    pub fn name(&self, n: usize) -> &'a [u8]
        requires inside { n < self.now.count }
        ensures name { result.now ≡ (symbol_at self.now n).name }
    {
        let symbol = part(self.entries, 18 * n, 18);
        long_or_short(part(symbol, 0, 8), self.strings)
    }

    /// The symbol at an index, as far as nesting goes. `None` behind the table.
    #[tactic(auto, unfolding(crate::specs::Walk::symbol_at))]
    pub fn at(&self, n: usize) -> Option<Place>
        ensures place { MatchOption result (self.now.count ≤ n) (λ e. Stands self.now n e.next e.kind) }
        ensures small { self.now.count < 2 ^ 32 }
    {
        if n >= self.count {
            return None;
        }
        let r = self.record(n);
        Some(Place {
            next: n + 1 + r.n_numaux as usize,
            kind: symbol_kind(r.n_sclass, self.name(n), r.n_scnum, r.n_type),
        })
    }

    /// The auxiliary entry of the symbol at an index, if it has one and the table holds it.
    #[tactic(auto, unfolding(crate::specs::Walk::symbol_at, crate::specs::Walk::entries_at))]
    pub fn aux(&self, n: usize) -> Option<AuxRec>
        requires inside { n < self.now.count }
        ensures entry { result ≡ (symbol_at self.now n).aux }
    {
        let r = self.record(n);
        if r.n_numaux == 0 || self.count <= n + 1 {
            return None;
        }
        Some(AuxRec::get(self.entries, 18 * (n + 1), r.n_sclass, r.n_type))
    }
}
