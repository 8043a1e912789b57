// Looking up whether an index is a symbol's.
ghost use Rattle.std.specs.Prelude.{◌≡◌, ◌≤◌, ◌⊎◌, [], ◌∷◌, ◌++◌};
ghost use Rattle.coff_walk.specs.Walk.{Symtab, symbols_after, is_index};

use crate::table::Table;
use arrayvec::ArrayVec;
use std::marker::Model;

/// A table with marks: some of its symbols' indexes, spread over the table.
///
/// A look-up walks from the nearest mark, at most a 256th of the table.
#[derive(Debug, Drop)]
pub struct Index<'a> {
    table: Table<'a>,
    marks: ArrayVec<usize, 256>,
    stride: usize,
}

impl<'a> Model for Index<'a> {
    ghost use Rattle.std.specs.Prelude.{ℕ, ◌<◌, length, slice_index};
    ghost use Rattle.coff_walk.specs.Walk.{Symtab, IsReached};

    ghost Value = { Symtab };

    ghost view = { λ x. x.table };

    ghost invariant = { λ x. (0 < x.stride) × ((k : ℕ) → k < length x.marks.items → IsReached x.table (slice_index x.marks.items k)) };
}

// Marks n where there are at most k marks and room for one.
fn add_mark(marks: &mut ArrayVec<usize, 256>, k: usize, n: usize)
    ensures one { (marks.new.items ≡ marks.old.items) ⊎ (marks.new.items ≡ marks.old.items ++ n ∷ []) }
{
    if marks.len() <= k && !marks.is_full() {
        marks.push(n);
    }
}

impl<'a> Index<'a> {
    /// Walks the table once, and marks symbols.
    pub fn new(table: Table<'a>) -> Index<'a>
        ensures table { result ≡ table.entry }
    {
        let stride = table.count() / 256 + 1;
        let mut marks = ArrayVec::new();
        let mut n = 0;
        while n < table.count() {
            add_mark(&mut marks, n / stride, n);
            n += 1 + table.record(n).n_numaux as usize;
        }
        Index {
            table,
            marks,
            stride,
        }
    }

    /// The table.
    pub fn table(&self) -> &Table<'a>
        ensures table { result.now ≡ self.now }
    {
        &self.table
    }

    // The k-th mark, where it stands at or before n; otherwise the table's begin.
    fn mark(&self, k: usize, n: usize) -> usize
        ensures low { result ≤ n }
        ensures reached { is_index n (symbols_after self.now result) ≡ is_index n (symbols_after self.now 0) }
    {
        let marks = self.marks.as_slice();
        if k < marks.len() && marks[k] <= n {
            marks[k]
        } else {
            0
        }
    }

    fn mark_before(&self, n: usize) -> usize
        ensures low { result ≤ n }
        ensures reached { is_index n (symbols_after self.now result) ≡ is_index n (symbols_after self.now 0) }
    {
        let k = n / self.stride;
        let near = self.mark(k, n);
        if near == 0 && k > 0 {
            self.mark(k - 1, n)
        } else {
            near
        }
    }

    /// Whether an index is a symbol's, and not an auxiliary entry's.
    pub fn has(&self, n: usize) -> bool
        ensures index { result ≡ is_index n (symbols_after self.now 0) }
    {
        if n >= self.table.count() {
            return false;
        }
        let mut at = self.mark_before(n);
        while at < n {
            at += 1 + self.table.record(at).n_numaux as usize;
        }
        at == n
    }
}
