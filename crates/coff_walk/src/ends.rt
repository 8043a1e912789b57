// Where tags, bodies, functions and blocks end.
ghost use Rattle.std.specs.Prelude.{◌≡◌, ◌<◌, Some, None, MatchOption};
ghost use Rattle.coff_walk.specs.Walk.{symbol_at, symbols_after, nested_after, eos_of};
ghost use Rattle.coff_rec.specs.Nesting.{tag_end, body_end, function_end, block_end};

use crate::table::Table;
use coff_rec::Kind;

impl<'a> Table<'a> {
    /// The index after the `.eos` behind a tag's members, which begin at `from`.
    pub fn end_of_tag(&self, from: usize) -> Option<usize>
        ensures end { result ≡ tag_end (nested_after self.now from) }
    {
        let mut n = from;
        while let Some(e) = self.at(n) {
            match e.kind {
                Kind::Member => n = e.next,
                Kind::EndOfTag => return Some(e.next),
                _ => return None,
            }
        }
        None
    }

    /// The index of the `.eos` behind a tag's members, which begin at `from`.
    pub fn eos_of_tag(&self, from: usize) -> Option<usize>
        ensures eos { MatchOption result (eos_of (symbols_after self.now from) ≡ None) (λ m. (m < self.now.count) × (eos_of (symbols_after self.now from) ≡ Some (symbol_at self.now m))) }
    {
        let mut n = from;
        while let Some(e) = self.at(n) {
            match e.kind {
                Kind::Member => n = e.next,
                Kind::EndOfTag => return Some(n),
                _ => return None,
            }
        }
        None
    }

    /// The index after the `.ef` of a body whose symbols begin at `from`.
    pub fn end_of_body(&self, from: usize) -> Option<usize>
        ensures end { result ≡ body_end (nested_after self.now from) }
    {
        let mut n = from;
        while let Some(e) = self.at(n) {
            match e.kind {
                Kind::BodyEnd => return Some(e.next),
                Kind::BodyBegin => return None,
                _ => n = e.next,
            }
        }
        None
    }

    /// The index after a function whose next symbol is `own`: after its `.ef`, or `own` where it has
    /// no `.bf`.
    pub fn end_of_function(&self, own: usize) -> Option<usize>
        ensures end { result ≡ function_end own (nested_after self.now own) }
    {
        let mut n = own;
        while let Some(e) = self.at(n) {
            match e.kind {
                Kind::Function => return Some(own),
                Kind::BodyBegin => return self.end_of_body(e.next),
                _ => n = e.next,
            }
        }
        Some(own)
    }

    /// The index after the `.eb` of a block whose symbols begin at `from`.
    pub fn end_of_block(&self, from: usize) -> Option<usize>
        ensures end { result ≡ block_end (nested_after self.now from) 0 }
    {
        let mut n = from;
        let mut inner = 0usize;
        while let Some(e) = self.at(n) {
            match e.kind {
                Kind::BlockBegin => inner += 1,
                Kind::BlockEnd => {
                    if inner == 0 {
                        return Some(e.next);
                    }
                    inner -= 1;
                }
                Kind::BodyBegin => return None,
                Kind::BodyEnd => return None,
                _ => {}
            }
            n = e.next;
        }
        None
    }
}
