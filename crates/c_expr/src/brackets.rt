// How deep the brackets of an expression stand in one another.
ghost use Rattle.std.specs.Prelude.{◌≡◌, ◌+◌, ◌≤◌, ◌<◌, ◌^◌, List, IfSome, length, max};
ghost use Rattle.c_type.specs.Names.{Name};
ghost use Rattle.c_lex.specs.Tokens as k;
ghost use Rattle.c_grammar.specs.WrittenExpr as w;
ghost use Rattle.c_lex.specs.Shown.{tok_of};
ghost use Rattle.c_expr.specs.Brackets.{brackets};
ghost use Rattle.c_expr.specs.Nesting.{sort_of, after};
ghost use Rattle.c_expr.specs.Shown.{left};

use crate::places::{
    CLOSE_BRACE, CLOSE_ROUND, CLOSE_SQUARE, COLON, COMMA, OPEN_BRACE, OPEN_ROUND, OPEN_SQUARE,
    QUESTION, SEMICOLON, SIZEOF,
};
use crate::rest::Rest;
use c_lex::Tok;
use std::cmp::max;

/// What a token does to the brackets and choices that are open.
#[derive(Clone, Copy, Drop)]
pub enum Sort {
    Opens,
    Closes,
    Comma,
    Question,
    Colon,
    /// It stands in no expression.
    Ends,
    Plain,
}

fn word_sort(word: u8) -> Sort
    ensures { result ≡ sort_of (k.word word) }
{
    match word {
        // `sizeof`, the words of types, `struct`, `union` and `enum`
        SIZEOF | 3 | 8 | 12 | 13 | 16 | 19 | 22 | 23 | 29 => Sort::Plain,
        _ => Sort::Ends,
    }
}

fn mark_sort(mark: u8) -> Sort
    ensures { result ≡ sort_of (k.mark mark) }
{
    match mark {
        OPEN_ROUND | OPEN_SQUARE => Sort::Opens,
        CLOSE_ROUND | CLOSE_SQUARE => Sort::Closes,
        COMMA => Sort::Comma,
        QUESTION => Sort::Question,
        COLON => Sort::Colon,
        OPEN_BRACE | CLOSE_BRACE | SEMICOLON => Sort::Ends,
        _ => Sort::Plain,
    }
}

fn sort_at(token: &Tok) -> Sort
    ensures { result ≡ sort_of (tok_of token.now) }
{
    match token {
        Tok::Word(word) => word_sort(*word),
        Tok::Mark(mark) => mark_sort(*mark),
        Tok::Name(_) | Tok::Int(..) | Tok::Chr(_) | Tok::Text(_) => Sort::Plain,
    }
}

/// The brackets that are open at a token, the choices outside of brackets that wait for their `:`,
/// and the greatest number of brackets that were open before.
#[derive(Clone, Copy, Drop)]
pub struct Nesting {
    pub opened: usize,
    pub asked: usize,
    pub most: usize,
}

impl Nesting {
    /// What is open behind the token. None where no expression goes on there, a comma ending one where `single` says so.
    fn after(self, single: bool, sort: Sort) -> Option<Nesting>
        requires opened_fits { self.opened + 1 < 2 ^ 64 }
        requires asked_fits { self.asked + 1 < 2 ^ 64 }
        ensures next { result ≡ after single self sort }
        ensures opened { IfSome result (λ n. n.opened ≤ self.opened + 1) }
        ensures asked { IfSome result (λ n. n.asked ≤ self.asked + 1) }
        ensures most { IfSome result (λ n. n.most ≤ max self.most (self.opened + 1)) }
    {
        let mut next = self;
        match sort {
            Sort::Opens => {
                next.opened += 1;
                next.most = max(self.most, next.opened);
            }
            Sort::Closes if self.opened == 0 => return None,
            Sort::Closes => next.opened -= 1,
            Sort::Comma if single && self.opened == 0 && self.asked == 0 => return None,
            Sort::Question if self.opened == 0 => next.asked += 1,
            Sort::Colon if self.opened == 0 && self.asked == 0 => return None,
            Sort::Colon if self.opened == 0 => next.asked -= 1,
            Sort::Ends => return None,
            Sort::Comma | Sort::Question | Sort::Colon | Sort::Plain => {}
        }
        Some(next)
    }
}

/// At least as many brackets as stand in one another in an expression of the level at the front.
///
/// The tokens are read up to where no expression goes on.
pub fn brackets(level: u8, rest: Rest<'_>) -> usize
    ensures enough { (defs : List Name) (e : w.Written) (behind : List k.Token) → w.IsAtLevel defs level e → left rest.entry ≡ w.spell e behind → brackets e ≤ result }
    ensures few { result ≤ length rest.entry.tokens.now }
{
    let mut nesting = Nesting {
        opened: 0,
        asked: 0,
        most: 0,
    };
    for token in rest.tokens {
        let Some(next) = nesting.after(level > 1, sort_at(&token.kind)) else {
            return nesting.most;
        };
        nesting = next;
    }
    nesting.most
}
