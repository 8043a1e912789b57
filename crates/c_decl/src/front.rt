// What a reader takes from the front.
ghost use Rattle.std.specs.Prelude.{◌≡◌, ◌≤◌, ◌<◌, ◌^◌, length, IfSome, IfOk};
ghost use Rattle.std.specs.Option.{option_map};
ghost use Rattle.c_tree.specs.TreeOf.{expr_of};
ghost use Rattle.c_expr.specs.Front as f;
ghost use Rattle.c_expr.specs.declared.error.ParseErr.{ParseErr};
ghost use Rattle.c_lex.specs.Shown.{tokens_of};
ghost use Rattle.c_decl.specs.Answers.{Gives, Stands, found, names, refused_line, rest};
ghost use Rattle.c_decl.specs.Expression.{expression};

use crate::reader::Reader;
use c_expr::{ParseErr, expr};
use c_lex::{Tok, Token};
use c_tree::Expr;
use num_le::Name;

impl Reader<'_> {
    /// The token at a place.
    #[tactic(auto, unfolding(crate::specs::Answers::rest))]
    pub fn token(&self, at: usize) -> Option<&Token>
        ensures { Stands result self.now at }
    {
        self.tokens.list.get(at)
    }

    /// The number of tokens from a place on.
    #[tactic(auto, unfolding(crate::specs::Answers::rest))]
    pub fn left(&self, at: usize) -> usize
        ensures count { result ≡ length (rest self.now at) }
        ensures few { result < 2 ^ 63 }
    {
        self.tokens.list.len().saturating_sub(at)
    }

    /// The place behind the mark, where it stands here.
    pub fn eat(&self, mark: u8, at: usize) -> Option<usize>
        ensures place { option_map (λ k. rest self.now k) result ≡ f.eat mark (rest self.now at) }
        ensures within { IfSome result (λ k. k ≤ length (tokens_of self.now.tokens.now)) }
    {
        match self.token(at) {
            Some(
                Token {
                    kind: Tok::Mark(m),
                    ..
                },
            ) if *m == mark => Some(at + 1),
            _ => None,
        }
    }

    /// The place behind the word, where it stands here.
    pub fn eat_word(&self, word: u8, at: usize) -> Option<usize>
        ensures { option_map (λ k. rest self.now k) result ≡ f.eat_word word (rest self.now at) }
    {
        match self.token(at) {
            Some(
                Token {
                    kind: Tok::Word(w),
                    ..
                },
            ) if *w == word => Some(at + 1),
            _ => None,
        }
    }

    /// The line of the token at a place.
    pub fn line(&self, at: usize) -> u32
        ensures { result ≡ f.line_at (rest self.now at) }
    {
        match self.token(at) {
            Some(token) => token.line,
            None => 0,
        }
    }

    /// The refusal of what stands at a place, with its line, or behind the tokens with the line of the last one.
    pub fn refusal(&self, at: usize) -> ParseErr
        ensures { result ≡ ParseErr.NotC (refused_line self.now at) }
    {
        let last = self.tokens.list.len().saturating_sub(1);
        ParseErr::NotC(self.line(at.min(last)))
    }

    /// The place behind the mark.
    pub fn expect(&self, mark: u8, at: usize) -> Result<usize, ParseErr>
        ensures place { Gives (λ k. rest self.now k) result (f.eat mark (rest self.now at)) }
        ensures within { IfOk result (λ k. k ≤ length (tokens_of self.now.tokens.now)) }
    {
        match self.eat(mark, at) {
            Some(after) => Ok(after),
            None => Err(self.refusal(at)),
        }
    }

    /// The name at a place, also a typedef name.
    pub fn any_name(&self, at: usize) -> Option<(&Name, usize)>
        ensures { option_map (λ x. (x.0.now, rest self.now x.1)) result ≡ f.any_name (rest self.now at) }
    {
        match self.token(at) {
            Some(
                Token {
                    kind: Tok::Name(name),
                    ..
                },
            ) => Some((name, at + 1)),
            _ => None,
        }
    }

    /// The name at a place, which is no typedef name.
    pub fn name(&self, at: usize) -> Result<(Name, usize), ParseErr>
        ensures { Gives (λ x. (x.0, rest self.now x.1)) result (f.name_at (names self.now) (rest self.now at)) }
    {
        match self.any_name(at) {
            Some((name, after)) if !self.defs.has(name.as_slice()) => {
                Ok((Name::of(self.alloc, name.as_slice())?, after))
            }
            _ => Err(self.refusal(at)),
        }
    }

    /// The expression of the level at a place.
    pub fn expression(&self, level: u8, at: usize) -> Result<(Expr, usize), ParseErr>
        requires low { 1 ≤ level }
        requires high { level ≤ 3 }
        ensures { Gives (found expr_of self.now) result (expression (names self.now) level (rest self.now at)) }
    {
        expr(self.alloc, self.tokens, at, level, self.defs)
    }
}
