// What stands at the front of the tokens.
ghost use Rattle.std.specs.Prelude.{◌≡◌};
ghost use Rattle.std.specs.Option.{option_map};
ghost use Rattle.c_grammar.specs.Words.{step_of, unary_of};
ghost use Rattle.c_expr.specs.Front as f;
ghost use Rattle.c_expr.specs.Reading as r;
ghost use Rattle.c_expr.specs.Gives.{IsNotC};
ghost use Rattle.c_expr.specs.Shown.{left};

use crate::error::ParseErr;
use crate::places::{COMMA, QUESTION};
use crate::rest::Rest;
use c_grammar::{
    assignment_operator, binary_level, binary_operator, postfix_operator, prefix_operator,
};
use c_lex::{Tok, Token};
use c_tree::{AssignOp, BinaryOp, StepOp, UnaryOp};

impl<'a> Rest<'a> {
    /// The line of the first token, and 0 where none is left.
    pub fn first_line(self) -> u32
        ensures { result ≡ f.line_at (left self.entry) }
    {
        match self.tokens {
            [token, ..] => token.line,
            [] => 0,
        }
    }

    /// The refusal of the first token, or of the last of all where none is left.
    pub fn refusal(self) -> ParseErr
        ensures { IsNotC result }
    {
        match self.tokens {
            [token, ..] => ParseErr::NotC(token.line),
            [] => ParseErr::NotC(self.end),
        }
    }

    /// The tokens behind the mark.
    pub fn eat(self, mark: u8) -> Option<Rest<'a>>
        ensures { option_map left result ≡ f.eat mark (left self.entry) }
    {
        match self.tokens {
            [
                Token {
                    kind: Tok::Mark(m),
                    ..
                },
                tokens @ ..,
            ] if *m == mark => Some(Rest {
                tokens,
                end: self.end,
            }),
            _ => None,
        }
    }

    /// The tokens behind the word.
    pub fn eat_word(self, word: u8) -> Option<Rest<'a>>
        ensures { option_map left result ≡ f.eat_word word (left self.entry) }
    {
        match self.tokens {
            [
                Token {
                    kind: Tok::Word(w),
                    ..
                },
                tokens @ ..,
            ] if *w == word => Some(Rest {
                tokens,
                end: self.end,
            }),
            _ => None,
        }
    }

    /// The mark at the front, and the tokens behind it.
    fn mark(self) -> Option<(u8, Rest<'a>)>
        ensures { option_map (λ x. (x.0, left x.1)) result ≡ f.mark_at (left self.entry) }
    {
        match self.tokens {
            [
                Token {
                    kind: Tok::Mark(m),
                    ..
                },
                tokens @ ..,
            ] => Some((
                *m,
                Rest {
                    tokens,
                    end: self.end,
                },
            )),
            _ => None,
        }
    }

    /// An operator that stands before an operand.
    pub fn unary(self) -> Option<(UnaryOp, Rest<'a>)>
        ensures { option_map (λ x. (x.0, left x.1)) result ≡ f.front_mark unary_of (left self.entry) }
    {
        let (mark, rest) = self.mark()?;
        Some((prefix_operator(mark)?, rest))
    }

    /// An operator that stands behind an operand.
    pub fn step(self) -> Option<(StepOp, Rest<'a>)>
        ensures { option_map (λ x. (x.0, left x.1)) result ≡ f.front_mark step_of (left self.entry) }
    {
        let (mark, rest) = self.mark()?;
        Some((postfix_operator(mark)?, rest))
    }

    /// A binary operator of the level or above.
    pub fn operator(self, level: u8) -> Option<(BinaryOp, Rest<'a>)>
        ensures { option_map (λ x. (x.0, left x.1)) result ≡ r.operator_at level (left self.entry) }
    {
        let (mark, rest) = self.mark()?;
        let op = binary_operator(mark)?;
        if binary_level(op) < level {
            return None;
        }
        Some((op, rest))
    }

    /// An assignment, where the level allows one.
    pub fn assignment(self, level: u8) -> Option<(AssignOp, Rest<'a>)>
        ensures { option_map (λ x. (x.0, left x.1)) result ≡ r.assigned_at level (left self.entry) }
    {
        if level > 2 {
            return None;
        }
        let (mark, rest) = self.mark()?;
        Some((assignment_operator(mark)?, rest))
    }

    /// The tokens behind `?`, where the level allows a choice.
    pub fn choice(self, level: u8) -> Option<Rest<'a>>
        ensures { option_map left result ≡ r.choice_at level (left self.entry) }
    {
        if level > 3 {
            return None;
        }
        self.eat(QUESTION)
    }

    /// The tokens behind `,`, where the level allows more than one expression.
    pub fn comma(self, level: u8) -> Option<Rest<'a>>
        ensures { option_map left result ≡ r.comma_at level (left self.entry) }
    {
        if level > 1 {
            return None;
        }
        self.eat(COMMA)
    }
}
