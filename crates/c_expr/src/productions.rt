// The productions of expressions, from the loosest to the tightest.
ghost use Rattle.std.specs.Prelude.{◌≡◌, ◌+◌, ℕ, List};
ghost use Rattle.c_lex.specs.Tokens as k;
ghost use Rattle.c_tree.specs.TreeExpr as t;
ghost use Rattle.c_tree.specs.TreeOf.{expr_of, exprs_from};
ghost use Rattle.c_expr.specs.Front as f;
ghost use Rattle.c_expr.specs.Front.{Read, along};
ghost use Rattle.c_expr.specs.Typename as y;
ghost use Rattle.c_expr.specs.Reading as r;
ghost use Rattle.c_expr.specs.Gives.{Gives};
ghost use Rattle.c_expr.specs.Parts.{AreReadBy, inner, names};
ghost use Rattle.c_expr.specs.Shapes.{affix_node, infix_node, selected_node, with_one};
ghost use Rattle.c_expr.specs.Shown.{left, shown, shown_args};
ghost use Rattle.c_expr.specs.Suffix as s;

use crate::error::ParseErr;
use crate::nodes::{Affix, Infix, MAX_DEPTH, Selector, call, cast, choice, grown, size_of_type};
use crate::places::{CLOSE_ROUND, CLOSE_SQUARE, COLON, COMMA, OPEN_ROUND, SIZEOF};
use crate::reader::Reader;
use crate::rest::{Found, FoundArgs, Rest};
use crate::suffix::{Suffix, suffix_at};
use c_grammar::binary_level;
use c_lex::Tok;
use c_tree::Expr;
use num_le::Name;
use std::cmp::max;

impl Reader<'_> {
    /// An expression of the level whose parts and brackets stand no deeper in one another than `nested`.
    #[cycle(parts)]
    #[tactic(auto, unfolding(crate::specs::Reading::expr))]
    pub fn expr_at<'a>(
        &self,
        nested: usize,
        level: u8,
        rest: Rest<'a>,
    ) -> Result<Found<'a>, ParseErr>
        ensures { Gives shown result (inner self.now nested level (left rest.entry)) }
    {
        if nested == 0 {
            return Err(rest.refusal());
        }
        let within = nested - 1;
        let reader = *self;
        let productions = Productions {
            reader,
            part: |level, rest|
                ensures { Gives shown result (inner reader.entry within level (left rest.entry)) }
            { reader.expr_at(within, level, rest) },
        };
        productions.level(level, rest)
    }

    /// A name that is no typedef name.
    fn name_at<'a>(&self, rest: Rest<'a>) -> Result<(Name, Rest<'a>), ParseErr>
        ensures { Gives (λ x. (x.0, left x.1)) result (f.name_at (names self.now) (left rest.entry)) }
    {
        let [token, tokens @ ..] = rest.tokens else {
            return Err(rest.refusal());
        };
        let Tok::Name(name) = &token.kind else {
            return Err(rest.refusal());
        };
        if self.defs.has(name.as_slice()) {
            return Err(rest.refusal());
        }
        let after = Rest {
            tokens,
            end: rest.end,
        };
        Ok((Name::of(self.alloc, name.as_slice())?, after))
    }

    /// The member that the name at the front selects of the expression.
    fn selected<'a>(
        &self,
        line: u32,
        selector: Selector,
        first: Found<'a>,
        rest: Rest<'a>,
    ) -> Result<Found<'a>, ParseErr>
        ensures { Gives shown result (along (f.name_at (names self.now) (left rest.entry)) (λ y. f.grown t.expr_depth MAX_DEPTH (selected_node selector line (expr_of first.entry.tree) y.0) y.1)) }
    {
        let (name, after) = self.name_at(rest)?;
        Affix::Select(selector, name).apply(self.alloc, line, first, after)
    }

    /// The size of the type at the front, from behind its opening bracket on.
    fn size_of_type<'a>(&self, line: u32, rest: Rest<'a>) -> Result<Found<'a>, ParseErr>
        ensures { Gives shown result (along (y.typed (names self.now) (left rest.entry)) (λ y. f.grown t.expr_depth MAX_DEPTH (t.size_of_type line y.0) y.1)) }
    {
        let (types, after) = self.typed(rest)?;
        size_of_type(line, types, after)
    }
}

/// The productions over what reads the expressions that stand inside of theirs.
#[derive(Drop)]
struct Productions<'r, F> {
    reader: Reader<'r>,
    /// Reads an expression of the level.
    part: F,
}

impl<'a, F: Fn(u8, Rest<'a>) -> Result<Found<'a>, ParseErr>> Productions<'_, F> {
    /// An expression of the level.
    #[tactic(auto, unfolding(crate::specs::Reading::level))]
    fn level(&self, level: u8, rest: Rest<'a>) -> Result<Found<'a>, ParseErr>
        requires callable { F.IsAlwaysCallable self.now.part }
        ensures { (inner : ℕ → List k.Token → Read t.Expr) → AreReadBy (F.post self.now.part) inner → Gives shown result (r.level (names self.now.reader) MAX_DEPTH inner level (left rest.entry)) }
    {
        let line = rest.first_line();
        let first = self.item(max(level, 2), rest)?;
        self.commas(line, level, first)
    }

    /// The operator between the expression and a part of the level.
    fn joined(
        &self,
        line: u32,
        op: Infix,
        first: Found<'a>,
        level: u8,
        rest: Rest<'a>,
    ) -> Result<Found<'a>, ParseErr>
        requires callable { F.IsAlwaysCallable self.now.part }
        ensures { (inner : ℕ → List k.Token → Read t.Expr) → AreReadBy (F.post self.now.part) inner → Gives shown result (along (inner level (left rest.entry)) (λ x. f.grown t.expr_depth MAX_DEPTH (infix_node op line (expr_of first.entry.tree) x.0) x.1)) }
    {
        let second = (self.part)(level, rest)?;
        op.join(self.reader.alloc, line, first, second)
    }

    /// What follows at commas.
    #[tactic(auto, unfolding(crate::specs::Reading::commas))]
    fn commas(&self, line: u32, level: u8, first: Found<'a>) -> Result<Found<'a>, ParseErr>
        requires callable { F.IsAlwaysCallable self.now.part }
        ensures { (inner : ℕ → List k.Token → Read t.Expr) → AreReadBy (F.post self.now.part) inner → Gives shown result (r.commas (names self.now.reader) MAX_DEPTH inner (MAX_DEPTH + 1) line level (expr_of first.entry.tree) (left first.entry.rest)) }
    {
        let mut found = first;
        for _turn in 0..=MAX_DEPTH {
            let Some(after) = found.rest.comma(level) else {
                return Ok(found);
            };
            found = self.joined(line, Infix::Comma, found, 2, after)?;
        }
        Err(found.refusal())
    }

    /// An expression without commas.
    #[tactic(auto, unfolding(crate::specs::Reading::item, crate::specs::Reading::rest))]
    fn item(&self, level: u8, rest: Rest<'a>) -> Result<Found<'a>, ParseErr>
        requires callable { F.IsAlwaysCallable self.now.part }
        ensures { (inner : ℕ → List k.Token → Read t.Expr) → AreReadBy (F.post self.now.part) inner → Gives shown result (r.item (names self.now.reader) MAX_DEPTH inner level (left rest.entry)) }
    {
        let line = rest.first_line();
        let first = self.prefixed(rest)?;
        if let Some((op, after)) = first.rest.assignment(level) {
            return self.joined(line, Infix::Assign(op), first, 2, after);
        }
        let first = self.climb(line, max(level, 4), first)?;
        match first.rest.choice(level) {
            Some(after) => self.choice(line, first, after),
            None => Ok(first),
        }
    }

    /// What follows at binary operators of the level or above.
    #[tactic(auto, unfolding(crate::specs::Reading::climb))]
    fn climb(&self, line: u32, level: u8, first: Found<'a>) -> Result<Found<'a>, ParseErr>
        requires callable { F.IsAlwaysCallable self.now.part }
        ensures { (inner : ℕ → List k.Token → Read t.Expr) → AreReadBy (F.post self.now.part) inner → Gives shown result (r.climb (names self.now.reader) MAX_DEPTH inner (MAX_DEPTH + 1) line level (expr_of first.entry.tree) (left first.entry.rest)) }
    {
        let mut found = first;
        for _turn in 0..=MAX_DEPTH {
            let Some((op, after)) = found.rest.operator(level) else {
                return Ok(found);
            };
            found = self.joined(line, Infix::Binary(op), found, binary_level(op) + 1, after)?;
        }
        Err(found.refusal())
    }

    /// The two answers of a choice, from behind its `?` on.
    fn choice(&self, line: u32, test: Found<'a>, after: Rest<'a>) -> Result<Found<'a>, ParseErr>
        requires callable { F.IsAlwaysCallable self.now.part }
        ensures { (inner : ℕ → List k.Token → Read t.Expr) → AreReadBy (F.post self.now.part) inner → Gives shown result (r.choice_by (names self.now.reader) MAX_DEPTH inner line (expr_of test.entry.tree) (left test.entry.rest) (Some (left after.entry))) }
    {
        let yes = self.enclosed(COLON, after)?;
        let other = (self.part)(3, yes.rest)?;
        choice(self.reader.alloc, line, test, yes, other)
    }

    /// An operand with what stands before it.
    #[tactic(auto, unfolding(crate::specs::Reading::prefixed))]
    fn prefixed(&self, rest: Rest<'a>) -> Result<Found<'a>, ParseErr>
        requires callable { F.IsAlwaysCallable self.now.part }
        ensures { (inner : ℕ → List k.Token → Read t.Expr) → AreReadBy (F.post self.now.part) inner → Gives shown result (r.prefixed (names self.now.reader) MAX_DEPTH inner (left rest.entry)) }
    {
        let line = rest.first_line();
        if let Some((op, after)) = rest.unary() {
            return self.under(line, Affix::Unary(op), after);
        }
        if let Some(after) = rest.eat_word(SIZEOF) {
            return match self.reader.type_bracket(after) {
                Some(after) => self.reader.size_of_type(line, after),
                None => self.under(line, Affix::SizeOf, after),
            };
        }
        match self.reader.type_bracket(rest) {
            Some(after) => self.cast(line, after),
            None => self.postfix(rest),
        }
    }

    /// The operator at the operand behind it.
    fn under(&self, line: u32, op: Affix, rest: Rest<'a>) -> Result<Found<'a>, ParseErr>
        requires callable { F.IsAlwaysCallable self.now.part }
        ensures { (inner : ℕ → List k.Token → Read t.Expr) → AreReadBy (F.post self.now.part) inner → Gives shown result (along (inner 14 (left rest.entry)) (λ x. f.grown t.expr_depth MAX_DEPTH (affix_node op line x.0) x.1)) }
    {
        let operand = (self.part)(14, rest)?;
        let after = operand.rest;
        op.apply(self.reader.alloc, line, operand, after)
    }

    /// A cast, from behind its opening bracket on.
    fn cast(&self, line: u32, rest: Rest<'a>) -> Result<Found<'a>, ParseErr>
        requires callable { F.IsAlwaysCallable self.now.part }
        ensures { (inner : ℕ → List k.Token → Read t.Expr) → AreReadBy (F.post self.now.part) inner → Gives shown result (r.cast_by (names self.now.reader) MAX_DEPTH inner line (y.typed (names self.now.reader) (left rest.entry))) }
    {
        let (types, after) = self.reader.typed(rest)?;
        let operand = (self.part)(14, after)?;
        cast(self.reader.alloc, line, types, operand)
    }

    /// An operand with what stands behind it.
    #[tactic(auto, unfolding(crate::specs::Reading::postfix))]
    fn postfix(&self, rest: Rest<'a>) -> Result<Found<'a>, ParseErr>
        requires callable { F.IsAlwaysCallable self.now.part }
        ensures { (inner : ℕ → List k.Token → Read t.Expr) → AreReadBy (F.post self.now.part) inner → Gives shown result (r.postfix (names self.now.reader) MAX_DEPTH inner (left rest.entry)) }
    {
        let line = rest.first_line();
        let first = self.primary(rest)?;
        self.suffixes(line, first)
    }

    /// The suffixes behind an operand.
    #[tactic(auto, unfolding(crate::specs::Reading::suffixes))]
    fn suffixes(&self, line: u32, first: Found<'a>) -> Result<Found<'a>, ParseErr>
        requires callable { F.IsAlwaysCallable self.now.part }
        ensures { (inner : ℕ → List k.Token → Read t.Expr) → AreReadBy (F.post self.now.part) inner → Gives shown result (r.suffixes (names self.now.reader) MAX_DEPTH inner (MAX_DEPTH + 1) line (expr_of first.entry.tree) (left first.entry.rest)) }
    {
        let mut found = first;
        for _turn in 0..=MAX_DEPTH {
            let Some(suffix) = suffix_at(found.rest) else {
                return Ok(found);
            };
            found = self.suffixed(line, found, suffix)?;
        }
        Err(found.refusal())
    }

    /// An expression with one more suffix.
    fn suffixed(
        &self,
        line: u32,
        first: Found<'a>,
        suffix: Suffix<'a>,
    ) -> Result<Found<'a>, ParseErr>
        requires callable { F.IsAlwaysCallable self.now.part }
        ensures { (inner : ℕ → List k.Token → Read t.Expr) → AreReadBy (F.post self.now.part) inner → Gives shown result (r.grow (names self.now.reader) MAX_DEPTH inner (s.suffixed (names self.now.reader) MAX_DEPTH inner line (expr_of first.entry.tree) (s.begun_of suffix.entry))) }
    {
        match suffix {
            Suffix::Call(after) => self.called(line, first, after),
            Suffix::Index(after) => self.indexed(line, first, after),
            Suffix::Select(selector, after) => self.reader.selected(line, selector, first, after),
            Suffix::Step(op, after) => Affix::Post(op).apply(self.reader.alloc, line, first, after),
        }
    }

    /// The call of the expression, from behind its opening bracket on.
    fn called(&self, line: u32, first: Found<'a>, rest: Rest<'a>) -> Result<Found<'a>, ParseErr>
        requires callable { F.IsAlwaysCallable self.now.part }
        ensures { (inner : ℕ → List k.Token → Read t.Expr) → AreReadBy (F.post self.now.part) inner → Gives shown result (r.grow (names self.now.reader) MAX_DEPTH inner (r.called (names self.now.reader) MAX_DEPTH inner line (expr_of first.entry.tree) (r.args (names self.now.reader) MAX_DEPTH inner (left rest.entry)))) }
    {
        let args = self.args(rest)?;
        call(self.reader.alloc, line, first, args)
    }

    /// An element of the expression, from behind its opening bracket on.
    fn indexed(&self, line: u32, first: Found<'a>, rest: Rest<'a>) -> Result<Found<'a>, ParseErr>
        requires callable { F.IsAlwaysCallable self.now.part }
        ensures { (inner : ℕ → List k.Token → Read t.Expr) → AreReadBy (F.post self.now.part) inner → Gives shown result (r.grow (names self.now.reader) MAX_DEPTH inner (r.indexed (names self.now.reader) MAX_DEPTH inner line (expr_of first.entry.tree) (r.enclosed (names self.now.reader) MAX_DEPTH inner CLOSE_SQUARE (left rest.entry)))) }
    {
        let at = self.enclosed(CLOSE_SQUARE, rest)?;
        Infix::Index.join(self.reader.alloc, line, first, at)
    }

    /// The arguments of a call, from behind its opening bracket on.
    #[tactic(auto, unfolding(crate::specs::Reading::args, crate::specs::Reading::args_from))]
    fn args(&self, rest: Rest<'a>) -> Result<FoundArgs<'a>, ParseErr>
        requires callable { F.IsAlwaysCallable self.now.part }
        ensures { (inner : ℕ → List k.Token → Read t.Expr) → AreReadBy (F.post self.now.part) inner → Gives shown_args result (r.args (names self.now.reader) MAX_DEPTH inner (left rest.entry)) }
    {
        let mut found = FoundArgs::none(self.reader.alloc, rest);
        if let Some(after) = rest.eat(CLOSE_ROUND) {
            return Ok(found.up_to(after));
        }
        for _turn in 0..rest.tokens.len() {
            let next = self.argument(found)?;
            let Some(after) = next.rest.eat(COMMA) else {
                return next.closed();
            };
            found = next.up_to(after);
        }
        Err(found.rest.refusal())
    }

    /// With the argument that stands behind them.
    fn argument(&self, before: FoundArgs<'a>) -> Result<FoundArgs<'a>, ParseErr>
        requires callable { F.IsAlwaysCallable self.now.part }
        ensures { (inner : ℕ → List k.Token → Read t.Expr) → AreReadBy (F.post self.now.part) inner → Gives shown_args result (along (inner 2 (left before.entry.rest)) (λ x. Some (with_one (exprs_from before.entry.trees.items) x.0, x.1))) }
    {
        let next = (self.part)(2, before.rest)?;
        before.with(next)
    }

    /// A part, and the closing mark behind it.
    #[tactic(auto, unfolding(crate::specs::Reading::enclosed))]
    fn enclosed(&self, close: u8, rest: Rest<'a>) -> Result<Found<'a>, ParseErr>
        requires callable { F.IsAlwaysCallable self.now.part }
        ensures { (inner : ℕ → List k.Token → Read t.Expr) → AreReadBy (F.post self.now.part) inner → Gives shown result (r.enclosed (names self.now.reader) MAX_DEPTH inner close (left rest.entry)) }
    {
        let found = (self.part)(1, rest)?;
        found.closed(close)
    }

    /// A name, a constant, a text, or an expression in brackets.
    #[tactic(auto, unfolding(crate::specs::Reading::primary))]
    fn primary(&self, rest: Rest<'a>) -> Result<Found<'a>, ParseErr>
        requires callable { F.IsAlwaysCallable self.now.part }
        ensures { (inner : ℕ → List k.Token → Read t.Expr) → AreReadBy (F.post self.now.part) inner → Gives shown result (r.primary (names self.now.reader) MAX_DEPTH inner (left rest.entry)) }
    {
        let [token, tokens @ ..] = rest.tokens else {
            return Err(rest.refusal());
        };
        let line = token.line;
        let after = Rest {
            tokens,
            end: rest.end,
        };
        match &token.kind {
            Tok::Name(name) if !self.reader.defs.has(name.as_slice()) => {
                let name = Name::of(self.reader.alloc, name.as_slice())?;
                grown(Expr::Name(line, name), 1, after)
            }
            Tok::Int(value, long) => grown(Expr::Int(line, *value, *long), 1, after),
            Tok::Chr(byte) => grown(Expr::Chr(line, *byte), 1, after),
            Tok::Text(bytes) => {
                let bytes = Name::of(self.reader.alloc, bytes.as_slice())?;
                grown(Expr::Text(line, bytes), 1, after)
            }
            Tok::Mark(OPEN_ROUND) => self.enclosed(CLOSE_ROUND, after),
            _ => Err(rest.refusal()),
        }
    }
}
