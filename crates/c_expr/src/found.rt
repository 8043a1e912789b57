// What has been read, and what stands behind it.
ghost use Rattle.std.specs.Prelude.{◌≡◌, Some, []};
ghost use Rattle.c_tree.specs.TreeOf.{expr_of, exprs_from};
ghost use Rattle.c_expr.specs.Front as f;
ghost use Rattle.c_expr.specs.Front.{along};
ghost use Rattle.c_expr.specs.Gives.{Gives, IsNotC};
ghost use Rattle.c_expr.specs.Shapes.{with_one};
ghost use Rattle.c_expr.specs.Shown.{left, shown, shown_args};

use crate::error::ParseErr;
use crate::places::CLOSE_ROUND;
use crate::rest::{Found, FoundArgs, Rest};
use std::alloc::Global;
use std::cmp::max;

impl<'a> Found<'a> {
    /// The refusal of what stands behind the expression.
    pub fn refusal(self) -> ParseErr
        ensures { IsNotC result }
    {
        self.rest.refusal()
    }

    /// The expression, and the tokens behind the closing mark that stands behind it.
    pub fn closed(self, close: u8) -> Result<Found<'a>, ParseErr>
        ensures { Gives shown result (along (f.eat close (left self.entry.rest)) (λ after. Some (expr_of self.entry.tree, after))) }
    {
        let Some(rest) = self.rest.eat(close) else {
            return Err(self.rest.refusal());
        };
        Ok(Found {
            tree: self.tree,
            depth: self.depth,
            rest,
        })
    }
}

impl<'a> FoundArgs<'a> {
    /// No argument before the tokens.
    pub fn none(alloc: Global, rest: Rest<'a>) -> FoundArgs<'a>
        ensures none { result.trees.items ≡ [] }
        ensures rest { result.rest ≡ rest.entry }
    {
        FoundArgs {
            trees: Vec::new(alloc),
            depth: 0,
            rest,
        }
    }

    /// The same arguments before these tokens.
    pub fn up_to(self, rest: Rest<'a>) -> FoundArgs<'a>
        ensures { shown_args result ≡ (exprs_from self.entry.trees.items, left rest.entry) }
    {
        FoundArgs {
            trees: self.trees,
            depth: self.depth,
            rest,
        }
    }

    /// With one more argument, before the tokens behind it.
    pub fn with(self, next: Found<'a>) -> Result<FoundArgs<'a>, ParseErr>
        ensures { Gives shown_args result (Some (with_one (exprs_from self.entry.trees.items) (expr_of next.entry.tree), left next.entry.rest)) }
    {
        let depth = max(self.depth, next.depth);
        let rest = next.rest;
        let mut trees = self.trees;
        trees.push(next.tree)?;
        Ok(FoundArgs { trees, depth, rest })
    }

    /// The arguments before the tokens behind the closing bracket.
    pub fn closed(self) -> Result<FoundArgs<'a>, ParseErr>
        ensures { Gives shown_args result (along (f.eat CLOSE_ROUND (left self.entry.rest)) (λ after. Some (exprs_from self.entry.trees.items, after))) }
    {
        match self.rest.eat(CLOSE_ROUND) {
            Some(after) => Ok(self.up_to(after)),
            None => Err(self.rest.refusal()),
        }
    }
}
