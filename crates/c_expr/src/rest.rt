// The tokens that are left to read, and what has been read before them.
ghost use Rattle.std.specs.Prelude.{◌≡◌, ◌≤◌};
ghost use Rattle.c_tree.specs.TreeExpr as t;
ghost use Rattle.c_tree.specs.TreeOf.{expr_of, exprs_from};

use c_lex::Token;
use c_tree::Expr;

/// The tokens that are left.
#[derive(Clone, Copy, Drop)]
pub struct Rest<'a> {
    pub tokens: &'a [Token],
    /// The line of the last of all tokens.
    pub end: u32,
}

/// An expression, its depth, and the tokens behind it.
#[derive(Drop)]
pub struct Found<'a> {
    pub tree: Expr,
    pub depth: u32,
    pub rest: Rest<'a>,
    ghost depth_is: { depth ≡ t.expr_depth (expr_of tree) },
    ghost is_low: { depth ≤ 200 },
}

/// The arguments of a call, their greatest depth, and the tokens behind the closing bracket.
#[derive(Drop)]
pub struct FoundArgs<'a> {
    pub trees: Vec<Expr>,
    pub depth: u32,
    pub rest: Rest<'a>,
    ghost depth_is: { depth ≡ t.exprs_depth (exprs_from trees.items) },
    ghost is_low: { depth ≤ 200 },
}
