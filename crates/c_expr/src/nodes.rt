// Nodes over parts that have been read.
ghost use Rattle.std.specs.Prelude.{◌≡◌};
ghost use Rattle.c_tree.specs.TreeExpr as t;
ghost use Rattle.c_tree.specs.TreeOf.{expr_of, exprs_from, type_name_of, type_spec_of};
ghost use Rattle.c_expr.specs.Front as f;
ghost use Rattle.c_expr.specs.Gives.{Gives};
ghost use Rattle.c_expr.specs.Shapes.{affix_node, infix_node};
ghost use Rattle.c_expr.specs.Shown.{left, shown};

use crate::error::ParseErr;
use crate::rest::{Found, FoundArgs, Rest};
use c_tree::{AssignOp, BinaryOp, Expr, StepOp, TypeName, TypeSpec, UnaryOp};
use num_le::Name;
use std::alloc::Global;
use std::cmp::max;

/// The greatest depth of an expression.
pub const MAX_DEPTH: u32 = 200;

/// An operator between two operands.
#[derive(Clone, Copy, Drop)]
pub enum Infix {
    Comma,
    Assign(AssignOp),
    Binary(BinaryOp),
    /// `[`, with `]` behind the second operand
    Index,
}

/// How a member is selected.
#[derive(Clone, Copy, Drop)]
pub enum Selector {
    /// `.`
    Dot,
    /// `->`
    Arrow,
}

/// An operator at one operand.
#[derive(Drop)]
pub enum Affix {
    Unary(UnaryOp),
    SizeOf,
    Post(StepOp),
    Select(Selector, Name),
}

impl Infix {
    /// The node over both operands.
    fn node(self, line: u32, a: Box<Expr>, b: Box<Expr>) -> Expr
        ensures { expr_of result ≡ infix_node self line (expr_of a.value) (expr_of b.value) }
    {
        match self {
            Infix::Comma => Expr::Comma(line, a, b),
            Infix::Assign(op) => Expr::Assign(line, op, a, b),
            Infix::Binary(op) => Expr::Binary(line, op, a, b),
            Infix::Index => Expr::Index(line, a, b),
        }
    }

    /// The operator between the operands, and the tokens behind the second one.
    pub fn join<'a>(
        self,
        alloc: Global,
        line: u32,
        a: Found<'_>,
        b: Found<'a>,
    ) -> Result<Found<'a>, ParseErr>
        ensures { Gives shown result (f.grown t.expr_depth MAX_DEPTH (infix_node self line (expr_of a.entry.tree) (expr_of b.entry.tree)) (left b.entry.rest)) }
    {
        let depth = 1 + max(a.depth, b.depth);
        let rest = b.rest;
        let first = Box::new(alloc, a.tree)?;
        let second = Box::new(alloc, b.tree)?;
        grown(self.node(line, first, second), depth, rest)
    }
}

impl Affix {
    /// The node over the operand.
    fn node(self, line: u32, e: Box<Expr>) -> Expr
        ensures { expr_of result ≡ affix_node self line (expr_of e.value) }
    {
        match self {
            Affix::Unary(op) => Expr::Unary(line, op, e),
            Affix::SizeOf => Expr::SizeOf(line, e),
            Affix::Post(op) => Expr::Post(line, op, e),
            Affix::Select(Selector::Dot, name) => Expr::Member(line, e, name),
            Affix::Select(Selector::Arrow, name) => Expr::Arrow(line, e, name),
        }
    }

    /// The operator at the operand, and the tokens behind both.
    pub fn apply<'a>(
        self,
        alloc: Global,
        line: u32,
        e: Found<'_>,
        rest: Rest<'a>,
    ) -> Result<Found<'a>, ParseErr>
        ensures { Gives shown result (f.grown t.expr_depth MAX_DEPTH (affix_node self line (expr_of e.entry.tree)) (left rest.entry)) }
    {
        let depth = 1 + e.depth;
        let operand = Box::new(alloc, e.tree)?;
        grown(self.node(line, operand), depth, rest)
    }
}

/// The expression, where it is no deeper than the greatest depth.
pub fn grown<'a>(tree: Expr, depth: u32, rest: Rest<'a>) -> Result<Found<'a>, ParseErr>
    requires { depth ≡ t.expr_depth (expr_of tree) }
    ensures { Gives shown result (f.grown t.expr_depth MAX_DEPTH (expr_of tree) (left rest.entry)) }
{
    if depth > MAX_DEPTH {
        return Err(rest.refusal());
    }
    Ok(Found { tree, depth, rest })
}

/// The depth of a type's name.
pub fn type_depth(types: &TypeSpec) -> u32
    ensures { result ≡ t.type_depth (type_spec_of types.now) }
{
    match types {
        TypeSpec::Tag(..) => 1,
        TypeSpec::Num(..) | TypeSpec::Void | TypeSpec::Named(..) => 0,
    }
}

/// The two answers of a choice at its test.
pub fn choice<'a>(
    alloc: Global,
    line: u32,
    test: Found<'_>,
    yes: Found<'_>,
    other: Found<'a>,
) -> Result<Found<'a>, ParseErr>
    ensures { Gives shown result (f.grown t.expr_depth MAX_DEPTH (t.choice line (expr_of test.entry.tree) (expr_of yes.entry.tree) (expr_of other.entry.tree)) (left other.entry.rest)) }
{
    let depth = 1 + max(test.depth, max(yes.depth, other.depth));
    let rest = other.rest;
    let test = Box::new(alloc, test.tree)?;
    let yes = Box::new(alloc, yes.tree)?;
    let other = Box::new(alloc, other.tree)?;
    grown(Expr::Choice(line, test, yes, other), depth, rest)
}

/// The size of a type, and the tokens behind it.
pub fn size_of_type<'a>(line: u32, types: TypeName, rest: Rest<'a>) -> Result<Found<'a>, ParseErr>
    ensures { Gives shown result (f.grown t.expr_depth MAX_DEPTH (t.size_of_type line (type_name_of types)) (left rest.entry)) }
{
    let depth = 2 + type_depth(&types.types);
    grown(Expr::SizeOfType(line, types), depth, rest)
}

/// The operand as a value of the type.
pub fn cast<'a>(
    alloc: Global,
    line: u32,
    types: TypeName,
    e: Found<'a>,
) -> Result<Found<'a>, ParseErr>
    ensures { Gives shown result (f.grown t.expr_depth MAX_DEPTH (t.cast line (type_name_of types) (expr_of e.entry.tree)) (left e.entry.rest)) }
{
    let depth = 1 + max(1 + type_depth(&types.types), e.depth);
    let rest = e.rest;
    let operand = Box::new(alloc, e.tree)?;
    grown(Expr::Cast(line, types, operand), depth, rest)
}

/// The call of a function at the arguments.
pub fn call<'a>(
    alloc: Global,
    line: u32,
    callee: Found<'_>,
    args: FoundArgs<'a>,
) -> Result<Found<'a>, ParseErr>
    ensures { Gives shown result (f.grown t.expr_depth MAX_DEPTH (t.call line (expr_of callee.entry.tree) (exprs_from args.entry.trees.items)) (left args.entry.rest)) }
{
    let depth = 1 + max(callee.depth, args.depth);
    let rest = args.rest;
    let callee = Box::new(alloc, callee.tree)?;
    grown(Expr::Call(line, callee, args.trees), depth, rest)
}
