// The rule of each operator.
ghost use Rattle.std.specs.Prelude.{◌≡◌};
ghost use Rattle.c_type.specs.Of.{tags_of};
ghost use Rattle.c_rule.specs.RuleExprs as r;
ghost use Rattle.c_scope.specs.Closed.{closed};
ghost use Rattle.c_scope.specs.Says.{Says};
ghost use Rattle.c_operator.specs.Boxed.{boxed};

use crate::operators::{arithmetic, both, difference, either, equality, order, shift, sum};
use crate::unary::{address, denial, negation, star, step};
use c_scope::TypeErr;
use c_tree::{BinaryOp, StepOp, TBinary, TExpr, TStep, TUnary, UnaryOp};
use c_type::Tags;
use std::alloc::Global;

/// A binary operator, by its rule.
pub fn binary(
    alloc: Global,
    line: u32,
    tags: &Tags,
    op: BinaryOp,
    a: Box<TExpr>,
    b: Box<TExpr>,
) -> Result<Box<TExpr>, TypeErr>
    ensures { Says boxed (r.binary (closed (tags_of tags.now)) op (boxed a) (boxed b)) result }
{
    match op {
        BinaryOp::Either => either(alloc, line, a, b),
        BinaryOp::Both => both(alloc, line, a, b),
        BinaryOp::Or => arithmetic(alloc, line, TBinary::BitOr, a, b),
        BinaryOp::Xor => arithmetic(alloc, line, TBinary::BitXor, a, b),
        BinaryOp::And => arithmetic(alloc, line, TBinary::BitAnd, a, b),
        BinaryOp::Eq => equality(alloc, line, tags, TBinary::Eq, a, b),
        BinaryOp::Ne => equality(alloc, line, tags, TBinary::Ne, a, b),
        BinaryOp::Lt => order(alloc, line, TBinary::Lt, a, b),
        BinaryOp::Gt => order(alloc, line, TBinary::Gt, a, b),
        BinaryOp::Le => order(alloc, line, TBinary::Le, a, b),
        BinaryOp::Ge => order(alloc, line, TBinary::Ge, a, b),
        BinaryOp::Shl => shift(alloc, line, TBinary::Shl, a, b),
        BinaryOp::Shr => shift(alloc, line, TBinary::Shr, a, b),
        BinaryOp::Add => sum(alloc, line, tags, a, b),
        BinaryOp::Sub => difference(alloc, line, tags, a, b),
        BinaryOp::Mul => arithmetic(alloc, line, TBinary::Mul, a, b),
        BinaryOp::Div => arithmetic(alloc, line, TBinary::Div, a, b),
        BinaryOp::Rem => arithmetic(alloc, line, TBinary::Rem, a, b),
    }
}

/// A unary operator, by its rule.
pub fn unary(
    alloc: Global,
    line: u32,
    tags: &Tags,
    op: UnaryOp,
    expr: Box<TExpr>,
) -> Result<Box<TExpr>, TypeErr>
    ensures { Says boxed (r.unary (closed (tags_of tags.now)) op (boxed expr)) result }
{
    match op {
        UnaryOp::Deref => star(alloc, line, expr),
        UnaryOp::Address => address(alloc, line, expr),
        UnaryOp::Neg => negation(alloc, line, TUnary::Neg, expr),
        UnaryOp::Not => denial(alloc, line, expr),
        UnaryOp::Flip => negation(alloc, line, TUnary::Flip, expr),
        UnaryOp::Inc => step(alloc, line, tags, TStep::PreInc, expr),
        UnaryOp::Dec => step(alloc, line, tags, TStep::PreDec, expr),
    }
}

/// `++` or `--` behind its operand.
pub fn post_op(op: StepOp) -> TStep
    ensures { result ≡ r.post_op op }
{
    match op {
        StepOp::Inc => TStep::PostInc,
        StepOp::Dec => TStep::PostDec,
    }
}
