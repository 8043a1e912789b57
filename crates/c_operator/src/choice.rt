// The rule on `? :`.
ghost use Rattle.std.specs.Prelude.{◌≡◌, ◌||◌, ◌&&◌, IfOk};
ghost use Rattle.c_type.specs.Of.{type_of as type_lem, tags_of};
ghost use Rattle.c_tree.specs.TExpr as e;
ghost use Rattle.c_tree.specs.TypedOf.{expr_of};
ghost use Rattle.c_rule.specs.RuleTypes as y;
ghost use Rattle.c_rule.specs.RuleValues as v;
ghost use Rattle.c_rule.specs.RuleExprs as r;
ghost use Rattle.c_scope.specs.Closed.{closed};
ghost use Rattle.c_scope.specs.Says.{Says};
ghost use Rattle.c_operator.specs.Boxed.{boxed};
ghost use Rattle.c_operator.specs.OfValues.{chosen_numbers, choice_of_values};

use crate::operators::meeting_of;
use crate::typed::{are_alike, are_integers, are_void, is_with_zero, type_of};
use crate::values::{node, scalar, to_type, used, widen};
use c_scope::TypeErr;
use c_tree::TExpr;
use c_type::{CType, Tags};
use std::alloc::{AllocError, Global};

/// Two integers, widened, meet.
fn of_numbers(
    alloc: Global,
    test: Box<TExpr>,
    a: Box<TExpr>,
    b: Box<TExpr>,
) -> Result<Box<TExpr>, AllocError>
    ensures { IfOk result (λ x. boxed x ≡ chosen_numbers (boxed test) (v.widen (boxed a)) (v.widen (boxed b))) }
{
    let a = widen(alloc, a)?;
    let b = widen(alloc, b)?;
    let ty = meeting_of(alloc, &a, &b)?;
    let x = to_type(alloc, &ty, a)?;
    let y = to_type(alloc, &ty, b)?;
    node(alloc, TExpr::Choice(ty, test, x, y))
}

/// Two values of one type.
fn of_one_type(
    alloc: Global,
    test: Box<TExpr>,
    x: Box<TExpr>,
    y: Box<TExpr>,
) -> Result<Box<TExpr>, AllocError>
    ensures { IfOk result (λ z. boxed z ≡ e.choice (e.type_of (boxed x)) (boxed test) (boxed x) (boxed y)) }
{
    let ty = type_of(alloc, &x)?;
    node(alloc, TExpr::Choice(ty, test, x, y))
}

/// A pointer, and the constant 0 on its right.
fn with_zero(
    alloc: Global,
    test: Box<TExpr>,
    x: Box<TExpr>,
    y: Box<TExpr>,
) -> Result<Box<TExpr>, AllocError>
    ensures { IfOk result (λ z. boxed z ≡ e.choice (e.type_of (boxed x)) (boxed test) (boxed x) (v.to_type (e.type_of (boxed x)) (boxed y))) }
{
    let ty = type_of(alloc, &x)?;
    let zero = to_type(alloc, &ty, y)?;
    node(alloc, TExpr::Choice(ty, test, x, zero))
}

/// A pointer, and the constant 0 on its left.
fn with_zero_left(
    alloc: Global,
    test: Box<TExpr>,
    x: Box<TExpr>,
    y: Box<TExpr>,
) -> Result<Box<TExpr>, AllocError>
    ensures { IfOk result (λ z. boxed z ≡ e.choice (e.type_of (boxed y)) (boxed test) (v.to_type (e.type_of (boxed y)) (boxed x)) (boxed y)) }
{
    let ty = type_of(alloc, &y)?;
    let zero = to_type(alloc, &ty, x)?;
    node(alloc, TExpr::Choice(ty, test, zero, y))
}

/// Two pointers of one type, or two void.
fn are_one(a: &TExpr, b: &TExpr) -> bool
    ensures { result
        ≡ (v.are_alike (expr_of a.now) (expr_of b.now) || (y.is_void (e.type_of (expr_of a.now)) && y.is_void (e.type_of (expr_of b.now)))) }
{
    are_alike(a, b) || are_void(a, b)
}

/// `? :` of two values: two integers, two pointers of one type, a pointer and the constant 0, or two void.
fn choice_of(
    alloc: Global,
    line: u32,
    tags: &Tags,
    test: Box<TExpr>,
    x: Box<TExpr>,
    y: Box<TExpr>,
) -> Result<Box<TExpr>, TypeErr>
    ensures { Says boxed (choice_of_values (tags_of tags.now) (boxed test) (boxed x) (boxed y)) result }
{
    if are_integers(&x, &y) {
        return Ok(of_numbers(alloc, test, x, y)?);
    }
    if are_one(&x, &y) {
        return Ok(of_one_type(alloc, test, x, y)?);
    }
    if is_with_zero(tags, &x, &y) {
        return Ok(with_zero(alloc, test, x, y)?);
    }
    if is_with_zero(tags, &y, &x) {
        return Ok(with_zero_left(alloc, test, x, y)?);
    }
    Err(TypeErr::Rule(16, line))
}

/// `? :` tests a scalar and takes two integers, two pointers of one type, a pointer and the constant 0, or two void.
pub fn choice(
    alloc: Global,
    line: u32,
    tags: &Tags,
    test: Box<TExpr>,
    a: Box<TExpr>,
    b: Box<TExpr>,
) -> Result<Box<TExpr>, TypeErr>
    ensures { Says boxed (r.choice (closed (tags_of tags.now)) (boxed test) (boxed a) (boxed b)) result }
{
    let test = scalar(alloc, 15, line, test)?;
    let x = used(alloc, line, a)?;
    let y = used(alloc, line, b)?;
    choice_of(alloc, line, tags, test, x, y)
}
