// The rules on operators of two operands, which are not yet used as values.
ghost use Rattle.std.specs.Prelude.{◌≡◌, IfOk};
ghost use Rattle.c_type.specs.Kinds as k;
ghost use Rattle.c_type.specs.Of.{type_of as type_lem, tags_of};
ghost use Rattle.c_tree.specs.TExpr as e;
ghost use Rattle.c_tree.specs.TypedOf.{expr_of};
ghost use Rattle.c_rule.specs.RuleValues as v;
ghost use Rattle.c_rule.specs.RuleExprs as r;
ghost use Rattle.c_scope.specs.Closed.{closed};
ghost use Rattle.c_scope.specs.Says.{Says};
ghost use Rattle.c_type.specs.Types.{num};
ghost use Rattle.c_operator.specs.Boxed.{boxed};
ghost use Rattle.c_operator.specs.OfValues.{sum_of_values, integer_and_pointer, difference_of_values, distance_of, order_of_values, equality_of_values};

use crate::typed::{
    are_alike, are_alike_objects, are_integer_and_pointer, are_integers, are_pointer_and_integer,
    is_with_zero, target_is_sized, type_of,
};
use crate::values::{integer, node, scalar, to_type, used, widen};
use c_scope::TypeErr;
use c_tree::{TBinary, TExpr};
use c_type::{CType, Kind, Tags};
use std::alloc::{AllocError, Global};

fn meet(a: Kind, b: Kind) -> Kind
    ensures { result ≡ k.meet a b }
{
    match (a, b) {
        (Kind::ULong, _) | (_, Kind::ULong) => Kind::ULong,
        (Kind::Long, Kind::UInt) | (Kind::UInt, Kind::Long) => Kind::ULong,
        (Kind::Long, _) | (_, Kind::Long) => Kind::Long,
        (Kind::UInt, _) | (_, Kind::UInt) => Kind::UInt,
        _ => Kind::Int,
    }
}

/// The type in which two operands meet.
pub fn meeting(a: &CType, b: &CType) -> CType
    ensures { type_lem result ≡ v.meeting (type_lem a.now) (type_lem b.now) }
{
    match (a, b) {
        (CType::Num(a), CType::Num(b)) => CType::Num(meet(*a, *b)),
        _ => CType::Num(Kind::Int),
    }
}

/// The type in which two expressions meet.
pub fn meeting_of(alloc: Global, a: &TExpr, b: &TExpr) -> Result<CType, AllocError>
    ensures { IfOk result (λ x. type_lem x ≡ v.meeting (e.type_of (expr_of a.now)) (e.type_of (expr_of b.now))) }
{
    let left = type_of(alloc, a)?;
    let right = type_of(alloc, b)?;
    Ok(meeting(&left, &right))
}

/// The node of an operator that gives int.
fn test(alloc: Global, op: TBinary, a: Box<TExpr>, b: Box<TExpr>) -> Result<Box<TExpr>, AllocError>
    ensures { IfOk result (λ x. boxed x ≡ e.binary (num Kind.Int) op (boxed a) (boxed b)) }
{
    node(alloc, TExpr::Binary(CType::Num(Kind::Int), op, a, b))
}

/// Both operands converted to the type in which they meet, which is the type of the operation.
fn met(alloc: Global, op: TBinary, a: Box<TExpr>, b: Box<TExpr>) -> Result<Box<TExpr>, AllocError>
    ensures { IfOk result (λ x. boxed x ≡ r.met op (boxed a) (boxed b)) }
{
    let ty = meeting_of(alloc, &a, &b)?;
    let x = to_type(alloc, &ty, a)?;
    let y = to_type(alloc, &ty, b)?;
    node(alloc, TExpr::Binary(ty, op, x, y))
}

/// Two integers, widened, meet.
fn wide_met(
    alloc: Global,
    op: TBinary,
    a: Box<TExpr>,
    b: Box<TExpr>,
) -> Result<Box<TExpr>, AllocError>
    ensures { IfOk result (λ x. boxed x ≡ r.met op (v.widen (boxed a)) (v.widen (boxed b))) }
{
    let x = widen(alloc, a)?;
    let y = widen(alloc, b)?;
    met(alloc, op, x, y)
}

/// `* / % & | ^` take integers.
pub fn arithmetic(
    alloc: Global,
    line: u32,
    op: TBinary,
    a: Box<TExpr>,
    b: Box<TExpr>,
) -> Result<Box<TExpr>, TypeErr>
    ensures { Says boxed (r.arithmetic op (boxed a) (boxed b)) result }
{
    let x = integer(alloc, 12, line, a)?;
    let y = integer(alloc, 12, line, b)?;
    Ok(met(alloc, op, x, y)?)
}

/// The node of an operator that has the type of its left operand.
fn as_left(
    alloc: Global,
    op: TBinary,
    a: Box<TExpr>,
    b: Box<TExpr>,
) -> Result<Box<TExpr>, AllocError>
    ensures { IfOk result (λ x. boxed x ≡ e.binary (e.type_of (boxed a)) op (boxed a) (boxed b)) }
{
    let ty = type_of(alloc, &a)?;
    node(alloc, TExpr::Binary(ty, op, a, b))
}

/// A shift takes integers and has the type of its left operand.
pub fn shift(
    alloc: Global,
    line: u32,
    op: TBinary,
    a: Box<TExpr>,
    b: Box<TExpr>,
) -> Result<Box<TExpr>, TypeErr>
    ensures { Says boxed (r.shift op (boxed a) (boxed b)) result }
{
    let x = integer(alloc, 12, line, a)?;
    let y = integer(alloc, 12, line, b)?;
    Ok(as_left(alloc, op, x, y)?)
}

/// A pointer moved by an integer, which needs the size of what it points to.
fn moved(
    alloc: Global,
    line: u32,
    tags: &Tags,
    op: TBinary,
    p: Box<TExpr>,
    n: Box<TExpr>,
) -> Result<Box<TExpr>, TypeErr>
    ensures { Says boxed (r.pointer_and_integer (closed (tags_of tags.now)) op (boxed p) (boxed n)) result }
{
    if !target_is_sized(tags, &p) {
        return Err(TypeErr::Rule(3, line));
    }
    let by = widen(alloc, n)?;
    Ok(as_left(alloc, op, p, by)?)
}

/// The same with the pointer on the right.
fn moved_from_left(
    alloc: Global,
    line: u32,
    tags: &Tags,
    n: Box<TExpr>,
    p: Box<TExpr>,
) -> Result<Box<TExpr>, TypeErr>
    ensures { Says boxed (integer_and_pointer (closed (tags_of tags.now)) (boxed n) (boxed p)) result }
{
    if !target_is_sized(tags, &p) {
        return Err(TypeErr::Rule(3, line));
    }
    let by = widen(alloc, n)?;
    let ty = type_of(alloc, &p)?;
    Ok(node(alloc, TExpr::Binary(ty, TBinary::Add, by, p))?)
}

/// `+` of two values: two integers, or a pointer to an object and an integer in either order.
fn sum_of(
    alloc: Global,
    line: u32,
    tags: &Tags,
    x: Box<TExpr>,
    y: Box<TExpr>,
) -> Result<Box<TExpr>, TypeErr>
    ensures { Says boxed (sum_of_values (closed (tags_of tags.now)) (boxed x) (boxed y)) result }
{
    if are_integers(&x, &y) {
        return Ok(wide_met(alloc, TBinary::Add, x, y)?);
    }
    if are_pointer_and_integer(&x, &y) {
        return moved(alloc, line, tags, TBinary::Add, x, y);
    }
    if are_integer_and_pointer(&x, &y) {
        return moved_from_left(alloc, line, tags, x, y);
    }
    Err(TypeErr::Rule(13, line))
}

/// `+` takes two integers, or a pointer to an object and an integer in either order.
pub fn sum(
    alloc: Global,
    line: u32,
    tags: &Tags,
    a: Box<TExpr>,
    b: Box<TExpr>,
) -> Result<Box<TExpr>, TypeErr>
    ensures { Says boxed (r.sum (closed (tags_of tags.now)) (boxed a) (boxed b)) result }
{
    let x = used(alloc, line, a)?;
    let y = used(alloc, line, b)?;
    sum_of(alloc, line, tags, x, y)
}

/// The distance of two pointers to objects, which needs the size of the objects.
fn distance(
    alloc: Global,
    line: u32,
    tags: &Tags,
    x: Box<TExpr>,
    y: Box<TExpr>,
) -> Result<Box<TExpr>, TypeErr>
    ensures { Says boxed (distance_of (closed (tags_of tags.now)) (boxed x) (boxed y)) result }
{
    if !target_is_sized(tags, &x) {
        return Err(TypeErr::Rule(3, line));
    }
    Ok(test(alloc, TBinary::Sub, x, y)?)
}

/// `-` of two values: two integers, a pointer to an object and an integer, or two such pointers of one type.
fn difference_of(
    alloc: Global,
    line: u32,
    tags: &Tags,
    x: Box<TExpr>,
    y: Box<TExpr>,
) -> Result<Box<TExpr>, TypeErr>
    ensures { Says boxed (difference_of_values (closed (tags_of tags.now)) (boxed x) (boxed y)) result }
{
    if are_integers(&x, &y) {
        return Ok(wide_met(alloc, TBinary::Sub, x, y)?);
    }
    if are_pointer_and_integer(&x, &y) {
        return moved(alloc, line, tags, TBinary::Sub, x, y);
    }
    if are_alike_objects(&x, &y) {
        return distance(alloc, line, tags, x, y);
    }
    Err(TypeErr::Rule(13, line))
}

/// `-` takes two integers, a pointer to an object and an integer, or two such pointers of one type, which gives int.
pub fn difference(
    alloc: Global,
    line: u32,
    tags: &Tags,
    a: Box<TExpr>,
    b: Box<TExpr>,
) -> Result<Box<TExpr>, TypeErr>
    ensures { Says boxed (r.difference (closed (tags_of tags.now)) (boxed a) (boxed b)) result }
{
    let x = used(alloc, line, a)?;
    let y = used(alloc, line, b)?;
    difference_of(alloc, line, tags, x, y)
}

/// Two widened integers meet, and a comparison is int.
fn compared(
    alloc: Global,
    op: TBinary,
    a: Box<TExpr>,
    b: Box<TExpr>,
) -> Result<Box<TExpr>, AllocError>
    ensures { IfOk result (λ x. boxed x ≡ r.compared op (boxed a) (boxed b)) }
{
    let ty = meeting_of(alloc, &a, &b)?;
    let x = to_type(alloc, &ty, a)?;
    let y = to_type(alloc, &ty, b)?;
    test(alloc, op, x, y)
}

/// Two integers, widened, are compared.
fn wide_compared(
    alloc: Global,
    op: TBinary,
    a: Box<TExpr>,
    b: Box<TExpr>,
) -> Result<Box<TExpr>, AllocError>
    ensures { IfOk result (λ x. boxed x ≡ r.compared op (v.widen (boxed a)) (v.widen (boxed b))) }
{
    let x = widen(alloc, a)?;
    let y = widen(alloc, b)?;
    compared(alloc, op, x, y)
}

/// An order of two values: two integers, or two pointers to objects of one type.
fn order_of(
    alloc: Global,
    line: u32,
    op: TBinary,
    x: Box<TExpr>,
    y: Box<TExpr>,
) -> Result<Box<TExpr>, TypeErr>
    ensures { Says boxed (order_of_values op (boxed x) (boxed y)) result }
{
    if are_integers(&x, &y) {
        return Ok(wide_compared(alloc, op, x, y)?);
    }
    if !are_alike_objects(&x, &y) {
        return Err(TypeErr::Rule(14, line));
    }
    Ok(test(alloc, op, x, y)?)
}

/// An order takes two integers, or two pointers to objects of one type.
pub fn order(
    alloc: Global,
    line: u32,
    op: TBinary,
    a: Box<TExpr>,
    b: Box<TExpr>,
) -> Result<Box<TExpr>, TypeErr>
    ensures { Says boxed (r.order op (boxed a) (boxed b)) result }
{
    let x = used(alloc, line, a)?;
    let y = used(alloc, line, b)?;
    order_of(alloc, line, op, x, y)
}

/// A pointer is compared with the constant 0 on its right.
fn with_zero(
    alloc: Global,
    op: TBinary,
    x: Box<TExpr>,
    y: Box<TExpr>,
) -> Result<Box<TExpr>, AllocError>
    ensures { IfOk result (λ z. boxed z ≡ e.binary (num Kind.Int) op (boxed x) (v.to_type (e.type_of (boxed x)) (boxed y))) }
{
    let ty = type_of(alloc, &x)?;
    let zero = to_type(alloc, &ty, y)?;
    test(alloc, op, x, zero)
}

/// A pointer is compared with the constant 0 on its left.
fn with_zero_left(
    alloc: Global,
    op: TBinary,
    x: Box<TExpr>,
    y: Box<TExpr>,
) -> Result<Box<TExpr>, AllocError>
    ensures { IfOk result (λ z. boxed z ≡ e.binary (num Kind.Int) op (v.to_type (e.type_of (boxed y)) (boxed x)) (boxed y)) }
{
    let ty = type_of(alloc, &y)?;
    let zero = to_type(alloc, &ty, x)?;
    test(alloc, op, zero, y)
}

/// `==` or `!=` of two values: two integers, two pointers of one type, or a pointer and the constant 0.
fn equality_of(
    alloc: Global,
    line: u32,
    tags: &Tags,
    op: TBinary,
    x: Box<TExpr>,
    y: Box<TExpr>,
) -> Result<Box<TExpr>, TypeErr>
    ensures { Says boxed (equality_of_values (tags_of tags.now) op (boxed x) (boxed y)) result }
{
    if are_integers(&x, &y) {
        return Ok(wide_compared(alloc, op, x, y)?);
    }
    if are_alike(&x, &y) {
        return Ok(test(alloc, op, x, y)?);
    }
    if is_with_zero(tags, &x, &y) {
        return Ok(with_zero(alloc, op, x, y)?);
    }
    if is_with_zero(tags, &y, &x) {
        return Ok(with_zero_left(alloc, op, x, y)?);
    }
    Err(TypeErr::Rule(14, line))
}

/// `==` and `!=` take two integers, two pointers of one type, or a pointer and the constant 0.
pub fn equality(
    alloc: Global,
    line: u32,
    tags: &Tags,
    op: TBinary,
    a: Box<TExpr>,
    b: Box<TExpr>,
) -> Result<Box<TExpr>, TypeErr>
    ensures { Says boxed (r.equality (closed (tags_of tags.now)) op (boxed a) (boxed b)) result }
{
    let x = used(alloc, line, a)?;
    let y = used(alloc, line, b)?;
    equality_of(alloc, line, tags, op, x, y)
}

/// `&&` takes scalars.
pub fn both(alloc: Global, line: u32, a: Box<TExpr>, b: Box<TExpr>) -> Result<Box<TExpr>, TypeErr>
    ensures { Says boxed (r.two_tests e.both (boxed a) (boxed b)) result }
{
    let x = scalar(alloc, 15, line, a)?;
    let y = scalar(alloc, 15, line, b)?;
    Ok(node(alloc, TExpr::Both(x, y))?)
}

/// `||` takes scalars.
pub fn either(alloc: Global, line: u32, a: Box<TExpr>, b: Box<TExpr>) -> Result<Box<TExpr>, TypeErr>
    ensures { Says boxed (r.two_tests e.either (boxed a) (boxed b)) result }
{
    let x = scalar(alloc, 15, line, a)?;
    let y = scalar(alloc, 15, line, b)?;
    Ok(node(alloc, TExpr::Either(x, y))?)
}

/// A structure stands before no comma and behind none.
pub fn comma(alloc: Global, line: u32, a: Box<TExpr>, b: Box<TExpr>) -> Result<Box<TExpr>, TypeErr>
    ensures { Says boxed (r.comma (boxed a) (boxed b)) result }
{
    let x = used(alloc, line, a)?;
    let y = used(alloc, line, b)?;
    let ty = type_of(alloc, &y)?;
    Ok(node(alloc, TExpr::Comma(ty, x, y))?)
}
