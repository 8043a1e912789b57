// The rules on assignments.
ghost use Rattle.std.specs.Prelude.{◌≡◌, ◌&&◌, IfOk};
ghost use Rattle.c_type.specs.Of.{type_of as type_lem, tags_of};
ghost use Rattle.c_type.specs.Types as t;
ghost use Rattle.c_tree.specs.TExpr as e;
ghost use Rattle.c_tree.specs.TypedOf.{expr_of};
ghost use Rattle.c_rule.specs.RuleValues as v;
ghost use Rattle.c_rule.specs.RuleExprs as r;
ghost use Rattle.c_scope.specs.Closed.{closed};
ghost use Rattle.c_scope.specs.Says.{Says};
ghost use Rattle.c_operator.specs.Boxed.{boxed};
ghost use Rattle.c_operator.specs.OfValues.{assigned_value};

use crate::operators::meeting;
use crate::typed::{
    has_type, is_integer, is_object_pointer, is_scalar, is_sized, is_structure, target_is_sized,
    type_of,
};
use crate::unary::is_place;
use crate::values::{integer, node, taken, to_type, used, wide_type};
use c_scope::TypeErr;
use c_tree::{AssignOp, TBinary, TExpr};
use c_type::{CType, Tags};
use std::alloc::{AllocError, Global};

/// A place that may be set.
fn may_be_set(place: &TExpr) -> bool
    ensures { result ≡ r.may_be_set (expr_of place.now) }
{
    is_place(place) && (is_scalar(place) || is_structure(place))
}

/// A place that has the type of another.
fn is_like(place: &CType, from: &TExpr) -> bool
    ensures { result ≡ (v.is_place (expr_of from.now) && t.same_type (type_lem place.now) (e.type_of (expr_of from.now))) }
{
    is_place(from) && has_type(place, from)
}

/// A structure takes a place of the same type, and the assignment is void.
fn copied(
    alloc: Global,
    line: u32,
    tags: &Tags,
    place: Box<TExpr>,
    from: Box<TExpr>,
) -> Result<Box<TExpr>, TypeErr>
    ensures { Says boxed (r.copied (closed (tags_of tags.now)) (boxed place) (boxed from)) result }
{
    let ty = type_of(alloc, &place)?;
    if !is_like(&ty, &from) {
        return Err(TypeErr::Rule(21, line));
    }
    if !is_sized(tags, &place) {
        return Err(TypeErr::Rule(3, line));
    }
    Ok(node(alloc, TExpr::Assign(CType::Void, place, from))?)
}

/// A scalar takes a value.
fn set(
    alloc: Global,
    line: u32,
    tags: &Tags,
    place: Box<TExpr>,
    expr: Box<TExpr>,
) -> Result<Box<TExpr>, TypeErr>
    ensures { Says boxed (assigned_value (closed (tags_of tags.now)) (boxed place) (boxed expr)) result }
{
    let value = used(alloc, line, expr)?;
    let ty = type_of(alloc, &place)?;
    let value = taken(alloc, 21, line, tags, &ty, value)?;
    Ok(node(alloc, TExpr::Assign(ty, place, value))?)
}

/// `=` sets a place that is neither array nor function: integers take integers, a pointer its own type or the constant 0.
fn assign(
    alloc: Global,
    line: u32,
    tags: &Tags,
    place: Box<TExpr>,
    expr: Box<TExpr>,
) -> Result<Box<TExpr>, TypeErr>
    ensures { Says boxed (r.assign (closed (tags_of tags.now)) (boxed place) (boxed expr)) result }
{
    if !may_be_set(&place) {
        return Err(TypeErr::Rule(21, line));
    }
    if is_structure(&place) {
        return copied(alloc, line, tags, place, expr);
    }
    set(alloc, line, tags, place, expr)
}

/// A place with an integer.
fn is_integer_place(place: &TExpr) -> bool
    ensures { result ≡ (v.is_place (expr_of place.now) && t.is_integer (e.type_of (expr_of place.now))) }
{
    is_place(place) && is_integer(place)
}

/// A place with a pointer to an object.
fn is_pointer_place(place: &TExpr) -> bool
    ensures { result ≡ (v.is_place (expr_of place.now) && v.is_object_pointer (e.type_of (expr_of place.now))) }
{
    is_place(place) && is_object_pointer(place)
}

/// The node of a compound assignment, whose operator works in the second type.
fn updated(
    alloc: Global,
    op: TBinary,
    at: CType,
    place: Box<TExpr>,
    by: Box<TExpr>,
) -> Result<Box<TExpr>, AllocError>
    ensures { IfOk result (λ x. boxed x ≡ e.update (e.type_of (boxed place)) op (type_lem at) (boxed place) (boxed by)) }
{
    let ty = type_of(alloc, &place)?;
    node(alloc, TExpr::Update(ty, op, at, place, by))
}

/// The operator works in the type in which the widened place and the value meet.
fn updated_by(
    alloc: Global,
    op: TBinary,
    place: Box<TExpr>,
    by: Box<TExpr>,
) -> Result<Box<TExpr>, AllocError>
    ensures { IfOk result
        (λ x. boxed x ≡ (let at = v.meeting (v.wide (e.type_of (boxed place))) (e.type_of (boxed by)) in e.update (e.type_of (boxed place)) op at (boxed place) (v.to_type at (boxed by)))) }
{
    let left = wide_type(alloc, &place)?;
    let right = type_of(alloc, &by)?;
    let at = meeting(&left, &right);
    let by = to_type(alloc, &at, by)?;
    updated(alloc, op, at, place, by)
}

/// A compound assignment takes integers. Its operator works in the type in which they meet.
fn update(
    alloc: Global,
    line: u32,
    op: TBinary,
    place: Box<TExpr>,
    expr: Box<TExpr>,
) -> Result<Box<TExpr>, TypeErr>
    ensures { Says boxed (r.update op (boxed place) (boxed expr)) result }
{
    if !is_integer_place(&place) {
        return Err(TypeErr::Rule(21, line));
    }
    let by = integer(alloc, 21, line, expr)?;
    Ok(updated_by(alloc, op, place, by)?)
}

/// A shift works in the type of the widened left side.
fn update_shift(
    alloc: Global,
    line: u32,
    op: TBinary,
    place: Box<TExpr>,
    expr: Box<TExpr>,
) -> Result<Box<TExpr>, TypeErr>
    ensures { Says boxed (r.update_shift op (boxed place) (boxed expr)) result }
{
    if !is_integer_place(&place) {
        return Err(TypeErr::Rule(21, line));
    }
    let by = integer(alloc, 21, line, expr)?;
    let at = wide_type(alloc, &place)?;
    Ok(updated(alloc, op, at, place, by)?)
}

/// `+=` and `-=` also take a pointer to an object and an integer.
fn update_sum(
    alloc: Global,
    line: u32,
    tags: &Tags,
    op: TBinary,
    place: Box<TExpr>,
    expr: Box<TExpr>,
) -> Result<Box<TExpr>, TypeErr>
    ensures { Says boxed (r.update_sum (closed (tags_of tags.now)) op (boxed place) (boxed expr)) result }
{
    if !is_pointer_place(&place) {
        return update(alloc, line, op, place, expr);
    }
    let by = integer(alloc, 21, line, expr)?;
    if !target_is_sized(tags, &place) {
        return Err(TypeErr::Rule(3, line));
    }
    let at = type_of(alloc, &place)?;
    Ok(updated(alloc, op, at, place, by)?)
}

/// An assignment, by the rule of its operator.
pub fn assignment(
    alloc: Global,
    line: u32,
    tags: &Tags,
    op: AssignOp,
    place: Box<TExpr>,
    expr: Box<TExpr>,
) -> Result<Box<TExpr>, TypeErr>
    ensures { Says boxed (r.assignment (closed (tags_of tags.now)) op (boxed place) (boxed expr)) result }
{
    match op {
        AssignOp::Set => assign(alloc, line, tags, place, expr),
        AssignOp::Add => update_sum(alloc, line, tags, TBinary::Add, place, expr),
        AssignOp::Sub => update_sum(alloc, line, tags, TBinary::Sub, place, expr),
        AssignOp::Mul => update(alloc, line, TBinary::Mul, place, expr),
        AssignOp::Div => update(alloc, line, TBinary::Div, place, expr),
        AssignOp::Rem => update(alloc, line, TBinary::Rem, place, expr),
        AssignOp::And => update(alloc, line, TBinary::BitAnd, place, expr),
        AssignOp::Or => update(alloc, line, TBinary::BitOr, place, expr),
        AssignOp::Xor => update(alloc, line, TBinary::BitXor, place, expr),
        AssignOp::Shl => update_shift(alloc, line, TBinary::Shl, place, expr),
        AssignOp::Shr => update_shift(alloc, line, TBinary::Shr, place, expr),
    }
}
