// The rules on values: use, widening, conversion.
ghost use Rattle.std.specs.Prelude.{◌≡◌, IfOk};
ghost use Rattle.c_type.specs.Of.{type_of as type_lem, tags_of};
ghost use Rattle.c_type.specs.Types as t;
ghost use Rattle.c_rule.specs.RuleValues as v;
ghost use Rattle.c_tree.specs.TExpr as e;
ghost use Rattle.c_tree.specs.TypedOf.{expr_of};
ghost use Rattle.c_scope.specs.Closed.{closed};
ghost use Rattle.c_scope.specs.Says.{Says};
ghost use Rattle.c_operator.specs.Boxed.{boxed};

use crate::typed::{has_type, is_integer, is_scalar, is_taken, type_of};
use c_scope::{TypeErr, copy, wide};
use c_tree::TExpr;
use c_type::{CType, Tags};
use std::alloc::{AllocError, Global};

/// A typed expression in a box of its own.
pub fn node(alloc: Global, expr: TExpr) -> Result<Box<TExpr>, AllocError>
    ensures { IfOk result (λ x. boxed x ≡ expr_of expr) }
{
    Ok(Box::new(alloc, expr)?)
}

/// A conversion to the type, which is a node where the type changes.
pub fn to_type(alloc: Global, ty: &CType, expr: Box<TExpr>) -> Result<Box<TExpr>, AllocError>
    ensures { IfOk result (λ x. boxed x ≡ v.to_type (type_lem ty.now) (boxed expr)) }
{
    if has_type(ty, &expr) {
        return Ok(expr);
    }
    let to = copy(alloc, ty)?;
    node(alloc, TExpr::Convert(to, expr))
}

/// The type to which an operand widens.
pub fn wide_type(alloc: Global, expr: &TExpr) -> Result<CType, AllocError>
    ensures { IfOk result (λ x. type_lem x ≡ v.wide (e.type_of (expr_of expr.now))) }
{
    let from = type_of(alloc, expr)?;
    wide(alloc, &from)
}

/// The conversion of an operand to the type to which it widens.
pub fn widen(alloc: Global, expr: Box<TExpr>) -> Result<Box<TExpr>, AllocError>
    ensures { IfOk result (λ x. boxed x ≡ v.widen (boxed expr)) }
{
    let to = wide_type(alloc, &expr)?;
    to_type(alloc, &to, expr)
}

/// A pointer to that type.
pub fn pointer(alloc: Global, to: CType) -> Result<CType, AllocError>
    ensures { IfOk result (λ x. type_lem x ≡ t.ptr (type_lem to)) }
{
    Ok(CType::Ptr(Box::new(alloc, to)?))
}

/// An expression used as a value: an array and a function become pointers, and a structure has none.
pub fn used(alloc: Global, line: u32, expr: Box<TExpr>) -> Result<Box<TExpr>, TypeErr>
    ensures { Says boxed (v.used (boxed expr)) result }
{
    match type_of(alloc, &expr)? {
        CType::Arr(_, of) => Ok(node(alloc, TExpr::Decay(CType::Ptr(of), expr))?),
        CType::Fun(to) => {
            let ty = pointer(alloc, CType::Fun(to))?;
            Ok(node(alloc, TExpr::Designate(ty, expr))?)
        }
        CType::Struct(_) | CType::Union(_) => Err(TypeErr::Rule(21, line)),
        _ => Ok(expr),
    }
}

/// A widened integer operand, by the rule of its operator.
pub fn integer(alloc: Global, rule: u8, line: u32, expr: Box<TExpr>) -> Result<Box<TExpr>, TypeErr>
    ensures { Says boxed (v.integer rule (boxed expr)) result }
{
    let value = used(alloc, line, expr)?;
    if !is_integer(&value) {
        return Err(TypeErr::Rule(rule, line));
    }
    Ok(widen(alloc, value)?)
}

/// A scalar, by the rule of what takes it.
pub fn scalar(alloc: Global, rule: u8, line: u32, expr: Box<TExpr>) -> Result<Box<TExpr>, TypeErr>
    ensures { Says boxed (v.scalar rule (boxed expr)) result }
{
    let value = used(alloc, line, expr)?;
    if !is_scalar(&value) {
        return Err(TypeErr::Rule(rule, line));
    }
    Ok(value)
}

/// A value as a place of that type takes it, by the rule of what takes it.
pub fn taken(
    alloc: Global,
    rule: u8,
    line: u32,
    tags: &Tags,
    place: &CType,
    value: Box<TExpr>,
) -> Result<Box<TExpr>, TypeErr>
    ensures { Says boxed (v.taken rule (closed (tags_of tags.now)) (type_lem place.now) (boxed value)) result }
{
    if !is_taken(tags, place, &value) {
        return Err(TypeErr::Rule(rule, line));
    }
    Ok(to_type(alloc, place, value)?)
}

/// An expression as the value of a place of that type, by the rule of what takes it.
pub fn value_for(
    alloc: Global,
    rule: u8,
    line: u32,
    tags: &Tags,
    place: &CType,
    expr: Box<TExpr>,
) -> Result<Box<TExpr>, TypeErr>
    ensures { Says boxed (v.value_for rule (closed (tags_of tags.now)) (type_lem place.now) (boxed expr)) result }
{
    let value = used(alloc, line, expr)?;
    taken(alloc, rule, line, tags, place, value)
}
