// The rules on operators of one operand, which is not yet used as a value.
ghost use Rattle.std.specs.Prelude.{◌≡◌, ◌&&◌, ◌||◌};
ghost use Rattle.c_type.specs.Of.{type_of as type_lem, tags_of};
ghost use Rattle.c_tree.specs.TExpr as e;
ghost use Rattle.c_tree.specs.TypedOf.{expr_of, ref_of};
ghost use Rattle.c_rule.specs.RuleTypes as y;
ghost use Rattle.c_rule.specs.RuleValues as v;
ghost use Rattle.c_rule.specs.RuleExprs as r;
ghost use Rattle.c_scope.specs.Closed.{closed};
ghost use Rattle.c_scope.specs.Says.{Says};
ghost use Rattle.c_operator.specs.Boxed.{boxed};

use crate::typed::{
    is_function, is_number, is_object_pointer, is_open, is_sized, is_taken, target_is_sized,
    type_of,
};
use crate::values::{integer, node, pointer, scalar, used};
use c_scope::{TypeErr, is_void};
use c_tree::{Ref, TExpr, TStep, TUnary};
use c_type::{CType, Kind, Tags};
use std::alloc::Global;

fn is_variable(name: &Ref) -> bool
    ensures { result ≡ v.is_variable (ref_of name.now) }
{
    matches!(
        name,
        Ref::Local(_) | Ref::Param(_) | Ref::Static(_) | Ref::Ext(_)
    )
}

/// Whether an expression names an object.
pub fn is_place(expr: &TExpr) -> bool
    ensures { result ≡ v.is_place (expr_of expr.now) }
{
    match expr {
        TExpr::Name(_, name) => is_variable(name),
        TExpr::Deref(ty, _) => !c_scope::is_function(ty),
        TExpr::Text(..) | TExpr::Index(..) | TExpr::Member(..) | TExpr::Arrow(..) => true,
        _ => false,
    }
}

/// `*` takes a pointer to an object or a function.
pub fn star(alloc: Global, line: u32, expr: Box<TExpr>) -> Result<Box<TExpr>, TypeErr>
    ensures { Says boxed (r.star (boxed expr)) result }
{
    let value = used(alloc, line, expr)?;
    match type_of(alloc, &value)? {
        CType::Ptr(to) => Ok(node(alloc, TExpr::Deref(Box::into_inner(to), value))?),
        _ => Err(TypeErr::Rule(17, line)),
    }
}

/// Whether an expression has an address: a place or a function.
fn has_address(expr: &TExpr) -> bool
    ensures { result ≡ (v.is_place (expr_of expr.now) || y.is_function (e.type_of (expr_of expr.now))) }
{
    is_place(expr) || is_function(expr)
}

/// `&` takes a place or a function, but no array whose dimension is missing.
pub fn address(alloc: Global, line: u32, expr: Box<TExpr>) -> Result<Box<TExpr>, TypeErr>
    ensures { Says boxed (r.address (boxed expr)) result }
{
    if !has_address(&expr) {
        return Err(TypeErr::Rule(17, line));
    }
    if is_open(&expr) {
        return Err(TypeErr::Rule(5, line));
    }
    let ty = type_of(alloc, &expr)?;
    let to = pointer(alloc, ty)?;
    Ok(node(alloc, TExpr::Address(to, expr))?)
}

/// `-` and `~` take an integer.
pub fn negation(
    alloc: Global,
    line: u32,
    op: TUnary,
    expr: Box<TExpr>,
) -> Result<Box<TExpr>, TypeErr>
    ensures { Says boxed (r.negation op (boxed expr)) result }
{
    let value = integer(alloc, 12, line, expr)?;
    let ty = type_of(alloc, &value)?;
    Ok(node(alloc, TExpr::Unary(ty, op, value))?)
}

/// `!` takes a scalar.
pub fn denial(alloc: Global, line: u32, expr: Box<TExpr>) -> Result<Box<TExpr>, TypeErr>
    ensures { Says boxed (r.denial (boxed expr)) result }
{
    let value = scalar(alloc, 15, line, expr)?;
    let int = CType::Num(Kind::Int);
    Ok(node(alloc, TExpr::Unary(int, TUnary::Not, value))?)
}

/// Whether `++` and `--` take it: a place of an integer type but no enumeration, or of a pointer to an object.
fn has_step(expr: &TExpr) -> bool
    ensures { result
        ≡ (v.is_place (expr_of expr.now) && (r.is_number (e.type_of (expr_of expr.now)) || v.is_object_pointer (e.type_of (expr_of expr.now)))) }
{
    is_place(expr) && (is_number(expr) || is_object_pointer(expr))
}

/// `++` and `--` take a place of an integer type but no enumeration, or of a pointer to an object.
pub fn step(
    alloc: Global,
    line: u32,
    tags: &Tags,
    op: TStep,
    expr: Box<TExpr>,
) -> Result<Box<TExpr>, TypeErr>
    ensures { Says boxed (r.step (closed (tags_of tags.now)) op (boxed expr)) result }
{
    if !has_step(&expr) {
        return Err(TypeErr::Rule(21, line));
    }
    if !target_is_sized(tags, &expr) {
        return Err(TypeErr::Rule(3, line));
    }
    let ty = type_of(alloc, &expr)?;
    Ok(node(alloc, TExpr::Step(ty, op, expr))?)
}

/// `sizeof` of an expression needs its size.
pub fn size_of(
    alloc: Global,
    line: u32,
    tags: &Tags,
    expr: Box<TExpr>,
) -> Result<Box<TExpr>, TypeErr>
    ensures { Says boxed (r.size_of (closed (tags_of tags.now)) (boxed expr)) result }
{
    if is_open(&expr) {
        return Err(TypeErr::Rule(5, line));
    }
    if !is_sized(tags, &expr) {
        return Err(TypeErr::Rule(3, line));
    }
    Ok(node(alloc, TExpr::SizeOf(expr))?)
}

/// Whether a value is cast to a type.
fn is_cast(tags: &Tags, to: &CType, value: &TExpr) -> bool
    ensures { result ≡ (y.is_void (type_lem to.now) || v.is_taken (closed (tags_of tags.now)) (type_lem to.now) (expr_of value.now)) }
{
    is_void(to) || is_taken(tags, to, value)
}

/// A cast goes from an integer to an integer type, from the constant 0 to a pointer type, from a pointer to its own type,
/// or from anything to void.
pub fn cast(
    alloc: Global,
    line: u32,
    tags: &Tags,
    to: CType,
    expr: Box<TExpr>,
) -> Result<Box<TExpr>, TypeErr>
    ensures { Says boxed (r.cast (closed (tags_of tags.now)) (type_lem to) (boxed expr)) result }
{
    let value = used(alloc, line, expr)?;
    if !is_cast(tags, &to, &value) {
        return Err(TypeErr::Rule(22, line));
    }
    Ok(node(alloc, TExpr::Cast(to, value))?)
}
