// What the type of an expression is.
ghost use Rattle.std.specs.Prelude.{◌≡◌, ◌&&◌, IfOk};
ghost use Rattle.c_type.specs.Of.{type_of as type_lem, tags_of};
ghost use Rattle.c_type.specs.Types as t;
ghost use Rattle.c_tree.specs.Constant.{is_zero as is_zero_rule};
ghost use Rattle.c_rule.specs.RuleScope.{known, is_sized as is_sized_rule};
ghost use Rattle.c_rule.specs.RuleTypes as y;
ghost use Rattle.c_rule.specs.RuleExprs as r;
ghost use Rattle.c_rule.specs.RuleValues as v;
ghost use Rattle.c_tree.specs.TExpr as e;
ghost use Rattle.c_tree.specs.TypedOf.{expr_of};
ghost use Rattle.c_scope.specs.Closed.{closed};
ghost use Rattle.c_operator.specs.Taken.{takes_pointer};

use c_constant::{ExprType, is_zero};
use c_scope::copy;
use c_tree::TExpr;
use c_type::{CType, Kind, Tags};
use std::alloc::{AllocError, Global};

/// The type of an expression.
pub fn type_of(alloc: Global, expr: &TExpr) -> Result<CType, AllocError>
    ensures { IfOk result (λ x. type_lem x ≡ e.type_of (expr_of expr.now)) }
{
    Ok(match c_constant::type_of(expr) {
        ExprType::Int => CType::Num(Kind::Int),
        ExprType::Unsigned => CType::Num(Kind::UInt),
        ExprType::Told(ty) => copy(alloc, ty)?,
    })
}

/// Whether an expression has that type.
pub fn has_type(ty: &CType, expr: &TExpr) -> bool
    ensures { result ≡ t.same_type (type_lem ty.now) (e.type_of (expr_of expr.now)) }
{
    match c_constant::type_of(expr) {
        ExprType::Int => c_scope::is_same(ty, &CType::Num(Kind::Int)),
        ExprType::Unsigned => c_scope::is_same(ty, &CType::Num(Kind::UInt)),
        ExprType::Told(other) => c_scope::is_same(ty, other),
    }
}

/// Whether the type is an integer type or an enumeration.
pub fn is_integer(expr: &TExpr) -> bool
    ensures { result ≡ t.is_integer (e.type_of (expr_of expr.now)) }
{
    match c_constant::type_of(expr) {
        ExprType::Int | ExprType::Unsigned => true,
        ExprType::Told(ty) => c_scope::is_integer(ty),
    }
}

/// Whether it is an integer or a pointer.
pub fn is_scalar(expr: &TExpr) -> bool
    ensures { result ≡ v.is_scalar (e.type_of (expr_of expr.now)) }
{
    match c_constant::type_of(expr) {
        ExprType::Int | ExprType::Unsigned => true,
        ExprType::Told(ty) => c_scope::is_scalar(ty),
    }
}

/// Whether it is a pointer.
pub fn is_pointer(expr: &TExpr) -> bool
    ensures { result ≡ t.is_pointer (e.type_of (expr_of expr.now)) }
{
    match c_constant::type_of(expr) {
        ExprType::Int | ExprType::Unsigned => false,
        ExprType::Told(ty) => c_scope::is_pointer(ty),
    }
}

/// Whether it is a pointer to an object.
pub fn is_object_pointer(expr: &TExpr) -> bool
    ensures { result ≡ v.is_object_pointer (e.type_of (expr_of expr.now)) }
{
    match c_constant::type_of(expr) {
        ExprType::Int | ExprType::Unsigned => false,
        ExprType::Told(ty) => c_scope::is_object_pointer(ty),
    }
}

/// Whether it is a function.
pub fn is_function(expr: &TExpr) -> bool
    ensures { result ≡ y.is_function (e.type_of (expr_of expr.now)) }
{
    match c_constant::type_of(expr) {
        ExprType::Int | ExprType::Unsigned => false,
        ExprType::Told(ty) => c_scope::is_function(ty),
    }
}

/// Whether it is a pointer to a function.
pub fn is_function_pointer(expr: &TExpr) -> bool
    ensures { result ≡ r.is_function_pointer (e.type_of (expr_of expr.now)) }
{
    match c_constant::type_of(expr) {
        ExprType::Told(CType::Ptr(to)) => c_scope::is_function(to),
        _ => false,
    }
}

/// Whether it is void.
pub fn is_void(expr: &TExpr) -> bool
    ensures { result ≡ y.is_void (e.type_of (expr_of expr.now)) }
{
    match c_constant::type_of(expr) {
        ExprType::Int | ExprType::Unsigned => false,
        ExprType::Told(ty) => c_scope::is_void(ty),
    }
}

/// Whether it is a number and no enumeration.
pub fn is_number(expr: &TExpr) -> bool
    ensures { result ≡ r.is_number (e.type_of (expr_of expr.now)) }
{
    match c_constant::type_of(expr) {
        ExprType::Int | ExprType::Unsigned => true,
        ExprType::Told(ty) => matches!(ty, CType::Num(_)),
    }
}

/// Whether it is a structure or a union.
pub fn is_structure(expr: &TExpr) -> bool
    ensures { result ≡ r.is_structure (e.type_of (expr_of expr.now)) }
{
    match c_constant::type_of(expr) {
        ExprType::Told(CType::Struct(_) | CType::Union(_)) => true,
        _ => false,
    }
}

/// Whether it is an array whose dimension is missing as yet.
pub fn is_open(expr: &TExpr) -> bool
    ensures { result ≡ v.is_open (e.type_of (expr_of expr.now)) }
{
    match c_constant::type_of(expr) {
        ExprType::Told(CType::Arr(n, _)) => *n == 0,
        _ => false,
    }
}

/// Whether the size is known.
pub fn is_sized(tags: &Tags, expr: &TExpr) -> bool
    ensures { result ≡ is_sized_rule (known (closed (tags_of tags.now))) (e.type_of (expr_of expr.now)) }
{
    match c_constant::type_of(expr) {
        ExprType::Int | ExprType::Unsigned => true,
        ExprType::Told(ty) => c_scope::is_sized(tags, ty),
    }
}

/// Whether the size of what a pointer points to is known.
pub fn target_is_sized(tags: &Tags, expr: &TExpr) -> bool
    ensures { result ≡ v.target_is_sized (closed (tags_of tags.now)) (e.type_of (expr_of expr.now)) }
{
    match c_constant::type_of(expr) {
        ExprType::Int | ExprType::Unsigned => true,
        ExprType::Told(ty) => c_scope::target_is_sized(tags, ty),
    }
}

/// Two integers.
pub fn are_integers(a: &TExpr, b: &TExpr) -> bool
    ensures { result ≡ v.are_integers (expr_of a.now) (expr_of b.now) }
{
    is_integer(a) && is_integer(b)
}

/// A pointer to an object, and an integer.
pub fn are_pointer_and_integer(pointer: &TExpr, by: &TExpr) -> bool
    ensures { result ≡ (v.is_object_pointer (e.type_of (expr_of pointer.now)) && t.is_integer (e.type_of (expr_of by.now))) }
{
    is_object_pointer(pointer) && is_integer(by)
}

/// An integer, and a pointer to an object.
pub fn are_integer_and_pointer(by: &TExpr, pointer: &TExpr) -> bool
    ensures { result ≡ (t.is_integer (e.type_of (expr_of by.now)) && v.is_object_pointer (e.type_of (expr_of pointer.now))) }
{
    is_integer(by) && is_object_pointer(pointer)
}

/// Two pointers of one type.
pub fn are_alike(a: &TExpr, b: &TExpr) -> bool
    ensures { result ≡ v.are_alike (expr_of a.now) (expr_of b.now) }
{
    match c_constant::type_of(a) {
        ExprType::Int | ExprType::Unsigned => false,
        ExprType::Told(ty) => c_scope::is_pointer(ty) && has_type(ty, b),
    }
}

/// Two pointers to objects of one type.
pub fn are_alike_objects(a: &TExpr, b: &TExpr) -> bool
    ensures { result ≡ (v.is_object_pointer (e.type_of (expr_of a.now)) && v.are_alike (expr_of a.now) (expr_of b.now)) }
{
    is_object_pointer(a) && are_alike(a, b)
}

/// Two void expressions.
pub fn are_void(a: &TExpr, b: &TExpr) -> bool
    ensures { result ≡ (y.is_void (e.type_of (expr_of a.now)) && y.is_void (e.type_of (expr_of b.now))) }
{
    is_void(a) && is_void(b)
}

/// A pointer, and the constant 0.
pub fn is_with_zero(tags: &Tags, pointer: &TExpr, value: &TExpr) -> bool
    ensures { result ≡ v.is_with_zero (tags_of tags.now) (expr_of pointer.now) (expr_of value.now) }
{
    is_pointer(pointer) && is_integer(value) && is_zero(&tags.list, value)
}

/// What a pointer takes: its own type, or the constant 0.
fn pointer_takes(tags: &Tags, place: &CType, value: &TExpr) -> bool
    ensures { result ≡ takes_pointer (tags_of tags.now) (type_lem place.now) (expr_of value.now) }
{
    has_type(place, value) || (is_integer(value) && is_zero(&tags.list, value))
}

/// Whether a place takes a value: an integer an integer, a pointer its own type or the constant 0.
pub fn is_taken(tags: &Tags, place: &CType, value: &TExpr) -> bool
    ensures { result ≡ v.is_taken (closed (tags_of tags.now)) (type_lem place.now) (expr_of value.now) }
{
    (c_scope::is_integer(place) && is_integer(value))
        || (c_scope::is_pointer(place) && pointer_takes(tags, place, value))
}
