// Expressions as parts of declarations and statements, each by the rule of what takes it.
ghost use Rattle.std.specs.Prelude.{◌≡◌, OnOk};
ghost use Rattle.c_type.specs.Of.{type_of};
ghost use Rattle.c_tree.specs.TreeOf as u;
ghost use Rattle.c_rule.specs.RuleDecls as d;
ghost use Rattle.c_rule.specs.RuleScope.{past, past_option};
ghost use Rattle.c_rule.specs.RuleValues as v;
ghost use Rattle.c_scope.specs.EnvOf.{env_of};
ghost use Rattle.c_rule.specs.Judging.{judged_by, judged_option};
ghost use Rattle.c_operator.specs.Boxed.{boxed, boxed_option};
ghost use Rattle.c_value.specs.Numbers.{number_of};
ghost use Rattle.c_scope.specs.Says.{Says};

use crate::constants::{Number, constant_of, dimension_of, first_value};
use crate::expressions::expr;
use c_operator::values::{integer, scalar, used, value_for};
use c_scope::{Scopes, TypeErr};
use c_tree::{Expr, TExpr};
use c_type::CType;

/// An expression used as a value.
pub fn used_expr(c: &mut Scopes, e: &Expr) -> Result<Box<TExpr>, TypeErr>
    ensures judged { Says boxed (judged_by v.used (env_of c.old) (u.expr_of e.now)) result }
    ensures past { OnOk result (env_of c.new ≡ past (u.expr_of e.now) (env_of c.old)) }
{
    let value = expr(c, e)?;
    used(c.alloc, e.line(), value)
}

/// A scalar, by the rule of what takes it.
pub fn scalar_expr(c: &mut Scopes, rule: u8, e: &Expr) -> Result<Box<TExpr>, TypeErr>
    ensures judged { Says boxed (judged_by (v.scalar rule) (env_of c.old) (u.expr_of e.now)) result }
    ensures past { OnOk result (env_of c.new ≡ past (u.expr_of e.now) (env_of c.old)) }
{
    let value = expr(c, e)?;
    scalar(c.alloc, rule, e.line(), value)
}

/// A widened integer, by the rule of what takes it.
pub fn integer_expr(c: &mut Scopes, rule: u8, e: &Expr) -> Result<Box<TExpr>, TypeErr>
    ensures judged { Says boxed (judged_by (v.integer rule) (env_of c.old) (u.expr_of e.now)) result }
    ensures past { OnOk result (env_of c.new ≡ past (u.expr_of e.now) (env_of c.old)) }
{
    let value = expr(c, e)?;
    integer(c.alloc, rule, e.line(), value)
}

/// A constant.
pub fn constant_expr(c: &mut Scopes, e: &Expr) -> Result<Number, TypeErr>
    ensures judged { Says number_of (judged_by (d.constant_of (env_of c.old)) (env_of c.old) (u.expr_of e.now)) result }
    ensures past { OnOk result (env_of c.new ≡ past (u.expr_of e.now) (env_of c.old)) }
{
    let value = expr(c, e)?;
    constant_of(c.alloc, e.line(), c.tags(), value)
}

/// A dimension.
pub fn dimension_expr(c: &mut Scopes, e: &Expr) -> Result<Number, TypeErr>
    ensures judged { Says number_of (judged_by (d.dimension_of (env_of c.old)) (env_of c.old) (u.expr_of e.now)) result }
    ensures past { OnOk result (env_of c.new ≡ past (u.expr_of e.now) (env_of c.old)) }
{
    let value = expr(c, e)?;
    dimension_of(c.alloc, e.line(), c.tags(), value)
}

/// The value of a place of that type, by the rule of what takes it.
pub fn value_expr(c: &mut Scopes, rule: u8, place: &CType, e: &Expr) -> Result<Box<TExpr>, TypeErr>
    ensures judged { Says boxed (judged_by (v.value_for rule (env_of c.old) (type_of place.now)) (env_of c.old) (u.expr_of e.now)) result }
    ensures past { OnOk result (env_of c.new ≡ past (u.expr_of e.now) (env_of c.old)) }
{
    let value = expr(c, e)?;
    value_for(c.alloc, rule, e.line(), c.tags(), place, value)
}

/// The value with which a scalar of static life begins.
pub fn first_expr(c: &mut Scopes, ty: &CType, e: &Expr) -> Result<Box<TExpr>, TypeErr>
    ensures judged { Says boxed (judged_by (d.first_value (env_of c.old) (type_of ty.now)) (env_of c.old) (u.expr_of e.now)) result }
    ensures past { OnOk result (env_of c.new ≡ past (u.expr_of e.now) (env_of c.old)) }
{
    let value = expr(c, e)?;
    first_value(c.alloc, e.line(), c.tags(), ty, value)
}

/// An expression that may be left out, used as a value.
pub fn used_option(c: &mut Scopes, e: &Option<Expr>) -> Result<Option<Box<TExpr>>, TypeErr>
    ensures judged { Says boxed_option (judged_option v.used (env_of c.old) (u.part_of u.expr_of e.now)) result }
    ensures past { OnOk result (env_of c.new ≡ past_option (u.part_of u.expr_of e.now) (env_of c.old)) }
{
    match e {
        Some(e) => Ok(Some(used_expr(c, e)?)),
        None => Ok(None),
    }
}

/// A scalar that may be left out, by the rule of what takes it.
pub fn scalar_option(
    c: &mut Scopes,
    rule: u8,
    e: &Option<Expr>,
) -> Result<Option<Box<TExpr>>, TypeErr>
    ensures judged { Says boxed_option (judged_option (v.scalar rule) (env_of c.old) (u.part_of u.expr_of e.now)) result }
    ensures past { OnOk result (env_of c.new ≡ past_option (u.part_of u.expr_of e.now) (env_of c.old)) }
{
    match e {
        Some(e) => Ok(Some(scalar_expr(c, rule, e)?)),
        None => Ok(None),
    }
}

/// The value of a place of that type, which may be left out, by the rule of what takes it.
pub fn value_option(
    c: &mut Scopes,
    rule: u8,
    place: &CType,
    e: &Option<Expr>,
) -> Result<Option<Box<TExpr>>, TypeErr>
    ensures judged { Says boxed_option (judged_option (v.value_for rule (env_of c.old) (type_of place.now)) (env_of c.old) (u.part_of u.expr_of e.now)) result }
    ensures past { OnOk result (env_of c.new ≡ past_option (u.part_of u.expr_of e.now) (env_of c.old)) }
{
    match e {
        Some(e) => Ok(Some(value_expr(c, rule, place, e)?)),
        None => Ok(None),
    }
}
