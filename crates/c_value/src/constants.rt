// The rules on what is known before a run: constants, dimensions, first values.
ghost use Rattle.std.specs.Prelude.{◌≡◌};
ghost use Rattle.c_type.specs.Of.{type_of as type_lem, tags_of};
ghost use Rattle.c_rule.specs.RuleDecls as r;
ghost use Rattle.c_constant.specs.Views.{told};
ghost use Rattle.c_scope.specs.Closed.{closed};
ghost use Rattle.c_scope.specs.Says.{Says};
ghost use Rattle.c_operator.specs.Boxed.{boxed};
ghost use Rattle.c_value.specs.Numbers.{number_of};

use c_constant::{ExprType, constant, is_known, type_of};
use c_operator::values::{taken, used};
use c_scope::TypeErr;
use c_tree::TExpr;
use c_type::{CType, Tags};
use std::alloc::Global;

/// A constant with its 32 bits.
#[derive(Drop)]
pub struct Number {
    pub expr: Box<TExpr>,
    pub bits: u32,
}

/// An expression as a constant.
pub fn constant_of(
    alloc: Global,
    line: u32,
    tags: &Tags,
    expr: Box<TExpr>,
) -> Result<Number, TypeErr>
    ensures { Says number_of (r.constant_of (closed (tags_of tags.now)) (boxed expr)) result }
{
    let value = used(alloc, line, expr)?;
    match constant(&tags.list, &value) {
        Some(bits) => Ok(Number { expr: value, bits }),
        None => Err(TypeErr::Rule(9, line)),
    }
}

fn is_positive(ty: &ExprType<'_>, bits: u32) -> bool
    ensures { result ≡ r.is_positive (told ty.now) bits }
{
    bits != 0 && !(ty.is_signed() && bits >= 0x8000_0000)
}

/// An expression as a dimension, which is a constant of at least 1.
pub fn dimension_of(
    alloc: Global,
    line: u32,
    tags: &Tags,
    expr: Box<TExpr>,
) -> Result<Number, TypeErr>
    ensures { Says number_of (r.dimension_of (closed (tags_of tags.now)) (boxed expr)) result }
{
    let value = used(alloc, line, expr)?;
    let Some(bits) = constant(&tags.list, &value) else {
        return Err(TypeErr::Rule(9, line));
    };
    if !is_positive(&type_of(&value), bits) {
        return Err(TypeErr::Rule(5, line));
    }
    Ok(Number { expr: value, bits })
}

/// The value with which a scalar of static life begins.
pub fn first_value(
    alloc: Global,
    line: u32,
    tags: &Tags,
    ty: &CType,
    expr: Box<TExpr>,
) -> Result<Box<TExpr>, TypeErr>
    ensures { Says boxed (r.first_value (closed (tags_of tags.now)) (type_lem ty.now) (boxed expr)) result }
{
    let value = used(alloc, line, expr)?;
    if !is_known(&tags.list, ty, &value) {
        return Err(TypeErr::Rule(10, line));
    }
    taken(alloc, 10, line, tags, ty, value)
}
