// The values of constants that are numbers.
ghost use Rattle.std.specs.Prelude.{◌≡◌, map};
ghost use Rattle.c_type.specs.Of.{type_of as type_lem, tag_of};
ghost use Rattle.c_tree.specs.Constant as s;
ghost use Rattle.c_tree.specs.TypedOf.{expr_of, ref_of};

use crate::arith::{convert, may_trap, one_number, two_numbers};
use crate::typing::{size, type_of};
use c_tree::{Ref, TExpr};
use c_type::{CType, Tag};

fn named(to: &Ref) -> Option<u32>
    ensures { result ≡ s.named (ref_of to.now) }
{
    match to {
        Ref::Const(n) => Some(n.cast_unsigned()),
        _ => None,
    }
}

/// A number converted to an integer type.
fn as_integer(ty: &CType, n: u32) -> Option<u32>
    ensures { result ≡ s.as_integer (type_lem ty.now) n }
{
    match ty {
        CType::Num(kind) => Some(convert(*kind, n)),
        CType::Enum(_) => Some(n),
        _ => None,
    }
}

/// The 32 bits of a constant's value, if the expression is a constant.
pub fn constant(tags: &[Tag], expr: &TExpr) -> Option<u32>
    ensures { result ≡ s.constant (map tag_of tags.now) (expr_of expr.now) }
{
    match expr {
        TExpr::Name(_, to) => named(to),
        TExpr::Int(_, n) => Some(*n),
        TExpr::Unary(_, op, a) => Some(one_number(*op, constant(tags, a)?)),
        TExpr::SizeOf(a) => Some(type_of(a).size(tags)),
        TExpr::SizeOfType(ty) => Some(size(tags, ty)),
        TExpr::Cast(ty, a) | TExpr::Convert(ty, a) => as_integer(ty, constant(tags, a)?),
        TExpr::Binary(_, op, a, b) => {
            let (x, y) = (constant(tags, a)?, constant(tags, b)?);
            let signed = type_of(a).is_signed();
            if may_trap(*op, signed, x, y) {
                None
            } else {
                Some(two_numbers(*op, signed, x, y))
            }
        }
        TExpr::Both(a, b) => {
            let (x, y) = (constant(tags, a)?, constant(tags, b)?);
            Some(u32::from(x != 0 && y != 0))
        }
        TExpr::Either(a, b) => {
            let (x, y) = (constant(tags, a)?, constant(tags, b)?);
            Some(u32::from(x != 0 || y != 0))
        }
        TExpr::Choice(_, test, a, b) => {
            let test = constant(tags, test)?;
            let (x, y) = (constant(tags, a)?, constant(tags, b)?);
            Some(if test != 0 { x } else { y })
        }
        _ => None,
    }
}

/// Whether the expression is the constant 0.
pub fn is_zero(tags: &[Tag], expr: &TExpr) -> bool
    ensures { result ≡ s.is_zero (map tag_of tags.now) (expr_of expr.now) }
{
    match constant(tags, expr) {
        Some(n) => n == 0,
        None => false,
    }
}
