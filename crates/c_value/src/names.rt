// The rules on names and numbers in expressions.
ghost use Rattle.std.specs.Prelude.{◌≡◌, Some, None};
ghost use Rattle.c_type.specs.Kinds.{extend};
ghost use Rattle.c_type.specs.Types.{num};
ghost use Rattle.c_tree.specs.TExpr as e;
ghost use Rattle.c_rule.specs.RuleExprs as r;
ghost use Rattle.c_rule.specs.RuleScope.{Is, meaning_of as meaning_rule};
ghost use Rattle.c_scope.specs.Entries.{meaning_of};
ghost use Rattle.c_scope.specs.EnvOf.{env_of};
ghost use Rattle.c_scope.specs.Says.{Says};
ghost use Rattle.c_operator.specs.Boxed.{boxed};

use c_constant::convert;
use c_operator::values::node;
use c_scope::{Meaning, Scopes, TypeErr, copy, copy_ref};
use c_tree::{Ref, TExpr};
use c_type::{CType, Kind};
use std::alloc::Global;

/// What a declared name is in an expression. A typedef name is none.
#[tactic(auto, using(crate::proofs::Bits::bits_of_signed))]
fn meant(alloc: Global, line: u32, meaning: &Meaning) -> Result<Box<TExpr>, TypeErr>
    ensures { Says boxed (r.as_expr (Some (meaning_of meaning.now))) result }
{
    match meaning {
        Meaning::Alias(_) => Err(TypeErr::Rule(2, line)),
        Meaning::Constant(bits) => {
            let number = Ref::Const(bits.cast_signed());
            Ok(node(alloc, TExpr::Name(CType::Num(Kind::Int), number))?)
        }
        Meaning::Thing(to, ty) | Meaning::Function(_, to, ty) => {
            let ty = copy(alloc, ty)?;
            let to = copy_ref(alloc, to)?;
            Ok(node(alloc, TExpr::Name(ty, to))?)
        }
    }
}

/// What a name is in an expression.
pub fn named(c: &Scopes, line: u32, name: &[u8]) -> Result<Box<TExpr>, TypeErr>
    ensures { Says boxed (r.as_expr (meaning_rule (env_of c.now) name.now)) result }
{
    match c.meaning(name) {
        Some(meaning) => meant(c.alloc, line, meaning),
        None => Err(TypeErr::Rule(2, line)),
    }
}

/// An external function that returns int.
fn outer(c: &Scopes, name: &[u8]) -> Result<Box<TExpr>, TypeErr>
    ensures { Says boxed (r.called_name (env_of c.now) name.now None) result }
{
    let to = c.function_ref(false, name)?;
    let ty = CType::Fun(Box::new(c.alloc, CType::Num(Kind::Int))?);
    Ok(node(c.alloc, TExpr::Name(ty, to))?)
}

/// The name of a called function. One that is not declared is an external function that returns int.
pub fn called_name(c: &Scopes, line: u32, name: &[u8]) -> Result<Box<TExpr>, TypeErr>
    ensures { Says boxed (r.called_name (env_of c.now) name.now (meaning_rule (env_of c.now) name.now)) result }
{
    match c.meaning(name) {
        Some(meaning) => meant(c.alloc, line, meaning),
        None => outer(c, name),
    }
}

/// The type of a number, by whether it has the suffix `l`.
fn kind_of_int(number: u32, long: bool) -> Kind
    ensures { result ≡ r.kind_of_int number long }
{
    match (long, number <= 0x7FFF_FFFF) {
        (true, true) => Kind::Long,
        (true, false) => Kind::ULong,
        (false, true) => Kind::Int,
        (false, false) => Kind::UInt,
    }
}

/// A number in an expression.
pub fn number(alloc: Global, number: u32, long: bool) -> Result<Box<TExpr>, TypeErr>
    ensures { Says boxed (Is (e.int (num (r.kind_of_int number long)) number)) result }
{
    let ty = CType::Num(kind_of_int(number, long));
    Ok(node(alloc, TExpr::Int(ty, number))?)
}

/// A character in an expression, which is int.
pub fn character(alloc: Global, byte: u8) -> Result<Box<TExpr>, TypeErr>
    ensures { Says boxed (Is (e.int (num Kind.Int) (extend 128 byte))) result }
{
    let value = convert(Kind::Char, u32::from(byte));
    Ok(node(alloc, TExpr::Int(CType::Num(Kind::Int), value))?)
}
