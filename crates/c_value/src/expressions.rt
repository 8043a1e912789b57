// Expressions, each by the rule of its production.
ghost use Rattle.std.specs.Prelude.{◌≡◌, ◌∷◌, ◌++◌, [], suc, length, OnOk, IfOk};
ghost use Rattle.std.specs.Option.{option_map};
ghost use Rattle.c_type.specs.Types.{arr, num};
ghost use Rattle.c_tree.specs.TExpr as e;
ghost use Rattle.c_tree.specs.TypedOf.{expr_of};
ghost use Rattle.c_tree.specs.TreeOf as u;
ghost use Rattle.c_rule.specs.RuleExprs as r;
ghost use Rattle.c_rule.specs.RuleScope.{Is, met, past};
ghost use Rattle.c_rule.specs.RuleTexts.{texts_in_all};
ghost use Rattle.c_value.specs.Arguments.{args_from, judged_call, name_in};
ghost use Rattle.c_scope.specs.EnvOf.{env_of};
ghost use Rattle.c_rule.specs.Judging.{judged_expr};
ghost use Rattle.c_scope.specs.Says.{Says};
ghost use Rattle.c_operator.specs.Boxed.{boxed};

use crate::here::{
    assigned, cast_to, chosen, indexed, member, member_behind, of_one, of_two, sized, sized_by,
    stepped,
};
use crate::names::{called_name, character, named, number};
use c_operator::operators::comma;
use c_operator::postfix::{called, result_of};
use c_operator::typed::type_of;
use c_operator::values::{node, scalar};
use c_scope::{Scopes, TypeErr, cast_type};
use c_tree::{Expr, TExpr};
use c_type::{CType, Kind};
use num_le::Name;
use std::alloc::{AllocError, Global};

/// A text, which is an object of its own.
fn text(c: &mut Scopes, bytes: &Name) -> Result<Box<TExpr>, TypeErr>
    ensures judged { Says boxed (Is (e.text (arr (suc (length bytes.now)) (num Kind.Char)) (length (env_of c.old).texts))) result }
    ensures past { OnOk result (env_of c.new ≡ met ((bytes.now ++ 0 ∷ []) ∷ []) (env_of c.old)) }
{
    let alloc = c.alloc;
    let mut whole = bytes.as_slice().to_vec(alloc)?;
    whole.push(0)?;
    let Ok(size) = u32::try_from(whole.len()) else {
        return Err(TypeErr::Memory);
    };
    let number = c.text(Name::of(alloc, &whole)?)?;
    let of = Box::new(alloc, CType::Num(Kind::Char))?;
    Ok(node(alloc, TExpr::Text(CType::Arr(size, of), number))?)
}

/// A name with its line.
fn as_name(e: &Expr) -> Option<(u32, &Name)>
    ensures { option_map (λ p. (p.0, p.1.now)) result ≡ name_in (u.expr_of e.now) }
{
    match e {
        Expr::Name(line, name) => Some((*line, name)),
        _ => None,
    }
}

/// The node of a call of a typed expression.
fn called_with(alloc: Global, to: Box<TExpr>, values: Vec<TExpr>) -> Result<Box<TExpr>, AllocError>
    ensures { IfOk result (λ x. boxed x ≡ e.call (r.result_of (e.type_of (boxed to))) (boxed to) (args_from values.items)) }
{
    let ty = result_of(type_of(alloc, &to)?);
    node(alloc, TExpr::Call(ty, to, values))
}

/// A call of a typed expression, by its arguments, which are scalars.
#[cycle(expressions)]
fn call(c: &mut Scopes, line: u32, args: &[Expr], to: Box<TExpr>) -> Result<Box<TExpr>, TypeErr>
    ensures judged { Says boxed (judged_call (env_of c.old) (boxed to) (u.exprs_from args.now)) result }
    ensures past { OnOk result (env_of c.new ≡ met (texts_in_all (u.exprs_from args.now)) (env_of c.old)) }
{
    let alloc = c.alloc;
    let to = called(alloc, line, to)?;
    let mut values = Vec::new(alloc);
    for arg in args {
        let arg = expr(c, arg)?;
        let value = scalar(alloc, 20, line, arg)?;
        values.push(Box::into_inner(value))?;
    }
    Ok(called_with(alloc, to, values)?)
}

/// The typed expression of an expression, which is not yet used as a value.
///
/// An error names the rule that fails first, and a line of which nothing is promised. Memory too is an error, after which
/// nothing is said of the scopes. The recursion is as deep as the tree.
#[cycle(expressions)]
pub fn expr(c: &mut Scopes, e: &Expr) -> Result<Box<TExpr>, TypeErr>
    ensures judged { Says boxed (judged_expr (env_of c.old) (u.expr_of e.now)) result }
    ensures past { OnOk result (env_of c.new ≡ past (u.expr_of e.now) (env_of c.old)) }
{
    match e {
        Expr::Comma(line, a, b) => comma(c.alloc, *line, expr(c, a)?, expr(c, b)?),
        Expr::Assign(line, op, a, b) => assigned(expr(c, a)?, expr(c, b)?, c, *line, *op),
        Expr::Choice(line, test, a, b) => {
            chosen(expr(c, test)?, expr(c, a)?, expr(c, b)?, c, *line)
        }
        Expr::Binary(line, op, a, b) => of_two(expr(c, a)?, expr(c, b)?, c, *line, *op),
        Expr::Unary(line, op, a) => of_one(expr(c, a)?, c, *line, *op),
        Expr::SizeOf(line, a) => sized(expr(c, a)?, c, *line),
        Expr::SizeOfType(_, types) => sized_by(c, types),
        Expr::Cast(line, types, a) => {
            let ty = cast_type(c, types)?;
            cast_to(expr(c, a)?, c, *line, ty)
        }
        Expr::Index(line, a, i) => indexed(expr(c, a)?, expr(c, i)?, c, *line),
        Expr::Call(line, f, args) => match as_name(f) {
            Some((at, name)) => {
                let to = called_name(c, at, name.as_slice())?;
                call(c, *line, args, to)
            }
            None => {
                let to = expr(c, f)?;
                call(c, *line, args, to)
            }
        },
        Expr::Member(line, a, name) => member(expr(c, a)?, c, *line, name),
        Expr::Arrow(line, a, name) => member_behind(expr(c, a)?, c, *line, name),
        Expr::Post(line, op, a) => stepped(expr(c, a)?, c, *line, *op),
        Expr::Name(line, name) => named(c, *line, name.as_slice()),
        Expr::Int(_, value, long) => number(c.alloc, *value, *long),
        Expr::Chr(_, byte) => character(c.alloc, *byte),
        Expr::Text(_, bytes) => text(c, bytes),
    }
}
