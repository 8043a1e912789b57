// The texts of parts that are passed before they are judged.
//
// The dimensions of a declarator are judged from the outermost to the innermost, but their texts
// are counted in the order in which they stand.
#![tactic(auto, using(crate::proofs::TextsMet::met_met, crate::proofs::TextsMet::met_none))]

ghost use Rattle.std.specs.Prelude.{◌≡◌, ◌++◌, ◌∷◌, [], IfOk, OnOk};
ghost use Rattle.c_tree.specs.TreeOf as u;
ghost use Rattle.c_rule.specs.RuleDecls.{past_declr};
ghost use Rattle.c_rule.specs.RuleScope.{met};
ghost use Rattle.c_rule.specs.RuleTexts.{texts_in, texts_in_all};
ghost use Rattle.c_scope.specs.EnvOf.{env_of};

use c_scope::Scopes;
use c_tree::{Declr, Expr};
use num_le::Name;
use std::alloc::{AllocError, Global};

/// The bytes of a text with its zero byte.
pub fn with_zero(alloc: Global, bytes: &Name) -> Result<Name, AllocError>
    ensures value { IfOk result (λ x. x ≡ bytes.now ++ 0 ∷ []) }
{
    let mut all = bytes.as_slice().to_vec(alloc)?;
    all.push(0)?;
    Name::of(alloc, &all)
}

/// Passes a text.
fn pass_text(c: &mut Scopes, bytes: &Name) -> Result<(), AllocError>
    ensures past { OnOk result (env_of c.new ≡ met ((bytes.now ++ 0 ∷ []) ∷ []) (env_of c.old)) }
{
    let all = with_zero(c.alloc, bytes)?;
    c.text(all)?;
    Ok(())
}

/// Passes the texts of an expression.
#[cycle(texts)]
pub fn pass(c: &mut Scopes, expr: &Expr) -> Result<(), AllocError>
    ensures past { OnOk result (env_of c.new ≡ met (texts_in (u.expr_of expr.now)) (env_of c.old)) }
{
    match expr {
        Expr::Comma(_, a, b)
        | Expr::Assign(_, _, a, b)
        | Expr::Binary(_, _, a, b)
        | Expr::Index(_, a, b) => {
            pass(c, a)?;
            pass(c, b)?;
            Ok(())
        }
        Expr::Choice(_, test, a, b) => {
            pass(c, test)?;
            pass(c, a)?;
            pass(c, b)?;
            Ok(())
        }
        Expr::Unary(_, _, a)
        | Expr::SizeOf(_, a)
        | Expr::Cast(_, _, a)
        | Expr::Member(_, a, _)
        | Expr::Arrow(_, a, _)
        | Expr::Post(_, _, a) => pass(c, a),
        Expr::Call(_, called, args) => {
            pass(c, called)?;
            pass_all(c, args)?;
            Ok(())
        }
        Expr::Text(_, bytes) => pass_text(c, bytes),
        Expr::SizeOfType(..) | Expr::Name(..) | Expr::Int(..) | Expr::Chr(..) => Ok(()),
    }
}

/// Passes the texts of expressions in order.
#[cycle(texts)]
fn pass_all(c: &mut Scopes, exprs: &[Expr]) -> Result<(), AllocError>
    ensures past { OnOk result (env_of c.new ≡ met (texts_in_all (u.exprs_from exprs.now)) (env_of c.old)) }
{
    for expr in exprs {
        pass(c, expr)?;
    }
    Ok(())
}

/// Passes the texts of a declarator's dimensions.
pub fn pass_dimensions(c: &mut Scopes, declr: &Declr) -> Result<(), AllocError>
    ensures past { OnOk result (env_of c.new ≡ past_declr (u.declr_of declr.now) (env_of c.old)) }
{
    match declr {
        Declr::Pointer(_, inner) | Declr::Function(_, inner, _) => pass_dimensions(c, inner),
        Declr::Array(_, inner, None) => pass_dimensions(c, inner),
        Declr::Array(_, inner, Some(expr)) => {
            pass_dimensions(c, inner)?;
            pass(c, expr)?;
            Ok(())
        }
        Declr::Name(..) => Ok(()),
    }
}
