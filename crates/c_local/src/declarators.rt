// Declarators: the name that is declared, with its type and its dimensions.
ghost use Rattle.std.specs.Prelude.{◌≡◌, [], IfOk, None, OnOk};
ghost use Rattle.c_type.specs.Of.{type_of};
ghost use Rattle.c_tree.specs.TreeOf as u;
ghost use Rattle.c_rule.specs.RuleScope.{Is};
ghost use Rattle.c_rule.specs.RuleDecls as r;
ghost use Rattle.c_rule.specs.RuleStmts.{declr_line};
ghost use Rattle.c_rule.specs.Judging.{judged_by, judged_derived, judged_declr, with_dimension};
ghost use Rattle.c_operator.specs.Boxed.{boxed};
ghost use Rattle.c_value.specs.Numbers.{number_of};
ghost use Rattle.c_local.specs.Boxed.{boxed_declr};
ghost use Rattle.c_scope.specs.EnvOf.{env_of};
ghost use Rattle.c_scope.specs.Says.{Says};

use crate::texts::{pass, pass_dimensions};
use c_scope::{Scopes, TypeErr, copy, copy_name, declared_type};
use c_tree::{Declr, Expr, TDeclr};
use c_type::CType;
use c_value::{Number, dimension_expr};
use num_le::Name;
use std::alloc::{AllocError, Global};

/// Whether nothing stands between an array's brackets and its name.
pub fn is_name(declr: &Declr) -> bool
    ensures { result ≡ r.is_name (u.declr_of declr.now) }
{
    matches!(declr, Declr::Name(..))
}

/// The dimension of a declarator's outermost array, where the texts of the dimensions before it count first.
/// It leaves the scopes as they were.
fn dimension_behind(c: &mut Scopes, inner: &Declr, e: &Expr) -> Result<Number, TypeErr>
    ensures judged { Says number_of (judged_by (r.dimension_of (r.past_declr (u.declr_of inner.now) (env_of c.old))) (r.past_declr (u.declr_of inner.now) (env_of c.old)) (u.expr_of e.now)) result }
    ensures same { OnOk result (env_of c.new ≡ env_of c.old) }
{
    let count = c.count_texts();
    pass_dimensions(c, inner)?;
    let number = dimension_expr(c, e)?;
    c.forget_texts(count);
    Ok(number)
}

/// A declarator with one more dimension, behind those of its inner arrays.
fn add_dimension(mut typed: Box<TDeclr>, number: Number) -> Result<Box<TDeclr>, AllocError>
    ensures { IfOk result (λ x. with_dimension (boxed number.expr) (boxed_declr typed) ≡ Is (boxed_declr x)) }
{
    typed.dims.push(Box::into_inner(number.expr))?;
    Ok(typed)
}

/// A declarator without dimensions.
fn plain(alloc: Global, name: &Name, base: Box<CType>) -> Result<Box<TDeclr>, AllocError>
    ensures { IfOk result (λ x. boxed_declr x ≡ record { name = name.now; ty = type_of base.value; dims = [] }) }
{
    let name = copy_name(alloc, name)?;
    let typed = TDeclr {
        name,
        ty: Box::into_inner(base),
        dims: Vec::new(alloc),
    };
    Ok(Box::new(alloc, typed)?)
}

/// A declarator by the type that its words give. `missing` is the number that a missing dimension has, where it may be
/// missing.
fn derived(
    c: &mut Scopes,
    missing: Option<u32>,
    declr: &Declr,
    base: Box<CType>,
) -> Result<Box<TDeclr>, TypeErr>
    ensures judged { Says boxed_declr (judged_derived (env_of c.old) missing (type_of base.value) (u.declr_of declr.now)) result }
    ensures past { OnOk result (env_of c.new ≡ r.past_declr (u.declr_of declr.now) (env_of c.old)) }
{
    let alloc = c.alloc;
    match declr {
        Declr::Pointer(_, inner) => {
            derived(c, missing, inner, Box::new(alloc, CType::Ptr(base))?)
        }
        Declr::Function(_, inner, _) => {
            derived(c, missing, inner, Box::new(alloc, CType::Fun(base))?)
        }
        Declr::Name(_, name) => Ok(plain(alloc, name, base)?),
        Declr::Array(line, inner, None) => {
            if !is_name(inner) {
                return Err(TypeErr::Rule(5, *line));
            }
            let Some(count) = missing else {
                return Err(TypeErr::Rule(5, *line));
            };
            derived(c, missing, inner, Box::new(alloc, CType::Arr(count, base))?)
        }
        Declr::Array(_, inner, Some(e)) => {
            let number = dimension_behind(c, inner, e)?;
            let array = Box::new(alloc, CType::Arr(number.bits, base))?;
            let typed = derived(c, missing, inner, array)?;
            pass(c, e)?;
            Ok(add_dimension(typed, number)?)
        }
    }
}

/// The line of a declarator's first token.
pub fn line_of(declr: &Declr) -> u32
    ensures { result ≡ declr_line (u.declr_of declr.now) }
{
    match declr {
        Declr::Pointer(line, _)
        | Declr::Name(line, _)
        | Declr::Array(line, ..)
        | Declr::Function(line, ..) => *line,
    }
}

/// A declarator that meets the rules on types.
#[tactic(auto, using(crate::proofs::TextsMet::declared_behind))]
pub fn declarator(
    c: &mut Scopes,
    missing: Option<u32>,
    base: &CType,
    declr: &Declr,
) -> Result<Box<TDeclr>, TypeErr>
    ensures judged { Says boxed_declr (judged_declr (env_of c.old) missing (type_of base.now) (u.declr_of declr.now)) result }
    ensures past { OnOk result (env_of c.new ≡ r.past_declr (u.declr_of declr.now) (env_of c.old)) }
{
    let base = Box::new(c.alloc, copy(c.alloc, base)?)?;
    let typed = derived(c, missing, declr, base)?;
    declared_type(c, line_of(declr), &typed.ty)?;
    Ok(typed)
}

/// A declarator of a function's head. Its texts are not met: the scopes are left as they were.
pub fn head_declarator(c: &mut Scopes, base: &CType, declr: &Declr) -> Result<Box<TDeclr>, TypeErr>
    ensures judged { Says boxed_declr (judged_declr (env_of c.old) None (type_of base.now) (u.declr_of declr.now)) result }
    ensures same { OnOk result (env_of c.new ≡ env_of c.old) }
{
    let count = c.count_texts();
    let typed = declarator(c, None, base, declr)?;
    c.forget_texts(count);
    Ok(typed)
}
