// Functions with their bodies.
ghost use Rattle.std.specs.Prelude.{◌≡◌, map, IfOk};
ghost use Rattle.c_type.specs.Of.{type_of};
ghost use Rattle.c_tree.specs.TreeOf as u;
ghost use Rattle.c_tree.specs.TypedOf.{declr_of, par_of, var_of};
ghost use Rattle.c_rule.specs.RuleTags as t;
ghost use Rattle.c_rule.specs.RuleUnit as r;
ghost use Rattle.c_scope.specs.EnvOf.{env_of};
ghost use Rattle.c_rule.specs.JudgingUnit as j;
ghost use Rattle.c_scope.specs.Says.{Says, SaysBehind};
ghost use Rattle.c_check.specs.Parameters.{boxed_func};

use crate::file_items::declare_function;
use crate::name_list::NameList;
use crate::parameters::{declared_in, declared_once, list_differs, list_of, par_decls, parameters};
use c_block::{Place, statements};
use c_local::declarations;
use c_scope::{Scopes, TypeErr, copy, copy_name};
use c_tree::{Block, Declr, ParDecl, TBlock, TDeclr, TFunc, TParDecl, TParam};
use c_type::CType;
use num_le::Name;
use std::alloc::{AllocError, Global};

/// What a function gives.
fn result_of(alloc: Global, line: u32, ty: &CType) -> Result<Box<CType>, TypeErr>
    ensures judged { Says (λ x. type_of x.value) (j.result (type_of ty.now)) result }
{
    match ty {
        CType::Fun(gives) => Ok(Box::new(alloc, copy(alloc, gives)?)?),
        _ => Err(TypeErr::Rule(6, line)),
    }
}

/// The declarations of the parameters that a list names.
fn declared_by(c: &mut Scopes, list: &[Name], params: &[ParDecl]) -> Result<Vec<TParDecl>, TypeErr>
    ensures judged { SaysBehind (λ x. map par_of x.items) (env_of c.new) (j.judged_par_decls (env_of c.old) list.now (map u.par_of params.now)) result }
{
    let names = NameList::of_names(c.alloc, list)?;
    par_decls(c, &names, params)
}

/// Whether the declarations declare each name once.
fn are_declared_once(alloc: Global, params: &[TParDecl]) -> Result<bool, AllocError>
    ensures { IfOk result (λ b. b ≡ t.names_differ (r.names_of (map par_of params.now))) }
{
    let declared = declared_in(alloc, params)?;
    declared_once(alloc, &declared)
}

/// The declarations of a function's parameters. Behind them its name is in scope.
fn head(
    c: &mut Scopes,
    line: u32,
    own: bool,
    h: &Declr,
    declr: &TDeclr,
    params: &[ParDecl],
) -> Result<Vec<TParDecl>, TypeErr>
    ensures judged { SaysBehind (λ x. map par_of x.items) (env_of c.new) (j.judged_head (env_of c.old) own (u.declr_of h.now) (declr_of declr.now) (map u.par_of params.now)) result }
{
    let alloc = c.alloc;
    let list = list_of(h);
    let typed = declared_by(c, list, params)?;
    if !list_differs(alloc, list)? {
        return Err(TypeErr::Rule(1, line));
    }
    if !are_declared_once(alloc, &typed)? {
        return Err(TypeErr::Rule(1, line));
    }
    declare_function(c, line, own, declr)?;
    Ok(typed)
}

/// The parameters that a function's list and their declarations give.
fn parameters_of(alloc: Global, h: &Declr, declared: &[TParDecl]) -> Result<Vec<TParam>, AllocError>
    ensures { IfOk result (λ x. map var_of x.items ≡ r.parameters (u.declr_of h.now) (map par_of declared.now)) }
{
    let declrs = declared_in(alloc, declared)?;
    parameters(alloc, &declrs, list_of(h))
}

/// A function with its body. The parameters and the outermost block are one scope.
pub fn function(
    c: &mut Scopes,
    line: u32,
    own: bool,
    h: &Declr,
    declr: &TDeclr,
    params: &[ParDecl],
    body: &Block,
) -> Result<Box<TFunc>, TypeErr>
    ensures judged { SaysBehind boxed_func (env_of c.new) (j.judged_body (env_of c.old) own (u.declr_of h.now) (declr_of declr.now) (map u.par_of params.now) (u.block_of body.now)) result }
{
    let alloc = c.alloc;
    let result = result_of(alloc, line, &declr.ty)?;
    let declared = head(c, line, own, h, declr, params)?;
    let params = parameters_of(alloc, h, &declared)?;
    let open = c.starts();
    c.enter_body(&params)?;
    let locals = declarations(c, &body.decls)?;
    let outermost = Place {
        in_loop: false,
        breaks: false,
        returns: &result,
    };
    let stmts = statements(c, &outermost, &body.stmts)?;
    let close = c.starts();
    c.leave_body()?;
    let name = copy_name(alloc, &declr.name)?;
    let block = TBlock {
        line: body.line,
        locals,
        stmts,
        close_line: body.close_line,
    };
    let typed = TFunc {
        name,
        is_static: own,
        result: Box::into_inner(result),
        params,
        declared,
        open,
        body: block,
        close,
    };
    Ok(Box::new(alloc, typed)?)
}
