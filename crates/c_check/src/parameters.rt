// The parameters of a function: the names of its list with the types that their declarations give.
ghost use Rattle.std.specs.Prelude.{◌≡◌, ◌++◌, map, IfOk, OnOk};
ghost use Rattle.std.specs.List.{flat_map};
ghost use Rattle.c_type.specs.Of.{type_of};
ghost use Rattle.c_tree.specs.TreeOf as u;
ghost use Rattle.c_tree.specs.TypedOf.{declr_of, par_of, var_of};
ghost use Rattle.c_rule.specs.RuleDecls as d;
ghost use Rattle.c_rule.specs.RuleTags as t;
ghost use Rattle.c_rule.specs.RuleUnit as r;
ghost use Rattle.c_local.specs.Boxed.{boxed_declr};
ghost use Rattle.c_scope.specs.EnvOf.{env_of};
ghost use Rattle.c_rule.specs.JudgingUnit as j;
ghost use Rattle.c_scope.specs.Says.{SaysBehind};
ghost use Rattle.c_check.specs.Parameters.{judged_par_decl_here, judged_parameter_here, type_at};
ghost use Rattle.c_check.specs.ListOf.{names_of};

use crate::name_list::NameList;
use c_local::{declarator, is_name, line_of};
use c_scope::{Scopes, TypeErr, copy, copy_name, names_differ};
use c_tag::types;
use c_tree::{Declr, ParDecl, TDeclr, TParDecl, TParam};
use c_type::{CType, Kind};
use num_le::Name;
use std::alloc::{AllocError, Global};

/// The names of a function's list, which is the innermost suffix of its name.
pub fn list_of(declr: &Declr) -> &[Name]
    ensures { result.now ≡ r.list_of (u.declr_of declr.now) }
{
    match declr {
        Declr::Pointer(_, inner) | Declr::Array(_, inner, _) => list_of(inner),
        Declr::Name(..) => &[],
        Declr::Function(_, inner, names) => {
            if is_name(inner) {
                names
            } else {
                list_of(inner)
            }
        }
    }
}

/// Whether a type is a structure or a union.
fn is_structure(ty: &CType) -> bool
    ensures { result ≡ r.is_structure (type_of ty.now) }
{
    matches!(ty, CType::Struct(_) | CType::Union(_))
}

/// A declared parameter, which is in the list and no structure. An outermost dimension may be missing.
fn parameter(
    c: &mut Scopes,
    list: &NameList,
    base: &CType,
    declr: &Declr,
) -> Result<Box<TDeclr>, TypeErr>
    ensures judged { SaysBehind boxed_declr (env_of c.new) (judged_parameter_here (env_of c.old) (names_of list.now) (type_of base.now) (u.declr_of declr.now)) result }
{
    let typed = declarator(c, Some(0), base, declr)?;
    if !list.has(typed.name.as_slice()) {
        return Err(TypeErr::Rule(8, line_of(declr)));
    }
    if is_structure(&typed.ty) {
        return Err(TypeErr::Rule(8, line_of(declr)));
    }
    Ok(typed)
}

/// The parameters of a declaration in order.
fn parameters_in(
    c: &mut Scopes,
    list: &NameList,
    base: &CType,
    declrs: &[Declr],
) -> Result<Vec<TDeclr>, TypeErr>
    ensures judged { SaysBehind (λ x. map declr_of x.items) (env_of c.new) (j.judged_parameters (env_of c.old) (names_of list.now) (type_of base.now) (map u.declr_of declrs.now)) result }
{
    let mut typed = Vec::new(c.alloc);
    for declr in declrs {
        let one = parameter(c, list, base, declr)?;
        typed.push(Box::into_inner(one))?;
    }
    Ok(typed)
}

/// A declaration of parameters.
fn par_decl(c: &mut Scopes, list: &NameList, part: &ParDecl) -> Result<TParDecl, TypeErr>
    ensures judged { SaysBehind par_of (env_of c.new) (judged_par_decl_here (env_of c.old) (names_of list.now) (u.par_of part.now)) result }
{
    let words = types(c, part.line, &part.types)?;
    let declrs = parameters_in(c, list, &words.base, &part.declrs)?;
    Ok(TParDecl {
        spec: Box::into_inner(words.spec),
        declrs,
    })
}

/// The declarations of parameters in order.
pub fn par_decls(
    c: &mut Scopes,
    list: &NameList,
    parts: &[ParDecl],
) -> Result<Vec<TParDecl>, TypeErr>
    ensures judged { SaysBehind (λ x. map par_of x.items) (env_of c.new) (j.judged_par_decls (env_of c.old) (names_of list.now) (map u.par_of parts.now)) result }
{
    let mut typed = Vec::new(c.alloc);
    for part in parts {
        let one = par_decl(c, list, part)?;
        typed.push(one)?;
    }
    Ok(typed)
}

/// Adds declarators behind others.
fn add_declared<'a>(declared: &mut Vec<&'a TDeclr>, declrs: &'a [TDeclr]) -> Result<(), AllocError>
    ensures added { OnOk result (map (λ d. declr_of d.now) declared.new.items ≡ map (λ d. declr_of d.now) declared.old.items ++ map declr_of declrs.now) }
{
    for declr in declrs {
        declared.push(declr)?;
    }
    Ok(())
}

/// The declarators of the declarations.
pub fn declared_in(alloc: Global, parts: &[TParDecl]) -> Result<Vec<&TDeclr>, AllocError>
    ensures { IfOk result (λ x. map (λ d. declr_of d.now) x.items ≡ r.declared_in (map par_of parts.now)) }
{
    let mut declared = Vec::new(alloc);
    for part in parts {
        add_declared(&mut declared, &part.declrs)?;
    }
    Ok(declared)
}

/// Whether the names of a list differ.
pub fn list_differs(alloc: Global, list: &[Name]) -> Result<bool, AllocError>
    ensures { IfOk result (λ b. b ≡ t.names_differ list.now) }
{
    let mut names: Vec<&[u8]> = Vec::new(alloc);
    for name in list {
        names.push(name.as_slice())?;
    }
    names_differ(alloc, &names)
}

/// Whether each name is declared once.
pub fn declared_once(alloc: Global, declared: &[&TDeclr]) -> Result<bool, AllocError>
    ensures { IfOk result (λ b. b ≡ t.names_differ (map (λ y. y.name) (map (λ d. declr_of d.now) declared.now))) }
{
    let mut names: Vec<&[u8]> = Vec::new(alloc);
    for declr in declared {
        names.push(declr.name.as_slice())?;
    }
    names_differ(alloc, &names)
}

/// The type of a declared parameter: an array becomes a pointer to its element, and a function a pointer to it.
fn as_parameter(alloc: Global, ty: &CType) -> Result<CType, AllocError>
    ensures { IfOk result (λ x. type_of x ≡ r.as_parameter (type_of ty.now)) }
{
    match ty {
        CType::Arr(_, of) => {
            let element = copy(alloc, of)?;
            Ok(CType::Ptr(Box::new(alloc, element)?))
        }
        CType::Fun(_) => {
            let function = copy(alloc, ty)?;
            Ok(CType::Ptr(Box::new(alloc, function)?))
        }
        _ => copy(alloc, ty),
    }
}

/// The type of the parameter that is declared at that place, or int where none is.
fn typed_by(alloc: Global, declared: &[&TDeclr], place: Option<usize>) -> Result<CType, AllocError>
    ensures { IfOk result (λ x. type_of x ≡ type_at (map (λ d. declr_of d.now) declared.now) place) }
{
    let Some(place) = place else {
        return Ok(CType::Num(Kind::Int));
    };
    match declared.get(place) {
        Some(declr) => as_parameter(alloc, &declr.ty),
        None => Ok(CType::Num(Kind::Int)),
    }
}

/// A name of the list with its type, where the names of the declared parameters are these.
#[tactic(auto, using(crate::proofs::Placed::typed_at))]
fn typed_name(
    alloc: Global,
    names: &NameList,
    declared: &[&TDeclr],
    name: &Name,
) -> Result<TParam, AllocError>
    requires { names_of names.now ≡ map (λ y. y.name) (map (λ d. declr_of d.now) declared.now) }
    ensures { IfOk result (λ x. var_of x ≡ r.as_var (map (λ d. declr_of d.now) declared.now) name.now) }
{
    let place = names.place(name.as_slice());
    let name = copy_name(alloc, name)?;
    let ty = typed_by(alloc, declared, place)?;
    Ok(TParam { name, ty })
}

/// The names of a list with their types.
pub fn parameters(
    alloc: Global,
    declared: &[&TDeclr],
    list: &[Name],
) -> Result<Vec<TParam>, AllocError>
    ensures { IfOk result (λ x. map var_of x.items ≡ map (r.as_var (map (λ d. declr_of d.now) declared.now)) list.now) }
{
    let names = NameList::of_declrs(alloc, declared)?;
    let mut typed = Vec::new(alloc);
    for name in list {
        let one = typed_name(alloc, &names, declared, name)?;
        typed.push(one)?;
    }
    Ok(typed)
}
