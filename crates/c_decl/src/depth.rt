// How deep trees are.
//
// A tree is deeper than a number exactly where the number is 0, or where one of its parts is deeper than the number
// before it. So no tree is walked further down than the number says.
ghost use Rattle.std.specs.Prelude.{◌≡◌, nat_lt, map};
ghost use Rattle.c_tree.specs.TreeExpr.{expr_depth, exprs_depth, type_depth, optional, deepest};
ghost use Rattle.c_tree.specs.TreeDecl.{declr_depth, init_depth, inits_depth, item_depth, en_depth, types_depth, def_depth, mem_depth, mems_depth, tag_depth, par_depth, local_depth, local_specs_depth};
ghost use Rattle.c_tree.specs.TreeUnit.{head_depth};
ghost use Rattle.c_decl.specs.HeadOf.{head_of};
ghost use Rattle.c_tree.specs.TreeOf.{expr_of, exprs_from, type_spec_of, declr_of, part_of, init_of, inits_from, item_of, en_of, types_of, def_of, mem_of, mems_from, tag_of, par_of, local_of, local_specs_of};

use crate::FuncHead;
use c_tree::{
    Declr, En, Expr, Init, Item, LocalDecl, LocalSpecs, Mem, ParDecl, TagDef, TagSpec, TypeSpec,
    Types,
};

/// The greatest depth of a tree.
pub const MAX_DEPTH: u32 = 200;

fn type_exceeds(types: &TypeSpec, most: u32) -> bool
    ensures { result ≡ nat_lt most (type_depth (type_spec_of types.now)) }
{
    matches!(types, TypeSpec::Tag(_)) && most == 0
}

#[cycle(exprs)]
fn exprs_exceed(exprs: &[Expr], most: u32) -> bool
    ensures { result ≡ nat_lt most (exprs_depth (exprs_from exprs.now)) }
{
    for expr in exprs {
        if expr_exceeds(expr, most) {
            return true;
        }
    }
    false
}

/// Whether an expression is deeper than the number.
#[cycle(exprs)]
pub fn expr_exceeds(expr: &Expr, most: u32) -> bool
    ensures { result ≡ nat_lt most (expr_depth (expr_of expr.now)) }
{
    if most == 0 {
        return true;
    }
    let left = most - 1;
    match expr {
        Expr::Comma(_, a, b) => expr_exceeds(a, left) || expr_exceeds(b, left),
        Expr::Assign(_, _, a, b) => expr_exceeds(a, left) || expr_exceeds(b, left),
        Expr::Choice(_, a, b, c) => {
            expr_exceeds(a, left) || expr_exceeds(b, left) || expr_exceeds(c, left)
        }
        Expr::Binary(_, _, a, b) => expr_exceeds(a, left) || expr_exceeds(b, left),
        Expr::Unary(_, _, e) => expr_exceeds(e, left),
        Expr::SizeOf(_, e) => expr_exceeds(e, left),
        Expr::SizeOfType(_, name) => left == 0 || type_exceeds(&name.types, left - 1),
        Expr::Cast(_, name, e) => {
            left == 0 || type_exceeds(&name.types, left - 1) || expr_exceeds(e, left)
        }
        Expr::Index(_, a, i) => expr_exceeds(a, left) || expr_exceeds(i, left),
        Expr::Call(_, f, args) => expr_exceeds(f, left) || exprs_exceed(args, left),
        Expr::Member(_, e, _) => expr_exceeds(e, left),
        Expr::Arrow(_, e, _) => expr_exceeds(e, left),
        Expr::Post(_, _, e) => expr_exceeds(e, left),
        Expr::Name(..) | Expr::Int(..) | Expr::Chr(..) | Expr::Text(..) => false,
    }
}

/// Whether a declarator is deeper than the number.
pub fn declr_exceeds(declr: &Declr, most: u32) -> bool
    ensures { result ≡ nat_lt most (declr_depth (declr_of declr.now)) }
{
    if most == 0 {
        return true;
    }
    let left = most - 1;
    match declr {
        Declr::Name(_, _) => false,
        Declr::Pointer(_, inner) => declr_exceeds(inner, left),
        Declr::Array(_, inner, None) => declr_exceeds(inner, left),
        Declr::Array(_, inner, Some(e)) => declr_exceeds(inner, left) || expr_exceeds(e, left),
        Declr::Function(_, inner, _) => declr_exceeds(inner, left),
    }
}

/// Whether one of the declarators is deeper than the number.
pub fn declrs_exceed(declrs: &[Declr], most: u32) -> bool
    ensures { result ≡ nat_lt most (deepest declr_depth (map declr_of declrs.now)) }
{
    for declr in declrs {
        if declr_exceeds(declr, most) {
            return true;
        }
    }
    false
}

#[cycle(inits)]
fn inits_exceed(inits: &[Init], most: u32) -> bool
    ensures { result ≡ nat_lt most (inits_depth (inits_from inits.now)) }
{
    for init in inits {
        if init_exceeds(init, most) {
            return true;
        }
    }
    false
}

/// Whether an initialiser is deeper than the number.
#[cycle(inits)]
pub fn init_exceeds(init: &Init, most: u32) -> bool
    ensures { result ≡ nat_lt most (init_depth (init_of init.now)) }
{
    if most == 0 {
        return true;
    }
    match init {
        Init::Single(e) => expr_exceeds(e, most - 1),
        Init::Group(_, members) => inits_exceed(members, most - 1),
    }
}

/// Whether a declarator with its initialiser is deeper than the number.
pub fn item_exceeds(item: &Item, most: u32) -> bool
    ensures { result ≡ nat_lt most (item_depth (item_of item.now)) }
{
    if most == 0 || declr_exceeds(&item.declr, most - 1) {
        return true;
    }
    match &item.init {
        None => false,
        Some(init) => init_exceeds(init, most - 1),
    }
}

/// Whether one of the items is deeper than the number.
pub fn items_exceed(items: &[Item], most: u32) -> bool
    ensures { result ≡ nat_lt most (deepest item_depth (map item_of items.now)) }
{
    for item in items {
        if item_exceeds(item, most) {
            return true;
        }
    }
    false
}

/// Whether an enumerator is deeper than the number.
pub fn en_exceeds(en: &En, most: u32) -> bool
    ensures { result ≡ nat_lt most (en_depth (en_of en.now)) }
{
    if most == 0 {
        return true;
    }
    match &en.value {
        None => false,
        Some(value) => expr_exceeds(value, most - 1),
    }
}

fn ens_exceed(ens: &[En], most: u32) -> bool
    ensures { result ≡ nat_lt most (deepest en_depth (map en_of ens.now)) }
{
    for en in ens {
        if en_exceeds(en, most) {
            return true;
        }
    }
    false
}

#[cycle(types)]
fn mems_exceed(mems: &[Mem], most: u32) -> bool
    ensures { result ≡ nat_lt most (mems_depth (mems_from mems.now)) }
{
    for mem in mems {
        if mem_exceeds(mem, most) {
            return true;
        }
    }
    false
}

/// Whether a declaration of members is deeper than the number.
#[cycle(types)]
pub fn mem_exceeds(mem: &Mem, most: u32) -> bool
    ensures { result ≡ nat_lt most (mem_depth (mem_of mem.now)) }
{
    most == 0 || types_exceed(&mem.types, most - 1) || declrs_exceed(&mem.declrs, most - 1)
}

/// Whether a tag's body is deeper than the number.
#[cycle(types)]
pub fn def_exceeds(def: &TagDef, most: u32) -> bool
    ensures { result ≡ nat_lt most (def_depth (def_of def.now)) }
{
    if most == 0 {
        return true;
    }
    match def {
        TagDef::Struct(_, _, mems) => mems_exceed(mems, most - 1),
        TagDef::Union(_, _, mems) => mems_exceed(mems, most - 1),
        TagDef::Enum(_, _, ens) => ens_exceed(ens, most - 1),
    }
}

/// Whether a type is deeper than the number.
#[cycle(types)]
pub fn types_exceed(types: &Types, most: u32) -> bool
    ensures { result ≡ nat_lt most (types_depth (types_of types.now)) }
{
    match types {
        Types::Spec(spec) => type_exceeds(spec, most),
        Types::Def(def) => def_exceeds(def, most),
    }
}

/// Whether a type that may be missing is deeper than the number.
pub fn optional_types_exceed(types: &Option<Types>, most: u32) -> bool
    ensures { result ≡ nat_lt most (optional types_depth (part_of types_of types.now)) }
{
    match types {
        None => false,
        Some(types) => types_exceed(types, most),
    }
}

/// Whether a tag is deeper than the number.
pub fn tag_exceeds(tag: &TagSpec, most: u32) -> bool
    ensures { result ≡ nat_lt most (tag_depth (tag_of tag.now)) }
{
    match tag {
        TagSpec::Ref(_) => most == 0,
        TagSpec::Def(def) => def_exceeds(def, most),
    }
}

/// Whether a declaration of parameters is deeper than the number.
pub fn par_exceeds(par: &ParDecl, most: u32) -> bool
    ensures { result ≡ nat_lt most (par_depth (par_of par.now)) }
{
    most == 0 || types_exceed(&par.types, most - 1) || declrs_exceed(&par.declrs, most - 1)
}

/// Whether one of the declarations of parameters is deeper than the number.
pub fn pars_exceed(pars: &[ParDecl], most: u32) -> bool
    ensures { result ≡ nat_lt most (deepest par_depth (map par_of pars.now)) }
{
    for par in pars {
        if par_exceeds(par, most) {
            return true;
        }
    }
    false
}

fn local_specs_exceed(specs: &LocalSpecs, most: u32) -> bool
    ensures { result ≡ nat_lt most (local_specs_depth (local_specs_of specs.now)) }
{
    match &specs.types {
        None => false,
        Some(types) => type_exceeds(types, most),
    }
}

/// Whether a declaration in a block is deeper than the number.
pub fn local_exceeds(local: &LocalDecl, most: u32) -> bool
    ensures { result ≡ nat_lt most (local_depth (local_of local.now)) }
{
    most == 0 || local_specs_exceed(&local.specs, most - 1) || items_exceed(&local.items, most - 1)
}

/// Whether a function without its block is deeper than the number.
pub fn head_exceeds(head: &FuncHead, most: u32) -> bool
    ensures { result ≡ nat_lt most (head_depth (head_of head.now)) }
{
    if most == 0 {
        return true;
    }
    let specs = match &head.specs {
        None => false,
        Some(specs) => optional_types_exceed(&specs.types, most - 1),
    };
    specs || declr_exceeds(&head.declr, most - 1) || pars_exceed(&head.params, most - 1)
}
