// The typed main of a unit of the small form.
ghost use Rattle.std.specs.Prelude.{◌≡◌, ◌≤◌, ◌<◌, ◌+◌, ◌++◌, ◌&&◌, map, length, OnOk, MatchResult, IfOk, Some, true, false, option_map};
ghost use Rattle.std.specs.List.{list_all};
ghost use Rattle.c_type.specs.Of.{type_of};
ghost use Rattle.c_type.specs.Types.{num};
ghost use Rattle.c_type.specs.declared.Kind.TheVariants.{Int};
ghost use Rattle.c_tree.specs.TExpr.{name, Local};
ghost use Rattle.c_tree.specs.TreeOf as u;
ghost use Rattle.c_tree.specs.TypedOf as t;
ghost use Rattle.c_tree.specs.TreeDecl.{declared};
ghost use Rattle.c_rule.specs.RuleUnit.{IsTyped};
ghost use Rattle.small_form.specs.Given.{Gives};
ghost use Rattle.name_set.specs.Different.{place_in, are_different};
ghost use Rattle.small_form.specs.SmallForm as s;

use c_tree::{
    AssignOp, BinaryOp, Block, Declr, Expr, Ext, Init, Item, LocalDecl, Ref, Stmt, Storage,
    TBinary, TBlock, TDeclr, TExpr, TFunc, TLocal, TLocalDecl, TStmt, TypeSpec, Unit,
};
use c_type::{CType, Kind};
use name_set::NameSet;
use num_le::Name;
use std::alloc::{AllocError, AllocFailed, Global};

/// Why there is no typed main.
#[derive(Debug, Drop)]
pub enum Fault {
    /// The text is not of the form.
    Unbuilt,
    /// Memory was wanting.
    Memory,
}

impl From<AllocError> for Fault {
    ghost use Rattle.std.specs.Prelude.{◌≡◌};
    ghost use Rattle.small_form.specs.declared.typed_main.Fault.{Fault};

    ghost from_gives = { λ _ e. e ≡ Fault.Memory };

    fn from(_: AllocError) -> Fault {
        Fault::Memory
    }
}

impl<T: Drop> From<AllocFailed<T>> for Fault {
    ghost use Rattle.std.specs.Prelude.{◌≡◌};
    ghost use Rattle.small_form.specs.declared.typed_main.Fault.{Fault};

    ghost from_gives = { λ _ e. e ≡ Fault.Memory };

    fn from(_: AllocFailed<T>) -> Fault {
        Fault::Memory
    }
}

fn int() -> CType
    ensures { type_of result ≡ num Int }
{
    CType::Num(Kind::Int)
}

// The variable of that name.
#[tactic(auto, using(crate::proofs::SmallTrees::place_below))]
fn variable(variables: &NameSet, x: &Name) -> Result<TExpr, Fault>
    requires { length variables.now ≤ 131072 }
    ensures { Gives t.expr_of result (s.variable (place_in variables.now x.now)) }
{
    match variables.place(x) {
        Some(i) => Ok(TExpr::Name(int(), Ref::Local(i as u32))),
        None => Err(Fault::Unbuilt),
    }
}

fn number(n: u32, long: bool) -> Result<TExpr, Fault>
    ensures { Gives t.expr_of result (s.number n long) }
{
    if !long && n <= 2_147_483_647 {
        Ok(TExpr::Int(int(), n))
    } else {
        Err(Fault::Unbuilt)
    }
}

fn sum_of(op: BinaryOp) -> Option<TBinary>
    ensures { result ≡ s.sum_of op }
{
    match op {
        BinaryOp::Add => Some(TBinary::Add),
        BinaryOp::Sub => Some(TBinary::Sub),
        _ => None,
    }
}

// The tree of a sum.
fn joined(alloc: Global, op: TBinary, left: TExpr, right: TExpr) -> Result<TExpr, Fault>
    ensures { Gives t.expr_of result (s.joined (Some op) (Some (t.expr_of left)) (Some (t.expr_of right))) }
{
    let left = Box::new(alloc, left)?;
    Ok(TExpr::Binary(int(), op, left, Box::new(alloc, right)?))
}

fn sum(alloc: Global, variables: &NameSet, e: &Expr) -> Result<TExpr, Fault>
    requires { length variables.now ≤ 131072 }
    ensures { Gives t.expr_of result (s.sum_in variables.now (u.expr_of e.now)) }
{
    match e {
        Expr::Name(_, x) => variable(variables, x),
        Expr::Int(_, n, long) => number(*n, *long),
        Expr::Binary(_, op, a, b) => {
            let Some(op) = sum_of(*op) else {
                return Err(Fault::Unbuilt);
            };
            let a = sum(alloc, variables, a)?;
            let b = sum(alloc, variables, b)?;
            joined(alloc, op, a, b)
        }
        Expr::Comma(..)
        | Expr::Assign(..)
        | Expr::Choice(..)
        | Expr::Unary(..)
        | Expr::SizeOf(..)
        | Expr::SizeOfType(..)
        | Expr::Cast(..)
        | Expr::Index(..)
        | Expr::Call(..)
        | Expr::Member(..)
        | Expr::Arrow(..)
        | Expr::Post(..)
        | Expr::Chr(..)
        | Expr::Text(..) => Err(Fault::Unbuilt),
    }
}

// The number of the variable on the left of an assignment.
#[tactic(auto, using(crate::proofs::SmallTrees::place_below))]
fn target(variables: &NameSet, e: &Expr) -> Result<u32, Fault>
    requires { length variables.now ≤ 131072 }
    ensures { Gives (λ i. name (num Int) (Local i)) result (s.variable_in variables.now (u.expr_of e.now)) }
{
    let Expr::Name(_, x) = e else {
        return Err(Fault::Unbuilt);
    };
    match variables.place(x) {
        Some(i) => Ok(i as u32),
        None => Err(Fault::Unbuilt),
    }
}

fn is_putchar(e: &Expr) -> bool
    ensures { result ≡ s.is_putchar (u.expr_of e.now) }
{
    match e {
        Expr::Name(_, x) => x.is(b"putchar"),
        _ => false,
    }
}

fn putchar(alloc: Global) -> Result<TExpr, Fault>
    ensures { Gives t.expr_of result (Some s.putchar) }
{
    let function = CType::Fun(Box::new(alloc, int())?);
    Ok(TExpr::Name(function, Ref::Outer(Name::of(alloc, b"putchar")?)))
}

// A call of putchar with its argument.
fn call(alloc: Global, argument: TExpr) -> Result<TExpr, Fault>
    ensures { Gives t.expr_of result (s.called (Some (t.expr_of argument))) }
{
    let function = putchar(alloc)?;
    let mut arguments = Vec::new(alloc);
    arguments.push(argument)?;
    Ok(TExpr::Call(int(), Box::new(alloc, function)?, arguments))
}

// The one argument of a call.
fn argument(alloc: Global, variables: &NameSet, es: &[Expr]) -> Result<TExpr, Fault>
    requires { length variables.now ≤ 131072 }
    ensures { Gives t.expr_of result (s.argument_in variables.now (u.exprs_from es.now)) }
{
    if es.len() != 1 {
        return Err(Fault::Unbuilt);
    }
    sum(alloc, variables, &es[0])
}

// The tree of an assignment to the variable of that number.
fn assigned(alloc: Global, number: u32, value: TExpr) -> Result<TExpr, Fault>
    ensures { Gives t.expr_of result (s.assigned (s.variable (Some number)) (Some (t.expr_of value))) }
{
    let value = Box::new(alloc, value)?;
    let target = Box::new(alloc, TExpr::Name(int(), Ref::Local(number)))?;
    Ok(TExpr::Assign(int(), target, value))
}

// `name = E`.
fn assignment(alloc: Global, variables: &NameSet, a: &Expr, b: &Expr) -> Result<TExpr, Fault>
    requires { length variables.now ≤ 131072 }
    ensures { Gives t.expr_of result (s.assigned (s.variable_in variables.now (u.expr_of a.now)) (s.sum_in variables.now (u.expr_of b.now))) }
{
    let number = target(variables, a)?;
    let value = sum(alloc, variables, b)?;
    assigned(alloc, number, value)
}

// `putchar ( E )`.
fn put(alloc: Global, variables: &NameSet, f: &Expr, es: &[Expr]) -> Result<TExpr, Fault>
    requires { length variables.now ≤ 131072 }
    ensures { Gives t.expr_of result (s.put_in variables.now (u.expr_of f.now) (u.exprs_from es.now)) }
{
    if !is_putchar(f) {
        return Err(Fault::Unbuilt);
    }
    let argument = argument(alloc, variables, es)?;
    call(alloc, argument)
}

// `name = E` or `putchar ( E )`.
fn action(alloc: Global, variables: &NameSet, e: &Expr) -> Result<TExpr, Fault>
    requires { length variables.now ≤ 131072 }
    ensures { Gives t.expr_of result (s.action_in variables.now (u.expr_of e.now)) }
{
    match e {
        Expr::Assign(_, AssignOp::Set, a, b) => assignment(alloc, variables, a, b),
        Expr::Call(_, f, es) => put(alloc, variables, f, es),
        _ => Err(Fault::Unbuilt),
    }
}

fn is_line(line: u32) -> bool
    ensures { result ≡ s.is_line line }
{
    line <= 65535
}

fn check_line(line: u32) -> Result<(), Fault>
    ensures { MatchResult result (λ _. s.is_line line ≡ true) (λ e. (e ≡ Fault.Unbuilt) × (s.is_line line ≡ false)) }
{
    if is_line(line) {
        Ok(())
    } else {
        Err(Fault::Unbuilt)
    }
}

// A sum on a line that is small enough.
fn sum_at(alloc: Global, variables: &NameSet, line: u32, e: &Expr) -> Result<TExpr, Fault>
    requires { length variables.now ≤ 131072 }
    ensures { Gives t.expr_of result (s.at_line line (s.sum_in variables.now (u.expr_of e.now))) }
{
    check_line(line)?;
    sum(alloc, variables, e)
}

// What a statement does, on a line that is small enough.
fn action_at(alloc: Global, variables: &NameSet, line: u32, e: &Expr) -> Result<TExpr, Fault>
    requires { length variables.now ≤ 131072 }
    ensures { Gives t.expr_of result (s.at_line line (s.action_in variables.now (u.expr_of e.now))) }
{
    check_line(line)?;
    action(alloc, variables, e)
}

// The tree of a loop.
fn looped(alloc: Global, start: u32, line: u32, e: TExpr, body: TStmt) -> Result<TStmt, Fault>
    ensures { Gives t.stmt_of result (s.looped start line (Some (t.expr_of e)) (Some (t.stmt_of body))) }
{
    let body = Box::new(alloc, body)?;
    Ok(TStmt::While(start, line, e, body))
}

#[cycle(stmts)]
fn stmts(
    alloc: Global,
    variables: &NameSet,
    next: &mut u32,
    list: &[Stmt],
) -> Result<Vec<TStmt>, Fault>
    requires few { length variables.now ≤ 131072 }
    requires counted { next.old + s.stmts_starts (u.stmts_from list.now) ≤ 131072 }
    ensures typed { Gives (λ v. t.stmts_from v.items) result (s.stmts_in variables.now next.old (u.stmts_from list.now)) }
    ensures next { OnOk result (next.new ≡ next.old + s.stmts_starts (u.stmts_from list.now)) }
{
    let mut typed = Vec::new(alloc);
    for one in list {
        typed.push(stmt(alloc, variables, next, one)?)?;
    }
    Ok(typed)
}

#[cycle(stmts)]
#[tactic(auto, using(crate::proofs::SmallTrees::stmt_block))]
fn stmt(alloc: Global, variables: &NameSet, next: &mut u32, one: &Stmt) -> Result<TStmt, Fault>
    requires few { length variables.now ≤ 131072 }
    requires counted { next.old + s.stmt_starts (u.stmt_of one.now) ≤ 131072 }
    ensures typed { Gives t.stmt_of result (s.stmt_in variables.now next.old (u.stmt_of one.now)) }
    ensures next { OnOk result (next.new ≡ next.old + s.stmt_starts (u.stmt_of one.now)) }
{
    let start = *next;
    match one {
        Stmt::Expr(line, e) => {
            let e = action_at(alloc, variables, *line, e)?;
            *next += 1;
            Ok(TStmt::Expr(start, *line, e))
        }
        Stmt::While(line, e, body) => {
            let e = sum_at(alloc, variables, *line, e)?;
            *next += 1;
            let body = stmt(alloc, variables, next, body)?;
            looped(alloc, start, *line, e, body)
        }
        Stmt::Return(line, Some(e)) => {
            let e = sum_at(alloc, variables, *line, e)?;
            *next += 1;
            Ok(TStmt::Return(start, *line, Some(e)))
        }
        Stmt::Block(inner) => block(alloc, variables, next, inner),
        _ => Err(Fault::Unbuilt),
    }
}

// A block without declarations.
#[cycle(stmts)]
fn block(alloc: Global, variables: &NameSet, next: &mut u32, inner: &Block) -> Result<TStmt, Fault>
    requires few { length variables.now ≤ 131072 }
    requires counted { next.old + s.stmts_starts (u.block_of inner.now).stmts ≤ 131072 }
    ensures typed { Gives t.stmt_of result (s.stmt_in variables.now next.old (s.as_stmt (u.block_of inner.now))) }
    ensures next { OnOk result (next.new ≡ next.old + s.stmts_starts (u.block_of inner.now).stmts) }
{
    if inner.decls.as_slice().len() != 0 {
        return Err(Fault::Unbuilt);
    }
    let list = stmts(alloc, variables, next, &inner.stmts)?;
    Ok(TStmt::Block(TBlock {
        line: inner.line,
        locals: Vec::new(alloc),
        stmts: list,
        close_line: inner.close_line,
    }))
}

// ---- declarations

fn is_int(storage: &Option<Storage>, types: &Option<TypeSpec>) -> bool
    ensures { result ≡ s.is_int storage.now (u.part_of u.type_spec_of types.now) }
{
    match (storage, types) {
        (None, Some(TypeSpec::Num(Kind::Int))) => true,
        _ => false,
    }
}

fn is_bare(item: &Item) -> bool
    ensures { result ≡ s.is_bare (u.item_of item.now).declr (u.item_of item.now).init }
{
    match (&item.declr, &item.init) {
        (Declr::Name(_, _), None) => true,
        _ => false,
    }
}

fn are_bare(items: &[Item]) -> bool
    ensures { result ≡ list_all (λ i. s.is_bare (u.item_of i).declr (u.item_of i).init) items.now }
{
    items.iter().all(|item| is_bare(item))
}

#[tactic(auto, using(crate::proofs::SmallTrees::all_mapped))]
fn is_plain(decl: &LocalDecl) -> bool
    ensures { result ≡ s.is_plain (u.local_of decl.now) }
{
    is_int(&decl.specs.storage, &decl.specs.types) && are_bare(&decl.items)
}

fn are_plain(decls: &[LocalDecl]) -> bool
    ensures { result ≡ list_all (λ d. s.is_plain (u.local_of d)) decls.now }
{
    decls.iter().all(|decl| is_plain(decl))
}

// The name that a declarator declares.
fn declared(declr: &Declr) -> &Name
    ensures { result.now ≡ declared (u.declr_of declr.now) }
{
    match declr {
        Declr::Name(_, x) => x,
        Declr::Pointer(_, inner) => declared(inner),
        Declr::Array(_, inner, _) => declared(inner),
        Declr::Function(_, inner, _) => declared(inner),
    }
}

fn add_names(alloc: Global, names: &mut Vec<Name>, items: &[Item]) -> Result<(), AllocError>
    ensures { IfOk result (λ _. names.new.items ≡ names.old.items ++ map (λ i. declared i.declr) (map u.item_of items.now)) }
{
    for item in items {
        names.push(Name::of(alloc, declared(&item.declr).as_slice())?)?;
    }
    Ok(())
}

// The names that declarations declare.
fn names_in(alloc: Global, decls: &[LocalDecl]) -> Result<Vec<Name>, AllocError>
    ensures { IfOk result (λ v. v.items ≡ s.names_in (map u.local_of decls.now)) }
{
    let mut names = Vec::new(alloc);
    for decl in decls {
        add_names(alloc, &mut names, &decl.items)?;
    }
    Ok(names)
}

fn local(alloc: Global, declr: &Declr, number: u32) -> Result<TLocal, AllocError>
    ensures { IfOk result (λ l. t.local_of l ≡ s.object (u.declr_of declr.now) number) }
{
    let name = Name::of(alloc, declared(declr).as_slice())?;
    let declr = TDeclr {
        name,
        ty: int(),
        dims: Vec::new(alloc),
    };
    Ok(TLocal::Auto(declr, number))
}

// The objects of a declaration, numbered from `first` on.
fn locals(alloc: Global, first: u32, items: &[Item]) -> Result<TLocalDecl, AllocError>
    requires { first + length items.now ≤ 131072 }
    ensures { IfOk result (λ d. t.local_decl_of d ≡ record { items = s.locals_in first (map u.item_of items.now) }) }
{
    let mut list = Vec::new(alloc);
    let mut number = first;
    for item in items {
        list.push(local(alloc, &item.declr, number)?)?;
        number += 1;
    }
    Ok(TLocalDecl { items: list })
}

// The objects of declarations.
fn decls(alloc: Global, decls: &[LocalDecl]) -> Result<Vec<TLocalDecl>, AllocError>
    requires { length (s.names_in (map u.local_of decls.now)) ≤ 131072 }
    ensures { IfOk result (λ v. map t.local_decl_of v.items ≡ s.decls_in 0 (map u.local_of decls.now)) }
{
    let mut list = Vec::new(alloc);
    let mut number = 0;
    for decl in decls {
        list.push(locals(alloc, number, &decl.items)?)?;
        number += decl.items.len() as u32;
    }
    Ok(list)
}

// ---- names

fn is_free(name: &Name) -> bool
    ensures { result ≡ s.is_free name.now }
{
    !name.is(b"main") && !name.is(b"putchar")
}

fn are_free(names: &[Name]) -> bool
    ensures { result ≡ list_all s.is_free names.now }
{
    names.iter().all(|name| is_free(name))
}

// ---- main

// Whether a body with these names is one of the form if they differ.
#[tactic(auto, using(crate::proofs::SmallTrees::all_mapped, crate::proofs::SmallTrees::and_later))]
fn is_plain_body(names: &[Name], block: &Block) -> bool
    requires names { names.now ≡ s.names_in (u.block_of block.now).decls }
    ensures value { (result && are_different names.now) ≡ s.is_body (u.block_of block.now) }
{
    is_line(block.line) && is_line(block.close_line) && are_plain(&block.decls) && are_free(names)
}

// The function main with these statements, the last start of which is before `close`.
fn main_with(alloc: Global, block: &Block, stmts: Vec<TStmt>, close: u32) -> Result<TFunc, Fault>
    requires few { length (s.names_in (u.block_of block.now).decls) ≤ 131072 }
    requires close { close ≡ 1 + s.stmts_starts (u.block_of block.now).stmts }
    ensures typed { Gives t.func_of result (Some (s.main_with (u.block_of block.now) (t.stmts_from stmts.items))) }
{
    let locals = decls(alloc, &block.decls)?;
    Ok(TFunc {
        name: Name::of(alloc, b"main")?,
        is_static: false,
        result: int(),
        params: Vec::new(alloc),
        declared: Vec::new(alloc),
        open: 0,
        body: TBlock {
            line: block.line,
            locals,
            stmts,
            close_line: block.close_line,
        },
        close,
    })
}

// The function main of a body with these variables.
fn with_variables(alloc: Global, variables: &NameSet, block: &Block) -> Result<TFunc, Fault>
    requires variables { variables.now ≡ s.names_in (u.block_of block.now).decls }
    requires counted { s.body_size (u.block_of block.now) ≤ 131000 }
    ensures typed { Gives t.func_of result (option_map (s.main_with (u.block_of block.now)) (s.stmts_in variables.now 1 (u.block_of block.now).stmts)) }
{
    let mut next = 1;
    let stmts = stmts(alloc, variables, &mut next, &block.stmts)?;
    main_with(alloc, block, stmts, next)
}

fn body(alloc: Global, block: &Block) -> Result<TFunc, Fault>
    requires counted { s.body_size (u.block_of block.now) ≤ 131000 }
    ensures typed { Gives t.func_of result (s.body_in (u.block_of block.now)) }
{
    let names = names_in(alloc, &block.decls)?;
    if !is_plain_body(&names, block) {
        return Err(Fault::Unbuilt);
    }
    let Some(variables) = NameSet::of(alloc, &names)? else {
        return Err(Fault::Unbuilt);
    };
    with_variables(alloc, &variables, block)
}

fn is_main(declr: &Declr) -> bool
    ensures { result ≡ s.is_main (u.declr_of declr.now) }
{
    let Declr::Function(_, name, names) = declr else {
        return false;
    };
    match &**name {
        Declr::Name(_, x) => names.is_empty() && x.is(b"main"),
        _ => false,
    }
}

fn main_in(alloc: Global, ext: &Ext) -> Result<TFunc, Fault>
    requires counted { s.ext_size (u.ext_of ext.now) ≤ 131000 }
    ensures typed { Gives t.func_of result (s.main_in (u.ext_of ext.now)) }
{
    match ext {
        Ext::Func(_, None, declr, params, block) => {
            if !params.is_empty() || !is_main(declr) {
                return Err(Fault::Unbuilt);
            }
            body(alloc, block)
        }
        _ => Err(Fault::Unbuilt),
    }
}

// The typed main of a unit that has one part.
fn only_main(alloc: Global, unit: &Unit) -> Result<TFunc, Fault>
    requires counted { s.unit_size (u.unit_of unit.now) ≤ 131000 }
    ensures typed { Gives t.func_of result (s.small_main (u.unit_of unit.now)) }
{
    if unit.exts.len() != 1 {
        return Err(Fault::Unbuilt);
    }
    main_in(alloc, &unit.exts[0])
}

/// The typed main of a unit of the small form. It is the unit's by the typing rules.
pub fn small_main(alloc: Global, unit: &Unit) -> Result<TFunc, Fault>
    requires counted { s.unit_size (u.unit_of unit.now) ≤ 131000 }
    ensures typed { Gives t.func_of result (s.small_main (u.unit_of unit.now)) }
    ensures belongs { IfOk result (λ f. IsTyped (u.unit_of unit.now) (s.unit_of_main (t.func_of f))) }
{
    only_main(alloc, unit)
}
