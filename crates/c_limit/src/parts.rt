// The declarators and expressions between the braces of a function.
ghost use Rattle.std.specs.Prelude.{◌≡◌, ◌++◌, IfOk, map};
ghost use Rattle.c_tree.specs.TStmt.{locals};
ghost use Rattle.c_tree.specs.TypedOf.{option_of, local_decl_of, stmt_of, stmts_from, items_from, func_of};
ghost use Rattle.c_limit.specs.Parts as s;
ghost use Rattle.c_limit.specs.Of.{parts_of};

use c_tree::{TExpr, TFunc, TLocal, TLocalDecl, TStmt, TSwItem};
use std::alloc::{AllocError, Global};

/// A declarator of a block, or an expression of a statement or case.
#[derive(Clone, Copy, Drop)]
pub enum Part<'a> {
    Declares(&'a TLocal),
    Evaluates(&'a TExpr),
}

fn add_option<'a>(expr: &'a Option<TExpr>, out: &mut Vec<Part<'a>>) -> Result<(), AllocError>
    ensures added { IfOk result (λ _. parts_of out.new.items ≡ parts_of out.old.items ++ s.parts_option (option_of expr.now)) }
{
    if let Some(expr) = expr {
        out.push(Part::Evaluates(expr))?;
    }
    Ok(())
}

fn add_decl<'a>(decl: &'a TLocalDecl, out: &mut Vec<Part<'a>>) -> Result<(), AllocError>
    ensures added { IfOk result (λ _. parts_of out.new.items ≡ parts_of out.old.items ++ map s.Declares (local_decl_of decl.now).items) }
{
    for local in &decl.items {
        out.push(Part::Declares(local))?;
    }
    Ok(())
}

fn add_decls<'a>(decls: &'a [TLocalDecl], out: &mut Vec<Part<'a>>) -> Result<(), AllocError>
    ensures added { IfOk result (λ _. parts_of out.new.items ≡ parts_of out.old.items ++ map s.Declares (locals (map local_decl_of decls.now))) }
{
    for decl in decls {
        add_decl(decl, out)?;
    }
    Ok(())
}

#[cycle(add_parts)]
fn add_stmts<'a>(stmts: &'a [TStmt], out: &mut Vec<Part<'a>>) -> Result<(), AllocError>
    ensures added { IfOk result (λ _. parts_of out.new.items ≡ parts_of out.old.items ++ s.parts_stmts (stmts_from stmts.now)) }
{
    for stmt in stmts {
        add_stmt(stmt, out)?;
    }
    Ok(())
}

#[cycle(add_parts)]
fn add_items<'a>(items: &'a [TSwItem], out: &mut Vec<Part<'a>>) -> Result<(), AllocError>
    ensures added { IfOk result (λ _. parts_of out.new.items ≡ parts_of out.old.items ++ s.parts_items (items_from items.now)) }
{
    for item in items {
        match item {
            TSwItem::Case(value, _) => out.push(Part::Evaluates(value))?,
            TSwItem::Default => {}
            TSwItem::Stmt(stmt) => add_stmt(stmt, out)?,
        }
    }
    Ok(())
}

#[cycle(add_parts)]
fn add_stmt<'a>(stmt: &'a TStmt, out: &mut Vec<Part<'a>>) -> Result<(), AllocError>
    ensures added { IfOk result (λ _. parts_of out.new.items ≡ parts_of out.old.items ++ s.parts_stmt (stmt_of stmt.now)) }
{
    match stmt {
        TStmt::Expr(_, _, expr) => out.push(Part::Evaluates(expr))?,
        TStmt::Empty(_, _) | TStmt::Break(_, _) | TStmt::Continue(_, _) => {}
        TStmt::Return(_, _, value) => add_option(value, out)?,
        TStmt::IfOnly(_, _, test, body) | TStmt::While(_, _, test, body) => {
            out.push(Part::Evaluates(test))?;
            add_stmt(body, out)?
        }
        TStmt::IfElse(_, _, test, then, otherwise) => {
            out.push(Part::Evaluates(test))?;
            add_stmt(then, out)?;
            add_stmt(otherwise, out)?
        }
        TStmt::Do(_, _, body, test) => {
            add_stmt(body, out)?;
            out.push(Part::Evaluates(test))?
        }
        TStmt::For(_, _, first, test, step, body) => {
            add_option(first, out)?;
            add_option(test, out)?;
            add_option(step, out)?;
            add_stmt(body, out)?
        }
        TStmt::Switch(_, _, value, items) => {
            out.push(Part::Evaluates(value))?;
            add_items(items, out)?
        }
        TStmt::Block(block) => {
            add_decls(&block.locals, out)?;
            add_stmts(&block.stmts, out)?
        }
    }
    Ok(())
}

/// The declarators and expressions between the braces of a function, in textual order.
pub fn parts(alloc: Global, func: &TFunc) -> Result<Vec<Part<'_>>, AllocError>
    ensures { IfOk result (λ v. parts_of v.items ≡ s.parts (func_of func.now)) }
{
    let mut out = Vec::new(alloc);
    add_decls(&func.body.locals, &mut out)?;
    add_stmts(&func.body.stmts, &mut out)?;
    Ok(out)
}
