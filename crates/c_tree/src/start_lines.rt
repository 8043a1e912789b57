// The lines of the starts of a file.
ghost use Rattle.std.specs.Prelude.{◌≡◌, ◌++◌, ◌<◌, length, IfOk, map};
ghost use Rattle.std.specs.List.{flat_map};
ghost use Rattle.c_type.specs.Names.{at_or};
ghost use Rattle.c_tree.specs.TUnit.{no_unit};
ghost use Rattle.c_tree.specs.Starts as s;
ghost use Rattle.c_tree.specs.TStmt.{locals};
ghost use Rattle.c_tree.specs.TypedOf.{local_of, local_decl_of, stmt_of, stmts_from, item_of, items_from, func_of, unit_of, program_of};

use crate::typed_stmt::{TLocal, TLocalDecl, TStmt, TSwItem};
use crate::typed_unit::{Program, TExt, TFunc};
use std::alloc::{AllocError, Global};

fn add_local(local: &TLocal, lines: &mut Vec<u32>) -> Result<(), AllocError>
    ensures added { IfOk result (λ _. lines.new.items ≡ lines.old.items ++ s.lines (s.starts_local (local_of local.now))) }
{
    if let TLocal::AutoInit(_, _, _, line, _) = local {
        lines.push(*line)?;
    }
    Ok(())
}

fn add_decl(decl: &TLocalDecl, lines: &mut Vec<u32>) -> Result<(), AllocError>
    ensures added { IfOk result (λ _. lines.new.items ≡ lines.old.items ++ s.lines (flat_map s.starts_local (local_decl_of decl.now).items)) }
{
    for local in &decl.items {
        add_local(local, lines)?;
    }
    Ok(())
}

fn add_decls(decls: &[TLocalDecl], lines: &mut Vec<u32>) -> Result<(), AllocError>
    ensures added { IfOk result (λ _. lines.new.items ≡ lines.old.items ++ s.lines (flat_map s.starts_local (locals (map local_decl_of decls.now)))) }
{
    for decl in decls {
        add_decl(decl, lines)?;
    }
    Ok(())
}

#[cycle(add_starts)]
fn add_stmts(stmts: &[TStmt], lines: &mut Vec<u32>) -> Result<(), AllocError>
    ensures added { IfOk result (λ _. lines.new.items ≡ lines.old.items ++ s.lines (s.starts_stmts (stmts_from stmts.now))) }
{
    for stmt in stmts {
        add_stmt(stmt, lines)?;
    }
    Ok(())
}

#[cycle(add_starts)]
fn add_items(items: &[TSwItem], lines: &mut Vec<u32>) -> Result<(), AllocError>
    ensures added { IfOk result (λ _. lines.new.items ≡ lines.old.items ++ s.lines (s.starts_items (items_from items.now))) }
{
    for item in items {
        if let TSwItem::Stmt(stmt) = item {
            add_stmt(stmt, lines)?;
        }
    }
    Ok(())
}

#[cycle(add_starts)]
fn add_stmt(stmt: &TStmt, lines: &mut Vec<u32>) -> Result<(), AllocError>
    ensures added { IfOk result (λ _. lines.new.items ≡ lines.old.items ++ s.lines (s.starts_stmt (stmt_of stmt.now))) }
{
    match stmt {
        TStmt::Expr(_, line, _)
        | TStmt::Empty(_, line)
        | TStmt::Break(_, line)
        | TStmt::Continue(_, line)
        | TStmt::Return(_, line, _) => lines.push(*line)?,
        TStmt::IfOnly(_, line, _, then) | TStmt::While(_, line, _, then) => {
            lines.push(*line)?;
            add_stmt(then, lines)?
        }
        TStmt::IfElse(_, line, _, then, otherwise) => {
            lines.push(*line)?;
            add_stmt(then, lines)?;
            add_stmt(otherwise, lines)?
        }
        TStmt::Do(_, line, body, _) => {
            add_stmt(body, lines)?;
            lines.push(*line)?
        }
        TStmt::For(_, line, _, _, _, body) => {
            lines.push(*line)?;
            lines.push(*line)?;
            lines.push(*line)?;
            add_stmt(body, lines)?
        }
        TStmt::Switch(_, line, _, items) => {
            lines.push(*line)?;
            add_items(items, lines)?
        }
        TStmt::Block(block) => {
            add_decls(&block.locals, lines)?;
            add_stmts(&block.stmts, lines)?
        }
    }
    Ok(())
}

fn add_func(func: &TFunc, lines: &mut Vec<u32>) -> Result<(), AllocError>
    ensures added { IfOk result (λ _. lines.new.items ≡ lines.old.items ++ s.lines (s.starts_func (func_of func.now))) }
{
    lines.push(func.body.line)?;
    add_decls(&func.body.locals, lines)?;
    add_stmts(&func.body.stmts, lines)?;
    lines.push(func.body.close_line)?;
    Ok(())
}

/// The lines of the starts of a file, in textual order. The k-th of them is the line of `StartId { file, index: k }`.
pub fn starts(alloc: Global, p: &Program, file: u32) -> Result<Vec<u32>, AllocError>
    requires file_is_there { file < length p.now.units.items }
    ensures lines { IfOk result (λ v. v.items ≡ s.lines (s.starts (at_or no_unit (program_of p.now).units file))) }
{
    let mut lines = Vec::new(alloc);
    for ext in &p.units[file as usize].exts {
        if let TExt::Func(_, func) = ext {
            add_func(func, &mut lines)?;
        }
    }
    Ok(lines)
}
