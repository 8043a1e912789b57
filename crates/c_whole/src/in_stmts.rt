// What blocks and statements say.
ghost use Rattle.std.specs.Prelude.{◌≡◌, ◌++◌, ◌∷◌, IfOk, map};
ghost use Rattle.std.specs.List.{flat_map};
ghost use Rattle.c_join.specs.JoinSaid as s;
ghost use Rattle.c_tree.specs.TStmt.{locals};
ghost use Rattle.c_tree.specs.TypedOf.{declr_of, local_of, local_decl_of, stmt_of, stmts_from, items_from};
ghost use Rattle.c_whole.specs.Events.{events_of, whose_of};

use crate::in_exprs::{in_begin, in_declr, in_expr, in_option};
use crate::said::{Event, Said, Whose};
use c_tree::{TDeclr, TLocal, TLocalDecl, TStmt, TSwItem};
use std::alloc::AllocError;

/// A function's name.
pub fn of_function(is_static: bool, name: &[u8]) -> Whose<'_>
    ensures { whose_of result ≡ s.of_function is_static name.now }
{
    if is_static {
        Whose::Hidden(name)
    } else {
        Whose::External(name)
    }
}

/// A declaration in a block that defines nothing.
fn declared<'a>(
    about: Whose<'a>,
    declr: &'a TDeclr,
    out: &mut Vec<Event<'a>>,
) -> Result<(), AllocError>
    ensures added { IfOk result (λ _. events_of out.new.items ≡ events_of out.old.items ++ (s.event (whose_of about.entry) (s.Declared (declr_of declr.now).ty) ∷ s.in_declr (declr_of declr.now))) }
{
    out.push(Event {
        about,
        says: Said::Declared(&declr.ty),
    })?;
    in_declr(declr, out)
}

fn in_local<'a>(local: &'a TLocal, out: &mut Vec<Event<'a>>) -> Result<(), AllocError>
    ensures added { IfOk result (λ _. events_of out.new.items ≡ events_of out.old.items ++ s.in_local (local_of local.now)) }
{
    match local {
        TLocal::Auto(declr, _) => in_declr(declr, out),
        TLocal::AutoInit(declr, _, _, _, init) => {
            in_declr(declr, out)?;
            in_expr(init, out)
        }
        TLocal::Static(declr, _, init) => {
            in_declr(declr, out)?;
            in_begin(init, out)
        }
        TLocal::Extern(declr) => declared(Whose::External(declr.name.as_slice()), declr, out),
        TLocal::Function(declr, is_static) => {
            declared(of_function(*is_static, declr.name.as_slice()), declr, out)
        }
    }
}

fn in_local_decl<'a>(decl: &'a TLocalDecl, out: &mut Vec<Event<'a>>) -> Result<(), AllocError>
    ensures added { IfOk result (λ _. events_of out.new.items ≡ events_of out.old.items ++ flat_map s.in_local (local_decl_of decl.now).items) }
{
    for local in &decl.items {
        in_local(local, out)?;
    }
    Ok(())
}

/// The declarations of a block.
pub fn in_locals<'a>(decls: &'a [TLocalDecl], out: &mut Vec<Event<'a>>) -> Result<(), AllocError>
    ensures added { IfOk result (λ _. events_of out.new.items ≡ events_of out.old.items ++ flat_map s.in_local (locals (map local_decl_of decls.now))) }
{
    for decl in decls {
        in_local_decl(decl, out)?;
    }
    Ok(())
}

#[cycle(in_stmts)]
pub fn in_stmts<'a>(stmts: &'a [TStmt], out: &mut Vec<Event<'a>>) -> Result<(), AllocError>
    ensures added { IfOk result (λ _. events_of out.new.items ≡ events_of out.old.items ++ s.in_stmts (stmts_from stmts.now)) }
{
    for stmt in stmts {
        in_stmt(stmt, out)?;
    }
    Ok(())
}

#[cycle(in_stmts)]
fn in_items<'a>(items: &'a [TSwItem], out: &mut Vec<Event<'a>>) -> Result<(), AllocError>
    ensures added { IfOk result (λ _. events_of out.new.items ≡ events_of out.old.items ++ s.in_items (items_from items.now)) }
{
    for item in items {
        match item {
            TSwItem::Case(value, _) => in_expr(value, out)?,
            TSwItem::Default => {}
            TSwItem::Stmt(stmt) => in_stmt(stmt, out)?,
        }
    }
    Ok(())
}

#[cycle(in_stmts)]
fn in_stmt<'a>(stmt: &'a TStmt, out: &mut Vec<Event<'a>>) -> Result<(), AllocError>
    ensures added { IfOk result (λ _. events_of out.new.items ≡ events_of out.old.items ++ s.in_stmt (stmt_of stmt.now)) }
{
    match stmt {
        TStmt::Expr(_, _, expr) => in_expr(expr, out),
        TStmt::Empty(_, _) | TStmt::Break(_, _) | TStmt::Continue(_, _) => Ok(()),
        TStmt::Return(_, _, value) => in_option(value, out),
        TStmt::IfOnly(_, _, test, body) | TStmt::While(_, _, test, body) => {
            in_expr(test, out)?;
            in_stmt(body, out)
        }
        TStmt::IfElse(_, _, test, then, otherwise) => {
            in_expr(test, out)?;
            in_stmt(then, out)?;
            in_stmt(otherwise, out)
        }
        TStmt::Do(_, _, body, test) => {
            in_stmt(body, out)?;
            in_expr(test, out)
        }
        TStmt::For(_, _, first, test, step, body) => {
            in_option(first, out)?;
            in_option(test, out)?;
            in_option(step, out)?;
            in_stmt(body, out)
        }
        TStmt::Switch(_, _, value, items) => {
            in_expr(value, out)?;
            in_items(items, out)
        }
        TStmt::Block(block) => {
            in_locals(&block.locals, out)?;
            in_stmts(&block.stmts, out)
        }
    }
}
