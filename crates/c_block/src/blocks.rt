#![tactic(auto, using(crate::proofs::StatementRows::switch_is, crate::proofs::StatementRows::block_is, crate::proofs::StatementRows::source_switch, crate::proofs::StatementRows::source_block))]

// Statements and blocks.
ghost use Rattle.std.specs.Prelude.{◌≡◌, map, IfOk, OnOk};
ghost use Rattle.c_tree.specs.TreeOf as u;
ghost use Rattle.c_tree.specs.TreeStmt as us;
ghost use Rattle.c_rule.specs.RuleScope.{onward, past, provided, started};
ghost use Rattle.c_rule.specs.RuleValues as v;
ghost use Rattle.c_tree.specs.TStmt as st;
ghost use Rattle.c_tree.specs.TypedOf.{option_of, stmt_of, stmts_from, items_from, local_decl_of};
ghost use Rattle.c_rule.specs.Judging.{behind, judged_by, judged_stmt, judged_stmts, judged_items};
ghost use Rattle.c_scope.specs.EnvOf.{env_of};
ghost use Rattle.c_scope.specs.Says.{Says, SaysBehind};
ghost use Rattle.c_operator.specs.Boxed.{boxed, boxed_option};
ghost use Rattle.c_local.specs.Boxed.{boxed_stmt};
ghost use Rattle.c_block.specs.PlaceOf.{place_of};
ghost use Rattle.c_block.specs.SwitchParts.{judged_part, part_of};

use crate::labels::labels_differ;
use c_local::declarations;
use c_scope::{Scopes, TypeErr};
use c_tree::{Block, Expr, Stmt, SwItem, TBlock, TExpr, TStmt, TSwItem};
use c_type::CType;
use c_value::{
    constant_expr, integer_expr, scalar_expr, scalar_option, used_expr, used_option, value_option,
};
use std::alloc::{AllocError, Global};

/// Where a statement stands in its function.
#[derive(Clone, Copy, Drop)]
pub struct Place<'a> {
    /// In a loop.
    pub in_loop: bool,
    /// In a loop or a switch.
    pub breaks: bool,
    /// What the function gives.
    pub returns: &'a CType,
}

/// A test of a statement, with the number of the statement's start.
#[derive(Drop)]
struct Test {
    value: Box<TExpr>,
    start: u32,
}

/// A typed statement in a box of its own.
fn node(alloc: Global, stmt: TStmt) -> Result<Box<TStmt>, AllocError>
    ensures { IfOk result (λ x. boxed_stmt x ≡ stmt_of stmt) }
{
    Ok(Box::new(alloc, stmt)?)
}

/// An expression that may be left out, out of its box.
fn unboxed(e: Option<Box<TExpr>>) -> Option<TExpr>
    ensures { option_of result ≡ boxed_option e }
{
    match e {
        Some(e) => Some(Box::into_inner(e)),
        None => None,
    }
}

/// A test, which is a scalar.
fn tested(c: &mut Scopes, e: &Expr) -> Result<Test, TypeErr>
    ensures judged { Says (λ x. boxed x.value) (judged_by (v.scalar 15) (env_of c.old) (u.expr_of e.now)) result }
    ensures start { IfOk result (λ x. x.start ≡ (env_of c.old).starts) }
    ensures past { OnOk result (env_of c.new ≡ past (u.expr_of e.now) (started 1 (env_of c.old))) }
{
    let start = c.starts();
    let value = scalar_expr(c, 15, e)?;
    c.started(1)?;
    Ok(Test { value, start })
}

/// The statements of a block, each where those before it stand.
#[cycle(statements)]
pub fn statements(c: &mut Scopes, place: &Place<'_>, stmts: &[Stmt]) -> Result<Vec<TStmt>, TypeErr>
    ensures judged { SaysBehind (λ ss. stmts_from ss.items) (env_of c.new) (judged_stmts (env_of c.old) (place_of place.now) (u.stmts_from stmts.now)) result }
{
    let mut typed = Vec::new(c.alloc);
    for part in stmts {
        let one = statement(c, place, part)?;
        typed.push(Box::into_inner(one))?;
    }
    Ok(typed)
}

/// The parts of a switch, each where those before it stand.
#[cycle(statements)]
fn switch_parts(
    c: &mut Scopes,
    place: &Place<'_>,
    items: &[SwItem],
) -> Result<Vec<TSwItem>, TypeErr>
    ensures judged { SaysBehind (λ is. items_from is.items) (env_of c.new) (judged_items (env_of c.old) (place_of place.now) (u.sw_items_from items.now)) result }
{
    let mut typed = Vec::new(c.alloc);
    for part in items {
        let one = switch_part(c, place, part)?;
        typed.push(one)?;
    }
    Ok(typed)
}

/// A part of a switch.
#[cycle(statements)]
fn switch_part(c: &mut Scopes, place: &Place<'_>, item: &SwItem) -> Result<TSwItem, TypeErr>
    ensures judged { SaysBehind part_of (env_of c.new) (judged_part (env_of c.old) (place_of place.now) (u.sw_item_of item.now)) result }
{
    match item {
        SwItem::Case(_, e) => {
            let number = constant_expr(c, e)?;
            Ok(TSwItem::Case(Box::into_inner(number.expr), number.bits))
        }
        SwItem::Default(_) => Ok(TSwItem::Default),
        SwItem::Stmt(s) => {
            let one = statement(c, place, s)?;
            Ok(TSwItem::Stmt(Box::into_inner(one)))
        }
    }
}

/// A statement.
#[cycle(statements)]
fn statement(c: &mut Scopes, place: &Place<'_>, s: &Stmt) -> Result<Box<TStmt>, TypeErr>
    ensures judged { SaysBehind boxed_stmt (env_of c.new) (judged_stmt (env_of c.old) (place_of place.now) (u.stmt_of s.now)) result }
{
    match s {
        Stmt::Expr(line, e) => expression(c, *line, e),
        Stmt::Empty(line) => empty(c, *line),
        Stmt::If(line, e, then) => if_only(c, place, *line, then, e),
        Stmt::IfElse(line, e, then, other) => {
            let test = tested(c, e)?;
            let then = statement(c, place, then)?;
            let other = statement(c, place, other)?;
            Ok(if_else(c.alloc, *line, test, then, other)?)
        }
        Stmt::While(line, e, body) => while_loop(c, place, *line, body, e),
        Stmt::Do(_, body, line, e) => do_loop(c, place, *line, body, e),
        Stmt::For(line, first, e, step, body) => for_loop(c, place, *line, body, first, e, step),
        Stmt::Switch(line, e, items) => switch(c, place, *line, items, e),
        Stmt::Break(line) => break_here(c, place, *line),
        Stmt::Continue(line) => continue_here(c, place, *line),
        Stmt::Return(line, e) => return_here(c, place, *line, e),
        Stmt::Block(b) => {
            let block = block(c, place, b)?;
            Ok(node(c.alloc, TStmt::Block(block))?)
        }
    }
}

/// An expression, used as a value.
fn expression(c: &mut Scopes, line: u32, e: &Expr) -> Result<Box<TStmt>, TypeErr>
    ensures judged { SaysBehind boxed_stmt (env_of c.new) (onward (judged_by v.used (env_of c.old) (u.expr_of e.now)) (λ x. behind (st.expr (env_of c.old).starts line x) (past (u.expr_of e.now) (started 1 (env_of c.old))))) result }
{
    let start = c.starts();
    let value = used_expr(c, e)?;
    c.started(1)?;
    let stmt = TStmt::Expr(start, line, Box::into_inner(value));
    Ok(node(c.alloc, stmt)?)
}

/// A lone semicolon.
fn empty(c: &mut Scopes, line: u32) -> Result<Box<TStmt>, TypeErr>
    ensures judged { SaysBehind boxed_stmt (env_of c.new) (behind (st.empty (env_of c.old).starts line) (started 1 (env_of c.old))) result }
{
    let start = c.starts();
    c.started(1)?;
    Ok(node(c.alloc, TStmt::Empty(start, line))?)
}

/// A `break`, which stands in a loop or a switch.
fn break_here(c: &mut Scopes, place: &Place<'_>, line: u32) -> Result<Box<TStmt>, TypeErr>
    ensures judged { SaysBehind boxed_stmt (env_of c.new) (provided 24 place.now.breaks (behind (st.break_ (env_of c.old).starts line) (started 1 (env_of c.old)))) result }
{
    if !place.breaks {
        return Err(TypeErr::Rule(24, line));
    }
    let start = c.starts();
    c.started(1)?;
    Ok(node(c.alloc, TStmt::Break(start, line))?)
}

/// A `continue`, which stands in a loop.
fn continue_here(c: &mut Scopes, place: &Place<'_>, line: u32) -> Result<Box<TStmt>, TypeErr>
    ensures judged { SaysBehind boxed_stmt (env_of c.new) (provided 24 place.now.in_loop (behind (st.continue_ (env_of c.old).starts line) (started 1 (env_of c.old)))) result }
{
    if !place.in_loop {
        return Err(TypeErr::Rule(24, line));
    }
    let start = c.starts();
    c.started(1)?;
    Ok(node(c.alloc, TStmt::Continue(start, line))?)
}

/// A `return`, whose value is one that the function returns.
#[tactic(auto, using(crate::proofs::StatementRows::return_row, crate::proofs::StatementRows::return_refused))]
fn return_here(
    c: &mut Scopes,
    place: &Place<'_>,
    line: u32,
    e: &Option<Expr>,
) -> Result<Box<TStmt>, TypeErr>
    ensures judged { SaysBehind boxed_stmt (env_of c.new) (judged_stmt (env_of c.old) (place_of place.now) (us.return line (u.part_of u.expr_of e.now))) result }
{
    let start = c.starts();
    let value = value_option(c, 23, place.returns, e)?;
    c.started(1)?;
    let stmt = TStmt::Return(start, line, unboxed(value));
    Ok(node(c.alloc, stmt)?)
}

/// An `if` without `else`.
#[cycle(statements)]
fn if_only(
    c: &mut Scopes,
    place: &Place<'_>,
    line: u32,
    then: &Stmt,
    e: &Expr,
) -> Result<Box<TStmt>, TypeErr>
    ensures judged { SaysBehind boxed_stmt (env_of c.new) (judged_stmt (env_of c.old) (place_of place.now) (us.if_only line (u.expr_of e.now) (u.stmt_of then.now))) result }
{
    let test = tested(c, e)?;
    let then = statement(c, place, then)?;
    let stmt = TStmt::IfOnly(test.start, line, Box::into_inner(test.value), then);
    Ok(node(c.alloc, stmt)?)
}

/// The node of an `if` with `else`.
fn if_else(
    alloc: Global,
    line: u32,
    test: Test,
    then: Box<TStmt>,
    other: Box<TStmt>,
) -> Result<Box<TStmt>, AllocError>
    ensures { IfOk result (λ x. boxed_stmt x ≡ st.if_else test.start line (boxed test.value) (boxed_stmt then) (boxed_stmt other)) }
{
    let stmt = TStmt::IfElse(test.start, line, Box::into_inner(test.value), then, other);
    node(alloc, stmt)
}

/// A `while`.
#[cycle(statements)]
fn while_loop(
    c: &mut Scopes,
    place: &Place<'_>,
    line: u32,
    body: &Stmt,
    e: &Expr,
) -> Result<Box<TStmt>, TypeErr>
    ensures judged { SaysBehind boxed_stmt (env_of c.new) (judged_stmt (env_of c.old) (place_of place.now) (us.while line (u.expr_of e.now) (u.stmt_of body.now))) result }
{
    let test = tested(c, e)?;
    let inside = Place {
        in_loop: true,
        breaks: true,
        ..*place
    };
    let body = statement(c, &inside, body)?;
    let stmt = TStmt::While(test.start, line, Box::into_inner(test.value), body);
    Ok(node(c.alloc, stmt)?)
}

/// A `do`, with the line of its test.
#[cycle(statements)]
fn do_loop(
    c: &mut Scopes,
    place: &Place<'_>,
    line: u32,
    body: &Stmt,
    e: &Expr,
) -> Result<Box<TStmt>, TypeErr>
    ensures judged { SaysBehind boxed_stmt (env_of c.new) (judged_stmt (env_of c.old) (place_of place.now) (us.do_while 0 (u.stmt_of body.now) line (u.expr_of e.now))) result }
{
    let inside = Place {
        in_loop: true,
        breaks: true,
        ..*place
    };
    let body = statement(c, &inside, body)?;
    let test = tested(c, e)?;
    let stmt = TStmt::Do(test.start, line, body, Box::into_inner(test.value));
    Ok(node(c.alloc, stmt)?)
}

/// A `for`, with the starts of its three parts.
#[cycle(statements)]
fn for_loop(
    c: &mut Scopes,
    place: &Place<'_>,
    line: u32,
    body: &Stmt,
    first: &Option<Expr>,
    e: &Option<Expr>,
    step: &Option<Expr>,
) -> Result<Box<TStmt>, TypeErr>
    ensures judged { SaysBehind boxed_stmt (env_of c.new) (judged_stmt (env_of c.old) (place_of place.now) (us.for line (u.part_of u.expr_of first.now) (u.part_of u.expr_of e.now) (u.part_of u.expr_of step.now) (u.stmt_of body.now))) result }
{
    let start = c.starts();
    let first = used_option(c, first)?;
    let value = scalar_option(c, 15, e)?;
    let step = used_option(c, step)?;
    c.started(3)?;
    let inside = Place {
        in_loop: true,
        breaks: true,
        ..*place
    };
    let body = statement(c, &inside, body)?;
    let (first, value, step) = (unboxed(first), unboxed(value), unboxed(step));
    let stmt = TStmt::For(start, line, first, value, step, body);
    Ok(node(c.alloc, stmt)?)
}

/// A `switch`, whose labels differ.
#[cycle(statements)]
fn switch(
    c: &mut Scopes,
    place: &Place<'_>,
    line: u32,
    parts: &[SwItem],
    e: &Expr,
) -> Result<Box<TStmt>, TypeErr>
    ensures judged { SaysBehind boxed_stmt (env_of c.new) (judged_stmt (env_of c.old) (place_of place.now) (us.switch line (u.expr_of e.now) (u.sw_items_from parts.now))) result }
{
    let start = c.starts();
    let value = integer_expr(c, 24, e)?;
    c.started(1)?;
    let inside = Place {
        breaks: true,
        ..*place
    };
    let parts = switch_parts(c, &inside, parts)?;
    if !labels_differ(c.alloc, &parts)? {
        return Err(TypeErr::Rule(24, line));
    }
    let stmt = TStmt::Switch(start, line, Box::into_inner(value), parts);
    Ok(node(c.alloc, stmt)?)
}

/// A block, behind which the names that it declares mean what they meant before.
#[cycle(statements)]
fn block(c: &mut Scopes, place: &Place<'_>, b: &Block) -> Result<TBlock, TypeErr>
    ensures judged { SaysBehind (λ x. st.block x.line (map local_decl_of x.locals.items) (stmts_from x.stmts.items) x.close_line) (env_of c.new)
        (judged_stmt (env_of c.old) (place_of place.now) (us.block b.now.line (map u.local_of b.now.decls.items) (u.stmts_from b.now.stmts.items) b.now.close_line)) result }
{
    c.enter()?;
    let locals = declarations(c, &b.decls)?;
    let stmts = statements(c, place, &b.stmts)?;
    c.leave();
    Ok(TBlock {
        line: b.line,
        locals,
        stmts,
        close_line: b.close_line,
    })
}
