// Statements.
ghost use Rattle.std.specs.Prelude.{◌≡◌, ◌+◌, Some, length};
ghost use Rattle.c_tree.specs.TreeStmt as t;
ghost use Rattle.c_tree.specs.TreeOf.{block_of, expr_of, stmt_of, stmts_from, sw_item_of, sw_items_from};
ghost use Rattle.c_expr.specs.Front as f;
ghost use Rattle.c_decl.specs.Answers.{Gives, found, rest};
ghost use Rattle.c_parse.specs.ReadStmt as s;
ghost use Rattle.c_parse.specs.Words as w;

use crate::forms::{
    block_end, break_stmt, case_item, continue_stmt, default_item, do_end, expression_stmt,
    for_head, return_stmt, switch_end, switch_head,
};
use crate::nodes::{for_loop, if_else, if_only, while_loop};
use crate::parts::{locals, test};
use crate::places::{
    BREAK, CASE, CLOSE_BRACE, CONTINUE, DEFAULT, DO, ELSE, FOR, IF, OPEN_BRACE, RETURN, SEMICOLON,
    SWITCH, WHILE,
};
use c_decl::Reader;
use c_expr::ParseErr;
use c_lex::Tok;
use c_tree::{Block, Expr, Stmt, SwItem};

// In the functions below, `at` is the place behind the first token of a statement, which stands on the line.

#[cycle(stmts)]
fn if_stmt(r: &Reader<'_>, depth: u32, line: u32, at: usize) -> Result<(Stmt, usize), ParseErr>
    ensures { Gives (found stmt_of r.now) result (w.behind r.now depth line s.if (rest r.now at)) }
{
    let (test, body) = test(r, at)?;
    let (yes, behind) = stmt(r, depth, body)?;
    match r.eat_word(ELSE, behind) {
        Some(other) => else_stmt(r, depth, line, test, yes, other),
        None => if_only(r, line, test, yes, behind),
    }
}

/// What stands behind `else`.
#[cycle(stmts)]
fn else_stmt(
    r: &Reader<'_>,
    depth: u32,
    line: u32,
    test: Expr,
    yes: Stmt,
    at: usize,
) -> Result<(Stmt, usize), ParseErr>
    ensures { Gives (found stmt_of r.now) result (f.along (w.stmt r.now depth (rest r.now at)) (λ x. Some (t.if_else line (expr_of test) (stmt_of yes) x.0, x.1))) }
{
    let (other, after) = stmt(r, depth, at)?;
    if_else(r, line, test, yes, other, after)
}

#[cycle(stmts)]
fn while_stmt(r: &Reader<'_>, depth: u32, line: u32, at: usize) -> Result<(Stmt, usize), ParseErr>
    ensures { Gives (found stmt_of r.now) result (w.behind r.now depth line s.while (rest r.now at)) }
{
    let (test, body) = test(r, at)?;
    let (stmt, after) = stmt(r, depth, body)?;
    while_loop(r, line, test, stmt, after)
}

#[cycle(stmts)]
fn do_stmt(r: &Reader<'_>, depth: u32, line: u32, at: usize) -> Result<(Stmt, usize), ParseErr>
    ensures { Gives (found stmt_of r.now) result (w.behind r.now depth line s.do_while (rest r.now at)) }
{
    let (stmt, behind) = stmt(r, depth, at)?;
    do_end(r, line, stmt, behind)
}

#[cycle(stmts)]
fn for_stmt(r: &Reader<'_>, depth: u32, line: u32, at: usize) -> Result<(Stmt, usize), ParseErr>
    ensures { Gives (found stmt_of r.now) result (w.behind r.now depth line s.for (rest r.now at)) }
{
    let (head, body) = for_head(r, at)?;
    let (stmt, after) = stmt(r, depth, body)?;
    for_loop(r, line, head, stmt, after)
}

#[cycle(stmts)]
fn switch_stmt(r: &Reader<'_>, depth: u32, line: u32, at: usize) -> Result<(Stmt, usize), ParseErr>
    ensures { Gives (found stmt_of r.now) result (w.behind r.now depth line s.switch (rest r.now at)) }
{
    let (value, body) = switch_head(r, at)?;
    let (list, close) = items(r, depth, body)?;
    switch_end(r, line, value, list, close)
}

/// A part of the body of a `switch`.
#[cycle(stmts)]
fn item(r: &Reader<'_>, depth: u32, at: usize) -> Result<(SwItem, usize), ParseErr>
    ensures { Gives (found sw_item_of r.now) result (w.item r.now depth (rest r.now at)) }
{
    let line = r.line(at);
    if let Some(value) = r.eat_word(CASE, at) {
        return case_item(r, line, value);
    }
    if let Some(behind) = r.eat_word(DEFAULT, at) {
        return default_item(r, line, behind);
    }
    let (stmt, after) = stmt(r, depth, at)?;
    Ok((SwItem::Stmt(stmt), after))
}

/// The body of a `switch` up to its closing brace.
#[cycle(stmts)]
#[tactic(auto, unfolding(crate::specs::ReadStmt::items))]
fn items(r: &Reader<'_>, depth: u32, at: usize) -> Result<(Vec<SwItem>, usize), ParseErr>
    ensures { Gives (found (λ v. sw_items_from v.items) r.now) result (w.items r.now depth (length (rest r.now at) + 1) (rest r.now at)) }
{
    let mut list = Vec::new(r.alloc);
    let mut next = at;
    for _turn in 0..r.left(at) + 1 {
        if r.eat(CLOSE_BRACE, next).is_some() {
            return Ok((list, next));
        }
        let (item, behind) = item(r, depth, next)?;
        list.push(item)?;
        next = behind;
    }
    Err(r.refusal(at))
}

/// The statements of a block up to its closing brace.
#[cycle(stmts)]
#[tactic(auto, unfolding(crate::specs::ReadStmt::stmts))]
fn stmts(r: &Reader<'_>, depth: u32, at: usize) -> Result<(Vec<Stmt>, usize), ParseErr>
    ensures { Gives (found (λ v. stmts_from v.items) r.now) result (w.stmts r.now depth (length (rest r.now at) + 1) (rest r.now at)) }
{
    let mut list = Vec::new(r.alloc);
    let mut next = at;
    for _turn in 0..r.left(at) + 1 {
        if r.eat(CLOSE_BRACE, next).is_some() {
            return Ok((list, next));
        }
        let (stmt, behind) = stmt(r, depth, next)?;
        list.push(stmt)?;
        next = behind;
    }
    Err(r.refusal(at))
}

/// A block behind its opening brace, which stands on the line, up to and with its closing brace.
///
/// Statements in it stand at most `depth` deep in one another.
#[cycle(stmts)]
pub fn block(r: &Reader<'_>, depth: u32, line: u32, at: usize) -> Result<(Block, usize), ParseErr>
    ensures { Gives (found block_of r.now) result (w.block r.now depth line (rest r.now at)) }
{
    let (decls, behind) = locals(r, at)?;
    let (stmts, close) = stmts(r, depth, behind)?;
    block_end(r, line, decls, stmts, close)
}

#[cycle(stmts)]
fn block_stmt(r: &Reader<'_>, depth: u32, line: u32, at: usize) -> Result<(Stmt, usize), ParseErr>
    ensures { Gives (found stmt_of r.now) result (w.behind r.now depth line s.block (rest r.now at)) }
{
    let (block, after) = block(r, depth, line, at)?;
    Ok((Stmt::Block(block), after))
}

/// A statement, in which others stand less than `depth` deep in one another.
#[cycle(stmts)]
#[tactic(auto, unfolding(crate::specs::ReadStmt::stmt))]
fn stmt(r: &Reader<'_>, depth: u32, at: usize) -> Result<(Stmt, usize), ParseErr>
    ensures { Gives (found stmt_of r.now) result (w.stmt r.now depth (rest r.now at)) }
{
    let Some(token) = r.token(at) else {
        return Err(r.refusal(at));
    };
    if depth == 0 {
        return Err(r.refusal(at));
    }
    let inner = depth - 1;
    let line = token.line;
    let after = at + 1;
    match token.kind {
        Tok::Word(IF) => if_stmt(r, inner, line, after),
        Tok::Word(WHILE) => while_stmt(r, inner, line, after),
        Tok::Word(DO) => do_stmt(r, inner, line, after),
        Tok::Word(FOR) => for_stmt(r, inner, line, after),
        Tok::Word(SWITCH) => switch_stmt(r, inner, line, after),
        Tok::Word(BREAK) => break_stmt(r, line, after),
        Tok::Word(CONTINUE) => continue_stmt(r, line, after),
        Tok::Word(RETURN) => return_stmt(r, line, after),
        Tok::Mark(SEMICOLON) => Ok((Stmt::Empty(line), after)),
        Tok::Mark(OPEN_BRACE) => block_stmt(r, inner, line, after),
        _ => expression_stmt(r, line, at),
    }
}
