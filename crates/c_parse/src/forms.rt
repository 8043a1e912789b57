// The parts of statements that hold no other statement.
ghost use Rattle.std.specs.Prelude.{◌≡◌, Some, map};
ghost use Rattle.c_tree.specs.TreeStmt as t;
ghost use Rattle.c_tree.specs.TreeOf.{block_of, expr_of, local_of, part_of, stmt_of, stmts_from, sw_item_of, sw_items_from};
ghost use Rattle.c_expr.specs.Front as f;
ghost use Rattle.c_decl.specs.Answers.{Gives, found, rest};
ghost use Rattle.c_parse.specs.Heads.{for_head_at, head_of};
ghost use Rattle.c_parse.specs.ReadStmt as s;
ghost use Rattle.c_parse.specs.Words as w;

use crate::nodes::{ForHead, do_loop};
use crate::parts::{maybe, test};
use crate::places::{CLOSE_BRACE, CLOSE_ROUND, COLON, OPEN_BRACE, OPEN_ROUND, SEMICOLON, WHILE};
use c_decl::Reader;
use c_expr::ParseErr;
use c_tree::{Block, Expr, LocalDecl, Stmt, SwItem};

/// `e ;`, whose first token stands on the line.
pub fn expression_stmt(r: &Reader<'_>, line: u32, at: usize) -> Result<(Stmt, usize), ParseErr>
    ensures { Gives (found stmt_of r.now) result (w.behind r.now 0 line s.expr (rest r.now at)) }
{
    let (expr, behind) = r.expression(1, at)?;
    let after = r.expect(SEMICOLON, behind)?;
    Ok((Stmt::Expr(line, expr), after))
}

// In the functions below, `at` is the place behind the first token of a statement, which stands on the line.

pub fn break_stmt(r: &Reader<'_>, line: u32, at: usize) -> Result<(Stmt, usize), ParseErr>
    ensures { Gives (found stmt_of r.now) result (w.behind r.now 0 line s.break (rest r.now at)) }
{
    let after = r.expect(SEMICOLON, at)?;
    Ok((Stmt::Break(line), after))
}

pub fn continue_stmt(r: &Reader<'_>, line: u32, at: usize) -> Result<(Stmt, usize), ParseErr>
    ensures { Gives (found stmt_of r.now) result (w.behind r.now 0 line s.continue (rest r.now at)) }
{
    let after = r.expect(SEMICOLON, at)?;
    Ok((Stmt::Continue(line), after))
}

pub fn return_stmt(r: &Reader<'_>, line: u32, at: usize) -> Result<(Stmt, usize), ParseErr>
    ensures { Gives (found stmt_of r.now) result (w.behind r.now 0 line s.return (rest r.now at)) }
{
    let (value, after) = maybe(r, SEMICOLON, at)?;
    Ok((Stmt::Return(line, value), after))
}

/// `( e ) ;`
fn ended_test(r: &Reader<'_>, at: usize) -> Result<(Expr, usize), ParseErr>
    ensures { Gives (found expr_of r.now) result (f.along (w.test r.now (rest r.now at)) (λ e. f.along (f.eat SEMICOLON e.1) (λ after. Some (e.0, after)))) }
{
    let (test, end) = test(r, at)?;
    let after = r.expect(SEMICOLON, end)?;
    Ok((test, after))
}

/// What stands behind the statement of a `do`.
pub fn do_end(r: &Reader<'_>, line: u32, body: Stmt, at: usize) -> Result<(Stmt, usize), ParseErr>
    ensures { Gives (found stmt_of r.now) result (f.along (f.eat_word WHILE (rest r.now at)) (λ a. f.along (w.test r.now a) (λ e. f.along (f.eat SEMICOLON e.1) (λ b. Some (t.do_while line (stmt_of body) (f.line_at (rest r.now at)) e.0, b))))) }
{
    let Some(brackets) = r.eat_word(WHILE, at) else {
        return Err(r.refusal(at));
    };
    let (test, after) = ended_test(r, brackets)?;
    do_loop(r, line, body, r.line(at), test, after)
}

/// The last part of the head of a `for`.
fn for_step(
    r: &Reader<'_>,
    first: Option<Expr>,
    test: Option<Expr>,
    at: usize,
) -> Result<(ForHead, usize), ParseErr>
    ensures { Gives (found head_of r.now) result (f.along (w.maybe r.now CLOSE_ROUND (rest r.now at)) (λ e. Some ((part_of expr_of first, part_of expr_of test, e.0), e.1))) }
{
    let (step, after) = maybe(r, CLOSE_ROUND, at)?;
    Ok((ForHead { first, test, step }, after))
}

/// The last two parts of the head of a `for`.
fn for_test(r: &Reader<'_>, first: Option<Expr>, at: usize) -> Result<(ForHead, usize), ParseErr>
    ensures { Gives (found head_of r.now) result (f.along (w.maybe r.now SEMICOLON (rest r.now at)) (λ d. f.along (w.maybe r.now CLOSE_ROUND d.1) (λ e. Some ((part_of expr_of first, d.0, e.0), e.1)))) }
{
    let (test, after) = maybe(r, SEMICOLON, at)?;
    for_step(r, first, test, after)
}

/// The head of a `for`.
pub fn for_head(r: &Reader<'_>, at: usize) -> Result<(ForHead, usize), ParseErr>
    ensures { Gives (found head_of r.now) result (for_head_at r.now (rest r.now at)) }
{
    let inside = r.expect(OPEN_ROUND, at)?;
    let (first, after) = maybe(r, SEMICOLON, inside)?;
    for_test(r, first, after)
}

/// The value of a `switch`, and the opening brace.
pub fn switch_head(r: &Reader<'_>, at: usize) -> Result<(Expr, usize), ParseErr>
    ensures { Gives (found expr_of r.now) result (f.along (w.test r.now (rest r.now at)) (λ e. f.along (f.eat OPEN_BRACE e.1) (λ a. Some (e.0, a)))) }
{
    let (value, brace) = test(r, at)?;
    let body = r.expect(OPEN_BRACE, brace)?;
    Ok((value, body))
}

/// The closing brace of a `switch`.
pub fn switch_end(
    r: &Reader<'_>,
    line: u32,
    value: Expr,
    list: Vec<SwItem>,
    at: usize,
) -> Result<(Stmt, usize), ParseErr>
    ensures { Gives (found stmt_of r.now) result (f.along (f.eat CLOSE_BRACE (rest r.now at)) (λ after. Some (t.switch line (expr_of value) (sw_items_from list.items), after))) }
{
    let after = r.expect(CLOSE_BRACE, at)?;
    Ok((Stmt::Switch(line, value, list), after))
}

/// A `case` of a `switch`, behind its word.
pub fn case_item(r: &Reader<'_>, line: u32, at: usize) -> Result<(SwItem, usize), ParseErr>
    ensures { Gives (found sw_item_of r.now) result (f.along (w.expression r.now 1 (rest r.now at)) (λ e. f.along (f.eat COLON e.1) (λ after. Some (t.case line e.0, after)))) }
{
    let (expr, behind) = r.expression(1, at)?;
    let after = r.expect(COLON, behind)?;
    Ok((SwItem::Case(line, expr), after))
}

/// The `default` of a `switch`, behind its word.
pub fn default_item(r: &Reader<'_>, line: u32, at: usize) -> Result<(SwItem, usize), ParseErr>
    ensures { Gives (found sw_item_of r.now) result (f.along (f.eat COLON (rest r.now at)) (λ after. Some (t.default line, after))) }
{
    let after = r.expect(COLON, at)?;
    Ok((SwItem::Default(line), after))
}

/// The closing brace of a block.
pub fn block_end(
    r: &Reader<'_>,
    line: u32,
    decls: Vec<LocalDecl>,
    stmts: Vec<Stmt>,
    at: usize,
) -> Result<(Block, usize), ParseErr>
    ensures { Gives (found block_of r.now) result (f.along (f.eat CLOSE_BRACE (rest r.now at)) (λ after. Some (s.blocked line (map local_of decls.items) (stmts_from stmts.items) (f.line_at (rest r.now at)), after))) }
{
    let after = r.expect(CLOSE_BRACE, at)?;
    let block = Block {
        line,
        decls,
        stmts,
        close_line: r.line(at),
    };
    Ok((block, after))
}
