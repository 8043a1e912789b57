// How deep statements and units are.
//
// A tree is deeper than a number exactly where the number is 0, or where one of its parts is deeper than the number
// before it. So no tree is walked further down than the number says.
ghost use Rattle.std.specs.Prelude.{◌≡◌, nat_lt, map};
ghost use Rattle.c_tree.specs.TreeExpr.{expr_depth, optional, deepest};
ghost use Rattle.c_tree.specs.TreeDecl.{local_depth, file_specs_depth};
ghost use Rattle.c_tree.specs.TreeStmt.{stmt_depth, stmts_depth, item_depth, items_depth, block_depth};
ghost use Rattle.c_tree.specs.TreeUnit.{ext_depth, unit_depth};
ghost use Rattle.c_tree.specs.TreeOf.{expr_of, local_of, part_of, file_specs_of, stmt_of, stmts_from, sw_item_of, sw_items_from, block_of, ext_of, unit_of};

use c_decl::{
    declr_exceeds, declrs_exceed, expr_exceeds, items_exceed, local_exceeds, optional_types_exceed,
    pars_exceed, tag_exceeds,
};
use c_tree::{Block, Expr, Ext, FileSpecs, LocalDecl, Stmt, SwItem, Unit};

fn optional_exceeds(expr: &Option<Expr>, most: u32) -> bool
    ensures { result ≡ nat_lt most (optional expr_depth (part_of expr_of expr.now)) }
{
    match expr {
        None => false,
        Some(expr) => expr_exceeds(expr, most),
    }
}

fn locals_exceed(decls: &[LocalDecl], most: u32) -> bool
    ensures { result ≡ nat_lt most (deepest local_depth (map local_of decls.now)) }
{
    for decl in decls {
        if local_exceeds(decl, most) {
            return true;
        }
    }
    false
}

#[cycle(stmts)]
fn stmts_exceed(stmts: &[Stmt], most: u32) -> bool
    ensures { result ≡ nat_lt most (stmts_depth (stmts_from stmts.now)) }
{
    for stmt in stmts {
        if stmt_exceeds(stmt, most) {
            return true;
        }
    }
    false
}

#[cycle(stmts)]
fn sw_items_exceed(parts: &[SwItem], most: u32) -> bool
    ensures { result ≡ nat_lt most (items_depth (sw_items_from parts.now)) }
{
    for part in parts {
        if sw_item_exceeds(part, most) {
            return true;
        }
    }
    false
}

#[cycle(stmts)]
fn sw_item_exceeds(part: &SwItem, most: u32) -> bool
    ensures { result ≡ nat_lt most (item_depth (sw_item_of part.now)) }
{
    if most == 0 {
        return true;
    }
    match part {
        SwItem::Case(_, e) => expr_exceeds(e, most - 1),
        SwItem::Default(_) => false,
        SwItem::Stmt(stmt) => stmt_exceeds(stmt, most - 1),
    }
}

#[cycle(stmts)]
fn block_exceeds(block: &Block, most: u32) -> bool
    ensures { result ≡ nat_lt most (block_depth (block_of block.now)) }
{
    most == 0 || locals_exceed(&block.decls, most - 1) || stmts_exceed(&block.stmts, most - 1)
}

#[cycle(stmts)]
fn stmt_exceeds(stmt: &Stmt, most: u32) -> bool
    ensures { result ≡ nat_lt most (stmt_depth (stmt_of stmt.now)) }
{
    if most == 0 {
        return true;
    }
    let left = most - 1;
    match stmt {
        Stmt::Expr(_, e) => expr_exceeds(e, left),
        Stmt::If(_, e, s) => expr_exceeds(e, left) || stmt_exceeds(s, left),
        Stmt::IfElse(_, e, s, r) => {
            expr_exceeds(e, left) || stmt_exceeds(s, left) || stmt_exceeds(r, left)
        }
        Stmt::While(_, e, s) => expr_exceeds(e, left) || stmt_exceeds(s, left),
        Stmt::Do(_, s, _, e) => stmt_exceeds(s, left) || expr_exceeds(e, left),
        Stmt::For(_, first, test, step, s) => {
            optional_exceeds(first, left)
                || optional_exceeds(test, left)
                || optional_exceeds(step, left)
                || stmt_exceeds(s, left)
        }
        Stmt::Switch(_, e, parts) => expr_exceeds(e, left) || sw_items_exceed(parts, left),
        Stmt::Return(_, e) => optional_exceeds(e, left),
        Stmt::Block(block) => block_exceeds(block, most),
        Stmt::Empty(_) | Stmt::Break(_) | Stmt::Continue(_) => false,
    }
}

fn optional_specs_exceed(specs: &Option<FileSpecs>, most: u32) -> bool
    ensures { result ≡ nat_lt most (optional file_specs_depth (part_of file_specs_of specs.now)) }
{
    match specs {
        None => false,
        Some(specs) => optional_types_exceed(&specs.types, most),
    }
}

fn ext_exceeds(ext: &Ext, most: u32) -> bool
    ensures { result ≡ nat_lt most (ext_depth (ext_of ext.now)) }
{
    if most == 0 {
        return true;
    }
    let left = most - 1;
    match ext {
        Ext::Typedef(_, types, declrs) => {
            optional_types_exceed(types, left) || declrs_exceed(declrs, left)
        }
        Ext::TagOnly(_, tag) => tag_exceeds(tag, left),
        Ext::Object(_, specs, items) => {
            optional_types_exceed(&specs.types, left) || items_exceed(items, left)
        }
        Ext::Func(_, specs, declr, pars, block) => {
            optional_specs_exceed(specs, left)
                || declr_exceeds(declr, left)
                || pars_exceed(pars, left)
                || block_exceeds(block, left)
        }
    }
}

/// Whether the unit is deeper than the number.
pub fn unit_exceeds(unit: &Unit, most: u32) -> bool
    ensures { result ≡ nat_lt most (unit_depth (unit_of unit.now)) }
{
    if most == 0 {
        return true;
    }
    for ext in &unit.exts {
        if ext_exceeds(ext, most - 1) {
            return true;
        }
    }
    false
}
