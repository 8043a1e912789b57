// The code of statements and functions of the small form.
ghost use Rattle.std.specs.Prelude.{◌≡◌, ◌≤◌, ◌∷◌, [], ◌++◌, IfOk};
ghost use Rattle.c_tree.specs.TypedOf.{expr_of, option_of, stmt_of, stmts_from};
ghost use Rattle.c_tree.specs.TStmt.{return_};
ghost use Rattle.gen_small.specs.Items as s;
ghost use Rattle.gen_small.specs.Code as c;
ghost use Rattle.gen_small.specs.Forms.{IsForm, IsFormStmt, IsFormStmts};
ghost use Rattle.gen_small.specs.Listed.{int_site};

use crate::code_list::{Code, Item, Label};
use crate::expr_code::push_expr;
use crate::registers::EAX;
use c_tree::{TExpr, TStmt};
use isa386::{Cond, Ins, Opnd};
use std::alloc::AllocError;

// A start, and the value of its expression in %eax.
fn push_value(code: &mut Code, start: u32, value: &TExpr) -> Result<(), AllocError>
    requires few_objects { code.old.frame.objects ≤ 1048576 }
    requires form { IsForm code.old.frame.objects (expr_of value.now) }
    ensures kept { code.new.frame ≡ code.old.frame }
    ensures added { IfOk result (λ _. code.new.items ≡ code.old.items ++ (s.Start start ∷ c.expr_code (int_site code.old.frame) (expr_of value.now) 0)) }
{
    code.push(Item::Start(start))?;
    push_expr(code, value, 0)
}

// Goes to the end of the loop where the value in %eax is 0.
fn push_test(code: &mut Code, start: u32) -> Result<(), AllocError>
    ensures kept { code.new.frame ≡ code.old.frame }
    ensures added { IfOk result (λ _. code.new.items ≡ code.old.items ++ c.tested code.old.frame.fun start) }
{
    code.push(Item::Op(Ins::Test(EAX, Opnd::Reg(EAX))))?;
    code.push(Item::If(Cond::Equal, Label::End(start)))
}

// The end of a loop: it goes on with its test.
fn push_again(code: &mut Code, start: u32) -> Result<(), AllocError>
    ensures kept { code.new.frame ≡ code.old.frame }
    ensures added { IfOk result (λ _. code.new.items ≡ code.old.items ++ c.again code.old.frame.fun start) }
{
    code.push(Item::Goto(Label::Top(start)))?;
    code.push(Item::Label(Label::End(start)))
}

// The begin of a loop up to its body.
fn push_loop(code: &mut Code, start: u32, test: &TExpr) -> Result<(), AllocError>
    requires few_objects { code.old.frame.objects ≤ 1048576 }
    requires form { IsForm code.old.frame.objects (expr_of test.now) }
    ensures kept { code.new.frame ≡ code.old.frame }
    ensures added { IfOk result (λ _. code.new.items ≡ code.old.items ++ (s.Label (s.Top code.old.frame.fun start) ∷ s.Start start ∷ (c.expr_code (int_site code.old.frame) (expr_of test.now) 0 ++ c.tested code.old.frame.fun start))) }
{
    code.push(Item::Label(Label::Top(start)))?;
    push_value(code, start, test)?;
    push_test(code, start)
}

// A return with a value.
fn push_return(code: &mut Code, start: u32, value: &Option<TExpr>) -> Result<(), AllocError>
    requires few_objects { code.old.frame.objects ≤ 1048576 }
    requires form { IsFormStmt code.old.frame.objects (return_ start 0 (option_of value.now)) }
    ensures kept { code.new.frame ≡ code.old.frame }
    ensures added { IfOk result (λ _. code.new.items ≡ code.old.items ++ (s.Start start ∷ (c.value_code (int_site code.old.frame) (option_of value.now) ++ (s.Goto (s.Close code.old.frame.fun) ∷ [])))) }
{
    match value {
        Some(value) => push_value(code, start, value)?,
        None => unreachable!(),
    }
    code.push(Item::Goto(Label::Close))
}

/// Appends the code of statements.
#[cycle(statements)]
pub(crate) fn push_stmts(code: &mut Code, stmts: &[TStmt]) -> Result<(), AllocError>
    requires few_objects { code.old.frame.objects ≤ 1048576 }
    requires form { IsFormStmts code.old.frame.objects (stmts_from stmts.now) }
    ensures kept { code.new.frame ≡ code.old.frame }
    ensures added { IfOk result (λ _. code.new.items ≡ code.old.items ++ c.stmts_code (int_site code.old.frame) (stmts_from stmts.now)) }
{
    for stmt in stmts {
        push_stmt(code, stmt)?;
    }
    Ok(())
}

#[cycle(statements)]
fn push_stmt(code: &mut Code, stmt: &TStmt) -> Result<(), AllocError>
    requires few_objects { code.old.frame.objects ≤ 1048576 }
    requires form { IsFormStmt code.old.frame.objects (stmt_of stmt.now) }
    ensures kept { code.new.frame ≡ code.old.frame }
    ensures added { IfOk result (λ _. code.new.items ≡ code.old.items ++ c.stmt_code (int_site code.old.frame) (stmt_of stmt.now)) }
{
    match stmt {
        TStmt::Expr(start, _, value) => push_value(code, *start, value),
        TStmt::While(start, _, test, body) => {
            push_loop(code, *start, test)?;
            push_stmt(code, body)?;
            push_again(code, *start)
        }
        TStmt::Return(start, _, value) => push_return(code, *start, value),
        TStmt::Block(block) => push_stmts(code, &block.stmts),
        _ => unreachable!(),
    }
}
