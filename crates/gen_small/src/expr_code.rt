// The code of expressions of the small form.
ghost use Rattle.std.specs.Prelude.{suc, ◌≡◌, ◌+◌, ◌≤◌, ◌<◌, ◌∷◌, [], ◌++◌, IfOk};
ghost use Rattle.c_tree.specs.TExpr.{Local};
ghost use Rattle.c_tree.specs.TypedOf.{expr_of};
ghost use Rattle.gen_small.specs.Items.{Op};
ghost use Rattle.gen_small.specs.Code as c;
ghost use Rattle.gen_small.specs.Small.{IsSum, IsVariable, IsSmall};
ghost use Rattle.gen_small.specs.Forms.{AreThere};
ghost use Rattle.gen_small.specs.Listed.{int_site};

use crate::code_list::{Code, IntFrame, Item};
use crate::operands::{below, load, store};
use crate::registers::{EAX, ECX, ESP};
use c_tree::{Ref, TBinary, TExpr};
use isa386::{ArithOp, Dest, Dw, Ins, Opnd, StackOp, Way, WidenOp};
use std::alloc::AllocError;

// The byte that was pushed first, behind the four words of the call.
const STACKED_BYTE: Opnd = Opnd::Mem {
    base: Some(ESP),
    index: Some((ESP, 0)),
    disp: 16,
    width: Dw::D32,
};

// Where an automatic object stands.
#[tactic(auto, using(crate::proofs::IntSites::object_depth))]
fn object(frame: IntFrame, number: u32) -> Opnd
    requires there { number < frame.objects }
    requires few { frame.objects ≤ 1048576 }
    ensures operand { result ≡ c.below (c.local_depth (int_site frame) number) }
{
    below(4 * (number + 1))
}

// Where a temporary stands.
fn temporary(frame: IntFrame, number: u32) -> Opnd
    requires few_objects { frame.objects ≤ 1048576 }
    requires few { number < 64 }
    ensures operand { result ≡ c.below (c.temp_depth (int_site frame) number) }
{
    below(4 * frame.objects + 4 * (number + 1))
}

// The left operand is in %eax, the right one in %ecx.
fn operator(op: TBinary) -> Ins
    requires sum { IsSum op }
    ensures code { Op result ∷ [] ≡ c.operator op }
{
    match op {
        TBinary::Add => Ins::ArithTo(ArithOp::Add, ECX, Opnd::Reg(EAX)),
        _ => Ins::ArithTo(ArithOp::Sub, ECX, Opnd::Reg(EAX)),
    }
}

// The left operand is kept in a temporary, and the right one is in %eax: they come into their places, and are joined.
fn push_operator(code: &mut Code, op: TBinary, number: u32) -> Result<(), AllocError>
    requires few_objects { code.old.frame.objects ≤ 1048576 }
    requires few { number < 64 }
    requires sum { IsSum op }
    ensures kept { code.new.frame ≡ code.old.frame }
    ensures added { IfOk result (λ _. code.new.items ≡ code.old.items ++ c.joined (int_site code.old.frame) number op) }
{
    let temporary = temporary(code.frame(), number);
    code.push(Item::Op(Ins::Move(Way::ToOperand, EAX, Opnd::Reg(ECX))))?;
    code.push(Item::Op(load(temporary)))?;
    code.push(Item::Op(operator(op)))
}

// write(1, the lowest byte of %eax, 1) over the stack; %eax becomes that byte.
fn push_put(code: &mut Code) -> Result<(), AllocError>
    ensures kept { code.new.frame ≡ code.old.frame }
    ensures added { IfOk result (λ _. code.new.items ≡ code.old.items ++ c.put_code) }
{
    code.push_all(&[
        Ins::Stack(StackOp::Push(EAX)),
        Ins::Move(Way::ToOperand, ESP, Opnd::Reg(EAX)),
        Ins::Stack(StackOp::PushImm(1)),
        Ins::Stack(StackOp::Push(EAX)),
        Ins::Stack(StackOp::PushImm(1)),
        Ins::Stack(StackOp::PushImm(0)),
        Ins::MoveImm(Dest::Register(EAX), 4),
        Ins::Lcall,
        Ins::Widen(WidenOp::ZeroByte, EAX, STACKED_BYTE),
        Ins::ArithImm(ArithOp::Add, Opnd::Reg(ESP), 20),
    ])
}

// Loads a variable into %eax.
fn push_load(code: &mut Code, variable: &TExpr) -> Result<(), AllocError>
    requires few_objects { code.old.frame.objects ≤ 1048576 }
    requires variable { IsVariable (expr_of variable.now) }
    requires there { AreThere code.old.frame.objects (expr_of variable.now) }
    ensures kept { code.new.frame ≡ code.old.frame }
    ensures added { IfOk result (λ _. code.new.items ≡ code.old.items ++ c.load_from (c.target_of (int_site code.old.frame) (expr_of variable.now))) }
{
    match variable {
        TExpr::Name(_, Ref::Local(number)) => {
            let object = object(code.frame(), *number);
            code.push(Item::Op(load(object)))
        }
        _ => unreachable!(),
    }
}

// Stores %eax into a variable.
fn push_store(code: &mut Code, target: &TExpr) -> Result<(), AllocError>
    requires few_objects { code.old.frame.objects ≤ 1048576 }
    requires variable { IsVariable (expr_of target.now) }
    requires there { AreThere code.old.frame.objects (expr_of target.now) }
    ensures kept { code.new.frame ≡ code.old.frame }
    ensures added { IfOk result (λ _. code.new.items ≡ code.old.items ++ c.store_to (c.target_of (int_site code.old.frame) (expr_of target.now))) }
{
    match target {
        TExpr::Name(_, Ref::Local(number)) => {
            let object = object(code.frame(), *number);
            code.push(Item::Op(store(object)))
        }
        _ => unreachable!(),
    }
}

// Keeps the left operand in a temporary, and joins the right one to it.
#[cycle(expression)]
fn push_right(code: &mut Code, op: TBinary, right: &TExpr, depth: u32) -> Result<(), AllocError>
    requires few_objects { code.old.frame.objects ≤ 1048576 }
    requires sum { IsSum op }
    requires small { IsSmall (expr_of right.now) }
    requires there { AreThere code.old.frame.objects (expr_of right.now) }
    requires few { depth + 1 + c.temps (expr_of right.now) ≤ 64 }
    ensures kept { code.new.frame ≡ code.old.frame }
    ensures added { IfOk result (λ _. code.new.items ≡ code.old.items ++ (c.kept (int_site code.old.frame) depth ∷ (c.expr_code (int_site code.old.frame) (expr_of right.now) (suc depth) ++ c.joined (int_site code.old.frame) depth op))) }
{
    let temporary = temporary(code.frame(), depth);
    code.push(Item::Op(store(temporary)))?;
    push_expr(code, right, depth + 1)?;
    push_operator(code, op, depth)
}

/// Appends the code of an expression, which leaves its value in %eax. `depth` is the number of
/// temporaries in use.
#[cycle(expression)]
pub(crate) fn push_expr(code: &mut Code, expr: &TExpr, depth: u32) -> Result<(), AllocError>
    requires few_objects { code.old.frame.objects ≤ 1048576 }
    requires small { IsSmall (expr_of expr.now) }
    requires there { AreThere code.old.frame.objects (expr_of expr.now) }
    requires few { depth + c.temps (expr_of expr.now) ≤ 64 }
    ensures kept { code.new.frame ≡ code.old.frame }
    ensures added { IfOk result (λ _. code.new.items ≡ code.old.items ++ c.expr_code (int_site code.old.frame) (expr_of expr.now) depth) }
{
    match expr {
        TExpr::Name(..) => push_load(code, expr),
        TExpr::Int(_, number) => code.push(Item::Op(Ins::MoveImm(Dest::Register(EAX), *number))),
        TExpr::Convert(_, operand) => push_expr(code, operand, depth),
        TExpr::Binary(_, op, left, right) => {
            push_expr(code, left, depth)?;
            push_right(code, *op, right, depth)
        }
        TExpr::Assign(_, target, value) => {
            push_expr(code, value, depth)?;
            push_store(code, target)
        }
        TExpr::Call(_, _, args) => match args.first() {
            Some(arg) => {
                push_expr(code, arg, depth)?;
                push_put(code)
            }
            None => unreachable!(),
        },
        _ => unreachable!(),
    }
}
