// The code of a function of the small form, and of what calls it.
ghost use Rattle.std.specs.Prelude.{◌≡◌, ◌+◌, ◌*◌, ◌≤◌, ◌∷◌, [], ◌++◌, ℕ, IfOk, length, true, false, map};
ghost use Rattle.std.specs.List.{flat_map};
ghost use Rattle.c_tree.specs.Bodies.{autos_local, autos};
ghost use Rattle.c_run.specs.Context.{Linked};
ghost use Rattle.c_tree.specs.TStmt.{locals};
ghost use Rattle.c_tree.specs.TypedOf.{local_of, local_decl_of, func_of};
ghost use Rattle.c_run.specs.Values.{Body};
ghost use Rattle.gen_small.specs.Items as s;
ghost use Rattle.gen_small.specs.Code as c;
ghost use Rattle.gen_small.specs.Whole.{IsFormMain};

use crate::code_list::{Code, Item, Label};
use crate::operands::below;
use crate::registers::{EAX, EBP, ECX, EDI, ESP};
use crate::stmt_code::push_stmts;
use c_tree::{TFunc, TLocal, TLocalDecl};
use isa386::{ArithOp, Dest, Ins, Opnd, PlainOp, StackOp, StringOp, Way};
use std::alloc::AllocError;

// How many automatic objects a declarator makes: one or none.
fn objects_of(local: &TLocal) -> u32
    ensures count { result ≡ length (autos_local (local_of local.now)) }
{
    match local {
        TLocal::Auto(..) | TLocal::AutoInit(..) => 1,
        TLocal::Static(..) | TLocal::Extern(_) | TLocal::Function(..) => 0,
    }
}

fn objects_in(decl: &TLocalDecl) -> u32
    requires few { length (flat_map autos_local (local_decl_of decl.now).items) ≤ 1048576 }
    ensures count { result ≡ length (flat_map autos_local (local_decl_of decl.now).items) }
{
    let mut count = 0;
    for local in &decl.items {
        count += objects_of(local);
    }
    count
}

/// The number of automatic objects that declarations make.
pub(crate) fn objects(decls: &[TLocalDecl]) -> u32
    requires few { length (flat_map autos_local (locals (map local_decl_of decls.now))) ≤ 1048576 }
    ensures count { result ≡ length (flat_map autos_local (locals (map local_decl_of decls.now))) }
{
    let mut count = 0;
    for decl in decls {
        count += objects_in(decl);
    }
    count
}

/// Appends the code that calls the function, and exits with its value.
pub(crate) fn push_start(code: &mut Code) -> Result<(), AllocError>
    ensures kept { code.new.frame ≡ code.old.frame }
    ensures added { IfOk result (λ _. code.new.items ≡ code.old.items ++ c.start_code code.old.frame.fun) }
{
    code.push(Item::CallTo(Label::Entry))?;
    code.push_all(&[
        Ins::Stack(StackOp::Push(EAX)),
        Ins::Stack(StackOp::PushImm(0)),
        Ins::MoveImm(Dest::Register(EAX), 1),
        Ins::Lcall,
    ])
}

// The frame of the function is made.
fn push_entry(code: &mut Code) -> Result<(), AllocError>
    requires few_objects { code.old.frame.objects ≤ 1048576 }
    ensures kept { code.new.frame ≡ code.old.frame }
    ensures added { IfOk result (λ _. code.new.items ≡ code.old.items ++ c.entered code.old.frame.fun (4 * code.old.frame.objects + 256)) }
{
    let size = 4 * code.frame().objects + 256;
    code.push(Item::Label(Label::Entry))?;
    code.push_all(&[
        Ins::Stack(StackOp::Push(EBP)),
        Ins::Move(Way::ToOperand, ESP, Opnd::Reg(EBP)),
        Ins::ArithImm(ArithOp::Sub, Opnd::Reg(ESP), size),
    ])
}

// The automatic objects become zero.
fn push_zeros(code: &mut Code) -> Result<(), AllocError>
    requires few_objects { code.old.frame.objects ≤ 1048576 }
    ensures kept { code.new.frame ≡ code.old.frame }
    ensures added { IfOk result (λ _. code.new.items ≡ code.old.items ++ c.zero_code (4 * code.old.frame.objects) (4 * code.old.frame.objects)) }
{
    let size = 4 * code.frame().objects;
    if size == 0 {
        return Ok(());
    }
    code.push_all(&[
        Ins::Lea(EDI, below(size)),
        Ins::MoveImm(Dest::Register(ECX), size),
        Ins::MoveImm(Dest::Register(EAX), 0),
        Ins::Str(StringOp::RepStosb),
    ])
}

// The function's value is 0 where none was returned, and its frame is left.
fn push_close(code: &mut Code, close: u32) -> Result<(), AllocError>
    ensures kept { code.new.frame ≡ code.old.frame }
    ensures added { IfOk result (λ _. code.new.items ≡ code.old.items ++ c.closed code.old.frame.fun close) }
{
    code.push(Item::Op(Ins::MoveImm(Dest::Register(EAX), 0)))?;
    code.push(Item::Label(Label::Close))?;
    code.push(Item::Start(close))?;
    code.push_all(&[Ins::Plain(PlainOp::Leave), Ins::Plain(PlainOp::Ret)])
}

/// Appends the code of a function of the form.
pub(crate) fn push_function(code: &mut Code, func: &TFunc) -> Result<(), AllocError>
    requires main { IsFormMain (func_of func.now) }
    requires objects { code.old.frame.objects ≡ length (autos (func_of func.now)) }
    ensures kept { code.new.frame ≡ code.old.frame }
    ensures added { (w : Linked) (unit : ℕ) → IfOk result (λ _. code.new.items ≡ code.old.items ++ c.func_code (record { whole = w; fun = code.old.frame.fun; body = record { unit = unit; func = func_of func.now } })) }
{
    push_entry(code)?;
    push_zeros(code)?;
    code.push(Item::Open(func.open))?;
    push_stmts(code, &func.body.stmts)?;
    push_close(code, func.close)
}
