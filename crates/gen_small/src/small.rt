// The text of a program of the small form.
ghost use Rattle.std.specs.Prelude.{◌≡◌, ℕ, IfOk};
ghost use Rattle.c_run.specs.Context.{Linked};
ghost use Rattle.c_tree.specs.TypedOf.{func_of};
ghost use Rattle.gen_small.specs.Whole.{IsFormMain, whole_code, text_of};

use crate::code_list::{Code, IntFrame};
use crate::emit::text;
use crate::func_code::{objects, push_function, push_start};
use c_tree::TFunc;
use std::alloc::{AllocError, Global};

// Main is called, and behind that it stands.
fn small_code(alloc: Global, fun: u32, main: &TFunc) -> Result<Code, AllocError>
    requires form { IsFormMain (func_of main.now) }
    ensures code { (w : Linked) (unit : ℕ) → IfOk result (λ c. c.items ≡ whole_code w fun (record { unit = unit; func = func_of main.now })) }
{
    let frame = IntFrame {
        fun,
        objects: objects(&main.body.locals),
    };
    let mut code = Code::new(alloc, frame);
    push_start(&mut code)?;
    push_function(&mut code, main)?;
    Ok(code)
}

/// The bytes of .text of a program of the small form, whose main is body `fun` of the program. They
/// stand from 0x00010000 on, and the first of them are executed first. The time is linear in the
/// size of main and in the number of its last start.
pub fn small_text(alloc: Global, fun: u32, main: &TFunc) -> Result<Vec<u8>, AllocError>
    requires form { IsFormMain (func_of main.now) }
    ensures bytes { (w : Linked) (unit : ℕ) → IfOk result (λ v. v.items ≡ text_of w fun (record { unit = unit; func = func_of main.now })) }
{
    let code = small_code(alloc, fun, main)?;
    text(alloc, &code)
}
