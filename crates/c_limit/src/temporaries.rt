// The temporaries that expressions and bodies need.
ghost use Rattle.std.specs.Prelude.{◌≡◌, map};
ghost use Rattle.c_tree.specs.TypedOf.{ref_of, expr_of, declr_of, init_of, begin_of, local_of};
ghost use Rattle.c_limit.specs.Temporaries as s;
ghost use Rattle.c_limit.specs.Of.{args_from, inits_from, body_part_of, parts_of};

use crate::parts::Part;
use c_tree::{Ref, TExpr, TInit, TLocal};

/// Whether a call of the expression is one by a function's name.
fn is_by_name(called: &TExpr) -> bool
    ensures { result ≡ s.is_by_name (expr_of called.now) }
{
    matches!(called, TExpr::Name(_, Ref::Func(_) | Ref::Outer(_)))
}

/// The greatest of the arguments' number and, for each of them, of its temporaries with those before it kept.
#[cycle(temporaries)]
fn in_args(args: &[TExpr]) -> u64
    ensures { result ≡ s.counted (s.of_args 0 (args_from args.now)) }
{
    let mut most: u64 = 0;
    for (i, arg) in args.iter().enumerate() {
        most = most.max(temporaries(arg).saturating_add(i as u64));
    }
    most.max(args.len() as u64)
}

/// The number of temporaries that an expression needs, at most 18446744073709551615.
#[cycle(temporaries)]
pub fn temporaries(expr: &TExpr) -> u64
    ensures { result ≡ s.counted (s.temporaries (expr_of expr.now)) }
{
    match expr {
        TExpr::Name(_, _)
        | TExpr::Int(_, _)
        | TExpr::Text(_, _)
        | TExpr::SizeOf(_)
        | TExpr::SizeOfType(_) => 0,
        TExpr::Unary(_, _, a)
        | TExpr::Deref(_, a)
        | TExpr::Address(_, a)
        | TExpr::Step(_, _, a)
        | TExpr::Cast(_, a)
        | TExpr::Convert(_, a)
        | TExpr::Decay(_, a)
        | TExpr::Designate(_, a)
        | TExpr::Member(_, a, _)
        | TExpr::Arrow(_, a, _) => temporaries(a),
        TExpr::Both(a, b) | TExpr::Either(a, b) | TExpr::Comma(_, a, b) => {
            temporaries(a).max(temporaries(b))
        }
        TExpr::Binary(_, _, a, b)
        | TExpr::Assign(_, a, b)
        | TExpr::Update(_, _, _, a, b)
        | TExpr::Index(_, a, b) => temporaries(a).max(temporaries(b).saturating_add(1)),
        TExpr::Choice(_, test, a, b) => {
            temporaries(test).max(temporaries(a).max(temporaries(b)))
        }
        TExpr::Call(_, called, args) => {
            let of_args = in_args(args);
            if is_by_name(called) {
                of_args
            } else {
                temporaries(called).max(of_args.saturating_add(1))
            }
        }
    }
}

/// The greatest over expressions.
fn in_exprs(exprs: &[TExpr]) -> u64
    ensures { result ≡ s.counted (s.of_list (map expr_of exprs.now)) }
{
    let mut most: u64 = 0;
    for expr in exprs {
        most = most.max(temporaries(expr));
    }
    most
}

#[cycle(in_init)]
fn in_inits(inits: &[TInit]) -> u64
    ensures { result ≡ s.counted (s.of_inits (inits_from inits.now)) }
{
    let mut most: u64 = 0;
    for init in inits {
        most = most.max(in_init(init));
    }
    most
}

#[cycle(in_init)]
fn in_init(init: &TInit) -> u64
    ensures { result ≡ s.counted (s.of_init (init_of init.now)) }
{
    match init {
        TInit::Single(expr) => temporaries(expr),
        TInit::Bytes(_) => 0,
        TInit::Group(inits) => in_inits(inits),
    }
}

/// A declarator of a block: its dimensions and its initialiser.
fn in_local(local: &TLocal) -> u64
    ensures { result ≡ s.counted (s.of_local (local_of local.now)) }
{
    match local {
        TLocal::Auto(declr, _) | TLocal::Extern(declr) | TLocal::Function(declr, _) => {
            in_exprs(&declr.dims)
        }
        TLocal::AutoInit(declr, _, _, _, init) => in_exprs(&declr.dims).max(temporaries(init)),
        TLocal::Static(declr, _, Some(init)) => in_exprs(&declr.dims).max(in_init(init)),
        TLocal::Static(declr, _, None) => in_exprs(&declr.dims),
    }
}

/// The number of temporaries that the parts of a function's body need, at most 18446744073709551615.
pub fn temporaries_of_parts(parts: &[Part<'_>]) -> u64
    ensures { result ≡ s.counted (s.of_parts (parts_of parts.now)) }
{
    let mut most: u64 = 0;
    for part in parts {
        let needed = match part {
            Part::Declares(local) => in_local(local),
            Part::Evaluates(expr) => temporaries(expr),
        };
        most = most.max(needed);
    }
    most
}
