// What expressions, declarators and initialisers say.
ghost use Rattle.std.specs.Prelude.{◌≡◌, ◌++◌, IfOk, map, option_map, option_to_list};
ghost use Rattle.std.specs.List.{flat_map};
ghost use Rattle.c_type.specs.Of.{type_of};
ghost use Rattle.c_join.specs.JoinSaid as s;
ghost use Rattle.c_tree.specs.TypedOf.{ref_of, expr_of, option_of, declr_of, init_of, begin_of};
ghost use Rattle.c_whole.specs.Events.{event_of, events_of, args_from, inits_from};

use crate::said::{Event, Said, Whose};
use c_tree::{Ref, TDeclr, TExpr, TInit};
use c_type::CType;
use std::alloc::AllocError;

/// What a use of a reference says, if it is external or a function.
fn of_ref<'a>(ty: &'a CType, to: &'a Ref) -> Option<Event<'a>>
    ensures { option_to_list (option_map event_of result) ≡ s.in_ref (type_of ty.now) (ref_of to.now) }
{
    let (about, says) = match to {
        Ref::Ext(name) => (Whose::External(name.as_slice()), Said::Used),
        Ref::Func(k) => (Whose::Own(*k), Said::Named(ty)),
        Ref::Outer(name) => (Whose::Outer(name.as_slice()), Said::Named(ty)),
        Ref::Local(_) | Ref::Param(_) | Ref::Static(_) | Ref::Const(_) => return None,
    };
    Some(Event { about, says })
}

/// What a call says, if it is one by name.
fn of_call<'a>(called: &'a TExpr, args: &'a [TExpr]) -> Option<Event<'a>>
    ensures { option_to_list (option_map event_of result) ≡ s.of_call (expr_of called.now) (args_from args.now) }
{
    let TExpr::Name(_, to) = called else {
        return None;
    };
    let about = match to {
        Ref::Func(k) => Whose::Own(*k),
        Ref::Outer(name) => Whose::Outer(name.as_slice()),
        _ => return None,
    };
    Some(Event {
        about,
        says: Said::Called(args),
    })
}

/// Adds what is said, if anything is.
pub fn add<'a>(event: Option<Event<'a>>, out: &mut Vec<Event<'a>>) -> Result<(), AllocError>
    ensures added { IfOk result (λ _. events_of out.new.items ≡ events_of out.old.items ++ option_to_list (option_map event_of event.entry)) }
{
    if let Some(event) = event {
        out.push(event)?;
    }
    Ok(())
}

#[cycle(in_exprs)]
pub fn in_args<'a>(args: &'a [TExpr], out: &mut Vec<Event<'a>>) -> Result<(), AllocError>
    ensures added { IfOk result (λ _. events_of out.new.items ≡ events_of out.old.items ++ s.in_args (args_from args.now)) }
{
    for arg in args {
        in_expr(arg, out)?;
    }
    Ok(())
}

#[cycle(in_exprs)]
pub fn in_expr<'a>(expr: &'a TExpr, out: &mut Vec<Event<'a>>) -> Result<(), AllocError>
    ensures added { IfOk result (λ _. events_of out.new.items ≡ events_of out.old.items ++ s.in_expr (expr_of expr.now)) }
{
    match expr {
        TExpr::Name(ty, to) => add(of_ref(ty, to), out),
        TExpr::Int(_, _) | TExpr::Text(_, _) | TExpr::SizeOfType(_) => Ok(()),
        TExpr::Unary(_, _, a)
        | TExpr::Deref(_, a)
        | TExpr::Address(_, a)
        | TExpr::Step(_, _, a)
        | TExpr::SizeOf(a)
        | TExpr::Cast(_, a)
        | TExpr::Convert(_, a)
        | TExpr::Decay(_, a)
        | TExpr::Designate(_, a)
        | TExpr::Member(_, a, _)
        | TExpr::Arrow(_, a, _) => in_expr(a, out),
        TExpr::Binary(_, _, a, b)
        | TExpr::Both(a, b)
        | TExpr::Either(a, b)
        | TExpr::Comma(_, a, b)
        | TExpr::Assign(_, a, b)
        | TExpr::Update(_, _, _, a, b)
        | TExpr::Index(_, a, b) => {
            in_expr(a, out)?;
            in_expr(b, out)
        }
        TExpr::Choice(_, test, a, b) => {
            in_expr(test, out)?;
            in_expr(a, out)?;
            in_expr(b, out)
        }
        TExpr::Call(_, called, args) => {
            in_expr(called, out)?;
            add(of_call(called, args), out)?;
            in_args(args, out)
        }
    }
}

pub fn in_option<'a>(expr: &'a Option<TExpr>, out: &mut Vec<Event<'a>>) -> Result<(), AllocError>
    ensures added { IfOk result (λ _. events_of out.new.items ≡ events_of out.old.items ++ s.in_option (option_of expr.now)) }
{
    match expr {
        Some(expr) => in_expr(expr, out),
        None => Ok(()),
    }
}

/// The dimensions of a declarator.
pub fn in_declr<'a>(declr: &'a TDeclr, out: &mut Vec<Event<'a>>) -> Result<(), AllocError>
    ensures added { IfOk result (λ _. events_of out.new.items ≡ events_of out.old.items ++ s.in_declr (declr_of declr.now)) }
{
    for dim in &declr.dims {
        in_expr(dim, out)?;
    }
    Ok(())
}

pub fn in_declrs<'a>(declrs: &'a [TDeclr], out: &mut Vec<Event<'a>>) -> Result<(), AllocError>
    ensures added { IfOk result (λ _. events_of out.new.items ≡ events_of out.old.items ++ flat_map s.in_declr (map declr_of declrs.now)) }
{
    for declr in declrs {
        in_declr(declr, out)?;
    }
    Ok(())
}

#[cycle(in_inits)]
fn in_inits<'a>(inits: &'a [TInit], out: &mut Vec<Event<'a>>) -> Result<(), AllocError>
    ensures added { IfOk result (λ _. events_of out.new.items ≡ events_of out.old.items ++ s.in_inits (inits_from inits.now)) }
{
    for init in inits {
        in_init(init, out)?;
    }
    Ok(())
}

#[cycle(in_inits)]
fn in_init<'a>(init: &'a TInit, out: &mut Vec<Event<'a>>) -> Result<(), AllocError>
    ensures added { IfOk result (λ _. events_of out.new.items ≡ events_of out.old.items ++ s.in_init (init_of init.now)) }
{
    match init {
        TInit::Single(expr) => in_expr(expr, out),
        TInit::Bytes(_) => Ok(()),
        TInit::Group(inits) => in_inits(inits, out),
    }
}

/// An initialiser that may be left out.
pub fn in_begin<'a>(init: &'a Option<TInit>, out: &mut Vec<Event<'a>>) -> Result<(), AllocError>
    ensures added { IfOk result (λ _. events_of out.new.items ≡ events_of out.old.items ++ s.in_begin (begin_of init.now)) }
{
    match init {
        Some(init) => in_init(init, out),
        None => Ok(()),
    }
}
