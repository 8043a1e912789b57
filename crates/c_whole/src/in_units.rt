// What a unit says.
ghost use Rattle.std.specs.Prelude.{◌≡◌, ◌++◌, IfOk, map, option_map, option_to_list};
ghost use Rattle.c_type.specs.Of.{type_of};
ghost use Rattle.std.specs.List.{flat_map};
ghost use Rattle.c_join.specs.JoinSaid as s;
ghost use Rattle.c_tree.specs.TypedOf.{begin_of, enumerator_of, spec_of, typed_item_of, par_of, func_of, ext_of, unit_of};
ghost use Rattle.c_whole.specs.Events.{events_of, mems_from, event_of};

use crate::in_exprs::{add, in_begin, in_declr, in_declrs, in_option};
use crate::in_stmts::{in_locals, in_stmts, of_function};
use crate::said::{Event, Said, Whose};
use c_tree::{Bound, TEnumerator, TExt, TFunc, TItem, TMembers, TParDecl, TSpec, TypedUnit};
use std::alloc::{AllocError, Global};

fn in_enumerators<'a>(
    enumerators: &'a [TEnumerator],
    out: &mut Vec<Event<'a>>,
) -> Result<(), AllocError>
    ensures added { IfOk result (λ _. events_of out.new.items ≡ events_of out.old.items ++ flat_map s.in_enumerator (map enumerator_of enumerators.now)) }
{
    for enumerator in enumerators {
        in_option(&enumerator.expr, out)?;
    }
    Ok(())
}

#[cycle(in_specs)]
fn in_mems<'a>(mems: &'a [TMembers], out: &mut Vec<Event<'a>>) -> Result<(), AllocError>
    ensures added { IfOk result (λ _. events_of out.new.items ≡ events_of out.old.items ++ s.in_mems (mems_from mems.now)) }
{
    for mem in mems {
        in_spec(&mem.spec, out)?;
        in_declrs(&mem.declrs, out)?;
    }
    Ok(())
}

#[cycle(in_specs)]
fn in_spec<'a>(spec: &'a TSpec, out: &mut Vec<Event<'a>>) -> Result<(), AllocError>
    ensures added { IfOk result (λ _. events_of out.new.items ≡ events_of out.old.items ++ s.in_spec (spec_of spec.now)) }
{
    match spec {
        TSpec::Plain(_) => Ok(()),
        TSpec::Struct(_, mems) => in_mems(mems, out),
        TSpec::Enum(_, enumerators) => in_enumerators(enumerators, out),
    }
}

/// What a declarator at file level says of its own name, if that is external or a function's.
fn said(item: &TItem) -> Option<Event<'_>>
    ensures { option_to_list (option_map event_of result) ≡ s.said item.now.bound item.now.declr.name (type_of item.now.declr.ty) (begin_of item.now.init) }
{
    let name = item.declr.name.as_slice();
    let ty = &item.declr.ty;
    let (about, says) = match item.bound {
        Bound::Own(_) => return None,
        Bound::Outside if item.init.is_some() => (Whose::External(name), Said::Begun(ty)),
        Bound::Outside => (Whose::External(name), Said::Common(ty)),
        Bound::Elsewhere | Bound::OutsideFunction => (Whose::External(name), Said::Declared(ty)),
        Bound::OwnFunction => (Whose::Hidden(name), Said::Declared(ty)),
    };
    Some(Event { about, says })
}

fn in_item<'a>(item: &'a TItem, out: &mut Vec<Event<'a>>) -> Result<(), AllocError>
    ensures added { IfOk result (λ _. events_of out.new.items ≡ events_of out.old.items ++ s.in_item (typed_item_of item.now)) }
{
    add(said(item), out)?;
    in_declr(&item.declr, out)?;
    in_begin(&item.init, out)
}

fn in_file_items<'a>(items: &'a [TItem], out: &mut Vec<Event<'a>>) -> Result<(), AllocError>
    ensures added { IfOk result (λ _. events_of out.new.items ≡ events_of out.old.items ++ flat_map s.in_item (map typed_item_of items.now)) }
{
    for item in items {
        in_item(item, out)?;
    }
    Ok(())
}

/// The declarations of parameters.
fn in_pars<'a>(pars: &'a [TParDecl], out: &mut Vec<Event<'a>>) -> Result<(), AllocError>
    ensures added { IfOk result (λ _. events_of out.new.items ≡ events_of out.old.items ++ flat_map s.in_pars (map par_of pars.now)) }
{
    for par in pars {
        in_spec(&par.spec, out)?;
        in_declrs(&par.declrs, out)?;
    }
    Ok(())
}

/// The function's own name.
fn defined(func: &TFunc) -> Event<'_>
    ensures { event_of result ≡ s.defined (func_of func.now) }
{
    Event {
        about: of_function(func.is_static, func.name.as_slice()),
        says: Said::Defined(&func.result, &func.params),
    }
}

fn in_func<'a>(func: &'a TFunc, out: &mut Vec<Event<'a>>) -> Result<(), AllocError>
    ensures added { IfOk result (λ _. events_of out.new.items ≡ events_of out.old.items ++ s.in_func (func_of func.now)) }
{
    add(Some(defined(func)), out)?;
    in_pars(&func.declared, out)?;
    in_locals(&func.body.locals, out)?;
    in_stmts(&func.body.stmts, out)
}

fn in_ext<'a>(ext: &'a TExt, out: &mut Vec<Event<'a>>) -> Result<(), AllocError>
    ensures added { IfOk result (λ _. events_of out.new.items ≡ events_of out.old.items ++ s.in_ext (ext_of ext.now)) }
{
    match ext {
        TExt::Typedef(spec, declrs) => {
            in_spec(spec, out)?;
            in_declrs(declrs, out)
        }
        TExt::TagOnly(spec) => in_spec(spec, out),
        TExt::Object(spec, items) => {
            in_spec(spec, out)?;
            in_file_items(items, out)
        }
        TExt::Func(spec, func) => {
            in_spec(spec, out)?;
            in_func(func, out)
        }
    }
}

/// What the unit says, in textual order.
pub fn events(alloc: Global, unit: &TypedUnit) -> Result<Vec<Event<'_>>, AllocError>
    ensures events { IfOk result (λ v. events_of v.items ≡ s.events (unit_of unit.now)) }
{
    let mut out = Vec::new(alloc);
    for ext in &unit.exts {
        in_ext(ext, &mut out)?;
    }
    Ok(out)
}
