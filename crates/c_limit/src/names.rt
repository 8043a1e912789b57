// The declared names and the tags of a unit with their types.
ghost use Rattle.std.specs.Prelude.{◌≡◌, ◌++◌, ◌∷◌, IfOk, map};
ghost use Rattle.std.specs.List.{flat_map, filter_map};
ghost use Rattle.c_type.specs.Names.{at_or};
ghost use Rattle.c_type.specs.Sizes.{no_tag};
ghost use Rattle.c_type.specs.Of.{tags_of};
ghost use Rattle.c_tree.specs.TypedOf.{declr_of, local_of, spec_of, typed_item_of, par_of, func_of, ext_of, unit_of};
ghost use Rattle.c_limit.specs.Names as s;
ghost use Rattle.c_limit.specs.Parts.{local_in};
ghost use Rattle.c_limit.specs.Of.{parts_of, mems_from, all_named_of};

use crate::parts::{Part, parts};
use c_tree::{TDeclr, TExt, TFunc, TItem, TLocal, TMembers, TParDecl, TSpec, TypedUnit};
use c_type::{CType, Tags};
use std::alloc::{AllocError, Global};

/// The type of a declared name: the one given, a parameter's of that type, a function's that returns it, or a tag.
#[derive(Clone, Copy, Drop)]
pub enum NamedType<'a> {
    Whole(&'a CType),
    Parameter(&'a CType),
    Function(&'a CType),
    Struct(u32),
    Enum(u32),
}

/// A declared name, or a tag's, which is empty where it has none.
#[derive(Clone, Copy, Drop)]
pub struct Named<'a> {
    pub name: &'a [u8],
    pub ty: NamedType<'a>,
}

fn tag_name(tags: &Tags, tag: u32) -> &[u8]
    ensures { result.now ≡ (at_or no_tag (tags_of tags.now) tag).name }
{
    match tags.list.get(tag as usize) {
        Some(tag) => tag.name.as_slice(),
        None => &[],
    }
}

fn add_declrs<'a>(declrs: &'a [TDeclr], out: &mut Vec<Named<'a>>) -> Result<(), AllocError>
    ensures added { IfOk result (λ _. all_named_of out.new.items ≡ all_named_of out.old.items ++ map s.of_declr (map declr_of declrs.now)) }
{
    for declr in declrs {
        out.push(Named {
            name: declr.name.as_slice(),
            ty: NamedType::Whole(&declr.ty),
        })?;
    }
    Ok(())
}

fn add_parameters<'a>(declrs: &'a [TDeclr], out: &mut Vec<Named<'a>>) -> Result<(), AllocError>
    ensures added { IfOk result (λ _. all_named_of out.new.items ≡ all_named_of out.old.items ++ map s.of_parameter (map declr_of declrs.now)) }
{
    for declr in declrs {
        out.push(Named {
            name: declr.name.as_slice(),
            ty: NamedType::Parameter(&declr.ty),
        })?;
    }
    Ok(())
}

#[cycle(add_specs)]
fn add_mems<'a>(
    mems: &'a [TMembers],
    tags: &'a Tags,
    out: &mut Vec<Named<'a>>,
) -> Result<(), AllocError>
    ensures added { IfOk result (λ _. all_named_of out.new.items ≡ all_named_of out.old.items ++ s.named_mems (tags_of tags.now) (mems_from mems.now)) }
{
    for mem in mems {
        add_spec(&mem.spec, tags, out)?;
        add_declrs(&mem.declrs, out)?;
    }
    Ok(())
}

#[cycle(add_specs)]
fn add_spec<'a>(spec: &'a TSpec, tags: &'a Tags, out: &mut Vec<Named<'a>>) -> Result<(), AllocError>
    ensures added { IfOk result (λ _. all_named_of out.new.items ≡ all_named_of out.old.items ++ s.named_spec (tags_of tags.now) (spec_of spec.now)) }
{
    match spec {
        TSpec::Plain(_) => {}
        TSpec::Struct(tag, mems) => {
            add_mems(mems, tags, out)?;
            out.push(Named {
                name: tag_name(tags, *tag),
                ty: NamedType::Struct(*tag),
            })?
        }
        TSpec::Enum(tag, _) => out.push(Named {
            name: tag_name(tags, *tag),
            ty: NamedType::Enum(*tag),
        })?,
    }
    Ok(())
}

fn add_items<'a>(items: &'a [TItem], out: &mut Vec<Named<'a>>) -> Result<(), AllocError>
    ensures added { IfOk result (λ _. all_named_of out.new.items ≡ all_named_of out.old.items ++ map (λ i. s.of_declr i.declr) (map typed_item_of items.now)) }
{
    for item in items {
        out.push(Named {
            name: item.declr.name.as_slice(),
            ty: NamedType::Whole(&item.declr.ty),
        })?;
    }
    Ok(())
}

fn add_pars<'a>(
    pars: &'a [TParDecl],
    tags: &'a Tags,
    out: &mut Vec<Named<'a>>,
) -> Result<(), AllocError>
    ensures added { IfOk result (λ _. all_named_of out.new.items ≡ all_named_of out.old.items ++ flat_map (s.named_pars (tags_of tags.now)) (map par_of pars.now)) }
{
    for par in pars {
        add_spec(&par.spec, tags, out)?;
        add_parameters(&par.declrs, out)?;
    }
    Ok(())
}

fn local_declr(local: &TLocal) -> &TDeclr
    ensures { s.of_declr (declr_of result.now) ≡ s.named_local (local_of local.now) }
{
    match local {
        TLocal::Auto(declr, _)
        | TLocal::AutoInit(declr, _, _, _, _)
        | TLocal::Static(declr, _, _)
        | TLocal::Extern(declr)
        | TLocal::Function(declr, _) => declr,
    }
}

fn add_locals<'a>(parts: &[Part<'a>], out: &mut Vec<Named<'a>>) -> Result<(), AllocError>
    ensures added { IfOk result (λ _. all_named_of out.new.items ≡ all_named_of out.old.items ++ map s.named_local (filter_map local_in (parts_of parts.now))) }
{
    for part in parts {
        if let Part::Declares(local) = *part {
            let declr = local_declr(local);
            out.push(Named {
                name: declr.name.as_slice(),
                ty: NamedType::Whole(&declr.ty),
            })?;
        }
    }
    Ok(())
}

fn add_ext<'a>(
    alloc: Global,
    ext: &'a TExt,
    tags: &'a Tags,
    out: &mut Vec<Named<'a>>,
) -> Result<(), AllocError>
    ensures added { IfOk result (λ _. all_named_of out.new.items ≡ all_named_of out.old.items ++ s.named_ext (tags_of tags.now) (ext_of ext.now)) }
{
    match ext {
        TExt::Typedef(spec, declrs) => {
            add_spec(spec, tags, out)?;
            add_declrs(declrs, out)?
        }
        TExt::TagOnly(spec) => add_spec(spec, tags, out)?,
        TExt::Object(spec, items) => {
            add_spec(spec, tags, out)?;
            add_items(items, out)?
        }
        TExt::Func(spec, func) => {
            add_spec(spec, tags, out)?;
            add_func(alloc, func, tags, out)?
        }
    }
    Ok(())
}

/// A function's name, its parameters and what its body declares.
fn add_func<'a>(
    alloc: Global,
    func: &'a TFunc,
    tags: &'a Tags,
    out: &mut Vec<Named<'a>>,
) -> Result<(), AllocError>
    ensures added { IfOk result (λ _. all_named_of out.new.items ≡ all_named_of out.old.items ++ s.named_func (tags_of tags.now) (func_of func.now)) }
{
    out.push(Named {
        name: func.name.as_slice(),
        ty: NamedType::Function(&func.result),
    })?;
    add_pars(&func.declared, tags, out)?;
    let parts = parts(alloc, func)?;
    add_locals(&parts, out)?;
    Ok(())
}

/// The declared names of a unit, and its tags at their closing braces, in textual order.
pub fn declared_names(alloc: Global, unit: &TypedUnit) -> Result<Vec<Named<'_>>, AllocError>
    ensures { IfOk result (λ v. all_named_of v.items ≡ s.declared_names (unit_of unit.now)) }
{
    let mut out = Vec::new(alloc);
    for ext in &unit.exts {
        add_ext(alloc, ext, &unit.tags, &mut out)?;
    }
    Ok(out)
}
