// The tags and the function bodies that a unit defines.
ghost use Rattle.std.specs.Prelude.{◌≡◌, ◌++◌, [], OnOk, IfOk, map};
ghost use Rattle.std.specs.List.{flat_map};
ghost use Rattle.c_type.specs.Names.{or_default};
ghost use Rattle.c_tree.specs.TreeOf as u;
ghost use Rattle.c_rule.specs.RuleNames as n;
ghost use Rattle.c_rule.specs.RuleStmts.{is_static as is_static_rule};
ghost use Rattle.c_tree.specs.TreeDecl.{declared as declared_name};
ghost use Rattle.c_scope.specs.EnvOf.{heads_of, bodies_of};

use crate::bodies::Bodies;
use crate::heads::Heads;
use crate::types::copy_name;
use c_tree::{Declr, Ext, FileSpecs, Mem, ParDecl, Storage, TagDef, TagSpec, Types, Unit};
use c_type::TagKind;
use num_le::Name;
use std::alloc::{AllocError, Global};

/// The name that a declarator declares.
pub fn declared(declr: &Declr) -> &Name
    ensures value { result.now ≡ declared_name (u.declr_of declr.now) }
{
    match declr {
        Declr::Pointer(_, inner) | Declr::Array(_, inner, _) | Declr::Function(_, inner, _) => {
            declared(inner)
        }
        Declr::Name(_, name) => name,
    }
}

fn name_or_none(alloc: Global, name: &Option<Name>) -> Result<Name, AllocError>
    ensures value { IfOk result (λ x. x ≡ or_default [] name.now) }
{
    match name {
        Some(name) => copy_name(alloc, name),
        None => Name::of(alloc, b""),
    }
}

#[cycle(tags_in)]
fn in_types(alloc: Global, heads: &mut Heads, types: &Types) -> Result<(), AllocError>
    ensures added { OnOk result (heads_of heads.new ≡ heads_of heads.old ++ n.tags_in_types (u.types_of types.now)) }
{
    match types {
        Types::Spec(_) => Ok(()),
        Types::Def(def) => in_def(alloc, heads, def),
    }
}

#[cycle(tags_in)]
fn in_def(alloc: Global, heads: &mut Heads, def: &TagDef) -> Result<(), AllocError>
    ensures added { OnOk result (heads_of heads.new ≡ heads_of heads.old ++ n.tags_in_def (u.def_of def.now)) }
{
    match def {
        TagDef::Struct(line, name, mems) => {
            in_mems(alloc, heads, mems)?;
            heads.add(name_or_none(alloc, name)?, TagKind::Struct, *line)?;
            Ok(())
        }
        TagDef::Union(line, name, mems) => {
            in_mems(alloc, heads, mems)?;
            heads.add(name_or_none(alloc, name)?, TagKind::Union, *line)?;
            Ok(())
        }
        TagDef::Enum(line, name, _) => {
            heads.add(name_or_none(alloc, name)?, TagKind::Enum, *line)
        }
    }
}

#[cycle(tags_in)]
fn in_mems(alloc: Global, heads: &mut Heads, mems: &[Mem]) -> Result<(), AllocError>
    ensures added { OnOk result (heads_of heads.new ≡ heads_of heads.old ++ n.tags_in_mems (u.mems_from mems.now)) }
{
    for mem in mems {
        in_types(alloc, heads, &mem.types)?;
    }
    Ok(())
}

fn in_option(alloc: Global, heads: &mut Heads, types: &Option<Types>) -> Result<(), AllocError>
    ensures added { OnOk result (heads_of heads.new ≡ heads_of heads.old ++ n.tags_in_option (u.part_of u.types_of types.now)) }
{
    match types {
        Some(types) => in_types(alloc, heads, types),
        None => Ok(()),
    }
}

fn in_specs(alloc: Global, heads: &mut Heads, specs: &Option<FileSpecs>) -> Result<(), AllocError>
    ensures added { OnOk result (heads_of heads.new ≡ heads_of heads.old ++ n.tags_in_option (n.types_of (u.part_of u.file_specs_of specs.now))) }
{
    match specs {
        Some(specs) => in_option(alloc, heads, &specs.types),
        None => Ok(()),
    }
}

fn in_params(alloc: Global, heads: &mut Heads, params: &[ParDecl]) -> Result<(), AllocError>
    ensures added { OnOk result (heads_of heads.new ≡ heads_of heads.old ++ flat_map (λ p. n.tags_in_types p.types) (map u.par_of params.now)) }
{
    for param in params {
        in_types(alloc, heads, &param.types)?;
    }
    Ok(())
}

fn in_ext(alloc: Global, heads: &mut Heads, ext: &Ext) -> Result<(), AllocError>
    ensures added { OnOk result (heads_of heads.new ≡ heads_of heads.old ++ n.tags_in_ext (u.ext_of ext.now)) }
{
    match ext {
        Ext::Typedef(_, types, _) => in_option(alloc, heads, types),
        Ext::TagOnly(_, TagSpec::Ref(_)) => Ok(()),
        Ext::TagOnly(_, TagSpec::Def(def)) => in_def(alloc, heads, def),
        Ext::Object(_, specs, _) => in_option(alloc, heads, &specs.types),
        Ext::Func(_, specs, _, params, _) => {
            in_specs(alloc, heads, specs)?;
            in_params(alloc, heads, params)
        }
    }
}

/// Whether a function's head has the word `static`.
pub fn is_static_function(specs: &Option<FileSpecs>) -> bool
    ensures value { result ≡ is_static_rule (n.storage_of (u.part_of u.file_specs_of specs.now)) }
{
    match specs {
        Some(specs) => matches!(specs.storage, Some(Storage::Static)),
        None => false,
    }
}

fn body_in(alloc: Global, bodies: &mut Bodies, ext: &Ext) -> Result<(), AllocError>
    ensures added { OnOk result (bodies_of bodies.new ≡ bodies_of bodies.old ++ n.body_in_ext (u.ext_of ext.now)) }
{
    match ext {
        Ext::Func(_, specs, declr, _, _) => {
            bodies.add(
                copy_name(alloc, declared(declr))?,
                is_static_function(specs),
            )
        }
        _ => Ok(()),
    }
}

/// The tags that a unit defines, in the order of their closing braces.
pub fn heads_in(alloc: Global, unit: &Unit) -> Result<Heads, AllocError>
    ensures value { IfOk result (λ x. heads_of x ≡ n.tags_in (u.unit_of unit.now)) }
{
    let mut heads = Heads::new(alloc);
    for ext in &unit.exts {
        in_ext(alloc, &mut heads, ext)?;
    }
    Ok(heads)
}

/// The function bodies of a unit, in textual order.
pub fn bodies_in(alloc: Global, unit: &Unit) -> Result<Bodies, AllocError>
    ensures value { IfOk result (λ x. bodies_of x ≡ n.bodies_in (u.unit_of unit.now)) }
{
    let mut bodies = Bodies::new(alloc);
    for ext in &unit.exts {
        body_in(alloc, &mut bodies, ext)?;
    }
    Ok(bodies)
}
