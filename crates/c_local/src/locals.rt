// Declarations in blocks.
ghost use Rattle.std.specs.Prelude.{◌≡◌, map, IfOk, Some, true, false};
ghost use Rattle.std.specs.Option.{option_map};
ghost use Rattle.c_type.specs.Of.{type_of};
ghost use Rattle.c_tree.specs.declared.decl.Storage.TheVariants.{Extern};
ghost use Rattle.c_tree.specs.TreeDecl.{single};
ghost use Rattle.c_tree.specs.TreeOf as u;
ghost use Rattle.c_tree.specs.TypedOf.{local_of, local_decl_of, ref_of};
ghost use Rattle.c_rule.specs.RuleScope.{Thing, in_scope};
ghost use Rattle.c_rule.specs.RuleTypes.{is_function as is_function_rule};
ghost use Rattle.c_rule.specs.RuleDecls as d;
ghost use Rattle.c_rule.specs.RuleStmts as s;
ghost use Rattle.c_local.specs.Boxed.{boxed_declr};
ghost use Rattle.c_local.specs.Here.{external_type, is_external as is_external_rule, judged_decl_here, judged_item_here};
ghost use Rattle.c_scope.specs.Entries.{meaning_of};
ghost use Rattle.c_rule.specs.Judging.{declared_here, judged_auto, judged_decls, judged_local, judged_locals, judged_static};
ghost use Rattle.c_scope.specs.EnvOf.{env_of};
ghost use Rattle.c_scope.specs.Says.{Says, SaysBehind};

use crate::declarators::{declarator, line_of};
use crate::initialisers::{auto_init, begin};
use c_scope::{
    Meaning, Scopes, TypeErr, copy, copy_name, is_function, is_sized, joined, spec_or_int,
};
use c_tree::{Expr, Init, Item, LocalDecl, Ref, Storage, TDeclr, TLocal, TLocalDecl};
use c_type::CType;
use std::alloc::AllocError;

/// Whether the storage word is `static`.
pub fn is_static(storage: Option<Storage>) -> bool
    ensures { result ≡ s.is_static storage }
{
    matches!(storage, Some(Storage::Static))
}

/// Whether the storage word is `extern`.
fn is_extern(storage: Option<Storage>) -> bool
    ensures { result ≡ s.is_extern storage }
{
    matches!(storage, Some(Storage::Extern))
}

/// Declares an object in the innermost block.
fn declare_object(c: &mut Scopes, line: u32, declr: &TDeclr, bound: Ref) -> Result<(), TypeErr>
    ensures judged { Says (λ _. env_of c.new) (declared_here (env_of c.old) declr.now.name (Thing (ref_of bound) (type_of declr.now.ty))) result }
{
    let alloc = c.alloc;
    let name = copy_name(alloc, &declr.name)?;
    let ty = copy(alloc, &declr.ty)?;
    c.declare_here(line, name, Meaning::Thing(bound, ty))
}

/// An automatic object, which may have an initialiser. It may name the object.
#[tactic(auto, using(crate::proofs::Objects::init_passed))]
fn auto_object(
    c: &mut Scopes,
    line: u32,
    declr: Box<TDeclr>,
    start: &Option<Init>,
) -> Result<TLocal, TypeErr>
    ensures judged { SaysBehind local_of (env_of c.new) (judged_auto (env_of c.old) line (boxed_declr declr) (u.part_of u.init_of start.now)) result }
{
    if !is_sized(c.tags(), &declr.ty) {
        return Err(TypeErr::Rule(3, line));
    }
    let number = c.autos();
    let next_start = c.starts();
    declare_object(c, line, &declr, Ref::Local(number))?;
    let Some(start) = start else {
        c.next_auto()?;
        return Ok(TLocal::Auto(Box::into_inner(declr), number));
    };
    let value = auto_init(c, line, &declr.ty, start)?;
    c.next_auto()?;
    c.started(1)?;
    Ok(TLocal::AutoInit(
        Box::into_inner(declr),
        number,
        next_start,
        line,
        Box::into_inner(value),
    ))
}

/// A static object, whose initialiser may name it.
fn static_object(
    c: &mut Scopes,
    line: u32,
    declr: Box<TDeclr>,
    start: &Option<Init>,
) -> Result<TLocal, TypeErr>
    ensures judged { SaysBehind local_of (env_of c.new) (judged_static (env_of c.old) (boxed_declr declr) (u.part_of u.init_of start.now)) result }
{
    if !is_sized(c.tags(), &declr.ty) {
        return Err(TypeErr::Rule(3, line));
    }
    let number = c.statics();
    let next = number.checked_add(1).ok_or(AllocError)?;
    declare_object(c, line, &declr, Ref::Static(number))?;
    let typed = begin(c, &declr.ty, start)?;
    c.set_statics(next);
    Ok(TLocal::Static(Box::into_inner(declr), number, typed))
}

/// Whether a name is bound to an external object.
fn is_external(bound: &Ref) -> bool
    ensures { result ≡ is_external_rule (ref_of bound.now) }
{
    matches!(bound, Ref::Ext(_))
}

/// The type of a name that means an external object.
fn external_type_of(meaning: &Meaning) -> Option<&CType>
    ensures value { option_map (λ t. type_of t.now) result ≡ external_type (meaning_of meaning.now) }
{
    match meaning {
        Meaning::Thing(bound, ty) => { if is_external(bound) { Some(ty) } else { None } }
        _ => None,
    }
}

/// The type that a declaration in a block gives an external object: its own, with the dimension that the file gave where
/// its own is missing.
#[tactic(auto, using(crate::proofs::Objects::earlier_external, crate::proofs::Objects::earlier_other))]
fn with_earlier(c: &Scopes, declr: &TDeclr) -> Result<CType, AllocError>
    ensures { IfOk result (λ x. type_of x ≡ s.with_earlier (in_scope declr.now.name (env_of c.now).file) (type_of declr.now.ty)) }
{
    let alloc = c.alloc;
    let Some(meaning) = c.in_file(declr.name.as_slice()) else {
        return copy(alloc, &declr.ty);
    };
    let Some(earlier) = external_type_of(meaning) else {
        return copy(alloc, &declr.ty);
    };
    match joined(alloc, earlier, &declr.ty)? {
        Some(ty) => Ok(ty),
        None => copy(alloc, &declr.ty),
    }
}

/// An external object, which has no initialiser.
fn external(
    c: &mut Scopes,
    line: u32,
    declr: Box<TDeclr>,
    start: &Option<Init>,
) -> Result<TLocal, TypeErr>
    ensures judged { SaysBehind local_of (env_of c.new) (judged_local false (Some Extern) (env_of c.old) line (boxed_declr declr) (u.part_of u.init_of start.now)) result }
{
    let None = start else {
        return Err(TypeErr::Rule(11, line));
    };
    let alloc = c.alloc;
    let name = copy_name(alloc, &declr.name)?;
    let bound = Ref::Ext(copy_name(alloc, &declr.name)?);
    let ty = with_earlier(c, &declr)?;
    c.declare_here(line, name, Meaning::Thing(bound, ty))?;
    Ok(TLocal::Extern(Box::into_inner(declr)))
}

/// A function, which has no initialiser.
fn function(
    c: &mut Scopes,
    storage: Option<Storage>,
    line: u32,
    declr: Box<TDeclr>,
    start: &Option<Init>,
) -> Result<TLocal, TypeErr>
    ensures judged { SaysBehind local_of (env_of c.new) (judged_local true storage (env_of c.old) line (boxed_declr declr) (u.part_of u.init_of start.now)) result }
{
    let None = start else {
        return Err(TypeErr::Rule(11, line));
    };
    let own = is_static(storage);
    let alloc = c.alloc;
    let name = copy_name(alloc, &declr.name)?;
    let bound = c.function_ref(own, declr.name.as_slice())?;
    let ty = copy(alloc, &declr.ty)?;
    c.declare_here(line, name, Meaning::Function(own, bound, ty))?;
    Ok(TLocal::Function(Box::into_inner(declr), own))
}

/// A declarator of a block, by its type and its storage word.
fn local(
    c: &mut Scopes,
    storage: Option<Storage>,
    line: u32,
    declr: Box<TDeclr>,
    start: &Option<Init>,
) -> Result<TLocal, TypeErr>
    ensures judged { SaysBehind local_of (env_of c.new) (judged_local (is_function_rule (type_of declr.value.ty)) storage (env_of c.old) line (boxed_declr declr) (u.part_of u.init_of start.now)) result }
{
    if is_function(&declr.ty) {
        return function(c, storage, line, declr, start);
    }
    match storage {
        Some(Storage::Extern) => external(c, line, declr, start),
        Some(Storage::Static) => static_object(c, line, declr, start),
        Some(Storage::Auto | Storage::Register) | None => auto_object(c, line, declr, start),
    }
}

/// The number that a text gives to a missing dimension, which its zero byte counts in.
fn text_size(e: &Expr) -> Result<Option<u32>, AllocError>
    ensures { IfOk result (λ x. x ≡ d.given_by (Some (single (u.expr_of e.now)))) }
{
    match e {
        Expr::Text(_, bytes) => {
            let length = u32::try_from(bytes.as_slice().len()).map_err(|_| AllocError)?;
            Ok(Some(length.checked_add(1).ok_or(AllocError)?))
        }
        _ => Ok(None),
    }
}

/// The number that an initialiser gives to a missing dimension.
#[tactic(auto, using(crate::proofs::Objects::none_given, crate::proofs::Objects::some_given))]
fn given_by(init: &Init) -> Result<Option<u32>, AllocError>
    ensures { IfOk result (λ x. x ≡ d.given_by (Some (u.init_of init.now))) }
{
    match init {
        Init::Single(e) => text_size(e),
        Init::Group(_, inits) => {
            let count = u32::try_from(inits.len()).map_err(|_| AllocError)?;
            if count == 0 {
                return Ok(None);
            }
            Ok(Some(count))
        }
    }
}

/// The number that a missing dimension has, where it may be missing.
pub fn missing(storage: Option<Storage>, start: &Option<Init>) -> Result<Option<u32>, AllocError>
    ensures { IfOk result (λ x. x ≡ s.missing storage (u.part_of u.init_of start.now)) }
{
    if is_extern(storage) {
        return Ok(Some(0));
    }
    match start {
        Some(init) => given_by(init),
        None => Ok(None),
    }
}

/// A declarator of a block with its initialiser.
fn item(
    c: &mut Scopes,
    storage: Option<Storage>,
    base: &CType,
    item: &Item,
) -> Result<TLocal, TypeErr>
    ensures judged { SaysBehind local_of (env_of c.new) (judged_item_here (env_of c.old) storage (type_of base.now) (u.item_of item.now)) result }
{
    let dimension = missing(storage, &item.init)?;
    let typed = declarator(c, dimension, base, &item.declr)?;
    local(c, storage, line_of(&item.declr), typed, &item.init)
}

/// The declarators of a declaration, each in the scope of those before it.
fn items(
    c: &mut Scopes,
    storage: Option<Storage>,
    base: &CType,
    items: &[Item],
) -> Result<Vec<TLocal>, TypeErr>
    ensures judged { SaysBehind (λ x. map local_of x.items) (env_of c.new) (judged_locals (env_of c.old) storage (type_of base.now) (map u.item_of items.now)) result }
{
    let mut typed = Vec::new(c.alloc);
    for one in items {
        let local = item(c, storage, base, one)?;
        typed.push(local)?;
    }
    Ok(typed)
}

/// A declaration of a block.
fn declaration(c: &mut Scopes, decl: &LocalDecl) -> Result<TLocalDecl, TypeErr>
    ensures judged { SaysBehind local_decl_of (env_of c.new) (judged_decl_here (env_of c.old) (u.local_of decl.now)) result }
{
    let base = Box::new(c.alloc, spec_or_int(c, decl.line, &decl.specs.types)?)?;
    let items = items(c, decl.specs.storage, &base, &decl.items)?;
    Ok(TLocalDecl { items })
}

/// The declarations of a block, each in the scope of those before it.
pub fn declarations(c: &mut Scopes, decls: &[LocalDecl]) -> Result<Vec<TLocalDecl>, TypeErr>
    ensures judged { SaysBehind (λ x. map local_decl_of x.items) (env_of c.new) (judged_decls (env_of c.old) (map u.local_of decls.now)) result }
{
    let mut typed = Vec::new(c.alloc);
    for decl in decls {
        let one = declaration(c, decl)?;
        typed.push(one)?;
    }
    Ok(typed)
}
