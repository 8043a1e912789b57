// Declarators at file level: objects, functions and typedef names.
ghost use Rattle.std.specs.Prelude.{◌≡◌, map, IfOk, Some, true, false};
ghost use Rattle.std.specs.Option.{option_map};
ghost use Rattle.c_type.specs.Of.{type_of};
ghost use Rattle.c_tree.specs.declared.decl.Storage.TheVariants.{Extern};
ghost use Rattle.c_tree.specs.TExpr as e;
ghost use Rattle.c_tree.specs.TreeOf as u;
ghost use Rattle.c_tree.specs.TypedOf.{declr_of, ref_of, typed_item_of};
ghost use Rattle.c_rule.specs.RuleScope.{Alias, Function, Thing, function_ref, in_scope};
ghost use Rattle.c_rule.specs.RuleTypes.{is_function as is_function_rule};
ghost use Rattle.c_rule.specs.RuleStmts as s;
ghost use Rattle.c_rule.specs.RuleUnit as r;
ghost use Rattle.c_local.specs.Boxed.{boxed_declr};
ghost use Rattle.c_scope.specs.EnvOf.{env_of};
ghost use Rattle.c_rule.specs.JudgingUnit as j;
ghost use Rattle.c_scope.specs.Says.{Says, SaysBehind};
ghost use Rattle.c_check.specs.FileParts.{judged_alias_here, judged_item_here};

use c_local::{begin, declarator, is_static, line_of, missing};
use c_scope::{Meaning, Scopes, TypeErr, copy, copy_name, is_function, is_sized};
use c_tree::{Bound, Declr, Init, Item, Ref, Storage, TDeclr, TItem};
use c_type::CType;
use std::alloc::AllocError;

/// Declares an object in the file, perhaps once more.
fn declare_object(c: &mut Scopes, line: u32, declr: &TDeclr, bound: Ref) -> Result<(), TypeErr>
    ensures judged { Says (λ _. env_of c.new) (j.declared_in_file (env_of c.old) declr.now.name (Thing (ref_of bound) (type_of declr.now.ty))) result }
{
    let alloc = c.alloc;
    let name = copy_name(alloc, &declr.name)?;
    let ty = copy(alloc, &declr.ty)?;
    c.declare_in_file(line, name, Meaning::Thing(bound, ty))
}

/// Declares a function in the file, perhaps once more.
pub fn declare_function(c: &mut Scopes, line: u32, own: bool, declr: &TDeclr) -> Result<(), TypeErr>
    ensures judged { Says (λ _. env_of c.new) (j.declared_in_file (env_of c.old) declr.now.name (Function own (function_ref (env_of c.old) own declr.now.name) (type_of declr.now.ty))) result }
{
    let alloc = c.alloc;
    let name = copy_name(alloc, &declr.name)?;
    let bound = c.function_ref(own, declr.name.as_slice())?;
    let ty = copy(alloc, &declr.ty)?;
    c.declare_in_file(line, name, Meaning::Function(own, bound, ty))
}

/// An external object, whose initialiser may name it.
fn outside(
    c: &mut Scopes,
    line: u32,
    declr: Box<TDeclr>,
    start: &Option<Init>,
) -> Result<TItem, TypeErr>
    ensures judged { SaysBehind typed_item_of (env_of c.new) (j.judged_outside (env_of c.old) (boxed_declr declr) (u.part_of u.init_of start.now)) result }
{
    if !is_sized(c.tags(), &declr.ty) {
        return Err(TypeErr::Rule(3, line));
    }
    let bound = Ref::Ext(copy_name(c.alloc, &declr.name)?);
    declare_object(c, line, &declr, bound)?;
    let init = begin(c, &declr.ty, start)?;
    Ok(TItem {
        declr: Box::into_inner(declr),
        bound: Bound::Outside,
        init,
    })
}

/// The number of a static object that was declared before, and of a new one the next.
fn own_number(c: &Scopes, name: &[u8]) -> u32
    ensures { result ≡ r.own_number (env_of c.now) (in_scope name.now (env_of c.now).file) }
{
    match c.in_file(name) {
        Some(Meaning::Thing(Ref::Static(number), _)) => *number,
        _ => c.statics(),
    }
}

/// How many numbers of static objects are given behind a declaration of one.
fn next_static(c: &Scopes, name: &[u8]) -> Result<u32, AllocError>
    ensures { IfOk result (λ n. n ≡ r.next_static (env_of c.now) (in_scope name.now (env_of c.now).file)) }
{
    match c.in_file(name) {
        Some(Meaning::Thing(Ref::Static(_), _)) => Ok(c.statics()),
        _ => c.statics().checked_add(1).ok_or(AllocError),
    }
}

/// A static object, whose initialiser may name it.
fn own(
    c: &mut Scopes,
    line: u32,
    declr: Box<TDeclr>,
    start: &Option<Init>,
) -> Result<TItem, TypeErr>
    ensures judged { SaysBehind typed_item_of (env_of c.new) (j.judged_own (env_of c.old) (boxed_declr declr) (u.part_of u.init_of start.now)) result }
{
    if !is_sized(c.tags(), &declr.ty) {
        return Err(TypeErr::Rule(3, line));
    }
    let number = own_number(c, declr.name.as_slice());
    let next = next_static(c, declr.name.as_slice())?;
    declare_object(c, line, &declr, Ref::Static(number))?;
    let init = begin(c, &declr.ty, start)?;
    c.set_statics(next);
    Ok(TItem {
        declr: Box::into_inner(declr),
        bound: Bound::Own(number),
        init,
    })
}

/// An external object that another declaration defines. It has no initialiser.
fn elsewhere(
    c: &mut Scopes,
    line: u32,
    declr: Box<TDeclr>,
    start: &Option<Init>,
) -> Result<TItem, TypeErr>
    ensures judged { SaysBehind typed_item_of (env_of c.new) (j.judged_item false (Some Extern) (env_of c.old) (boxed_declr declr) (u.part_of u.init_of start.now)) result }
{
    let None = start else {
        return Err(TypeErr::Rule(11, line));
    };
    let bound = Ref::Ext(copy_name(c.alloc, &declr.name)?);
    declare_object(c, line, &declr, bound)?;
    Ok(TItem {
        declr: Box::into_inner(declr),
        bound: Bound::Elsewhere,
        init: None,
    })
}

/// A function, which has no initialiser.
fn function(
    c: &mut Scopes,
    storage: Option<Storage>,
    line: u32,
    declr: Box<TDeclr>,
    start: &Option<Init>,
) -> Result<TItem, TypeErr>
    ensures judged { SaysBehind typed_item_of (env_of c.new) (j.judged_item true storage (env_of c.old) (boxed_declr declr) (u.part_of u.init_of start.now)) result }
{
    let None = start else {
        return Err(TypeErr::Rule(11, line));
    };
    let own = is_static(storage);
    declare_function(c, line, own, &declr)?;
    Ok(TItem {
        declr: Box::into_inner(declr),
        bound: if own {
            Bound::OwnFunction
        } else {
            Bound::OutsideFunction
        },
        init: None,
    })
}

/// What a declarator declares, by its type and its storage word.
fn item_by(
    c: &mut Scopes,
    storage: Option<Storage>,
    line: u32,
    declr: Box<TDeclr>,
    start: &Option<Init>,
) -> Result<TItem, TypeErr>
    ensures judged { SaysBehind typed_item_of (env_of c.new) (j.judged_item (is_function_rule (type_of declr.value.ty)) storage (env_of c.old) (boxed_declr declr) (u.part_of u.init_of start.now)) result }
{
    if is_function(&declr.ty) {
        return function(c, storage, line, declr, start);
    }
    match storage {
        Some(Storage::Extern) => elsewhere(c, line, declr, start),
        Some(Storage::Static) => own(c, line, declr, start),
        Some(Storage::Auto | Storage::Register) | None => outside(c, line, declr, start),
    }
}

/// A declarator with its initialiser.
fn item(
    c: &mut Scopes,
    storage: Option<Storage>,
    base: &CType,
    item: &Item,
) -> Result<TItem, TypeErr>
    ensures judged { SaysBehind typed_item_of (env_of c.new) (judged_item_here (env_of c.old) storage (type_of base.now) (u.item_of item.now)) result }
{
    let dimension = missing(storage, &item.init)?;
    let typed = declarator(c, dimension, base, &item.declr)?;
    item_by(c, storage, line_of(&item.declr), typed, &item.init)
}

/// The declarators of a declaration, each in the scope of those before it.
pub fn items(
    c: &mut Scopes,
    storage: Option<Storage>,
    base: &CType,
    items: &[Item],
) -> Result<Vec<TItem>, TypeErr>
    ensures judged { SaysBehind (λ x. map typed_item_of x.items) (env_of c.new) (j.judged_file_items (env_of c.old) storage (type_of base.now) (map u.item_of items.now)) result }
{
    let mut typed = Vec::new(c.alloc);
    for one in items {
        let item = item(c, storage, base, one)?;
        typed.push(item)?;
    }
    Ok(typed)
}

/// A typedef name, which is new in the file.
#[tactic(auto, using(c_tag::proofs::Passed::file_behind))]
fn alias(c: &mut Scopes, base: &CType, declr: &Declr) -> Result<Box<TDeclr>, TypeErr>
    ensures judged { SaysBehind boxed_declr (env_of c.new) (judged_alias_here (env_of c.old) (type_of base.now) (u.declr_of declr.now)) result }
{
    let typed = declarator(c, None, base, declr)?;
    if !c.is_free_in_file(typed.name.as_slice()) {
        return Err(TypeErr::Rule(1, line_of(declr)));
    }
    let name = copy_name(c.alloc, &typed.name)?;
    let ty = copy(c.alloc, &typed.ty)?;
    c.add_in_file(name, Meaning::Alias(ty))?;
    Ok(typed)
}

/// The typedef names of a declaration in order.
pub fn aliases(c: &mut Scopes, base: &CType, declrs: &[Declr]) -> Result<Vec<TDeclr>, TypeErr>
    ensures judged { SaysBehind (λ x. map declr_of x.items) (env_of c.new) (j.judged_aliases (env_of c.old) (type_of base.now) (map u.declr_of declrs.now)) result }
{
    let mut typed = Vec::new(c.alloc);
    for declr in declrs {
        let one = alias(c, base, declr)?;
        typed.push(Box::into_inner(one))?;
    }
    Ok(typed)
}
