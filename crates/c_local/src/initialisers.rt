// Initialisers: of objects of static life by the type of what they initialise, and of automatic objects.
ghost use Rattle.std.specs.Prelude.{◌≡◌, IfOk, OnOk, false, map, replicate};
ghost use Rattle.std.specs.Option.{option_map};
ghost use Rattle.c_type.specs.Names.{at_or};
ghost use Rattle.c_type.specs.Of.{members_of, tags_of, type_of};
ghost use Rattle.c_type.specs.Sizes.{no_tag};
ghost use Rattle.c_tree.specs.TreeOf as u;
ghost use Rattle.c_tree.specs.TypedOf.{begin_of, init_of};
ghost use Rattle.c_rule.specs.RuleDecls as r;
ghost use Rattle.c_rule.specs.RuleStmts.{past_init};
ghost use Rattle.c_rule.specs.Judging.{judged_auto_init, judged_begin, judged_init, judged_inits, judged_single};
ghost use Rattle.c_local.specs.Initialisers.{filled_by, grouped};
ghost use Rattle.c_operator.specs.Boxed.{boxed};
ghost use Rattle.c_scope.specs.EnvOf.{env_of};
ghost use Rattle.c_scope.specs.Says.{Says, SaysBehind};

use crate::texts::with_zero;
use c_scope::{Scopes, TypeErr, copy};
use c_tree::{Expr, Init, TExpr, TInit};
use c_type::{CType, Kind, Member, TagId, Tags};
use c_value::{first_expr, value_expr};
use num_le::Name;
use std::alloc::{AllocError, Global};

/// Whether a type is `char`.
fn is_char(ty: &CType) -> bool
    ensures { result ≡ r.is_char (type_of ty.now) }
{
    matches!(ty, CType::Num(Kind::Char))
}

/// The bytes of a text that fills an array of char, which has room for all of them but the last.
fn filling<'a>(ty: &CType, e: &'a Expr) -> Option<&'a Name>
    ensures value { option_map (λ x. x.now) result ≡ filled_by (type_of ty.now) (u.expr_of e.now) }
{
    let (CType::Arr(count, of), Expr::Text(_, bytes)) = (ty, e) else {
        return None;
    };
    if is_char(of) && bytes.as_slice().len() <= *count as usize {
        Some(bytes)
    } else {
        None
    }
}

/// An expression as the value with which a scalar of static life begins.
fn value(c: &mut Scopes, ty: &CType, e: &Expr) -> Result<TInit, TypeErr>
    ensures judged { SaysBehind init_of (env_of c.new) (judged_single false (env_of c.old) (type_of ty.now) (u.expr_of e.now)) result }
{
    let first = first_expr(c, ty, e)?;
    Ok(TInit::Single(Box::into_inner(first)))
}

/// An expression as an initialiser of static life.
#[tactic(auto, using(crate::proofs::Inits::text_fills, crate::proofs::Inits::none_fills))]
fn single(c: &mut Scopes, ty: &CType, e: &Expr) -> Result<TInit, TypeErr>
    ensures judged { SaysBehind init_of (env_of c.new) (judged_single (r.fills_chars (type_of ty.now) (u.expr_of e.now)) (env_of c.old) (type_of ty.now) (u.expr_of e.now)) result }
{
    match filling(ty, e) {
        Some(bytes) => Ok(TInit::Bytes(with_zero(c.alloc, bytes)?)),
        None => value(c, ty, e),
    }
}

/// The types of members.
fn types_of(alloc: Global, members: &[Member]) -> Result<Vec<CType>, AllocError>
    ensures value { IfOk result (λ x. map type_of x.items ≡ map (λ m. m.ty) (members_of members.now)) }
{
    let mut types = Vec::new(alloc);
    for member in members {
        let ty = copy(alloc, &member.ty)?;
        types.push(ty)?;
    }
    Ok(types)
}

/// The types of the members of a structure.
#[tactic(auto, using(c_type::proofs::Held::tag_read, c_scope::proofs::Laying::tag_past))]
fn member_types(alloc: Global, tags: &Tags, tag: TagId) -> Result<Vec<CType>, AllocError>
    ensures value { IfOk result (λ x. map type_of x.items ≡ map (λ m. m.ty) (at_or no_tag (tags_of tags.now) tag.0).members) }
{
    match tags.list.get(tag.0 as usize) {
        Some(tag) => types_of(alloc, &tag.members),
        None => Ok(Vec::new(alloc)),
    }
}

/// An initialiser of static life, by the type of what it initialises.
#[cycle(inits)]
pub fn init(c: &mut Scopes, init: &Init, ty: &CType) -> Result<TInit, TypeErr>
    ensures judged { SaysBehind init_of (env_of c.new) (judged_init (env_of c.old) (type_of ty.now) (u.init_of init.now)) result }
{
    match init {
        Init::Single(e) => single(c, ty, e),
        Init::Group(line, inits) => match ty {
            CType::Arr(count, of) => {
                let parts = elements(c, *line, *count, inits, of)?;
                Ok(TInit::Group(parts))
            }
            CType::Struct(tag) => {
                let types = member_types(c.alloc, c.tags(), *tag)?;
                let parts = members(c, *line, inits, &types)?;
                Ok(TInit::Group(parts))
            }
            _ => Err(TypeErr::Rule(10, *line)),
        },
    }
}

/// The initialisers of an array's elements, of which there are at most as many.
#[cycle(inits)]
fn elements(
    c: &mut Scopes,
    line: u32,
    count: u32,
    inits: &[Init],
    of: &CType,
) -> Result<Vec<TInit>, TypeErr>
    ensures judged { SaysBehind (λ x. grouped x.items) (env_of c.new) (judged_inits (env_of c.old) (replicate count (type_of of.now)) (u.inits_from inits.now)) result }
{
    let mut parts = Vec::new(c.alloc);
    for i in 0..inits.len() {
        if i >= count as usize {
            return Err(TypeErr::Rule(10, line));
        }
        let typed = init(c, &inits[i], of)?;
        parts.push(typed)?;
    }
    Ok(parts)
}

/// The initialisers of a structure's members, of which there are at most as many.
#[cycle(inits)]
fn members(
    c: &mut Scopes,
    line: u32,
    inits: &[Init],
    types: &[CType],
) -> Result<Vec<TInit>, TypeErr>
    ensures judged { SaysBehind (λ x. grouped x.items) (env_of c.new) (judged_inits (env_of c.old) (map type_of types.now) (u.inits_from inits.now)) result }
{
    let mut parts = Vec::new(c.alloc);
    for i in 0..inits.len() {
        if i >= types.len() {
            return Err(TypeErr::Rule(10, line));
        }
        let typed = init(c, &inits[i], &types[i])?;
        parts.push(typed)?;
    }
    Ok(parts)
}

/// An initialiser of static life that may be left out.
pub fn begin(c: &mut Scopes, ty: &CType, start: &Option<Init>) -> Result<Option<TInit>, TypeErr>
    ensures judged { SaysBehind begin_of (env_of c.new) (judged_begin (env_of c.old) (type_of ty.now) (u.part_of u.init_of start.now)) result }
{
    match start {
        Some(start) => Ok(Some(init(c, start, ty)?)),
        None => Ok(None),
    }
}

/// An initialiser of an automatic object, which is a scalar.
pub fn auto_init(c: &mut Scopes, line: u32, ty: &CType, init: &Init) -> Result<Box<TExpr>, TypeErr>
    ensures judged { Says boxed (judged_auto_init (env_of c.old) (type_of ty.now) (u.init_of init.now)) result }
    ensures past { OnOk result (env_of c.new ≡ past_init (u.init_of init.now) (env_of c.old)) }
{
    match init {
        Init::Single(e) => value_expr(c, 11, ty, e),
        Init::Group(..) => Err(TypeErr::Rule(11, line)),
    }
}
