// The rules on what stands behind an operand: `[ ]`, `( )`, `.` and `->`.
ghost use Rattle.std.specs.Prelude.{◌≡◌};
ghost use Rattle.std.specs.Option.{option_map};
ghost use Rattle.c_type.specs.Names.{at_or};
ghost use Rattle.c_type.specs.Of.{type_of as type_lem, tags_of, members_of};
ghost use Rattle.c_type.specs.Sizes.{no_tag};
ghost use Rattle.c_tree.specs.TExpr as e;
ghost use Rattle.c_tree.specs.TypedOf.{expr_of};
ghost use Rattle.c_rule.specs.RuleExprs as r;
ghost use Rattle.c_scope.specs.Closed.{closed};
ghost use Rattle.c_scope.specs.Says.{Says};
ghost use Rattle.c_operator.specs.Boxed.{boxed};
ghost use Rattle.c_operator.specs.MemberOf.{held, found, member_in as member_in_rule, pointed as pointed_rule};

use crate::typed::{
    are_pointer_and_integer, is_function, is_function_pointer, target_is_sized, type_of,
};
use crate::unary::is_place;
use crate::values::{node, used, widen};
use c_scope::{TypeErr, copy, is_sized, target};
use c_tree::TExpr;
use c_type::{CType, Member, TagId, Tags};
use std::alloc::Global;

/// `[ ]` takes a pointer to an object on the left and an integer inside.
pub fn subscript(
    alloc: Global,
    line: u32,
    tags: &Tags,
    pointer: Box<TExpr>,
    number: Box<TExpr>,
) -> Result<Box<TExpr>, TypeErr>
    ensures { Says boxed (r.subscript (closed (tags_of tags.now)) (boxed pointer) (boxed number)) result }
{
    let x = used(alloc, line, pointer)?;
    let y = used(alloc, line, number)?;
    if !are_pointer_and_integer(&x, &y) {
        return Err(TypeErr::Rule(18, line));
    }
    if !target_is_sized(tags, &x) {
        return Err(TypeErr::Rule(3, line));
    }
    let by = widen(alloc, y)?;
    let ty = target(type_of(alloc, &x)?);
    Ok(node(alloc, TExpr::Index(ty, x, by))?)
}

/// A member by its number, with its type.
#[derive(Drop)]
pub struct Held {
    number: u32,
    ty: CType,
}

/// The first member of that name with its number.
fn member_from<'a>(members: &'a [Member], name: &[u8]) -> Option<(usize, &'a CType)>
    ensures { option_map (λ p. (p.0, type_lem p.1.now)) result ≡ r.member_from 0 (members_of members.now) name.now }
{
    for (number, member) in members.iter().enumerate() {
        if name == member.name.as_slice() {
            return Some((number, &member.ty));
        }
    }
    None
}

/// A member of these members.
fn member_among(alloc: Global, line: u32, members: &[Member], name: &[u8]) -> Result<Held, TypeErr>
    ensures { Says held (found (r.member_from 0 (members_of members.now) name.now)) result }
{
    let Some((number, ty)) = member_from(members, name) else {
        return Err(TypeErr::Rule(19, line));
    };
    let Ok(number) = u32::try_from(number) else {
        return Err(TypeErr::Memory);
    };
    let ty = copy(alloc, ty)?;
    Ok(Held { number, ty })
}

/// The members of a tag. One that is not closed has none.
#[tactic(auto, using(c_type::proofs::Held::tag_read, c_scope::proofs::Laying::tag_past))]
fn members_at(tags: &Tags, tag: TagId) -> &[Member]
    ensures value { members_of result.now ≡ (at_or no_tag (tags_of tags.now) tag.0).members }
{
    match tags.list.get(tag.0 as usize) {
        Some(tag) => &tag.members,
        None => &[],
    }
}

/// A member of a structure that is closed.
fn member_in(
    alloc: Global,
    line: u32,
    tags: &Tags,
    whole: &CType,
    name: &[u8],
) -> Result<Held, TypeErr>
    ensures { Says held (member_in_rule (closed (tags_of tags.now)) (type_lem whole.now) name.now) result }
{
    let CType::Struct(tag) = whole else {
        return Err(TypeErr::Rule(19, line));
    };
    if !is_sized(tags, whole) {
        return Err(TypeErr::Rule(3, line));
    }
    member_among(alloc, line, members_at(tags, *tag), name)
}

/// `.` takes a structure's place and a member of that name.
#[tactic(auto, using(crate::proofs::Members::dot_is))]
pub fn dot(
    alloc: Global,
    line: u32,
    tags: &Tags,
    whole: Box<TExpr>,
    name: &[u8],
) -> Result<Box<TExpr>, TypeErr>
    ensures { Says boxed (r.dot (closed (tags_of tags.now)) (boxed whole) name.now) result }
{
    if !is_place(&whole) {
        return Err(TypeErr::Rule(19, line));
    }
    let ty = type_of(alloc, &whole)?;
    let member = member_in(alloc, line, tags, &ty, name)?;
    Ok(node(alloc, TExpr::Member(member.ty, whole, member.number))?)
}

/// What a pointer points to.
fn pointed(alloc: Global, line: u32, pointer: &TExpr) -> Result<CType, TypeErr>
    ensures { Says type_lem (pointed_rule (e.type_of (expr_of pointer.now))) result }
{
    match type_of(alloc, pointer)? {
        CType::Ptr(to) => Ok(Box::into_inner(to)),
        _ => Err(TypeErr::Rule(19, line)),
    }
}

/// `->` takes a pointer to a structure and a member of that name.
#[tactic(auto, using(crate::proofs::Members::arrow_is))]
pub fn arrow(
    alloc: Global,
    line: u32,
    tags: &Tags,
    pointer: Box<TExpr>,
    name: &[u8],
) -> Result<Box<TExpr>, TypeErr>
    ensures { Says boxed (r.arrow (closed (tags_of tags.now)) (boxed pointer) name.now) result }
{
    let value = used(alloc, line, pointer)?;
    let to = pointed(alloc, line, &value)?;
    let member = member_in(alloc, line, tags, &to, name)?;
    Ok(node(alloc, TExpr::Arrow(member.ty, value, member.number))?)
}

/// A call takes a function or a pointer to one.
pub fn called(alloc: Global, line: u32, expr: Box<TExpr>) -> Result<Box<TExpr>, TypeErr>
    ensures { Says boxed (r.called (boxed expr)) result }
{
    if is_function(&expr) {
        return Ok(expr);
    }
    let value = used(alloc, line, expr)?;
    if !is_function_pointer(&value) {
        return Err(TypeErr::Rule(20, line));
    }
    Ok(value)
}

/// What a call of a function, or of a pointer to one, gives.
pub fn result_of(ty: CType) -> CType
    ensures { type_lem result ≡ r.result_of (type_lem ty) }
{
    match ty {
        CType::Fun(to) => Box::into_inner(to),
        ty => target(target(ty)),
    }
}
