// The types that words name, and the rules on types.
ghost use Rattle.std.specs.Prelude.{◌≡◌, IfOk};
ghost use Rattle.c_type.specs.Of.{type_of, tags_of};
ghost use Rattle.c_tree.specs.TreeOf.{type_name_of, type_spec_of, part_of};
ghost use Rattle.c_rule.specs.RuleTypes as r;
ghost use Rattle.c_rule.specs.RuleScope.{known};
ghost use Rattle.c_scope.specs.Closed.{closed};
ghost use Rattle.c_scope.specs.EnvOf.{env_of};
ghost use Rattle.c_scope.specs.Says.{Says};

use crate::error::TypeErr;
use crate::scope::Meaning;
use crate::scopes::Scopes;
use crate::types::{copy, is_function, is_sized};
use c_tree::{TypeName, TypeSpec};
use c_type::{CType, Kind, Tags};
use std::alloc::{AllocError, Global};

/// Whether a type is `void`.
pub fn is_void(ty: &CType) -> bool
    ensures { result ≡ r.is_void (type_of ty.now) }
{
    matches!(ty, CType::Void)
}

/// `void` is the result of a function and nothing else in a type.
fn void_is_a_result(ty: &CType) -> bool
    ensures { result ≡ r.void_is_a_result (type_of ty.now) }
{
    match ty {
        CType::Void => false,
        CType::Ptr(of) | CType::Arr(_, of) => void_is_a_result(of),
        CType::Fun(of) => is_void(of) || void_is_a_result(of),
        _ => true,
    }
}

/// No element of an array is a function.
fn elements_are_objects(ty: &CType) -> bool
    ensures { result ≡ r.elements_are_objects (type_of ty.now) }
{
    match ty {
        CType::Ptr(of) | CType::Fun(of) => elements_are_objects(of),
        CType::Arr(_, of) => !is_function(of) && elements_are_objects(of),
        _ => true,
    }
}

fn holds_no_array(ty: &CType) -> bool
    ensures { result ≡ r.holds_no_array (type_of ty.now) }
{
    match ty {
        CType::Ptr(of) | CType::Fun(of) => holds_no_array(of),
        CType::Arr(..) => false,
        _ => true,
    }
}

/// A function returns `void`, an integer, an enumeration, or a pointer whose type holds no array.
fn may_return(ty: &CType) -> bool
    ensures { result ≡ r.may_return (type_of ty.now) }
{
    match ty {
        CType::Void | CType::Num(_) | CType::Enum(_) => true,
        CType::Ptr(of) => holds_no_array(of),
        _ => false,
    }
}

/// Each function in a type returns what it may.
fn functions_return(ty: &CType) -> bool
    ensures { result ≡ r.functions_return (type_of ty.now) }
{
    match ty {
        CType::Ptr(of) | CType::Arr(_, of) => functions_return(of),
        CType::Fun(of) => may_return(of) && functions_return(of),
        _ => true,
    }
}

/// The size of each array's element is known.
fn elements_are_sized(tags: &Tags, ty: &CType) -> bool
    ensures { result ≡ r.elements_are_sized (known (closed (tags_of tags.now))) (type_of ty.now) }
{
    match ty {
        CType::Ptr(of) | CType::Fun(of) => elements_are_sized(tags, of),
        CType::Arr(_, of) => is_sized(tags, of) && elements_are_sized(tags, of),
        _ => true,
    }
}

/// The rules that the type of a declarator, a cast or `sizeof` meets.
pub fn declared_type(c: &Scopes, line: u32, ty: &CType) -> Result<(), TypeErr>
    ensures judged { Says (λ _. type_of ty.now) (r.declared_type (env_of c.now) (type_of ty.now)) result }
{
    if !void_is_a_result(ty) {
        return Err(TypeErr::Rule(4, line));
    }
    if !elements_are_objects(ty) {
        return Err(TypeErr::Rule(5, line));
    }
    if !functions_return(ty) {
        return Err(TypeErr::Rule(6, line));
    }
    if !elements_are_sized(c.tags(), ty) {
        return Err(TypeErr::Rule(3, line));
    }
    Ok(())
}

/// The type that words name.
pub fn spec_type(c: &Scopes, line: u32, words: &TypeSpec) -> Result<CType, TypeErr>
    ensures judged { Says type_of (r.spec_type (env_of c.now) (type_spec_of words.now)) result }
{
    match words {
        TypeSpec::Num(kind) => Ok(CType::Num(*kind)),
        TypeSpec::Void => Ok(CType::Void),
        TypeSpec::Tag(tag) => c.tag(tag.line, tag.kind, tag.name.as_slice()),
        TypeSpec::Named(name) => match c.meaning(name.as_slice()) {
            Some(Meaning::Alias(ty)) => Ok(copy(c.alloc, ty)?),
            _ => Err(TypeErr::Rule(2, line)),
        },
    }
}

/// The type that words name, or int where they are left out.
pub fn spec_or_int(c: &Scopes, line: u32, words: &Option<TypeSpec>) -> Result<CType, TypeErr>
    ensures judged { Says type_of (r.spec_or_int (env_of c.now) (part_of type_spec_of words.now)) result }
{
    match words {
        Some(words) => spec_type(c, line, words),
        None => Ok(CType::Num(Kind::Int)),
    }
}

/// A pointer to a pointer and so on, as many times as there are stars.
fn pointer_to(alloc: Global, stars: usize, ty: CType) -> Result<CType, AllocError>
    ensures { IfOk result (λ x. type_of x ≡ r.pointer_to stars (type_of ty)) }
{
    let mut ty = ty;
    let mut left = stars;
    while left > 0 {
        ty = CType::Ptr(Box::new(alloc, ty)?);
        left -= 1;
    }
    Ok(ty)
}

/// The type of a cast, which may be `void`.
pub fn cast_type(c: &Scopes, name: &TypeName) -> Result<CType, TypeErr>
    ensures judged { Says type_of (r.cast_type (env_of c.now) (type_name_of name.now)) result }
{
    let base = spec_type(c, name.line, &name.types)?;
    let ty = pointer_to(c.alloc, name.stars, base)?;
    if is_void(&ty) {
        return Ok(ty);
    }
    declared_type(c, name.line, &ty)?;
    Ok(ty)
}

/// The type behind `sizeof`, which has a size.
pub fn sized_type(c: &Scopes, name: &TypeName) -> Result<CType, TypeErr>
    ensures judged { Says type_of (r.sized_type (env_of c.now) (type_name_of name.now)) result }
{
    let base = spec_type(c, name.line, &name.types)?;
    let ty = pointer_to(c.alloc, name.stars, base)?;
    declared_type(c, name.line, &ty)?;
    if !is_sized(c.tags(), &ty) {
        return Err(TypeErr::Rule(3, name.line));
    }
    Ok(ty)
}
