// Questions about types, and copies of them.
ghost use Rattle.std.specs.Prelude.{◌≡◌, IfOk};
ghost use Rattle.c_type.specs.Of.{type_of, tags_of};
ghost use Rattle.c_type.specs.Types as t;
ghost use Rattle.c_tree.specs.TypedOf.{ref_of};
ghost use Rattle.c_rule.specs.RuleTypes as r;
ghost use Rattle.c_rule.specs.RuleScope.{known, is_sized as is_sized_rule};
ghost use Rattle.c_rule.specs.RuleValues as v;
ghost use Rattle.c_scope.specs.Closed.{closed};

use c_tree::Ref;
use c_type::{CType, Kind, Tags};
use num_le::Name;
use std::alloc::{AllocError, Global};

/// The same type once more.
pub fn copy(alloc: Global, ty: &CType) -> Result<CType, AllocError>
    ensures { IfOk result (λ x. type_of x ≡ type_of ty.now) }
{
    Ok(match ty {
        CType::Num(kind) => CType::Num(*kind),
        CType::Void => CType::Void,
        CType::Ptr(to) => CType::Ptr(Box::new(alloc, copy(alloc, to)?)?),
        CType::Arr(n, of) => CType::Arr(*n, Box::new(alloc, copy(alloc, of)?)?),
        CType::Struct(tag) => CType::Struct(*tag),
        CType::Union(tag) => CType::Union(*tag),
        CType::Enum(tag) => CType::Enum(*tag),
        CType::Fun(to) => CType::Fun(Box::new(alloc, copy(alloc, to)?)?),
    })
}

/// The same name once more.
pub fn copy_name(alloc: Global, name: &Name) -> Result<Name, AllocError>
    ensures { IfOk result (λ x. x ≡ name.now) }
{
    Name::of(alloc, name.as_slice())
}

/// What a name is bound to, once more.
pub fn copy_ref(alloc: Global, name: &Ref) -> Result<Ref, AllocError>
    ensures { IfOk result (λ x. ref_of x ≡ ref_of name.now) }
{
    Ok(match name {
        Ref::Local(number) => Ref::Local(*number),
        Ref::Param(number) => Ref::Param(*number),
        Ref::Static(number) => Ref::Static(*number),
        Ref::Ext(name) => Ref::Ext(copy_name(alloc, name)?),
        Ref::Func(number) => Ref::Func(*number),
        Ref::Outer(name) => Ref::Outer(copy_name(alloc, name)?),
        Ref::Const(value) => Ref::Const(*value),
    })
}

/// Whether two types of a unit are the same.
pub fn is_same(a: &CType, b: &CType) -> bool
    ensures { result ≡ t.same_type (type_of a.now) (type_of b.now) }
{
    match (a, b) {
        (CType::Num(x), CType::Num(y)) => *x == *y,
        (CType::Void, CType::Void) => true,
        (CType::Ptr(x), CType::Ptr(y)) => is_same(x, y),
        (CType::Arr(n, x), CType::Arr(m, y)) => *n == *m && is_same(x, y),
        (CType::Struct(x), CType::Struct(y)) => x.0 == y.0,
        (CType::Union(x), CType::Union(y)) => x.0 == y.0,
        (CType::Enum(x), CType::Enum(y)) => x.0 == y.0,
        (CType::Fun(x), CType::Fun(y)) => is_same(x, y),
        _ => false,
    }
}

/// An integer type or an enumeration.
pub fn is_integer(ty: &CType) -> bool
    ensures { result ≡ t.is_integer (type_of ty.now) }
{
    matches!(ty, CType::Num(_) | CType::Enum(_))
}

/// A pointer to an object or a function.
pub fn is_pointer(ty: &CType) -> bool
    ensures { result ≡ t.is_pointer (type_of ty.now) }
{
    matches!(ty, CType::Ptr(_))
}

/// An integer or a pointer.
pub fn is_scalar(ty: &CType) -> bool
    ensures { result ≡ v.is_scalar (type_of ty.now) }
{
    is_integer(ty) || is_pointer(ty)
}

/// A function.
pub fn is_function(ty: &CType) -> bool
    ensures { result ≡ r.is_function (type_of ty.now) }
{
    matches!(ty, CType::Fun(_))
}

/// What a pointer points to, or a function's result.
pub fn target(ty: CType) -> CType
    ensures { type_of result ≡ t.target (type_of ty) }
{
    match ty {
        CType::Ptr(to) | CType::Fun(to) => Box::into_inner(to),
        _ => CType::Void,
    }
}

/// A pointer to an object.
pub fn is_object_pointer(ty: &CType) -> bool
    ensures { result ≡ v.is_object_pointer (type_of ty.now) }
{
    match ty {
        CType::Ptr(to) => !is_function(to),
        _ => false,
    }
}

/// The type to which an operand of this type widens.
pub fn wide(alloc: Global, ty: &CType) -> Result<CType, AllocError>
    ensures { IfOk result (λ x. type_of x ≡ v.wide (type_of ty.now)) }
{
    Ok(match ty {
        CType::Num(Kind::Char | Kind::Short) | CType::Enum(_) => CType::Num(Kind::Int),
        CType::Num(Kind::UChar | Kind::UShort) => CType::Num(Kind::UInt),
        _ => copy(alloc, ty)?,
    })
}

/// Whether the size of a type is known: each structure that it holds by value is closed.
#[tactic(auto, using(c_type::proofs::Held::tag_count))]
pub fn is_sized(tags: &Tags, ty: &CType) -> bool
    ensures { result ≡ is_sized_rule (known (closed (tags_of tags.now))) (type_of ty.now) }
{
    match ty {
        CType::Arr(_, of) => is_sized(tags, of),
        CType::Struct(tag) | CType::Union(tag) => (tag.0 as usize) < tags.list.len(),
        _ => true,
    }
}

/// What moves a pointer needs the size of what it points to.
pub fn target_is_sized(tags: &Tags, ty: &CType) -> bool
    ensures { result ≡ v.target_is_sized (closed (tags_of tags.now)) (type_of ty.now) }
{
    match ty {
        CType::Ptr(to) => is_sized(tags, to),
        _ => true,
    }
}
