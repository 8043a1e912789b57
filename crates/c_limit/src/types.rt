// The quantities of a type that limits are set on.
ghost use Rattle.std.specs.Prelude.{◌≡◌, length, true, false};
ghost use Rattle.c_type.specs.Of.{type_of, tags_of};
ghost use Rattle.c_type.specs.Sizes.{size as size_lem, IsWithin};
ghost use Rattle.type_word.specs.Words.{derivations as derivations_lem, dimensions_of};
ghost use Rattle.c_limit.specs.Limits.{greatest_part as greatest_part_lem, greatest_of};
ghost use Rattle.c_limit.specs.Temporaries.{counted};

use c_type::{CType, Tags, size};

/// Whether the tag that a type holds by value is there. A type whose tag is not there has size 0.
fn is_within(ty: &CType, tags: &Tags) -> bool
    ensures within { result ≡ true → IsWithin (length tags.now.list.items) (type_of ty.now) }
    ensures without { result ≡ false → size_lem (tags_of tags.now) (type_of ty.now) ≡ 0 }
{
    match ty {
        CType::Struct(tag) | CType::Union(tag) => (tag.0 as usize) < tags.list.len(),
        CType::Arr(_, element) => is_within(element, tags),
        CType::Num(_) | CType::Void | CType::Ptr(_) | CType::Enum(_) | CType::Fun(_) => true,
    }
}

/// The size of a type in bytes, at most 4294967295, 0 where its tag is not there.
pub fn size_in(ty: &CType, tags: &Tags) -> u32
    ensures { result ≡ size_lem (tags_of tags.now) (type_of ty.now) }
{
    if is_within(ty, tags) {
        size(ty, tags)
    } else {
        0
    }
}

/// The greatest size of an array or structure inside a type, behind a pointer too, at most 4294967295.
pub fn greatest_part(ty: &CType, tags: &Tags) -> u32
    ensures { result ≡ greatest_part_lem (tags_of tags.now) (type_of ty.now) }
{
    match ty {
        CType::Num(_) | CType::Void | CType::Enum(_) => 0,
        CType::Struct(_) | CType::Union(_) => size_in(ty, tags),
        CType::Ptr(target) => greatest_part(target, tags),
        CType::Fun(outcome) => greatest_part(outcome, tags),
        CType::Arr(_, element) => size_in(ty, tags).max(greatest_part(element, tags)),
    }
}

/// The number of derivations of a type, at most 18446744073709551615.
pub fn derivations(ty: &CType) -> u64
    ensures { result ≡ counted (length (derivations_lem (type_of ty.now))) }
{
    match ty {
        CType::Ptr(below) | CType::Fun(below) | CType::Arr(_, below) => {
            derivations(below).saturating_add(1)
        }
        _ => 0,
    }
}

/// The number of array derivations of a type, at most 18446744073709551615.
pub fn arrays(ty: &CType) -> u64
    ensures { result ≡ counted (length (dimensions_of (type_of ty.now))) }
{
    match ty {
        CType::Ptr(below) | CType::Fun(below) => arrays(below),
        CType::Arr(_, element) => arrays(element).saturating_add(1),
        _ => 0,
    }
}

/// The greatest dimension of a type.
pub fn greatest_dimension(ty: &CType) -> u32
    ensures { result ≡ greatest_of (dimensions_of (type_of ty.now)) }
{
    match ty {
        CType::Ptr(below) | CType::Fun(below) => greatest_dimension(below),
        CType::Arr(n, element) => (*n).max(greatest_dimension(element)),
        _ => 0,
    }
}
