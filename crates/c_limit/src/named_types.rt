// The quantities of declared names that limits are set on.
ghost use Rattle.std.specs.Prelude.{◌≡◌, length, map, option_map};
ghost use Rattle.c_type.specs.Of.{tags_of};
ghost use Rattle.type_word.specs.Words.{derivations as derivations_lem, dimensions_of};
ghost use Rattle.c_limit.specs.Limits.{greatest_part as greatest_part_lem, greatest_of, limit, first_passed, dimension_limits_of, Object, Derivations, Dimensions};
ghost use Rattle.c_limit.specs.Temporaries.{counted};
ghost use Rattle.c_limit.specs.Of.{named_type_of, all_named_of};
ghost use Rattle.std.specs.List.{flat_map};

use crate::names::{Named, NamedType};
use crate::types::{arrays, derivations, greatest_dimension, greatest_part, size_in};
use c_type::{CType, TagId, Tags};

/// The greatest size of an array or structure inside the type.
fn part_size(ty: &NamedType<'_>, tags: &Tags) -> u32
    ensures { result ≡ greatest_part_lem (tags_of tags.now) (named_type_of ty.now) }
{
    match *ty {
        NamedType::Parameter(CType::Arr(_, element)) => greatest_part(element, tags),
        NamedType::Whole(ty) | NamedType::Parameter(ty) | NamedType::Function(ty) => {
            greatest_part(ty, tags)
        }
        NamedType::Struct(tag) => size_in(&CType::Struct(TagId(tag)), tags),
        NamedType::Enum(_) => 0,
    }
}

/// The number of derivations.
fn derivation_count(ty: &NamedType<'_>) -> u64
    ensures { result ≡ counted (length (derivations_lem (named_type_of ty.now))) }
{
    match *ty {
        NamedType::Whole(ty) => derivations(ty),
        NamedType::Parameter(CType::Fun(outcome)) => { derivations(outcome).saturating_add(2) }
        NamedType::Parameter(ty) => derivations(ty),
        NamedType::Function(outcome) => derivations(outcome).saturating_add(1),
        NamedType::Struct(_) | NamedType::Enum(_) => 0,
    }
}

/// The number of array derivations.
fn array_count(ty: &NamedType<'_>) -> u64
    ensures { result ≡ counted (length (dimensions_of (named_type_of ty.now))) }
{
    match *ty {
        NamedType::Parameter(CType::Arr(_, element)) => arrays(element),
        NamedType::Whole(ty) | NamedType::Parameter(ty) | NamedType::Function(ty) => arrays(ty),
        NamedType::Struct(_) | NamedType::Enum(_) => 0,
    }
}

/// The greatest dimension.
fn dimension(ty: &NamedType<'_>) -> u32
    ensures { result ≡ greatest_of (dimensions_of (named_type_of ty.now)) }
{
    match *ty {
        NamedType::Parameter(CType::Arr(_, element)) => greatest_dimension(element),
        NamedType::Whole(ty) | NamedType::Parameter(ty) | NamedType::Function(ty) => {
            greatest_dimension(ty)
        }
        NamedType::Struct(_) | NamedType::Enum(_) => 0,
    }
}

/// The first name inside whose type an array or structure has more than 65,535 bytes.
pub fn first_large<'a>(named: &[Named<'a>], tags: &Tags) -> Option<&'a [u8]>
    ensures { option_map (λ x. Object x.now) result ≡ first_passed (map (λ d. limit (greatest_part_lem (tags_of tags.now) d.ty) 65535 (Object d.name)) (all_named_of named.now)) }
{
    for one in named {
        if part_size(&one.ty, tags) > 65535 {
            return Some(one.name);
        }
    }
    None
}

/// The first name whose type has more than 6 derivations.
pub fn first_derived<'a>(named: &[Named<'a>]) -> Option<&'a [u8]>
    ensures { option_map (λ x. Derivations x.now) result ≡ first_passed (map (λ d. limit (length (derivations_lem d.ty)) 6 (Derivations d.name)) (all_named_of named.now)) }
{
    for one in named {
        if derivation_count(&one.ty) > 6 {
            return Some(one.name);
        }
    }
    None
}

/// The first name whose type has more than 4 arrays, or one of more than 65,535 elements.
pub fn first_dimensioned<'a>(named: &[Named<'a>]) -> Option<&'a [u8]>
    ensures { option_map (λ x. Dimensions x.now) result ≡ first_passed (flat_map dimension_limits_of (all_named_of named.now)) }
{
    for one in named {
        if array_count(&one.ty) > 4 || dimension(&one.ty) > 65535 {
            return Some(one.name);
        }
    }
    None
}
