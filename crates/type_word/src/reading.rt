// The type of a word.
ghost use Rattle.std.specs.Prelude.{◌≡◌, IfOk};
ghost use Rattle.std.specs.Option.{option_map};
ghost use Rattle.c_type.specs.Of.{type_of};
ghost use Rattle.type_word.specs.Words.{IsTypeOf, TypesAreOne};

use crate::outermost::outer;
use crate::{Outer, TypeRec};
use c_type::{CType, TagId};
use std::alloc::{AllocError, Global};

/// The type whose word this is. None exactly where it is no type's word.
fn typed(alloc: Global, r: TypeRec) -> Result<Option<CType>, AllocError>
    ensures { IfOk result (λ o. IsTypeOf r (option_map type_of o)) }
{
    let found = match outer(&r) {
        Outer::Num(kind) => Some(CType::Num(kind)),
        Outer::Void => Some(CType::Void),
        Outer::Struct(tag) => Some(CType::Struct(TagId(tag))),
        Outer::Union(tag) => Some(CType::Union(TagId(tag))),
        Outer::Enum(tag) => Some(CType::Enum(TagId(tag))),
        Outer::Ptr(target) => match typed(alloc, target)? {
            Some(ty) => Some(CType::Ptr(Box::new(alloc, ty)?)),
            None => None,
        },
        Outer::Fun(outcome) => match typed(alloc, outcome)? {
            Some(ty) => Some(CType::Fun(Box::new(alloc, ty)?)),
            None => None,
        },
        Outer::Arr(n, element) => match typed(alloc, element)? {
            Some(ty) => Some(CType::Arr(n, Box::new(alloc, ty)?)),
            None => None,
        },
        Outer::Bad => None,
    };
    Ok(found)
}

/// The type whose word this is. None exactly where it is no type's word.
pub fn of_word(alloc: Global, r: &TypeRec) -> Result<Option<CType>, AllocError>
    ensures { IfOk result (λ o. IsTypeOf r.now (option_map type_of o)) }
{
    typed(alloc, *r)
}

/// A word is of at most one type.
pub fn types_are_one()
    ensures law { TypesAreOne }
{
    // The law is all that is promised.
}
