// What a name means that is declared at file level once more.
ghost use Rattle.std.specs.Prelude.{◌≡◌, IfOk};
ghost use Rattle.std.specs.Option.{option_map};
ghost use Rattle.c_type.specs.Of.{type_of};
ghost use Rattle.c_rule.specs.RuleScope.{same_bool};
ghost use Rattle.c_rule.specs.RuleTypes as t;
ghost use Rattle.c_rule.specs.RuleUnit as u;
ghost use Rattle.c_tree.specs.TypedOf.{ref_of};
ghost use Rattle.c_scope.specs.Entries.{meaning_of};

use crate::scope::Meaning;
use crate::types::{copy, copy_ref, is_same};
use c_tree::Ref;
use c_type::CType;
use std::alloc::{AllocError, Global};

/// The type that two declarations of an object say together, if they agree.
pub fn joined(alloc: Global, a: &CType, b: &CType) -> Result<Option<CType>, AllocError>
    ensures value { IfOk result (λ x. option_map type_of x ≡ t.joined (type_of a.now) (type_of b.now)) }
{
    match (a, b) {
        (CType::Arr(n, x), CType::Arr(m, y)) => {
            if !is_same(x, y) {
                return Ok(None);
            }
            // A missing dimension agrees with every number.
            if *n == 0 {
                return Ok(Some(copy(alloc, b)?));
            }
            if *m == 0 || *n == *m {
                return Ok(Some(copy(alloc, a)?));
            }
            Ok(None)
        }
        _ => {
            if !is_same(a, b) {
                return Ok(None);
            }
            Ok(Some(copy(alloc, a)?))
        }
    }
}

fn is_equal(a: bool, b: bool) -> bool
    ensures value { result ≡ same_bool a b }
{
    if a { b } else { !b }
}

fn is_own(name: &Ref) -> bool
    ensures value { result ≡ u.is_own (ref_of name.now) }
{
    matches!(name, Ref::Static(_))
}

/// What a name means that was declared before, if both declarations agree. An object keeps its choice of `static` and
/// its number, a function its type and its choice.
pub fn again(alloc: Global, old: &Meaning, new: &Meaning) -> Result<Option<Meaning>, AllocError>
    ensures value { IfOk result (λ x. option_map meaning_of x ≡ u.again (meaning_of old.now) (meaning_of new.now)) }
{
    match (old, new) {
        (Meaning::Thing(name, a), Meaning::Thing(other, b)) => {
            if !is_equal(is_own(name), is_own(other)) {
                return Ok(None);
            }
            let Some(ty) = joined(alloc, a, b)? else {
                return Ok(None);
            };
            Ok(Some(Meaning::Thing(copy_ref(alloc, name)?, ty)))
        }
        (Meaning::Function(own, name, a), Meaning::Function(other, _, b)) => {
            if !(is_equal(*own, *other) && is_same(a, b)) {
                return Ok(None);
            }
            let name = copy_ref(alloc, name)?;
            let ty = copy(alloc, a)?;
            Ok(Some(Meaning::Function(*own, name, ty)))
        }
        _ => Ok(None),
    }
}
