// Scopes before the first part of a unit, in a box: what drops them has one step, and not one for each of their fields.
ghost use Rattle.std.specs.Prelude.{◌≡◌, [], IfOk};
ghost use Rattle.c_rule.specs.RuleUnit.{at_first};
ghost use Rattle.c_scope.specs.EnvOf.{env_of};

use c_scope::Scopes;
use c_tree::Unit;
use std::alloc::{AllocError, Global};

/// Where the first part of a unit without parts stands.
pub fn fresh(alloc: Global) -> Result<Box<Scopes>, AllocError>
    ensures first { IfOk result (λ c. env_of c.value ≡ at_first (record { exts = [] })) }
{
    let unit = Unit {
        exts: Vec::new(alloc),
    };
    Ok(Box::new(alloc, Scopes::at_first(alloc, &unit)?)?)
}
