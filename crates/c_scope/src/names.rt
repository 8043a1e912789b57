// Whether names differ from one another.
ghost use Rattle.std.specs.Prelude.{◌≡◌, IfOk, is_some, map, not};
ghost use Rattle.c_rule.specs.RuleTags as t;

use indexmap::IndexSet;
use std::alloc::{AllocError, Global};

/// The place of the first name that stands before it too. There is one exactly where the names don't differ.
pub fn first_again(alloc: Global, names: &[&[u8]]) -> Result<Option<usize>, AllocError>
    ensures told { IfOk result (λ x. is_some x ≡ not (t.names_differ (map (λ n. n.now) names.now))) }
{
    let mut seen: IndexSet<&[u8]> = IndexSet::new(alloc);
    for at in 0..names.len() {
        if !seen.insert(names[at])? {
            return Ok(Some(at));
        }
    }
    Ok(None)
}

/// Whether no name stands twice among these.
pub fn names_differ(alloc: Global, names: &[&[u8]]) -> Result<bool, AllocError>
    ensures value { IfOk result (λ b. b ≡ t.names_differ (map (λ n. n.now) names.now)) }
{
    let again = first_again(alloc, names)?;
    Ok(again.is_none())
}
