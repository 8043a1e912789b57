// Whether the labels of a switch differ from one another.
ghost use Rattle.std.specs.Prelude.{◌≡◌, IfOk};
ghost use Rattle.c_rule.specs.RuleStmts as s;
ghost use Rattle.c_tree.specs.TypedOf.{items_from};

use c_tree::TSwItem;
use indexmap::IndexSet;
use std::alloc::{AllocError, Global};

/// Whether the cases of a switch differ and it has at most one default.
pub fn labels_differ(alloc: Global, items: &[TSwItem]) -> Result<bool, AllocError>
    ensures { IfOk result (λ b. b ≡ s.labels_differ (items_from items.now)) }
{
    let mut cases: IndexSet<u32> = IndexSet::new(alloc);
    let mut has_default = false;
    for item in items {
        match item {
            TSwItem::Case(_, value) => {
                if !cases.insert(*value)? {
                    return Ok(false);
                }
            }
            TSwItem::Default => {
                if has_default {
                    return Ok(false);
                }
                has_default = true;
            }
            TSwItem::Stmt(_) => {}
        }
    }
    Ok(true)
}
