// One scope: what the names that it declares mean.
ghost use Rattle.std.specs.Prelude.{◌≡◌, ◌<◌, ◌∷◌, [], List, ℕ, OnErr, OnOk, Some, length, vec_len, vec_capacity};
ghost use Rattle.std.specs.Option.{option_map};
ghost use Rattle.std.specs.Str.{bytes_eq};
ghost use Rattle.indexmap.specs.IndexMap.{get_by};
ghost use Rattle.c_type.specs.Names.{pick};
ghost use Rattle.c_rule.specs.RuleScope as r;
ghost use Rattle.c_rule.specs.RuleStmts.{is_free};
ghost use Rattle.c_scope.specs.Entries.{meaning_of, entries_of};
ghost use Rattle.c_scope.specs.Places.{place_of};

use c_tree::Ref;
use c_type::CType;
use indexmap::IndexMap;
use num_le::Name;
use std::alloc::{AllocError, Global};

/// What a declared name means.
#[derive(Drop)]
pub enum Meaning {
    /// A typedef name.
    Alias(CType),
    /// An enumerator, with the 32 bits of its value.
    Constant(u32),
    /// An object.
    Thing(Ref, CType),
    /// A function, and whether it is static.
    Function(bool, Ref, CType),
}

/// A name with what it means.
#[derive(Drop)]
pub struct Entry {
    pub name: Name,
    pub meaning: Meaning,
}

/// The declarations of a scope, in their order.
#[derive(Drop)]
pub struct Scope {
    entries: Vec<Entry>,
    // The place of the latest declaration of each name, so that looking up takes constant time.
    index: IndexMap<Vec<u8>, usize>,
    ghost indexed: { (x : List ℕ) → get_by (λ key. bytes_eq x key.items) index ≡ place_of x (entries_of entries.items) },
}

/// Makes room for one more entry, and lets its name lead there.
fn lead_to_next(
    entries: &mut Vec<Entry>,
    index: &mut IndexMap<Vec<u8>, usize>,
    name: &[u8],
) -> Result<(), AllocError>
    ensures items { entries.new.items ≡ entries.old.items }
    ensures room { OnOk result (vec_len entries.new < vec_capacity entries.new) }
    ensures led { OnOk result ((x : List ℕ) → get_by (λ key. bytes_eq x key.items) index.new ≡ pick (bytes_eq x name.now) (Some (length entries.old.items)) (get_by (λ key. bytes_eq x key.items) index.old)) }
    ensures kept { OnErr result ((x : List ℕ) → get_by (λ key. bytes_eq x key.items) index.new ≡ get_by (λ key. bytes_eq x key.items) index.old) }
{
    let place = entries.len();
    entries.reserve(1)?;
    let key = name.to_vec(*index.allocator())?;
    index.insert(key, place)?;
    Ok(())
}

impl Scope {
    ghost use Rattle.c_scope.specs.EnvOf.{scope_of};

    /// A scope that declares nothing.
    pub fn new(alloc: Global) -> Scope
        ensures empty { scope_of result ≡ [] }
    {
        Scope {
            entries: Vec::new(alloc),
            index: IndexMap::new(alloc),
        }
    }

    /// What the name means in this scope by its latest declaration.
    pub fn meaning(&self, name: &[u8]) -> Option<&Meaning>
        ensures value { option_map (λ m. meaning_of m.now) result ≡ r.in_scope name.now (scope_of self.now) }
    {
        let place = self.index.get(name)?;
        let entry = self.entries.get(*place)?;
        Some(&entry.meaning)
    }

    /// Whether the scope does not declare the name.
    pub fn is_free(&self, name: &[u8]) -> bool
        ensures value { result ≡ is_free name.now (scope_of self.now) }
    {
        self.meaning(name).is_none()
    }

    /// Declares a name.
    pub fn add(&mut self, name: Name, meaning: Meaning) -> Result<(), AllocError>
        ensures added { OnOk result (scope_of self.new ≡ record { name = name; meaning = meaning_of meaning } ∷ scope_of self.old) }
    {
        lead_to_next(&mut self.entries, &mut self.index, name.as_slice())?;
        self.entries.push_reserved(Entry { name, meaning });
        Ok(())
    }
}
