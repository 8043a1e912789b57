// Names, each once, found by their bytes.
ghost use Rattle.std.specs.Prelude.{◌≡◌, is_some, IfOk, IfSome};
ghost use Rattle.name_set.specs.Different.{place_in, are_different};

use indexmap::IndexSet;
use num_le::Name;
use std::alloc::{AllocError, Global};
use std::marker::Model;

/// Names that differ, in their order, which contracts see as their list.
#[derive(Drop)]
pub struct NameSet {
    names: IndexSet<Vec<u8>>,
}

impl Model for NameSet {
    ghost use Rattle.std.specs.Prelude.{List, ℕ, map};

    ghost Value = { List (List ℕ) };

    ghost view = { λ s. map (λ k. k.items) s.names.keys };
}

impl NameSet {
    /// The set of these names, if they differ.
    pub fn of(alloc: Global, names: &[Name]) -> Result<Option<NameSet>, AllocError>
        ensures names { IfOk result (λ o. IfSome o (λ v. v ≡ names.now)) }
        ensures differ { IfOk result (λ o. is_some o ≡ are_different names.now) }
    {
        let mut set = IndexSet::new(alloc);
        for name in names {
            if !set.insert(name.as_slice().to_vec(alloc)?)? {
                return Ok(None);
            }
        }
        Ok(Some(NameSet { names: set }))
    }

    /// The place of a name, counted from 0.
    pub fn place(&self, name: &Name) -> Option<usize>
        ensures place { result ≡ place_in self.now name.now }
    {
        self.names.get_index_of(name.as_slice())
    }
}
