// Names in order, by which the first place of a name is found in constant time.
ghost use Rattle.std.specs.Prelude.{◌≡◌, ◌∷◌, ◌++◌, [], List, ℕ, OnOk, map, IfOk};
ghost use Rattle.std.specs.Str.{bytes_eq};
ghost use Rattle.indexmap.specs.IndexMap.{get_by};
ghost use Rattle.c_check.specs.Places.{place_from};
ghost use Rattle.c_rule.specs.RuleUnit as r;
ghost use Rattle.c_tree.specs.TypedOf.{declr_of};

use c_scope::insert_first;
use c_tree::TDeclr;
use indexmap::IndexMap;
use num_le::Name;
use std::alloc::{AllocError, Global};

/// Names in order.
#[derive(Drop)]
pub struct NameList {
    names: Vec<Name>,
    // The first place of each name.
    index: IndexMap<Vec<u8>, usize>,
    ghost indexed: { (x : List ℕ) → get_by (λ key. bytes_eq x key.items) index ≡ place_from 0 names.items x },
}

impl NameList {
    ghost use Rattle.c_check.specs.ListOf.{names_of};

    /// No name.
    pub fn new(alloc: Global) -> NameList
        ensures empty { names_of result ≡ [] }
    {
        NameList {
            names: Vec::new(alloc),
            index: IndexMap::new(alloc),
        }
    }

    /// Adds a name behind the others.
    pub fn add(&mut self, name: &[u8]) -> Result<(), AllocError>
        ensures added { OnOk result (names_of self.new ≡ names_of self.old ++ name.now ∷ []) }
    {
        let copied = Name::of(*self.index.allocator(), name)?;
        let place = self.names.len();
        self.names.reserve(1)?;
        insert_first(&mut self.index, name, place)?;
        self.names.push(copied).unwrap();
        Ok(())
    }

    /// The first place of a name, counted from 0.
    pub fn place(&self, name: &[u8]) -> Option<usize>
        ensures value { result ≡ place_from 0 (names_of self.now) name.now }
    {
        self.index.get(name).copied()
    }

    /// Whether a name is among these.
    pub fn has(&self, name: &[u8]) -> bool
        ensures value { result ≡ r.is_listed name.now (names_of self.now) }
    {
        self.place(name).is_some()
    }

    /// The names of a list.
    pub fn of_names(alloc: Global, names: &[Name]) -> Result<NameList, AllocError>
        ensures value { IfOk result (λ x. names_of x ≡ names.now) }
    {
        let mut list = NameList::new(alloc);
        for name in names {
            list.add(name.as_slice())?;
        }
        Ok(list)
    }

    /// The names that declarators declare.
    pub fn of_declrs(alloc: Global, declrs: &[&TDeclr]) -> Result<NameList, AllocError>
        ensures value { IfOk result (λ x. names_of x ≡ map (λ y. y.name) (map (λ d. declr_of d.now) declrs.now)) }
    {
        let mut list = NameList::new(alloc);
        for declr in declrs {
            list.add(declr.name.as_slice())?;
        }
        Ok(list)
    }
}
