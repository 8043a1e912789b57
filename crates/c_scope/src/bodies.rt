// The function bodies of a unit, by their names.
ghost use Rattle.std.specs.Prelude.{◌≡◌, ◌∷◌, ◌++◌, [], List, ℕ, OnOk, map, true, false};
ghost use Rattle.std.specs.Str.{bytes_eq};
ghost use Rattle.indexmap.specs.IndexMap.{get_by};
ghost use Rattle.c_rule.specs.RuleScope.{body_from};
ghost use Rattle.c_scope.specs.Entries.{body_of};

use crate::first::{insert_first, next_number};
use indexmap::IndexMap;
use num_le::Name;
use std::alloc::{AllocError, Global};

/// A function body of a unit.
#[derive(Drop)]
pub struct Body {
    pub name: Name,
    pub is_static: bool,
}

/// The function bodies of a unit, in textual order.
#[derive(Drop)]
pub struct Bodies {
    list: Vec<Body>,
    // The number of the first static body of each name, and of the first external one.
    own: IndexMap<Vec<u8>, u32>,
    outside: IndexMap<Vec<u8>, u32>,
    ghost own_indexed: { (x : List ℕ) → get_by (λ key. bytes_eq x key.items) own ≡ body_from 0 (map body_of list.items) true x },
    ghost outside_indexed: { (x : List ℕ) → get_by (λ key. bytes_eq x key.items) outside ≡ body_from 0 (map body_of list.items) false x },
}

impl Bodies {
    ghost use Rattle.c_scope.specs.EnvOf.{bodies_of};

    /// No body.
    pub fn new(alloc: Global) -> Bodies
        ensures empty { bodies_of result ≡ [] }
    {
        Bodies {
            list: Vec::new(alloc),
            own: IndexMap::new(alloc),
            outside: IndexMap::new(alloc),
        }
    }

    fn add_own(&mut self, name: Name) -> Result<(), AllocError>
        ensures added { OnOk result (bodies_of self.new ≡ bodies_of self.old ++ record { name = name; is_static = true } ∷ []) }
    {
        let number = next_number(&mut self.list)?;
        insert_first(&mut self.own, name.as_slice(), number)?;
        let is_static = true;
        self.list.push_reserved(Body { name, is_static });
        Ok(())
    }

    fn add_outside(&mut self, name: Name) -> Result<(), AllocError>
        ensures added { OnOk result (bodies_of self.new ≡ bodies_of self.old ++ record { name = name; is_static = false } ∷ []) }
    {
        let number = next_number(&mut self.list)?;
        insert_first(&mut self.outside, name.as_slice(), number)?;
        let is_static = false;
        self.list.push_reserved(Body { name, is_static });
        Ok(())
    }

    /// Adds a body behind the others.
    pub fn add(&mut self, name: Name, is_static: bool) -> Result<(), AllocError>
        ensures added { OnOk result (bodies_of self.new ≡ bodies_of self.old ++ record { name = name; is_static = is_static } ∷ []) }
    {
        if is_static {
            self.add_own(name)
        } else {
            self.add_outside(name)
        }
    }

    /// The number of the body of a function, static or external.
    pub fn number(&self, is_static: bool, name: &[u8]) -> Option<u32>
        ensures value { result ≡ body_from 0 (bodies_of self.now) is_static name.now }
    {
        if is_static {
            self.own.get(name).copied()
        } else {
            self.outside.get(name).copied()
        }
    }
}
