// The typedef names of a unit up to a place in it.
ghost use Rattle.std.specs.Prelude.{◌≡◌, ◌++◌, ◌∷◌, [], List, ℕ, OnOk, OnErr};
ghost use Rattle.std.specs.Str.{bytes_eq};
ghost use Rattle.indexmap.specs.IndexSet.{contains_by};
ghost use Rattle.c_grammar.specs.WrittenType.{is_typedef};

use indexmap::IndexSet;
use num_le::Name;
use std::alloc::{AllocError, Global};

/// A set of typedef names, in the order in which they were added.
#[derive(Debug, Drop)]
pub struct Typedefs {
    list: Vec<Name>,
    // The bytes of the names, so that a text of many typedef names is read in linear time.
    index: IndexSet<Vec<u8>>,
    ghost indexed: { (x : List ℕ) → contains_by (λ key. bytes_eq x key.items) index ≡ is_typedef list.items x },
}

impl Typedefs {
    ghost use Rattle.c_expr.specs.Typedefs.{names_of};

    /// No name is a typedef name.
    pub fn new(alloc: Global) -> Typedefs
        ensures empty { names_of result ≡ [] }
    {
        Typedefs {
            list: Vec::new(alloc),
            index: IndexSet::new(alloc),
        }
    }

    /// Whether the name is one of them.
    pub fn has(&self, name: &[u8]) -> bool
        ensures member { result ≡ is_typedef (names_of self.now) name.now }
    {
        self.index.contains(name)
    }

    /// Adds a name. The others stay, and all of them where memory is wanting.
    pub fn add(&mut self, name: Name) -> Result<(), AllocError>
        ensures added { OnOk result (names_of self.new ≡ names_of self.old ++ name ∷ []) }
        ensures kept { OnErr result (names_of self.new ≡ names_of self.old) }
    {
        let key = name.as_slice().to_vec(*self.index.allocator())?;
        self.list.reserve(1)?;
        self.index.insert(key)?;
        self.list.push(name).unwrap();
        Ok(())
    }
}
