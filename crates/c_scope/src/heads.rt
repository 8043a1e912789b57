// The tags that a unit defines, by their names.
ghost use Rattle.std.specs.Prelude.{◌≡◌, ◌∷◌, ◌++◌, [], List, ℕ, IfOk, OnOk, is_some, map, not};
ghost use Rattle.std.specs.Str.{bytes_eq};
ghost use Rattle.indexmap.specs.IndexMap.{get_by};
ghost use Rattle.c_type.specs.Of.{type_of};
ghost use Rattle.c_rule.specs.RuleNames.{tag_names};
ghost use Rattle.c_rule.specs.RuleScope.{same_kind, tag_from, type_of_tag};
ghost use Rattle.c_rule.specs.RuleTags as t;
ghost use Rattle.c_scope.specs.Entries.{head_of};
ghost use Rattle.c_scope.specs.Places.{head_from};
ghost use Rattle.c_scope.specs.Says.{Says};

use crate::error::TypeErr;
use crate::first::{insert_first, next_number};
use crate::names::first_again;
use c_type::{CType, TagId, TagKind};
use indexmap::IndexMap;
use num_le::Name;
use std::alloc::{AllocError, Global};

/// A tag that a unit defines. Its name is empty where it has none.
#[derive(Drop)]
pub struct Head {
    pub name: Name,
    pub kind: TagKind,
    // Where its body begins.
    pub line: u32,
}

/// The tags that a unit defines, in the order of their closing braces.
#[derive(Drop)]
pub struct Heads {
    list: Vec<Head>,
    // The number and the kind of the first tag of each name, so that looking up takes constant time.
    index: IndexMap<Vec<u8>, (u32, TagKind)>,
    ghost indexed: { (x : List ℕ) → get_by (λ key. bytes_eq x key.items) index ≡ head_from 0 (map head_of list.items) x },
}

/// The type of a tag with its number.
fn tagged(kind: TagKind, number: u32) -> CType
    ensures value { type_of result ≡ type_of_tag kind number }
{
    match kind {
        TagKind::Struct => CType::Struct(TagId(number)),
        TagKind::Union => CType::Union(TagId(number)),
        TagKind::Enum => CType::Enum(TagId(number)),
    }
}

/// Whether two kinds are the same.
fn is_same(a: TagKind, b: TagKind) -> bool
    ensures value { result ≡ same_kind a b }
{
    matches!(
        (a, b),
        (TagKind::Struct, TagKind::Struct)
            | (TagKind::Union, TagKind::Union)
            | (TagKind::Enum, TagKind::Enum)
    )
}

impl Heads {
    ghost use Rattle.c_scope.specs.EnvOf.{heads_of};

    /// No tag.
    pub fn new(alloc: Global) -> Heads
        ensures empty { heads_of result ≡ [] }
    {
        Heads {
            list: Vec::new(alloc),
            index: IndexMap::new(alloc),
        }
    }

    /// Adds a tag behind the others.
    pub fn add(&mut self, name: Name, kind: TagKind, line: u32) -> Result<(), AllocError>
        ensures added { OnOk result (heads_of self.new ≡ heads_of self.old ++ record { name = name; kind = kind } ∷ []) }
    {
        let number = next_number(&mut self.list)?;
        insert_first(&mut self.index, name.as_slice(), (number, kind))?;
        self.list.push_reserved(Head { name, kind, line });
        Ok(())
    }

    /// The type that a tag's name and its kind mean.
    pub fn tag(&self, line: u32, kind: TagKind, name: &[u8]) -> Result<CType, TypeErr>
        ensures judged { Says type_of (tag_from 0 (heads_of self.now) kind name.now) result }
    {
        let Some((number, own)) = self.index.get(name) else {
            return Err(TypeErr::Rule(3, line));
        };
        if !is_same(kind, *own) {
            return Err(TypeErr::Rule(3, line));
        }
        Ok(tagged(kind, *number))
    }

    /// The line of the first tag whose name another tag before it has. There is one exactly where two tags have one name;
    /// those without a name differ from all.
    pub fn again(&self) -> Result<Option<u32>, AllocError>
        ensures told { IfOk result (λ x. is_some x ≡ not (t.names_differ (tag_names (heads_of self.now)))) }
    {
        let alloc = *self.index.allocator();
        let mut names: Vec<&[u8]> = Vec::new(alloc);
        let mut lines = Vec::new(alloc);
        for head in &self.list {
            let name = head.name.as_slice();
            if !name.is_empty() {
                names.push(name)?;
                lines.push(head.line)?;
            }
        }
        let Some(at) = first_again(alloc, &names)? else {
            return Ok(None);
        };
        Ok(Some(lines.get(at).copied().unwrap_or(0)))
    }
}
