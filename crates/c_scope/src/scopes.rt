#![tactic(auto, unfolding(crate::specs::EnvOf::env_of))]

// Where a part of a unit stands: what names and tags mean there, and which numbers were given.
ghost use Rattle.std.specs.Prelude.{◌≡◌, ◌∷◌, ◌+◌, [], suc, length, take, List, ℕ, IfOk, OnOk, is_some, map, not};
ghost use Rattle.std.specs.Option.{option_map};
ghost use Rattle.c_type.specs.Of as o;
ghost use Rattle.c_tree.specs.TreeOf.{unit_of};
ghost use Rattle.c_tree.specs.TypedOf.{ref_of, var_of};
ghost use Rattle.c_rule.specs.RuleNames.{tag_names};
ghost use Rattle.c_tree.specs.TExpr as e;
ghost use Rattle.c_rule.specs.RuleScope as r;
ghost use Rattle.c_rule.specs.RuleStmts as s;
ghost use Rattle.c_rule.specs.RuleTags as t;
ghost use Rattle.c_rule.specs.RuleUnit as u;
ghost use Rattle.c_rule.specs.Judging.{declared_here};
ghost use Rattle.c_rule.specs.JudgingUnit.{declared_in_file};
ghost use Rattle.c_scope.specs.Entries.{meaning_of};
ghost use Rattle.c_scope.specs.EnvOf.{scope_of, blocks_of};
ghost use Rattle.c_scope.specs.Says.{Says};

use crate::again::again;
use crate::bodies::Bodies;
use crate::error::TypeErr;
use crate::heads::Heads;
use crate::layout::lay;
use crate::scope::{Meaning, Scope};
use crate::tags_in::{bodies_in, heads_in};
use crate::types::{copy, copy_name};
use c_tree::{Ref, TParam, Unit};
use c_type::{CType, Tag, TagKind, Tags};
use num_le::Name;
use std::alloc::{AllocError, Global};

/// Where a part of a unit stands.
///
/// After an error nothing is said of it. A number that would pass 4294967295 is want of memory too.
#[derive(Drop)]
pub struct Scopes {
    /// The allocator of what is declared.
    pub alloc: Global,
    // The scopes inside a function, the innermost last.
    blocks: Vec<Scope>,
    file: Scope,
    tags: Tags,
    texts: Vec<Name>,
    starts: u32,
    autos: u32,
    statics: u32,
    heads: Heads,
    bodies: Bodies,
}

/// Declares the parameter with this number.
fn add_parameter(
    alloc: Global,
    scope: &mut Scope,
    at: usize,
    param: &TParam,
) -> Result<(), AllocError>
    ensures added { OnOk result (scope_of scope.new ≡ record { name = (var_of param.now).name; meaning = r.Thing (e.Param at) (var_of param.now).ty } ∷ scope_of scope.old) }
{
    let number = u32::try_from(at).map_err(|_| AllocError)?;
    let ty = copy(alloc, &param.ty)?;
    let name = copy_name(alloc, &param.name)?;
    scope.add(name, Meaning::Thing(Ref::Param(number), ty))
}

/// The scope of a function's parameters.
fn parameter_scope(alloc: Global, params: &[TParam]) -> Result<Scope, AllocError>
    ensures value { IfOk result (λ x. scope_of x ≡ u.parameter_scope 0 (map var_of params.now)) }
{
    let mut scope = Scope::new(alloc);
    let mut left = params.len();
    while left > 0 {
        left -= 1;
        add_parameter(alloc, &mut scope, left, &params[left])?;
    }
    Ok(scope)
}

/// A scope that declares one name.
fn scope_with(alloc: Global, name: Name, meaning: Meaning) -> Result<Scope, AllocError>
    ensures value { IfOk result (λ x. scope_of x ≡ record { name = name; meaning = meaning_of meaning } ∷ []) }
{
    let mut scope = Scope::new(alloc);
    scope.add(name, meaning)?;
    Ok(scope)
}

/// What a name means in the innermost of the scopes that declares it.
fn in_blocks<'a>(blocks: &'a [Scope], name: &[u8]) -> Option<&'a Meaning>
    ensures value { option_map (λ m. meaning_of m.now) result ≡ r.in_scopes name.now (blocks_of blocks.now) }
{
    let mut depth = blocks.len();
    while depth > 0 {
        depth -= 1;
        if let Some(meaning) = blocks[depth].meaning(name) {
            return Some(meaning);
        }
    }
    None
}

impl Scopes {
    ghost use Rattle.c_scope.specs.EnvOf.{env_of};
    ghost use Rattle.c_scope.specs.Blocks.{around};

    /// Where the first part of a unit stands.
    pub fn at_first(alloc: Global, unit: &Unit) -> Result<Scopes, AllocError>
        ensures first { IfOk result (λ c. env_of c ≡ u.at_first (unit_of unit.now)) }
    {
        let heads = heads_in(alloc, unit)?;
        let bodies = bodies_in(alloc, unit)?;
        Ok(Scopes {
            alloc,
            blocks: Vec::new(alloc),
            file: Scope::new(alloc),
            tags: Tags {
                list: Vec::new(alloc),
            },
            texts: Vec::new(alloc),
            starts: 0,
            autos: 0,
            statics: 0,
            heads,
            bodies,
        })
    }

    /// The tags whose bodies are closed.
    pub fn tags(&self) -> &Tags
        ensures value { o.tags_of result.now ≡ (env_of self.now).tags }
    {
        &self.tags
    }

    /// The number of starts that were given.
    pub fn starts(&self) -> u32
        ensures value { result ≡ (env_of self.now).starts }
    {
        self.starts
    }

    /// The number of automatic objects of the function that were given.
    pub fn autos(&self) -> u32
        ensures value { result ≡ (env_of self.now).autos }
    {
        self.autos
    }

    /// The number of texts that were met.
    pub fn count_texts(&self) -> usize
        ensures value { result ≡ length (env_of self.now).texts }
    {
        self.texts.len()
    }

    /// Forgets all texts but the first ones.
    pub fn forget_texts(&mut self, count: usize)
        ensures first { env_of self.new ≡ record (env_of self.old) { texts = take count (env_of self.old).texts } }
    {
        self.texts.truncate(count);
    }

    /// The number of static objects that were given.
    pub fn statics(&self) -> u32
        ensures value { result ≡ (env_of self.now).statics }
    {
        self.statics
    }

    /// What a name means: in blocks from the inside, then in the file.
    pub fn meaning(&self, name: &[u8]) -> Option<&Meaning>
        ensures value { option_map (λ m. meaning_of m.now) result ≡ r.meaning_of (env_of self.now) name.now }
    {
        match in_blocks(&self.blocks, name) {
            Some(meaning) => Some(meaning),
            None => self.file.meaning(name),
        }
    }

    /// What a name means in the file alone.
    pub fn in_file(&self, name: &[u8]) -> Option<&Meaning>
        ensures value { option_map (λ m. meaning_of m.now) result ≡ r.in_scope name.now (env_of self.now).file }
    {
        self.file.meaning(name)
    }

    /// Whether the file does not declare the name.
    pub fn is_free_in_file(&self, name: &[u8]) -> bool
        ensures value { result ≡ s.is_free name.now (env_of self.now).file }
    {
        self.file.is_free(name)
    }

    /// The type that a tag's name and its kind mean.
    pub fn tag(&self, line: u32, kind: TagKind, name: &[u8]) -> Result<CType, TypeErr>
        ensures judged { Says o.type_of (r.tag_from 0 (env_of self.now).heads kind name.now) result }
    {
        self.heads.tag(line, kind, name)
    }

    /// The line of the first tag of the unit whose name another tag before it has. There is one exactly where two tags have
    /// one name.
    pub fn tag_again(&self) -> Result<Option<u32>, AllocError>
        ensures told { IfOk result (λ x. is_some x ≡ not (t.names_differ (tag_names (env_of self.now).heads))) }
    {
        self.heads.again()
    }

    /// What a function's name is bound to, static or external.
    pub fn function_ref(&self, is_static: bool, name: &[u8]) -> Result<Ref, AllocError>
        ensures value { IfOk result (λ x. ref_of x ≡ r.function_ref (env_of self.now) is_static name.now) }
    {
        Ok(match self.bodies.number(is_static, name) {
            Some(number) => Ref::Func(number),
            None => Ref::Outer(Name::of(self.alloc, name)?),
        })
    }

    /// The number of a text, which is met here. Its bytes have the zero byte too.
    pub fn text(&mut self, bytes: Name) -> Result<u32, AllocError>
        ensures number { IfOk result (λ k. k ≡ length (env_of self.old).texts) }
        ensures met { OnOk result (env_of self.new ≡ r.met (bytes ∷ []) (env_of self.old)) }
    {
        let number = u32::try_from(self.texts.len()).map_err(|_| AllocError)?;
        self.texts.push(bytes)?;
        Ok(number)
    }

    /// Passes the next starts.
    pub fn started(&mut self, count: u32) -> Result<(), AllocError>
        ensures past { OnOk result (env_of self.new ≡ r.started count (env_of self.old)) }
    {
        self.starts = self.starts.checked_add(count).ok_or(AllocError)?;
        Ok(())
    }

    /// The number of the next automatic object of the function.
    pub fn next_auto(&mut self) -> Result<u32, AllocError>
        ensures number { IfOk result (λ k. k ≡ (env_of self.old).autos) }
        ensures past { OnOk result (env_of self.new ≡ record (env_of self.old) { autos = suc (env_of self.old).autos }) }
    {
        let number = self.autos;
        self.autos = number.checked_add(1).ok_or(AllocError)?;
        Ok(number)
    }

    /// Takes so many static objects as given.
    pub fn set_statics(&mut self, count: u32)
        ensures past { env_of self.new ≡ record (env_of self.old) { statics = count } }
    {
        self.statics = count;
    }

    /// Whether the innermost block does not declare the name.
    fn is_free_here(&self, name: &[u8]) -> bool
        ensures value { result ≡ s.is_free name.now (s.innermost (env_of self.now).blocks) }
    {
        match self.blocks.last() {
            Some(scope) => scope.is_free(name),
            None => true,
        }
    }

    /// Adds a name to the innermost block.
    fn add_here(&mut self, name: Name, meaning: Meaning) -> Result<(), AllocError>
        ensures added { OnOk result (env_of self.new ≡ record (env_of self.old) { blocks = s.added (record { name = name; meaning = meaning_of meaning }) (env_of self.old).blocks }) }
    {
        if self.blocks.is_empty() {
            self.blocks.push(scope_with(self.alloc, name, meaning)?)?;
            return Ok(());
        }
        let innermost = self.blocks.len() - 1;
        self.blocks[innermost].add(name, meaning)
    }

    /// Declares a name in the innermost block, in which it is new.
    #[tactic(auto, using(crate::proofs::Redeclared::free_here, crate::proofs::Redeclared::taken_here), unfolding(crate::specs::EnvOf::env_of))]
    pub fn declare_here(&mut self, line: u32, name: Name, meaning: Meaning) -> Result<(), TypeErr>
        ensures judged { Says (λ _. env_of self.new) (declared_here (env_of self.old) name (meaning_of meaning)) result }
    {
        if !self.is_free_here(name.as_slice()) {
            return Err(TypeErr::Rule(1, line));
        }
        self.add_here(name, meaning)?;
        Ok(())
    }

    /// Declares a name in the file.
    pub fn add_in_file(&mut self, name: Name, meaning: Meaning) -> Result<(), AllocError>
        ensures added { OnOk result (env_of self.new ≡ t.in_file (record { name = name; meaning = meaning_of meaning }) (env_of self.old)) }
    {
        self.file.add(name, meaning)?;
        Ok(())
    }

    /// What a name means in the file that is declared there, perhaps once more, or none where the declarations differ.
    fn combined(&self, name: &[u8], meaning: Meaning) -> Result<Option<Meaning>, AllocError>
        ensures value { IfOk result (λ x. option_map meaning_of x ≡ u.combined (r.in_scope name.now (env_of self.now).file) (meaning_of meaning)) }
    {
        match self.file.meaning(name) {
            Some(old) => again(self.alloc, old, &meaning),
            None => Ok(Some(meaning)),
        }
    }

    /// Declares an object or a function in the file, perhaps once more.
    #[tactic(auto, using(crate::proofs::Redeclared::combined_declared, crate::proofs::Redeclared::combined_refused), unfolding(crate::specs::EnvOf::env_of))]
    pub fn declare_in_file(
        &mut self,
        line: u32,
        name: Name,
        meaning: Meaning,
    ) -> Result<(), TypeErr>
        ensures judged { Says (λ _. env_of self.new) (declared_in_file (env_of self.old) name (meaning_of meaning)) result }
    {
        match self.combined(name.as_slice(), meaning)? {
            Some(meaning) => Ok(self.add_in_file(name, meaning)?),
            None => Err(TypeErr::Rule(1, line)),
        }
    }

    /// Enters a block.
    pub fn enter(&mut self) -> Result<(), AllocError>
        ensures inside { OnOk result (env_of self.new ≡ s.enter (env_of self.old)) }
    {
        let scope = Scope::new(self.alloc);
        self.blocks.push(scope)?;
        Ok(())
    }

    /// Leaves the innermost block.
    pub fn leave(&mut self)
        ensures outside { env_of self.new ≡ record (env_of self.old) { blocks = around (env_of self.old).blocks } }
    {
        self.blocks.pop();
    }

    /// Closes a tag's body: its sizes and offsets are those that its members' types give.
    pub fn close(&mut self, mut tag: Tag) -> Result<(), AllocError>
        ensures closed { OnOk result (env_of self.new ≡ r.close (o.tag_of tag) (env_of self.old)) }
    {
        lay(&self.tags, &mut tag);
        self.tags.list.push(tag)?;
        Ok(())
    }

    /// Passes the opening brace of a function's body, which begins the scope of its parameters.
    pub fn enter_body(&mut self, params: &[TParam]) -> Result<(), AllocError>
        ensures inside { OnOk result (env_of self.new ≡ u.in_body (map var_of params.now) (env_of self.old)) }
    {
        let scope = parameter_scope(self.alloc, params)?;
        self.started(1)?;
        self.autos = 0;
        self.blocks.clear();
        self.blocks.push(scope)?;
        Ok(())
    }

    /// Passes the closing brace of a function's body.
    pub fn leave_body(&mut self) -> Result<(), AllocError>
        ensures outside { OnOk result (env_of self.new ≡ record (r.started 1 (env_of self.old)) { blocks = [] }) }
    {
        self.blocks.clear();
        self.started(1)
    }

    /// The tags that are closed and the texts that were met.
    pub fn into_parts(self) -> (Tags, Vec<Name>)
        ensures tags { o.tags_of result.0 ≡ (env_of self).tags }
        ensures texts { result.1.items ≡ (env_of self).texts }
    {
        (self.tags, self.texts)
    }
}
