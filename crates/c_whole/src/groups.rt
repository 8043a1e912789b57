// What is said of each name of a program.
ghost use Rattle.std.specs.Prelude.{◌≡◌, ◌∷◌, [], IfOk, OnOk, map};
ghost use Rattle.std.specs.List.{position_or_len};
ghost use Rattle.indexmap.specs.IndexSet.{insert_key};
ghost use Rattle.c_join.specs.JoinChecks.{same_subject};
ghost use Rattle.c_whole.specs.Facts.{subject_of, fact_of, facts_of};
ghost use Rattle.c_whole.specs.Groups.{same_name, groups_of, placed, grouped};

use crate::facts::{Fact, Subject};
use indexmap::IndexSet;
use std::alloc::{AllocError, Global};

/// A name, and what is said of it.
#[derive(Drop)]
pub struct Group<'a> {
    pub subject: Subject<'a>,
    pub facts: Vec<Fact<'a>>,
}

/// A name of which one thing is said.
fn first_of<'a>(alloc: Global, fact: Fact<'a>) -> Result<Group<'a>, AllocError>
    ensures subject { IfOk result (λ g. g.subject ≡ fact.entry.about) }
    ensures facts { IfOk result (λ g. facts_of g.facts.items ≡ fact_of fact.entry ∷ []) }
{
    let mut facts = Vec::new(alloc);
    facts.push(fact)?;
    Ok(Group {
        subject: fact.about,
        facts,
    })
}

/// Puts a fact with those of its name, which stand at this index, or behind all where the name is new.
fn place<'a>(
    alloc: Global,
    groups: &mut Vec<Group<'a>>,
    index: usize,
    fact: Fact<'a>,
) -> Result<(), AllocError>
    requires found { index ≡ position_or_len (same_subject (subject_of fact.about)) (map (λ g. subject_of g.subject) groups.old.items) }
    ensures placed { OnOk result (groups_of groups.new.items ≡ placed (groups_of groups.old.items) (fact_of fact.entry)) }
    ensures names { OnOk result (map (λ g. g.subject) groups.new.items ≡ insert_key same_name (map (λ g. g.subject) groups.old.items) fact.entry.about) }
{
    if index < groups.len() {
        groups[index].facts.push(fact)?;
    } else {
        groups.push(first_of(alloc, fact)?)?;
    }
    Ok(())
}

/// Puts a fact with those of its name. The names are those of the groups, in their order.
fn add<'a>(
    alloc: Global,
    names: &mut IndexSet<Subject<'a>>,
    groups: &mut Vec<Group<'a>>,
    fact: Fact<'a>,
) -> Result<(), AllocError>
    requires names { names.old.keys ≡ map (λ g. g.subject) groups.old.items }
    ensures placed { OnOk result (groups_of groups.new.items ≡ placed (groups_of groups.old.items) (fact_of fact.entry)) }
    ensures names { OnOk result (names.new.keys ≡ map (λ g. g.subject) groups.new.items) }
{
    let (index, _) = names.insert_full(fact.about)?;
    place(alloc, groups, index, fact)
}

/// The names in order of first mention, each with what is said of it.
pub fn groups<'a>(alloc: Global, facts: &[Fact<'a>]) -> Result<Vec<Group<'a>>, AllocError>
    ensures groups { IfOk result (λ v. groups_of v.items ≡ grouped (facts_of facts.now)) }
{
    let mut names = IndexSet::new(alloc);
    let mut groups = Vec::new(alloc);
    for fact in facts {
        add(alloc, &mut names, &mut groups, *fact)?;
    }
    Ok(groups)
}
