// The numbers of tags: two tags of a program have one number exactly where they agree.
//
// Each tag begins with a number that it shares with all tags of its name. A class from whose first tag some others differ
// is split in two, until none is left: then tags with one number are alike up to these numbers.
ghost use Rattle.std.specs.Prelude.{◌≡◌, ◌+◌, length, IfOk, MatchOption, OnOk, map};
ghost use Rattle.std.specs.Option.{option_map};
ghost use Rattle.c_type.specs.Of.{tag_of as tag_lem, tags_of};
ghost use Rattle.c_join.specs.JoinTypes as t;
ghost use Rattle.c_tree.specs.TypedOf.{unit_of};
ghost use Rattle.c_whole.specs.Types.{classes_of};
ghost use Rattle.c_whole.specs.Classes as spec;
ghost use Rattle.c_whole.specs.Classes.{place_of, rows_of, leader_in, other_in, named_in, IsCoarse, IsNumbered};

use crate::types::{Between, Classes};
use c_tree::TypedUnit;
use c_type::Tag;
use indexmap::IndexMap;
use std::alloc::{AllocError, Global};

/// A tag of a program: its unit and its number there.
#[derive(Clone, Copy, Debug, Drop, PartialEq, Eq)]
pub struct TagAt {
    pub unit: usize,
    pub tag: usize,
}

/// The first tag of each number.
type Leaders = IndexMap<u32, TagAt>;

/// The numbers of the names of tags.
type Names<'a> = IndexMap<&'a [u8], u32>;

/// The numbers that the other part of a class that is split gets.
type Others = IndexMap<u32, u32>;

fn tag_at(units: &[TypedUnit], at: TagAt) -> Option<&Tag>
    ensures { option_map (λ x. tag_lem x.now) result ≡ t.tag_of (map unit_of units.now) (place_of at) }
{
    units.get(at.unit)?.tags.list.get(at.tag)
}

/// Whether two tags are alike, where tags with one number are one.
fn alike(units: &[TypedUnit], classes: Classes<'_>, a: TagAt, b: TagAt) -> bool
    ensures { result ≡ spec.alike_at (map unit_of units.now) (classes_of classes.entry) (place_of a) (place_of b) }
{
    let between = Between {
        classes,
        left: a.unit,
        right: b.unit,
    };
    match (tag_at(units, a), tag_at(units, b)) {
        (Some(a), Some(b)) => between.alike(a, b),
        (None, None) => true,
        _ => false,
    }
}

/// Whether a tag stays in its class, which has this first tag.
fn stays(units: &[TypedUnit], classes: Classes<'_>, leader: Option<TagAt>, at: TagAt) -> bool
    ensures { result ≡ spec.stays (map unit_of units.now) (classes_of classes.entry) (option_map place_of leader) (place_of at) }
{
    match leader {
        None => false,
        Some(leader) => (leader.unit == at.unit && leader.tag == at.tag)
            || alike(units, classes, at, leader),
    }
}

/// Whether the tags of a unit stay in their classes.
fn row_stays(
    units: &[TypedUnit],
    classes: Classes<'_>,
    leaders: &Leaders,
    unit: usize,
    row: &[u32],
) -> bool
    ensures { result ≡ spec.row_stays (map unit_of units.now) (classes_of classes.entry) (leader_in leaders.now) unit 0 row.now }
{
    for (tag, class) in row.iter().enumerate() {
        let leader = leaders.get(class).copied();
        if !stays(units, classes, leader, TagAt { unit, tag }) {
            return false;
        }
    }
    true
}

/// Whether all tags stay in their classes.
fn all_stay(units: &[TypedUnit], classes: Classes<'_>, leaders: &Leaders) -> bool
    ensures { result ≡ spec.rows_stay (map unit_of units.now) (classes_of classes.entry) (leader_in leaders.now) 0 (classes_of classes.entry) }
{
    for (unit, row) in classes.list.iter().enumerate() {
        if !row_stays(units, classes, leaders, unit, row) {
            return false;
        }
    }
    true
}

/// The number that a tag of a class gets.
fn renumbered(
    units: &[TypedUnit],
    classes: Classes<'_>,
    leaders: &Leaders,
    others: &Others,
    at: TagAt,
    class: u32,
) -> u32
    ensures { result ≡ spec.renumbered (map unit_of units.now) (classes_of classes.entry) (leader_in leaders.now) (other_in others.now) (place_of at) class }
{
    if stays(units, classes, leaders.get(&class).copied(), at) {
        class
    } else {
        others.get(&class).copied().unwrap_or(class)
    }
}

/// The numbers that the tags of a unit get.
fn renumbered_row(
    alloc: Global,
    units: &[TypedUnit],
    classes: Classes<'_>,
    leaders: &Leaders,
    others: &Others,
    unit: usize,
    row: &[u32],
) -> Result<Vec<u32>, AllocError>
    ensures row { IfOk result (λ v. v.items ≡ spec.renumbered_row (map unit_of units.now) (classes_of classes.entry) (leader_in leaders.now) (other_in others.now) unit 0 row.now) }
{
    let mut out = Vec::new(alloc);
    for (tag, class) in row.iter().enumerate() {
        out.push(renumbered(units, classes, leaders, others, TagAt { unit, tag }, *class))?;
    }
    Ok(out)
}

/// The numbers that all tags get.
fn renumbered_rows(
    alloc: Global,
    units: &[TypedUnit],
    classes: Classes<'_>,
    leaders: &Leaders,
    others: &Others,
) -> Result<Vec<Vec<u32>>, AllocError>
    ensures rows { IfOk result (λ v. rows_of v.items ≡ spec.renumbered_rows (map unit_of units.now) (classes_of classes.entry) (leader_in leaders.now) (other_in others.now) 0 (classes_of classes.entry)) }
{
    let mut out = Vec::new(alloc);
    for (unit, row) in classes.list.iter().enumerate() {
        out.push(renumbered_row(alloc, units, classes, leaders, others, unit, row)?)?;
    }
    Ok(out)
}

fn add_leaders(leaders: &mut Leaders, unit: usize, row: &[u32]) -> Result<(), AllocError> {
    for (tag, class) in row.iter().enumerate() {
        if !leaders.contains_key(class) {
            leaders.insert(*class, TagAt { unit, tag })?;
        }
    }
    Ok(())
}

/// The first tag of each class.
fn leaders(alloc: Global, classes: Classes<'_>) -> Result<Leaders, AllocError> {
    let mut leaders = IndexMap::new(alloc);
    for (unit, row) in classes.list.iter().enumerate() {
        add_leaders(&mut leaders, unit, row)?;
    }
    Ok(leaders)
}

fn taken(next: &mut u32) -> Result<u32, AllocError>
    ensures value { IfOk result (λ n. n ≡ next.old) }
    ensures next { OnOk result (next.new ≡ next.old + 1) }
{
    let number = *next;
    *next = number.checked_add(1).ok_or(AllocError)?;
    Ok(number)
}

fn add_others(
    units: &[TypedUnit],
    classes: Classes<'_>,
    leaders: &Leaders,
    others: &mut Others,
    unit: usize,
    row: &[u32],
    next: &mut u32,
) -> Result<(), AllocError> {
    for (tag, class) in row.iter().enumerate() {
        let leader = leaders.get(class).copied();
        if !stays(units, classes, leader, TagAt { unit, tag }) && !others.contains_key(class) {
            others.insert(*class, taken(next)?)?;
        }
    }
    Ok(())
}

/// A new number for the tags of each class that don't stay in it.
fn others(
    alloc: Global,
    units: &[TypedUnit],
    classes: Classes<'_>,
    leaders: &Leaders,
    next: &mut u32,
) -> Result<Others, AllocError> {
    let mut others = IndexMap::new(alloc);
    for (unit, row) in classes.list.iter().enumerate() {
        add_others(units, classes, leaders, &mut others, unit, row, next)?;
    }
    Ok(others)
}

fn add_names<'a>(names: &mut Names<'a>, tags: &'a [Tag], next: &mut u32) -> Result<(), AllocError> {
    for tag in tags {
        let name = tag.name.as_slice();
        if !names.contains_key(name) {
            names.insert(name, taken(next)?)?;
        }
    }
    Ok(())
}

/// A number for each name of a tag.
fn names<'a>(
    alloc: Global,
    units: &'a [TypedUnit],
    next: &mut u32,
) -> Result<Names<'a>, AllocError> {
    let mut names = IndexMap::new(alloc);
    for unit in units {
        add_names(&mut names, &unit.tags.list, next)?;
    }
    Ok(names)
}

/// The first number of a tag: that of its name, or where it has none a number of its own.
fn first_number(names: &Names<'_>, tag: &Tag, own: u32) -> u32
    ensures { result ≡ spec.first_number (named_in names.now) (tag_lem tag.now) own }
{
    let name = tag.name.as_slice();
    if name.is_empty() {
        own
    } else {
        names.get(name).copied().unwrap_or(0)
    }
}

fn first_row(
    alloc: Global,
    names: &Names<'_>,
    tags: &[Tag],
    next: &mut u32,
) -> Result<Vec<u32>, AllocError>
    ensures row { IfOk result (λ v. v.items ≡ spec.first_row (named_in names.now) next.old (map tag_lem tags.now)) }
    ensures next { OnOk result (next.new ≡ next.old + length tags.now) }
{
    let mut out = Vec::new(alloc);
    for tag in tags {
        let own = taken(next)?;
        out.push(first_number(names, tag, own))?;
    }
    Ok(out)
}

fn first_rows(
    alloc: Global,
    names: &Names<'_>,
    units: &[TypedUnit],
    next: &mut u32,
) -> Result<Vec<Vec<u32>>, AllocError>
    ensures rows { IfOk result (λ v. rows_of v.items ≡ spec.first_rows (named_in names.now) next.old (map unit_of units.now)) }
{
    let mut out = Vec::new(alloc);
    for unit in units {
        out.push(first_row(alloc, names, &unit.tags.list, next)?)?;
    }
    Ok(out)
}

/// The numbers at first, which all tags of a name share.
fn first_classes(
    alloc: Global,
    units: &[TypedUnit],
    next: &mut u32,
) -> Result<Vec<Vec<u32>>, AllocError>
    ensures coarse { IfOk result (λ v. IsCoarse (map unit_of units.now) (rows_of v.items)) }
{
    let names = names(alloc, units, next)?;
    let rows = first_rows(alloc, &names, units, next)?;
    Ok(rows)
}

/// The numbers behind one more round, which splits a class, or none where all tags stay in their classes.
fn round(
    alloc: Global,
    units: &[TypedUnit],
    list: &[Vec<u32>],
    next: &mut u32,
) -> Result<Option<Vec<Vec<u32>>>, AllocError>
    requires coarse { IsCoarse (map unit_of units.now) (rows_of list.now) }
    ensures round { IfOk result (λ x. MatchOption x (IsNumbered (map unit_of units.now) (rows_of list.now)) (λ rows. IsCoarse (map unit_of units.now) (rows_of rows.items))) }
{
    let classes = Classes { list };
    let leaders = leaders(alloc, classes)?;
    if all_stay(units, classes, &leaders) {
        return Ok(None);
    }
    let others = others(alloc, units, classes, &leaders, next)?;
    let rows = renumbered_rows(alloc, units, classes, &leaders, &others)?;
    Ok(Some(rows))
}

/// The numbers of the tags of each unit. Two tags have one number exactly where they agree.
///
/// Each round splits a class, so there are fewer rounds than tags. A round takes time in proportion to the members of all
/// tags, so where each structure has the same members in every file that names it there is but one.
pub fn classes(alloc: Global, units: &[TypedUnit]) -> Result<Vec<Vec<u32>>, AllocError>
    ensures numbered { IfOk result (λ v. IsNumbered (map unit_of units.now) (rows_of v.items)) }
{
    let mut next = 0;
    let mut list = first_classes(alloc, units, &mut next)?;
    for _ in 0..u64::MAX {
        match round(alloc, units, &list, &mut next)? {
            Some(rows) => list = rows,
            None => return Ok(list),
        }
    }
    Err(AllocError)
}
