// Why the units of a program don't make one.
ghost use Rattle.std.specs.Prelude.{◌≡◌, map, Some, IfOk, IfSome, IfErr};
ghost use Rattle.std.specs.Option.{option_map};
ghost use Rattle.c_join.specs.JoinSaid.{facts as facts_lem};
ghost use Rattle.c_join.specs.JoinChecks as s;
ghost use Rattle.c_tree.specs.TypedOf.{unit_of};
ghost use Rattle.c_whole.specs.Facts.{facts_of};
ghost use Rattle.c_whole.specs.Groups.{groups_of, grouped};
ghost use Rattle.c_whole.specs.Types.{classes_of};
ghost use Rattle.c_whole.specs.Classes.{rows_of};
ghost use Rattle.c_whole.specs.Refusals.{in_order, refusal_of, told_as, IsAccepted};

use crate::JoinErr;
use crate::args::Whole;
use crate::checks::has_main;
use crate::classes::classes;
use crate::facts::{Fact, facts};
use crate::first::{first_clash, first_misfit, first_twice, first_undefined};
use crate::groups::{Group, groups};
use crate::types::Classes;
use c_tree::TypedUnit;
use num_le::Name;
use std::alloc::{AllocError, Global};

/// Why units are refused, with the name as it stands in them.
#[derive(Clone, Copy, Drop)]
pub enum Refusal<'a> {
    NoMain,
    Twice(&'a [u8]),
    Undefined(&'a [u8]),
    Clash(&'a [u8]),
    Arguments(&'a [u8]),
}

/// The first refusal, in the order of the checks.
fn first_refusal<'a>(
    complete: bool,
    main: bool,
    twice: Option<&'a [u8]>,
    undefined: Option<&'a [u8]>,
    clash: Option<&'a [u8]>,
    arguments: Option<&'a [u8]>,
) -> Option<Refusal<'a>>
    ensures { option_map refusal_of result ≡ in_order complete main (option_map (λ n. n.now) twice.entry) (option_map (λ n. n.now) undefined.entry) (option_map (λ n. n.now) clash.entry) (option_map (λ n. n.now) arguments.entry) }
{
    if complete && !main {
        return Some(Refusal::NoMain);
    }
    if let Some(name) = twice {
        return Some(Refusal::Twice(name));
    }
    if complete {
        if let Some(name) = undefined {
            return Some(Refusal::Undefined(name));
        }
    }
    if let Some(name) = clash {
        return Some(Refusal::Clash(name));
    }
    match arguments {
        Some(name) => Some(Refusal::Arguments(name)),
        None => None,
    }
}

/// Why the units are refused, by what they say of each name.
fn of_groups<'a>(
    complete: bool,
    whole: &Whole<'_>,
    facts: &[Fact<'a>],
    groups: &[Group<'a>],
) -> Option<Refusal<'a>>
    requires said { facts_of facts.now ≡ facts_lem (map unit_of whole.now.units.now) }
    requires grouped { groups_of groups.now ≡ grouped (facts_of facts.now) }
    ensures { option_map refusal_of result ≡ s.refusal complete (map unit_of whole.now.units.now) (s.same_class (classes_of whole.now.classes)) }
{
    first_refusal(
        complete,
        has_main(facts),
        first_twice(groups),
        first_undefined(groups),
        first_clash(groups, whole.classes),
        first_misfit(groups, whole),
    )
}

/// Why the units are refused, if they are.
fn of_units<'a>(
    alloc: Global,
    complete: bool,
    units: &'a [TypedUnit],
    classes: Classes<'_>,
) -> Result<Option<Refusal<'a>>, AllocError>
    ensures refusal { IfOk result (λ why. option_map refusal_of why ≡ s.refusal complete (map unit_of units.now) (s.same_class (classes_of classes.entry))) }
{
    let facts = facts(alloc, units)?;
    let groups = groups(alloc, &facts)?;
    Ok(of_groups(complete, &Whole { units, classes }, &facts, &groups))
}

fn with_name(alloc: Global, refusal: Refusal<'_>) -> Result<JoinErr, AllocError>
    ensures told { IfOk result (λ e. told_as e ≡ Some (refusal_of refusal.entry)) }
{
    Ok(match refusal {
        Refusal::NoMain => JoinErr::NoMain,
        Refusal::Twice(name) => JoinErr::Twice(Name::of(alloc, name)?),
        Refusal::Undefined(name) => JoinErr::Undefined(Name::of(alloc, name)?),
        Refusal::Clash(name) => JoinErr::Clash(Name::of(alloc, name)?),
        Refusal::Arguments(name) => JoinErr::Arguments(Name::of(alloc, name)?),
    })
}

/// The refusal with a name of its own, for which memory may be wanting.
fn error(alloc: Global, refusal: Refusal<'_>) -> JoinErr
    ensures { IfSome (told_as result) (λ why. why ≡ refusal_of refusal.entry) }
{
    match with_name(alloc, refusal) {
        Ok(error) => error,
        Err(_) => JoinErr::Memory,
    }
}

/// The numbers of the tags of units that nothing refuses.
pub fn checked(alloc: Global, complete: bool, units: &[TypedUnit]) -> Result<Vec<Vec<u32>>, JoinErr>
    ensures accepted { IfOk result (λ v. IsAccepted complete (map unit_of units.now) (rows_of v.items)) }
    ensures refused { IfErr result (λ e. IfSome (told_as e) (s.IsRefused complete (map unit_of units.now))) }
{
    let classes = classes(alloc, units)?;
    match of_units(alloc, complete, units, Classes { list: &classes })? {
        Some(refusal) => Err(error(alloc, refusal)),
        None => Ok(classes),
    }
}
