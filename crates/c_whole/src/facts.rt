// What the units of a program say of its names.
ghost use Rattle.std.specs.Prelude.{◌≡◌, ◌++◌, ◌&&◌, List, ℕ, Bool, not, IfOk, OnOk, map};
ghost use Rattle.std.specs.List.{list_any};
ghost use Rattle.c_type.specs.Names.{pick};
ghost use Rattle.c_join.specs.JoinSaid as s;
ghost use Rattle.c_tree.specs.TUnit.{funcs_of};
ghost use Rattle.c_tree.specs.TypedOf.{ext_of, unit_of};
ghost use Rattle.c_whole.specs.Events.{events_of, whose_of, has_name};
ghost use Rattle.c_whole.specs.Facts.{subject_of, fact_of, facts_of, bodies_of, lacks};

use crate::in_units::events;
use crate::said::{Event, Said, Whose};
use c_tree::{TExt, TFunc, TypedUnit};
use indexmap::IndexSet;
use std::alloc::{AllocError, Global};

/// A name as the program has it: an external one, or that of a static function of a unit.
#[derive(Clone, Copy, Debug, Drop, PartialEq, Eq, Hash)]
pub struct Subject<'a> {
    pub within: Option<usize>,
    pub name: &'a [u8],
}

/// One thing that a unit says of a name.
#[derive(Clone, Copy, Drop)]
pub struct Fact<'a> {
    pub about: Subject<'a>,
    pub unit: usize,
    pub says: Said<'a>,
}

/// The functions of a unit: its bodies, and the names that it declares and that it defines as static.
#[derive(Drop)]
struct Functions<'a> {
    bodies: Vec<&'a TFunc>,
    declared: IndexSet<&'a [u8]>,
    defined: IndexSet<&'a [u8]>,
}

fn bodies(alloc: Global, unit: &TypedUnit) -> Result<Vec<&TFunc>, AllocError>
    ensures bodies { IfOk result (λ v. bodies_of v.items ≡ funcs_of (unit_of unit.now).exts) }
{
    let mut bodies = Vec::new(alloc);
    for ext in &unit.exts {
        if let TExt::Func(_, func) = ext {
            bodies.push(func)?;
        }
    }
    Ok(bodies)
}

/// The static functions that events declare without defining them.
fn declared<'a>(alloc: Global, events: &[Event<'a>]) -> Result<IndexSet<&'a [u8]>, AllocError>
    ensures names { IfOk result (λ names. (x : List ℕ) → has_name names.keys x ≡ list_any (s.declares_static x) (events_of events.now)) }
{
    let mut names = IndexSet::new(alloc);
    for event in events {
        if let (Whose::Hidden(name), Said::Declared(_)) = (event.about, event.says) {
            names.insert(name)?;
        }
    }
    Ok(names)
}

/// The static functions that events define.
fn defined<'a>(alloc: Global, events: &[Event<'a>]) -> Result<IndexSet<&'a [u8]>, AllocError>
    ensures names { IfOk result (λ names. (x : List ℕ) → has_name names.keys x ≡ list_any (s.defines_static x) (events_of events.now)) }
{
    let mut names = IndexSet::new(alloc);
    for event in events {
        if let (Whose::Hidden(name), Said::Defined(_, _)) = (event.about, event.says) {
            names.insert(name)?;
        }
    }
    Ok(names)
}

fn external(name: &[u8]) -> Subject<'_>
    ensures { subject_of result ≡ s.external name.now }
{
    Subject { within: None, name }
}

/// The name of a function of the unit.
fn function_of(unit: usize, is_static: bool, name: &[u8]) -> Subject<'_>
    ensures { subject_of result ≡ s.function_of unit is_static name.now }
{
    let within = if is_static { Some(unit) } else { None };
    Subject { within, name }
}

impl<'a> Functions<'a> {
    /// Whether the unit declares the name as a static function and never defines it.
    fn lacks(&self, name: &[u8]) -> bool
        ensures { result ≡ lacks self.now name.now }
    {
        self.declared.contains(name) && !self.defined.contains(name)
    }

    /// The name as the program has it.
    fn subject(&self, unit: usize, about: Whose<'a>) -> Subject<'a>
        ensures { subject_of result ≡ s.subject unit (bodies_of self.now.bodies.items) (lacks self.now) (whose_of about.entry) }
    {
        match about {
            Whose::External(name) => external(name),
            Whose::Hidden(name) => function_of(unit, true, name),
            Whose::Own(k) => match self.bodies.get(k as usize) {
                Some(body) => function_of(unit, body.is_static, body.name.as_slice()),
                None => external(b""),
            },
            Whose::Outer(name) => function_of(unit, self.lacks(name), name),
        }
    }
}

/// Adds what events of a unit say.
fn add_said<'a>(
    number: usize,
    functions: &Functions<'a>,
    events: &[Event<'a>],
    out: &mut Vec<Fact<'a>>,
) -> Result<(), AllocError>
    ensures added { OnOk result (facts_of out.new.items ≡ facts_of out.old.items ++ map (s.fact number (bodies_of functions.now.bodies.items) (lacks functions.now)) (events_of events.now)) }
{
    for event in events {
        out.push(Fact {
            about: functions.subject(number, event.about),
            unit: number,
            says: event.says,
        })?;
    }
    Ok(())
}

/// The functions of a unit, which says this.
fn functions_in<'a>(
    alloc: Global,
    unit: &'a TypedUnit,
    events: &[Event<'a>],
) -> Result<Functions<'a>, AllocError>
    ensures bodies { IfOk result (λ f. bodies_of f.bodies.items ≡ funcs_of (unit_of unit.now).exts) }
    ensures declared { IfOk result (λ f. (x : List ℕ) → has_name f.declared.keys x ≡ list_any (s.declares_static x) (events_of events.now)) }
    ensures defined { IfOk result (λ f. (x : List ℕ) → has_name f.defined.keys x ≡ list_any (s.defines_static x) (events_of events.now)) }
{
    let bodies = bodies(alloc, unit)?;
    let declared = declared(alloc, events)?;
    let defined = defined(alloc, events)?;
    Ok(Functions {
        bodies,
        declared,
        defined,
    })
}

/// Adds what a unit says.
fn add_facts<'a>(
    alloc: Global,
    number: usize,
    unit: &'a TypedUnit,
    out: &mut Vec<Fact<'a>>,
) -> Result<(), AllocError>
    ensures added { IfOk result (λ _. facts_of out.new.items ≡ facts_of out.old.items ++ s.facts_in number (unit_of unit.now)) }
{
    let events = events(alloc, unit)?;
    let functions = functions_in(alloc, unit, &events)?;
    add_said(number, &functions, &events, out)
}

/// What the units of a program say, file by file, in textual order.
pub fn facts(alloc: Global, units: &[TypedUnit]) -> Result<Vec<Fact<'_>>, AllocError>
    ensures facts { IfOk result (λ v. facts_of v.items ≡ s.facts (map unit_of units.now)) }
{
    let mut out = Vec::new(alloc);
    for (number, unit) in units.iter().enumerate() {
        add_facts(alloc, number, unit, &mut out)?;
    }
    Ok(out)
}
