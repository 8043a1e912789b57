// What is asked of each name: definitions, uses, types.
ghost use Rattle.std.specs.Prelude.{◌≡◌, List, ℕ, Bool, Option};
ghost use Rattle.std.specs.List.{list_any};
ghost use Rattle.std.specs.Option.{option_map};
ghost use Rattle.c_join.specs.JoinChecks as s;
ghost use Rattle.c_whole.specs.Events.{saying_of};
ghost use Rattle.c_whole.specs.Facts.{subject_of, facts_of};
ghost use Rattle.c_whole.specs.Groups.{group_of};
ghost use Rattle.c_whole.specs.Given.{library_types};

use crate::facts::{Fact, Subject};
use crate::groups::Group;
use crate::said::Said;

/// Whether the function of the library that has the name takes an int, if there is one.
fn library(name: &[u8]) -> Option<bool>
    ensures { option_map library_types result ≡ s.library name.now }
{
    if name == b"putchar".as_slice() || name == b"exit".as_slice() {
        Some(true)
    } else if name == b"getchar".as_slice() {
        Some(false)
    } else {
        None
    }
}

impl<'a> Subject<'a> {
    pub fn is_external(&self) -> bool
        ensures { result ≡ s.is_external (subject_of self.now) }
    {
        self.within.is_none()
    }

    /// Whether it is this external name.
    pub fn is(&self, name: &[u8]) -> bool
        ensures { result ≡ s.is_name name.now (subject_of self.now) }
    {
        self.is_external() && self.name == name
    }

    /// Whether the function of the library that has this name takes an int, if there is one.
    pub fn in_library(&self) -> Option<bool>
        ensures { option_map library_types result ≡ s.in_library (subject_of self.now) }
    {
        if self.is_external() {
            library(self.name)
        } else {
            None
        }
    }

    /// Whether the library or the start-up text defines the name.
    fn is_given(&self) -> bool
        ensures { result ≡ s.is_given (subject_of self.now) }
    {
        self.in_library().is_some() || self.is(b"_start")
    }

    /// Whether this defines an object or a function of that name. A common `_start` is a definition too.
    fn defines(&self, says: Said<'a>) -> bool
        ensures { result ≡ s.defines (subject_of self.now) (saying_of says.entry) }
    {
        match says {
            Said::Begun(_) | Said::Defined(_, _) => true,
            Said::Common(_) => self.is(b"_start"),
            Said::Declared(_) | Said::Used | Said::Named(_) | Said::Called(_) => false,
        }
    }
}

impl<'a> Said<'a> {
    /// Whether this uses the name in an expression.
    fn is_use(&self) -> bool
        ensures { result ≡ s.is_use (saying_of self.now) }
    {
        matches!(self, Said::Used | Said::Named(_) | Said::Called(_))
    }

    /// Whether this is a definition or a common.
    fn is_definition(&self) -> bool
        ensures { result ≡ s.is_definition (saying_of self.now) }
    {
        matches!(self, Said::Common(_) | Said::Begun(_) | Said::Defined(_, _))
    }

    /// Whether this is a function body.
    pub fn is_body(&self) -> bool
        ensures { result ≡ s.is_body (saying_of self.now) }
    {
        matches!(self, Said::Defined(_, _))
    }
}

/// Whether an external function `main` is defined.
pub fn has_main(facts: &[Fact<'_>]) -> bool
    ensures { result ≡ s.has_main (facts_of facts.now) }
{
    for fact in facts {
        if fact.about.is(b"main") && fact.says.is_body() {
            return true;
        }
    }
    false
}

fn is_used(facts: &[Fact<'_>]) -> bool
    ensures { result ≡ list_any (λ f. s.is_use f.says) (facts_of facts.now) }
{
    for fact in facts {
        if fact.says.is_use() {
            return true;
        }
    }
    false
}

fn is_defined(facts: &[Fact<'_>]) -> bool
    ensures { result ≡ list_any (λ f. s.is_definition f.says) (facts_of facts.now) }
{
    for fact in facts {
        if fact.says.is_definition() {
            return true;
        }
    }
    false
}

impl<'a> Group<'a> {
    /// Whether an external name has two definitions.
    pub fn is_twice(&self) -> bool
        ensures { result ≡ s.is_twice (group_of self.now).subject (group_of self.now).facts }
    {
        if !self.subject.is_external() {
            return false;
        }
        let mut defined = self.subject.is_given();
        for fact in &self.facts {
            if self.subject.defines(fact.says) {
                if defined {
                    return true;
                }
                defined = true;
            }
        }
        false
    }

    /// Whether the name is used and defined nowhere.
    pub fn is_undefined(&self) -> bool
        ensures { result ≡ s.is_undefined (group_of self.now).subject (group_of self.now).facts }
    {
        is_used(&self.facts) && !(self.subject.in_library().is_some() || is_defined(&self.facts))
    }
}
