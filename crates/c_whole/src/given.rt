// Whether the declarations of a name give it one type.
ghost use Rattle.std.specs.Prelude.{◌≡◌, ◌++◌, Option};
ghost use Rattle.std.specs.List.{filter_map};
ghost use Rattle.std.specs.Option.{option_map};
ghost use Rattle.c_join.specs.JoinTypes as t;
ghost use Rattle.c_join.specs.JoinChecks as s;
ghost use Rattle.c_whole.specs.Events.{saying_of};
ghost use Rattle.c_whole.specs.Facts.{subject_of, fact_of, facts_of};
ghost use Rattle.c_whole.specs.Groups.{group_of};
ghost use Rattle.c_constant.specs.Views.{told};
ghost use Rattle.c_whole.specs.Types.{classes_of, by_classes};
ghost use Rattle.c_whole.specs.Given.{given_of, result_of, in_unit, first_of, is_open, kind_of, both, with_fact};

use crate::facts::{Fact, Subject};
use crate::groups::Group;
use crate::said::Said;
use crate::types::{Between, Classes};
use c_constant::ExprType;
use c_type::{CType, Kind};

/// The type that a declaration gives.
#[derive(Clone, Copy, Drop)]
pub enum Given<'a> {
    /// A function that returns int.
    IntFunction,
    /// A function that returns this type.
    Function(&'a CType),
    /// This type.
    Whole(&'a CType),
}

/// A type that is given in a unit.
#[derive(Clone, Copy, Drop)]
pub struct TypeIn<'a> {
    pub unit: usize,
    pub ty: Given<'a>,
}

impl<'a> Given<'a> {
    /// What it returns, if it is a function.
    fn result(&self) -> Option<ExprType<'a>>
        ensures { option_map told result ≡ result_of (given_of self.now) }
    {
        match self {
            Given::IntFunction => Some(ExprType::Int),
            Given::Function(ty) => Some(ExprType::Told(ty)),
            Given::Whole(CType::Fun(ty)) => Some(ExprType::Told(ty)),
            Given::Whole(_) => None,
        }
    }

    /// Whether it is an array without a dimension.
    fn is_open(&self) -> bool
        ensures { result ≡ is_open (given_of self.now) }
    {
        matches!(self, Given::Whole(CType::Arr(0, _)))
    }
}

/// The kind of a number.
fn kind(ty: ExprType<'_>) -> Option<Kind>
    ensures { result ≡ kind_of (told ty.entry) }
{
    match ty {
        ExprType::Int => Some(Kind::Int),
        ExprType::Unsigned => Some(Kind::UInt),
        ExprType::Told(CType::Num(kind)) => Some(*kind),
        ExprType::Told(_) => None,
    }
}

impl<'a> Between<'a> {
    /// Whether two types of expressions or functions are one.
    pub fn agree_here(&self, a: ExprType<'_>, b: ExprType<'_>) -> bool
        ensures { result ≡ t.agree_by (by_classes self.now) (told a.entry) (told b.entry) }
    {
        match (a, b) {
            (ExprType::Told(a), ExprType::Told(b)) => self.agree(a, b),
            _ => match (kind(a), kind(b)) {
                (Some(a), Some(b)) => a == b,
                _ => false,
            },
        }
    }

    fn given_alike(&self, a: Given<'_>, b: Given<'_>) -> bool
        ensures { result ≡ t.declare_alike (by_classes self.now) (given_of a.entry) (given_of b.entry) }
    {
        match (a.result(), b.result()) {
            (Some(x), Some(y)) => self.agree_here(x, y),
            (None, None) => match (a, b) {
                (Given::Whole(a), Given::Whole(b)) => self.declare_alike(a, b),
                _ => false,
            },
            _ => false,
        }
    }
}

/// The type that a fact gives to its name.
fn type_in<'a>(fact: &Fact<'a>) -> Option<TypeIn<'a>>
    ensures { option_map in_unit result ≡ s.type_in (fact_of fact.now) }
{
    let ty = match fact.says {
        Said::Declared(ty) | Said::Common(ty) | Said::Begun(ty) | Said::Named(ty) => Given::Whole(
            ty,
        ),
        Said::Defined(ty, _) => Given::Function(ty),
        Said::Used | Said::Called(_) => return None,
    };
    Some(TypeIn {
        unit: fact.unit,
        ty,
    })
}

impl<'a> Subject<'a> {
    /// The type that `main` and the functions of the library have before they are declared.
    fn first_type(&self) -> Option<TypeIn<'a>>
        ensures { first_of result ≡ s.first_type (subject_of self.now) }
    {
        if self.in_library().is_some() || self.is(b"main") {
            Some(TypeIn {
                unit: 0,
                ty: Given::IntFunction,
            })
        } else {
            None
        }
    }
}

impl<'a> Classes<'a> {
    fn differ(&self, a: TypeIn<'_>, b: TypeIn<'_>) -> bool
        ensures { result ≡ s.differ (s.same_class (classes_of self.now)) (in_unit a.entry) (in_unit b.entry) }
    {
        let between = Between {
            classes: *self,
            left: a.unit,
            right: b.unit,
        };
        !between.given_alike(a.ty, b.ty)
    }

    /// What two types of a name that agree say together: the one with a dimension, if one has it.
    fn both<'b>(&self, kept: Option<TypeIn<'b>>, next: TypeIn<'b>) -> Option<TypeIn<'b>>
        ensures { option_map in_unit result ≡ both (s.same_class (classes_of self.now)) (option_map in_unit kept.entry) (in_unit next.entry) }
    {
        match kept {
            None => Some(next),
            Some(kept) => {
                if self.differ(kept, next) {
                    None
                } else if kept.ty.is_open() {
                    Some(next)
                } else {
                    Some(kept)
                }
            }
        }
    }

    /// What stands for the types of a name behind a further fact, `None` where they differ.
    fn with_fact<'b>(&self, kept: Option<TypeIn<'b>>, fact: &Fact<'b>) -> Option<Option<TypeIn<'b>>>
        ensures { option_map (option_map in_unit) result ≡ with_fact (s.same_class (classes_of self.now)) (option_map in_unit kept.entry) (fact_of fact.now) }
    {
        match type_in(fact) {
            None => Some(kept),
            Some(next) => match self.both(kept, next) {
                None => None,
                Some(both) => Some(Some(both)),
            },
        }
    }

    fn some_differ(&self, first: Option<TypeIn<'_>>, facts: &[Fact<'_>]) -> bool
        ensures { result ≡ s.some_differ (s.same_class (classes_of self.now)) (first_of first.entry ++ filter_map s.type_in (facts_of facts.now)) }
    {
        let mut kept = first;
        for fact in facts {
            match self.with_fact(kept, fact) {
                None => return true,
                Some(next) => kept = next,
            }
        }
        false
    }
}

impl<'a> Group<'a> {
    /// Whether two declarations of a name differ in type.
    pub fn is_clash(&self, classes: Classes<'_>) -> bool
        ensures { result ≡ s.is_clash (s.same_class (classes_of classes.entry)) (group_of self.now).subject (group_of self.now).facts }
    {
        classes.some_differ(self.subject.first_type(), &self.facts)
    }
}
