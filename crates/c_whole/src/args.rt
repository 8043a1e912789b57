// Whether calls by name fit the definitions of their functions.
ghost use Rattle.std.specs.Prelude.{◌≡◌, ◌||◌, ◌&&◌, map, Bool, List, option_to_list};
ghost use Rattle.std.specs.List.{list_any, filter_map};
ghost use Rattle.std.specs.Option.{option_map};
ghost use Rattle.c_type.specs.Names.{at_or};
ghost use Rattle.c_type.specs.Of.{tag_of};
ghost use Rattle.c_tree.specs.Constant.{is_zero};
ghost use Rattle.c_tree.specs.TUnit.{no_unit};
ghost use Rattle.c_tree.specs.TypedOf.{expr_of, unit_of, var_of};
ghost use Rattle.c_tree.specs.TExpr as e;
ghost use Rattle.c_join.specs.JoinTypes as t;
ghost use Rattle.c_join.specs.JoinChecks as s;
ghost use Rattle.c_whole.specs.Events.{args_from};
ghost use Rattle.c_whole.specs.Facts.{subject_of, fact_of, facts_of};
ghost use Rattle.c_whole.specs.Groups.{group_of};
ghost use Rattle.c_whole.specs.Types.{classes_of, by_classes};
ghost use Rattle.c_whole.specs.Given.{library_types, types_of, params_of};

use crate::facts::{Fact, Subject};
use crate::groups::Group;
use crate::said::Said;
use crate::types::{Between, Classes};
use c_constant::{ExprType, is_zero, type_of};
use c_tree::{TExpr, TParam, TypedUnit};
use c_type::Tag;

/// The parameters of a definition.
#[derive(Clone, Copy, Drop)]
pub enum Params<'a> {
    /// Those of a function of the library, which takes an int or nothing.
    Library(bool),
    Told(&'a [TParam]),
}

/// The parameters of a definition, with its unit.
#[derive(Clone, Copy, Drop)]
pub struct ParamsIn<'a> {
    pub unit: usize,
    pub types: Params<'a>,
}

/// The units, with the numbers of their tags.
#[derive(Clone, Copy, Drop)]
pub struct Whole<'a> {
    pub units: &'a [TypedUnit],
    pub classes: Classes<'a>,
}

impl<'a> Between<'a> {
    /// Whether an argument is of its parameter's kind.
    fn fits_kind(&self, tags: &[Tag], param: &TParam, arg: &TExpr) -> bool
        ensures { result ≡ s.fits_kind (t.agree_by (by_classes self.now)) (is_zero (map tag_of tags.now) (expr_of arg.now)) (var_of param.now).ty (e.type_of (expr_of arg.now)) }
    {
        let wanted = ExprType::Told(&param.ty);
        let got = type_of(arg);
        (wanted.is_integer() && got.is_integer())
            || (wanted.is_pointer()
                && (self.agree_here(wanted, got) || (got.is_integer() && is_zero(tags, arg))))
    }

    fn fit_told(&self, tags: &[Tag], params: &[TParam], args: &[TExpr]) -> bool
        ensures { result ≡ s.fit (t.agree_by (by_classes self.now)) (map tag_of tags.now) (map (λ v. v.ty) (map var_of params.now)) (args_from args.now) }
    {
        if params.len() != args.len() {
            return false;
        }
        for i in 0..args.len() {
            if !self.fits_kind(tags, &params[i], &args[i]) {
                return false;
            }
        }
        true
    }

    /// As many arguments as parameters, each of its parameter's kind.
    fn fit(&self, tags: &[Tag], params: Params<'_>, args: &[TExpr]) -> bool
        ensures { result ≡ s.fit (t.agree_by (by_classes self.now)) (map tag_of tags.now) (types_of params.entry) (args_from args.now) }
    {
        match params {
            Params::Told(params) => self.fit_told(tags, params, args),
            Params::Library(takes) => match args {
                [] => !takes,
                [arg] => takes && type_of(arg).is_integer(),
                _ => false,
            },
        }
    }
}

/// The tags of a unit, none where the unit isn't there.
fn tags_in(units: &[TypedUnit], unit: usize) -> &[Tag]
    ensures { map tag_of result.now ≡ (at_or no_unit (map unit_of units.now) unit).tags }
{
    match units.get(unit) {
        Some(unit) => &unit.tags.list,
        None => &[],
    }
}

/// The parameters that a fact defines.
fn params_in<'a>(fact: &Fact<'a>) -> Option<ParamsIn<'a>>
    ensures { option_map params_of result ≡ s.params_in (fact_of fact.now) }
{
    match fact.says {
        Said::Defined(_, params) => Some(ParamsIn {
            unit: fact.unit,
            types: Params::Told(params),
        }),
        _ => None,
    }
}

impl<'a> ParamsIn<'a> {
    fn has_params(&self) -> bool
        ensures { result ≡ s.has_params (params_of self.now) }
    {
        match self.types {
            Params::Library(takes) => takes,
            Params::Told(params) => !params.is_empty(),
        }
    }
}

impl<'a> Whole<'a> {
    /// Whether the fact is a call that doesn't fit the definition.
    fn misfits(&self, definition: ParamsIn<'_>, fact: &Fact<'_>) -> bool
        ensures { result ≡ s.misfits (map unit_of self.now.units.now) (s.same_class (classes_of self.now.classes)) (params_of definition.entry) (fact_of fact.now) }
    {
        let Said::Called(args) = fact.says else {
            return false;
        };
        let between = Between {
            classes: self.classes,
            left: definition.unit,
            right: fact.unit,
        };
        !between.fit(tags_in(self.units, fact.unit), definition.types, args)
    }

    fn calls_misfit(&self, definition: ParamsIn<'_>, facts: &[Fact<'_>]) -> bool
        ensures { result ≡ list_any (s.misfits (map unit_of self.now.units.now) (s.same_class (classes_of self.now.classes)) (params_of definition.entry)) (facts_of facts.now) }
    {
        for fact in facts {
            if self.misfits(definition, fact) {
                return true;
            }
        }
        false
    }

    /// Whether a call among the facts doesn't fit a definition among them.
    fn defined_misfit(&self, facts: &[Fact<'_>]) -> bool
        ensures { result ≡ list_any (λ d. list_any (s.misfits (map unit_of self.now.units.now) (s.same_class (classes_of self.now.classes)) d) (facts_of facts.now)) (filter_map s.params_in (facts_of facts.now)) }
    {
        for fact in facts {
            if let Some(definition) = params_in(fact) {
                if self.calls_misfit(definition, facts) {
                    return true;
                }
            }
        }
        false
    }

    /// Whether a call among the facts doesn't fit the function of the library that has the name.
    fn library_misfit(&self, subject: Subject<'_>, facts: &[Fact<'_>]) -> bool
        ensures { result ≡ list_any (λ d. list_any (s.misfits (map unit_of self.now.units.now) (s.same_class (classes_of self.now.classes)) d) (facts_of facts.now)) (s.library_params (subject_of subject.entry)) }
    {
        match subject.library_params() {
            Some(definition) => self.calls_misfit(definition, facts),
            None => false,
        }
    }

    /// Whether a call by name doesn't fit its function's definition, or main has parameters.
    pub fn is_misfit(&self, group: &Group<'_>) -> bool
        ensures { result ≡ s.is_misfit (map unit_of self.now.units.now) (s.same_class (classes_of self.now.classes)) (group_of group.now).subject (group_of group.now).facts }
    {
        let subject = group.subject;
        self.library_misfit(subject, &group.facts)
            || self.defined_misfit(&group.facts)
            || (subject.is(b"main")
                && (subject.library_has_params() || defined_has_params(&group.facts)))
    }
}

impl<'a> Subject<'a> {
    /// The parameters of the function of the library that has the name.
    fn library_params(&self) -> Option<ParamsIn<'a>>
        ensures { option_to_list (option_map params_of result) ≡ s.library_params (subject_of self.now) }
    {
        match self.in_library() {
            Some(takes) => Some(ParamsIn {
                unit: 0,
                types: Params::Library(takes),
            }),
            None => None,
        }
    }

    fn library_has_params(&self) -> bool
        ensures { result ≡ list_any s.has_params (s.library_params (subject_of self.now)) }
    {
        match self.library_params() {
            Some(definition) => definition.has_params(),
            None => false,
        }
    }
}

/// Whether a definition among the facts has parameters.
fn defined_has_params(facts: &[Fact<'_>]) -> bool
    ensures { result ≡ list_any s.has_params (filter_map s.params_in (facts_of facts.now)) }
{
    for fact in facts {
        if let Some(definition) = params_in(fact) {
            if definition.has_params() {
                return true;
            }
        }
    }
    false
}
