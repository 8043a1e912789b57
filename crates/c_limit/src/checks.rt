// The checks of the limits on declared names and on temporaries.
ghost use Rattle.std.specs.Prelude.{◌≡◌, ◌∷◌, [], IfOk, IfErr, IfSome, map, option_map};
ghost use Rattle.std.specs.List.{flat_map};
ghost use Rattle.c_type.specs.Of.{tags_of};
ghost use Rattle.c_tree.specs.TUnit.{funcs_of};
ghost use Rattle.c_tree.specs.TypedOf.{func_of, unit_of, program_of};
ghost use Rattle.c_limit.specs.Limits.{limit, first_passed, name_limits, object_limits, derivation_limits, dimension_limits, temporary_limits, Temporaries, unit_frames, frame_limit};
ghost use Rattle.c_limit.specs.Temporaries.{of_func};
ghost use Rattle.c_limit.specs.Laws.{FramesAreOfUnits};
ghost use Rattle.c_limit.specs.Errors.{excess_of};
ghost use Rattle.c_limit.specs.UnitLimits.{limits_at};

use crate::LimitErr;
use crate::frame::frame_of_parts;
use crate::named_types::{first_derived, first_dimensioned, first_large};
use crate::names::declared_names;
use crate::parts::parts;
use crate::temporaries::temporaries_of_parts;
use c_tree::{Program, TExt, TFunc, TypedUnit};
use c_type::Tags;
use num_le::Name;
use std::alloc::{AllocError, Global};

/// A limit that is checked unit by unit.
#[derive(Clone, Copy, Drop)]
enum UnitLimit {
    Sizes,
    Derivations,
    Dimensions,
    Temporaries,
    Frames,
}

/// The refusal of the first name with a large array or structure inside its type.
fn first_object(alloc: Global, unit: &TypedUnit) -> Result<Option<LimitErr>, AllocError>
    ensures { IfOk result (λ o. option_map excess_of o ≡ option_map Some (first_passed (object_limits (unit_of unit.now)))) }
{
    let names = declared_names(alloc, unit)?;
    let Some(first) = first_large(&names, &unit.tags) else {
        return Ok(None);
    };
    Ok(Some(LimitErr::Object(Name::of(alloc, first)?)))
}

/// The refusal of the first name of too many derivations.
fn first_derivations(alloc: Global, unit: &TypedUnit) -> Result<Option<LimitErr>, AllocError>
    ensures { IfOk result (λ o. option_map excess_of o ≡ option_map Some (first_passed (derivation_limits (unit_of unit.now)))) }
{
    let names = declared_names(alloc, unit)?;
    let Some(first) = first_derived(&names) else {
        return Ok(None);
    };
    Ok(Some(LimitErr::Derivations(Name::of(alloc, first)?)))
}

/// The refusal of the first name of too many arrays, or of one that is too long.
fn first_dimensions(alloc: Global, unit: &TypedUnit) -> Result<Option<LimitErr>, AllocError>
    ensures { IfOk result (λ o. option_map excess_of o ≡ option_map Some (first_passed (dimension_limits (unit_of unit.now)))) }
{
    let names = declared_names(alloc, unit)?;
    let Some(first) = first_dimensioned(&names) else {
        return Ok(None);
    };
    Ok(Some(LimitErr::Dimensions(Name::of(alloc, first)?)))
}

/// The refusal of a function that needs more than 64 temporaries.
fn function_refusal(alloc: Global, func: &TFunc) -> Result<Option<LimitErr>, AllocError>
    ensures { IfOk result (λ o. option_map excess_of o ≡ option_map Some (first_passed (limit (of_func (func_of func.now)) 64 (Temporaries (func_of func.now).name) ∷ []))) }
{
    let parts = parts(alloc, func)?;
    if temporaries_of_parts(&parts) <= 64 {
        return Ok(None);
    }
    let name = Name::of(alloc, func.name.as_slice())?;
    Ok(Some(LimitErr::Temporaries(name)))
}

/// The first function of a unit that is refused.
fn first_function(alloc: Global, unit: &TypedUnit) -> Result<Option<LimitErr>, AllocError>
    ensures { IfOk result (λ o. option_map excess_of o ≡ option_map Some (first_passed (temporary_limits (unit_of unit.now)))) }
{
    for ext in &unit.exts {
        if let TExt::Func(_, func) = ext {
            if let Some(refusal) = function_refusal(alloc, func)? {
                return Ok(Some(refusal));
            }
        }
    }
    Ok(None)
}

/// The refusal of a function whose frame has more than 16,777,216 bytes.
#[tactic(auto, unfolding(crate::specs::Limits::frame_limit))]
fn frame_refusal(alloc: Global, func: &TFunc, tags: &Tags) -> Result<Option<LimitErr>, AllocError>
    ensures { IfOk result (λ o. option_map excess_of o ≡ option_map Some (first_passed (frame_limit (tags_of tags.now) (func_of func.now) ∷ []))) }
{
    let parts = parts(alloc, func)?;
    if frame_of_parts(&parts, tags) <= 16777216 {
        return Ok(None);
    }
    let name = Name::of(alloc, func.name.as_slice())?;
    Ok(Some(LimitErr::Frame(name)))
}

/// The first function of a unit whose frame is refused.
fn first_frame(alloc: Global, unit: &TypedUnit) -> Result<Option<LimitErr>, AllocError>
    ensures { IfOk result (λ o. option_map excess_of o ≡ option_map Some (first_passed (unit_frames (unit_of unit.now)))) }
{
    for ext in &unit.exts {
        if let TExt::Func(_, func) = ext {
            if let Some(refusal) = frame_refusal(alloc, func, &unit.tags)? {
                return Ok(Some(refusal));
            }
        }
    }
    Ok(None)
}

/// The first refusal in a unit, name by name or function by function.
fn first_refusal(
    alloc: Global,
    which: UnitLimit,
    unit: &TypedUnit,
) -> Result<Option<LimitErr>, AllocError>
    ensures { IfOk result (λ o. option_map excess_of o ≡ option_map Some (first_passed (limits_at which (unit_of unit.now)))) }
{
    match which {
        UnitLimit::Sizes => first_object(alloc, unit),
        UnitLimit::Derivations => first_derivations(alloc, unit),
        UnitLimit::Dimensions => first_dimensions(alloc, unit),
        UnitLimit::Temporaries => first_function(alloc, unit),
        UnitLimit::Frames => first_frame(alloc, unit),
    }
}

/// The first refusal in units, file by file.
fn first_of_units(
    alloc: Global,
    which: UnitLimit,
    units: &[TypedUnit],
) -> Result<Option<LimitErr>, AllocError>
    ensures { IfOk result (λ o. option_map excess_of o ≡ option_map Some (first_passed (flat_map (limits_at which) (map unit_of units.now)))) }
{
    for unit in units {
        if let Some(refusal) = first_refusal(alloc, which, unit)? {
            return Ok(Some(refusal));
        }
    }
    Ok(None)
}

/// The limits on the types of declared names, in their order, name by name.
pub fn names_fit(alloc: Global, p: &Program) -> Result<(), LimitErr>
    ensures passed { IfOk result (λ _. first_passed (name_limits (program_of p.now)) ≡ None) }
    ensures refused { IfErr result (λ e. IfSome (excess_of e) (λ x. first_passed (name_limits (program_of p.now)) ≡ Some x)) }
{
    if let Some(size) = first_of_units(alloc, UnitLimit::Sizes, &p.units)? {
        return Err(size);
    }
    if let Some(derivation) = first_of_units(alloc, UnitLimit::Derivations, &p.units)? {
        return Err(derivation);
    }
    match first_of_units(alloc, UnitLimit::Dimensions, &p.units)? {
        Some(dimension) => Err(dimension),
        None => Ok(()),
    }
}

/// The limit on the temporaries of functions, function by function.
pub fn temporaries_fit(alloc: Global, p: &Program) -> Result<(), LimitErr>
    ensures passed { IfOk result (λ _. first_passed (flat_map temporary_limits (program_of p.now).units) ≡ None) }
    ensures refused { IfErr result (λ e. IfSome (excess_of e) (λ x. first_passed (flat_map temporary_limits (program_of p.now).units) ≡ Some x)) }
{
    match first_of_units(alloc, UnitLimit::Temporaries, &p.units)? {
        Some(refusal) => Err(refusal),
        None => Ok(()),
    }
}

/// The limit on the frames of functions, function by function.
pub fn frames_fit(alloc: Global, p: &Program) -> Result<(), LimitErr>
    ensures passed { IfOk result (λ _. first_passed (flat_map unit_frames (program_of p.now).units) ≡ None) }
    ensures refused { IfErr result (λ e. IfSome (excess_of e) (λ x. first_passed (flat_map unit_frames (program_of p.now).units) ≡ Some x)) }
{
    match first_of_units(alloc, UnitLimit::Frames, &p.units)? {
        Some(refusal) => Err(refusal),
        None => Ok(()),
    }
}

/// The limits on frames are those of each unit's functions.
pub fn frames_are_of_units()
    ensures law { FramesAreOfUnits }
{
    // The law is all that is promised.
}
