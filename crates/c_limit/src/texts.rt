// The limits on texts, starts and lines.
ghost use Rattle.std.specs.Prelude.{◌≡◌, ◌<◌, length, sum, nat_lt, IfOk, IfErr, IfSome, map, option_map};
ghost use Rattle.c_type.specs.Names.{at_or};
ghost use Rattle.c_tree.specs.TUnit.{funcs_of, no_unit};
ghost use Rattle.c_tree.specs.Starts as st;
ghost use Rattle.c_tree.specs.TypedOf.{unit_of, program_of};
ghost use Rattle.c_limit.specs.Limits.{first_passed, text_limits, line_limits, start_count, greatest_of, Lines};
ghost use Rattle.c_limit.specs.Temporaries.{counted};
ghost use Rattle.c_limit.specs.Errors.{excess_of};

use crate::LimitErr;
use c_tree::{Program, TExt, TypedUnit, starts};
use std::alloc::{AllocError, Global};

/// The sum of lengths, at most 18446744073709551615.
fn total(counts: &[u32]) -> u64
    ensures { result ≡ counted (sum counts.now) }
{
    let mut total: u64 = 0;
    for count in counts {
        total = total.saturating_add(u64::from(*count));
    }
    total
}

/// The number of function bodies of a unit, at most 18446744073709551615.
fn body_count(unit: &TypedUnit) -> u64
    ensures { result ≡ counted (length (funcs_of (unit_of unit.now).exts)) }
{
    let mut count: u64 = 0;
    for ext in &unit.exts {
        if let TExt::Func(_, _) = ext {
            count = count.saturating_add(1);
        }
    }
    count
}

/// The greatest of some lines.
fn greatest(lines: &[u32]) -> u32
    ensures { result ≡ greatest_of lines.now }
{
    let mut most: u32 = 0;
    for line in lines {
        most = most.max(*line);
    }
    most
}

/// The starts and bodies of a file together, at most 18446744073709551615.
fn starts_in(alloc: Global, p: &Program, file: u32) -> Result<u64, AllocError>
    requires { file < length p.now.units.items }
    ensures { IfOk result (λ n. n ≡ counted (start_count (at_or no_unit (program_of p.now).units file))) }
{
    let lines = starts(alloc, p, file)?;
    Ok((lines.len() as u64).saturating_add(body_count(&p.units[file as usize])))
}

/// Whether a start of a file stands behind line 65,535.
fn is_long(alloc: Global, p: &Program, file: u32) -> Result<bool, AllocError>
    requires { file < length p.now.units.items }
    ensures { IfOk result (λ b. b ≡ nat_lt 65535 (greatest_of (st.lines (st.starts (at_or no_unit (program_of p.now).units file))))) }
{
    let lines = starts(alloc, p, file)?;
    Ok(greatest(&lines) > 65535)
}

/// The starts and bodies of all files together, at most 18446744073709551615.
fn all_starts(alloc: Global, p: &Program) -> Result<u64, AllocError>
    requires { length p.now.units.items < 4294967296 }
    ensures { IfOk result (λ n. n ≡ counted (sum (map start_count (program_of p.now).units))) }
{
    let mut count: u64 = 0;
    for file in 0..p.units.len() {
        count = count.saturating_add(starts_in(alloc, p, file as u32)?);
    }
    Ok(count)
}

/// The first file with a start behind line 65,535.
fn first_long(alloc: Global, p: &Program) -> Result<Option<u32>, AllocError>
    requires { length p.now.units.items < 4294967296 }
    ensures { IfOk result (λ o. option_map Lines o ≡ first_passed (line_limits 0 (program_of p.now).units)) }
{
    for file in 0..p.units.len() {
        if is_long(alloc, p, file as u32)? {
            return Ok(Some(file as u32));
        }
    }
    Ok(None)
}

/// The limits on the texts, whose lengths in bytes are given, and on starts and their lines, in their order.
pub fn texts_fit(alloc: Global, p: &Program, bytes: &[u32]) -> Result<(), LimitErr>
    requires { length p.now.units.items < 4294967296 }
    ensures passed { IfOk result (λ _. first_passed (text_limits (program_of p.now) bytes.now) ≡ None) }
    ensures refused { IfErr result (λ e. IfSome (excess_of e) (λ x. first_passed (text_limits (program_of p.now) bytes.now) ≡ Some x)) }
{
    if total(bytes) > 131000 {
        return Err(LimitErr::Total);
    }
    if all_starts(alloc, p)? > 65000 {
        return Err(LimitErr::Starts);
    }
    match first_long(alloc, p)? {
        Some(file) => Err(LimitErr::Lines(file)),
        None => Ok(()),
    }
}
