// The flags that an operation leaves, and the conditions that read them.
ghost use Rattle.std.specs.Prelude.{◌≡◌};
ghost use Rattle.mach_exec.specs.Word.{sign};
ghost use Rattle.mach_exec.specs.Flags.{differ, flags_of, add_flags, sub_flags, logic_flags, holds};

use isa386::Cond;

/// The flags by themselves.
#[derive(Clone, Copy)]
pub(crate) struct Flags {
    pub cf: bool,
    pub zf: bool,
    pub sf: bool,
    pub of: bool,
}

const SIGN: u32 = 0x8000_0000;

/// One of two bits, and not both.
pub(crate) fn differ(a: bool, b: bool) -> bool
    ensures { result ≡ differ a b }
{
    if a { !b } else { b }
}

/// Whether the highest bit is set.
pub(crate) fn sign(a: u32) -> bool
    ensures { result ≡ sign a }
{
    a >= SIGN
}

/// The flags of a result, whose carry and overflow are given.
pub(crate) fn of_result(result_bits: u32, carry: bool, overflow: bool) -> Flags
    ensures { result ≡ flags_of result_bits carry overflow }
{
    Flags {
        cf: carry,
        zf: result_bits == 0,
        sf: sign(result_bits),
        of: overflow,
    }
}

/// The flags of a sum.
pub(crate) fn of_sum(a: u32, b: u32) -> Flags
    ensures { result ≡ add_flags a b }
{
    let sum = a.wrapping_add(b);
    let carry = u64::from(a) + u64::from(b) >= 0x1_0000_0000;
    let overflow = !differ(sign(a), sign(b)) && differ(sign(a), sign(sum));
    of_result(sum, carry, overflow)
}

/// The flags of a difference.
pub(crate) fn of_difference(a: u32, b: u32) -> Flags
    ensures { result ≡ sub_flags a b }
{
    let difference = a.wrapping_sub(b);
    let overflow = differ(sign(a), sign(b)) && differ(sign(a), sign(difference));
    of_result(difference, a < b, overflow)
}

/// The flags of a result of bits.
pub(crate) fn of_bits(bits: u32) -> Flags
    ensures { result ≡ logic_flags bits }
{
    of_result(bits, false, false)
}

/// Whether a condition holds.
pub(crate) fn holds(condition: Cond, f: Flags) -> bool
    ensures { result ≡ holds condition f }
{
    match condition {
        Cond::Overflow => f.of,
        Cond::NotOverflow => !f.of,
        Cond::Below => f.cf,
        Cond::AboveOrEqual => !f.cf,
        Cond::Equal => f.zf,
        Cond::NotEqual => !f.zf,
        Cond::BelowOrEqual => f.cf || f.zf,
        Cond::Above => !(f.cf || f.zf),
        Cond::Sign => f.sf,
        Cond::NotSign => !f.sf,
        Cond::Less => differ(f.sf, f.of),
        Cond::GreaterOrEqual => !differ(f.sf, f.of),
        Cond::LessOrEqual => f.zf || differ(f.sf, f.of),
        Cond::Greater => !(f.zf || differ(f.sf, f.of)),
    }
}
