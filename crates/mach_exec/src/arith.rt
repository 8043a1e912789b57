// Arithmetic and logic.
ghost use Rattle.std.specs.Prelude.{◌≡◌, not, ◌*ℤ◌};
ghost use Rattle.std.specs.Int.{w32, cast_signed};
ghost use Rattle.isa386.specs.declared.Ins.TheVariants.{ArithTo, ArithFrom, ArithImm, Test, Imul, Unary, Cltd};
ghost use Rattle.mach_exec.specs.Flags.{arith_result, arith_flags, fits_signed, product_flags};
ghost use Rattle.mach_exec.specs.Effect.{outcome};
ghost use Rattle.mach_exec.specs.Execute.{arith, executed};

use crate::effect::{EAX, EDX, go_on, set, store};
use crate::flags::{Flags, of_bits, of_difference, of_sum, sign};
use crate::operand::{Place, place_of, value};
use crate::{Cpu, Event};
use isa386::{ArithOp, Opnd, UnaryOp};
use mach_mem::Regions;

fn result_of(op: ArithOp, a: u32, b: u32) -> u32
    ensures { result ≡ arith_result op a b }
{
    match op {
        ArithOp::Add => a.wrapping_add(b),
        ArithOp::Or => a | b,
        ArithOp::And => a & b,
        ArithOp::Sub => a.wrapping_sub(b),
        ArithOp::Xor => a ^ b,
        ArithOp::Cmp => a,
    }
}

fn flags_after(op: ArithOp, a: u32, b: u32) -> Flags
    ensures { result ≡ arith_flags op a b }
{
    match op {
        ArithOp::Add => of_sum(a, b),
        ArithOp::Or => of_bits(a | b),
        ArithOp::And => of_bits(a & b),
        ArithOp::Sub | ArithOp::Cmp => of_difference(a, b),
        ArithOp::Xor => of_bits(a ^ b),
    }
}

fn operate(
    cpu: &mut Cpu,
    mem: &mut Regions,
    op: ArithOp,
    at: Place,
    a: u32,
    b: u32,
    next: u32,
) -> Event
    ensures { outcome result cpu.new mem.new ≡ arith cpu.old mem.old op at a b next }
{
    let f = flags_after(op, a, b);
    match op {
        ArithOp::Cmp => {
            cpu.set_flags(f);
            go_on(cpu, next)
        }
        _ => store(cpu, mem, at, result_of(op, a, b), f, next),
    }
}

/// `addl r, rm` and its kind
#[tactic(auto, unfolding(crate::specs::Execute::executed))]
pub(crate) fn arith_to(
    cpu: &mut Cpu,
    mem: &mut Regions,
    op: ArithOp,
    r: u8,
    rm: Opnd,
    next: u32,
) -> Event
    ensures { outcome result cpu.new mem.new ≡ executed cpu.old mem.old (ArithTo op r rm) next }
{
    let at = place_of(cpu, rm);
    let Some(a) = value(cpu, mem, at) else {
        return Event::Signal(11);
    };
    let b = cpu.reg(r);
    operate(cpu, mem, op, at, a, b, next)
}

/// `addl rm, r` and its kind
#[tactic(auto, unfolding(crate::specs::Execute::executed))]
pub(crate) fn arith_from(
    cpu: &mut Cpu,
    mem: &mut Regions,
    op: ArithOp,
    r: u8,
    rm: Opnd,
    next: u32,
) -> Event
    ensures { outcome result cpu.new mem.new ≡ executed cpu.old mem.old (ArithFrom op r rm) next }
{
    let at = place_of(cpu, rm);
    let Some(b) = value(cpu, mem, at) else {
        return Event::Signal(11);
    };
    let a = cpu.reg(r);
    operate(cpu, mem, op, Place::Register(r), a, b, next)
}

/// `addl $n, rm` and its kind
#[tactic(auto, unfolding(crate::specs::Execute::executed))]
pub(crate) fn arith_number(
    cpu: &mut Cpu,
    mem: &mut Regions,
    op: ArithOp,
    rm: Opnd,
    n: u32,
    next: u32,
) -> Event
    ensures { outcome result cpu.new mem.new ≡ executed cpu.old mem.old (ArithImm op rm n) next }
{
    let at = place_of(cpu, rm);
    let Some(a) = value(cpu, mem, at) else {
        return Event::Signal(11);
    };
    operate(cpu, mem, op, at, a, n, next)
}

/// `testl r, rm`
#[tactic(auto, unfolding(crate::specs::Execute::executed))]
pub(crate) fn test_bits(cpu: &mut Cpu, mem: &Regions, r: u8, rm: Opnd, next: u32) -> Event
    ensures { outcome result cpu.new mem.now ≡ executed cpu.old mem.now (Test r rm) next }
{
    let at = place_of(cpu, rm);
    let Some(a) = value(cpu, mem, at) else {
        return Event::Signal(11);
    };
    let b = cpu.reg(r);
    cpu.set_flags(of_bits(a & b));
    go_on(cpu, next)
}

// Whether the signed product needs more than 32 bits.
fn is_product_large(a: u32, b: u32) -> bool
    ensures { result ≡ not (fits_signed (cast_signed w32 a *ℤ cast_signed w32 b)) }
{
    let (_, large) = a.cast_signed().overflowing_mul(b.cast_signed());
    large
}

fn of_product(old: Flags, a: u32, b: u32) -> Flags
    ensures { result ≡ product_flags old a b }
{
    let large = is_product_large(a, b);
    Flags {
        cf: large,
        zf: old.zf,
        sf: old.sf,
        of: large,
    }
}

/// `imull rm, r`
#[tactic(auto, unfolding(crate::specs::Execute::executed))]
pub(crate) fn multiply(cpu: &mut Cpu, mem: &Regions, r: u8, rm: Opnd, next: u32) -> Event
    ensures { outcome result cpu.new mem.now ≡ executed cpu.old mem.now (Imul r rm) next }
{
    let at = place_of(cpu, rm);
    let Some(b) = value(cpu, mem, at) else {
        return Event::Signal(11);
    };
    let a = cpu.reg(r);
    let f = of_product(cpu.flags(), a, b);
    cpu.set_flags(f);
    set(cpu, r, a.wrapping_mul(b), next)
}

/// `notl rm` and `negl rm`
#[tactic(auto, unfolding(crate::specs::Execute::executed))]
pub(crate) fn unary(cpu: &mut Cpu, mem: &mut Regions, op: UnaryOp, rm: Opnd, next: u32) -> Event
    ensures { outcome result cpu.new mem.new ≡ executed cpu.old mem.old (Unary op rm) next }
{
    let at = place_of(cpu, rm);
    let Some(a) = value(cpu, mem, at) else {
        return Event::Signal(11);
    };
    match op {
        UnaryOp::Not => {
            let f = cpu.flags();
            store(cpu, mem, at, !a, f, next)
        }
        UnaryOp::Neg => {
            let f = of_difference(0, a);
            store(cpu, mem, at, 0u32.wrapping_sub(a), f, next)
        }
    }
}

/// `cltd`
#[tactic(auto, unfolding(crate::specs::Execute::executed))]
pub(crate) fn extend_sign(cpu: &mut Cpu, mem: &Regions, next: u32) -> Event
    ensures { outcome result cpu.new mem.now ≡ executed cpu.old mem.now Cltd next }
{
    let v = if sign(cpu.reg(EAX)) { 0xFFFF_FFFF } else { 0 };
    set(cpu, EDX, v, next)
}
