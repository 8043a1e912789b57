// Division.
ghost use Rattle.std.specs.Prelude.{◌≡◌, ◌<◌};
ghost use Rattle.isa386.specs.declared.Ins.TheVariants.{Divide};
ghost use Rattle.mach_exec.specs.Effect.{outcome};
ghost use Rattle.mach_exec.specs.Execute.{dividend, unsigned_parts, narrowed, signed_quotient, signed_rest, signed_parts, division_parts, divide, executed};

use crate::effect::{EAX, EDX, set};
use crate::operand::{place_of, value};
use crate::{Cpu, Event};
use isa386::{DivideOp, Opnd};
use mach_mem::Regions;

// The number in edx and eax.
fn dividend(cpu: &Cpu) -> u64
    ensures { result ≡ dividend cpu.now }
{
    u64::from(cpu.reg(EDX)) * 0x1_0000_0000 + u64::from(cpu.reg(EAX))
}

// Quotient and remainder, if the quotient fits.
fn unsigned_parts(n: u64, d: u32) -> Option<(u32, u32)>
    requires { 0 < d }
    ensures { result ≡ unsigned_parts n d }
{
    let d = u64::from(d);
    let quotient = n / d;
    if quotient >= 0x1_0000_0000 {
        return None;
    }
    Some((quotient as u32, (n % d) as u32))
}

// A signed number in 32 bits, if they can hold it.
fn narrowed(z: i64) -> Option<u32>
    ensures { result ≡ narrowed z }
{
    if z < -0x8000_0000 || z >= 0x8000_0000 {
        None
    } else {
        Some((z as i32).cast_unsigned())
    }
}

fn signed_quotient(n: u64, d: u32) -> Option<u32>
    requires { 0 < d }
    ensures { result ≡ narrowed (signed_quotient n d) }
{
    match n.cast_signed().checked_div(i64::from(d.cast_signed())) {
        Some(quotient) => narrowed(quotient),
        None => None,
    }
}

fn signed_rest(n: u64, d: u32) -> u32
    requires { 0 < d }
    ensures { result ≡ signed_rest n d }
{
    let rest = n.cast_signed().wrapping_rem(i64::from(d.cast_signed()));
    (rest as i32).cast_unsigned()
}

// The same of the signed readings.
fn signed_parts(n: u64, d: u32) -> Option<(u32, u32)>
    requires { 0 < d }
    ensures { result ≡ signed_parts n d }
{
    match signed_quotient(n, d) {
        Some(quotient) => Some((quotient, signed_rest(n, d))),
        None => None,
    }
}

fn parts(op: DivideOp, n: u64, d: u32) -> Option<(u32, u32)>
    requires { 0 < d }
    ensures { result ≡ division_parts op n d }
{
    match op {
        DivideOp::Unsigned => unsigned_parts(n, d),
        DivideOp::Signed => signed_parts(n, d),
    }
}

fn divide_by(cpu: &mut Cpu, mem: &Regions, op: DivideOp, d: u32, next: u32) -> Event
    ensures { outcome result cpu.new mem.now ≡ divide cpu.old mem.now op d next }
{
    if d == 0 {
        return Event::Signal(8);
    }
    match parts(op, dividend(cpu), d) {
        None => Event::Signal(8),
        Some((quotient, rest)) => {
            cpu.set_reg(EAX, quotient);
            set(cpu, EDX, rest, next)
        }
    }
}

/// `divl rm` and `idivl rm`
#[tactic(auto, unfolding(crate::specs::Execute::executed))]
pub(crate) fn divide(cpu: &mut Cpu, mem: &Regions, op: DivideOp, rm: Opnd, next: u32) -> Event
    ensures { outcome result cpu.new mem.now ≡ executed cpu.old mem.now (Divide op rm) next }
{
    let at = place_of(cpu, rm);
    match value(cpu, mem, at) {
        None => Event::Signal(11),
        Some(d) => divide_by(cpu, mem, op, d, next),
    }
}
