// The arithmetic of 32 bits in constants.
ghost use Rattle.std.specs.Prelude.{◌≡◌, ◌<◌, ◌+◌, ◌*◌, false};
ghost use Rattle.c_type.specs.Kinds as kinds;
ghost use Rattle.c_tree.specs.Arith as a;

use c_tree::{TBinary, TUnary};
use c_type::Kind;

#[tactic(auto, unfolding(c_tree::specs::Arith::is_negative))]
fn is_negative(x: u32) -> bool
    ensures { result ≡ a.is_negative x }
{
    x >= 0x8000_0000
}

#[tactic(auto, unfolding(c_tree::specs::Arith::sub32))]
fn negated(x: u32) -> u32
    ensures { result ≡ a.sub32 0 x }
{
    (u32::MAX - x).wrapping_add(1)
}

#[tactic(auto, unfolding(c_tree::specs::Arith::magnitude))]
fn magnitude(x: u32) -> u32
    ensures value { result ≡ a.magnitude x }
    ensures some { 0 < x → 0 < result }
{
    if x >= 0x8000_0000 {
        u32::MAX - x + 1
    } else {
        x
    }
}

#[tactic(auto, unfolding(c_tree::specs::Arith::signed_as))]
fn signed_as(negative: bool, size: u32) -> u32
    ensures { result ≡ a.signed_as negative size }
{
    if negative { negated(size) } else { size }
}

#[tactic(auto, unfolding(c_tree::specs::Arith::traps))]
fn traps(signed: bool, x: u32, y: u32) -> bool
    ensures { result ≡ a.traps signed x y }
{
    y == 0 || (signed && (x == 0x8000_0000 && y == u32::MAX))
}

#[tactic(auto, unfolding(c_tree::specs::Arith::quotient))]
fn quotient(signed: bool, x: u32, y: u32) -> u32
    requires { 0 < y }
    ensures { result ≡ a.quotient signed x y }
{
    if signed {
        signed_as(
            is_negative(x) != is_negative(y),
            magnitude(x) / magnitude(y),
        )
    } else {
        x / y
    }
}

#[tactic(auto, unfolding(c_tree::specs::Arith::remainder))]
fn remainder(signed: bool, x: u32, y: u32) -> u32
    requires { 0 < y }
    ensures { result ≡ a.remainder signed x y }
{
    if signed {
        signed_as(is_negative(x), magnitude(x) % magnitude(y))
    } else {
        x % y
    }
}

#[tactic(auto, unfolding(c_tree::specs::Arith::shift_left))]
fn shift_left(x: u32, y: u32) -> u32
    ensures { result ≡ a.shift_left x y }
{
    x << (y % 32)
}

#[tactic(auto, unfolding(c_tree::specs::Arith::shift_right, c_tree::specs::Arith::flip32))]
fn shift_right(signed: bool, x: u32, y: u32) -> u32
    ensures { result ≡ a.shift_right signed x y }
{
    if signed && is_negative(x) {
        !(!x >> (y % 32))
    } else {
        x >> (y % 32)
    }
}

#[tactic(auto, unfolding(c_tree::specs::Arith::less))]
fn less(signed: bool, x: u32, y: u32) -> bool
    ensures { result ≡ a.less signed x y }
{
    if signed {
        x.wrapping_add(0x8000_0000) < y.wrapping_add(0x8000_0000)
    } else {
        x < y
    }
}

/// The value of an operator of one number.
#[tactic(auto, unfolding(c_tree::specs::Arith::flip32))]
pub fn one_number(op: TUnary, x: u32) -> u32
    ensures { result ≡ a.one_number op x }
{
    match op {
        TUnary::Neg => negated(x),
        TUnary::Flip => !x,
        TUnary::Not => u32::from(x == 0),
    }
}

/// Whether the operation has no value.
pub fn may_trap(op: TBinary, signed: bool, x: u32, y: u32) -> bool
    ensures { result ≡ a.may_trap op signed x y }
{
    match op {
        TBinary::Div | TBinary::Rem => traps(signed, x, y),
        _ => false,
    }
}

#[tactic(auto, unfolding(c_tree::specs::Arith::add32))]
fn sum(x: u32, y: u32) -> u32
    ensures { result ≡ a.add32 x y }
{
    x.wrapping_add(y)
}

#[tactic(auto, unfolding(c_tree::specs::Arith::sub32))]
fn difference(x: u32, y: u32) -> u32
    ensures { result ≡ a.sub32 x y }
{
    x.wrapping_sub(y)
}

#[tactic(auto, unfolding(c_tree::specs::Arith::mul32))]
fn product(x: u32, y: u32) -> u32
    ensures { result ≡ a.mul32 x y }
{
    x.wrapping_mul(y)
}

/// The value of an operator of two numbers.
#[tactic(auto, unfolding(c_tree::specs::Arith::traps))]
pub fn two_numbers(op: TBinary, signed: bool, x: u32, y: u32) -> u32
    requires { a.may_trap op signed x y ≡ false }
    ensures { result ≡ a.two_numbers op signed x y }
{
    match op {
        TBinary::Mul => product(x, y),
        TBinary::Div => quotient(signed, x, y),
        TBinary::Rem => remainder(signed, x, y),
        TBinary::Add => sum(x, y),
        TBinary::Sub => difference(x, y),
        TBinary::Shl => shift_left(x, y),
        TBinary::Shr => shift_right(signed, x, y),
        TBinary::Lt => u32::from(less(signed, x, y)),
        TBinary::Gt => u32::from(less(signed, y, x)),
        TBinary::Le => u32::from(!less(signed, y, x)),
        TBinary::Ge => u32::from(!less(signed, x, y)),
        TBinary::Eq => u32::from(x == y),
        TBinary::Ne => u32::from(x != y),
        TBinary::BitAnd => x & y,
        TBinary::BitXor => x ^ y,
        TBinary::BitOr => x | y,
    }
}

#[tactic(auto, unfolding(c_type::specs::Kinds::extend))]
fn extend_byte(x: u32) -> u32
    ensures { result ≡ kinds.extend 128 x }
{
    let low = x % 256;
    if low < 128 { low } else { low + 0xFFFF_FF00 }
}

#[tactic(auto, unfolding(c_type::specs::Kinds::extend))]
fn extend_half(x: u32) -> u32
    ensures { result ≡ kinds.extend 32768 x }
{
    let low = x % 0x1_0000;
    if low < 0x8000 { low } else { low + 0xFFFF_0000 }
}

/// A number converted to a kind.
pub fn convert(kind: Kind, x: u32) -> u32
    ensures { result ≡ kinds.convert kind x }
{
    match kind {
        Kind::Char => extend_byte(x),
        Kind::UChar => x % 256,
        Kind::Short => extend_half(x),
        Kind::UShort => x % 0x1_0000,
        Kind::Int | Kind::UInt | Kind::Long | Kind::ULong => x,
    }
}
