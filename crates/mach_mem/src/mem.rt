// Memory that can be read.
ghost use Rattle.std.specs.Prelude.{◌≡◌, ◌≤◌, ◌^◌, ℕ, Option, None};
ghost use Rattle.mach_mem.specs.Space.{number_at, number16_at};

use num_le::{get16, get32};

/// Bytes by their addresses.
///
/// `told` gives the byte at each address, and nothing outside the regions. The law of the trait is
/// that what is told is what is read, and that no address above 0xFFFFFFFF is told.
pub trait Mem {
    ghost told: { Self → ℕ → Option ℕ };

    ghost bounded: { (m : Self) (at : ℕ) → 2 ^ 32 ≤ at → told m at ≡ None };

    /// The byte at this address; `None` exactly outside the regions.
    fn read8(&self, at: u32) -> Option<u8>
        ensures byte { result ≡ told self.now at };
}

/// The number in the two bytes from this address on, the lowest first; `None` exactly where one of
/// them lies outside the regions.
pub fn read16<M: Mem>(m: &M, at: u32) -> Option<u16>
    ensures number { result ≡ number16_at (M.told m.now) at }
{
    let bytes = [m.read8(at)?, m.read8(at.checked_add(1)?)?];
    Some(get16(&bytes, 0))
}

/// The number in the four bytes from this address on, the lowest first; `None` exactly where one of
/// them lies outside the regions.
pub fn read32<M: Mem>(m: &M, at: u32) -> Option<u32>
    ensures number { result ≡ number_at (M.told m.now) at }
{
    let bytes = [
        m.read8(at)?,
        m.read8(at.checked_add(1)?)?,
        m.read8(at.checked_add(2)?)?,
        m.read8(at.checked_add(3)?)?,
    ];
    Some(get32(&bytes, 0))
}
