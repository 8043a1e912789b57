//! Little-endian fields in bytes, and names.
//!
//! The files and the memory of the 386 keep each number with its lowest byte first. A field is read
//! and written exactly, and the bytes beside it stay.
#![tactic(auto)]

ghost use Rattle.std.specs.Prelude.{◌≡◌, ◌≤◌, ◌+◌, length};
ghost use Rattle.num_le.specs.Field.{field, with_field};

mod name;

use byteorder::{ByteOrder, LittleEndian};
pub use name::Name;

/// The number in the two bytes at `at`, the lowest first.
pub fn get16(b: &[u8], at: usize) -> u16
    requires fits { at + 2 ≤ length b.now }
    ensures number { result ≡ field 2 at b.now }
{
    LittleEndian::read_u16(&b[at..])
}

/// The number in the four bytes at `at`, the lowest first.
pub fn get32(b: &[u8], at: usize) -> u32
    requires fits { at + 4 ≤ length b.now }
    ensures number { result ≡ field 4 at b.now }
{
    LittleEndian::read_u32(&b[at..])
}

/// Writes `v` into the two bytes at `at`, the lowest first. All other bytes stay.
pub fn put16(b: &mut [u8], at: usize, v: u16)
    requires fits { at + 2 ≤ length b.old }
    ensures bytes { b.new ≡ with_field 2 at v b.old }
{
    LittleEndian::write_u16(&mut b[at..at + 2], v);
}

/// Writes `v` into the four bytes at `at`, the lowest first. All other bytes stay.
pub fn put32(b: &mut [u8], at: usize, v: u32)
    requires fits { at + 4 ≤ length b.old }
    ensures bytes { b.new ≡ with_field 4 at v b.old }
{
    LittleEndian::write_u32(&mut b[at..at + 4], v);
}

#[cfg(test)]
mod tests {
    use super::*;
    use std::test::Fail;

    #[test]
    fn fields_are_low_first(rt: HostRuntime) -> Result<(), Fail> {
        let mut bytes = [0u8; 8];
        put32(&mut bytes, 1, 0x01020304);
        put16(&mut bytes, 6, 0x0506);
        assert_eq!(rt; bytes.as_slice(), [0, 4, 3, 2, 1, 0, 6, 5].as_slice());
        assert_eq!(rt; get32(&bytes, 1), 0x01020304);
        assert_eq!(rt; get16(&bytes, 6), 0x0506);
        assert!(rt; Name::of(rt.alloc(), b"ab")?.is(b"ab"));
        Ok(())
    }
}
