//! The memory of a program: what can be read, and the three regions that a process has.
#![tactic(auto)]

mod mem;
mod regions;

pub use mem::{Mem, read16, read32};
pub use regions::Regions;

#[cfg(test)]
mod tests {
    use super::*;
    use std::test::Fail;

    #[test]
    fn bytes_stand_at_their_addresses(rt: HostRuntime) -> Result<(), Fail> {
        let mut memory = Regions::new(rt.alloc(), b"abc", b"xy", 3)?;
        assert_eq!(rt; memory.read8(0x10002), Some(b'c'));
        assert_eq!(rt; memory.read8(0x10003), None);
        assert_eq!(rt; memory.read8(0x400006), Some(0));
        assert_eq!(rt; memory.read8(0x400007), None);
        assert_eq!(rt; memory.read8(0x7FFF_FFFF), Some(0));
        assert_eq!(rt; memory.read8(0x8000_0000), None);
        assert!(rt; memory.write32(0x7FFF_FFFC, 0x01020304));
        assert_eq!(rt; read32(&memory, 0x7FFF_FFFC), Some(0x01020304));
        assert!(rt; !memory.write8(0x10000, 1));
        Ok(())
    }
}
