// The regions of a program.
ghost use Rattle.std.specs.Prelude.{◌≡◌, ◌≤◌, ◌<◌, ◌+◌, ℕ, nat_lt, length, slice_index, slice_set, IfOk, IsTrue, IsFalse};
ghost use Rattle.mach_mem.specs.Addresses.{text_room};
ghost use Rattle.mach_mem.specs.Space.{byte_at, is_writable, is_writable2, is_writable4, with_byte, with_number16, with_number, IsInitial, SetsByte, rounded};

use crate::Mem;
use std::alloc::{AllocError, Global};
use std::marker::Model;

const TEXT: u32 = 0x1_0000;

const STATICS: u32 = 0x40_0000;

const STACK: u32 = 0x7FC0_0000;

const STACK_SIZE: usize = 0x40_0000;

const END: u32 = 0x8000_0000;

/// The memory of one program, which contracts see as the bytes of its three regions.
///
/// | Region | Addresses |
/// |---|---|
/// | text | from 0x00010000, never written |
/// | statics: .data, and .bss behind it | from 0x00400000 |
/// | stack | 0x7FC00000 to 0x7FFFFFFF |
#[derive(Drop)]
pub struct Regions {
    text: Vec<u8>,
    statics: Vec<u8>,
    stack: Vec<u8>,
}

impl Model for Regions {
    ghost use Rattle.mach_mem.specs.Space.{Space};

    ghost Value = { Space };

    ghost view = { λ s. record { text = s.text.items; statics = s.statics.items; stack = s.stack.items } };
}

// So many zero bytes.
fn zeros(alloc: Global, count: usize) -> Result<Vec<u8>, AllocError>
    ensures len { IfOk result (λ v. length v.items ≡ count) }
    ensures zero { IfOk result (λ v. (k : ℕ) → slice_index v.items k ≡ 0) }
{
    vec![in alloc; 0; count]
}

// The bytes of .data, then zeros up to a multiple of 4 and for .bss.
fn statics_of(alloc: Global, init: &[u8], bss: u32) -> Result<Vec<u8>, AllocError>
    requires { length init.now + bss ≤ 16777216 }
    ensures len { IfOk result (λ v. length v.items ≡ rounded (length init.now) + bss) }
    ensures front { IfOk result (λ v. (k : ℕ) → k < length init.now → slice_index v.items k ≡ slice_index init.now k) }
    ensures zero { IfOk result (λ v. (k : ℕ) → length init.now ≤ k → slice_index v.items k ≡ 0) }
{
    let gap = (4 - init.len() % 4) % 4;
    let mut bytes = init.to_vec(alloc)?;
    let rest = zeros(alloc, gap + bss as usize)?;
    bytes.extend_from_slice(&rest)?;
    Ok(bytes)
}

// Writes one of these bytes, if there is such a one.
fn put(bytes: &mut Vec<u8>, at: u32, v: u8) -> bool
    ensures answer { result ≡ nat_lt at (length bytes.old.items) }
    ensures items { bytes.new.items ≡ slice_set bytes.old.items at v }
{
    let within = (at as usize) < bytes.len();
    if within {
        bytes[at as usize] = v;
    }
    within
}

impl Regions {
    /// The memory of a program that has executed nothing: these bytes of .text and of .data, and
    /// zeros everywhere else. .bss has `bss` bytes, and begins at the first multiple of 4 behind
    /// .data; the bytes between them belong to the statics too.
    pub fn new(alloc: Global, text: &[u8], init: &[u8], bss: u32) -> Result<Regions, AllocError>
        requires text_fits { length text.now ≤ text_room }
        requires statics_fit { length init.now + bss ≤ 16777216 }
        ensures initial { IfOk result (λ m. IsInitial m text.now init.now bss) }
    {
        Ok(Regions {
            text: text.to_vec(alloc)?,
            statics: statics_of(alloc, init, bss)?,
            stack: zeros(alloc, STACK_SIZE)?,
        })
    }

    /// The bytes of .text, the first of which stands at 0x00010000.
    pub fn text(&self) -> &[u8]
        ensures bytes { result.now ≡ self.now.text }
    {
        &self.text
    }

    /// Whether a byte can be written at this address: exactly in the statics and in the stack.
    pub fn can_write(&self, at: u32) -> bool
        ensures answer { result ≡ is_writable self.now at }
    {
        if at >= END {
            false
        } else if at >= STACK {
            ((at - STACK) as usize) < self.stack.len()
        } else if at >= STATICS {
            ((at - STATICS) as usize) < self.statics.len()
        } else {
            false
        }
    }

    /// Writes a byte; false, with nothing changed, exactly outside the statics and the stack.
    pub fn write8(&mut self, at: u32, v: u8) -> bool
        ensures answer { result ≡ is_writable self.old at }
        ensures memory { self.new ≡ with_byte self.old at v }
        ensures wrote { IsTrue result → SetsByte (byte_at self.old) (byte_at self.new) at v }
        ensures refused { IsFalse result → self.new ≡ self.old }
    {
        if at >= END {
            false
        } else if at >= STACK {
            put(&mut self.stack, at - STACK, v)
        } else if at >= STATICS {
            put(&mut self.statics, at - STATICS, v)
        } else {
            false
        }
    }

    /// Writes a number into two bytes, the lowest first; false, with nothing changed, exactly where
    /// one of them lies outside the statics and the stack.
    #[tactic(auto, unfolding(crate::specs::Space::is_writable2, crate::specs::Space::with_number16))]
    pub fn write16(&mut self, at: u32, v: u16) -> bool
        ensures answer { result ≡ is_writable2 self.old at }
        ensures wrote { IsTrue result → self.new ≡ with_number16 self.old at v }
        ensures refused { IsFalse result → self.new ≡ self.old }
    {
        let Some(last) = at.checked_add(1) else {
            return false;
        };
        let can = self.can_write(at) && self.can_write(last);
        if can {
            self.write8(at, (v % 256) as u8);
            self.write8(last, (v / 256) as u8);
        }
        can
    }

    /// Writes a number into four bytes, the lowest first; false, with nothing changed, exactly where
    /// one of them lies outside the statics and the stack.
    #[tactic(auto, unfolding(crate::specs::Space::is_writable4, crate::specs::Space::with_number))]
    pub fn write32(&mut self, at: u32, v: u32) -> bool
        ensures answer { result ≡ is_writable4 self.old at }
        ensures wrote { IsTrue result → self.new ≡ with_number self.old at v }
        ensures refused { IsFalse result → self.new ≡ self.old }
    {
        let Some(last) = at.checked_add(3) else {
            return false;
        };
        let can = self.can_write(at)
            && self.can_write(at + 1)
            && self.can_write(at + 2)
            && self.can_write(last);
        if can {
            self.write8(at, (v % 256) as u8);
            self.write8(at + 1, (v / 256 % 256) as u8);
            self.write8(at + 2, (v / 65536 % 256) as u8);
            self.write8(last, (v / 16777216) as u8);
        }
        can
    }
}

impl Mem for Regions {
    ghost use Rattle.mach_mem.specs.Space.{byte_at};

    ghost told = { byte_at };

    ghost use Rattle.mach_mem.specs.Bounded.{byte_at-bounded};

    ghost bounded = { byte_at-bounded };

    fn read8(&self, at: u32) -> Option<u8> {
        if at >= END {
            None
        } else if at >= STACK {
            self.stack.get((at - STACK) as usize).copied()
        } else if at >= STATICS {
            self.statics.get((at - STATICS) as usize).copied()
        } else if at >= TEXT {
            self.text.get((at - TEXT) as usize).copied()
        } else {
            None
        }
    }
}
