// A name, which contracts see as its bytes.
ghost use Rattle.std.specs.Prelude.{◌≡◌, ◌↔◌, IfOk, IsTrue};
ghost use Rattle.std.specs.Str.{bytes_eq};

use std::alloc::{AllocError, Global};
use std::marker::Model;

/// A name of a file, a variable, a function or a tag: a list of bytes.
#[derive(Debug, Drop)]
pub struct Name {
    bytes: Vec<u8>,
}

impl Model for Name {
    ghost use Rattle.std.specs.Prelude.{List, ℕ};

    ghost Value = { List ℕ };

    ghost view = { λ s. s.bytes.items };
}

impl Name {
    /// The name of these bytes.
    pub fn of(alloc: Global, b: &[u8]) -> Result<Name, AllocError>
        ensures bytes { IfOk result (λ n. n ≡ b.now) }
    {
        Ok(Name {
            bytes: b.to_vec(alloc)?,
        })
    }

    /// The bytes of the name.
    pub fn as_slice(&self) -> &[u8]
        ensures bytes { result.now ≡ self.now }
    {
        &self.bytes
    }

    /// Whether these are the bytes of the name.
    pub fn is(&self, b: &[u8]) -> bool
        ensures value { result ≡ bytes_eq self.now b.now }
        ensures same { IsTrue result ↔ (self.now ≡ b.now) }
    {
        self.bytes.as_slice() == b
    }
}
