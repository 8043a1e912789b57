// A source in memory that never fails.
ghost use Rattle.std.specs.Prelude.{◌≤◌, vec_len};

use crate::{Failed, Source};

/// A source of these bytes, and how many of them are taken. Its count of faults is constantly 0.
#[derive(Drop)]
pub struct SureSource {
    bytes: Vec<u8>,
    taken: usize,
    ghost in_range: { taken ≤ vec_len bytes },
}

impl SureSource {
    ghost use Rattle.std.specs.Prelude.{◌≡◌};
    ghost use Rattle.outside.specs.Sure.{sure_source_left};

    /// All of these bytes are left.
    pub fn new(bytes: Vec<u8>) -> SureSource
        ensures left { sure_source_left result ≡ bytes.items }
    {
        SureSource { bytes, taken: 0 }
    }
}

impl Source for SureSource {
    ghost use Rattle.std.specs.Prelude.{Some};
    ghost use Rattle.outside.specs.Sure.{sure_source_left};

    ghost left = { λ s. Some (sure_source_left s) };

    ghost faults = { λ s. 0 };

    fn read(&mut self, buf: &mut [u8]) -> Result<usize, Failed> {
        let n = buf.len().min(self.bytes.len() - self.taken);
        buf[..n].copy_from_slice(&self.bytes[self.taken..self.taken + n]);
        self.taken += n;
        Ok(n)
    }
}
