// Lists of named bytes.
ghost use Rattle.std.specs.Prelude.{◌≡◌, Some, None, MatchOption, take};
ghost use Rattle.outside.specs.Named.{named};

use num_le::Name;

/// The bytes of the first member of this name.
pub fn find<'a>(list: &'a [(Name, Vec<u8>)], name: &[u8]) -> Option<&'a [u8]>
    ensures { MatchOption result (named list.now name.now ≡ None) (λ v. named list.now name.now ≡ Some v.now) }
{
    for entry in list {
        if entry.0.is(name) {
            return Some(&entry.1);
        }
    }
    None
}

/// The first `most` of these bytes.
pub fn front(bytes: &[u8], most: usize) -> &[u8]
    ensures bytes { result.now ≡ take most bytes.now }
{
    if most < bytes.len() {
        &bytes[..most]
    } else {
        bytes
    }
}
