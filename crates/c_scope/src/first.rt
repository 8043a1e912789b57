// The first value of each name.
ghost use Rattle.std.specs.Prelude.{◌≡◌, ◌<◌, List, ℕ, None, IfOk, OnErr, OnOk, Some, length, vec_len, vec_capacity};
ghost use Rattle.std.specs.Str.{bytes_eq};
ghost use Rattle.indexmap.specs.IndexMap.{get_by};
ghost use Rattle.c_type.specs.Names.{or_else, pick};

use indexmap::IndexMap;
use std::alloc::AllocError;

/// Gives a name its value where it has none yet.
pub fn insert_first<V: Drop>(
    index: &mut IndexMap<Vec<u8>, V>,
    name: &[u8],
    value: V,
) -> Result<(), AllocError>
    ensures first { OnOk result ((x : List ℕ) → get_by (λ key. bytes_eq x key.items) index.new ≡ or_else (get_by (λ key. bytes_eq x key.items) index.old) (pick (bytes_eq x name.now) (Some value) None)) }
    ensures kept { OnErr result ((x : List ℕ) → get_by (λ key. bytes_eq x key.items) index.new ≡ get_by (λ key. bytes_eq x key.items) index.old) }
{
    if index.get(name).is_some() {
        return Ok(());
    }
    let key = name.to_vec(*index.allocator())?;
    index.insert(key, value)?;
    Ok(())
}

/// Makes room for one more behind a list, and gives its number.
pub fn next_number<T: Drop>(list: &mut Vec<T>) -> Result<u32, AllocError>
    ensures number { IfOk result (λ n. n ≡ length list.old.items) }
    ensures items { list.new.items ≡ list.old.items }
    ensures room { OnOk result (vec_len list.new < vec_capacity list.new) }
{
    let number = u32::try_from(list.len()).map_err(|_| AllocError)?;
    list.reserve(1)?;
    Ok(number)
}
