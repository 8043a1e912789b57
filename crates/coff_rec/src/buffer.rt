// The bytes of one record, as they are put together.
ghost use Rattle.std.specs.Prelude.{◌≡◌, ◌≤◌, ◌+◌, ◌++◌, length};
ghost use Rattle.std.specs.Int.{w16, cast_signed};
ghost use Rattle.arrayvec.specs.ArrayVec.{array_vec_len};
ghost use Rattle.byteorder.specs.Endian.{little_bytes};
ghost use Rattle.num_le.specs.Field.{field};
ghost use Rattle.coff_rec.specs.Records.{piece, with_piece};

use arrayvec::ArrayVec;
use num_le::get16;

/// Room for the longest record, a section header.
pub type Buffer = ArrayVec<u8, 40>;

/// Adds a number of two bytes.
pub fn add16(out: &mut Buffer, x: u16)
    requires room { array_vec_len out.old + 2 ≤ 40 }
    ensures bytes { out.new.items ≡ out.old.items ++ little_bytes 2 x }
    ensures len { array_vec_len out.new ≡ array_vec_len out.old + 2 }
{
    let [a, b] = x.to_le_bytes();
    out.push(a);
    out.push(b);
}

/// Adds a number of four bytes.
pub fn add32(out: &mut Buffer, x: u32)
    requires room { array_vec_len out.old + 4 ≤ 40 }
    ensures bytes { out.new.items ≡ out.old.items ++ little_bytes 4 x }
    ensures len { array_vec_len out.new ≡ array_vec_len out.old + 4 }
{
    let [a, b, c, d] = x.to_le_bytes();
    out.push(a);
    out.push(b);
    out.push(c);
    out.push(d);
}

/// Adds bytes as they stand.
pub fn add_bytes(out: &mut Buffer, bytes: &[u8])
    requires room { array_vec_len out.old + length bytes.now ≤ 40 }
    ensures bytes { out.new.items ≡ out.old.items ++ bytes.now }
    ensures len { array_vec_len out.new ≡ array_vec_len out.old + length bytes.now }
{
    let _fits = out.try_extend_from_slice(bytes);
}

/// Writes these bytes at `at`. All other bytes stay.
pub fn put_bytes(b: &mut [u8], at: usize, bytes: &[u8])
    requires fits { at + length bytes.now ≤ length b.old }
    ensures bytes { b.new ≡ with_piece at (length bytes.now) bytes.now b.old }
{
    b[at..at + bytes.len()].copy_from_slice(bytes);
}

/// Adds a byte.
pub fn add8(out: &mut Buffer, x: u8)
    requires room { array_vec_len out.old + 1 ≤ 40 }
    ensures bytes { out.new.items ≡ out.old.items ++ little_bytes 1 x }
    ensures len { array_vec_len out.new ≡ array_vec_len out.old + 1 }
{
    let [a] = x.to_le_bytes();
    out.push(a);
}

/// The byte at `at`, as a number.
pub fn get8(b: &[u8], at: usize) -> u8
    requires fits { at + 1 ≤ length b.now }
    ensures number { result ≡ field 1 at b.now }
{
    b[at]
}

/// The eight bytes at `at`.
pub fn get_name(b: &[u8], at: usize) -> [u8; 8]
    requires fits { at + 8 ≤ length b.now }
    ensures bytes { result ≡ piece at 8 b.now }
{
    let mut name = [0; 8];
    name.copy_from_slice(&b[at..at + 8]);
    name
}

/// The number in the two bytes at `at`, in two's complement.
pub fn get_signed16(b: &[u8], at: usize) -> i16
    requires fits { at + 2 ≤ length b.now }
    ensures number { result ≡ cast_signed w16 (field 2 at b.now) }
{
    get16(b, at).cast_signed()
}

/// The `n` bytes at `at`.
pub fn part(b: &[u8], at: usize, n: usize) -> &[u8]
    requires fits { at + n ≤ length b.now }
    ensures bytes { result.now ≡ piece at n b.now }
    ensures len { length result.now ≡ n }
{
    &b[at..at + n]
}
