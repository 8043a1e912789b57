// The files of a call, read in their order.
ghost use Rattle.std.specs.Prelude.{◌≡◌, ◌≤◌, ◌⊎◌, length, All, IfOk, IsErrOf};
ghost use Rattle.outside.specs.Causes.{Rose};
ghost use Rattle.top.specs.Reading.{ReadsText, ReadsTexts};

use crate::answer::End;
use num_le::Name;
use outside::{FileErr, Files};
use std::alloc::Global;

// The limit of a source file, in bytes.
const MOST: usize = 262_144;

// The end with the name of a file, or want of memory.
fn too_large(alloc: Global, name: &Name) -> End
    ensures { (result ≡ End.TooLarge name.now) ⊎ (result ≡ End.Memory) }
{
    match Name::of(alloc, name.as_slice()) {
        Ok(name) => End::TooLarge(name),
        Err(_) => End::Memory,
    }
}

// The end where there is no such file, or want of memory.
fn absent(alloc: Global, name: &Name) -> End
    ensures { (result ≡ End.Absent name.now) ⊎ (result ≡ End.Memory) }
{
    match Name::of(alloc, name.as_slice()) {
        Ok(name) => End::Absent(name),
        Err(_) => End::Memory,
    }
}

// The text of a file within the limit.
fn text<F: Files>(alloc: Global, name: &Name, files: &mut F) -> Result<Vec<u8>, End>
    ensures read { ReadsText (F.held files.old) name.now result }
    ensures unchanged { F.held files.new ≡ F.held files.old }
    ensures later { F.faults files.old ≤ F.faults files.new }
    ensures failed { IsErrOf result End.ReadFault → Rose (F.faults files.old) (F.faults files.new) }
{
    match files.read(alloc, name.as_slice(), MOST + 1) {
        Ok(text) => {
            if text.len() > MOST {
                Err(too_large(alloc, name))
            } else {
                Ok(text)
            }
        }
        Err(FileErr::Absent) => Err(absent(alloc, name)),
        Err(FileErr::Failed) => Err(End::ReadFault),
        Err(FileErr::Memory) => Err(End::Memory),
    }
}

/// The texts of these files, each of at most 262,144 bytes. The error is `Absent` or `TooLarge` exactly where a file is, at
/// the first such file, or `ReadFault` or `Memory`.
pub fn texts<F: Files>(alloc: Global, names: &[Name], files: &mut F) -> Result<Vec<Vec<u8>>, End>
    ensures read { ReadsTexts (F.held files.old) names.now result }
    ensures short { IfOk result (λ v. All (λ t. length t.items ≤ 262144) v.items) }
    ensures count { IfOk result (λ v. length v.items ≡ length names.now) }
    ensures unchanged { F.held files.new ≡ F.held files.old }
    ensures failed { IsErrOf result End.ReadFault → Rose (F.faults files.old) (F.faults files.new) }
{
    let mut texts = Vec::new(alloc);
    for name in names {
        texts.push(text(alloc, name, files)?)?;
    }
    Ok(texts)
}
