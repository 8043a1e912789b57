// From the texts of all files to the bytes of .text.
ghost use Rattle.std.specs.Prelude.{◌≤◌, length, All};
ghost use Rattle.std.specs.List.{AllZip};
ghost use Rattle.c_tree.specs.TypedOf.{program_of};
ghost use Rattle.c_front.specs.Accepted.{IsAccepted};
ghost use Rattle.c_front.specs.Sources.{IsSource, texts_of};
ghost use Rattle.small_build.specs.Built.{Builds};

use crate::program::text_of;
use c_front::{Accepted, FrontErr, accept};
use small_form::Fault;
use std::alloc::Global;

/// Why no bytes are made of texts.
#[derive(Debug, Drop)]
pub enum BuildErr {
    /// The front end gives no program.
    Front(FrontErr),
    /// The program isn't of the small form.
    Unbuilt,
    /// Memory was wanting.
    Memory,
}

// The bytes of the program that these texts make.
fn code_of(alloc: Global, texts: &[Vec<u8>], program: &Accepted) -> Result<Vec<u8>, BuildErr>
    requires accepted { IsAccepted (texts_of texts.now) (program_of program.now.program) }
    requires read { AllZip IsSource (texts_of texts.now) program.now.sources.items }
    ensures { Builds (texts_of texts.now) result }
{
    match text_of(alloc, texts, &program.sources) {
        Ok(code) => Ok(code),
        Err(Fault::Unbuilt) => Err(BuildErr::Unbuilt),
        Err(Fault::Memory) => Err(BuildErr::Memory),
    }
}

/// The bytes of .text of the program that the texts of all files make, at most 10,000 texts of at most 262,144 bytes each.
///
/// `Front` comes with the refusal of the front end, exactly where it has one, and `Unbuilt` exactly where the program isn't of the
/// small form.
pub fn build(alloc: Global, texts: &[Vec<u8>]) -> Result<Vec<u8>, BuildErr>
    requires few { length texts.now ≤ 10000 }
    requires short { All (λ t. length t.items ≤ 262144) texts.now }
    ensures built { Builds (texts_of texts.now) result }
{
    match accept(alloc, texts) {
        Ok(program) => code_of(alloc, texts, &program),
        Err(error) => Err(BuildErr::Front(error)),
    }
}
