// The frame of a function.
ghost use Rattle.std.specs.Prelude.{◌≡◌, ◌+◌};
ghost use Rattle.c_type.specs.Of.{tags_of};
ghost use Rattle.c_tree.specs.TypedOf.{local_of};
ghost use Rattle.c_limit.specs.Limits.{auto_bytes as auto_bytes_lem, local_bytes};
ghost use Rattle.c_limit.specs.Temporaries.{counted};
ghost use Rattle.c_limit.specs.Of.{parts_of};
ghost use Rattle.c_limit.specs.Laws.{FrameIsOfParts};

use crate::parts::Part;
use crate::types::size_in;
use c_tree::TLocal;
use c_type::Tags;

/// The bytes of the automatic object that a declarator makes, rounded up to 4.
#[tactic(auto, unfolding(c_type::specs::Sizes::up_to))]
fn auto_bytes(local: &TLocal, tags: &Tags) -> u64
    ensures { result ≡ auto_bytes_lem (tags_of tags.now) (local_of local.now) }
{
    match local {
        TLocal::Auto(declr, _) | TLocal::AutoInit(declr, _, _, _, _) => {
            (u64::from(size_in(&declr.ty, tags)) + 3) / 4 * 4
        }
        TLocal::Static(_, _, _) | TLocal::Extern(_) | TLocal::Function(_, _) => 0,
    }
}

/// The bytes of a function's automatic objects, each rounded up to 4, and 256 for temporaries, at most 18446744073709551615.
pub fn frame_of_parts(parts: &[Part<'_>], tags: &Tags) -> u64
    ensures { result ≡ counted (local_bytes (tags_of tags.now) (parts_of parts.now) + 256) }
{
    let mut bytes: u64 = 256;
    for part in parts {
        if let Part::Declares(local) = part {
            bytes = bytes.saturating_add(auto_bytes(local, tags));
        }
    }
    bytes
}

/// A function's frame is that of its parts.
pub fn frame_is_of_parts()
    ensures law { FrameIsOfParts }
{
    // The law is all that is promised.
}
