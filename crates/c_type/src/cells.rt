// The cell that begins at an offset.
ghost use Rattle.std.specs.Prelude.{◌≡◌, ◌<◌, ◌≤◌, length};
ghost use Rattle.std.specs.Option.{option_map};
ghost use Rattle.c_type.specs.Of.{type_of, tag_of, tags_of, members_of};
ghost use Rattle.c_type.specs.Parts.{IsElement, AreSmall, members_cells};
ghost use Rattle.c_type.specs.Names.{at_or};
ghost use Rattle.c_type.specs.Sizes.{no_tag, size as size_lem, AreLaid, IsWithin, AreWithin};
ghost use Rattle.c_type.specs.Cells.{cells, cell_from, moved};

use crate::sizes::size;
use crate::{CType, Member, Tag, TagId, TagKind, Tags};

fn tag_at(tags: &Tags, tag: TagId) -> &Tag
    requires { tag.0 < length tags.now.list.items }
    ensures { tag_of result.now ≡ at_or no_tag (tags_of tags.now) tag.0 }
{
    &tags.list[tag.0 as usize]
}

/// The innermost element of an array that the offset lies in, and the rest of the offset in it. Another type is its
/// own innermost element.
fn element_at<'a>(ty: &'a CType, tags: &'a Tags, off: u32) -> Option<(&'a CType, u32)>
    requires laid { AreLaid (tags_of tags.now) }
    requires within { IsWithin (length tags.now.list.items) (type_of ty.now) }
    requires small { size_lem (tags_of tags.now) (type_of ty.now) < 4294967295 }
    ensures part { IsElement (tags_of tags.now) off (type_of ty.now) (option_map (λ x. (type_of x.0.now, x.1)) result) }
{
    let CType::Arr(n, element) = ty else {
        return Some((ty, off));
    };
    let step = size(element, tags);
    if step == 0 || off / step >= *n {
        return None;
    }
    element_at(element, tags, off % step)
}

/// The cell of the member that begins at the offset of the whole.
#[cycle(search)]
fn in_member<'a>(member: &'a Member, tags: &'a Tags, off: u32, below: usize) -> Option<&'a CType>
    requires laid { AreLaid (tags_of tags.now) }
    requires known { below ≤ length tags.now.list.items }
    requires within { IsWithin below (type_of member.now.ty) }
    requires small { size_lem (tags_of tags.now) (type_of member.now.ty) < 4294967295 }
    ensures cell { option_map (λ x. type_of x.now) result ≡ cell_from off (moved member.now.off (cells (tags_of tags.now) (type_of member.now.ty))) }
{
    if off < member.off || off - member.off >= size(&member.ty, tags) {
        return None;
    }
    cell_below(&member.ty, tags, off - member.off, below)
}

/// The cell of one of the members that begins at the offset, where their tag has the number `below`.
#[cycle(search)]
fn member_cell<'a>(
    members: &'a [Member],
    tags: &'a Tags,
    off: u32,
    below: usize,
) -> Option<&'a CType>
    requires laid { AreLaid (tags_of tags.now) }
    requires known { below ≤ length tags.now.list.items }
    requires within { AreWithin below (members_of members.now) }
    requires small { AreSmall (tags_of tags.now) (members_of members.now) }
    ensures cell { option_map (λ x. type_of x.now) result ≡ cell_from off (members_cells (tags_of tags.now) (members_of members.now)) }
{
    for member in members {
        if let Some(cell) = in_member(member, tags, off, below) {
            return Some(cell);
        }
    }
    None
}

/// The cell of a type that begins at the offset, where the type holds by value tags below `below` alone.
#[cycle(search)]
fn cell_below<'a>(ty: &'a CType, tags: &'a Tags, off: u32, below: usize) -> Option<&'a CType>
    requires laid { AreLaid (tags_of tags.now) }
    requires known { below ≤ length tags.now.list.items }
    requires within { IsWithin below (type_of ty.now) }
    requires small { size_lem (tags_of tags.now) (type_of ty.now) < 4294967295 }
    ensures cell { option_map (λ x. type_of x.now) result ≡ cell_from off (cells (tags_of tags.now) (type_of ty.now)) }
{
    let (part, rest) = element_at(ty, tags, off)?;
    match part {
        CType::Num(_) | CType::Ptr(_) | CType::Enum(_) => (rest == 0).then_some(part),
        CType::Void | CType::Fun(_) | CType::Arr(_, _) => None,
        CType::Struct(tag) | CType::Union(tag) => {
            let held = tag_at(tags, *tag);
            match held.kind {
                TagKind::Enum => None,
                TagKind::Struct | TagKind::Union => {
                    member_cell(&held.members, tags, rest, tag.0 as usize)
                }
            }
        }
    }
}

/// The scalar type of the cell that begins at the offset. None exactly where no cell of the type begins there.
pub fn cell_at<'a>(ty: &'a CType, tags: &'a Tags, off: u32) -> Option<&'a CType>
    requires laid { AreLaid (tags_of tags.now) }
    requires within { IsWithin (length tags.now.list.items) (type_of ty.now) }
    requires small { size_lem (tags_of tags.now) (type_of ty.now) < 4294967295 }
    ensures cell { option_map (λ x. type_of x.now) result ≡ cell_from off (cells (tags_of tags.now) (type_of ty.now)) }
{
    cell_below(ty, tags, off, tags.list.len())
}
