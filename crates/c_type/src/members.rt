// Members by their names.
ghost use Rattle.std.specs.Prelude.{◌≡◌, ◌<◌, length};
ghost use Rattle.std.specs.Option.{option_map};
ghost use Rattle.c_type.specs.Of.{tags_of, member_of, members_of};
ghost use Rattle.c_type.specs.Members.{member_named, members_at};

use crate::{Member, TagId, Tags};

fn named<'a>(members: &'a [Member], name: &[u8]) -> Option<&'a Member>
    ensures { option_map (λ m. member_of m.now) result ≡ member_named name.now (members_of members.now) }
{
    for member in members {
        if member.name.is(name) {
            return Some(member);
        }
    }
    None
}

/// The member of this name, the first where there are several. None exactly where the tag has none of that name.
pub fn member<'a>(tags: &'a Tags, tag: TagId, name: &[u8]) -> Option<&'a Member>
    requires { tag.0 < length tags.now.list.items }
    ensures { option_map (λ m. member_of m.now) result ≡ member_named name.now (members_at (tags_of tags.now) tag.0) }
{
    named(&tags.list[tag.0 as usize].members, name)
}
