// Sizes, alignments and offsets: what a tag's members give it.
ghost use Rattle.std.specs.Prelude.{◌≡◌, ◌≤◌, ◌-◌, length, drop, take, ◌++◌};
ghost use Rattle.c_type.specs.Kinds as k;
ghost use Rattle.c_type.specs.Of.{member_of, members_of, tag_of, tags_of, type_of};
ghost use Rattle.c_type.specs.Sizes as s;

use c_type::{CType, Kind, Member, Tag, TagKind, Tags};

fn kind_size(kind: Kind) -> u32
    ensures { result ≡ k.kind_size kind }
{
    match kind {
        Kind::Char | Kind::UChar => 1,
        Kind::Short | Kind::UShort => 2,
        Kind::Int | Kind::UInt | Kind::Long | Kind::ULong => 4,
    }
}

/// The size of a type in bytes, at most 4294967295. It is 0 where there is no size.
#[tactic(auto, using(c_type::proofs::Held::tag_read, crate::proofs::Laying::tag_past))]
pub fn size(tags: &Tags, ty: &CType) -> u32
    ensures { result ≡ s.size (tags_of tags.now) (type_of ty.now) }
{
    match ty {
        CType::Num(kind) => kind_size(*kind),
        CType::Void | CType::Fun(_) => 0,
        CType::Ptr(_) | CType::Enum(_) => 4,
        CType::Arr(n, of) => n.saturating_mul(size(tags, of)),
        CType::Struct(tag) | CType::Union(tag) => match tags.list.get(tag.0 as usize) {
            Some(tag) => tag.size,
            None => 0,
        },
    }
}

/// The alignment of a type in bytes. It is 1 where there is none.
#[tactic(auto, using(c_type::proofs::Held::tag_read, crate::proofs::Laying::tag_past))]
pub fn align(tags: &Tags, ty: &CType) -> u32
    ensures { result ≡ s.align (tags_of tags.now) (type_of ty.now) }
{
    match ty {
        CType::Num(kind) => kind_size(*kind),
        CType::Void | CType::Fun(_) => 1,
        CType::Ptr(_) | CType::Enum(_) => 4,
        CType::Arr(_, of) => align(tags, of),
        CType::Struct(tag) | CType::Union(tag) => match tags.list.get(tag.0 as usize) {
            Some(tag) => tag.align,
            None => 1,
        },
    }
}

/// The next multiple of the alignment, at most 4294967295.
#[tactic(auto, unfolding(c_type::specs::Sizes::up_to))]
fn up_to(align: u32, at: u32) -> u32
    ensures { result ≡ s.capped (s.up_to align at) }
{
    if align == 0 {
        return 0;
    }
    let align = u64::from(align);
    let next = (u64::from(at) + (align - 1)) / align * align;
    u32::try_from(next).unwrap_or(u32::MAX)
}

/// Places members one behind the other from an offset, and gives the offset behind the last.
fn place(tags: &Tags, members: &mut [Member], from: u32) -> u32
    ensures placed { members_of members.new ≡ s.placed (tags_of tags.now) from (members_of members.old) }
    ensures end { result ≡ s.end_of (tags_of tags.now) from (members_of members.old) }
{
    let mut end = from;
    for i in 0..members.len() {
        let off = up_to(align(tags, &members[i].ty), end);
        end = off.saturating_add(size(tags, &members[i].ty));
        members[i].off = off;
    }
    end
}

fn place_at_zero(members: &mut [Member])
    ensures placed { members_of members.new ≡ s.at_zero (members_of members.old) }
{
    for i in 0..members.len() {
        members[i].off = 0;
    }
}

/// The greatest alignment of the members.
fn greatest(tags: &Tags, members: &[Member]) -> u32
    ensures { result ≡ s.greatest (tags_of tags.now) (members_of members.now) }
{
    let mut greatest = 1;
    for member in members {
        greatest = greatest.max(align(tags, &member.ty));
    }
    greatest
}

/// The greatest size of a member.
fn largest(tags: &Tags, members: &[Member]) -> u32
    ensures { result ≡ s.largest (tags_of tags.now) (members_of members.now) }
{
    let mut largest = 0;
    for member in members {
        largest = largest.max(size(tags, &member.ty));
    }
    largest
}

fn lay_struct(tags: &Tags, tag: &mut Tag)
    ensures laid { tag_of tag.new ≡ s.laid_struct (tags_of tags.now) (tag_of tag.old) }
{
    tag.align = greatest(tags, &tag.members);
    let end = place(tags, &mut tag.members, 0);
    tag.size = up_to(tag.align, end);
}

fn lay_union(tags: &Tags, tag: &mut Tag)
    ensures laid { tag_of tag.new ≡ s.laid_union (tags_of tags.now) (tag_of tag.old) }
{
    tag.align = greatest(tags, &tag.members);
    tag.size = up_to(tag.align, largest(tags, &tag.members));
    place_at_zero(&mut tag.members);
}

/// Gives a tag the numbers that its members' types give, over the tags before it.
pub fn lay(tags: &Tags, tag: &mut Tag)
    ensures laid { tag_of tag.new ≡ s.laid_as tag.old.kind (tags_of tags.now) (tag_of tag.old) }
{
    match tag.kind {
        TagKind::Struct => lay_struct(tags, tag),
        TagKind::Union => lay_union(tags, tag),
        TagKind::Enum => {
            tag.size = 4;
            tag.align = 4;
        }
    }
}
