// The size and the alignment of a type.
ghost use Rattle.std.specs.Prelude.{◌≡◌, length};
ghost use Rattle.c_type.specs.Kinds.{kind_size as kind_size_lem};
ghost use Rattle.c_type.specs.Of.{type_of, tags_of};
ghost use Rattle.c_type.specs.Sizes.{size as size_lem, align as align_lem, IsWithin};

use crate::{CType, Kind, Tags};

fn kind_size(kind: Kind) -> u32
    ensures { result ≡ kind_size_lem kind }
{
    match kind {
        Kind::Char | Kind::UChar => 1,
        Kind::Short | Kind::UShort => 2,
        Kind::Int | Kind::UInt | Kind::Long | Kind::ULong => 4,
    }
}

/// The size of a type in bytes, at most 4294967295. `void` and a function have size 0.
pub fn size(ty: &CType, tags: &Tags) -> u32
    requires { IsWithin (length tags.now.list.items) (type_of ty.now) }
    ensures { result ≡ size_lem (tags_of tags.now) (type_of ty.now) }
{
    match ty {
        CType::Num(kind) => kind_size(*kind),
        CType::Void | CType::Fun(_) => 0,
        CType::Ptr(_) | CType::Enum(_) => 4,
        CType::Arr(n, t) => n.saturating_mul(size(t, tags)),
        CType::Struct(tag) | CType::Union(tag) => tags.list[tag.0 as usize].size,
    }
}

/// The alignment of a type in bytes. `void` and a function have alignment 1.
pub fn align(ty: &CType, tags: &Tags) -> u32
    requires { IsWithin (length tags.now.list.items) (type_of ty.now) }
    ensures { result ≡ align_lem (tags_of tags.now) (type_of ty.now) }
{
    match ty {
        CType::Num(kind) => kind_size(*kind),
        CType::Void | CType::Fun(_) => 1,
        CType::Ptr(_) | CType::Enum(_) => 4,
        CType::Arr(_, t) => align(t, tags),
        CType::Struct(tag) | CType::Union(tag) => tags.list[tag.0 as usize].align,
    }
}
