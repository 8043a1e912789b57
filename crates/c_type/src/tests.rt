use crate::members::member;
use crate::{CType, Kind, Member, Tag, TagId, TagKind, Tags, align, cell_at, size};
use num_le::Name;
use std::test::Fail;

#[test]
fn an_array_of_arrays(rt: HostRuntime) -> Result<(), Fail> {
    let tags = Tags {
        list: Vec::new(rt.alloc()),
    };
    let row = CType::Arr(3, Box::new(rt.alloc(), CType::Num(Kind::UShort))?);
    let rows = CType::Arr(2, Box::new(rt.alloc(), row)?);
    assert_eq!(rt; size(&rows, &tags), 12);
    assert_eq!(rt; align(&rows, &tags), 2);
    assert!(rt; matches!(cell_at(&rows, &tags, 10), Some(CType::Num(Kind::UShort))));
    assert!(rt; cell_at(&rows, &tags, 9).is_none());
    assert!(rt; cell_at(&rows, &tags, 12).is_none());
    Ok(())
}

#[test]
fn a_member_by_its_name(rt: HostRuntime) -> Result<(), Fail> {
    let mut members = Vec::new(rt.alloc());
    members.push(Member {
        name: Name::of(rt.alloc(), b"next")?,
        off: 0,
        ty: CType::Ptr(Box::new(rt.alloc(), CType::Struct(TagId(0)))?),
    })?;
    let mut list = Vec::new(rt.alloc());
    list.push(Tag {
        name: Name::of(rt.alloc(), b"node")?,
        kind: TagKind::Struct,
        members,
        size: 4,
        align: 4,
    })?;
    let tags = Tags { list };
    assert!(rt; member(&tags, TagId(0), b"next").is_some());
    assert!(rt; member(&tags, TagId(0), b"nex").is_none());
    Ok(())
}
