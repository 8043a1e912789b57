#![tactic(none)]
// The names and tags that are known where a declaration stands.
use crate::fresh::fresh;
use c_scope::{Meaning, Scopes, TypeErr, cast_type, sized_type, spec_or_int};
use c_tree::{Ref, TParam, TypeName, TypeSpec};
use c_type::{CType, Kind, Member, Tag, TagKind, Tags};
use num_le::Name;
use std::alloc::{AllocError, Global};
use std::test::Fail;

fn thing(number: u32, kind: Kind) -> Meaning {
    Meaning::Thing(Ref::Local(number), CType::Num(kind))
}

/// The number of the automatic object or parameter that a name means.
fn number(c: &Scopes, name: &[u8]) -> Option<u32> {
    match c.meaning(name) {
        Some(Meaning::Thing(Ref::Local(number) | Ref::Param(number), _)) => Some(*number),
        _ => None,
    }
}

/// Ends a test where an answer isn't Ok.
fn declared(answer: Result<(), TypeErr>) -> Result<(), AllocError> {
    match answer {
        Ok(()) => Ok(()),
        Err(_) => Err(AllocError),
    }
}

fn is_rule(answer: &Result<(), TypeErr>, number: u8, line: u32) -> bool {
    match answer {
        Err(TypeErr::Rule(rule, at)) => *rule == number && *at == line,
        _ => false,
    }
}

// `f(a) int a; { int b; { char b; } int b; }`
fn two_blocks(c: &mut Scopes) -> Result<bool, AllocError> {
    let alloc = c.alloc;
    let mut params = Vec::new(alloc);
    params.push(TParam {
        name: Name::of(alloc, b"a")?,
        ty: CType::Num(Kind::Int),
    })?;
    c.enter_body(&params)?;
    c.enter()?;
    let first = c.next_auto()?;
    declared(c.declare_here(2, Name::of(alloc, b"b")?, thing(first, Kind::Int)))?;
    c.enter()?;
    let second = c.next_auto()?;
    declared(c.declare_here(3, Name::of(alloc, b"b")?, thing(second, Kind::Char)))?;
    let inside = (number(c, b"a"), number(c, b"b"));
    c.leave();
    let outside = number(c, b"b");
    let twice = c.declare_here(4, Name::of(alloc, b"b")?, thing(2, Kind::Int));
    Ok(inside == (Some(0), Some(1)) && outside == Some(0) && is_rule(&twice, 1, 4))
}

#[test]
#[tactic(auto)]
fn inner_declarations_hide_outer_ones(rt: HostRuntime) -> Result<(), Fail> {
    let mut c = fresh(rt.alloc())?;
    assert!(rt; two_blocks(&mut c)?);
    Ok(())
}

fn array(alloc: Global, length: u32) -> Result<Meaning, AllocError> {
    let element = Box::new(alloc, CType::Num(Kind::Int))?;
    let name = Ref::Ext(Name::of(alloc, b"a")?);
    Ok(Meaning::Thing(name, CType::Arr(length, element)))
}

/// The dimension of the array that a name means in the file.
fn dimension(c: &Scopes, name: &[u8]) -> Option<u32> {
    match c.in_file(name) {
        Some(Meaning::Thing(_, CType::Arr(length, _))) => Some(*length),
        _ => None,
    }
}

// `extern int a[]; int a[3]; extern int a[4];`
fn three_arrays(c: &mut Scopes) -> Result<bool, AllocError> {
    let alloc = c.alloc;
    declared(c.declare_in_file(1, Name::of(alloc, b"a")?, array(alloc, 0)?))?;
    declared(c.declare_in_file(2, Name::of(alloc, b"a")?, array(alloc, 3)?))?;
    let found = dimension(c, b"a");
    let other = c.declare_in_file(3, Name::of(alloc, b"a")?, array(alloc, 4)?);
    Ok(found == Some(3) && is_rule(&other, 1, 3))
}

#[test]
#[tactic(auto)]
fn a_missing_dimension_is_found_later(rt: HostRuntime) -> Result<(), Fail> {
    let mut c = fresh(rt.alloc())?;
    assert!(rt; three_arrays(&mut c)?);
    Ok(())
}

fn member(alloc: Global, name: &[u8], kind: Kind) -> Result<Member, AllocError> {
    Ok(Member {
        name: Name::of(alloc, name)?,
        off: 0,
        ty: CType::Num(kind),
    })
}

/// The size of the first tag, and the offset of its last member.
fn laid(tags: &Tags) -> Option<(u32, u32)> {
    let tag = tags.list.first()?;
    let member = tag.members.last()?;
    Some((tag.size, member.off))
}

// `struct s { char c; int n; };`
fn close_structure(c: &mut Scopes) -> Result<(), AllocError> {
    let alloc = c.alloc;
    let mut members = Vec::new(alloc);
    members.push(member(alloc, b"c", Kind::Char)?)?;
    members.push(member(alloc, b"n", Kind::Int)?)?;
    c.close(Tag {
        name: Name::of(alloc, b"s")?,
        kind: TagKind::Struct,
        members,
        size: 0,
        align: 0,
    })
}

#[test]
#[tactic(auto)]
fn a_closed_tag_is_laid(rt: HostRuntime) -> Result<(), Fail> {
    let mut c = fresh(rt.alloc())?;
    close_structure(&mut c)?;
    assert_eq!(rt; laid(c.tags()), Some((8, 4)));
    Ok(())
}

/// The words of a type with stars behind them.
fn words(types: TypeSpec, stars: usize) -> TypeName {
    TypeName {
        line: 2,
        types,
        stars,
    }
}

/// The number of pointers that an answer begins with, up to 2.
fn stars(answer: &Result<CType, TypeErr>) -> Option<u32> {
    match answer {
        Ok(CType::Ptr(of)) => match &**of {
            CType::Ptr(_) => Some(2),
            _ => Some(1),
        },
        Ok(_) => Some(0),
        Err(_) => None,
    }
}

// `(int **)`
fn cast_stars(c: &Scopes) -> Option<u32> {
    stars(&cast_type(c, &words(TypeSpec::Num(Kind::Int), 2)))
}

// `(void)`
fn is_void_cast(c: &Scopes) -> bool {
    matches!(&cast_type(c, &words(TypeSpec::Void, 0)), Ok(CType::Void))
}

// `sizeof(void)`
fn is_void_refused(c: &Scopes) -> bool {
    matches!(
        &sized_type(c, &words(TypeSpec::Void, 0)),
        Err(TypeErr::Rule(4, 2))
    )
}

// words that are left out
fn is_int_meant(c: &Scopes) -> bool {
    matches!(&spec_or_int(c, 3, &None), Ok(CType::Num(Kind::Int)))
}

#[test]
#[tactic(auto)]
fn words_name_types(rt: HostRuntime) -> Result<(), Fail> {
    let c = fresh(rt.alloc())?;
    assert_eq!(rt; cast_stars(&c), Some(2));
    assert!(rt; is_void_cast(&c));
    assert!(rt; is_void_refused(&c));
    assert!(rt; is_int_meant(&c));
    Ok(())
}

fn numbered(c: &mut Scopes) -> Result<bool, AllocError> {
    let alloc = c.alloc;
    let texts = (
        c.text(Name::of(alloc, b"a\0")?)?,
        c.text(Name::of(alloc, b"b\0")?)?,
    );
    c.started(3)?;
    c.set_statics(2);
    let counts = (c.count_texts(), c.starts(), c.statics());
    let outer = c.function_ref(false, b"f")?;
    Ok(texts == (0, 1) && counts == (2, 3, 2) && matches!(&outer, Ref::Outer(_)))
}

#[test]
#[tactic(auto)]
fn texts_and_starts_are_numbered(rt: HostRuntime) -> Result<(), Fail> {
    let mut c = fresh(rt.alloc())?;
    assert!(rt; numbered(&mut c)?);
    Ok(())
}
