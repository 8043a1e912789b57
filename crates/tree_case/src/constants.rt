// Typed expressions built by hand, as the checker makes them of the texts in the comments.
use c_constant::{constant, is_known, is_zero, place_spot, pointer_spot};
use c_tree::{Ref, TBinary, TExpr};
use c_type::{CType, Kind};
use std::alloc::{AllocError, Global};
use std::test::Fail;

fn number(kind: Kind, n: u32) -> TExpr {
    TExpr::Int(CType::Num(kind), n)
}

fn binary(alloc: Global, op: TBinary, kind: Kind, x: u32, y: u32) -> Result<TExpr, AllocError> {
    let a = Box::new(alloc, number(kind, x))?;
    let b = Box::new(alloc, number(kind, y))?;
    Ok(TExpr::Binary(CType::Num(kind), op, a, b))
}

/// What an operator on two numbers gives, if that is a constant.
fn value(
    alloc: Global,
    op: TBinary,
    kind: Kind,
    x: u32,
    y: u32,
) -> Result<Option<u32>, AllocError> {
    let tree = binary(alloc, op, kind, x, y)?;
    Ok(constant(&[], &tree))
}

/// Operators on two numbers of a kind, and what they give.
type Rows<'a> = &'a [(TBinary, Kind, u32, u32, Option<u32>)];

/// The first row that gives something else.
fn first_other(alloc: Global, rows: Rows<'_>) -> Result<Option<usize>, AllocError> {
    for (at, (op, kind, x, y, wanted)) in rows.iter().enumerate() {
        if value(alloc, *op, *kind, *x, *y)? != *wanted {
            return Ok(Some(at));
        }
    }
    Ok(None)
}

// `7 % 0`, `-2147483648 / -1`, and the latter without sign
const TRAPS: [(TBinary, Kind, u32, u32, Option<u32>); 3] = [
    (TBinary::Rem, Kind::Int, 7, 0, None),
    (TBinary::Div, Kind::Int, 2147483648, 4294967295, None),
    (TBinary::Div, Kind::UInt, 2147483648, 4294967295, Some(0)),
];

/// Whether `2147483648u / 4294967295u` is the constant 0.
fn quotient_is_zero(alloc: Global) -> Result<bool, AllocError> {
    let tree = binary(alloc, TBinary::Div, Kind::UInt, 2147483648, 4294967295)?;
    Ok(is_zero(&[], &tree))
}

#[test]
fn what_traps_is_no_constant(rt: HostRuntime) -> Result<(), Fail> {
    assert_eq!(rt; first_other(rt.alloc(), &TRAPS)?, None);
    assert!(rt; quotient_is_zero(rt.alloc())?);
    Ok(())
}

// `-7 / 2`, `-7 % 2`, `-1 >> 1`, and the latter without sign
const SIGNS: [(TBinary, Kind, u32, u32, Option<u32>); 4] = [
    (TBinary::Div, Kind::Int, 4294967289, 2, Some(4294967293)),
    (TBinary::Rem, Kind::Int, 4294967289, 2, Some(4294967295)),
    (TBinary::Shr, Kind::Int, 4294967295, 1, Some(4294967295)),
    (TBinary::Shr, Kind::UInt, 4294967295, 1, Some(2147483647)),
];

#[test]
fn signed_operands_are_read_with_their_sign(rt: HostRuntime) -> Result<(), Fail> {
    assert_eq!(rt; first_other(rt.alloc(), &SIGNS)?, None);
    Ok(())
}

fn to_int(alloc: Global) -> Result<CType, AllocError> {
    Ok(CType::Ptr(Box::new(alloc, CType::Num(Kind::Int))?))
}

// `a`, declared as `int a[3]` outside of functions
fn array(alloc: Global) -> Result<TExpr, AllocError> {
    let whole = CType::Arr(3, Box::new(alloc, CType::Num(Kind::Int))?);
    let name = Box::new(alloc, TExpr::Name(whole, Ref::Static(0)))?;
    Ok(TExpr::Decay(to_int(alloc)?, name))
}

// `&a[n]`
fn element(alloc: Global, n: u32) -> Result<TExpr, AllocError> {
    let begin = Box::new(alloc, array(alloc)?)?;
    let at = Box::new(alloc, number(Kind::Int, n))?;
    let place = Box::new(alloc, TExpr::Index(CType::Num(Kind::Int), begin, at))?;
    Ok(TExpr::Address(to_int(alloc)?, place))
}

/// The offset in `a` to which `&a[n]` points, if that is known before a run.
fn offset(alloc: Global, n: u32) -> Result<Option<u32>, AllocError> {
    let pointer = element(alloc, n)?;
    Ok(pointer_spot(&[], &pointer).map(|spot| spot.off))
}

/// Whether a pointer may begin with `&a[n]` outside of functions.
fn may_begin(alloc: Global, n: u32) -> Result<bool, AllocError> {
    let ty = to_int(alloc)?;
    let pointer = element(alloc, n)?;
    Ok(is_known(&[], &ty, &pointer))
}

/// Whether `&a[n]` is a place.
fn is_place(alloc: Global, n: u32) -> Result<bool, AllocError> {
    let pointer = element(alloc, n)?;
    Ok(place_spot(&[], &pointer).is_some())
}

#[test]
fn the_end_of_an_array_is_the_last_spot_in_it(rt: HostRuntime) -> Result<(), Fail> {
    let alloc = rt.alloc();
    assert_eq!(rt; offset(alloc, 3)?, Some(12));
    assert!(rt; may_begin(alloc, 3)?);
    assert!(rt; !is_place(alloc, 3)?);
    assert!(rt; !may_begin(alloc, 4)?);
    Ok(())
}
