#![tactic(none)]
// Expressions that the rules take and refuse.
use crate::fresh::fresh;
use c_expr::{ParseErr, Typedefs, expr as read};
use c_lex::lex;
use c_scope::{Meaning, Scopes, TypeErr};
use c_tree::{Expr, Ref};
use c_type::{CType, Kind, Member, Tag, TagId, TagKind};
use c_value::expr;
use num_le::Name;
use std::alloc::{AllocError, Global};
use std::test::Fail;

/// The expression that a text begins with.
#[tactic(auto)]
fn parsed(alloc: Global, text: &[u8]) -> Result<Box<Expr>, ParseErr> {
    if text.len() > 1_000_000 {
        return Err(ParseErr::Memory);
    }
    let defs = Typedefs::new(alloc);
    let Ok(tokens) = lex(alloc, text) else {
        return Err(ParseErr::Memory);
    };
    let (tree, _) = read(alloc, &tokens, 0, 1, &defs)?;
    Box::new(alloc, tree).map_err(|_| ParseErr::Memory)
}

fn int() -> CType {
    CType::Num(Kind::Int)
}

fn pointer(alloc: Global, kind: Kind) -> Result<CType, AllocError> {
    Ok(CType::Ptr(Box::new(alloc, CType::Num(kind))?))
}

fn array(alloc: Global, length: u32) -> Result<CType, AllocError> {
    Ok(CType::Arr(length, Box::new(alloc, int())?))
}

/// Declares an object outside of functions.
fn object(c: &mut Scopes, name: &[u8], ty: CType) -> Result<(), TypeErr> {
    let alloc = c.alloc;
    let bound = Ref::Ext(Name::of(alloc, name)?);
    c.declare_in_file(1, Name::of(alloc, name)?, Meaning::Thing(bound, ty))
}

/// Closes `struct s { int m; }`.
fn close_structure(c: &mut Scopes) -> Result<(), AllocError> {
    let alloc = c.alloc;
    let mut members = Vec::new(alloc);
    members.push(Member {
        name: Name::of(alloc, b"m")?,
        off: 0,
        ty: int(),
    })?;
    c.close(Tag {
        name: Name::of(alloc, b"s")?,
        kind: TagKind::Struct,
        members,
        size: 0,
        align: 0,
    })
}

// `int i; char c; int *p; char *q; int a[3]; extern int e[]; struct s { int m; } s;`
fn declare(c: &mut Scopes) -> Result<(), TypeErr> {
    let alloc = c.alloc;
    object(c, b"i", int())?;
    object(c, b"c", CType::Num(Kind::Char))?;
    object(c, b"p", pointer(alloc, Kind::Int)?)?;
    object(c, b"q", pointer(alloc, Kind::Char)?)?;
    object(c, b"a", array(alloc, 3)?)?;
    object(c, b"e", array(alloc, 0)?)?;
    close_structure(c)?;
    object(c, b"s", CType::Struct(TagId(0)))
}

/// Whether an expression has a type among these declarations.
fn judged(c: &mut Scopes, tree: &Expr) -> Result<(), TypeErr> {
    declare(c)?;
    expr(c, tree)?;
    Ok(())
}

/// The rule by which an expression is refused, 0 where it has a type, 255 where it couldn't be tried.
fn rule(alloc: Global, text: &[u8]) -> u8 {
    let Ok(tree) = parsed(alloc, text) else {
        return 255;
    };
    let Ok(mut c) = fresh(alloc) else {
        return 255;
    };
    match judged(&mut c, &tree) {
        Ok(()) => 0,
        Err(TypeErr::Rule(number, _)) => number,
        Err(TypeErr::Memory) => 255,
    }
}

/// The first expression of which another rule is told than the one that refuses it.
#[tactic(auto)]
fn first_other<'a>(alloc: Global, cases: &[(&'a str, u8)]) -> Option<&'a str> {
    for (text, number) in cases {
        if rule(alloc, text.as_bytes()) != *number {
            return Some(text);
        }
    }
    None
}

const NAMES_AND_TYPES: [(&str, u8); 7] = [
    ("x ;", 2),
    ("x ( ) ;", 0),
    ("( void * ) 0 ;", 4),
    ("sizeof e ;", 5),
    ("& e ;", 5),
    ("sizeof a ;", 0),
    ("e [ 1 ] ;", 0),
];

#[test]
#[tactic(auto)]
fn names_and_types(rt: HostRuntime) -> Result<(), Fail> {
    assert_eq!(rt; first_other(rt.alloc(), &NAMES_AND_TYPES), None);
    Ok(())
}

const ARITHMETIC: [(&str, u8); 8] = [
    ("i * c - ~ c << 1 ;", 0),
    ("p * i ;", 12),
    ("- p ;", 12),
    ("1 + ( p + 1 ) ;", 0),
    ("p + q ;", 13),
    ("p - p ;", 0),
    ("p - q ;", 13),
    ("1 - p ;", 13),
];

#[test]
#[tactic(auto)]
fn arithmetic(rt: HostRuntime) -> Result<(), Fail> {
    assert_eq!(rt; first_other(rt.alloc(), &ARITHMETIC), None);
    Ok(())
}

const COMPARISONS: [(&str, u8); 10] = [
    ("p < a ;", 0),
    ("p < q ;", 14),
    ("p == 0 ;", 0),
    ("0 != p ;", 0),
    ("p == 1 ;", 14),
    ("p && ! a ;", 0),
    ("! ( void ) i ;", 15),
    ("i ? p : 0 ;", 0),
    ("i ? ( void ) p : ( void ) c ;", 0),
    ("i ? p : q ;", 16),
];

#[test]
#[tactic(auto)]
fn comparisons(rt: HostRuntime) -> Result<(), Fail> {
    assert_eq!(rt; first_other(rt.alloc(), &COMPARISONS), None);
    Ok(())
}

const PLACES: [(&str, u8); 12] = [
    ("* & * p ;", 0),
    ("* i ;", 17),
    ("& 1 ;", 17),
    ("a [ i ] ;", 0),
    ("1 [ a ] ;", 18),
    ("s . m ;", 0),
    ("( & s ) -> m ;", 0),
    ("s . n ;", 19),
    ("p -> m ;", 19),
    ("f ( i , p ) ;", 0),
    ("i ( 1 ) ;", 20),
    ("f ( ( void ) i ) ;", 20),
];

#[test]
#[tactic(auto)]
fn places(rt: HostRuntime) -> Result<(), Fail> {
    assert_eq!(rt; first_other(rt.alloc(), &PLACES), None);
    Ok(())
}

const ASSIGNMENTS: [(&str, u8); 12] = [
    ("s , i ;", 21),
    ("i = c , p = 0 , p += 1 ;", 0),
    ("s = s ;", 0),
    ("s = i ;", 21),
    ("1 = i ;", 21),
    ("p = 1 ;", 21),
    ("a = p ;", 21),
    ("i ++ ;", 0),
    ("1 ++ ;", 21),
    ("( char ) i + * ( int * ) 0 ;", 0),
    ("( int * ) 1 ;", 22),
    ("( int ) p ;", 22),
];

#[test]
#[tactic(auto)]
fn assignments(rt: HostRuntime) -> Result<(), Fail> {
    assert_eq!(rt; first_other(rt.alloc(), &ASSIGNMENTS), None);
    Ok(())
}
