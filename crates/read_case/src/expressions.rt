use c_expr::{ParseErr, Typedefs, expr};
use c_lex::{Tokens, lex};
use c_tree::{AssignOp, BinaryOp, Expr, StepOp, UnaryOp};
use num_le::Name;
use std::alloc::{AllocError, Global};
use std::process::Abort;
use std::test::Fail;

/// The expression at a place of the tokens.
fn read_at(
    alloc: Global,
    tokens: &Tokens,
    at: usize,
    level: u8,
    defs: &Typedefs,
) -> Result<(Expr, usize), ParseErr> {
    if level < 1 || level > 3 {
        return Err(ParseErr::Memory);
    }
    expr(alloc, tokens, at, level, defs)
}

/// The expression that a text begins with, `t` being a typedef name.
fn read(alloc: Global, text: &[u8], level: u8) -> Result<(Expr, usize), ParseErr> {
    if text.len() > 1_000_000 {
        return Err(ParseErr::Memory);
    }
    let mut defs = Typedefs::new(alloc);
    defs.add(Name::of(alloc, b"t")?)?;
    let Ok(tokens) = lex(alloc, text) else {
        return Err(ParseErr::Memory);
    };
    read_at(alloc, &tokens, 0, level, &defs)
}

/// An operator's sign, and what else tells a node from others.
fn sign(e: &Expr) -> &'static [u8] {
    match e {
        Expr::Comma(..) => b",",
        Expr::Assign(_, AssignOp::Set, ..) => b"=",
        Expr::Assign(..) => b"+=",
        Expr::Choice(..) => b"?",
        Expr::Binary(_, BinaryOp::Add, ..) => b"+",
        Expr::Binary(_, BinaryOp::Sub, ..) => b"-",
        Expr::Binary(_, BinaryOp::Mul, ..) => b"*",
        Expr::Binary(_, BinaryOp::Lt, ..) => b"<",
        Expr::Binary(_, BinaryOp::Both, ..) => b"&&",
        Expr::Binary(..) => b"|",
        Expr::Unary(_, UnaryOp::Neg, _) => b"neg ",
        Expr::Unary(_, UnaryOp::Deref, _) => b"at ",
        Expr::Unary(..) => b"! ",
        Expr::SizeOf(..) => b"sizeof ",
        Expr::SizeOfType(..) => b"sizeof type",
        Expr::Cast(..) => b"cast ",
        Expr::Index(..) => b"[",
        Expr::Call(_, _, args) => match args.len() {
            0 => b"call0 ",
            1 => b"call1 ",
            2 => b"call2 ",
            _ => b"call ",
        },
        Expr::Member(..) => b".",
        Expr::Arrow(..) => b"->",
        Expr::Post(_, StepOp::Inc, _) => b"post++ ",
        Expr::Post(..) => b"post-- ",
        Expr::Name(..) => b"",
        Expr::Int(_, _, long) => { if *long { b"1l" } else { b"1" } }
        Expr::Chr(..) => b"'",
        Expr::Text(..) => b"\"",
    }
}

/// Writes the signs of the nodes, each before those of its parts.
fn show(e: &Expr, out: &mut Vec<u8>) -> Result<(), AllocError> {
    out.extend_from_slice(sign(e))?;
    match e {
        Expr::Comma(_, a, b)
        | Expr::Assign(_, _, a, b)
        | Expr::Binary(_, _, a, b)
        | Expr::Index(_, a, b) => {
            show(a, out)?;
            show(b, out)
        }
        Expr::Choice(_, a, b, c) => {
            show(a, out)?;
            show(b, out)?;
            show(c, out)
        }
        Expr::Unary(_, _, a)
        | Expr::SizeOf(_, a)
        | Expr::Cast(_, _, a)
        | Expr::Call(_, a, _)
        | Expr::Member(_, a, _)
        | Expr::Arrow(_, a, _)
        | Expr::Post(_, _, a) => show(a, out),
        Expr::Name(_, name) => {
            out.extend_from_slice(name.as_slice())?;
            Ok(())
        }
        Expr::SizeOfType(..) | Expr::Int(..) | Expr::Chr(..) | Expr::Text(..) => Ok(()),
    }
}

/// Checks the signs of the expression, and that it goes up to the last token.
fn check(rt: &impl Abort, alloc: Global, text: &[u8], level: u8, signs: &[u8]) -> Result<(), Fail> {
    let (tree, _) = read(alloc, text, level)?;
    let mut out = Vec::new(alloc);
    show(&tree, &mut out)?;
    assert_eq!(rt; out.as_slice(), signs);
    Ok(())
}

#[test]
fn each_production(rt: HostRuntime) -> Result<(), Fail> {
    let alloc = rt.alloc();
    check(&rt, alloc, b"a , b , c ;", 1, b",,abc")?;
    check(&rt, alloc, b"a = b = c ;", 2, b"=a=bc")?;
    check(&rt, alloc, b"a += b ;", 2, b"+=ab")?;
    check(&rt, alloc, b"a ? b , c : d ? e : f ;", 3, b"?a,bc?def")?;
    check(&rt, alloc, b"a | b && c ;", 3, b"&&|abc")?;
    check(&rt, alloc, b"a - b - c ;", 3, b"--abc")?;
    check(&rt, alloc, b"a + b * c ;", 3, b"+a*bc")?;
    check(&rt, alloc, b"( a + b ) * c ;", 3, b"*+abc")?;
    check(&rt, alloc, b"- ! a ;", 3, b"neg ! a")?;
    check(&rt, alloc, b"* p ++ ;", 3, b"at post++ p")?;
    check(&rt, alloc, b"sizeof a ;", 3, b"sizeof a")?;
    check(&rt, alloc, b"sizeof ( x ) + 1 ;", 3, b"+sizeof x1")?;
    check(&rt, alloc, b"sizeof ( t ) + 1 ;", 3, b"+sizeof type1")?;
    check(&rt, alloc, b"( t ) * p ;", 3, b"cast at p")?;
    check(&rt, alloc, b"( x ) * p ;", 3, b"*xp")?;
    check(&rt, alloc, b"( struct s * * ) - 1l ;", 3, b"cast neg 1l")?;
    check(&rt, alloc, b"f ( ) [ a ] -- ;", 3, b"post-- [call0 fa")?;
    check(&rt, alloc, b"f ( a , b = c ) . m -> n ;", 3, b"->.call2 f")?;
    check(&rt, alloc, b"'a' < \"b\" ;", 3, b"<'\"")?;
    Ok(())
}

/// Whether the text has no expression of the level, the line of the refusal being this one.
fn is_refused(alloc: Global, text: &[u8], level: u8, line: u32) -> bool {
    match read(alloc, text, level) {
        Err(ParseErr::NotC(found)) => found == line,
        _ => false,
    }
}

/// The place of the token behind the expression.
fn place(alloc: Global, text: &[u8], level: u8) -> Option<usize> {
    let (_, place) = read(alloc, text, level).ok()?;
    Some(place)
}

#[test]
fn what_may_follow(rt: HostRuntime) -> Result<(), Fail> {
    let alloc = rt.alloc();
    for level in [1, 2, 3] {
        for text in [b"a ) b", b"a ] b", b"a ; b", b"a : b"] {
            assert_eq!(rt; place(alloc, text, level), Some(1));
        }
        assert!(rt; is_refused(alloc, b"a b", level, 1));
        assert!(rt; is_refused(alloc, b"a", level, 1));
        assert!(rt; is_refused(alloc, b"a {", level, 1));
    }
    for level in [2, 3] {
        assert_eq!(rt; place(alloc, b"a , b ;", level), Some(1));
        assert_eq!(rt; place(alloc, b"a } b", level), Some(1));
    }
    assert_eq!(rt; place(alloc, b"a , b ;", 1), Some(3));
    assert!(rt; is_refused(alloc, b"a , b }", 1, 1));
    assert_eq!(rt; place(alloc, b"a = b ;", 2), Some(3));
    assert!(rt; is_refused(alloc, b"a = b ;", 3, 1));
    Ok(())
}

#[test]
fn no_expression(rt: HostRuntime) -> Result<(), Fail> {
    let alloc = rt.alloc();
    assert!(rt; is_refused(alloc, b"", 1, 0));
    assert!(rt; is_refused(alloc, b"a +\n\n) ;", 1, 3));
    assert!(rt; is_refused(alloc, b"f ( a\nb ) ;", 1, 2));
    assert!(rt; is_refused(alloc, b"( a\n", 1, 1));
    assert!(rt; is_refused(alloc, b"t ;", 1, 1));
    assert!(rt; is_refused(alloc, b"a . t ;", 1, 1));
    assert!(rt; is_refused(alloc, b"( union u ) a ;", 1, 1));
    assert!(rt; is_refused(alloc, b"( int unsigned char ) a ;", 1, 1));
    let tokens = lex(alloc, b"a\n;")?;
    let defs = Typedefs::new(alloc);
    assert!(rt; matches!(read_at(alloc, &tokens, 3, 1, &defs), Err(ParseErr::NotC(2))));
    Ok(())
}

/// The front so many times, then the middle, then the back as often.
fn repeated(
    alloc: Global,
    count: usize,
    front: &[u8],
    middle: &[u8],
    back: &[u8],
) -> Result<Vec<u8>, AllocError> {
    let mut text = Vec::new(alloc);
    for _ in 0..count {
        text.extend_from_slice(front)?;
    }
    text.extend_from_slice(middle)?;
    for _ in 0..count {
        text.extend_from_slice(back)?;
    }
    Ok(text)
}

#[test]
fn depth_and_length(rt: HostRuntime) -> Result<(), Fail> {
    let alloc = rt.alloc();
    let deepest = repeated(alloc, 199, b"- ", b"a ;", b"")?;
    assert_eq!(rt; place(alloc, &deepest, 3), Some(200));
    let deeper = repeated(alloc, 200, b"- ", b"a ;", b"")?;
    assert!(rt; is_refused(alloc, &deeper, 3, 1));
    let sum = repeated(alloc, 100_000, b"a+", b"a ;", b"")?;
    assert!(rt; is_refused(alloc, &sum, 3, 1));
    let signs = repeated(alloc, 100_000, b"- ", b"a ;", b"")?;
    assert!(rt; is_refused(alloc, &signs, 3, 1));
    let mut brackets = repeated(alloc, 1000, b"(", b"a", b")")?;
    brackets.extend_from_slice(b" ;")?;
    assert_eq!(rt; place(alloc, &brackets, 3), Some(2001));
    let mut args = repeated(alloc, 100_000, b"", b"f(1", b",1")?;
    args.extend_from_slice(b") ;")?;
    assert_eq!(rt; place(alloc, &args, 3), Some(200_004));
    Ok(())
}

#[test]
fn a_typedef_name_is_found(rt: HostRuntime) -> Result<(), Fail> {
    let mut defs = Typedefs::new(rt.alloc());
    assert!(rt; !defs.has(b"word"));
    defs.add(Name::of(rt.alloc(), b"word")?)?;
    assert!(rt; defs.has(b"word"));
    assert!(rt; !defs.has(b"words"));
    Ok(())
}
