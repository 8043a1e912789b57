#![tactic(none)]
// Units at the borders of the rules, from their texts.
use c_check::check;
use c_lex::lex;
use c_parse::parse;
use c_scope::TypeErr;
use std::alloc::{AllocError, Global};
use std::test::Fail;

/// The rule by which a unit is refused with its line, 0 and 0 where it has a typed unit, 255 and 0 where it couldn't be tried.
#[tactic(auto)]
fn told(alloc: Global, text: &[u8]) -> (u8, u32) {
    if text.len() > 1_000_000 {
        return (255, 0);
    }
    let Ok(tokens) = lex(alloc, text) else {
        return (255, 0);
    };
    let Ok(unit) = parse(alloc, &tokens) else {
        return (255, 0);
    };
    match check(alloc, &unit) {
        Ok(_) => (0, 0),
        Err(TypeErr::Rule(rule, line)) => (rule, line),
        Err(TypeErr::Memory) => (255, 0),
    }
}

/// The first unit of which another rule or another line is told than those that refuse it.
#[tactic(auto)]
fn first_other<'a>(alloc: Global, cases: &[(&'a str, u8, u32)]) -> Option<&'a str> {
    for (text, rule, line) in cases {
        if told(alloc, text.as_bytes()) != (*rule, *line) {
            return Some(text);
        }
    }
    None
}

const NAMES: [(&str, u8, u32); 13] = [
    ("int x;\nstatic int x;", 1, 2),
    ("int x = 1;\nint x = 2;", 1, 2),
    ("main() {\n int x;\n int x;\n}", 1, 3),
    ("f(a, a) { }", 1, 1),
    ("f(a) { int a; }", 1, 1),
    ("int x; int x = 1; extern int x;", 0, 0),
    ("static f(); static f() { { int f; } }", 0, 0),
    ("enum e { A }; typedef int t; f(A) { { int f; } }", 0, 0),
    ("main() { return x; }", 2, 1),
    ("int a;\nint b\n= c;", 2, 3),
    ("main() { { int y; } y; }", 2, 1),
    ("main() { f(); }", 0, 0),
    ("int x; main() { { int y; y = x; } }", 0, 0),
];

#[test]
#[tactic(auto)]
fn names(rt: HostRuntime) -> Result<(), Fail> {
    assert_eq!(rt; first_other(rt.alloc(), &NAMES), None);
    Ok(())
}

const TYPES: [(&str, u8, u32); 21] = [
    ("struct s x;", 3, 1),
    ("struct s x;\nstruct s { int m; };", 3, 1),
    ("struct s { int m; };\nenum s *x;", 3, 2),
    ("struct s { int m; };\nstruct s { int n; };", 3, 2),
    ("struct s *x; struct s { int m; };", 0, 0),
    ("extern struct s x; struct s { struct s *next; };", 0, 0),
    ("void x;", 4, 1),
    ("int f() { void *p; }", 4, 1),
    ("void f() { (void) 1; }", 0, 0),
    ("void (*f)();", 0, 0),
    ("int a[0];", 5, 1),
    ("int a[];", 5, 1),
    ("int\na[2][];", 5, 2),
    ("int f()[2];", 6, 1),
    ("extern int a[]; main() { return sizeof a; }", 5, 1),
    (
        "extern int a[]; int b[] = { 1, 2 }; char c[] = \"abc\";",
        0,
        0,
    ),
    (
        "f(a) int a[]; { } extern int e[]; int e[4]; main() { return sizeof e; }",
        0,
        0,
    ),
    ("struct s { int m; }; struct s f() { }", 6, 1),
    ("int (*f())[3] { }", 6, 1),
    ("char *f() { } enum e { A }; enum e g() { }", 0, 0),
    ("int *(*f())() { }", 0, 0),
];

#[test]
#[tactic(auto)]
fn types(rt: HostRuntime) -> Result<(), Fail> {
    assert_eq!(rt; first_other(rt.alloc(), &TYPES), None);
    Ok(())
}

const PARTS: [(&str, u8, u32); 13] = [
    ("struct s { int m;\nint m; };", 7, 1),
    ("struct s { int m;\nint f(); };", 7, 2),
    ("struct s { int m, n; }; struct t { int m; };", 0, 0),
    ("struct s { int (*f)(); };", 0, 0),
    ("f(a)\nint b; { }", 8, 2),
    ("struct s { int m; }; f(a) struct s a; { }", 8, 1),
    ("f(a, b) int b; { return a + b; }", 0, 0),
    ("f(a, g) int a[]; int g(); { return a[0] + (*g)(); }", 0, 0),
    ("int x; int a[x];", 9, 1),
    ("int a[1 / 0];", 9, 1),
    ("enum e { A = -2147483647 - 1, B = A / -1 };", 9, 1),
    (
        "enum e { A = 3, B }; int a[B ? sizeof(int) : 2], b[(char) 'a' << 1];",
        0,
        0,
    ),
    ("int a['b' - 96]; enum e { A = !sizeof a };", 0, 0),
];

#[test]
#[tactic(auto)]
fn parts(rt: HostRuntime) -> Result<(), Fail> {
    assert_eq!(rt; first_other(rt.alloc(), &PARTS), None);
    Ok(())
}

const INITIALISERS: [(&str, u8, u32); 12] = [
    ("int x; int y = x;", 10, 1),
    ("int a[2] = { 1, 2,\n3 };", 10, 1),
    ("int a[1] = 1;", 10, 1),
    ("char *p = 1;", 10, 1),
    (
        "int x; int *p = &x; char *t = \"abc\"; main() { } int (*f)() = main;",
        0,
        0,
    ),
    (
        "struct s { int a, b[2]; } v = { 1, { 2, 3 } }; char c[3] = \"abc\";",
        0,
        0,
    ),
    ("main() { int a[2] = { 1, 2 }; }", 11, 1),
    ("main() { extern int x = 1; }", 11, 1),
    ("int f() = 1;", 11, 1),
    ("main() { int *p = 1; }", 11, 1),
    ("main() { int a = 1; int *p = &a; }", 0, 0),
    ("main() { static int a[2] = { 1, 2 }; }", 0, 0),
];

#[test]
#[tactic(auto)]
fn initialisers(rt: HostRuntime) -> Result<(), Fail> {
    assert_eq!(rt; first_other(rt.alloc(), &INITIALISERS), None);
    Ok(())
}

const OPERATORS: [(&str, u8, u32); 24] = [
    ("int *p; main() { return -p; }", 12, 1),
    ("int *p; main() { p % 2; }", 12, 1),
    ("main() { return ~6 / 4 % 5 << 1; }", 0, 0),
    ("main() { return 1 & 'b' | 3 ^ -4 * 5 >> 2; }", 0, 0),
    ("int *p; char *q; main() { p + q; }", 13, 1),
    ("int *p; char *q; main() { p - q; }", 13, 1),
    ("int *p; main() { p + 1; 1 + p; return p - p; }", 0, 0),
    ("int a[3]; main() { return a + 2 - a; }", 0, 0),
    ("int *p; main() { p < 1; }", 14, 1),
    ("int f(); main() { f < f; }", 14, 1),
    ("int *p; int f(); main() { f == f; return p != 0; }", 0, 0),
    ("int a[3]; main() { return &a[1] <= a || 'a' > 3; }", 0, 0),
    ("main() { if ((void) 1) ; }", 15, 1),
    ("main() { for (; (void) 1; ) ; }", 15, 1),
    (
        "int *p; main() { while (p) p = 0; do ; while (!p && 1); }",
        0,
        0,
    ),
    ("int f(); main() { if (f) ; return !f || \"a\"; }", 0, 0),
    ("int *p; main() { 1 ? p : 1; }", 16, 1),
    ("main() { 1 ? (void) 1 : 1; }", 16, 1),
    (
        "int *p; main() { 1 ? p : 0; 1 ? (void) 1 : (void) p; }",
        0,
        0,
    ),
    ("int f(); main() { return 1 ? 'a' : f ? 2 : 3; }", 0, 0),
    ("main() { *1; }", 17, 1),
    ("main() { &1; }", 17, 1),
    ("main() { int a; *&a = 1; }", 0, 0),
    ("main() { (*&main)(); }", 0, 0),
];

#[test]
#[tactic(auto)]
fn operators(rt: HostRuntime) -> Result<(), Fail> {
    assert_eq!(rt; first_other(rt.alloc(), &OPERATORS), None);
    Ok(())
}

const PLACES: [(&str, u8, u32); 22] = [
    ("main() { int a[2]; 1[a]; }", 18, 1),
    ("main() { 1[2]; }", 18, 1),
    ("int a[2][3]; main() { return a[1][2]; }", 0, 0),
    ("int *p; main() { return p[-1]; }", 0, 0),
    ("struct s { int m; } v; main() { v.n; }", 19, 1),
    ("int i; main() { i.m; }", 19, 1),
    (
        "struct s { int m; } v; main() { return v.m + (&v)->m; }",
        0,
        0,
    ),
    ("struct s { struct s *n; } v; main() { v.n->n = &v; }", 0, 0),
    ("int i; main() { i(); }", 20, 1),
    ("void f(); main() { f(f()); }", 20, 1),
    ("int (*g)(); main() { (*g)(1); g(2, \"a\"); }", 0, 0),
    ("void f(); main() { f(); (&f)(1, f); }", 0, 0),
    ("main() { 1 = 2; }", 21, 1),
    ("int a[2]; main() { a = 0; }", 21, 1),
    ("enum e { A } x; main() { x++; }", 21, 1),
    (
        "struct s { int m; } v, w; main() { v = w; main()++; }",
        21,
        1,
    ),
    (
        "int *p; struct s { int m; } v, w; main() { v = w; p += 1; p++; *p |= 1; }",
        0,
        0,
    ),
    (
        "char *t; main() { int i; t = 0; t = \"a\"; --*t; i = *t = i; }",
        0,
        0,
    ),
    ("int *p; main() { (char *) p; }", 22, 1),
    ("main() { (int *) 1; }", 22, 1),
    (
        "int *p; main() { (char) 300; (int *) 0; (int *) p; (void) \"a\"; }",
        0,
        0,
    ),
    (
        "enum e { A } x; main() { return (enum e) 1 + (long) x; }",
        0,
        0,
    ),
];

#[test]
#[tactic(auto)]
fn places(rt: HostRuntime) -> Result<(), Fail> {
    assert_eq!(rt; first_other(rt.alloc(), &PLACES), None);
    Ok(())
}

const STATEMENTS: [(&str, u8, u32); 12] = [
    ("int *f() {\nreturn 1;\n}", 23, 2),
    ("void f() { return 1; }", 23, 1),
    ("void f() { return; } g() { return; }", 0, 0),
    ("char *f() { return 0; } g() { return 'a'; }", 0, 0),
    ("main() {\nbreak; }", 24, 2),
    ("main() { switch (1) { continue; } }", 24, 1),
    ("main() { switch (1) { case 1: case 1: ; } }", 24, 1),
    ("main() { switch (1) { default: default: ; } }", 24, 1),
    ("main() { switch (main) { } }", 24, 1),
    (
        "main() { while (1) { switch (2) { continue; } break; } }",
        0,
        0,
    ),
    (
        "main() { switch ('a') { case 255: case -1: ; default: break; } }",
        0,
        0,
    ),
    (
        "main() { for (;;) { do break; while (1); continue; } }",
        0,
        0,
    ),
];

#[test]
#[tactic(auto)]
fn statements(rt: HostRuntime) -> Result<(), Fail> {
    assert_eq!(rt; first_other(rt.alloc(), &STATEMENTS), None);
    Ok(())
}

/// Adds so many names, each behind a front and before a back.
#[tactic(auto)]
fn add_names(text: &mut Vec<u8>, front: &str, count: u32, back: &str) -> Result<(), AllocError> {
    let alloc = *text.allocator();
    for number in 0..count {
        let part = format!(in alloc; "{front}{number}{back}")?;
        text.extend_from_slice(part.as_bytes())?;
    }
    Ok(())
}

/// 6,000 objects and a function that uses each of them.
#[tactic(auto)]
fn many_objects(alloc: Global) -> Result<Vec<u8>, AllocError> {
    let mut text = Vec::new(alloc);
    add_names(&mut text, "int x", 6_000, "; ")?;
    text.extend_from_slice(b"main() { ")?;
    add_names(&mut text, "x", 6_000, " = 1; ")?;
    text.extend_from_slice(b"}")?;
    Ok(text)
}

/// A function of 10,000 parameters, each of them declared.
#[tactic(auto)]
fn many_parameters(alloc: Global) -> Result<Vec<u8>, AllocError> {
    let mut text = Vec::new(alloc);
    text.extend_from_slice(b"f(z")?;
    add_names(&mut text, ", x", 10_000, "")?;
    text.extend_from_slice(b") int z")?;
    add_names(&mut text, ", x", 10_000, "")?;
    text.extend_from_slice(b"; { return z; }")?;
    Ok(text)
}

/// What is told of a text, if there was memory for it.
#[tactic(auto)]
fn told_of(alloc: Global, text: Result<Vec<u8>, AllocError>) -> (u8, u32) {
    match text {
        Ok(text) => told(alloc, &text),
        Err(_) => (255, 0),
    }
}

#[test]
#[tactic(auto)]
fn many_names_are_known(rt: HostRuntime) -> Result<(), Fail> {
    let alloc = rt.alloc();
    assert_eq!(rt; told_of(alloc, many_objects(alloc)), (0, 0));
    assert_eq!(rt; told_of(alloc, many_parameters(alloc)), (0, 0));
    Ok(())
}
