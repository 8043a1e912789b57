use c_expr::ParseErr;
use c_lex::lex;
use c_parse::parse;
use c_tree::{Block, Expr, Ext, Stmt, SwItem, Unit};
use std::alloc::{AllocError, Global};
use std::process::Abort;
use std::test::Fail;

/// The unit of a text of tokens.
fn read(alloc: Global, text: &[u8]) -> Result<Unit, ParseErr> {
    if text.len() > 1_000_000 {
        return Err(ParseErr::Memory);
    }
    let Ok(tokens) = lex(alloc, text) else {
        return Err(ParseErr::Memory);
    };
    parse(alloc, &tokens)
}

/// What the parser answers of a text.
#[derive(Clone, Copy, Debug, PartialEq)]
enum Seen {
    Unit,
    NotC(u32),
    TooDeep(u32),
    Memory,
}

fn answer(alloc: Global, text: &[u8]) -> Seen {
    match read(alloc, text) {
        Ok(_) => Seen::Unit,
        Err(ParseErr::NotC(line)) => Seen::NotC(line),
        Err(ParseErr::TooDeep(line)) => Seen::TooDeep(line),
        Err(ParseErr::Memory) => Seen::Memory,
    }
}

fn check(rt: &impl Abort, alloc: Global, text: &[u8], want: Seen) {
    assert_eq!(rt; answer(alloc, text), want);
}

// ---- a text of the statements, in which an expression is its line

fn show_expr(e: &Option<Expr>) -> &'static str {
    match e {
        Some(_) => "e",
        None => "-",
    }
}

#[cycle(show)]
fn show_stmts(list: &[Stmt], out: &mut String) -> Result<(), AllocError> {
    for stmt in list {
        show_stmt(stmt, out)?;
    }
    Ok(())
}

#[cycle(show)]
fn show_items(list: &[SwItem], out: &mut String) -> Result<(), AllocError> {
    for part in list {
        match part {
            SwItem::Case(line, _) => write!(out, "case{line} ")?,
            SwItem::Default(line) => write!(out, "default{line} ")?,
            SwItem::Stmt(stmt) => show_stmt(stmt, out)?,
        }
    }
    Ok(())
}

#[cycle(show)]
fn show_block(block: &Block, out: &mut String) -> Result<(), AllocError> {
    write!(out, "{{{} {} ", block.line, block.decls.len())?;
    show_stmts(&block.stmts, out)?;
    write!(out, "}}{} ", block.close_line)
}

#[cycle(show)]
fn show_stmt(stmt: &Stmt, out: &mut String) -> Result<(), AllocError> {
    match stmt {
        Stmt::Expr(line, _) => write!(out, "e{line} "),
        Stmt::Empty(line) => write!(out, ";{line} "),
        Stmt::If(line, _, s) => {
            write!(out, "if{line} ")?;
            show_stmt(s, out)
        }
        Stmt::IfElse(line, _, s, r) => {
            write!(out, "ifelse{line} ")?;
            show_stmt(s, out)?;
            show_stmt(r, out)
        }
        Stmt::While(line, _, s) => {
            write!(out, "while{line} ")?;
            show_stmt(s, out)
        }
        Stmt::Do(line, s, test, _) => {
            write!(out, "do{line} ")?;
            show_stmt(s, out)?;
            write!(out, "while{test} ")
        }
        Stmt::For(line, a, b, c, s) => {
            write!(
                out,
                "for{line}{}{}{} ",
                show_expr(a),
                show_expr(b),
                show_expr(c)
            )?;
            show_stmt(s, out)
        }
        Stmt::Switch(line, _, list) => {
            write!(out, "switch{line} ( ")?;
            show_items(list, out)?;
            write!(out, ") ")
        }
        Stmt::Break(line) => write!(out, "break{line} "),
        Stmt::Continue(line) => write!(out, "continue{line} "),
        Stmt::Return(line, e) => write!(out, "return{line}{} ", show_expr(e)),
        Stmt::Block(block) => show_block(block, out),
    }
}

fn show(alloc: Global, unit: &Unit) -> Result<String, AllocError> {
    let mut out = String::new(alloc);
    for ext in &unit.exts {
        match ext {
            Ext::Typedef(line, _, declrs) => write!(out, "typedef{line} {} ", declrs.len())?,
            Ext::TagOnly(line, _) => write!(out, "tag{line} ")?,
            Ext::Object(line, _, items) => write!(out, "object{line} {} ", items.len())?,
            Ext::Func(line, _, _, pars, block) => {
                write!(out, "func{line} {} ", pars.len())?;
                show_block(block, &mut out)?;
            }
        }
    }
    Ok(out)
}

fn check_shown(rt: &impl Abort, alloc: Global, text: &[u8], want: &str) -> Result<(), Fail> {
    let unit = read(alloc, text)?;
    assert_eq!(rt; show(alloc, &unit)?.as_str(), want);
    Ok(())
}

#[test]
fn statements_stand_with_their_lines(rt: HostRuntime) -> Result<(), Fail> {
    let alloc = rt.alloc();
    check_shown(
        &rt,
        alloc,
        b"main() { return 0; }\n",
        "func1 0 {1 0 return1e }1 ",
    )?;
    check_shown(
        &rt,
        alloc,
        b"typedef int t;\nint g, h = 3;\nstruct s { int a; };\nf(a, b)\nchar a;\nint b;\n{\nt x;\nint y;\nx = 1;\n;\n}\n",
        "typedef1 1 object2 2 tag3 func4 2 {7 2 e10 ;11 }12 ",
    )?;
    check_shown(
        &rt,
        alloc,
        b"f()\n{\nwhile (x)\nx--;\ndo\n;\nwhile\n(x);\nfor (;;)\nbreak;\nfor (i = 0; i; i++)\n{\ncontinue;\n}\nreturn;\n}\n",
        "func1 0 {2 0 while3 e4 do5 ;6 while7 for9--- break10 for11eee {12 0 continue13 }14 return15- }16 ",
    )?;
    check_shown(
        &rt,
        alloc,
        b"f()\n{\nswitch (x) {\ncase 1:\ncase 2: y;\ndefault:\nbreak;\n}\n}\n",
        "func1 0 {2 0 switch3 ( case4 case5 e5 default6 break7 ) }9 ",
    )?;
    Ok(())
}

#[test]
fn an_else_is_that_of_the_nearest_if(rt: HostRuntime) -> Result<(), Fail> {
    let alloc = rt.alloc();
    check_shown(
        &rt,
        alloc,
        b"f() { if (a) if (b) x; else y; }",
        "func1 0 {1 0 if1 ifelse1 e1 e1 }1 ",
    )?;
    check_shown(
        &rt,
        alloc,
        b"f() { if (a) { if (b) x; } else y; }",
        "func1 0 {1 0 ifelse1 {1 0 if1 e1 }1 e1 }1 ",
    )?;
    check_shown(
        &rt,
        alloc,
        b"f() { if (a) while (b) if (c) x; else y; else z; }",
        "func1 0 {1 0 ifelse1 while1 ifelse1 e1 e1 e1 }1 ",
    )?;
    check_shown(
        &rt,
        alloc,
        b"f() { if (a) x; else if (b) y; else z; }",
        "func1 0 {1 0 ifelse1 e1 ifelse1 e1 e1 }1 ",
    )?;
    Ok(())
}

#[test]
fn units_are_read(rt: HostRuntime) {
    let texts: [&[u8]; 11] = [
        b"",
        b"int x;",
        b"extern int f(), g();",
        b"typedef struct { int a; } t, *u; t x; u y;",
        b"enum e { A, B = 2 };",
        b"struct s;",
        b"f(a) char *a; { return *a; }",
        b"typedef int t; f() { t t1; t1 = (t) 1; }",
        b"typedef int t; struct t { int t1; } x; f() { x.t1; }",
        b"char s[] = \"ab\"; int a[2] = { 1, 2, };",
        b"f() { if (a) ; else ; switch (a) { } { } }",
    ];
    for text in texts {
        check(&rt, rt.alloc(), text, Seen::Unit);
    }
}

#[test]
fn other_texts_are_refused(rt: HostRuntime) {
    let texts: [&[u8]; 25] = [
        b";",
        b"x;",
        b"int x",
        b"int x,;",
        b"int;",
        b"f() { x }",
        b"f() { x; int y; }",
        b"f() { case 1: ; }",
        b"f() { default: ; }",
        b"f() { switch (x) case 1: ; }",
        b"f() { switch (x) { int y; } }",
        b"f() { switch (x) { case 1; } }",
        b"f() { else x; }",
        b"f() { if (x) y; else z; else w; }",
        b"f() { if x y; }",
        b"f() { do x; while (y) }",
        b"f() { for (;) x; }",
        b"f() { for (;;;) x; }",
        b"f() { break }",
        b"f() { goto x; }",
        b"f() { x: y; }",
        b"f() { { x; }",
        b"f() { } }",
        b"typedef int t; f() { t = 1; }",
        b"f() { t x; } typedef int t;",
    ];
    for text in texts {
        check(&rt, rt.alloc(), text, Seen::NotC(1));
    }
}

#[test]
fn a_refusal_has_its_line(rt: HostRuntime) {
    let alloc = rt.alloc();
    check(&rt, alloc, b"main()\n{\nx\n}\n", Seen::NotC(4));
    check(&rt, alloc, b"int x;\nint y\nz;\n", Seen::NotC(3));
    check(
        &rt,
        alloc,
        b"f()\n{\nif (a)\nb;\nelse\nelse\nc;\n}\n",
        Seen::NotC(6),
    );
}

/// A piece so many times.
fn times(alloc: Global, piece: &[u8], count: usize) -> Result<Vec<u8>, AllocError> {
    let mut text = Vec::new(alloc);
    for _ in 0..count {
        text.extend_from_slice(piece)?;
    }
    Ok(text)
}

fn joined(alloc: Global, parts: &[&[u8]]) -> Result<Vec<u8>, AllocError> {
    let mut text = Vec::new(alloc);
    for part in parts {
        text.extend_from_slice(part)?;
    }
    Ok(text)
}

#[test]
fn brackets_are_open_200_deep(rt: HostRuntime) -> Result<(), Fail> {
    let alloc = rt.alloc();
    let (open, close) = (times(alloc, b"(", 199)?, times(alloc, b")", 199)?);
    let text = joined(alloc, &[b"f() {\n", &open, b"x", &close, b"; }"])?;
    check(&rt, alloc, &text, Seen::Unit);
    let text = joined(alloc, &[b"f() {\n", &open, b"(x)", &close, b"; }"])?;
    check(&rt, alloc, &text, Seen::TooDeep(2));
    let text = joined(alloc, &[b"f() {\n", &open, b"[{\n", b"x"])?;
    check(&rt, alloc, &text, Seen::TooDeep(2));
    Ok(())
}

#[test]
fn a_unit_is_200_deep(rt: HostRuntime) -> Result<(), Fail> {
    let alloc = rt.alloc();
    for (count, want) in [(195, Seen::Unit), (196, Seen::NotC(1))] {
        let chain = times(alloc, b"if (x) ", count)?;
        let text = joined(alloc, &[b"f() { ", &chain, b"x; }"])?;
        check(&rt, alloc, &text, want);
        let chain = times(alloc, b"if (x) ; else ", count)?;
        let text = joined(alloc, &[b"f() { ", &chain, b"x; }"])?;
        check(&rt, alloc, &text, want);
    }
    Ok(())
}

/// The body of a function that begins with so many of the piece as 262,144 bytes hold.
fn check_long(
    rt: &impl Abort,
    alloc: Global,
    piece: &[u8],
    count: usize,
    want: Seen,
) -> Result<(), AllocError> {
    let long = times(alloc, piece, count)?;
    check(
        rt,
        alloc,
        &joined(alloc, &[b"f() { ", &long, b"x; }"])?,
        want,
    );
    Ok(())
}

#[test]
fn long_rows_of_brackets_are_refused(rt: HostRuntime) -> Result<(), Fail> {
    let alloc = rt.alloc();
    check_long(&rt, alloc, b"(", 262_144, Seen::TooDeep(1))?;
    check_long(&rt, alloc, b"{", 262_144, Seen::TooDeep(1))?;
    check_long(&rt, alloc, b"[", 262_144, Seen::TooDeep(1))?;
    Ok(())
}

#[test]
fn long_rows_of_operators_are_refused(rt: HostRuntime) -> Result<(), Fail> {
    let alloc = rt.alloc();
    check_long(&rt, alloc, b"-", 262_144, Seen::NotC(1))?;
    check_long(&rt, alloc, b"*", 262_144, Seen::NotC(1))?;
    check_long(&rt, alloc, b"a+", 131_072, Seen::NotC(1))?;
    Ok(())
}

#[test]
fn long_chains_of_statements_are_refused(rt: HostRuntime) -> Result<(), Fail> {
    let alloc = rt.alloc();
    check_long(&rt, alloc, b"if(x)", 52_428, Seen::NotC(1))?;
    check_long(&rt, alloc, b"if(x);else ", 23_831, Seen::NotC(1))?;
    Ok(())
}

/// A list of so many of the piece.
fn check_list(
    rt: &impl Abort,
    alloc: Global,
    front: &[u8],
    piece: &[u8],
    count: usize,
    back: &[u8],
) -> Result<(), AllocError> {
    let long = times(alloc, piece, count)?;
    check(
        rt,
        alloc,
        &joined(alloc, &[front, &long, back])?,
        Seen::Unit,
    );
    Ok(())
}

#[test]
fn long_lists_are_read(rt: HostRuntime) -> Result<(), Fail> {
    let alloc = rt.alloc();
    check_list(&rt, alloc, b"int ", b"a,", 131_000, b"a;")?;
    check_list(&rt, alloc, b"", b"int a;", 5_000, b"")?;
    check_list(&rt, alloc, b"int a[] = { ", b"1,", 16_000, b"};")?;
    check_list(&rt, alloc, b"f() { ", b"x;", 16_000, b"}")?;
    check_list(&rt, alloc, b"f() { int ", b"a,", 16_000, b"a; }")?;
    check_list(&rt, alloc, b"f() { g(", b"1,", 16_000, b"1); }")?;
    Ok(())
}

#[test]
fn many_typedef_names_are_read(rt: HostRuntime) -> Result<(), Fail> {
    let alloc = rt.alloc();
    let mut text = Vec::new(alloc);
    for k in 0..12_000u32 {
        text.extend_from_slice(format!(in alloc; "typedef int t{k};\n")?.as_bytes())?;
    }
    text.extend_from_slice(b"t0 a; t11999 b;")?;
    check(&rt, alloc, &text, Seen::Unit);
    Ok(())
}
