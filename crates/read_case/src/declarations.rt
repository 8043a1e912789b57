use c_decl::{Head, declared_name, declares_function, external, local};
use c_expr::{ParseErr, Typedefs};
use c_lex::{Tokens, lex};
use c_tree::{Declr, Ext, LocalDecl, TypeSpec, Types};
use c_type::Kind;
use num_le::Name;
use std::alloc::{AllocError, Global};
use std::test::Fail;

/// The tokens of a text that is no longer than a file may be.
fn tokens(alloc: Global, text: &[u8]) -> Result<Tokens, ParseErr> {
    if text.len() > 262144 {
        return Err(ParseErr::Memory);
    }
    match lex(alloc, text) {
        Ok(tokens) => Ok(tokens),
        Err(_) => Err(ParseErr::Memory),
    }
}

/// What stands outside of blocks, where the text is a declaration, or a function up to its `{`.
fn read(alloc: Global, text: &[u8], defs: &mut Typedefs) -> Result<Head, ParseErr> {
    let tokens = tokens(alloc, text)?;
    let (head, after) = external(alloc, &tokens, 0, defs)?;
    let expected = match &head {
        Head::Whole(_) => tokens.list.len(),
        Head::Func(_) => tokens.list.len().saturating_sub(1),
    };
    if after != expected {
        return Err(ParseErr::TooDeep(0));
    }
    Ok(head)
}

/// The declaration in a block that a whole text is.
fn read_local(alloc: Global, text: &[u8], defs: &Typedefs) -> Result<LocalDecl, ParseErr> {
    let tokens = tokens(alloc, text)?;
    let (decl, after) = local(alloc, &tokens, 0, defs)?;
    if after != tokens.list.len() {
        return Err(ParseErr::TooDeep(0));
    }
    Ok(decl)
}

/// The typedef name `word`.
fn word(alloc: Global) -> Result<Typedefs, AllocError> {
    let mut defs = Typedefs::new(alloc);
    defs.add(Name::of(alloc, b"word")?)?;
    Ok(defs)
}

fn first_declr(head: &Head) -> Option<&Declr> {
    match head {
        Head::Whole(Ext::Object(_, _, items)) => Some(&items.first()?.declr),
        Head::Whole(Ext::Typedef(_, _, declrs)) => declrs.first(),
        Head::Whole(_) => None,
        Head::Func(head) => Some(&head.declr),
    }
}

/// A declarator from its name outwards.
fn spell_out(declr: &Declr, out: &mut Vec<u8>) -> Result<(), AllocError> {
    match declr {
        Declr::Name(_, name) => out.extend_from_slice(name.as_slice())?,
        Declr::Pointer(_, inner) => {
            spell_out(inner, out)?;
            out.push(b'*')?;
        }
        Declr::Array(_, inner, dimension) => {
            spell_out(inner, out)?;
            let suffix: &[u8] = if dimension.is_some() { b"[n]" } else { b"[]" };
            out.extend_from_slice(suffix)?;
        }
        Declr::Function(_, inner, names) => {
            spell_out(inner, out)?;
            out.push(b'(')?;
            for name in names {
                out.extend_from_slice(name.as_slice())?;
            }
            out.push(b')')?;
        }
    }
    Ok(())
}

/// The kind of integer that is declared.
fn kind(head: &Head) -> Option<Kind> {
    let types = match head {
        Head::Whole(Ext::Object(_, specs, _)) => specs.types.as_ref()?,
        Head::Whole(Ext::Typedef(_, types, _)) => types.as_ref()?,
        Head::Whole(_) => return None,
        Head::Func(head) => head.specs.as_ref()?.types.as_ref()?,
    };
    match types {
        Types::Spec(TypeSpec::Num(kind)) => Some(*kind),
        _ => None,
    }
}

static DECLARATORS: [(&[u8], &[u8]); 11] = [
    (b"int x;", b"x"),
    (b"int ((x));", b"x"),
    (b"int **x;", b"x**"),
    (b"int (*f[3])();", b"f[n]*()"),
    (b"int *(*f)();", b"f*()*"),
    (b"char a[][2];", b"a[][n]"),
    (b"int (*p)[3];", b"p*[n]"),
    (b"typedef int (*word_f)();", b"word_f*()"),
    (b"main() {", b"main()"),
    (b"int (*f(a, b))() int a; {", b"f(ab)*()"),
    (b"struct s *(f)(a) {", b"f(a)*"),
];

#[test]
fn declarators_are_read_from_the_name_outwards(rt: HostRuntime) -> Result<(), Fail> {
    let alloc = rt.alloc();
    for (text, want) in &DECLARATORS {
        let head = read(alloc, *text, &mut Typedefs::new(alloc))?;
        let mut out = Vec::new(alloc);
        if let Some(declr) = first_declr(&head) {
            spell_out(declr, &mut out)?;
        }
        assert_eq!(rt; out.as_slice(), *want);
    }
    Ok(())
}

static KINDS: [(&[u8], Kind); 18] = [
    (b"char x;", Kind::Char),
    (b"char static unsigned x;", Kind::UChar),
    (b"short x;", Kind::Short),
    (b"int short x;", Kind::Short),
    (b"short unsigned x;", Kind::UShort),
    (b"int unsigned short x;", Kind::UShort),
    (b"long x;", Kind::Long),
    (b"int extern long x;", Kind::Long),
    (b"unsigned long x;", Kind::ULong),
    (b"long int unsigned x;", Kind::ULong),
    (b"int x;", Kind::Int),
    (b"unsigned x;", Kind::UInt),
    (b"int unsigned x;", Kind::UInt),
    (b"typedef int x;", Kind::Int),
    (b"long typedef x;", Kind::Long),
    (b"unsigned char f() {", Kind::UChar),
    (b"int x, *y;", Kind::Int),
    (b"long x = 1;", Kind::Long),
];

#[test]
fn words_of_a_type_stand_in_any_order(rt: HostRuntime) -> Result<(), Fail> {
    let alloc = rt.alloc();
    for (text, want) in &KINDS {
        let head = read(alloc, *text, &mut Typedefs::new(alloc))?;
        assert!(rt; kind(&head) == Some(*want));
    }
    Ok(())
}

static OUTSIDE: [&[u8]; 32] = [
    b"static x;",
    b"int extern x, y;",
    b"void f(), *g();",
    b"word x;",
    b"struct word x;",
    b"struct word { int a; } y;",
    b"enum word { red };",
    b"struct s;",
    b"enum color c;",
    b"struct s { int a, *b; char c[]; };",
    b"struct { int a; } static x, *y;",
    b"struct s { struct t { int a; } b; enum { c, d = 2 } e; };",
    b"enum color { red, green = 1 + 1, blue };",
    b"typedef x;",
    b"typedef struct s { int a; } other;",
    b"word typedef other;",
    b"int a[] = { 1, 2 };",
    b"int a[] = { 1, 2, };",
    b"int a = 1, b = { 2 }, c;",
    b"struct s x = { { 1, }, { 2 }, };",
    b"int x = (1, 2);",
    b"int x = a ? b, c : d;",
    b"int a[sizeof(word)];",
    b"main() {",
    b"f(a, b) {",
    b"f(a, b) int a; register char *b; {",
    b"f(a) word a; {",
    b"f(a) struct s { int b; } *a; {",
    b"static int f(a) {",
    b"unsigned *f() {",
    b"int (f)(a) {",
    b"struct s { int a; } f() {",
];

static NOT_OUTSIDE: [&[u8]; 52] = [
    b"",
    b";",
    b"x;",
    b"f();",
    b"int;",
    b"int x",
    b"int x y;",
    b"int x,;",
    b"int word;",
    b"word word;",
    b"word int x;",
    b"int other x;",
    b"auto int x;",
    b"register int x;",
    b"static extern int x;",
    b"static static int x;",
    b"int int x;",
    b"unsigned unsigned x;",
    b"long short x;",
    b"long long x;",
    b"char int x;",
    b"unsigned void f();",
    b"struct s int x;",
    b"struct s struct t x;",
    b"union u { int a; };",
    b"struct;",
    b"static struct s;",
    b"struct s { };",
    b"struct s { int a }",
    b"struct s { int; };",
    b"struct s { static int a; };",
    b"struct s { int f(a); };",
    b"enum { };",
    b"enum { red, };",
    b"enum { word };",
    b"typedef static int x;",
    b"typedef int x = 1;",
    b"typedef typedef int x;",
    b"typedef int word;",
    b"int a = ;",
    b"int a = { };",
    b"int a = { , };",
    b"int a = { 1,, };",
    b"int a = 1, 2;",
    b"int f(a);",
    b"int f(word) {",
    b"int f(a,) {",
    b"int (*f)(a) {",
    b"f(a) static int a; {",
    b"f(a) int a {",
    b"int x {",
    b"typedef int f() {",
];

#[test]
fn what_stands_outside_of_blocks(rt: HostRuntime) -> Result<(), Fail> {
    let alloc = rt.alloc();
    for text in &OUTSIDE {
        let head = read(alloc, *text, &mut word(alloc)?);
        assert!(rt; head.is_ok());
    }
    for text in &NOT_OUTSIDE {
        let head = read(alloc, *text, &mut word(alloc)?);
        assert!(rt; matches!(head, Err(ParseErr::NotC(_))));
    }
    Ok(())
}

static IN_BLOCKS: [&[u8]; 9] = [
    b"auto x;",
    b"int register x;",
    b"static unsigned x = 1, y;",
    b"extern int f();",
    b"word *x;",
    b"struct s x;",
    b"enum word c, d;",
    b"char a[] = { 'a', };",
    b"int (*f)();",
];

static NOT_IN_BLOCKS: [&[u8]; 10] = [
    b"x;",
    b"int;",
    b"struct s;",
    b"auto static x;",
    b"typedef int x;",
    b"struct s { int a; } x;",
    b"enum { a } x;",
    b"int f(a);",
    b"int word;",
    b"int x {",
];

#[test]
fn what_stands_in_blocks(rt: HostRuntime) -> Result<(), Fail> {
    let alloc = rt.alloc();
    let defs = word(alloc)?;
    for text in &IN_BLOCKS {
        assert!(rt; read_local(alloc, *text, &defs).is_ok());
    }
    for text in &NOT_IN_BLOCKS {
        assert!(rt; matches!(read_local(alloc, *text, &defs), Err(ParseErr::NotC(_))));
    }
    Ok(())
}

/// Whether `size` and `link` are declared from line 1 on as typedef names.
fn declares_typedefs(alloc: Global, defs: &mut Typedefs) -> bool {
    let head = read(alloc, b"typedef word size,\n(*link)();", defs);
    matches!(&head, Ok(Head::Whole(Ext::Typedef(1, _, _))))
}

/// Whether a declarator is a pointer whose star stands on a line.
fn is_pointer(declr: &Declr, line: u32) -> bool {
    match declr {
        Declr::Pointer(at, _) => *at == line,
        _ => false,
    }
}

/// Whether a declarator makes `x` an array of pointers, with its star on line 3.
fn is_array_of_pointers(declr: &Declr) -> bool {
    is_pointer(declr, 3) && declared_name(declr).is(b"x") && !declares_function(declr)
}

fn begins_with_pointers(head: &Head) -> bool {
    match first_declr(head) {
        Some(declr) => is_array_of_pointers(declr),
        None => false,
    }
}

/// Whether an array `x` of pointers is declared.
fn declares_pointers(alloc: Global, defs: &mut Typedefs) -> bool {
    match read(alloc, b"static\nsize\n*x[2];", defs) {
        Ok(head) => begins_with_pointers(&head),
        Err(_) => false,
    }
}

/// Whether a typedef name in place of a declarator is refused, on line 2.
fn refuses_declarator(alloc: Global, defs: &mut Typedefs) -> bool {
    let head = read(alloc, b"int\nsize;", defs);
    matches!(&head, Err(ParseErr::NotC(2)))
}

#[test]
fn typedef_names_and_lines(rt: HostRuntime) -> Result<(), Fail> {
    let alloc = rt.alloc();
    let mut defs = word(alloc)?;
    assert!(rt; declares_typedefs(alloc, &mut defs));
    for name in [b"word", b"size", b"link"] {
        assert!(rt; defs.has(name));
    }
    assert!(rt; declares_pointers(alloc, &mut defs));
    assert!(rt; !defs.has(b"x"));
    assert!(rt; refuses_declarator(alloc, &mut defs));
    Ok(())
}

/// A text, another so many times, and a last one.
fn repeated(
    alloc: Global,
    first: &[u8],
    text: &[u8],
    times: u32,
    last: &[u8],
) -> Result<Vec<u8>, AllocError> {
    let mut whole = first.to_vec(alloc)?;
    for _ in 0..times {
        whole.extend_from_slice(text)?;
    }
    whole.extend_from_slice(last)?;
    Ok(whole)
}

/// Whether a text is read, where no typedef name is known.
fn is_read(alloc: Global, text: &[u8]) -> bool {
    let mut defs = Typedefs::new(alloc);
    read(alloc, text, &mut defs).is_ok()
}

/// Whether a text is refused, where no typedef name is known.
fn is_refused(alloc: Global, text: &[u8]) -> bool {
    let mut defs = Typedefs::new(alloc);
    let head = read(alloc, text, &mut defs);
    matches!(&head, Err(ParseErr::NotC(_)))
}

/// The number of objects that a text declares.
fn objects(alloc: Global, text: &[u8]) -> Option<usize> {
    let mut defs = Typedefs::new(alloc);
    let head = read(alloc, text, &mut defs).ok()?;
    match &head {
        Head::Whole(Ext::Object(_, _, items)) => Some(items.len()),
        _ => None,
    }
}

/// A first text, another so many times, and a last one; and whether these are read.
static REPEATED: [(&[u8], &[u8], u32, &[u8], bool); 5] = [
    (b"int ", b"*", 197, b"x;", true),
    (b"int ", b"*", 198, b"x;", false),
    (b"int ", b"*", 100000, b"x;", false),
    (b"", b"int ", 60000, b"x;", false),
    (b"int a[] = { 1", b",1", 130000, b", };", true),
];

#[test]
fn as_deep_and_as_long_as_may_be(rt: HostRuntime) -> Result<(), Fail> {
    let alloc = rt.alloc();
    for (first, text, times, last, wanted) in &REPEATED {
        let whole = repeated(alloc, *first, *text, *times, *last)?;
        let is_answered = if *wanted {
            is_read(alloc, &whole)
        } else {
            is_refused(alloc, &whole)
        };
        assert!(rt; is_answered);
    }
    Ok(())
}

#[test]
fn as_many_as_may_be(rt: HostRuntime) -> Result<(), Fail> {
    let alloc = rt.alloc();
    let longest = repeated(alloc, b"int a", b",a", 131000, b";")?;
    assert_eq!(rt; objects(alloc, &longest), Some(131001));
    Ok(())
}
