use c_lex::{LexErr, Tok, Token, Tokens, lex};
use std::alloc::Global;
use std::process::Abort;
use std::test::Fail;

/// The tokens of a short text.
fn read(alloc: Global, text: &[u8]) -> Result<Tokens, LexErr> {
    if text.len() > 100 {
        return Err(LexErr::Memory);
    }
    lex(alloc, text)
}

/// A token as its line, the kind's letter, and its number, place or length.
fn seen(token: &Token) -> (u32, u8, usize) {
    match &token.kind {
        Tok::Name(name) => (token.line, b'n', name.as_slice().len()),
        Tok::Int(value, long) => (token.line, if *long { b'l' } else { b'i' }, *value as usize),
        Tok::Chr(byte) => (token.line, b'c', *byte as usize),
        Tok::Text(bytes) => (token.line, b't', bytes.as_slice().len()),
        Tok::Word(place) => (token.line, b'w', *place as usize),
        Tok::Mark(place) => (token.line, b'm', *place as usize),
    }
}

fn check(rt: &impl Abort, tokens: &Tokens, want: &[(u32, u8, usize)]) {
    assert_eq!(rt; tokens.list.len(), want.len());
    for (token, wanted) in tokens.list.iter().zip(want) {
        assert_eq!(rt; seen(token), *wanted);
    }
}

#[test]
fn words_names_and_marks(rt: HostRuntime) -> Result<(), Fail> {
    let tokens = read(rt.alloc(), b"main() { return 0; }\n")?;
    let want = [
        (1, b'n', 4),
        (1, b'm', 21),
        (1, b'm', 22),
        (1, b'm', 25),
        (1, b'w', 15),
        (1, b'i', 0),
        (1, b'm', 29),
        (1, b'm', 26),
    ];
    check(&rt, &tokens, &want);
    let tokens = read(rt.alloc(), b"a+++b<<=c->_1")?;
    let want = [
        (1, b'n', 1),
        (1, b'm', 2),
        (1, b'm', 33),
        (1, b'n', 1),
        (1, b'm', 0),
        (1, b'n', 1),
        (1, b'm', 4),
        (1, b'n', 2),
    ];
    check(&rt, &tokens, &want);
    Ok(())
}

#[test]
fn numbers(rt: HostRuntime) -> Result<(), Fail> {
    let tokens = read(rt.alloc(), b"0 017 0x1F 4294967295 10L 0l 12_a 0XaBl")?;
    let want = [
        (1, b'i', 0),
        (1, b'i', 15),
        (1, b'i', 31),
        (1, b'i', 4294967295),
        (1, b'l', 10),
        (1, b'l', 0),
        (1, b'i', 12),
        (1, b'n', 2),
        (1, b'l', 171),
    ];
    check(&rt, &tokens, &want);
    Ok(())
}

#[test]
fn characters_texts_and_comments(rt: HostRuntime) -> Result<(), Fail> {
    let tokens = read(
        rt.alloc(),
        b"'a' '\\n' '\\101' '\\'' '\\0' '\\8' '\"' '\\777'",
    )?;
    let want = [
        (1, b'c', 97),
        (1, b'c', 10),
        (1, b'c', 65),
        (1, b'c', 39),
        (1, b'c', 0),
        (1, b'c', 56),
        (1, b'c', 34),
        (1, b'c', 255),
    ];
    check(&rt, &tokens, &want);
    let tokens = read(
        rt.alloc(),
        b"/* a\n * b */ \"ab\\n\\1012\\\"\"\n\n/**/x/***/",
    )?;
    check(&rt, &tokens, &[(2, b't', 6), (4, b'n', 1)]);
    Ok(())
}

#[test]
fn bad_places(rt: HostRuntime) {
    let alloc = rt.alloc();
    assert!(rt; matches!(read(alloc, b"a\n#"), Err(LexErr::BadByte(2))));
    assert!(rt; matches!(read(alloc, b"08"), Err(LexErr::BadByte(1))));
    assert!(rt; matches!(read(alloc, b"0x"), Err(LexErr::BadByte(1))));
    assert!(rt; matches!(read(alloc, b"\n4294967296"), Err(LexErr::NumberTooLarge(2))));
    assert!(rt; matches!(read(alloc, b"x\n/*/"), Err(LexErr::OpenComment(2))));
    assert!(rt; matches!(read(alloc, b"''"), Err(LexErr::OpenText(1))));
    assert!(rt; matches!(read(alloc, b"'ab'"), Err(LexErr::OpenText(1))));
    assert!(rt; matches!(read(alloc, b"\"a\n\""), Err(LexErr::OpenText(1))));
}
