// The words and the marks of the language, by their places in its lists.
ghost use Rattle.std.specs.Prelude.{◌≡◌, ◌≤◌, map, length};
ghost use Rattle.std.specs.Option.{option_map};
ghost use Rattle.c_lex.specs.Pieces.{word_from};
ghost use Rattle.c_lex.specs.Tokens as t;
ghost use Rattle.c_lex.specs.Reading as r;

static WORDS: [&[u8]; 30] = [
    b"auto",
    b"break",
    b"case",
    b"char",
    b"continue",
    b"default",
    b"do",
    b"else",
    b"enum",
    b"extern",
    b"for",
    b"if",
    b"int",
    b"long",
    b"register",
    b"return",
    b"short",
    b"sizeof",
    b"static",
    b"struct",
    b"switch",
    b"typedef",
    b"unsigned",
    b"void",
    b"while",
    b"asm",
    b"double",
    b"float",
    b"goto",
    b"union",
];

static MARKS: [&[u8]; 45] = [
    b"<<=", b">>=", b"++", b"--", b"->", b"<<", b">>", b"<=", b">=", b"==", b"!=", b"&&", b"||",
    b"+=", b"-=", b"*=", b"/=", b"%=", b"&=", b"|=", b"^=", b"(", b")", b"[", b"]", b"{", b"}",
    b".", b",", b";", b":", b"?", b"=", b"+", b"-", b"*", b"/", b"%", b"&", b"|", b"^", b"~", b"!",
    b"<", b">",
];

/// The place of the name in the list.
fn place_in(list: &[&[u8]], name: &[u8]) -> Option<u8>
    requires { length list.now ≤ 255 }
    ensures { result ≡ word_from 0 (map (λ w. w.now) list.now) name.now }
{
    let mut place = 0;
    for word in list {
        if *word == name {
            return Some(place);
        }
        place += 1;
    }
    None
}

/// The place in the list of the first that the bytes begin with, and what follows it.
fn first_of<'a>(list: &[&[u8]], bytes: &'a [u8]) -> Option<(u8, &'a [u8])>
    requires { length list.now ≤ 255 }
    ensures { option_map (λ x. (x.0, x.1.now)) result ≡ r.mark_from 0 (map (λ m. m.now) list.now) bytes.now }
{
    let mut place = 0;
    for mark in list {
        if bytes.starts_with(*mark) {
            return Some((place, &bytes[mark.len()..]));
        }
        place += 1;
    }
    None
}

/// The place of the name in the list of words, if it is a word.
pub fn word(name: &[u8]) -> Option<u8>
    ensures { result ≡ word_from 0 t.words name.now }
{
    place_in(&WORDS, name)
}

/// The place in the list of marks of the first that the bytes begin with, and what follows it.
pub fn mark(bytes: &[u8]) -> Option<(u8, &[u8])>
    ensures { option_map (λ x. (x.0, x.1.now)) result ≡ r.mark_from 0 t.marks bytes.now }
{
    first_of(&MARKS, bytes)
}
