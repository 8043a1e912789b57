// Whole calls over memory.
use c_whole::JoinErr;
use num_le::Name;
use outside::{MemFiles, MemSink, MemSource};
use std::alloc::Global;
use std::process::Abort;
use std::test::Fail;
use top::{End, Refusal, Words, status, svr3};

// What a call is made of: its words, the files with their texts, the calls of the files that fail, and those of the output.
#[derive(Drop)]
struct Call<'a> {
    words: &'a Words,
    files: &'a [(&'a [u8], &'a [u8])],
    read_fails: &'a [u32],
    write_fails: &'a [u32],
}

fn files_of(alloc: Global, call: &Call<'_>) -> Result<MemFiles, Fail> {
    let mut list = Vec::new(alloc);
    for (name, text) in call.files {
        list.push((Name::of(alloc, name)?, text.to_vec(alloc)?))?;
    }
    Ok(MemFiles::new(alloc, list, call.read_fails.to_vec(alloc)?))
}

// The end of a call with these words over these files, whose line is compared, and the output's sink.
fn end_over(
    rt: &impl Abort,
    alloc: Global,
    words: &Words,
    mut files: MemFiles,
    mut out: MemSink,
    line: &[u8],
) -> Result<(End, MemSink), Fail> {
    let mut commands = MemSource::new(Vec::new(alloc), Vec::new(alloc));
    let mut err = MemSink::new(alloc, 100, Vec::new(alloc))?;
    let end = svr3(alloc, words, &mut files, &mut commands, &mut out, &mut err);
    assert_eq!(rt; err.bytes(), line);
    Ok((end, out))
}

// The end of a call, whose output and line are compared.
fn end_of(
    rt: &impl Abort,
    alloc: Global,
    call: &Call<'_>,
    output: &[u8],
    line: &[u8],
) -> Result<End, Fail> {
    let files = files_of(alloc, call)?;
    let out = MemSink::new(alloc, output.len(), call.write_fails.to_vec(alloc)?)?;
    let (end, out) = end_over(rt, alloc, call.words, files, out, line)?;
    assert!(rt; out.bytes() == output);
    Ok(end)
}

fn words_of(alloc: Global, list: &[&[u8]]) -> Result<Words, Fail> {
    let mut words = Words::new(alloc);
    for word in list {
        words.push(word)?;
    }
    Ok(words)
}

fn run_file(alloc: Global) -> Result<Words, Fail> {
    words_of(alloc, &[b"run".as_slice(), b"one.c".as_slice()])
}

// The status of a text without output.
fn status_of(rt: &impl Abort, alloc: Global, text: &[u8]) -> Result<u8, Fail> {
    let words = run_file(alloc)?;
    let call = Call {
        words: &words,
        files: &[(b"one.c".as_slice(), text)],
        read_fails: &[],
        write_fails: &[],
    };
    Ok(status(&end_of(rt, alloc, &call, b"", b"")?))
}

const COUNTDOWN: &[u8] =
    b"main() { int n; n = 3; while (n) { putchar(96 + n); n = n - 1; } return n; }";

#[test]
fn a_loop_writes_its_letters(rt: HostRuntime) -> Result<(), Fail> {
    let words = run_file(rt.alloc())?;
    let call = Call {
        words: &words,
        files: &[(b"one.c".as_slice(), COUNTDOWN)],
        read_fails: &[],
        write_fails: &[],
    };
    let end = end_of(&rt, rt.alloc(), &call, b"cba", b"")?;
    assert!(rt; matches!(end, End::Ran(0)));
    Ok(())
}

#[test]
fn the_value_of_main_is_the_status(rt: HostRuntime) -> Result<(), Fail> {
    let alloc = rt.alloc();
    assert_eq!(rt; status_of(&rt, alloc, b"main() { return 259; }")?, 3);
    assert_eq!(rt; status_of(&rt, alloc, b"main() { }")?, 0);
    assert_eq!(rt;
        status_of(&rt, alloc, b"main() { return 0x10 - 02 - 1; }")?,
        13
    );
    assert_eq!(rt;
        status_of(
            &rt,
            alloc,
            b"main() { int a, b; b = 5; a = b - (b + 1); return a; }"
        )?,
        255
    );
    assert_eq!(rt;
        status_of(&rt, alloc, b"main() { int a; { { a = 7; } } return (a); }")?,
        7
    );
    Ok(())
}

#[test]
fn a_loop_without_end_spends_its_budget(rt: HostRuntime) -> Result<(), Fail> {
    let alloc = rt.alloc();
    let list = [
        b"run".as_slice(),
        b"-n".as_slice(),
        b"1000".as_slice(),
        b"one.c".as_slice(),
    ];
    let words = words_of(alloc, &list)?;
    let call = Call {
        words: &words,
        files: &[(
            b"one.c".as_slice(),
            b"main() { int x; while (1) x = x; }".as_slice(),
        )],
        read_fails: &[],
        write_fails: &[],
    };
    let end = end_of(&rt, alloc, &call, b"", b"svr3: budget\n")?;
    assert!(rt; matches!(end, End::Budget));
    assert_eq!(rt; status(&end), 7);
    Ok(())
}

#[test]
fn a_million_bytes_are_written(rt: HostRuntime) -> Result<(), Fail> {
    let alloc = rt.alloc();
    let words = run_file(alloc)?;
    let output = vec![in alloc; b'.'; 1_000_000]?;
    let call = Call {
        words: &words,
        files: &[(
            b"one.c".as_slice(),
            b"main() { int n; n = 1000000; while (n) { putchar(46); n = n - 1; } return 9; }".as_slice(),
        )],
        read_fails: &[],
        write_fails: &[],
    };
    let end = end_of(&rt, alloc, &call, &output, b"")?;
    assert!(rt; matches!(end, End::Ran(9)));
    Ok(())
}

// Files of these texts, `a.c` and on, whose program is refused with this line.
fn is_refused_as(
    rt: &impl Abort,
    alloc: Global,
    files: &[(&[u8], &[u8])],
    line: &[u8],
) -> Result<End, Fail> {
    let mut words = words_of(alloc, &[b"run".as_slice()])?;
    for (name, _) in files {
        words.push(name)?;
    }
    let call = Call {
        words: &words,
        files,
        read_fails: &[],
        write_fails: &[],
    };
    let end = end_of(rt, alloc, &call, b"", line)?;
    assert_eq!(rt; status(&end), 4);
    Ok(end)
}

// A text that is refused with this line.
fn says(rt: &impl Abort, alloc: Global, text: &[u8], line: &[u8]) -> Result<End, Fail> {
    is_refused_as(rt, alloc, &[(b"one.c".as_slice(), text)], line)
}

// Two texts that are refused with this line.
fn both_say(
    rt: &impl Abort,
    alloc: Global,
    first: &[u8],
    second: &[u8],
    line: &[u8],
) -> Result<End, Fail> {
    let files = [(b"a.c".as_slice(), first), (b"b.c".as_slice(), second)];
    is_refused_as(rt, alloc, &files, line)
}

// A text that is a program, but none of the small form.
fn is_refused(rt: &impl Abort, alloc: Global, text: &[u8]) -> Result<(), Fail> {
    let end = says(rt, alloc, text, b"svr3: refused: unbuilt\n")?;
    assert!(rt; matches!(end, End::Refused(Refusal::Unbuilt)));
    Ok(())
}

#[test]
fn another_program_is_refused(rt: HostRuntime) -> Result<(), Fail> {
    let alloc = rt.alloc();
    is_refused(&rt, alloc, b"main() { int putchar; return 1; }")?;
    is_refused(&rt, alloc, b"main() { ; return 1; }")?;
    is_refused(&rt, alloc, b"main() { int x; x = 1 * 2; return x; }")?;
    is_refused(&rt, alloc, b"main() { return 2147483648; }")?;
    is_refused(&rt, alloc, b"main() { return 1l; }")?;
    is_refused(&rt, alloc, b"main() { { int x; } return 1; }")?;
    is_refused(&rt, alloc, b"main() { return; }")?;
    is_refused(&rt, alloc, b"int main() { return 1; }")?;
    is_refused(&rt, alloc, b"main() { return 7; } int x;")?;
    is_refused(&rt, alloc, b"main() { while (1) ; }")?;
    Ok(())
}

#[test]
fn a_program_of_two_files_is_refused(rt: HostRuntime) -> Result<(), Fail> {
    let line = b"svr3: refused: unbuilt\n";
    both_say(&rt, rt.alloc(), b"main() { return 7; }", b"f() { }", line)?;
    Ok(())
}

#[test]
fn a_text_that_is_no_c_is_refused(rt: HostRuntime) -> Result<(), Fail> {
    let alloc = rt.alloc();
    let line = b"svr3: refused: one.c:1: syntax\n";
    let end = says(&rt, alloc, b"main( { }", line)?;
    assert!(rt; matches!(end, End::Refused(Refusal::Syntax { file: 0, line: 1 })));
    says(&rt, alloc, b"main() { return 7; } /*/", line)?;
    let line = b"svr3: refused: one.c:3: syntax\n";
    says(&rt, alloc, b"main()\n{\n?\n}", line)?;
    says(
        &rt,
        alloc,
        b"main()\n{\nreturn 7\n}",
        b"svr3: refused: one.c:4: syntax\n",
    )?;
    Ok(())
}

#[test]
fn the_first_text_that_is_no_c_is_named(rt: HostRuntime) -> Result<(), Fail> {
    let alloc = rt.alloc();
    let bad = b"main( { }";
    let line = b"svr3: refused: b.c:1: syntax\n";
    both_say(&rt, alloc, b"f() { return x; }", bad, line)?;
    let line = b"svr3: refused: a.c:1: syntax\n";
    both_say(&rt, alloc, bad, bad, line)?;
    Ok(())
}

#[test]
fn a_rule_that_fails_is_named(rt: HostRuntime) -> Result<(), Fail> {
    let alloc = rt.alloc();
    let line = b"svr3: refused: one.c:1: rule 2\n";
    let end = says(&rt, alloc, b"main() { return x; }", line)?;
    assert!(rt;
        matches!(
            end,
            End::Refused(Refusal::Rule {
                file: 0,
                line: 1,
                rule: 2
            })
        )
    );
    let line = b"svr3: refused: one.c:1: rule 1\n";
    says(&rt, alloc, b"main() { int x, x; return 1; }", line)?;
    let line = b"svr3: refused: one.c:3: rule 2\n";
    says(&rt, alloc, b"main()\n{\nreturn x;\n}", line)?;
    Ok(())
}

#[test]
fn a_check_of_the_join_that_fails_is_named(rt: HostRuntime) -> Result<(), Fail> {
    let alloc = rt.alloc();
    let line = b"svr3: refused: nomain\n";
    let end = says(&rt, alloc, b"", line)?;
    assert!(rt; matches!(end, End::Refused(Refusal::Join(JoinErr::NoMain))));
    let line = b"svr3: refused: undefined x\n";
    says(&rt, alloc, b"extern int x; main() { return x; }", line)?;
    let line = b"svr3: refused: arguments f\n";
    says(&rt, alloc, b"f() { } main() { f(1); }", line)?;
    let line = b"svr3: refused: arguments main\n";
    says(&rt, alloc, b"main(a) { return 1; }", line)?;
    let line = b"svr3: refused: twice main\n";
    both_say(&rt, alloc, b"main() { }", b"main() { }", line)?;
    let line = b"svr3: refused: clash g\n";
    both_say(&rt, alloc, b"int g; main() { }", b"extern char g;", line)?;
    Ok(())
}

#[test]
fn a_static_function_has_one_type(rt: HostRuntime) -> Result<(), Fail> {
    let alloc = rt.alloc();
    let other = b"static f() { return 5; } main() { static char *f(); return *f(); }";
    says(&rt, alloc, other, b"svr3: refused: clash f\n")?;
    let same = b"static f() { return 5; } main() { static f(); return f(); }";
    says(&rt, alloc, same, b"svr3: refused: unbuilt\n")?;
    Ok(())
}

#[test]
fn recursive_structures_of_two_files_agree(rt: HostRuntime) -> Result<(), Fail> {
    let alloc = rt.alloc();
    let first = b"struct n { int v; struct n *next; }; struct n g; main() { }";
    let same = b"struct n { int v; struct n *next; }; extern struct n g;";
    both_say(&rt, alloc, first, same, b"svr3: refused: unbuilt\n")?;
    let other = b"struct n { int w; struct n *next; }; extern struct n g;";
    both_say(&rt, alloc, first, other, b"svr3: refused: clash g\n")?;
    Ok(())
}

#[test]
fn refusals_come_in_their_order(rt: HostRuntime) -> Result<(), Fail> {
    let alloc = rt.alloc();
    let wrong = b"f() { return x; }";
    let line = b"svr3: refused: a.c:1: rule 2\n";
    both_say(&rt, alloc, wrong, wrong, line)?;
    let line = b"svr3: refused: b.c:1: rule 2\n";
    both_say(&rt, alloc, b"f() { }", wrong, line)?;
    let line = b"svr3: refused: nomain\n";
    both_say(&rt, alloc, b"f() { }", b"f() { }", line)?;
    Ok(())
}

// Three letters for each number below 17,576.
fn letters(n: usize) -> [u8; 3] {
    [
        b'a' + (n % 26) as u8,
        b'a' + (n / 26 % 26) as u8,
        b'a' + (n / 676 % 26) as u8,
    ]
}

// `aaa.c`, `baa.c` and on.
fn file_name(alloc: Global, n: usize) -> Result<Name, Fail> {
    let [first, second, third] = letters(n);
    Ok(Name::of(alloc, &[first, second, third, b'.', b'c'])?)
}

// `run` and so many names of files.
fn many_files(alloc: Global, count: usize) -> Result<Words, Fail> {
    let mut words = words_of(alloc, &[b"run".as_slice()])?;
    for n in 0..count {
        words.push(file_name(alloc, n)?.as_slice())?;
    }
    Ok(words)
}

#[test]
fn ten_thousand_words_are_taken(rt: HostRuntime) -> Result<(), Fail> {
    let alloc = rt.alloc();
    let words = many_files(alloc, 9_999)?;
    let call = Call {
        words: &words,
        files: &[(b"aaa.c".as_slice(), COUNTDOWN)],
        read_fails: &[],
        write_fails: &[],
    };
    end_of(&rt, alloc, &call, b"", b"svr3: absent: baa.c\n")?;
    let words = many_files(alloc, 10_000)?;
    let call = Call {
        words: &words,
        files: &[],
        read_fails: &[],
        write_fails: &[],
    };
    end_of(&rt, alloc, &call, b"", b"svr3: usage\n")?;
    Ok(())
}

// `xaaa() { ;;;; }` of so many bytes, or `main`.
fn function_text(alloc: Global, n: usize, length: usize) -> Result<Vec<u8>, Fail> {
    let mut text = Vec::new(alloc);
    if n == 0 {
        text.extend_from_slice(b"main")?;
    } else {
        text.push(b'x')?;
        text.extend_from_slice(&letters(n))?;
    }
    text.extend_from_slice(b"() {")?;
    for _ in text.len()..length.saturating_sub(1) {
        text.push(b';')?;
    }
    text.push(b'}')?;
    Ok(text)
}

// The end of a program of so many files with a function in each, of so many bytes.
fn is_taken(
    rt: &impl Abort,
    alloc: Global,
    count: usize,
    length: usize,
    line: &[u8],
) -> Result<(), Fail> {
    let words = many_files(alloc, count)?;
    let mut list = Vec::new(alloc);
    for n in 0..count {
        list.push((file_name(alloc, n)?, function_text(alloc, n, length)?))?;
    }
    let files = MemFiles::new(alloc, list, Vec::new(alloc));
    let out = MemSink::new(alloc, 0, Vec::new(alloc))?;
    let (end, _out) = end_over(rt, alloc, &words, files, out, line)?;
    assert_eq!(rt; status(&end), 4);
    Ok(())
}

#[test]
fn a_program_of_many_files_is_taken(rt: HostRuntime) -> Result<(), Fail> {
    let alloc = rt.alloc();
    let line = b"svr3: refused: unbuilt\n";
    is_taken(&rt, alloc, 131, 1_000, line)?;
    is_taken(&rt, alloc, 9_999, 13, line)?;
    Ok(())
}

// `int xaaa,xbaa,..;` with so many names, behind these words.
fn declared(alloc: Global, words: &[u8], count: usize) -> Result<Vec<u8>, Fail> {
    let mut text = words.to_vec(alloc)?;
    for n in 0..count {
        text.extend_from_slice(if n == 0 { b" x" } else { b",x" })?;
        text.extend_from_slice(&letters(n))?;
    }
    text.push(b';')?;
    Ok(text)
}

#[test]
fn ten_thousand_names_are_joined(rt: HostRuntime) -> Result<(), Fail> {
    let alloc = rt.alloc();
    let mut first = declared(alloc, b"int", 10_000)?;
    first.extend_from_slice(b"main() { return xaaa; }")?;
    let second = declared(alloc, b"extern int", 10_000)?;
    both_say(&rt, alloc, &first, &second, b"svr3: refused: unbuilt\n")?;
    let third = declared(alloc, b"extern char", 10_000)?;
    both_say(&rt, alloc, &first, &third, b"svr3: refused: clash xaaa\n")?;
    Ok(())
}

// `main() { return ((..7..)); }` with so many brackets.
fn bracketed(alloc: Global, count: usize) -> Result<Vec<u8>, Fail> {
    let mut text = b"main() { return ".to_vec(alloc)?;
    for _ in 0..count {
        text.push(b'(')?;
    }
    text.push(b'7')?;
    for _ in 0..count {
        text.push(b')')?;
    }
    text.extend_from_slice(b"; }")?;
    Ok(text)
}

#[test]
fn sixty_two_brackets_may_be_open(rt: HostRuntime) -> Result<(), Fail> {
    let alloc = rt.alloc();
    let inside = bracketed(alloc, 62)?;
    assert_eq!(rt; status_of(&rt, alloc, &inside)?, 7);
    let beyond = bracketed(alloc, 63)?;
    is_refused(&rt, alloc, &beyond)?;
    Ok(())
}

// `main() { int last,xaaa,xbaa,..; last=9; return last; }` with so many names behind the first.
fn with_names(alloc: Global, count: usize) -> Result<Vec<u8>, Fail> {
    let mut text = b"main() { int last".to_vec(alloc)?;
    for n in 0..count {
        text.extend_from_slice(b",x")?;
        text.extend_from_slice(&letters(n))?;
    }
    text.extend_from_slice(b"; last=9; return last; }")?;
    Ok(text)
}

#[test]
fn a_text_of_many_names_is_run(rt: HostRuntime) -> Result<(), Fail> {
    let text = with_names(rt.alloc(), 17_576)?;
    assert_eq!(rt; status_of(&rt, rt.alloc(), &text)?, 9);
    Ok(())
}

// `main() { int n; n=7; n=n+1; .. return n; }` with so many sums.
fn with_sums(alloc: Global, count: usize) -> Result<Vec<u8>, Fail> {
    let mut text = b"main() { int n; n=7; ".to_vec(alloc)?;
    for _ in 0..count {
        text.extend_from_slice(b"n=n+1;")?;
    }
    text.extend_from_slice(b" return n; }")?;
    Ok(text)
}

#[test]
fn a_long_text_is_run(rt: HostRuntime) -> Result<(), Fail> {
    let text = with_sums(rt.alloc(), 16_640)?;
    assert_eq!(rt; status_of(&rt, rt.alloc(), &text)?, 7);
    Ok(())
}

// `main() { return 7; }` with blanks behind it up to so many bytes.
fn blank_text(alloc: Global, length: usize) -> Result<Vec<u8>, Fail> {
    let mut text = b"main() { return 7; }".to_vec(alloc)?;
    for _ in text.len()..length {
        text.push(b' ')?;
    }
    Ok(text)
}

#[test]
fn the_form_has_its_limit(rt: HostRuntime) -> Result<(), Fail> {
    let alloc = rt.alloc();
    let inside = blank_text(alloc, 131_000)?;
    assert_eq!(rt; status_of(&rt, alloc, &inside)?, 7);
    let beyond = blank_text(alloc, 131_001)?;
    is_refused(&rt, alloc, &beyond)?;
    Ok(())
}

#[test]
fn a_file_has_its_limit(rt: HostRuntime) -> Result<(), Fail> {
    let alloc = rt.alloc();
    let words = run_file(alloc)?;
    let text = blank_text(alloc, 262_145)?;
    let call = Call {
        words: &words,
        files: &[(b"one.c".as_slice(), text.as_slice())],
        read_fails: &[],
        write_fails: &[],
    };
    let end = end_of(&rt, alloc, &call, b"", b"svr3: too large: one.c\n")?;
    assert_eq!(rt; status(&end), 3);
    Ok(())
}

#[test]
fn the_largest_file_is_taken(rt: HostRuntime) -> Result<(), Fail> {
    let alloc = rt.alloc();
    is_refused(&rt, alloc, &blank_text(alloc, 262_144)?)
}

// `run a.c b.c` over these files, which are not both taken.
fn are_not_taken(
    rt: &impl Abort,
    alloc: Global,
    files: &[(&[u8], &[u8])],
    read_fails: &[u32],
    line: &[u8],
) -> Result<End, Fail> {
    let list = [b"run".as_slice(), b"a.c".as_slice(), b"b.c".as_slice()];
    let words = words_of(alloc, &list)?;
    let call = Call {
        words: &words,
        files,
        read_fails,
        write_fails: &[],
    };
    end_of(rt, alloc, &call, b"", line)
}

#[test]
fn all_files_are_taken_before_one_is_read_as_text(rt: HostRuntime) -> Result<(), Fail> {
    let alloc = rt.alloc();
    let large = blank_text(alloc, 262_145)?;
    let bad = b"main( { }".as_slice();
    let a = (b"a.c".as_slice(), bad);
    let b = (b"b.c".as_slice(), large.as_slice());
    are_not_taken(&rt, alloc, &[a], &[], b"svr3: absent: b.c\n")?;
    are_not_taken(&rt, alloc, &[b], &[], b"svr3: absent: a.c\n")?;
    are_not_taken(&rt, alloc, &[a, b], &[], b"svr3: too large: b.c\n")?;
    are_not_taken(&rt, alloc, &[a, b], &[0], b"svr3: read fault\n")?;
    let b = (b"b.c".as_slice(), bad);
    are_not_taken(&rt, alloc, &[a, b], &[1], b"svr3: read fault\n")?;
    are_not_taken(&rt, alloc, &[a, b], &[2], b"svr3: refused: a.c:1: syntax\n")?;
    Ok(())
}

// The end of the countdown where these calls of the files and of the output fail.
fn is_fault(
    rt: &impl Abort,
    alloc: Global,
    read_fails: &[u32],
    write_fails: &[u32],
    line: &[u8],
) -> Result<(), Fail> {
    let words = run_file(alloc)?;
    let call = Call {
        words: &words,
        files: &[(b"one.c".as_slice(), COUNTDOWN)],
        read_fails,
        write_fails,
    };
    let end = end_of(rt, alloc, &call, b"", line)?;
    assert_eq!(rt; status(&end), 6);
    Ok(())
}

#[test]
fn a_read_that_fails_has_its_line(rt: HostRuntime) -> Result<(), Fail> {
    is_fault(&rt, rt.alloc(), &[0], &[], b"svr3: read fault\n")
}

#[test]
fn a_write_that_fails_has_its_line(rt: HostRuntime) -> Result<(), Fail> {
    is_fault(&rt, rt.alloc(), &[], &[0], b"svr3: write fault\n")
}

// Words that ask for nothing.
fn is_usage(rt: &impl Abort, alloc: Global, list: &[&[u8]]) -> Result<(), Fail> {
    let words = words_of(alloc, list)?;
    let call = Call {
        words: &words,
        files: &[(b"one.c".as_slice(), COUNTDOWN)],
        read_fails: &[],
        write_fails: &[],
    };
    let end = end_of(rt, alloc, &call, b"", b"svr3: usage\n")?;
    assert_eq!(rt; status(&end), 2);
    Ok(())
}

// `run -n number one.c`.
fn with_number(rt: &impl Abort, alloc: Global, number: &[u8]) -> Result<(), Fail> {
    is_usage(
        rt,
        alloc,
        &[
            b"run".as_slice(),
            b"-n".as_slice(),
            number,
            b"one.c".as_slice(),
        ],
    )
}

#[test]
fn other_words_are_usage(rt: HostRuntime) -> Result<(), Fail> {
    let alloc = rt.alloc();
    with_number(&rt, alloc, b"0")?;
    with_number(&rt, alloc, b"01")?;
    with_number(&rt, alloc, b"+1")?;
    with_number(&rt, alloc, b"9223372036854775808")?;
    is_usage(&rt, alloc, &[b"run".as_slice()])?;
    is_usage(
        &rt,
        alloc,
        &[b"run".as_slice(), b"-n".as_slice(), b"5".as_slice()],
    )?;
    is_usage(
        &rt,
        alloc,
        &[
            b"run".as_slice(),
            b"one.c".as_slice(),
            b"two.c".as_slice(),
            b"one.c".as_slice(),
        ],
    )?;
    is_usage(&rt, alloc, &[b"run".as_slice(), b"one.h".as_slice()])?;
    is_usage(&rt, alloc, &[b"sdb".as_slice(), b"one.c".as_slice()])?;
    Ok(())
}

#[test]
fn a_file_may_be_absent(rt: HostRuntime) -> Result<(), Fail> {
    let alloc = rt.alloc();
    let words = words_of(alloc, &[b"run".as_slice(), b"no.c".as_slice()])?;
    let call = Call {
        words: &words,
        files: &[(b"one.c".as_slice(), COUNTDOWN)],
        read_fails: &[],
        write_fails: &[],
    };
    let end = end_of(&rt, alloc, &call, b"", b"svr3: absent: no.c\n")?;
    assert_eq!(rt; status(&end), 3);
    Ok(())
}
