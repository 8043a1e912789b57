// The line that tells of an end.
ghost use Rattle.std.specs.Prelude.{◌≡◌, ◌++◌, List, ℕ, IfOk, OnOk, MatchOption};
ghost use Rattle.top.specs.Lines as text;
ghost use Rattle.top.specs.Lines.{IsNamed, line_of, place_text, join_text, refusal_text};

use crate::answer::{End, Refusal};
use c_whole::JoinErr;
use itoa::Buffer;
use num_le::Name;
use std::alloc::{AllocError, Global};

// The name of a file; none past the last.
fn name_at(names: &[Name], file: u32) -> &[u8]
    ensures { result.now ≡ text.name_at names.now file }
{
    match names.get(file as usize) {
        Some(name) => name.as_slice(),
        None => b"",
    }
}

// `a.c:3: `
fn put_place(out: &mut Vec<u8>, names: &[Name], file: u32, line: u32) -> Result<(), AllocError>
    ensures { OnOk result (out.new.items ≡ out.old.items ++ place_text names.now file line) }
{
    let mut buffer = Buffer::new();
    out.extend_from_slice(name_at(names, file))?;
    out.extend_from_slice(b":")?;
    out.extend_from_slice(buffer.format(line).as_bytes())?;
    out.extend_from_slice(b": ")
}

// `twice x`
fn put_named(out: &mut Vec<u8>, words: &[u8], name: &Name) -> Result<(), AllocError>
    ensures { OnOk result (out.new.items ≡ out.old.items ++ (words.now ++ name.now)) }
{
    out.extend_from_slice(words)?;
    out.extend_from_slice(name.as_slice())
}

fn put_join(out: &mut Vec<u8>, why: &JoinErr) -> Result<(), AllocError>
    ensures { OnOk result (out.new.items ≡ out.old.items ++ join_text why.now) }
{
    match why {
        JoinErr::NoMain => out.extend_from_slice(b"nomain"),
        JoinErr::Twice(name) => put_named(out, b"twice ", name),
        JoinErr::Undefined(name) => put_named(out, b"undefined ", name),
        JoinErr::Clash(name) => put_named(out, b"clash ", name),
        JoinErr::Arguments(name) => put_named(out, b"arguments ", name),
        JoinErr::Memory => out.extend_from_slice(b"memory"),
    }
}

// `a.c:3: rule 7`
fn put_rule(
    out: &mut Vec<u8>,
    names: &[Name],
    file: u32,
    line: u32,
    rule: u8,
) -> Result<(), AllocError>
    ensures { OnOk result (out.new.items ≡ out.old.items ++ refusal_text names.now (Refusal.Rule file line rule)) }
{
    let mut buffer = Buffer::new();
    put_place(out, names, file, line)?;
    out.extend_from_slice(b"rule ")?;
    out.extend_from_slice(buffer.format(rule).as_bytes())
}

fn put_refusal(out: &mut Vec<u8>, names: &[Name], refusal: &Refusal) -> Result<(), AllocError>
    ensures { OnOk result (out.new.items ≡ out.old.items ++ refusal_text names.now refusal.now) }
{
    match refusal {
        Refusal::Syntax { file, line } => {
            put_place(out, names, *file, *line)?;
            out.extend_from_slice(b"syntax")
        }
        Refusal::Rule { file, line, rule } => put_rule(out, names, *file, *line, *rule),
        Refusal::Join(why) => put_join(out, why),
        Refusal::Unbuilt => out.extend_from_slice(b"unbuilt"),
    }
}

// A line of these words with a name behind them.
fn named_line(alloc: Global, words: &[u8], name: &Name) -> Result<Vec<u8>, AllocError>
    ensures { IfOk result (λ v. v.items ≡ text.named_line words.now name.now) }
{
    let mut line = words.to_vec(alloc)?;
    line.extend_from_slice(name.as_slice())?;
    line.push(b'\n')?;
    Ok(line)
}

fn refused_line(alloc: Global, names: &[Name], refusal: &Refusal) -> Result<Vec<u8>, AllocError>
    ensures { IfOk result (λ v. v.items ≡ line_of names.now (End.Refused refusal.now)) }
{
    let mut line = b"svr3: refused: ".to_vec(alloc)?;
    put_refusal(&mut line, names, refusal)?;
    line.push(b'\n')?;
    Ok(line)
}

/// The line of an end that takes memory, in a call with files of these names.
pub fn line(alloc: Global, names: &[Name], end: &End) -> Result<Vec<u8>, AllocError>
    requires named { IsNamed end.now }
    ensures line { IfOk result (λ v. v.items ≡ line_of names.now end.now) }
{
    match end {
        End::Absent(name) => named_line(alloc, b"svr3: absent: ", name),
        End::TooLarge(name) => named_line(alloc, b"svr3: too large: ", name),
        End::Refused(refusal) => refused_line(alloc, names, refusal),
        _ => Ok(Vec::new(alloc)),
    }
}

/// The line of an end that takes no memory; `None` exactly where it takes some.
pub fn fixed_line(end: &End) -> Option<&'static [u8]>
    ensures line { MatchOption result (IsNamed end.now) (λ line. (names : List (List ℕ)) → line.now ≡ line_of names end.now) }
{
    match end {
        End::Ran(_) | End::Signalled(_) | End::Session | End::Built => Some(b""),
        End::Absent(_) | End::TooLarge(_) => None,
        End::Usage => Some(b"svr3: usage\n"),
        End::Refused(Refusal::Unbuilt) => Some(b"svr3: refused: unbuilt\n"),
        End::Refused(_) => None,
        End::ReadFault => Some(b"svr3: read fault\n"),
        End::WriteFault => Some(b"svr3: write fault\n"),
        End::Budget => Some(b"svr3: budget\n"),
        End::Memory => Some(b"svr3: memory\n"),
    }
}
