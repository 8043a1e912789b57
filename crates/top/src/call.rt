// The top call.
ghost use Rattle.std.specs.Prelude.{◌≡◌, ◌≤◌, length, All};
ghost use Rattle.mach_mem.specs.Addresses.{text_room};
ghost use Rattle.top.specs.Answers.{Answers, FilesAnswer};
ghost use Rattle.top.specs.Lines.{GainsLine, IsOrMemory, line_of};
ghost use Rattle.top.specs.MachineAnswers.{end_of};
ghost use Rattle.top.specs.Outside.{outside};
ghost use Rattle.top.specs.Command.{files_asked};
ghost use Rattle.top.specs.Ended.{EndsCode, EndsTexts, end_unaccepted, end_unbuilt};
ghost use Rattle.c_front.specs.Sources.{texts_of};

use crate::answer::{End, Refusal};
use crate::lines::{fixed_line, line};
use crate::reading::texts;
use crate::words::{Words, asked};
use c_front::FrontErr;
use num_le::Name;
use outside::{Files, Sink, Source, put_all};
use small_build::{BuildErr, build};
use std::alloc::Global;
use subject::{Halt, Stuck, run_text};

// The end where a process has stopped.
fn stopped(halt: Halt) -> End
    ensures { result ≡ end_of halt }
{
    match halt {
        Halt::Exited(status) => End::Ran(status),
        Halt::Raised(signal) => End::Signalled(signal),
        Halt::Spent => End::Budget,
    }
}

// The end of the program of these bytes of .text.
fn run_code<S: Sink>(alloc: Global, code: &[u8], most: u64, out: &mut S) -> End
    requires fits { length code.now ≤ text_room }
    ensures end { EndsCode code.now most (S.held out.old) (S.held out.new) (S.faults out.old) (S.faults out.new) result }
{
    match run_text(alloc, code, most, out) {
        Ok(halt) => stopped(halt),
        Err(Stuck::WriteFault) => End::WriteFault,
        Err(Stuck::Memory) => End::Memory,
    }
}

// The end where texts make no program.
fn unaccepted(error: FrontErr) -> End
    ensures { result ≡ end_unaccepted error }
{
    match error {
        FrontErr::Syntax { file, line } => End::Refused(Refusal::Syntax { file, line }),
        FrontErr::Rule { file, line, rule } => End::Refused(Refusal::Rule { file, line, rule }),
        FrontErr::Join(why) => End::Refused(Refusal::Join(why)),
        FrontErr::Memory => End::Memory,
    }
}

// The end where texts are not built.
fn unbuilt(error: BuildErr) -> End
    ensures { result ≡ end_unbuilt error }
{
    match error {
        BuildErr::Front(error) => unaccepted(error),
        BuildErr::Unbuilt => End::Refused(Refusal::Unbuilt),
        BuildErr::Memory => End::Memory,
    }
}

// Runs texts within the limit.
fn run_texts<S: Sink>(alloc: Global, texts: &[Vec<u8>], most: u64, out: &mut S) -> End
    requires few { length texts.now ≤ 10000 }
    requires short { All (λ t. length t.items ≤ 262144) texts.now }
    ensures end { EndsTexts (texts_of texts.now) most (S.held out.old) (S.held out.new) (S.faults out.old) (S.faults out.new) result }
{
    match build(alloc, texts) {
        Ok(code) => run_code(alloc, &code, most, out),
        Err(error) => unbuilt(error),
    }
}

// Runs the files of these names.
fn run<F: Files, S: Sink>(
    alloc: Global,
    names: &[Name],
    most: u64,
    files: &mut F,
    out: &mut S,
) -> End
    requires few { length names.now ≤ 10000 }
    ensures answer { FilesAnswer names.now most (F.held files.old) (outside (F.held files.old) (F.faults files.old) (F.faults files.new) (S.held out.old) (S.held out.new) (S.faults out.old) (S.faults out.new)) result }
    ensures unchanged { F.held files.new ≡ F.held files.old }
{
    match texts(alloc, names, files) {
        Ok(texts) => run_texts(alloc, &texts, most, out),
        Err(end) => end,
    }
}

// Writes a line, or a front of it where the sink fails.
fn tell<E: Sink>(err: &mut E, line: &[u8])
    ensures { GainsLine (E.held err.old) (E.held err.new) (E.faults err.old) (E.faults err.new) line.now }
{
    match put_all(err, line) {
        Ok(()) => {}
        Err(_) => {}
    }
}

// Tells of an end of a call with files of these names, or of want of memory for its line.
fn told<E: Sink>(alloc: Global, names: &[Name], end: End, err: &mut E) -> End
    ensures same { IsOrMemory end result }
    ensures line { GainsLine (E.held err.old) (E.held err.new) (E.faults err.old) (E.faults err.new) (line_of names.now result) }
{
    if let Some(line) = fixed_line(&end) {
        tell(err, line);
        return end;
    }
    match line(alloc, names, &end) {
        Ok(line) => {
            tell(err, &line);
            end
        }
        Err(_) => {
            tell(err, b"svr3: memory\n");
            End::Memory
        }
    }
}

/// Does what these words ask for: `run`, an optional `-n` with its number, and the names of C files
/// compiles the files and runs their program on the 386. Its output goes to `out`.
///
/// The end is `Usage` exactly where the words aren't these, `Absent` and `TooLarge` exactly where the
/// first file that can't be taken isn't there or has more than 262,144 bytes, `Refused` exactly where the
/// texts make no program or one that isn't of the small form, and otherwise how the program stops on the
/// machine: `Ran` with its status, or `Budget` where it has executed the number of instructions that `-n`
/// gives, 100,000,000 without. `ReadFault` and `WriteFault` come only where a read or a write failed. Want
/// of memory may stand for each of these. `err` gains the line of the end.
pub fn svr3<F: Files, C: Source, S: Sink, E: Sink>(
    alloc: Global,
    words: &Words,
    files: &mut F,
    commands: &mut C,
    out: &mut S,
    err: &mut E,
) -> End
    ensures answer { Answers words.now (outside (F.held files.old) (F.faults files.old) (F.faults files.new) (S.held out.old) (S.held out.new) (S.faults out.old) (S.faults out.new)) result }
    ensures files { F.held files.new ≡ F.held files.old }
    ensures commands { C.left commands.new ≡ C.left commands.old }
    ensures line { GainsLine (E.held err.old) (E.held err.new) (E.faults err.old) (E.faults err.new) (line_of (files_asked words.now) result) }
{
    match asked(alloc, words) {
        Ok(Some(request)) => {
            let end = run(alloc, request.files, request.most, files, out);
            told(alloc, request.files, end, err)
        }
        Ok(None) => told(alloc, &[], End::Usage, err),
        Err(_) => told(alloc, &[], End::Memory, err),
    }
}
