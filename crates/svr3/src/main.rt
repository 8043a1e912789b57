//! The tool chain of System V Release 3: compiles C files and runs them on the 386.
#![tactic(auto)]

use outside::put_all;
use real_io::{RealFiles, RealSink, RealSource};
use std::env::Env;
use std::process::ExitCode;
use std::{env, io};
use top::{Words, status, svr3, unread};

// The words of the command line, but for the program's own name.
fn words_of<R: Env + AllocGlobal>(rt: &R) -> io::Result<Words> {
    let mut words = Words::new(rt.alloc());
    for word in env::args(rt)?.skip(1) {
        words.push(word.as_str().as_bytes())?;
    }
    Ok(words)
}

fn main(rt: HostRuntime) -> ExitCode {
    let mut err = RealSink::new(rt.stderr());
    let words = match words_of(&rt) {
        Ok(words) => words,
        Err(error) => {
            let (end, line) = unread(&error);
            // A line that can't be written is lost; the status tells of the end all the same.
            let _ = put_all(&mut err, line);
            return ExitCode::from(status(&end));
        }
    };
    let mut files = RealFiles::new(&rt);
    let mut commands = RealSource::new(rt.stdin());
    let mut out = RealSink::new(rt.stdout());
    let end = svr3(
        rt.alloc(),
        &words,
        &mut files,
        &mut commands,
        &mut out,
        &mut err,
    );
    ExitCode::from(status(&end))
}
