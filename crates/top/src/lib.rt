//! The top call: words, files, a source of commands and sinks in, an end out.
//!
//! `svr3` answers exactly as the page ANSWERS in docs/ says, over objects in memory, where everything is told, as over the real
//! outside, where nothing is (*Answers*): which words are Usage, which file can't be taken, exactly when a refusal comes
//! (*TextsAnswer*), and how a program of the small form ends, against the 386 (*MachineAnswers*) and against *Run* of the source
//! (*SourceAnswers*). It leaves what the files and the commands tell as it was, and tells of its end by one line. `status` is
//! the exit status of an end.
#![tactic(auto)]

mod answer;
mod call;
mod lines;
mod reading;
mod words;

pub use answer::{End, Refusal, status, unread};
pub use call::svr3;
pub use words::{Request, Words, asked, names_c_file};
