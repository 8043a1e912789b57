//! The outside: files, sources and sinks, and their forms in memory.
//!
//! All that the program reads or writes goes through three traits. What an object holds may be told
//! to contracts or not; that a call failed is counted, always.
#![tactic(auto)]

mod list;
mod mem_files;
mod mem_sink;
mod mem_source;
mod put;
mod schedule;
mod sure_files;
mod sure_sink;
mod sure_source;
mod traits;

pub use mem_files::MemFiles;
pub use mem_sink::MemSink;
pub use mem_source::MemSource;
pub use put::put_all;
pub use sure_files::SureFiles;
pub use sure_sink::SureSink;
pub use sure_source::SureSource;
pub use traits::{Failed, FileErr, Files, PutErr, Sink, Source};

#[cfg(test)]
mod tests;
