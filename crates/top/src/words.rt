// The words of the command line.
ghost use Rattle.std.specs.Prelude.{◌≡◌, ◌≤◌, ◌<◌, ◌++◌, ◌∷◌, [], length, slice_get, IfOk, OnOk, OnErr, MatchOption, Some, None};
ghost use Rattle.std.specs.List.{list_all};
ghost use Rattle.std.specs.Char.{is_ascii_digit};
ghost use Rattle.top.specs.Command as command;
ghost use Rattle.top.specs.Command.{is_c_file, is_file_byte, digits_value, number_of, asked};
ghost use Rattle.top.specs.Asked.{Asks};

use name_set::NameSet;
use num_le::Name;
use std::alloc::{AllocError, Global};
use std::marker::Model;

/// A list of words, each some bytes.
#[derive(Drop)]
pub struct Words {
    alloc: Global,
    list: Vec<Name>,
}

impl Model for Words {
    ghost use Rattle.std.specs.Prelude.{List, ℕ};

    ghost Value = { List (List ℕ) };

    ghost view = { λ s. s.list.items };
}

impl Words {
    /// No words.
    pub fn new(alloc: Global) -> Words
        ensures { result ≡ [] }
    {
        Words {
            alloc,
            list: Vec::new(alloc),
        }
    }

    /// Adds a word.
    pub fn push(&mut self, word: &[u8]) -> Result<(), AllocError>
        ensures ok { OnOk result (self.new ≡ self.old ++ word.now ∷ []) }
        ensures err { OnErr result (self.new ≡ self.old) }
    {
        let word = Name::of(self.alloc, word)?;
        self.list.push(word)?;
        Ok(())
    }

    /// The number of words.
    pub fn len(&self) -> usize
        ensures { result ≡ length self.now }
    {
        self.list.len()
    }

    /// The word at this place, none past the end.
    pub fn get(&self, k: usize) -> Option<&[u8]>
        ensures { MatchOption result (slice_get self.now k ≡ None) (λ word. slice_get self.now k ≡ Some word.now) }
    {
        match self.list.get(k) {
            None => None,
            Some(word) => Some(word.as_slice()),
        }
    }
}

fn is_file(b: u8) -> bool
    ensures { result ≡ is_file_byte b }
{
    b.is_ascii_lowercase()
        || b.is_ascii_uppercase()
        || b.is_ascii_digit()
        || b == b'.'
        || b == b'_'
        || b == b'-'
        || b == b'/'
}

fn are_file_bytes(word: &[u8]) -> bool
    ensures { result ≡ list_all is_file_byte word.now }
{
    word.iter().all(|b| is_file(*b))
}

/// Whether this names a C file.
#[tactic(auto, unfolding(crate::specs::Command::is_c_file))]
pub fn names_c_file(word: &[u8]) -> bool
    ensures { result ≡ is_c_file word.now }
{
    let len = word.len();
    len <= 14
        && len >= 2
        && word[0] != b'-'
        && are_file_bytes(word)
        && &word[len - 2..] == b".c".as_slice()
}

// The number of words at most.
const MOST: usize = 10_000;

// The number of instructions where the words give none.
const DEFAULT: u64 = 100_000_000;

// The greatest number of a word.
const GREATEST: u128 = 9_223_372_036_854_775_807;

// The value of digits, if it is at most the greatest number.
fn value(digits: &[u8]) -> Option<u64>
    ensures { MatchOption result (9223372036854775807 < digits_value digits.now) (λ n. (n ≡ digits_value digits.now) × (n ≤ 9223372036854775807)) }
{
    let mut n = 0u128;
    for d in digits {
        n = n * 10 + u128::from(d.saturating_sub(48));
        if n > GREATEST {
            return None;
        }
    }
    Some(n as u64)
}

fn are_digits(word: &[u8]) -> bool
    ensures { result ≡ list_all is_ascii_digit word.now }
{
    word.iter().all(|b| b.is_ascii_digit())
}

// The number that a word is.
#[tactic(auto, unfolding(crate::specs::Command::number_of))]
fn number(word: &[u8]) -> Option<u64>
    ensures { result ≡ number_of word.now }
{
    if word.is_empty() || word[0] == b'0' || !are_digits(word) {
        return None;
    }
    value(word)
}

/// What the words ask for: to run a program of these files, for at most so many instructions.
#[derive(Drop)]
pub struct Request<'a> {
    pub files: &'a [Name],
    pub most: u64,
}

fn all_name_c_files(words: &[Name]) -> bool
    ensures { result ≡ list_all is_c_file words.now }
{
    words.iter().all(|word| names_c_file(word.as_slice()))
}

// Whether these are words for C files, at least one.
#[tactic(auto, unfolding(crate::specs::Command::are_c_files))]
fn name_c_files(words: &[Name]) -> bool
    ensures { result ≡ command.are_c_files words.now }
{
    !words.is_empty() && all_name_c_files(words)
}

// Whether these are words for C files, at least one, of which no two are the same.
fn are_files(alloc: Global, words: &[Name]) -> Result<bool, AllocError>
    ensures { IfOk result (λ b. b ≡ command.are_files words.now) }
{
    if !name_c_files(words) {
        return Ok(false);
    }
    let set = NameSet::of(alloc, words)?;
    Ok(set.is_some())
}

// The request for these files, if there is a number.
fn with_number<'a>(
    alloc: Global,
    number: Option<u64>,
    words: &'a [Name],
) -> Result<Option<Request<'a>>, AllocError>
    ensures { IfOk result (λ o. Asks o (command.with_number number words.now)) }
{
    let Some(most) = number else {
        return Ok(None);
    };
    if are_files(alloc, words)? {
        Ok(Some(Request { files: words, most }))
    } else {
        Ok(None)
    }
}

// The request of the words behind `run`.
fn asked_by_run<'a>(alloc: Global, words: &'a [Name]) -> Result<Option<Request<'a>>, AllocError>
    ensures { IfOk result (λ o. Asks o (command.asked_by_run words.now)) }
{
    if words.len() >= 2 && words[0].is(b"-n") {
        with_number(alloc, number(words[1].as_slice()), &words[2..])
    } else {
        with_number(alloc, Some(DEFAULT), words)
    }
}

/// What the words ask for; `None` exactly where they ask for nothing.
#[tactic(auto, unfolding(crate::specs::Command::asked))]
pub fn asked(alloc: Global, words: &Words) -> Result<Option<Request<'_>>, AllocError>
    ensures asked { IfOk result (λ o. Asks o (asked words.now)) }
{
    let words = words.list.as_slice();
    if words.len() > MOST || words.is_empty() || !words[0].is(b"run") {
        return Ok(None);
    }
    asked_by_run(alloc, &words[1..])
}
