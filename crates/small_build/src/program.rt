// From texts of the small form to the bytes of .text.
ghost use Rattle.std.specs.Prelude.{◌≡◌, ◌≤◌, length, map};
ghost use Rattle.std.specs.List.{AllZip};
ghost use Rattle.c_lex.specs.Shown.{token_of, tok_of, tokens_of};
ghost use Rattle.c_tree.specs.TreeOf.{unit_of};
ghost use Rattle.c_grammar.specs.Reads.{ReadsTokens};
ghost use Rattle.small_build.specs.SmallText as s;
ghost use Rattle.small_build.specs.Compiled.{TypesTokens, Types, Compiles};
ghost use Rattle.c_front.specs.Sources.{IsSource, texts_of};

use c_front::Source;
use c_lex::{Tok, Token};
use c_tree::TFunc;
use gen_small::small_text;
use small_form::{Fault, small_main};
use std::alloc::Global;

// The limit of a text of the small form, in bytes.
const MOST: usize = 131_000;

// The greatest number of brackets `(` that are open at a token.
const ROUND: usize = 62;

// How many `(` are open at a token, where so many were open before it.
fn round_open(before: usize, kind: &Tok) -> usize
    requires { before ≤ 62 }
    ensures { result ≡ s.round_open before (tok_of kind.now) }
{
    match kind {
        Tok::Mark(21) => before + 1,
        Tok::Mark(22) => before.saturating_sub(1),
        _ => before,
    }
}

fn are_few(tokens: &[Token]) -> bool
    ensures { result ≡ s.are_few 0 (map token_of tokens.now) }
{
    let mut open = 0;
    for token in tokens {
        open = round_open(open, &token.kind);
        if open > ROUND {
            return false;
        }
    }
    true
}

// The typed main of a source.
fn main_in(alloc: Global, source: &Source) -> Result<TFunc, Fault>
    requires counted { length (tokens_of source.now.tokens) ≤ 131000 }
    requires reads { ReadsTokens (tokens_of source.now.tokens) (unit_of source.now.unit) }
    ensures { TypesTokens (tokens_of source.now.tokens) result }
{
    if !are_few(&source.tokens.list) {
        return Err(Fault::Unbuilt);
    }
    small_main(alloc, &source.unit)
}

// The typed main of texts with these sources.
fn main_of(alloc: Global, texts: &[Vec<u8>], sources: &[Source]) -> Result<TFunc, Fault>
    requires read { AllZip IsSource (texts_of texts.now) sources.now }
    ensures { Types (texts_of texts.now) result }
{
    if texts.len() != 1 {
        return Err(Fault::Unbuilt);
    }
    if texts[0].len() > MOST {
        return Err(Fault::Unbuilt);
    }
    main_in(alloc, &sources[0])
}

/// The bytes of .text of a program of the small form.
pub(crate) fn text_of(
    alloc: Global,
    texts: &[Vec<u8>],
    sources: &[Source],
) -> Result<Vec<u8>, Fault>
    requires read { AllZip IsSource (texts_of texts.now) sources.now }
    ensures { Compiles (texts_of texts.now) result }
{
    let main = main_of(alloc, texts, sources)?;
    Ok(small_text(alloc, 0, &main)?)
}
