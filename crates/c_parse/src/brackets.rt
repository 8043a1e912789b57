// The brackets that are open at a token.
ghost use Rattle.std.specs.Prelude.{◌≡◌, ◌+◌, ◌<◌, ◌^◌};
ghost use Rattle.c_lex.specs.Shown.{tok_of, token_of};
ghost use Rattle.c_grammar.specs.Reads as r;

use c_lex::{Tok, Token};

fn is_opening(kind: &Tok) -> bool
    ensures { result ≡ r.is_opening (tok_of kind.now) }
{
    match kind {
        Tok::Mark(mark) => *mark == 21 || *mark == 23 || *mark == 25,
        Tok::Name(_) | Tok::Int(_, _) | Tok::Chr(_) | Tok::Text(_) | Tok::Word(_) => false,
    }
}

fn is_closing(kind: &Tok) -> bool
    ensures { result ≡ r.is_closing (tok_of kind.now) }
{
    match kind {
        Tok::Mark(mark) => *mark == 22 || *mark == 24 || *mark == 26,
        Tok::Name(_) | Tok::Int(_, _) | Tok::Chr(_) | Tok::Text(_) | Tok::Word(_) => false,
    }
}

/// How many of `(`, `[` and `{` are open at the token, where so many were open before it.
pub fn opened(before: usize, token: &Token) -> usize
    requires fits { before + 1 < 2 ^ 64 }
    ensures open { result ≡ r.opened before (token_of token.now) }
{
    if is_opening(&token.kind) {
        before + 1
    } else if is_closing(&token.kind) {
        before.saturating_sub(1)
    } else {
        before
    }
}
