// Expressions from a place of the tokens on.
ghost use Rattle.std.specs.Prelude.{◌≡◌, ◌≤◌, ℕ, List, map, IfOk};
ghost use Rattle.c_lex.specs.Tokens as k;
ghost use Rattle.c_tree.specs.TreeExpr as tree;
ghost use Rattle.c_tree.specs.TreeOf.{expr_of};
ghost use Rattle.c_grammar.specs.Reads as reads;
ghost use Rattle.c_lex.specs.Shown.{token_of, tokens_of};
ghost use Rattle.c_expr.specs.Answer.{OnNotC, IsNotTooDeep};
ghost use Rattle.c_expr.specs.Exact.{IsFront};
ghost use Rattle.c_expr.specs.Parts.{names};
ghost use Rattle.c_expr.specs.Shown.{left};
ghost use Rattle.c_expr.specs.Typedefs.{names_of};

use crate::brackets::brackets;
use crate::error::ParseErr;
use crate::nodes::MAX_DEPTH;
use crate::places::{CLOSE_BRACE, CLOSE_ROUND, CLOSE_SQUARE, COLON, COMMA, SEMICOLON};
use crate::rest::{Found, Rest};
use crate::typedefs::Typedefs;
use c_lex::{Tok, Token, Tokens};
use c_tree::Expr;
use std::alloc::Global;

/// What the readers of all productions have in common.
#[derive(Clone, Copy, Drop)]
pub struct Reader<'a> {
    pub alloc: Global,
    pub defs: &'a Typedefs,
}

/// Whether a mark stands at the front that may stand behind an expression of the level.
fn may_follow(level: u8, rest: Rest<'_>) -> bool
    ensures { result ≡ reads.may_follow level (left rest.entry) }
{
    let [
        Token {
            kind: Tok::Mark(mark),
            ..
        },
        ..
    ] = rest.tokens
    else {
        return false;
    };
    match *mark {
        CLOSE_ROUND | CLOSE_SQUARE | SEMICOLON | COLON => true,
        CLOSE_BRACE | COMMA => level == 2 || level == 3,
        _ => false,
    }
}

/// The expression of the level at the front, which ends there.
fn front<'a>(reader: &Reader<'_>, level: u8, rest: Rest<'a>) -> Result<Found<'a>, ParseErr>
    requires { level ≤ 3 }
    ensures found { IfOk result (λ x. IsFront (names reader.now) level (expr_of x.tree) (left rest.entry) (left x.rest)) }
    ensures none { OnNotC result ((e : tree.Expr) (after : List k.Token) → IsFront (names reader.now) level e (left rest.entry) after → ⊥) }
    ensures shallow { IsNotTooDeep result }
{
    let nested = MAX_DEPTH as usize + brackets(level, rest);
    let found = reader.expr_at(nested, level, rest)?;
    if !may_follow(level, found.rest) {
        return Err(found.refusal());
    }
    Ok(found)
}

/// The line of the last token, and 0 where there is none.
fn last_line(tokens: &[Token]) -> u32 {
    match tokens {
        [.., last] => last.line,
        [] => 0,
    }
}

/// The expression of the level from the token `at` on, and the place of the token behind it.
fn expr_in(
    alloc: Global,
    tokens: &[Token],
    at: usize,
    level: u8,
    defs: &Typedefs,
) -> Result<(Expr, usize), ParseErr>
    requires high { level ≤ 3 }
    ensures spelled { IfOk result (λ x. reads.IsExprAt (names_of defs.now) level (map token_of tokens.now) at (expr_of x.0) x.1) }
    ensures none { OnNotC result ((e : tree.Expr) (k : ℕ) → reads.IsExprAt (names_of defs.now) level (map token_of tokens.now) at e k → ⊥) }
    ensures shallow { IsNotTooDeep result }
{
    let end = last_line(tokens);
    if at > tokens.len() {
        return Err(ParseErr::NotC(end));
    }
    let rest = Rest {
        tokens: &tokens[at..],
        end,
    };
    let found = front(&Reader { alloc, defs }, level, rest)?;
    Ok((found.tree, tokens.len() - found.rest.tokens.len()))
}

/// The expression of the level from the token `at` on, and the place of the token behind it.
///
/// Levels are 1 for an expression with commas, 2 for one without, and 3 for one without assignment.
/// The token behind it is `)`, `]`, `;` or `:`, or for levels 2 and 3 also `,` or `}`. Tokens are
/// counted from 0. NotC comes exactly where no expression of a depth of at most 200 stands there. Its line is that of the token at which reading ended.
///
/// The stack that reading takes grows with the brackets that are open at once, and not with the
/// number of tokens.
pub fn expr(
    alloc: Global,
    t: &Tokens,
    at: usize,
    level: u8,
    defs: &Typedefs,
) -> Result<(Expr, usize), ParseErr>
    requires low { 1 ≤ level }
    requires high { level ≤ 3 }
    ensures spelled { IfOk result (λ x. reads.IsExprAt (names_of defs.now) level (tokens_of t.now) at (expr_of x.0) x.1) }
    ensures none { OnNotC result ((e : tree.Expr) (k : ℕ) → reads.IsExprAt (names_of defs.now) level (tokens_of t.now) at e k → ⊥) }
    ensures shallow { IsNotTooDeep result }
{
    expr_in(alloc, &t.list, at, level, defs)
}
