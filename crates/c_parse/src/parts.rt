// Expressions and declarations in statements.
ghost use Rattle.std.specs.Prelude.{◌≡◌, ◌+◌, length, map};
ghost use Rattle.c_tree.specs.TreeOf.{expr_of, local_of, part_of};
ghost use Rattle.c_lex.specs.Shown.{tok_of};
ghost use Rattle.c_expr.specs.Typedefs.{names_of};
ghost use Rattle.c_decl.specs.ReadSpecs.{start_of};
ghost use Rattle.c_decl.specs.Answers.{Gives, found, names, rest};
ghost use Rattle.c_parse.specs.ReadStmt as s;
ghost use Rattle.c_parse.specs.Words as w;

use crate::places::{CLOSE_ROUND, OPEN_ROUND};
use c_decl::{Reader, local};
use c_expr::{ParseErr, Typedefs};
use c_lex::Tok;
use c_tree::{Expr, LocalDecl};

/// An expression in brackets.
pub fn test(r: &Reader<'_>, at: usize) -> Result<(Expr, usize), ParseErr>
    ensures { Gives (found expr_of r.now) result (w.test r.now (rest r.now at)) }
{
    let inside = r.expect(OPEN_ROUND, at)?;
    let (test, behind) = r.expression(1, inside)?;
    let after = r.expect(CLOSE_ROUND, behind)?;
    Ok((test, after))
}

/// An expression or none, up to and with the mark.
pub fn maybe(r: &Reader<'_>, mark: u8, at: usize) -> Result<(Option<Expr>, usize), ParseErr>
    ensures { Gives (found (part_of expr_of) r.now) result (w.maybe r.now mark (rest r.now at)) }
{
    if let Some(after) = r.eat(mark, at) {
        return Ok((None, after));
    }
    let (expr, behind) = r.expression(1, at)?;
    let after = r.expect(mark, behind)?;
    Ok((Some(expr), after))
}

/// Whether the token may begin a declaration.
fn is_start(kind: &Tok, defs: &Typedefs) -> bool
    ensures { result ≡ s.is_start (start_of (names_of defs.now) (tok_of kind.now)) }
{
    match kind {
        Tok::Name(name) => defs.has(name.as_slice()),
        Tok::Word(word) => matches!(
            *word,
            0 | 3 | 8 | 9 | 12 | 13 | 14 | 16 | 18 | 19 | 21 | 22 | 23
        ),
        Tok::Int(_, _) | Tok::Chr(_) | Tok::Text(_) | Tok::Mark(_) => false,
    }
}

fn begins_local(r: &Reader<'_>, at: usize) -> bool
    ensures { result ≡ w.begins_local r.now (rest r.now at) }
{
    match r.token(at) {
        Some(token) => is_start(&token.kind, r.defs),
        None => false,
    }
}

/// One declaration in a block, up to and with its semicolon.
fn local_at(r: &Reader<'_>, at: usize) -> Result<(LocalDecl, usize), ParseErr>
    ensures { Gives (found local_of r.now) result (w.local r.now (rest r.now at)) }
{
    local(r.alloc, r.tokens, at, r.defs)
}

/// The declarations at the head of a block, as many as there are.
#[tactic(auto, unfolding(crate::specs::ReadStmt::locals))]
pub fn locals(r: &Reader<'_>, at: usize) -> Result<(Vec<LocalDecl>, usize), ParseErr>
    ensures { Gives (found (λ v. map local_of v.items) r.now) result (w.locals r.now (length (rest r.now at) + 1) (rest r.now at)) }
{
    let mut list = Vec::new(r.alloc);
    let mut next = at;
    for _turn in 0..r.left(at) + 1 {
        if !begins_local(r, next) {
            return Ok((list, next));
        }
        let (decl, behind) = local_at(r, next)?;
        list.push(decl)?;
        next = behind;
    }
    Err(r.refusal(at))
}
