// Units.
ghost use Rattle.std.specs.Prelude.{◌≡◌, ◌+◌, ℕ, [], length, map, drop, Some, IfOk};
ghost use Rattle.c_tree.specs.TreeUnit as tree;
ghost use Rattle.c_tree.specs.TreeOf.{block_of, ext_of, unit_of};
ghost use Rattle.c_grammar.specs.WrittenUnit.{with_typedefs};
ghost use Rattle.c_grammar.specs.Reads.{most, ReadsTokens, AreShallow};
ghost use Rattle.c_lex.specs.Shown.{tokens_of};
ghost use Rattle.c_expr.specs.Typedefs.{names_of};
ghost use Rattle.c_expr.specs.Answer.{OnNotC};
ghost use Rattle.c_decl.specs.FoundAt.{names_behind};
ghost use Rattle.c_decl.specs.HeadOf.{head_of, outside_of};
ghost use Rattle.c_decl.specs.Expression.{expression};
ghost use Rattle.c_decl.specs.Answers.{Gives, found, rest};
ghost use Rattle.c_expr.specs.Front as f;
ghost use Rattle.c_parse.specs.ReadUnit as q;
ghost use Rattle.c_parse.specs.Words as w;
ghost use Rattle.c_parse.specs.Units as u;
ghost use Rattle.c_parse.specs.Units.{IfTooDeep, deep_line as deep_line_lem};

use crate::brackets::opened;
use crate::depth::unit_exceeds;
use crate::places::OPEN_BRACE;
use crate::statements::block;
use c_decl::{FuncHead, Head, MAX_DEPTH, Reader, external};
use c_expr::{ParseErr, Typedefs};
use c_lex::Tokens;
use c_tree::{Block, Ext, Unit};
use std::alloc::Global;

/// The line of the first token at which more brackets are open than the greatest number.
fn deep_line(t: &Tokens) -> Option<u32>
    ensures { result ≡ deep_line_lem 0 (tokens_of t.now) }
{
    let mut open = 0;
    for token in &t.list {
        open = opened(open, token);
        if open > MAX_DEPTH as usize {
            return Some(token.line);
        }
    }
    None
}

fn token_count(t: &Tokens) -> usize
    ensures { result ≡ length (tokens_of t.now) }
{
    t.list.len()
}

/// The line of the last token, or 0 where there is none.
fn last_line(t: &Tokens) -> u32 {
    match t.list.last() {
        Some(token) => token.line,
        None => 0,
    }
}

/// The block of a function.
fn function_body(r: &Reader<'_>, at: usize) -> Result<(Block, usize), ParseErr>
    ensures { Gives (found block_of r.now) result (f.along (f.eat OPEN_BRACE (rest r.now at)) (λ a. w.block r.now most (f.line_at (rest r.now at)) a)) }
{
    let inside = r.expect(OPEN_BRACE, at)?;
    block(r, MAX_DEPTH, r.line(at), inside)
}

/// A function behind its head, up to and with its closing brace.
fn function(r: &Reader<'_>, head: FuncHead, at: usize) -> Result<(Ext, usize), ParseErr>
    ensures { Gives (found ext_of r.now) result (u.function r.now (head_of head) (rest r.now at)) }
{
    let (body, after) = function_body(r, at)?;
    let function = Ext::Func(head.line, head.specs, head.declr, head.params, body);
    Ok((function, after))
}

/// A declaration up to and with its semicolon, or the head of a function.
fn outside(
    alloc: Global,
    t: &Tokens,
    at: usize,
    defs: &mut Typedefs,
) -> Result<(Head, usize), ParseErr>
    ensures read { Gives (λ x. (outside_of x.0, drop x.1 (tokens_of t.now))) result (u.outside (names_of defs.old) (drop at (tokens_of t.now))) }
    ensures names { IfOk result (λ x. names_of defs.new ≡ names_behind (names_of defs.old) x.0) }
{
    external(alloc, t, at, defs)
}

/// An external declaration, whose typedef names stand for types behind it.
fn external_declaration(
    alloc: Global,
    t: &Tokens,
    at: usize,
    defs: &mut Typedefs,
) -> Result<(Ext, usize), ParseErr>
    ensures read { Gives (λ x. (ext_of x.0, drop x.1 (tokens_of t.now))) result (u.ext (names_of defs.old) (drop at (tokens_of t.now))) }
    ensures names { IfOk result (λ x. names_of defs.new ≡ with_typedefs (names_of defs.old) (ext_of x.0)) }
{
    let (head, behind) = outside(alloc, t, at, defs)?;
    match head {
        Head::Whole(ext) => Ok((ext, behind)),
        Head::Func(head) => {
            let reader = Reader {
                alloc,
                tokens: t,
                defs,
            };
            function(&reader, head, behind)
        }
    }
}

/// The external declarations of the text.
fn external_declarations(alloc: Global, t: &Tokens) -> Result<Vec<Ext>, ParseErr>
    ensures read { Gives (λ v. map ext_of v.items) result (u.exts (length (tokens_of t.now) + 1) [] (tokens_of t.now)) }
{
    let mut defs = Typedefs::new(alloc);
    let mut exts = Vec::new(alloc);
    let mut at = 0;
    let count = token_count(t);
    for _turn in 0..count + 1 {
        if at >= count {
            return Ok(exts);
        }
        let (ext, after) = external_declaration(alloc, t, at, &mut defs)?;
        exts.push(ext)?;
        at = after;
    }
    Err(ParseErr::NotC(last_line(t)))
}

/// A unit, where the brackets that are open are few enough.
fn unit(alloc: Global, t: &Tokens) -> Result<Unit, ParseErr>
    ensures read { Gives unit_of result (q.unit most expression (tokens_of t.now)) }
{
    let unit = Unit {
        exts: external_declarations(alloc, t)?,
    };
    if unit_exceeds(&unit, MAX_DEPTH) {
        return Err(ParseErr::NotC(last_line(t)));
    }
    Ok(unit)
}

/// The unit that the tokens spell.
///
/// TooDeep carries the line of the first token at which more than 200 of `(`, `[` and `{` are open, and comes
/// exactly where there is one. NotC comes where there is none and the tokens spell no unit of a depth of at most
/// 200. It carries the line of the token at which reading ended.
pub fn parse(alloc: Global, t: &Tokens) -> Result<Unit, ParseErr>
    ensures reads { IfOk result (λ u. ReadsTokens (tokens_of t.now) (unit_of u)) }
    ensures none { OnNotC result ((u : tree.Unit) → ReadsTokens (tokens_of t.now) u → ⊥) }
    ensures too_deep { IfTooDeep result (λ line. AreShallow 0 (tokens_of t.now) → ⊥) }
    ensures line { IfTooDeep result (λ line. deep_line_lem 0 (tokens_of t.now) ≡ Some line) }
    ensures shallow { OnNotC result (AreShallow 0 (tokens_of t.now)) }
{
    if let Some(line) = deep_line(t) {
        return Err(ParseErr::TooDeep(line));
    }
    unit(alloc, t)
}
