// What stands at a place of the tokens.
ghost use Rattle.std.specs.Prelude.{◌≡◌, ◌++◌, ℕ, map, IfOk};
ghost use Rattle.c_tree.specs.TreeDecl as tree;
ghost use Rattle.c_tree.specs.TreeUnit as u;
ghost use Rattle.c_tree.specs.TreeOf.{declr_of, local_of};
ghost use Rattle.c_tree.specs.TreeDecl.{declared};
ghost use Rattle.c_grammar.specs.Reads.{IsDeclarationAt, IsHeadAt, IsLocalAt};
ghost use Rattle.c_lex.specs.Shown.{tokens_of};
ghost use Rattle.c_expr.specs.Answer.{IsNotTooDeep, OnNotC};
ghost use Rattle.c_expr.specs.Typedefs.{names_of};
ghost use Rattle.c_decl.specs.FoundAt.{IsFoundAt, names_behind};

use crate::Head;
use crate::names::declared_name;
use crate::reader::Reader;
use c_expr::{ParseErr, Typedefs};
use c_lex::Tokens;
use c_tree::{Declr, Ext, LocalDecl};
use num_le::Name;
use std::alloc::{AllocError, Global};

fn outside(alloc: Global, t: &Tokens, at: usize, defs: &Typedefs) -> Result<(Head, usize), ParseErr>
    ensures spelled { IfOk result (λ x. IsFoundAt (names_of defs.now) (tokens_of t.now) at x.0 x.1) }
    ensures no_declaration { OnNotC result ((e : u.Ext) (k : ℕ) → IsDeclarationAt (names_of defs.now) (tokens_of t.now) at e k → ⊥) }
    ensures no_head { OnNotC result ((h : u.FuncHead) (k : ℕ) → IsHeadAt (names_of defs.now) (tokens_of t.now) at h k → ⊥) }
    ensures shallow { IsNotTooDeep result }
{
    let reader = Reader {
        alloc,
        tokens: t,
        defs,
    };
    reader.outside(at)
}

/// Adds the names that the declarators declare.
fn add_declared(alloc: Global, declrs: &[Declr], defs: &mut Typedefs) -> Result<(), AllocError>
    ensures names { IfOk result (λ _. names_of defs.new ≡ names_of defs.old ++ map declared (map declr_of declrs.now)) }
{
    for declr in declrs {
        defs.add(Name::of(alloc, declared_name(declr).as_slice())?)?;
    }
    Ok(())
}

/// Adds the names of a typedef.
fn add_names(alloc: Global, head: &Head, defs: &mut Typedefs) -> Result<(), AllocError>
    ensures names { IfOk result (λ _. names_of defs.new ≡ names_behind (names_of defs.old) head.now) }
{
    match head {
        Head::Whole(Ext::Typedef(_, _, declrs)) => add_declared(alloc, declrs, defs),
        _ => Ok(()),
    }
}

/// What stands at a place, once the names of a typedef are added.
fn with_names(
    alloc: Global,
    found: (Head, usize),
    defs: &mut Typedefs,
) -> Result<(Head, usize), ParseErr>
    ensures same { IfOk result (λ x. x ≡ found) }
    ensures names { IfOk result (λ x. names_of defs.new ≡ names_behind (names_of defs.old) x.0) }
    ensures only_memory { OnNotC result ⊥ }
    ensures shallow { IsNotTooDeep result }
{
    match add_names(alloc, &found.0, defs) {
        Ok(()) => Ok(found),
        Err(_) => Err(ParseErr::Memory),
    }
}

/// One declaration outside of blocks, up to and with its semicolon, or the head of a function up to its block.
///
/// The answer has the place of the token behind it. Tokens are counted from 0. The names of a typedef are added to the
/// typedef names. NotC, with the line where reading ended, comes exactly where neither of them stands there with a depth
/// of at most 200. After an error the typedef names may hold some of the new ones.
pub fn external(
    alloc: Global,
    t: &Tokens,
    at: usize,
    defs: &mut Typedefs,
) -> Result<(Head, usize), ParseErr>
    ensures spelled { IfOk result (λ x. IsFoundAt (names_of defs.old) (tokens_of t.now) at x.0 x.1) }
    ensures names { IfOk result (λ x. names_of defs.new ≡ names_behind (names_of defs.old) x.0) }
    ensures no_declaration { OnNotC result ((e : u.Ext) (k : ℕ) → IsDeclarationAt (names_of defs.old) (tokens_of t.now) at e k → ⊥) }
    ensures no_head { OnNotC result ((h : u.FuncHead) (k : ℕ) → IsHeadAt (names_of defs.old) (tokens_of t.now) at h k → ⊥) }
    ensures shallow { IsNotTooDeep result }
{
    let found = outside(alloc, t, at, defs)?;
    with_names(alloc, found, defs)
}

/// One declaration in a block, up to and with its semicolon, and the place of the token behind it.
///
/// Tokens are counted from 0. NotC, with the line where reading ended, comes exactly where none stands there with a depth
/// of at most 200.
pub fn local(
    alloc: Global,
    t: &Tokens,
    at: usize,
    defs: &Typedefs,
) -> Result<(LocalDecl, usize), ParseErr>
    ensures spelled { IfOk result (λ x. IsLocalAt (names_of defs.now) (tokens_of t.now) at (local_of x.0) x.1) }
    ensures none { OnNotC result ((d : tree.LocalDecl) (k : ℕ) → IsLocalAt (names_of defs.now) (tokens_of t.now) at d k → ⊥) }
    ensures shallow { IsNotTooDeep result }
{
    let reader = Reader {
        alloc,
        tokens: t,
        defs,
    };
    reader.local(at)
}
