// The front end: from texts to the program that they make.
ghost use Rattle.std.specs.Prelude.{◌≡◌, ◌<◌, ◌≤◌, length, map, All, IfOk, IfErr, IfSome};
ghost use Rattle.std.specs.List.{AllZip};
ghost use Rattle.c_tree.specs.TreeOf as tree;
ghost use Rattle.c_tree.specs.TypedOf as typed;
ghost use Rattle.c_rule.specs.RuleUnit.{IsTyped};
ghost use Rattle.c_join.specs.JoinChecks.{IsJoined};
ghost use Rattle.c_front.specs.Sources.{IsSource, units_of, texts_of};
ghost use Rattle.c_front.specs.Errors.{IsTextErr, IsUnitErr, IsUnitsErr, IsRightErr, lex_err, parse_err, join_refused};
ghost use Rattle.c_front.specs.Accepted.{IsAccepted};

use c_check::check;
use c_expr::ParseErr;
use c_lex::{LexErr, Tokens, lex};
use c_parse::parse;
use c_scope::TypeErr;
use c_tree::{Program, TypedUnit, Unit};
use c_whole::{JoinErr, join};
use std::alloc::{AllocFailed, Global};

/// The tokens of a text and the unit that they spell.
#[derive(Drop)]
pub struct Source {
    pub tokens: Tokens,
    pub unit: Unit,
}

/// Why texts make no program. Files are counted from 0, lines from 1.
#[derive(Debug, Drop)]
pub enum FrontErr {
    /// This file isn't a text of C; the line is near the fault.
    Syntax { file: u32, line: u32 },
    /// In this file this typing rule fails, near this line.
    Rule { file: u32, line: u32, rule: u8 },
    /// The files don't join. The reason is never want of memory.
    Join(JoinErr),
    /// Memory was wanting.
    Memory,
}

impl<T: Drop> From<AllocFailed<T>> for FrontErr {
    ghost use Rattle.std.specs.Prelude.{◌≡◌};
    ghost use Rattle.c_front.specs.declared.front.FrontErr.{FrontErr};

    ghost from_gives = { λ _ e. e ≡ FrontErr.Memory };

    fn from(_: AllocFailed<T>) -> FrontErr {
        FrontErr::Memory
    }
}

// What a refusal of a text's bytes is here.
fn lex_refusal(file: u32, error: &LexErr) -> FrontErr
    ensures { result ≡ lex_err file error.now }
{
    match error {
        LexErr::BadByte(line) => FrontErr::Syntax { file, line: *line },
        LexErr::OpenComment(line) => FrontErr::Syntax { file, line: *line },
        LexErr::OpenText(line) => FrontErr::Syntax { file, line: *line },
        LexErr::NumberTooLarge(line) => FrontErr::Syntax { file, line: *line },
        LexErr::Memory => FrontErr::Memory,
    }
}

// What a refusal of a text's tokens is here.
fn parse_refusal(file: u32, error: &ParseErr) -> FrontErr
    ensures { result ≡ parse_err file error.now }
{
    match error {
        ParseErr::TooDeep(line) => FrontErr::Syntax { file, line: *line },
        ParseErr::NotC(line) => FrontErr::Syntax { file, line: *line },
        ParseErr::Memory => FrontErr::Memory,
    }
}

// The tokens and the unit of a text.
fn read_text(alloc: Global, file: u32, text: &[u8]) -> Result<Source, FrontErr>
    requires counted { length text.now < 4294967295 }
    ensures read { IfOk result (IsSource text.now) }
    ensures none { IfErr result (IsTextErr text.now file) }
{
    let tokens = match lex(alloc, text) {
        Ok(tokens) => tokens,
        Err(error) => return Err(lex_refusal(file, &error)),
    };
    match parse(alloc, &tokens) {
        Ok(unit) => Ok(Source { tokens, unit }),
        Err(error) => Err(parse_refusal(file, &error)),
    }
}

// The tokens and the units of texts.
fn sources(alloc: Global, texts: &[Vec<u8>]) -> Result<Vec<Source>, FrontErr>
    requires few { length texts.now ≤ 10000 }
    requires short { All (λ t. length t.items ≤ 262144) texts.now }
    ensures read { IfOk result (λ v. AllZip IsSource (texts_of texts.now) v.items) }
    ensures none { IfErr result (IsRightErr (texts_of texts.now)) }
{
    let mut list = Vec::new(alloc);
    let mut file = 0;
    for text in texts {
        list.push(read_text(alloc, file, text)?)?;
        file += 1;
    }
    Ok(list)
}

// The typed unit of a unit.
fn typed_unit(alloc: Global, file: u32, unit: &Unit) -> Result<TypedUnit, FrontErr>
    ensures typed { IfOk result (λ t. IsTyped (tree.unit_of unit.now) (typed.unit_of t)) }
    ensures fails { IfErr result (IsUnitErr (tree.unit_of unit.now) file) }
{
    match check(alloc, unit) {
        Ok(typed) => Ok(typed),
        Err(TypeErr::Rule(rule, line)) => Err(FrontErr::Rule { file, line, rule }),
        Err(TypeErr::Memory) => Err(FrontErr::Memory),
    }
}

// The typed units of sources.
fn typed_units(alloc: Global, sources: &[Source]) -> Result<Vec<TypedUnit>, FrontErr>
    requires few { length sources.now ≤ 10000 }
    ensures typed { IfOk result (λ v. AllZip IsTyped (units_of sources.now) (map typed.unit_of v.items)) }
    ensures fails { IfErr result (IsUnitsErr (units_of sources.now)) }
{
    let mut list = Vec::new(alloc);
    let mut file = 0;
    for source in sources {
        list.push(typed_unit(alloc, file, &source.unit)?)?;
        file += 1;
    }
    Ok(list)
}

// What a refusal of the join is here.
fn join_refusal(error: JoinErr) -> FrontErr
    ensures { result ≡ join_refused error }
{
    match error {
        JoinErr::Memory => FrontErr::Memory,
        other => FrontErr::Join(other),
    }
}

/// A program with the sources of its units.
#[derive(Drop)]
pub struct Accepted {
    pub sources: Vec<Source>,
    pub program: Program,
}

/// The program that texts make. There are at most 10,000 of them, each of at most 262,144 bytes.
///
/// `Syntax` comes exactly where no unit reads a text, at the first such text; `Rule` exactly where all are read and a rule
/// fails, with one that fails in the first such file; `Join` where all have typed units and these don't join, at the first
/// check that fails.
pub fn accept(alloc: Global, texts: &[Vec<u8>]) -> Result<Accepted, FrontErr>
    requires few { length texts.now ≤ 10000 }
    requires short { All (λ t. length t.items ≤ 262144) texts.now }
    ensures accepted { IfOk result (λ a. IsAccepted (texts_of texts.now) (typed.program_of a.program)) }
    ensures read { IfOk result (λ a. AllZip IsSource (texts_of texts.now) a.sources.items) }
    ensures refused { IfErr result (IsRightErr (texts_of texts.now)) }
{
    let sources = sources(alloc, texts)?;
    let units = typed_units(alloc, &sources)?;
    match join(alloc, units) {
        Ok(program) => Ok(Accepted { sources, program }),
        Err(error) => Err(join_refusal(error)),
    }
}
