// The lines of the starts of a file, in a program built by hand.
ghost use Rattle.std.specs.Prelude.{◌≡◌, IfOk, length};

use c_tree::{Program, TBlock, TExpr, TExt, TFunc, TSpec, TStmt, TypedUnit, starts};
use c_type::{CType, Kind, Tags};
use num_le::Name;
use std::alloc::{AllocError, Global};
use std::test::Fail;

fn int() -> CType {
    CType::Num(Kind::Int)
}

/// `{ for (;;) 1; return; }`, over six lines.
fn body(alloc: Global) -> Result<TBlock, AllocError> {
    let mut stmts = Vec::new(alloc);
    let step = TStmt::Expr(4, 5, TExpr::Int(int(), 1));
    stmts.push(TStmt::For(1, 4, None, None, None, Box::new(alloc, step)?))?;
    stmts.push(TStmt::Return(5, 6, None))?;
    Ok(TBlock {
        line: 2,
        locals: Vec::new(alloc),
        stmts,
        close_line: 7,
    })
}

/// `main() BODY`
fn function(alloc: Global, name: Name, body: TBlock) -> TFunc {
    TFunc {
        name,
        is_static: false,
        result: int(),
        params: Vec::new(alloc),
        declared: Vec::new(alloc),
        open: 0,
        body,
        close: 6,
    }
}

/// A unit with one such function.
fn unit(alloc: Global) -> Result<TypedUnit, AllocError> {
    let name = Name::of(alloc, b"main")?;
    let func = function(alloc, name, body(alloc)?);
    let mut exts = Vec::new(alloc);
    exts.push(TExt::Func(TSpec::Plain(int()), func))?;
    Ok(TypedUnit {
        tags: Tags {
            list: Vec::new(alloc),
        },
        texts: Vec::new(alloc),
        exts,
    })
}

/// The program of one unit.
fn program(alloc: Global, unit: TypedUnit) -> Result<Program, AllocError>
    ensures one_file { IfOk result (λ p. length p.units.items ≡ 1) }
{
    let mut units = Vec::new(alloc);
    units.push(unit)?;
    Ok(Program {
        units,
        classes: Vec::new(alloc),
    })
}

#[test]
fn a_for_has_three_starts(rt: HostRuntime) -> Result<(), Fail> {
    let unit = unit(rt.alloc())?;
    let p = program(rt.alloc(), unit)?;
    let lines = starts(rt.alloc(), &p, 0)?;
    assert_eq!(rt; lines.as_slice(), [2, 4, 4, 4, 5, 6, 7].as_slice());
    Ok(())
}
