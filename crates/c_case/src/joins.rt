#![tactic(none)]
// Units built by hand, as the checker makes them of the texts in the comments.
use c_tree::{Program, TBlock, TExt, TFunc, TSpec, TypedUnit};
use c_type::{CType, Kind, Tags};
use c_whole::{JoinErr, join, join_part};
use num_le::Name;
use std::alloc::{AllocError, Global};
use std::test::Fail;

/// `name() { }` on one line.
fn function(alloc: Global, name: Name) -> TFunc {
    TFunc {
        name,
        is_static: false,
        result: CType::Num(Kind::Int),
        params: Vec::new(alloc),
        declared: Vec::new(alloc),
        open: 0,
        body: TBlock {
            line: 1,
            locals: Vec::new(alloc),
            stmts: Vec::new(alloc),
            close_line: 1,
        },
        close: 2,
    }
}

/// A unit with one such function.
fn file(alloc: Global, name: &[u8]) -> Result<TypedUnit, AllocError> {
    let name = Name::of(alloc, name)?;
    let int = TSpec::Plain(CType::Num(Kind::Int));
    let mut exts = Vec::new(alloc);
    exts.push(TExt::Func(int, function(alloc, name)))?;
    Ok(TypedUnit {
        tags: Tags {
            list: Vec::new(alloc),
        },
        texts: Vec::new(alloc),
        exts,
    })
}

/// Two such units.
fn files(alloc: Global, first: &[u8], second: &[u8]) -> Result<Vec<TypedUnit>, AllocError> {
    let mut units = Vec::new(alloc);
    units.push(file(alloc, first)?)?;
    units.push(file(alloc, second)?)?;
    Ok(units)
}

fn is_joined(answer: &Result<Program, JoinErr>) -> bool {
    matches!(answer, Ok(_))
}

fn is_twice(answer: &Result<Program, JoinErr>, name: &[u8]) -> bool {
    match answer {
        Err(JoinErr::Twice(x)) => x.is(name),
        _ => false,
    }
}

// no file
fn nothing(alloc: Global) -> bool {
    let whole = join(alloc, Vec::new(alloc));
    let part = join_part(alloc, Vec::new(alloc));
    matches!(&whole, Err(JoinErr::NoMain)) && is_joined(&part)
}

#[test]
#[tactic(auto)]
fn nothing_has_no_main(rt: HostRuntime) -> Result<(), Fail> {
    assert!(rt; nothing(rt.alloc()));
    Ok(())
}

// `main() { }` and `f() { }`
fn main_and_f(alloc: Global) -> Result<bool, AllocError> {
    let units = files(alloc, b"main", b"f")?;
    Ok(is_joined(&join(alloc, units)))
}

#[test]
#[tactic(auto)]
fn two_files_are_joined(rt: HostRuntime) -> Result<(), Fail> {
    assert!(rt; main_and_f(rt.alloc())?);
    Ok(())
}

// `putchar() { }` and `main() { }`
fn own_putchar(alloc: Global) -> Result<bool, AllocError> {
    let units = files(alloc, b"putchar", b"main")?;
    Ok(is_twice(&join(alloc, units), b"putchar"))
}

#[test]
#[tactic(auto)]
fn the_library_is_defined(rt: HostRuntime) -> Result<(), Fail> {
    assert!(rt; own_putchar(rt.alloc())?);
    Ok(())
}
