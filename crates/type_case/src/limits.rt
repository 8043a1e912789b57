// Small programs at a limit and past it.
ghost use Rattle.std.specs.Prelude.{◌≡◌, length, IfOk};

use c_limit::{LimitErr, frames_fit, names_fit, temporaries_fit, texts_fit};
use c_tree::{
    Bound, Program, TBlock, TDeclr, TExt, TFunc, TItem, TLocal, TLocalDecl, TSpec, TypedUnit,
};
use c_type::{CType, Kind, Tags};
use num_le::Name;
use std::alloc::{AllocError, Global};
use std::test::Fail;

/// `x` with a type.
fn declarator(alloc: Global, ty: CType) -> Result<TDeclr, AllocError> {
    Ok(TDeclr {
        name: Name::of(alloc, b"x")?,
        ty,
        dims: Vec::new(alloc),
    })
}

/// `f() { x }` on one line, where x has a type.
fn function(alloc: Global, ty: CType) -> Result<TFunc, AllocError> {
    let mut items = Vec::new(alloc);
    items.push(TLocal::Auto(declarator(alloc, ty)?, 0))?;
    let mut locals = Vec::new(alloc);
    locals.push(TLocalDecl { items })?;
    Ok(TFunc {
        name: Name::of(alloc, b"f")?,
        is_static: false,
        result: CType::Num(Kind::Int),
        params: Vec::new(alloc),
        declared: Vec::new(alloc),
        open: 0,
        body: TBlock {
            line: 1,
            locals,
            stmts: Vec::new(alloc),
            close_line: 1,
        },
        close: 1,
    })
}

/// A program of one part.
fn program(alloc: Global, ext: TExt) -> Result<Program, AllocError>
    ensures { IfOk result (λ p. length p.units.items ≡ 1) }
{
    let mut exts = Vec::new(alloc);
    exts.push(ext)?;
    let mut units = Vec::new(alloc);
    units.push(TypedUnit {
        tags: Tags {
            list: Vec::new(alloc),
        },
        texts: Vec::new(alloc),
        exts,
    })?;
    Ok(Program {
        units,
        classes: Vec::new(alloc),
    })
}

/// An array of characters.
fn characters(alloc: Global, count: u32) -> Result<CType, AllocError> {
    Ok(CType::Arr(count, Box::new(alloc, CType::Num(Kind::Char))?))
}

/// `T x;` at file level.
fn object(alloc: Global, ty: CType) -> Result<TExt, AllocError> {
    let mut items = Vec::new(alloc);
    items.push(TItem {
        declr: declarator(alloc, ty)?,
        bound: Bound::Outside,
        init: None,
    })?;
    Ok(TExt::Object(TSpec::Plain(CType::Num(Kind::Char)), items))
}

#[test]
fn an_array_of_65535_bytes_and_one_more(rt: HostRuntime) -> Result<(), Fail> {
    let most = object(rt.alloc(), characters(rt.alloc(), 65535)?)?;
    let p = program(rt.alloc(), most)?;
    assert!(rt; names_fit(rt.alloc(), &p).is_ok());
    let more = object(rt.alloc(), characters(rt.alloc(), 65536)?)?;
    let p = program(rt.alloc(), more)?;
    let Err(LimitErr::Object(name)) = names_fit(rt.alloc(), &p) else {
        return Err("no refusal".into());
    };
    assert!(rt; name.is(b"x"));
    Ok(())
}

#[test]
fn texts_of_131000_bytes_and_one_more(rt: HostRuntime) -> Result<(), Fail> {
    let ext = object(rt.alloc(), CType::Num(Kind::Int))?;
    let p = program(rt.alloc(), ext)?;
    assert!(rt; texts_fit(rt.alloc(), &p, &[131000]).is_ok());
    assert!(rt;
        matches!(
            texts_fit(rt.alloc(), &p, &[1, 131000]),
            Err(LimitErr::Total)
        )
    );
    Ok(())
}

#[test]
fn a_frame_of_16777216_bytes_and_one_more(rt: HostRuntime) -> Result<(), Fail> {
    let plain = TSpec::Plain(CType::Num(Kind::Int));
    let func = function(rt.alloc(), characters(rt.alloc(), 16776960)?)?;
    let p = program(rt.alloc(), TExt::Func(plain, func))?;
    assert!(rt; frames_fit(rt.alloc(), &p).is_ok());
    assert!(rt; temporaries_fit(rt.alloc(), &p).is_ok());
    let plain = TSpec::Plain(CType::Num(Kind::Int));
    let func = function(rt.alloc(), characters(rt.alloc(), 16776961)?)?;
    let p = program(rt.alloc(), TExt::Func(plain, func))?;
    assert!(rt; matches!(frames_fit(rt.alloc(), &p), Err(LimitErr::Frame(_))));
    Ok(())
}
