// The bytes of a whole file.
ghost use Rattle.std.specs.Prelude.{◌≡◌, ◌≤◌, ◌++◌, length, take, IfOk, OnOk};
ghost use Rattle.std.specs.List.{flat_map};
ghost use Rattle.coff_rec.specs.AuxKinds.{kind_for};
ghost use Rattle.coff_rec.specs.Records.{head_bytes, opt_bytes, section_bytes, reloc_bytes, line_bytes, symbol_bytes, aux_bytes};
ghost use Rattle.coff_rec.specs.Files.{opt_or_none, symbol_table, headers_of, contents_of, file_of, AreShared};

use crate::buffer::Buffer;
use crate::entry::{AuxRec, aux_kind};
use crate::parts::Parts;
use crate::records::{LineRec, OptHead, Reloc, SecHead, SymRec};
use std::alloc::{AllocError, Global};

// A record that stands in a list of its kind.
trait Listed {
    ghost use Rattle.std.specs.Prelude.{ℕ, List};

    ghost bytes: { Self → List ℕ };

    fn listed(&self) -> Buffer
        ensures { result.items ≡ bytes self.now };
}

impl Listed for SecHead {
    ghost bytes = { section_bytes };

    fn listed(&self) -> Buffer {
        self.spelled()
    }
}

impl Listed for Reloc {
    ghost bytes = { reloc_bytes };

    fn listed(&self) -> Buffer {
        self.spelled()
    }
}

impl Listed for LineRec {
    ghost bytes = { line_bytes };

    fn listed(&self) -> Buffer {
        self.spelled()
    }
}

fn add_list<R: Listed>(out: &mut Vec<u8>, list: &[R]) -> Result<(), AllocError>
    ensures { OnOk result (out.new.items ≡ out.old.items ++ flat_map R.bytes list.now) }
{
    for r in list {
        out.extend_from_slice(&r.listed())?;
    }
    Ok(())
}

fn add_opt(out: &mut Vec<u8>, opt: &Option<OptHead>) -> Result<(), AllocError>
    ensures { OnOk result (out.new.items ≡ out.old.items ++ opt_or_none opt.now) }
{
    match opt {
        Some(o) => out.extend_from_slice(&o.spelled()),
        None => Ok(()),
    }
}

// A symbol with its entries.
fn add_symbol(out: &mut Vec<u8>, s: &SymRec, entries: &[AuxRec]) -> Result<(), AllocError>
    ensures { OnOk result (out.new.items ≡ out.old.items ++ (symbol_bytes s.now ++ flat_map (aux_bytes (kind_for s.now.n_sclass s.now.n_type)) entries.now)) }
{
    let kind = aux_kind(s.n_sclass, s.n_type);
    out.extend_from_slice(&s.spelled())?;
    for x in entries {
        out.extend_from_slice(&x.spelled(kind))?;
    }
    Ok(())
}

fn add_symbols(out: &mut Vec<u8>, syms: &[SymRec], auxs: &[AuxRec]) -> Result<(), AllocError>
    requires shared { AreShared syms.now auxs.now }
    ensures { OnOk result (out.new.items ≡ out.old.items ++ symbol_table syms.now auxs.now) }
{
    let mut rest = auxs;
    for s in syms {
        let own = s.n_numaux as usize;
        add_symbol(out, s, &rest[..own])?;
        rest = &rest[own..];
    }
    Ok(())
}

fn add_headers(out: &mut Vec<u8>, parts: &Parts) -> Result<(), AllocError>
    ensures { OnOk result (out.new.items ≡ out.old.items ++ headers_of parts.now) }
{
    out.extend_from_slice(&parts.head.spelled())?;
    add_opt(out, &parts.opt)?;
    add_list(out, parts.secs.as_slice())
}

fn add_contents(out: &mut Vec<u8>, parts: &Parts) -> Result<(), AllocError>
    ensures { OnOk result (out.new.items ≡ out.old.items ++ contents_of parts.now) }
{
    out.extend_from_slice(parts.text.as_slice())?;
    out.extend_from_slice(parts.init.as_slice())?;
    add_list(out, parts.text_relocs.as_slice())?;
    add_list(out, parts.init_relocs.as_slice())?;
    add_list(out, parts.lines.as_slice())
}

/// The file that these parts make: without gaps, in the order of a.out(4), and each symbol followed
/// by as many of the next auxiliary entries as its n_numaux says.
pub fn whole(alloc: Global, parts: &Parts) -> Result<Vec<u8>, AllocError>
    requires shared { AreShared parts.now.syms parts.now.auxs }
    ensures bytes { IfOk result (λ v. v.items ≡ file_of parts.now) }
{
    let mut out = Vec::new(alloc);
    add_headers(&mut out, parts)?;
    add_contents(&mut out, parts)?;
    add_symbols(&mut out, parts.syms.as_slice(), parts.auxs.as_slice())?;
    out.extend_from_slice(parts.strings.as_slice())?;
    Ok(out)
}
