// The records of a.out(4), syms(4) and linenum(4), but for auxiliary entries.
ghost use Rattle.std.specs.Prelude.{◌≡◌, ◌≤◌, ◌+◌, length};
ghost use Rattle.arrayvec.specs.ArrayVec.{array_vec_len};
ghost use Rattle.coff_rec.specs.Records.{piece, with_piece, head_in, head_bytes, opt_in, opt_bytes, section_in, section_bytes, reloc_in, reloc_bytes, line_in, line_bytes, symbol_in, symbol_bytes};

use crate::buffer::{
    Buffer, add_bytes, add8, add16, add32, get_name, get_signed16, get8, part, put_bytes,
};
use num_le::{get16, get32};

/// The file header: 20 bytes.
#[derive(Clone, Copy, Debug)]
pub struct FileHead {
    /// The machine, 0x14C.
    pub f_magic: u16,
    /// The number of sections.
    pub f_nscns: u16,
    pub f_timdat: u32,
    /// Where the symbols begin, in bytes from the file's begin.
    pub f_symptr: u32,
    /// The number of symbols and auxiliary entries.
    pub f_nsyms: u32,
    /// The length of the optional header: 28, or 0 where there is none.
    pub f_opthdr: u16,
    pub f_flags: u16,
}

impl FileHead {
    /// The file header at `at`.
    #[tactic(auto, unfolding(crate::specs::Records::head_in))]
    pub fn get(b: &[u8], at: usize) -> FileHead
        requires fits { at + 20 ≤ length b.now }
        ensures fields { result ≡ head_in (piece at 20 b.now) }
    {
        let b = part(b, at, 20);
        FileHead {
            f_magic: get16(b, 0),
            f_nscns: get16(b, 2),
            f_timdat: get32(b, 4),
            f_symptr: get32(b, 8),
            f_nsyms: get32(b, 12),
            f_opthdr: get16(b, 16),
            f_flags: get16(b, 18),
        }
    }

    /// Writes the file header at `at`. All other bytes stay.
    pub fn put(&self, b: &mut [u8], at: usize)
        requires fits { at + 20 ≤ length b.old }
        ensures bytes { b.new ≡ with_piece at 20 (head_bytes self.now) b.old }
    {
        put_bytes(b, at, &self.spelled());
    }

    #[tactic(auto, unfolding(crate::specs::Records::head_bytes))]
    pub(crate) fn spelled(&self) -> Buffer
        ensures bytes { result.items ≡ head_bytes self.now }
        ensures len { array_vec_len result ≡ 20 }
    {
        let mut out = Buffer::new();
        add16(&mut out, self.f_magic);
        add16(&mut out, self.f_nscns);
        add32(&mut out, self.f_timdat);
        add32(&mut out, self.f_symptr);
        add32(&mut out, self.f_nsyms);
        add16(&mut out, self.f_opthdr);
        add16(&mut out, self.f_flags);
        out
    }
}

/// The optional header of an image: 28 bytes.
#[derive(Clone, Copy, Debug)]
pub struct OptHead {
    /// 0413, octal.
    pub magic: u16,
    pub vstamp: u16,
    /// Bytes of .text, .data and .bss.
    pub tsize: u32,
    pub dsize: u32,
    pub bsize: u32,
    /// The address at which the process begins.
    pub entry: u32,
    /// The addresses of .text and .data.
    pub text_start: u32,
    pub data_start: u32,
}

impl OptHead {
    /// The optional header at `at`.
    #[tactic(auto, unfolding(crate::specs::Records::opt_in))]
    pub fn get(b: &[u8], at: usize) -> OptHead
        requires fits { at + 28 ≤ length b.now }
        ensures fields { result ≡ opt_in (piece at 28 b.now) }
    {
        let b = part(b, at, 28);
        OptHead {
            magic: get16(b, 0),
            vstamp: get16(b, 2),
            tsize: get32(b, 4),
            dsize: get32(b, 8),
            bsize: get32(b, 12),
            entry: get32(b, 16),
            text_start: get32(b, 20),
            data_start: get32(b, 24),
        }
    }

    /// Writes the optional header at `at`. All other bytes stay.
    pub fn put(&self, b: &mut [u8], at: usize)
        requires fits { at + 28 ≤ length b.old }
        ensures bytes { b.new ≡ with_piece at 28 (opt_bytes self.now) b.old }
    {
        put_bytes(b, at, &self.spelled());
    }

    #[tactic(auto, unfolding(crate::specs::Records::opt_bytes))]
    pub(crate) fn spelled(&self) -> Buffer
        ensures bytes { result.items ≡ opt_bytes self.now }
        ensures len { array_vec_len result ≡ 28 }
    {
        let mut out = Buffer::new();
        add16(&mut out, self.magic);
        add16(&mut out, self.vstamp);
        add32(&mut out, self.tsize);
        add32(&mut out, self.dsize);
        add32(&mut out, self.bsize);
        add32(&mut out, self.entry);
        add32(&mut out, self.text_start);
        add32(&mut out, self.data_start);
        out
    }
}

/// A section header: 40 bytes.
#[derive(Clone, Copy, Debug)]
pub struct SecHead {
    /// The name, filled up with zero bytes.
    pub s_name: [u8; 8],
    pub s_paddr: u32,
    /// The address of the section's first byte.
    pub s_vaddr: u32,
    /// Bytes of the section.
    pub s_size: u32,
    /// Where its bytes, its relocations and its line entries begin in the file.
    pub s_scnptr: u32,
    pub s_relptr: u32,
    pub s_lnnoptr: u32,
    /// How many relocations and line entries it has.
    pub s_nreloc: u16,
    pub s_nlnno: u16,
    pub s_flags: u32,
}

impl SecHead {
    /// The section header at `at`.
    #[tactic(auto, unfolding(crate::specs::Records::section_in))]
    pub fn get(b: &[u8], at: usize) -> SecHead
        requires fits { at + 40 ≤ length b.now }
        ensures fields { result ≡ section_in (piece at 40 b.now) }
    {
        let b = part(b, at, 40);
        SecHead {
            s_name: get_name(b, 0),
            s_paddr: get32(b, 8),
            s_vaddr: get32(b, 12),
            s_size: get32(b, 16),
            s_scnptr: get32(b, 20),
            s_relptr: get32(b, 24),
            s_lnnoptr: get32(b, 28),
            s_nreloc: get16(b, 32),
            s_nlnno: get16(b, 34),
            s_flags: get32(b, 36),
        }
    }

    /// Writes the section header at `at`. All other bytes stay.
    pub fn put(&self, b: &mut [u8], at: usize)
        requires fits { at + 40 ≤ length b.old }
        ensures bytes { b.new ≡ with_piece at 40 (section_bytes self.now) b.old }
    {
        put_bytes(b, at, &self.spelled());
    }

    #[tactic(auto, unfolding(crate::specs::Records::section_bytes))]
    pub(crate) fn spelled(&self) -> Buffer
        ensures bytes { result.items ≡ section_bytes self.now }
        ensures len { array_vec_len result ≡ 40 }
    {
        let mut out = Buffer::new();
        add_bytes(&mut out, &self.s_name);
        add32(&mut out, self.s_paddr);
        add32(&mut out, self.s_vaddr);
        add32(&mut out, self.s_size);
        add32(&mut out, self.s_scnptr);
        add32(&mut out, self.s_relptr);
        add32(&mut out, self.s_lnnoptr);
        add16(&mut out, self.s_nreloc);
        add16(&mut out, self.s_nlnno);
        add32(&mut out, self.s_flags);
        out
    }
}

/// A relocation: 10 bytes.
#[derive(Clone, Copy, Debug)]
pub struct Reloc {
    /// The address of the field.
    pub r_vaddr: u32,
    /// The index of a symbol.
    pub r_symndx: u32,
    /// R_DIR32 6, R_PCRLONG 024 octal.
    pub r_type: u16,
}

impl Reloc {
    /// The relocation at `at`.
    #[tactic(auto, unfolding(crate::specs::Records::reloc_in))]
    pub fn get(b: &[u8], at: usize) -> Reloc
        requires fits { at + 10 ≤ length b.now }
        ensures fields { result ≡ reloc_in (piece at 10 b.now) }
    {
        let b = part(b, at, 10);
        Reloc {
            r_vaddr: get32(b, 0),
            r_symndx: get32(b, 4),
            r_type: get16(b, 8),
        }
    }

    /// Writes the relocation at `at`. All other bytes stay.
    pub fn put(&self, b: &mut [u8], at: usize)
        requires fits { at + 10 ≤ length b.old }
        ensures bytes { b.new ≡ with_piece at 10 (reloc_bytes self.now) b.old }
    {
        put_bytes(b, at, &self.spelled());
    }

    #[tactic(auto, unfolding(crate::specs::Records::reloc_bytes))]
    pub(crate) fn spelled(&self) -> Buffer
        ensures bytes { result.items ≡ reloc_bytes self.now }
        ensures len { array_vec_len result ≡ 10 }
    {
        let mut out = Buffer::new();
        add32(&mut out, self.r_vaddr);
        add32(&mut out, self.r_symndx);
        add16(&mut out, self.r_type);
        out
    }
}

/// A line entry: 6 bytes.
#[derive(Clone, Copy, Debug)]
pub struct LineRec {
    /// l_symndx, a function's index, where `l_lnno` is 0; otherwise l_paddr, an address.
    pub l_addr: u32,
    /// The line in the function, from 1, or 0.
    pub l_lnno: u16,
}

impl LineRec {
    /// The line entry at `at`.
    #[tactic(auto, unfolding(crate::specs::Records::line_in))]
    pub fn get(b: &[u8], at: usize) -> LineRec
        requires fits { at + 6 ≤ length b.now }
        ensures fields { result ≡ line_in (piece at 6 b.now) }
    {
        let b = part(b, at, 6);
        LineRec {
            l_addr: get32(b, 0),
            l_lnno: get16(b, 4),
        }
    }

    /// Writes the line entry at `at`. All other bytes stay.
    pub fn put(&self, b: &mut [u8], at: usize)
        requires fits { at + 6 ≤ length b.old }
        ensures bytes { b.new ≡ with_piece at 6 (line_bytes self.now) b.old }
    {
        put_bytes(b, at, &self.spelled());
    }

    #[tactic(auto, unfolding(crate::specs::Records::line_bytes))]
    pub(crate) fn spelled(&self) -> Buffer
        ensures bytes { result.items ≡ line_bytes self.now }
        ensures len { array_vec_len result ≡ 6 }
    {
        let mut out = Buffer::new();
        add32(&mut out, self.l_addr);
        add16(&mut out, self.l_lnno);
        out
    }
}

/// A symbol: 18 bytes.
#[derive(Clone, Copy, Debug)]
pub struct SymRec {
    /// The name filled up with zero bytes, or four zero bytes and a place in the string table.
    pub n_name: [u8; 8],
    pub n_value: u32,
    /// The section from 1, or N_UNDEF 0, N_ABS -1, N_DEBUG -2.
    pub n_scnum: i16,
    pub n_type: u16,
    pub n_sclass: u8,
    /// How many auxiliary entries follow.
    pub n_numaux: u8,
}

impl SymRec {
    /// The symbol at `at`.
    #[tactic(auto, unfolding(crate::specs::Records::symbol_in))]
    pub fn get(b: &[u8], at: usize) -> SymRec
        requires fits { at + 18 ≤ length b.now }
        ensures fields { result ≡ symbol_in (piece at 18 b.now) }
    {
        let b = part(b, at, 18);
        SymRec {
            n_name: get_name(b, 0),
            n_value: get32(b, 8),
            n_scnum: get_signed16(b, 12),
            n_type: get16(b, 14),
            n_sclass: get8(b, 16),
            n_numaux: get8(b, 17),
        }
    }

    /// Writes the symbol at `at`. All other bytes stay.
    pub fn put(&self, b: &mut [u8], at: usize)
        requires fits { at + 18 ≤ length b.old }
        ensures bytes { b.new ≡ with_piece at 18 (symbol_bytes self.now) b.old }
    {
        put_bytes(b, at, &self.spelled());
    }

    #[tactic(auto, unfolding(crate::specs::Records::symbol_bytes))]
    pub(crate) fn spelled(&self) -> Buffer
        ensures bytes { result.items ≡ symbol_bytes self.now }
        ensures len { array_vec_len result ≡ 18 }
    {
        let mut out = Buffer::new();
        add_bytes(&mut out, &self.n_name);
        add32(&mut out, self.n_value);
        add16(&mut out, self.n_scnum.cast_unsigned());
        add16(&mut out, self.n_type);
        add8(&mut out, self.n_sclass);
        add8(&mut out, self.n_numaux);
        out
    }
}
