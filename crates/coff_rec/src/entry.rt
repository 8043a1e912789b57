// Auxiliary entries: which kind a symbol asks for, and the fields of each kind.
ghost use Rattle.std.specs.Prelude.{◌≡◌, ◌≤◌, ◌+◌, ◌++◌, length};
ghost use Rattle.std.specs.List.{flat_map};
ghost use Rattle.arrayvec.specs.ArrayVec.{array_vec_len};
ghost use Rattle.byteorder.specs.Endian.{little_bytes};
ghost use Rattle.coff_rec.specs.AuxKinds.{is_variable, kind_for};
ghost use Rattle.coff_rec.specs.Records.{piece, with_piece, aux_in, aux_bytes};

use crate::buffer::{Buffer, add_bytes, add16, add32, part, put_bytes};
use crate::codes::{
    C_ARG, C_AUTO, C_BLOCK, C_ENTAG, C_EOS, C_EXT, C_FCN, C_FIELD, C_FILE, C_MOE, C_MOS, C_MOU,
    C_REG, C_STAT, C_STRTAG, C_TPDEF, C_UNTAG,
};
use crate::types::{array_count, has_tag, is_function_type};
use num_le::{get16, get32};

/// Which fields the auxiliary entry of a symbol has.
#[derive(Clone, Copy, Debug, PartialEq, Eq)]
pub enum AuxKind {
    /// The symbol has no auxiliary entry.
    NoEntry,
    /// x_fname.
    File,
    /// x_scnlen, x_nreloc, x_nlinno.
    Section,
    /// x_tagndx, x_fsize, x_lnnoptr, x_endndx.
    Function,
    /// x_size, x_endndx.
    Tag,
    /// x_tagndx, x_size.
    EndOfTag,
    /// x_lnno.
    Body,
    /// x_lnno, x_endndx.
    Block,
    /// x_tagndx, x_size, x_dimen.
    Variable,
}

/// An auxiliary entry: 18 bytes. The fields that its kind doesn't have are 0.
#[derive(Clone, Copy, Debug)]
pub struct AuxRec {
    /// The index of a tag.
    pub x_tagndx: u32,
    /// A line: of `.bf` in the file, of the others from the body's brace, which is 1.
    pub x_lnno: u16,
    /// Bytes of an object or of a tag.
    pub x_size: u16,
    /// Bytes of a function.
    pub x_fsize: u32,
    /// Where the function's line entries begin in the file.
    pub x_lnnoptr: u32,
    /// The index after the tag, the function or the block.
    pub x_endndx: u32,
    /// The dimensions of an array, the outermost first.
    pub x_dimen: [u16; 4],
    pub x_tvndx: u16,
    /// The name of a file, filled up with zero bytes.
    pub x_fname: [u8; 14],
    /// Bytes, relocations and line entries of a section.
    pub x_scnlen: u32,
    pub x_nreloc: u16,
    pub x_nlinno: u16,
}

// An entry without fields.
const BLANK: AuxRec = AuxRec {
    x_tagndx: 0,
    x_lnno: 0,
    x_size: 0,
    x_fsize: 0,
    x_lnnoptr: 0,
    x_endndx: 0,
    x_dimen: [0; 4],
    x_tvndx: 0,
    x_fname: [0; 14],
    x_scnlen: 0,
    x_nreloc: 0,
    x_nlinno: 0,
};

impl AuxRec {
    /// The auxiliary entry at `at` of a symbol of this class and type word. Fields that it doesn't
    /// have are 0.
    #[tactic(auto, unfolding(crate::specs::Records::aux_in))]
    pub fn get(b: &[u8], at: usize, class: u8, ty: u16) -> AuxRec
        requires fits { at + 18 ≤ length b.now }
        ensures fields { result ≡ aux_in (kind_for class ty) (piece at 18 b.now) }
    {
        let b = part(b, at, 18);
        match aux_kind(class, ty) {
            AuxKind::NoEntry => BLANK,
            AuxKind::File => AuxRec {
                x_fname: file_name(b),
                ..BLANK
            },
            AuxKind::Section => AuxRec {
                x_scnlen: get32(b, 0),
                x_nreloc: get16(b, 4),
                x_nlinno: get16(b, 6),
                ..BLANK
            },
            AuxKind::Function => AuxRec {
                x_tagndx: get32(b, 0),
                x_fsize: get32(b, 4),
                x_lnnoptr: get32(b, 8),
                x_endndx: get32(b, 12),
                ..BLANK
            },
            AuxKind::Tag => AuxRec {
                x_size: get16(b, 6),
                x_endndx: get32(b, 12),
                ..BLANK
            },
            AuxKind::EndOfTag => AuxRec {
                x_tagndx: get32(b, 0),
                x_size: get16(b, 6),
                ..BLANK
            },
            AuxKind::Body => AuxRec {
                x_lnno: get16(b, 4),
                ..BLANK
            },
            AuxKind::Block => AuxRec {
                x_lnno: get16(b, 4),
                x_endndx: get32(b, 12),
                ..BLANK
            },
            AuxKind::Variable => AuxRec {
                x_tagndx: get32(b, 0),
                x_size: get16(b, 6),
                x_dimen: [get16(b, 8), get16(b, 10), get16(b, 12), get16(b, 14)],
                ..BLANK
            },
        }
    }

    /// Writes the auxiliary entry of a symbol of this class and type word at `at`: the fields that it
    /// has, and 0 in its other bytes. All other bytes stay.
    pub fn put(&self, b: &mut [u8], at: usize, class: u8, ty: u16)
        requires fits { at + 18 ≤ length b.old }
        ensures bytes { b.new ≡ with_piece at 18 (aux_bytes (kind_for class ty) self.now) b.old }
    {
        put_bytes(b, at, &self.spelled(aux_kind(class, ty)));
    }

    #[tactic(auto, unfolding(crate::specs::Records::aux_bytes))]
    pub(crate) fn spelled(&self, kind: AuxKind) -> Buffer
        ensures bytes { result.items ≡ aux_bytes kind self.now }
        ensures len { array_vec_len result ≡ 18 }
    {
        let mut out = Buffer::new();
        match kind {
            AuxKind::NoEntry => add_bytes(&mut out, &[0; 18]),
            AuxKind::File => {
                add_bytes(&mut out, &self.x_fname);
                add_bytes(&mut out, &[0; 4]);
            }
            AuxKind::Section => {
                add32(&mut out, self.x_scnlen);
                add16(&mut out, self.x_nreloc);
                add16(&mut out, self.x_nlinno);
                add_bytes(&mut out, &[0; 10]);
            }
            AuxKind::Function => {
                add32(&mut out, self.x_tagndx);
                add32(&mut out, self.x_fsize);
                add32(&mut out, self.x_lnnoptr);
                add32(&mut out, self.x_endndx);
                add16(&mut out, 0);
            }
            AuxKind::Tag => {
                add_bytes(&mut out, &[0; 6]);
                add16(&mut out, self.x_size);
                add32(&mut out, 0);
                add32(&mut out, self.x_endndx);
                add16(&mut out, 0);
            }
            AuxKind::EndOfTag => {
                add32(&mut out, self.x_tagndx);
                add16(&mut out, 0);
                add16(&mut out, self.x_size);
                add_bytes(&mut out, &[0; 10]);
            }
            AuxKind::Body => {
                add32(&mut out, 0);
                add16(&mut out, self.x_lnno);
                add_bytes(&mut out, &[0; 12]);
            }
            AuxKind::Block => {
                add32(&mut out, 0);
                add16(&mut out, self.x_lnno);
                add_bytes(&mut out, &[0; 6]);
                add32(&mut out, self.x_endndx);
                add16(&mut out, 0);
            }
            AuxKind::Variable => {
                add32(&mut out, self.x_tagndx);
                add16(&mut out, 0);
                add16(&mut out, self.x_size);
                add_dimensions(&mut out, self.x_dimen);
                add16(&mut out, 0);
            }
        }
        out
    }
}

fn file_name(b: &[u8]) -> [u8; 14]
    requires fits { 14 ≤ length b.now }
    ensures bytes { result ≡ piece 0 14 b.now }
{
    let mut name = [0; 14];
    name.copy_from_slice(&b[0..14]);
    name
}

fn add_dimensions(out: &mut Buffer, dimensions: [u16; 4])
    requires room { array_vec_len out.old + 8 ≤ 40 }
    ensures bytes { out.new.items ≡ out.old.items ++ flat_map (little_bytes 2) dimensions }
    ensures len { array_vec_len out.new ≡ array_vec_len out.old + 8 }
{
    let [a, b, c, d] = dimensions;
    add16(out, a);
    add16(out, b);
    add16(out, c);
    add16(out, d);
}

fn is_variable_class(class: u8) -> bool
    ensures { result ≡ is_variable class }
{
    matches!(
        class,
        C_AUTO | C_EXT | C_STAT | C_REG | C_MOS | C_ARG | C_MOU | C_TPDEF | C_MOE | C_FIELD
    )
}

/// The kind of auxiliary entry that a symbol of this class and type word has.
pub fn aux_kind(class: u8, ty: u16) -> AuxKind
    ensures kind { result ≡ kind_for class ty }
{
    if class == C_FILE {
        AuxKind::File
    } else if class == C_STRTAG || class == C_UNTAG || class == C_ENTAG {
        AuxKind::Tag
    } else if class == C_EOS {
        AuxKind::EndOfTag
    } else if class == C_FCN {
        AuxKind::Body
    } else if class == C_BLOCK {
        AuxKind::Block
    } else if class == C_STAT && ty == 0 {
        AuxKind::Section
    } else if (class == C_EXT || class == C_STAT) && is_function_type(ty) {
        AuxKind::Function
    } else if is_variable_class(class) && (has_tag(ty) || array_count(ty) > 0) {
        AuxKind::Variable
    } else {
        AuxKind::NoEntry
    }
}
