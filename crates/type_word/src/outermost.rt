// The outermost constructor of the type that a word says.
ghost use Rattle.std.specs.Prelude.{◌≡◌, ◌==◌, ◌/◌, ◌%◌};
ghost use Rattle.std.specs.List.{list_all};
ghost use Rattle.type_word.specs.Words.{IsRecord};
ghost use Rattle.type_word.specs.Outer.{outer_of, basic_outer, derived_outer, untagged as untagged_lem, without_derivation, without_dimension, OuterIsOutermost};

use crate::code::{
    DT_ARY, DT_FCN, DT_PTR, T_CHAR, T_ENUM, T_INT, T_LONG, T_NULL, T_SHORT, T_STRUCT, T_UCHAR,
    T_UINT, T_ULONG, T_UNION, T_USHORT,
};
use crate::{Outer, TypeRec};
use c_type::Kind;

/// The basic type of a code that has no tag.
fn untagged(code: u16) -> Outer
    ensures { result ≡ untagged_lem code }
{
    match code {
        T_NULL => Outer::Void,
        T_CHAR => Outer::Num(Kind::Char),
        T_SHORT => Outer::Num(Kind::Short),
        T_INT => Outer::Num(Kind::Int),
        T_LONG => Outer::Num(Kind::Long),
        T_UCHAR => Outer::Num(Kind::UChar),
        T_USHORT => Outer::Num(Kind::UShort),
        T_UINT => Outer::Num(Kind::UInt),
        T_ULONG => Outer::Num(Kind::ULong),
        _ => Outer::Bad,
    }
}

/// Whether no dimension is there.
fn is_dimensionless(r: &TypeRec) -> bool
    ensures { result ≡ list_all (λ n. n == 0) r.now.dims }
{
    r.dims.iter().all(|n| *n == 0)
}

/// A record without derivations.
fn basic(r: &TypeRec) -> Outer
    ensures { result ≡ basic_outer r.now }
{
    if !is_dimensionless(r) {
        return Outer::Bad;
    }
    match r.word {
        T_STRUCT => Outer::Struct(r.tag),
        T_UNION => Outer::Union(r.tag),
        T_ENUM => Outer::Enum(r.tag),
        code if r.tag == 0 => untagged(code),
        _ => Outer::Bad,
    }
}

/// The record without its outermost derivation.
fn target(r: &TypeRec) -> TypeRec
    ensures { result ≡ without_derivation r.now }
{
    TypeRec {
        word: r.word % 16 + 16 * (r.word / 64),
        tag: r.tag,
        dims: r.dims,
    }
}

/// The record of an array's element.
fn element(r: &TypeRec) -> TypeRec
    ensures { result ≡ without_dimension r.now }
{
    let [_, second, third, fourth] = r.dims;
    TypeRec {
        word: r.word % 16 + 16 * (r.word / 64),
        tag: r.tag,
        dims: [second, third, fourth, 0],
    }
}

/// The outermost constructor of the type that a word says, by its bits.
pub fn outer(r: &TypeRec) -> Outer
    ensures value { result ≡ outer_of r.now }
    ensures widths { IsRecord r.now }
{
    let first = r.dims[0];
    if r.word < 16 {
        return basic(r);
    }
    match r.word / 16 % 4 {
        DT_PTR => Outer::Ptr(target(r)),
        DT_FCN => Outer::Fun(target(r)),
        DT_ARY if first > 0 => Outer::Arr(u32::from(first), element(r)),
        _ => Outer::Bad,
    }
}

/// What the word of a type says is the type's outermost constructor over the word of what is below it.
pub fn outer_is_outermost()
    ensures law { OuterIsOutermost }
{
    // The law is all that is promised.
}
