// The word of a type.
ghost use Rattle.std.specs.Prelude.{◌≡◌, ◌<◌};
ghost use Rattle.c_type.specs.Of.{type_of};
ghost use Rattle.type_word.specs.Words.{word_of, HasWord};
ghost use Rattle.type_word.specs.Parts.{basic as basic_lem, with_derivation, array_of};

use crate::TypeRec;
use crate::code::{DT_ARY, DT_FCN, DT_PTR, T_ENUM, T_NULL, T_STRUCT, T_UNION, kind_code};
use c_type::CType;

/// The record of a basic type.
fn basic(code: u16, tag: u32) -> TypeRec
    ensures { result ≡ basic_lem code tag }
{
    TypeRec {
        word: code,
        tag,
        dims: [0; 4],
    }
}

/// The record of a type that is derived from another, whose record is given.
fn derived(derivation: u16, r: TypeRec) -> TypeRec
    requires pair { derivation < 4 }
    requires room { r.word < 16384 }
    ensures { result ≡ with_derivation derivation r }
{
    let dims = r.dims;
    TypeRec {
        word: r.word % 16 + 16 * derivation + 64 * (r.word / 16),
        tag: r.tag,
        dims,
    }
}

/// The record of an array of n elements, where that of its element is given.
fn array(n: u16, r: TypeRec) -> TypeRec
    requires { r.word < 16384 }
    ensures { result ≡ array_of n r }
{
    let [first, second, third, _] = r.dims;
    let whole = derived(DT_ARY, r);
    TypeRec {
        word: whole.word,
        tag: whole.tag,
        dims: [n, first, second, third],
    }
}

/// The word of a type of at most 6 derivations, of which at most 4 are arrays, each of 1 to 65,535 elements.
pub fn word(ty: &CType) -> TypeRec
    requires { HasWord (type_of ty.now) }
    ensures { result ≡ word_of (type_of ty.now) }
{
    match ty {
        CType::Num(kind) => basic(kind_code(*kind), 0),
        CType::Void => basic(T_NULL, 0),
        CType::Struct(tag) => basic(T_STRUCT, tag.0),
        CType::Union(tag) => basic(T_UNION, tag.0),
        CType::Enum(tag) => basic(T_ENUM, tag.0),
        CType::Ptr(target) => derived(DT_PTR, word(target)),
        CType::Fun(outcome) => derived(DT_FCN, word(outcome)),
        CType::Arr(n, element) => array(*n as u16, word(element)),
    }
}
