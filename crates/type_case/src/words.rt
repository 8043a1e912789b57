// The types that syms(4) has as examples, and words that say no type.
use c_type::{CType, Kind, TagId};
use std::test::Fail;
use type_word::outermost::outer;
use type_word::{Outer, TypeRec, of_word, word};

/// A word beside which no tag and no dimension stands.
fn plain(word: u16) -> TypeRec {
    TypeRec {
        word,
        tag: 0,
        dims: [0; 4],
    }
}

/// What is said of `char [2][3]`.
fn rows_word() -> TypeRec {
    TypeRec {
        word: 0xF2,
        tag: 0,
        dims: [2, 3, 0, 0],
    }
}

#[test]
fn an_array_of_arrays_has_its_dimensions_outermost_first(rt: HostRuntime) -> Result<(), Fail> {
    let row = CType::Arr(3, Box::new(rt.alloc(), CType::Num(Kind::Char))?);
    let rows = CType::Arr(2, Box::new(rt.alloc(), row)?);
    assert_eq!(rt; word(&rows), rows_word());
    let element = TypeRec {
        word: 0x32,
        tag: 0,
        dims: [3, 0, 0, 0],
    };
    assert_eq!(rt; outer(&rows_word()), Outer::Arr(2, element));
    Ok(())
}

#[test]
fn a_pointer_to_a_structure_has_the_number_of_its_tag(rt: HostRuntime) -> Result<(), Fail> {
    let node = CType::Ptr(Box::new(rt.alloc(), CType::Struct(TagId(7)))?);
    let said = TypeRec {
        word: 0x18,
        tag: 7,
        dims: [0; 4],
    };
    assert_eq!(rt; word(&node), said);
    let target = TypeRec {
        word: 8,
        tag: 7,
        dims: [0; 4],
    };
    assert_eq!(rt; outer(&said), Outer::Ptr(target));
    Ok(())
}

#[test]
fn derivations_stand_outermost_lowest(rt: HostRuntime) -> Result<(), Fail> {
    let function = CType::Fun(Box::new(rt.alloc(), CType::Num(Kind::Int))?);
    assert_eq!(rt; word(&function), plain(0x24));
    let pointer = CType::Ptr(Box::new(rt.alloc(), CType::Num(Kind::Int))?);
    let of_pointer = CType::Fun(Box::new(rt.alloc(), pointer)?);
    let to_function = CType::Ptr(Box::new(rt.alloc(), of_pointer)?);
    assert_eq!(rt; word(&to_function), plain(0x194));
    Ok(())
}

#[test]
fn a_word_is_read_as_its_type(rt: HostRuntime) -> Result<(), Fail> {
    let ty = of_word(rt.alloc(), &rows_word())?.ok_or("no type")?;
    assert_eq!(rt; word(&ty), rows_word());
    let ty = of_word(rt.alloc(), &plain(0x194))?.ok_or("no type")?;
    assert_eq!(rt; word(&ty), plain(0x194));
    assert!(rt; matches!(of_word(rt.alloc(), &plain(0))?, Some(CType::Void)));
    Ok(())
}

#[test]
fn what_says_no_type_is_none(rt: HostRuntime) -> Result<(), Fail> {
    for code in [1, 6, 7, 11, 0x44, 0x34, 0x3FF4] {
        assert!(rt; of_word(rt.alloc(), &plain(code))?.is_none());
    }
    let with_tag = TypeRec {
        word: 4,
        tag: 3,
        dims: [0; 4],
    };
    assert!(rt; of_word(rt.alloc(), &with_tag)?.is_none());
    let with_dimension = TypeRec {
        word: 0x34,
        tag: 0,
        dims: [2, 3, 0, 0],
    };
    assert!(rt; of_word(rt.alloc(), &with_dimension)?.is_none());
    let five_arrays = TypeRec {
        word: 0x3FF4,
        tag: 0,
        dims: [2, 2, 2, 2],
    };
    assert!(rt; of_word(rt.alloc(), &five_arrays)?.is_none());
    Ok(())
}
