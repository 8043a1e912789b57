// The type that parts spell: words in any order, a tag or a typedef name.
ghost use Rattle.std.specs.Prelude.{◌≡◌, ◌++◌, ◌∷◌, [], IfOk, map, nat_eq, Some};
ghost use Rattle.c_tree.specs.TreeOf.{part_of, type_spec_of};
ghost use Rattle.c_grammar.specs.Words.{type_word};
ghost use Rattle.c_grammar.specs.WrittenType as t;
ghost use Rattle.c_decl.specs.WordsOf.{type_part_of, type_word_of, words_of};

use crate::words::{TypePart, TypeWord};
use c_tree::TypeSpec;
use c_type::Kind;
use std::alloc::{AllocError, Global};

impl TypeWord {
    /// The place of the word in the list of words.
    fn place(self) -> u8
        ensures { result ≡ type_word (type_word_of self) }
    {
        match self {
            TypeWord::Unsigned => 22,
            TypeWord::Char => 3,
            TypeWord::Short => 16,
            TypeWord::Long => 13,
            TypeWord::Int => 12,
            TypeWord::Void => 23,
        }
    }

    fn is(self, other: TypeWord) -> bool
        ensures { result ≡ nat_eq (type_word (type_word_of self)) (type_word (type_word_of other)) }
    {
        self.place() == other.place()
    }
}

/// The words, where the parts are words alone.
fn words_in(alloc: Global, parts: &[TypePart]) -> Result<Option<Vec<TypeWord>>, AllocError>
    ensures { IfOk result (λ o. part_of words_of o ≡ t.words_in (map type_part_of parts.now)) }
{
    let mut words = Vec::new(alloc);
    for part in parts {
        let TypePart::Word(_, word) = part else {
            return Ok(None);
        };
        words.push(*word)?;
    }
    Ok(Some(words))
}

/// Adds the word as often as it stands among others.
fn add_each(
    word: TypeWord,
    words: &[TypeWord],
    ordered: &mut Vec<TypeWord>,
) -> Result<(), AllocError>
    ensures { IfOk result (λ _. words_of ordered.new ≡ words_of ordered.old ++ t.occurrences (type_word_of word) (map type_word_of words.now)) }
{
    for other in words {
        if other.is(word) {
            ordered.push(word)?;
        }
    }
    Ok(())
}

/// The words in the order that the table of types has them in.
fn in_order(alloc: Global, words: &[TypeWord]) -> Result<Vec<TypeWord>, AllocError>
    ensures { IfOk result (λ v. words_of v ≡ t.in_order (map type_word_of words.now)) }
{
    let mut ordered = Vec::new(alloc);
    add_each(TypeWord::Unsigned, words, &mut ordered)?;
    add_each(TypeWord::Char, words, &mut ordered)?;
    add_each(TypeWord::Short, words, &mut ordered)?;
    add_each(TypeWord::Long, words, &mut ordered)?;
    add_each(TypeWord::Int, words, &mut ordered)?;
    add_each(TypeWord::Void, words, &mut ordered)?;
    Ok(ordered)
}

fn one_word(word: TypeWord) -> TypeSpec
    ensures { part_of type_spec_of (Some result) ≡ t.row (type_word_of word ∷ []) }
{
    match word {
        TypeWord::Unsigned => TypeSpec::Num(Kind::UInt),
        TypeWord::Char => TypeSpec::Num(Kind::Char),
        TypeWord::Short => TypeSpec::Num(Kind::Short),
        TypeWord::Long => TypeSpec::Num(Kind::Long),
        TypeWord::Int => TypeSpec::Num(Kind::Int),
        TypeWord::Void => TypeSpec::Void,
    }
}

fn two_words(first: TypeWord, second: TypeWord) -> Option<TypeSpec>
    ensures { part_of type_spec_of result ≡ t.row (type_word_of first ∷ type_word_of second ∷ []) }
{
    let kind = match (first, second) {
        (TypeWord::Unsigned, TypeWord::Char) => Kind::UChar,
        (TypeWord::Unsigned, TypeWord::Short) => Kind::UShort,
        (TypeWord::Unsigned, TypeWord::Long) => Kind::ULong,
        (TypeWord::Unsigned, TypeWord::Int) => Kind::UInt,
        (TypeWord::Short, TypeWord::Int) => Kind::Short,
        (TypeWord::Long, TypeWord::Int) => Kind::Long,
        _ => return None,
    };
    Some(TypeSpec::Num(kind))
}

fn three_words(first: TypeWord, second: TypeWord, third: TypeWord) -> Option<TypeSpec>
    ensures { part_of type_spec_of result ≡ t.row (type_word_of first ∷ type_word_of second ∷ type_word_of third ∷ []) }
{
    match (first, second, third) {
        (TypeWord::Unsigned, TypeWord::Short, TypeWord::Int) => Some(TypeSpec::Num(Kind::UShort)),
        (TypeWord::Unsigned, TypeWord::Long, TypeWord::Int) => Some(TypeSpec::Num(Kind::ULong)),
        _ => None,
    }
}

/// The type that words make in the order of the table of types.
fn row(ordered: &[TypeWord]) -> Option<TypeSpec>
    ensures { part_of type_spec_of result ≡ t.row (map type_word_of ordered.now) }
{
    match ordered {
        [word] => Some(one_word(*word)),
        [first, second] => two_words(*first, *second),
        [first, second, third] => three_words(*first, *second, *third),
        _ => None,
    }
}

/// The type that parts spell.
pub fn spelled(alloc: Global, parts: Vec<TypePart>) -> Result<Option<TypeSpec>, AllocError>
    ensures types { IfOk result (λ o. part_of type_spec_of o ≡ t.spelled (map type_part_of parts.items)) }
{
    if let Some(words) = words_in(alloc, &parts)? {
        return Ok(row(&in_order(alloc, &words)?));
    }
    if parts.len() != 1 {
        return Ok(None);
    }
    let mut parts = parts;
    match parts.pop() {
        Some(TypePart::Tag(tag, _)) => Ok(Some(TypeSpec::Tag(tag))),
        Some(TypePart::Name(_, name)) => Ok(Some(TypeSpec::Named(name))),
        _ => Ok(None),
    }
}
