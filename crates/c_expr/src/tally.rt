// The words of which the types of numbers and void are made.
ghost use Rattle.std.specs.Prelude.{◌≡◌};
ghost use Rattle.std.specs.Option.{option_map};
ghost use Rattle.c_tree.specs.TreeOf.{type_spec_of};
ghost use Rattle.c_grammar.specs.WrittenType.{row};
ghost use Rattle.c_expr.specs.Tally.{added, listed, no_words, once_more, word_of};
ghost use Rattle.c_expr.specs.Typename as y;

use c_tree::TypeSpec;
use c_type::Kind;

/// A word that a type may have in it.
#[derive(Clone, Copy, Drop)]
pub enum TypeWord {
    Unsigned,
    Char,
    Short,
    Long,
    Int,
    Void,
}

impl TypeWord {
    /// The word at this place of the list of words.
    pub fn of_word(word: u8) -> Option<TypeWord>
        ensures value { option_map word_of result ≡ y.type_word_of word }
    {
        match word {
            22 => Some(TypeWord::Unsigned),
            3 => Some(TypeWord::Char),
            16 => Some(TypeWord::Short),
            13 => Some(TypeWord::Long),
            12 => Some(TypeWord::Int),
            23 => Some(TypeWord::Void),
            _ => None,
        }
    }
}

/// How often a word was seen.
#[derive(Clone, Copy, Drop)]
pub enum Count {
    Never,
    Once,
    /// twice or more
    Twice,
}

impl Count {
    /// Once more.
    fn more(self) -> Count
        ensures { result ≡ once_more self }
    {
        match self {
            Count::Never => Count::Once,
            Count::Once | Count::Twice => Count::Twice,
        }
    }
}

/// How often each word was seen, in any order.
#[derive(Clone, Copy, Drop)]
pub struct Tally {
    pub unsigned: Count,
    pub char: Count,
    pub short: Count,
    pub long: Count,
    pub int: Count,
    pub void: Count,
}

impl Tally {
    /// No word was seen.
    pub fn new() -> Tally
        ensures empty { result ≡ no_words }
    {
        Tally {
            unsigned: Count::Never,
            char: Count::Never,
            short: Count::Never,
            long: Count::Never,
            int: Count::Never,
            void: Count::Never,
        }
    }

    /// With one more word.
    pub fn with(self, word: TypeWord) -> Tally
        ensures word { result ≡ added (word_of word) self }
    {
        let mut next = self;
        match word {
            TypeWord::Unsigned => next.unsigned = self.unsigned.more(),
            TypeWord::Char => next.char = self.char.more(),
            TypeWord::Short => next.short = self.short.more(),
            TypeWord::Long => next.long = self.long.more(),
            TypeWord::Int => next.int = self.int.more(),
            TypeWord::Void => next.void = self.void.more(),
        }
        next
    }

    /// The type that the words make.
    pub fn types(self) -> Option<TypeSpec>
        ensures value { option_map type_spec_of result ≡ row (listed self) }
    {
        use Count::{Never, Once};
        let kind = match (
            self.unsigned,
            self.char,
            self.short,
            self.long,
            self.int,
            self.void,
        ) {
            (Never, Once, Never, Never, Never, Never) => Kind::Char,
            (Once, Once, Never, Never, Never, Never) => Kind::UChar,
            (Never, Never, Once, Never, Never | Once, Never) => Kind::Short,
            (Once, Never, Once, Never, Never | Once, Never) => Kind::UShort,
            (Never, Never, Never, Once, Never | Once, Never) => Kind::Long,
            (Once, Never, Never, Once, Never | Once, Never) => Kind::ULong,
            (Never, Never, Never, Never, Once, Never) => Kind::Int,
            (Once, Never, Never, Never, Never | Once, Never) => Kind::UInt,
            (Never, Never, Never, Never, Never, Once) => return Some(TypeSpec::Void),
            _ => return None,
        };
        Some(TypeSpec::Num(kind))
    }
}
