// The words before declarators.
ghost use Rattle.std.specs.Prelude.{◌≡◌, ◌+◌, ◌<◌, ◌≤◌, ◌^◌, [], ◌++◌, ◌∷◌, length, map, IfOk, IfErr};
ghost use Rattle.c_tree.specs.TreeOf.{def_of};
ghost use Rattle.c_grammar.specs.Reads.{most};
ghost use Rattle.c_expr.specs.Front as f;
ghost use Rattle.c_expr.specs.declared.error.ParseErr.{ParseErr};
ghost use Rattle.c_decl.specs.Answers.{Gives, found, names, rest};
ghost use Rattle.c_decl.specs.ReadSpecs as s;
ghost use Rattle.c_decl.specs.WordsOf.{start_of, found_of, word_of};

use crate::reader::Reader;
use c_expr::ParseErr;
use c_lex::{Tok, Token};
use c_tree::{Storage, TagDef, TagRef};
use c_type::TagKind;
use num_le::Name;
use std::alloc::Global;

/// A word of which the types of numbers and void are made.
#[derive(Clone, Copy, Debug, Drop, PartialEq, Eq)]
pub enum TypeWord {
    Unsigned,
    Char,
    Short,
    Long,
    Int,
    Void,
}

/// A part of a type: a word, a tag with the line of its name, or a typedef name.
#[derive(Drop)]
pub enum TypePart {
    Word(u32, TypeWord),
    Tag(TagRef, u32),
    Name(u32, Name),
}

/// A word among those before declarators, or a tag's body among them.
#[derive(Drop)]
pub enum Word {
    Storage(Storage),
    Typedef,
    Part(TypePart),
    Body(TagDef),
}

/// What stands among the words, each in its order.
#[derive(Drop)]
pub struct Words {
    pub storages: Vec<Storage>,
    pub typedefs: usize,
    pub parts: Vec<TypePart>,
    pub bodies: Vec<TagDef>,
}

/// What a token among the words begins.
#[derive(Drop)]
pub enum Start<'a> {
    Storage(Storage),
    Typedef,
    Typed(TypeWord),
    Tag(TagKind),
    Named(&'a Name),
    Nothing,
}

fn word_start<'a>(word: u8) -> Start<'a>
    ensures { start_of result ≡ s.word_start word }
{
    match word {
        0 => Start::Storage(Storage::Auto),
        14 => Start::Storage(Storage::Register),
        18 => Start::Storage(Storage::Static),
        9 => Start::Storage(Storage::Extern),
        21 => Start::Typedef,
        22 => Start::Typed(TypeWord::Unsigned),
        3 => Start::Typed(TypeWord::Char),
        16 => Start::Typed(TypeWord::Short),
        13 => Start::Typed(TypeWord::Long),
        12 => Start::Typed(TypeWord::Int),
        23 => Start::Typed(TypeWord::Void),
        19 => Start::Tag(TagKind::Struct),
        8 => Start::Tag(TagKind::Enum),
        _ => Start::Nothing,
    }
}

impl Words {
    pub fn new(alloc: Global) -> Words
        ensures empty { found_of result ≡ s.nothing }
        ensures none { result.typedefs ≡ 0 }
    {
        Words {
            storages: Vec::new(alloc),
            typedefs: 0,
            parts: Vec::new(alloc),
            bodies: Vec::new(alloc),
        }
    }

    /// One word more.
    pub fn add(&mut self, word: Word) -> Result<(), ParseErr>
        requires few { self.old.typedefs < 2 ^ 63 }
        ensures added { IfOk result (λ _. found_of self.new ≡ s.and_word (found_of self.old) (word_of word)) }
        ensures few { self.new.typedefs ≤ self.old.typedefs + 1 }
        ensures memory { IfErr result (λ e. e ≡ ParseErr.Memory) }
    {
        match word {
            Word::Storage(storage) => self.storages.push(storage)?,
            Word::Typedef => self.typedefs += 1,
            Word::Part(part) => self.parts.push(part)?,
            Word::Body(def) => self.bodies.push(def)?,
        }
        Ok(())
    }
}

impl Reader<'_> {
    /// What the token at a place begins.
    pub fn start(&self, at: usize) -> Start<'_>
        ensures { start_of result ≡ s.start_at (names self.now) (rest self.now at) }
    {
        match self.token(at) {
            Some(
                Token {
                    kind: Tok::Name(name),
                    ..
                },
            ) if self.defs.has(name.as_slice()) => Start::Named(name),
            Some(
                Token {
                    kind: Tok::Word(word),
                    ..
                },
            ) => word_start(*word),
            _ => Start::Nothing,
        }
    }

    /// The place behind a token.
    pub fn behind(&self, at: usize) -> usize
        ensures { rest self.now result ≡ s.behind (rest self.now at) }
    {
        match self.token(at) {
            Some(_) => at + 1,
            None => at,
        }
    }
}
