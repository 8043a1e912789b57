// The words before declarators, and the bodies of tags among them.
ghost use Rattle.std.specs.Prelude.{◌≡◌, length, map};
ghost use Rattle.c_tree.specs.TreeDecl.{def_depth, en_depth, mem_depth, struct};
ghost use Rattle.c_tree.specs.TreeOf.{def_of, en_of, mem_of, mems_from, part_of};
ghost use Rattle.c_grammar.specs.Reads.{most};
ghost use Rattle.c_expr.specs.Front as f;
ghost use Rattle.c_decl.specs.Answers.{Gives, found, names, rest};
ghost use Rattle.c_decl.specs.Expression.{expression};
ghost use Rattle.c_decl.specs.Separated.{separated};
ghost use Rattle.c_decl.specs.ReadSpecs as s;
ghost use Rattle.c_decl.specs.WordsOf.{found_of, word_of};

use crate::depth::{MAX_DEPTH, def_exceeds, en_exceeds, mem_exceeds};
use crate::marks::{CLOSE_BRACE, COMMA, EQUALS, OPEN_BRACE, SEMICOLON};
use crate::reader::Reader;
use crate::types::only_types;
use crate::words::{Start, TypePart, Word, Words};
use c_expr::ParseErr;
use c_tree::{En, Mem, TagDef, TagRef};
use c_type::TagKind;
use num_le::Name;

impl Reader<'_> {
    /// An enumerator that is no deeper than the greatest depth.
    fn low_en(&self, en: En, at: usize) -> Result<(En, usize), ParseErr>
        ensures { Gives (found en_of self.now) result (f.grown en_depth most (en_of en) (rest self.now at)) }
    {
        if en_exceeds(&en, MAX_DEPTH) {
            return Err(self.refusal(at));
        }
        Ok((en, at))
    }

    /// A name, and its value if it is given.
    fn en(&self, at: usize) -> Result<(En, usize), ParseErr>
        ensures { Gives (found en_of self.now) result (s.en (names self.now) most (expression (names self.now)) (rest self.now at)) }
    {
        let line = self.line(at);
        let (name, behind) = self.name(at)?;
        let Some(given) = self.eat(EQUALS, behind) else {
            let en = En {
                line,
                name,
                value: None,
            };
            return self.low_en(en, behind);
        };
        let (value, after) = self.expression(3, given)?;
        let en = En {
            line,
            name,
            value: Some(value),
        };
        self.low_en(en, after)
    }

    /// Enumerators with commas between them.
    fn ens(&self, at: usize) -> Result<(Vec<En>, usize), ParseErr>
        ensures { Gives (found (λ v. map en_of v.items) self.now) result (separated (s.en (names self.now) most (expression (names self.now))) (length (rest self.now at)) (rest self.now at)) }
    {
        let mut ens = Vec::new(self.alloc);
        let mut next = at;
        for _turn in 0..self.left(at) {
            let (en, behind) = self.en(next)?;
            ens.push(en)?;
            match self.eat(COMMA, behind) {
                Some(after) => next = after,
                None => return Ok((ens, behind)),
            }
        }
        Err(self.refusal(at))
    }

    /// A tag's body that is no deeper than the greatest depth.
    fn low_def(&self, def: TagDef, at: usize) -> Result<(TagDef, usize), ParseErr>
        ensures { Gives (found def_of self.now) result (f.grown def_depth most (def_of def) (rest self.now at)) }
    {
        if def_exceeds(&def, MAX_DEPTH) {
            return Err(self.refusal(at));
        }
        Ok((def, at))
    }

    /// An enumeration behind its opening brace.
    fn enumeration(
        &self,
        line: u32,
        name: Option<Name>,
        at: usize,
    ) -> Result<(TagDef, usize), ParseErr>
        ensures { Gives (found def_of self.now) result (s.enum_by (names self.now) most (expression (names self.now)) line name (rest self.now at)) }
    {
        let (ens, behind) = self.ens(at)?;
        let after = self.expect(CLOSE_BRACE, behind)?;
        self.low_def(TagDef::Enum(line, name, ens), after)
    }

    /// A structure with these members.
    fn structure(
        &self,
        line: u32,
        name: Option<Name>,
        mems: Vec<Mem>,
        at: usize,
    ) -> Result<(TagDef, usize), ParseErr>
        ensures { Gives (found def_of self.now) result (f.grown def_depth most (struct line name (mems_from mems.items)) (rest self.now at)) }
    {
        self.low_def(TagDef::Struct(line, name, mems), at)
    }

    /// A declaration of members that is no deeper than the greatest depth.
    fn low_mem(&self, mem: Mem, at: usize) -> Result<(Mem, usize), ParseErr>
        ensures { Gives (found mem_of self.now) result (f.grown mem_depth most (mem_of mem) (rest self.now at)) }
    {
        if mem_exceeds(&mem, MAX_DEPTH) {
            return Err(self.refusal(at));
        }
        Ok((mem, at))
    }

    /// A declaration of members behind its words.
    fn mem_behind(&self, line: u32, words: Words, at: usize) -> Result<(Mem, usize), ParseErr>
        ensures { Gives (found mem_of self.now) result (s.mem_by (names self.now) most (expression (names self.now)) line (s.only_types (found_of words)) (rest self.now at)) }
    {
        let Some(types) = only_types(self.alloc, words)? else {
            return Err(self.refusal(at));
        };
        let (declrs, behind) = self.declrs(at)?;
        let after = self.expect(SEMICOLON, behind)?;
        let mem = Mem {
            line,
            types,
            declrs,
        };
        self.low_mem(mem, after)
    }

    /// A declaration of members.
    #[cycle(words)]
    fn mem(&self, nested: usize, at: usize) -> Result<(Mem, usize), ParseErr>
        ensures { Gives (found mem_of self.now) result (s.mem (names self.now) most (expression (names self.now)) (s.file_words (names self.now) most (expression (names self.now)) nested) (rest self.now at)) }
    {
        let (words, behind) = self.words(nested, at)?;
        self.mem_behind(self.line(at), words, behind)
    }

    /// The declarations of members up to the closing brace.
    #[cycle(words)]
    fn mems(&self, nested: usize, at: usize) -> Result<(Vec<Mem>, usize), ParseErr>
        ensures { Gives (found (λ v. mems_from v.items) self.now) result (s.mems (names self.now) most (expression (names self.now)) (s.file_words (names self.now) most (expression (names self.now)) nested) (length (rest self.now at)) (rest self.now at)) }
    {
        let mut mems = Vec::new(self.alloc);
        let mut next = at;
        for _turn in 0..self.left(at) {
            let (mem, behind) = self.mem(nested, next)?;
            mems.push(mem)?;
            if let Some(after) = self.eat(CLOSE_BRACE, behind) {
                return Ok((mems, after));
            }
            next = behind;
        }
        Err(self.refusal(at))
    }

    /// A tag's body behind its opening brace, in which fewer bodies stand in one another than the number.
    #[cycle(words)]
    fn body(
        &self,
        nested: usize,
        kind: TagKind,
        line: u32,
        name: Option<Name>,
        at: usize,
    ) -> Result<(TagDef, usize), ParseErr>
        ensures { Gives (found def_of self.now) result (s.body_at (names self.now) most (expression (names self.now)) nested kind line name (rest self.now at)) }
    {
        if nested == 0 {
            return Err(self.refusal(at));
        }
        match kind {
            TagKind::Struct => {
                let (mems, after) = self.mems(nested - 1, at)?;
                self.structure(line, name, mems, after)
            }
            TagKind::Union => Err(self.refusal(at)),
            TagKind::Enum => self.enumeration(line, name, at),
        }
    }

    /// A tag's body as a word.
    #[cycle(words)]
    fn body_word(
        &self,
        nested: usize,
        kind: TagKind,
        line: u32,
        name: Option<Name>,
        at: usize,
    ) -> Result<(Option<Word>, usize), ParseErr>
        ensures { Gives (found (part_of word_of) self.now) result (s.word_body (names self.now) (s.body_at (names self.now) most (expression (names self.now)) nested) kind line name (rest self.now at)) }
    {
        let (def, after) = self.body(nested, kind, line, name, at)?;
        Ok((Some(Word::Body(def)), after))
    }

    /// A tag behind its word, with or without a body.
    #[cycle(words)]
    fn tagged(
        &self,
        nested: usize,
        kind: TagKind,
        line: u32,
        at: usize,
    ) -> Result<(Option<Word>, usize), ParseErr>
        ensures { Gives (found (part_of word_of) self.now) result (s.tagged_by (names self.now) (s.body_at (names self.now) most (expression (names self.now)) nested) kind line (rest self.now at) (f.any_name (rest self.now at))) }
    {
        let Some((tag, behind)) = self.any_name(at) else {
            let inside = self.expect(OPEN_BRACE, at)?;
            return self.body_word(nested, kind, line, None, inside);
        };
        let name = Name::of(self.alloc, tag.as_slice())?;
        if let Some(inside) = self.eat(OPEN_BRACE, behind) {
            return self.body_word(nested, kind, line, Some(name), inside);
        }
        let part = TypePart::Tag(TagRef { line, kind, name }, self.line(at));
        Ok((Some(Word::Part(part)), behind))
    }

    /// The word at a place, or none where none stands there.
    #[cycle(words)]
    fn word(&self, nested: usize, at: usize) -> Result<(Option<Word>, usize), ParseErr>
        ensures { Gives (found (part_of word_of) self.now) result (s.word (names self.now) (s.body_at (names self.now) most (expression (names self.now)) nested) (rest self.now at)) }
    {
        let line = self.line(at);
        let word = match self.start(at) {
            Start::Storage(storage) => Word::Storage(storage),
            Start::Typedef => Word::Typedef,
            Start::Typed(word) => Word::Part(TypePart::Word(line, word)),
            Start::Tag(kind) => return self.tagged(nested, kind, line, self.behind(at)),
            Start::Named(name) => {
                Word::Part(TypePart::Name(line, Name::of(self.alloc, name.as_slice())?))
            }
            Start::Nothing => return Ok((None, at)),
        };
        Ok((Some(word), self.behind(at)))
    }

    /// The words at a place, as many as there are, with bodies that stand no deeper in one another than the number.
    #[cycle(words)]
    pub fn words(&self, nested: usize, at: usize) -> Result<(Words, usize), ParseErr>
        ensures { Gives (found found_of self.now) result (s.file_words (names self.now) most (expression (names self.now)) nested (rest self.now at)) }
    {
        let mut words = Words::new(self.alloc);
        let mut next = at;
        for _turn in 0..self.left(at) + 1 {
            let (word, behind) = self.word(nested, next)?;
            let Some(word) = word else {
                return Ok((words, behind));
            };
            words.add(word)?;
            next = behind;
        }
        Err(self.refusal(at))
    }
}
