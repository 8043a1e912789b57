// Typenames: types without a tag's body, and stars.
ghost use Rattle.std.specs.Prelude.{◌≡◌, ◌<◌, length};
ghost use Rattle.std.specs.Option.{option_map};
ghost use Rattle.c_tree.specs.TreeOf.{type_name_of, type_spec_of};
ghost use Rattle.c_expr.specs.Front as f;
ghost use Rattle.c_expr.specs.Gives.{Gives};
ghost use Rattle.c_expr.specs.Part as p;
ghost use Rattle.c_expr.specs.Parts.{names};
ghost use Rattle.c_expr.specs.Shown.{left};
ghost use Rattle.c_expr.specs.Tally.{word_of};
ghost use Rattle.c_expr.specs.Typename as y;
ghost use Rattle.c_expr.specs.Types as s;

use crate::error::ParseErr;
use crate::places::{CLOSE_ROUND, OPEN_ROUND, STAR};
use crate::reader::Reader;
use crate::rest::Rest;
use crate::tally::{Tally, TypeWord};
use c_lex::{Tok, Token};
use c_tree::{TagRef, TypeName, TypeSpec};
use c_type::TagKind;
use num_le::Name;

/// A part of a type.
#[derive(Clone, Copy, Drop)]
pub enum Part<'a> {
    Word(TypeWord),
    /// A tag without a body, with the line of its first word.
    Tag(u32, TagKind, &'a [u8]),
    /// A typedef name.
    Named(&'a [u8]),
}

impl Part<'_> {
    /// The word, where the part is one.
    fn word(self) -> Option<TypeWord>
        ensures { option_map word_of result ≡ p.word_in (p.part_of self.entry) }
    {
        match self {
            Part::Word(word) => Some(word),
            Part::Tag(..) | Part::Named(_) => None,
        }
    }
}

/// The kind of tag that begins with the word. A union has no spelling.
fn tag_kind(word: u8) -> Option<TagKind>
    ensures { result ≡ y.tag_of word }
{
    match word {
        19 => Some(TagKind::Struct),
        8 => Some(TagKind::Enum),
        _ => None,
    }
}

/// The stars at the front, and the tokens behind them.
fn stars<'a>(rest: Rest<'a>) -> (usize, Rest<'a>)
    ensures { s.stars_at (left rest.entry) ≡ Some (result.0, left result.1) }
{
    let mut count = 0;
    let mut ahead = rest;
    while let Some(after) = ahead.eat(STAR) {
        count += 1;
        ahead = after;
    }
    (count, ahead)
}

impl<'a> Rest<'a> {
    /// A name, also one that is a typedef name.
    fn any_name(self) -> Option<(&'a [u8], Rest<'a>)>
        ensures { option_map (λ x. (x.0.now, left x.1)) result ≡ f.any_name (left self.entry) }
    {
        match self.tokens {
            [
                Token {
                    kind: Tok::Name(name),
                    ..
                },
                tokens @ ..,
            ] => Some((
                name.as_slice(),
                Rest {
                    tokens,
                    end: self.end,
                },
            )),
            _ => None,
        }
    }
}

/// A part that begins with a word on the line, from behind the word on.
fn word_part<'a>(line: u32, word: u8, after: Rest<'a>) -> Option<(Part<'a>, Rest<'a>)>
    ensures { option_map (λ x. (p.part_of x.0, left x.1)) result ≡ option_map s.plainly (y.part_word line (left after.entry) (y.type_word_of word) (y.tag_of word)) }
{
    if let Some(word) = TypeWord::of_word(word) {
        return Some((Part::Word(word), after));
    }
    let kind = tag_kind(word)?;
    let (name, after) = after.any_name()?;
    Some((Part::Tag(line, kind, name), after))
}

impl Reader<'_> {
    /// The part of a type at the front.
    fn part<'a>(&self, rest: Rest<'a>) -> Option<(Part<'a>, Rest<'a>)>
        ensures { option_map (λ x. (p.part_of x.0, left x.1)) result ≡ option_map s.plainly (y.part_at (names self.now) (left rest.entry)) }
    {
        let [token, tokens @ ..] = rest.tokens else {
            return None;
        };
        let after = Rest {
            tokens,
            end: rest.end,
        };
        match &token.kind {
            Tok::Name(name) if self.defs.has(name.as_slice()) => {
                Some((Part::Named(name.as_slice()), after))
            }
            Tok::Word(word) => word_part(token.line, *word, after),
            _ => None,
        }
    }

    /// Whether a part of a type stands at the front.
    fn is_part(&self, rest: Rest<'_>) -> bool
        ensures { result ≡ y.is_there (y.part_at (names self.now) (left rest.entry)) }
    {
        self.part(rest).is_some()
    }

    /// Whether a type begins at the front.
    fn begins_type(&self, rest: Rest<'_>) -> bool
        ensures { result ≡ y.begins_type (names self.now) (left rest.entry) }
    {
        match rest.tokens {
            [
                Token {
                    kind: Tok::Name(name),
                    ..
                },
                ..
            ] => self.defs.has(name.as_slice()),
            [
                Token {
                    kind: Tok::Word(word),
                    ..
                },
                ..
            ] => TypeWord::of_word(*word).is_some() || tag_kind(*word).is_some(),
            _ => false,
        }
    }

    /// The tokens behind `(`, where a type follows it.
    pub fn type_bracket<'a>(&self, rest: Rest<'a>) -> Option<Rest<'a>>
        ensures { option_map left result ≡ y.type_bracket (names self.now) (left rest.entry) }
    {
        let after = rest.eat(OPEN_ROUND)?;
        if self.begins_type(after) {
            return Some(after);
        }
        None
    }

    /// The type that words make, the first of them having been read.
    fn words<'a>(&self, first: TypeWord, rest: Rest<'a>) -> Option<(TypeSpec, Rest<'a>)>
        ensures { option_map (λ x. (type_spec_of x.0, left x.1)) result ≡ s.types_from (names self.now) (word_of first) (left rest.entry) }
    {
        let mut seen = Tally::new().with(first);
        let mut ahead = rest;
        while let Some((part, after)) = self.part(ahead) {
            let word = part.word()?;
            seen = seen.with(word);
            ahead = after;
        }
        Some((seen.types()?, ahead))
    }

    /// A type, and the tokens behind it.
    fn types<'a>(&self, rest: Rest<'a>) -> Result<(TypeSpec, Rest<'a>), ParseErr>
        ensures { Gives (λ x. (type_spec_of x.0, left x.1)) result (s.types_at (names self.now) (left rest.entry)) }
    {
        let Some((part, after)) = self.part(rest) else {
            return Err(rest.refusal());
        };
        match part {
            Part::Word(word) => match self.words(word, after) {
                Some(found) => Ok(found),
                None => Err(rest.refusal()),
            },
            Part::Tag(line, kind, name) => {
                if self.is_part(after) {
                    return Err(after.refusal());
                }
                let name = Name::of(self.alloc, name)?;
                Ok((TypeSpec::Tag(TagRef { line, kind, name }), after))
            }
            Part::Named(name) => {
                if self.is_part(after) {
                    return Err(after.refusal());
                }
                Ok((TypeSpec::Named(Name::of(self.alloc, name)?), after))
            }
        }
    }

    /// A typename, and the closing bracket behind it.
    pub fn typed<'a>(&self, rest: Rest<'a>) -> Result<(TypeName, Rest<'a>), ParseErr>
        ensures { Gives (λ x. (type_name_of x.0, left x.1)) result (y.typed (names self.now) (left rest.entry)) }
    {
        let line = rest.first_line();
        let (types, after) = self.types(rest)?;
        let (stars, after) = stars(after);
        match after.eat(CLOSE_ROUND) {
            Some(rest) => Ok((TypeName { line, types, stars }, rest)),
            None => Err(after.refusal()),
        }
    }
}
