// Declarators.
ghost use Rattle.std.specs.Prelude.{◌≡◌, ◌+◌, length};
ghost use Rattle.c_tree.specs.TreeDecl.{declr_depth};
ghost use Rattle.c_tree.specs.TreeOf.{declr_of, expr_of, part_of};
ghost use Rattle.c_grammar.specs.Reads.{most};
ghost use Rattle.c_expr.specs.Front as f;
ghost use Rattle.c_decl.specs.Answers.{Gives, found, names, rest};
ghost use Rattle.c_decl.specs.Expression.{expression};
ghost use Rattle.c_decl.specs.Separated.{separated};
ghost use Rattle.c_decl.specs.ReadDeclr as r;

use crate::depth::{MAX_DEPTH, declr_exceeds};
use crate::marks::{CLOSE_ROUND, CLOSE_SQUARE, COMMA, OPEN_ROUND, OPEN_SQUARE, STAR};
use crate::names::has_names;
use crate::reader::Reader;
use c_expr::ParseErr;
use c_tree::{Declr, Expr};
use num_le::Name;

impl Reader<'_> {
    /// A declarator that is no deeper than the greatest depth.
    fn low_declr(&self, declr: Declr, at: usize) -> Result<(Declr, usize), ParseErr>
        ensures { Gives (found declr_of self.now) result (f.grown declr_depth most (declr_of declr) (rest self.now at)) }
    {
        if declr_exceeds(&declr, MAX_DEPTH) {
            return Err(self.refusal(at));
        }
        Ok((declr, at))
    }

    /// The dimension behind the opening bracket of an array, if there is one, up to the closing bracket.
    fn dimension(&self, at: usize) -> Result<(Option<Expr>, usize), ParseErr>
        ensures { Gives (found (part_of expr_of) self.now) result (r.dimension_by (names self.now) most (expression (names self.now)) (rest self.now at) (f.eat CLOSE_SQUARE (rest self.now at))) }
    {
        if let Some(after) = self.eat(CLOSE_SQUARE, at) {
            return Ok((None, after));
        }
        let (dimension, behind) = self.expression(1, at)?;
        let after = self.expect(CLOSE_SQUARE, behind)?;
        Ok((Some(dimension), after))
    }

    /// Names with commas between them.
    fn listed_names(&self, at: usize) -> Result<(Vec<Name>, usize), ParseErr>
        ensures { Gives (found (λ v. v.items) self.now) result (separated (f.name_at (names self.now)) (length (rest self.now at)) (rest self.now at)) }
    {
        let mut listed = Vec::new(self.alloc);
        let mut next = at;
        for _turn in 0..self.left(at) {
            let (name, behind) = self.name(next)?;
            listed.push(name)?;
            match self.eat(COMMA, behind) {
                Some(after) => next = after,
                None => return Ok((listed, behind)),
            }
        }
        Err(self.refusal(at))
    }

    /// The names of parameters behind the opening bracket of a function, up to the closing bracket.
    fn parameter_names(&self, at: usize) -> Result<(Vec<Name>, usize), ParseErr>
        ensures { Gives (found (λ v. v.items) self.now) result (r.names_by (names self.now) most (expression (names self.now)) (rest self.now at) (f.eat CLOSE_ROUND (rest self.now at))) }
    {
        if let Some(after) = self.eat(CLOSE_ROUND, at) {
            return Ok((Vec::new(self.alloc), after));
        }
        let (listed, behind) = self.listed_names(at)?;
        let after = self.expect(CLOSE_ROUND, behind)?;
        Ok((listed, after))
    }

    /// What stands in the brackets of a function's suffix: names stand only next to the declared name.
    fn parameters(&self, declr: &Declr, at: usize) -> Result<(Vec<Name>, usize), ParseErr>
        ensures { Gives (found (λ v. v.items) self.now) result (r.params (names self.now) most (expression (names self.now)) (declr_of declr.now) (rest self.now at)) }
    {
        if let Declr::Name(_, _) = declr {
            return self.parameter_names(at);
        }
        let after = self.expect(CLOSE_ROUND, at)?;
        Ok((Vec::new(self.alloc), after))
    }

    /// An array behind its opening bracket.
    fn array(&self, line: u32, inner: Declr, at: usize) -> Result<(Declr, usize), ParseErr>
        ensures { Gives (found declr_of self.now) result (r.array_by (names self.now) most (expression (names self.now)) line (declr_of inner) (rest self.now at)) }
    {
        let (dimension, after) = self.dimension(at)?;
        let declr = Declr::Array(line, Box::new(self.alloc, inner)?, dimension);
        self.low_declr(declr, after)
    }

    /// A function behind its opening bracket.
    fn function(&self, line: u32, inner: Declr, at: usize) -> Result<(Declr, usize), ParseErr>
        ensures { Gives (found declr_of self.now) result (r.function_by (names self.now) most (expression (names self.now)) line (declr_of inner) (rest self.now at)) }
    {
        let (listed, after) = self.parameters(&inner, at)?;
        let declr = Declr::Function(line, Box::new(self.alloc, inner)?, listed);
        self.low_declr(declr, after)
    }

    /// The suffixes of a declarator that begins on the line.
    #[tactic(auto, unfolding(crate::specs::ReadDeclr::suffixes))]
    fn suffixes(&self, line: u32, first: Declr, at: usize) -> Result<(Declr, usize), ParseErr>
        ensures { Gives (found declr_of self.now) result (r.suffixes (names self.now) most (expression (names self.now)) (MAX_DEPTH + 1) line (declr_of first) (rest self.now at)) }
    {
        let mut found = (first, at);
        for _turn in 0..=MAX_DEPTH {
            let (declr, next) = found;
            if let Some(after) = self.eat(OPEN_SQUARE, next) {
                found = self.array(line, declr, after)?;
            } else if let Some(after) = self.eat(OPEN_ROUND, next) {
                found = self.function(line, declr, after)?;
            } else {
                return Ok((declr, next));
            }
        }
        Err(self.refusal(at))
    }

    /// A name, or a declarator in brackets.
    #[cycle(declr)]
    fn direct(&self, nested: usize, stars: u32, at: usize) -> Result<(Declr, usize), ParseErr>
        ensures { Gives (found declr_of self.now) result (r.direct_by (names self.now) most (expression (names self.now)) (r.declr (names self.now) most (expression (names self.now)) nested stars) (rest self.now at) (f.eat OPEN_ROUND (rest self.now at))) }
    {
        if let Some(inside) = self.eat(OPEN_ROUND, at) {
            let (declr, behind) = self.nested_declr(nested, stars, inside)?;
            let after = self.expect(CLOSE_ROUND, behind)?;
            return Ok((declr, after));
        }
        let (name, after) = self.name(at)?;
        Ok((Declr::Name(self.line(at), name), after))
    }

    /// A declarator with at most so many `*`, and with pairs of brackets that stand no deeper in one another.
    #[cycle(declr)]
    #[tactic(auto, unfolding(crate::specs::ReadDeclr::starred))]
    fn starred(&self, nested: usize, stars: u32, at: usize) -> Result<(Declr, usize), ParseErr>
        ensures { Gives (found declr_of self.now) result (r.starred (names self.now) most (expression (names self.now)) (r.declr (names self.now) most (expression (names self.now)) nested) stars (rest self.now at)) }
    {
        let Some(inside) = self.eat(STAR, at) else {
            let (declr, after) = self.direct(nested, stars, at)?;
            return self.suffixes(self.line(at), declr, after);
        };
        if stars == 0 {
            return Err(self.refusal(at));
        }
        let (declr, after) = self.starred(nested, stars - 1, inside)?;
        let pointer = Declr::Pointer(self.line(at), Box::new(self.alloc, declr)?);
        self.low_declr(pointer, after)
    }

    /// A declarator with at most so many `*`, and with fewer pairs of brackets in one another than the number.
    #[cycle(declr)]
    #[tactic(auto, unfolding(crate::specs::ReadDeclr::declr))]
    fn nested_declr(&self, nested: usize, stars: u32, at: usize) -> Result<(Declr, usize), ParseErr>
        ensures { Gives (found declr_of self.now) result (r.declr (names self.now) most (expression (names self.now)) nested stars (rest self.now at)) }
    {
        if nested == 0 {
            return Err(self.refusal(at));
        }
        self.starred(nested - 1, stars, at)
    }

    /// A declarator, in which names of parameters may stand next to the declared name.
    pub fn loose_declr(&self, at: usize) -> Result<(Declr, usize), ParseErr>
        ensures { Gives (found declr_of self.now) result (r.loose_declr (names self.now) most (expression (names self.now)) (rest self.now at)) }
    {
        self.nested_declr(self.left(at) + 1, MAX_DEPTH, at)
    }

    /// A declarator without names of parameters.
    pub fn plain_declr(&self, at: usize) -> Result<(Declr, usize), ParseErr>
        ensures { Gives (found declr_of self.now) result (r.plain_declr (names self.now) most (expression (names self.now)) (rest self.now at)) }
    {
        let (declr, after) = self.loose_declr(at)?;
        if has_names(&declr) {
            return Err(self.refusal(at));
        }
        Ok((declr, after))
    }
}
