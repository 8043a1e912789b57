// Declarations of parameters and in blocks.
ghost use Rattle.std.specs.Prelude.{◌≡◌, ◌≤◌, IfOk, Some, length, map, suc};
ghost use Rattle.c_tree.specs.TreeDecl.{local_depth, par_depth};
ghost use Rattle.c_tree.specs.TreeOf.{local_of, local_specs_of, par_of, types_of};
ghost use Rattle.c_grammar.specs.Reads.{most};
ghost use Rattle.c_expr.specs.Front as f;
ghost use Rattle.c_lex.specs.Shown.{tokens_of};
ghost use Rattle.c_decl.specs.Answers.{Gives, found, names, rest};
ghost use Rattle.c_decl.specs.Expression.{expression};
ghost use Rattle.c_decl.specs.ReadDecl as e;
ghost use Rattle.c_decl.specs.ReadSpecs as s;
ghost use Rattle.c_decl.specs.WordsOf.{found_of};

use crate::depth::{MAX_DEPTH, local_exceeds, par_exceeds};
use crate::marks::{OPEN_BRACE, REGISTER};
use crate::reader::Reader;
use crate::types::{local_specs, only_types};
use crate::words::Words;
use c_expr::ParseErr;
use c_tree::{LocalDecl, LocalSpecs, ParDecl, Types};

impl Reader<'_> {
    /// The words outside of blocks, among which bodies may stand.
    pub fn file_words(&self, at: usize) -> Result<(Words, usize), ParseErr>
        ensures { Gives (found found_of self.now) result (s.file_words_at (names self.now) most (expression (names self.now)) (rest self.now at)) }
    {
        self.words(self.left(at), at)
    }

    /// A declaration of parameters that is no deeper than the greatest depth.
    fn low_par(&self, par: ParDecl, at: usize) -> Result<(ParDecl, usize), ParseErr>
        ensures { Gives (found par_of self.now) result (f.grown par_depth most (par_of par) (rest self.now at)) }
    {
        if par_exceeds(&par, MAX_DEPTH) {
            return Err(self.refusal(at));
        }
        Ok((par, at))
    }

    /// The type of parameters, and the place behind it.
    fn par_types(&self, at: usize) -> Result<(Types, usize), ParseErr>
        ensures { Gives (found types_of self.now) result (f.along (s.file_words_at (names self.now) most (expression (names self.now)) (rest self.now at)) (λ x. f.paired x.1 (s.only_types x.0))) }
    {
        let (words, behind) = self.file_words(at)?;
        match only_types(self.alloc, words)? {
            Some(types) => Ok((types, behind)),
            None => Err(self.refusal(behind)),
        }
    }

    /// A declaration of parameters behind its type.
    fn par_of_type(
        &self,
        line: u32,
        register: bool,
        types: Types,
        at: usize,
    ) -> Result<(ParDecl, usize), ParseErr>
        ensures { Gives (found par_of self.now) result (e.par_by (names self.now) most (expression (names self.now)) line register (Some (types_of types)) (rest self.now at)) }
    {
        let (declrs, after) = self.ended_declrs(at)?;
        let par = ParDecl {
            line,
            register,
            types,
            declrs,
        };
        self.low_par(par, after)
    }

    /// A declaration of parameters behind its word `register`, if it has it.
    fn par_behind(&self, line: u32, register: bool, at: usize) -> Result<(ParDecl, usize), ParseErr>
        ensures { Gives (found par_of self.now) result (e.par_behind (names self.now) most (expression (names self.now)) line register (rest self.now at)) }
    {
        let (types, behind) = self.par_types(at)?;
        self.par_of_type(line, register, types, behind)
    }

    /// A declaration of parameters.
    fn par(&self, at: usize) -> Result<(ParDecl, usize), ParseErr>
        ensures { Gives (found par_of self.now) result (e.par (names self.now) most (expression (names self.now)) (rest self.now at)) }
    {
        let line = self.line(at);
        match self.eat_word(REGISTER, at) {
            Some(behind) => self.par_behind(line, true, behind),
            None => self.par_behind(line, false, at),
        }
    }

    /// The declarations of parameters up to the opening brace of the block.
    pub fn pars(&self, at: usize) -> Result<(Vec<ParDecl>, usize), ParseErr>
        ensures read { Gives (found (λ v. map par_of v.items) self.now) result (e.pars (names self.now) most (expression (names self.now)) (suc (length (rest self.now at))) (rest self.now at)) }
        ensures within { IfOk result (λ x. x.1 ≤ length (tokens_of self.now.tokens.now)) }
    {
        let mut pars = Vec::new(self.alloc);
        let mut next = at;
        for _turn in 0..self.left(at) + 1 {
            if let Some(_inside) = self.eat(OPEN_BRACE, next) {
                return Ok((pars, next));
            }
            let (par, behind) = self.par(next)?;
            pars.push(par)?;
            next = behind;
        }
        Err(self.refusal(at))
    }

    /// The words of a declaration in a block, and the place behind them.
    #[tactic(auto, unfolding(crate::specs::ReadSpecs::file_words))]
    fn block_specs(&self, at: usize) -> Result<(LocalSpecs, usize), ParseErr>
        ensures { Gives (found local_specs_of self.now) result (f.along (s.words (names self.now) s.no_body (suc (length (rest self.now at))) (rest self.now at)) (λ x. f.paired x.1 (e.local_specs x.0))) }
    {
        let (words, behind) = self.words(0, at)?;
        match local_specs(self.alloc, words)? {
            Some(specs) => Ok((specs, behind)),
            None => Err(self.refusal(behind)),
        }
    }

    /// A declaration in a block that is no deeper than the greatest depth.
    fn low_local(&self, decl: LocalDecl, at: usize) -> Result<(LocalDecl, usize), ParseErr>
        ensures read { Gives (found local_of self.now) result (f.grown local_depth most (local_of decl) (rest self.now at)) }
        ensures place { IfOk result (λ x. x.1 ≡ at) }
    {
        if local_exceeds(&decl, MAX_DEPTH) {
            return Err(self.refusal(at));
        }
        Ok((decl, at))
    }

    /// A declaration in a block behind its words.
    fn local_items(
        &self,
        line: u32,
        specs: LocalSpecs,
        at: usize,
    ) -> Result<(LocalDecl, usize), ParseErr>
        ensures read { Gives (found local_of self.now) result (e.local_by (names self.now) most (expression (names self.now)) line (Some (local_specs_of specs)) (rest self.now at)) }
        ensures within { IfOk result (λ x. x.1 ≤ length (tokens_of self.now.tokens.now)) }
    {
        let (items, after) = self.ended_items(at)?;
        self.low_local(LocalDecl { line, specs, items }, after)
    }

    /// A declaration in a block, up to and with its semicolon.
    pub fn local(&self, at: usize) -> Result<(LocalDecl, usize), ParseErr>
        ensures read { Gives (found local_of self.now) result (e.local (names self.now) most (expression (names self.now)) (rest self.now at)) }
        ensures within { IfOk result (λ x. x.1 ≤ length (tokens_of self.now.tokens.now)) }
    {
        let line = self.line(at);
        let (specs, behind) = self.block_specs(at)?;
        self.local_items(line, specs, behind)
    }
}
