// Lists of declarators, initialisers, and declarators with their initialisers.
ghost use Rattle.std.specs.Prelude.{◌≡◌, ◌+◌, ◌≤◌, IfOk, Some, length, map};
ghost use Rattle.c_lex.specs.Shown.{tokens_of};
ghost use Rattle.c_tree.specs.TreeDecl.{init_depth, item_depth, group};
ghost use Rattle.c_tree.specs.TreeOf.{declr_of, init_of, inits_from, item_of, part_of};
ghost use Rattle.c_grammar.specs.Reads.{most};
ghost use Rattle.c_expr.specs.Front as f;
ghost use Rattle.c_decl.specs.Answers.{Gives, found, names, rest};
ghost use Rattle.c_decl.specs.Expression.{expression};
ghost use Rattle.c_decl.specs.Separated.{separated};
ghost use Rattle.c_decl.specs.ReadDeclr as r;
ghost use Rattle.c_decl.specs.ReadInit as i;

use crate::depth::{MAX_DEPTH, init_exceeds, item_exceeds};
use crate::marks::{CLOSE_BRACE, COMMA, EQUALS, OPEN_BRACE, SEMICOLON};
use crate::reader::Reader;
use c_expr::ParseErr;
use c_tree::{Declr, Init, Item};

impl Reader<'_> {
    /// Declarators without names of parameters, with commas between them.
    pub fn declrs(&self, at: usize) -> Result<(Vec<Declr>, usize), ParseErr>
        ensures { Gives (found (λ v. map declr_of v.items) self.now) result (separated (r.plain_declr (names self.now) most (expression (names self.now))) (length (rest self.now at)) (rest self.now at)) }
    {
        let mut declrs = Vec::new(self.alloc);
        let mut next = at;
        for _turn in 0..self.left(at) {
            let (declr, behind) = self.plain_declr(next)?;
            declrs.push(declr)?;
            match self.eat(COMMA, behind) {
                Some(after) => next = after,
                None => return Ok((declrs, behind)),
            }
        }
        Err(self.refusal(at))
    }

    /// An initialiser that is no deeper than the greatest depth.
    fn low_init(&self, init: Init, at: usize) -> Result<(Init, usize), ParseErr>
        ensures { Gives (found init_of self.now) result (f.grown init_depth most (init_of init) (rest self.now at)) }
    {
        if init_exceeds(&init, MAX_DEPTH) {
            return Err(self.refusal(at));
        }
        Ok((init, at))
    }

    /// A group that is no deeper than the greatest depth.
    fn group(&self, line: u32, members: Vec<Init>, at: usize) -> Result<(Init, usize), ParseErr>
        ensures { Gives (found init_of self.now) result (f.grown init_depth most (group line (inits_from members.items)) (rest self.now at)) }
    {
        self.low_init(Init::Group(line, members), at)
    }

    /// What follows a member of a group: a further member, or none and the closing brace.
    #[cycle(init)]
    fn next_init(&self, nested: u32, at: usize) -> Result<(Option<Init>, usize), ParseErr>
        ensures { Gives (found (part_of init_of) self.now) result (i.next_init (names self.now) most (expression (names self.now)) (i.init (names self.now) most (expression (names self.now)) nested) (rest self.now at)) }
    {
        let Some(behind) = self.eat(COMMA, at) else {
            return Ok((None, self.expect(CLOSE_BRACE, at)?));
        };
        if let Some(after) = self.eat(CLOSE_BRACE, behind) {
            return Ok((None, after));
        }
        let (init, after) = self.init(nested, behind)?;
        Ok((Some(init), after))
    }

    /// The members of a group behind its opening brace, up to the closing one.
    #[cycle(init)]
    fn members(&self, nested: u32, at: usize) -> Result<(Vec<Init>, usize), ParseErr>
        ensures { Gives (found (λ v. inits_from v.items) self.now) result (i.members (names self.now) most (expression (names self.now)) (i.init (names self.now) most (expression (names self.now)) nested) (rest self.now at)) }
    {
        let (first, behind) = self.init(nested, at)?;
        let mut members = Vec::new(self.alloc);
        members.push(first)?;
        let mut next = behind;
        for _turn in 0..self.left(behind) + 1 {
            let (member, after) = self.next_init(nested, next)?;
            let Some(init) = member else {
                return Ok((members, after));
            };
            members.push(init)?;
            next = after;
        }
        Err(self.refusal(at))
    }

    /// An initialiser in which fewer groups stand in one another than the number.
    #[cycle(init)]
    #[tactic(auto, unfolding(crate::specs::ReadInit::init))]
    fn init(&self, nested: u32, at: usize) -> Result<(Init, usize), ParseErr>
        ensures { Gives (found init_of self.now) result (i.init (names self.now) most (expression (names self.now)) nested (rest self.now at)) }
    {
        if nested == 0 {
            return Err(self.refusal(at));
        }
        if let Some(inside) = self.eat(OPEN_BRACE, at) {
            let (members, after) = self.members(nested - 1, inside)?;
            return self.group(self.line(at), members, after);
        }
        let (value, after) = self.expression(2, at)?;
        self.low_init(Init::Single(value), after)
    }

    /// An item that is no deeper than the greatest depth.
    fn low_item(&self, item: Item, at: usize) -> Result<(Item, usize), ParseErr>
        ensures { Gives (found item_of self.now) result (f.grown item_depth most (item_of item) (rest self.now at)) }
    {
        if item_exceeds(&item, MAX_DEPTH) {
            return Err(self.refusal(at));
        }
        Ok((item, at))
    }

    /// A declarator with its initialiser, from behind its `=` on.
    fn given(&self, declr: Declr, at: usize) -> Result<(Item, usize), ParseErr>
        ensures { Gives (found item_of self.now) result (i.given_by (names self.now) most (expression (names self.now)) (declr_of declr) (rest self.now at) (Some (rest self.now at))) }
    {
        let (init, after) = self.init(MAX_DEPTH, at)?;
        let item = Item {
            declr,
            init: Some(init),
        };
        self.low_item(item, after)
    }

    /// A declarator and its initialiser, if it has one.
    fn item(&self, at: usize) -> Result<(Item, usize), ParseErr>
        ensures { Gives (found item_of self.now) result (i.item (names self.now) most (expression (names self.now)) (rest self.now at)) }
    {
        let (declr, behind) = self.plain_declr(at)?;
        match self.eat(EQUALS, behind) {
            Some(after) => self.given(declr, after),
            None => self.low_item(Item { declr, init: None }, behind),
        }
    }

    /// Declarators with their initialisers, with commas between them.
    pub fn items(&self, at: usize) -> Result<(Vec<Item>, usize), ParseErr>
        ensures { Gives (found (λ v. map item_of v.items) self.now) result (separated (i.item (names self.now) most (expression (names self.now))) (length (rest self.now at)) (rest self.now at)) }
    {
        let mut items = Vec::new(self.alloc);
        let mut next = at;
        for _turn in 0..self.left(at) {
            let (item, behind) = self.item(next)?;
            items.push(item)?;
            match self.eat(COMMA, behind) {
                Some(after) => next = after,
                None => return Ok((items, behind)),
            }
        }
        Err(self.refusal(at))
    }

    /// Declarators without names of parameters, up to and with the semicolon behind them.
    pub fn ended_declrs(&self, at: usize) -> Result<(Vec<Declr>, usize), ParseErr>
        ensures read { Gives (found (λ v. map declr_of v.items) self.now) result (f.along (separated (r.plain_declr (names self.now) most (expression (names self.now))) (length (rest self.now at)) (rest self.now at)) (λ x. f.along (f.eat SEMICOLON x.1) (λ after. Some (x.0, after)))) }
        ensures within { IfOk result (λ x. x.1 ≤ length (tokens_of self.now.tokens.now)) }
    {
        let (declrs, end) = self.declrs(at)?;
        let after = self.expect(SEMICOLON, end)?;
        Ok((declrs, after))
    }

    /// Declarators with their initialisers, up to and with the semicolon behind them.
    pub fn ended_items(&self, at: usize) -> Result<(Vec<Item>, usize), ParseErr>
        ensures read { Gives (found (λ v. map item_of v.items) self.now) result (f.along (separated (i.item (names self.now) most (expression (names self.now))) (length (rest self.now at)) (rest self.now at)) (λ x. f.along (f.eat SEMICOLON x.1) (λ after. Some (x.0, after)))) }
        ensures within { IfOk result (λ x. x.1 ≤ length (tokens_of self.now.tokens.now)) }
    {
        let (items, end) = self.items(at)?;
        let after = self.expect(SEMICOLON, end)?;
        Ok((items, after))
    }
}
