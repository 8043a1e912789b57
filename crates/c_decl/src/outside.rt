// Declarations outside of blocks, and the heads of functions.
ghost use Rattle.std.specs.Prelude.{◌≡◌, ◌≤◌, IfOk, length, map, true, Some, None};
ghost use Rattle.c_tree.specs.TreeOf.{declr_of, file_specs_of, item_of, part_of, types_of};
ghost use Rattle.c_tree.specs.TreeUnit as u;
ghost use Rattle.c_grammar.specs.Reads.{most};
ghost use Rattle.c_type.specs.Names.{pick};
ghost use Rattle.c_lex.specs.Shown.{tokens_of};
ghost use Rattle.c_expr.specs.Front as f;
ghost use Rattle.c_decl.specs.Answers.{Gives, found, names, rest};
ghost use Rattle.c_decl.specs.Expression.{expression};
ghost use Rattle.c_decl.specs.HeadOf.{head_of, outside_of};
ghost use Rattle.c_decl.specs.Named.{declares_function as declares_function_lem};
ghost use Rattle.c_decl.specs.ReadDecl as e;
ghost use Rattle.c_decl.specs.WordsOf.{found_of};

use crate::depth::{
    MAX_DEPTH, declrs_exceed, head_exceeds, items_exceed, optional_types_exceed, tag_exceeds,
};
use crate::marks::{COMMA, EQUALS, SEMICOLON};
use crate::names::declares_function;
use crate::reader::Reader;
use crate::types::{file_specs, head_specs, only_tag, typedef_types};
use crate::words::Words;
use crate::{FuncHead, Head};
use c_expr::ParseErr;
use c_lex::{Tok, Token};
use c_tree::{Declr, Ext, FileSpecs, Item, Types};

impl Reader<'_> {
    /// Whether the declarator of an object ends before a place, and none of a function.
    fn is_item(&self, at: usize) -> bool
        ensures { result ≡ e.is_item (rest self.now at) }
    {
        match self.token(at) {
            Some(
                Token {
                    kind: Tok::Mark(mark),
                    ..
                },
            ) => *mark == EQUALS || *mark == COMMA || *mark == SEMICOLON,
            _ => false,
        }
    }

    /// A tag alone, behind its semicolon.
    fn tag_only(&self, line: u32, words: Words, at: usize) -> Result<(Head, usize), ParseErr>
        requires within { at ≤ length (tokens_of self.now.tokens.now) }
        ensures read { Gives (found outside_of self.now) result (e.whole_at (e.tag_only_by (names self.now) most (expression (names self.now)) line (e.only_tag (found_of words)) (rest self.now at))) }
        ensures within { IfOk result (λ x. x.1 ≤ length (tokens_of self.now.tokens.now)) }
    {
        let Some(tag) = only_tag(words) else {
            return Err(self.refusal(at));
        };
        if tag_exceeds(&tag, MAX_DEPTH - 1) {
            return Err(self.refusal(at));
        }
        Ok((Head::Whole(Ext::TagOnly(line, tag)), at))
    }

    /// The type of a typedef by its words.
    fn typedef_specs(&self, words: Words, at: usize) -> Result<Option<Types>, ParseErr>
        ensures { Gives (part_of types_of) result (e.typedef_types (found_of words)) }
    {
        match typedef_types(self.alloc, words)? {
            Some(types) => Ok(types),
            None => Err(self.refusal(at)),
        }
    }

    /// A typedef that is no deeper than the greatest depth.
    fn low_typedef(
        &self,
        line: u32,
        types: Option<Types>,
        declrs: Vec<Declr>,
        at: usize,
    ) -> Result<(Head, usize), ParseErr>
        ensures read { Gives (found outside_of self.now) result (e.whole_at (f.grown u.ext_depth most (u.typedef line (part_of types_of types) (map declr_of declrs.items)) (rest self.now at))) }
        ensures place { IfOk result (λ x. x.1 ≡ at) }
    {
        if optional_types_exceed(&types, MAX_DEPTH - 1) || declrs_exceed(&declrs, MAX_DEPTH - 1) {
            return Err(self.refusal(at));
        }
        Ok((Head::Whole(Ext::Typedef(line, types, declrs)), at))
    }

    /// The declarators of a typedef behind its type.
    fn typedef_names(
        &self,
        line: u32,
        types: Option<Types>,
        at: usize,
    ) -> Result<(Head, usize), ParseErr>
        ensures read { Gives (found outside_of self.now) result (e.whole_at (e.typedef_by (names self.now) most (expression (names self.now)) line (Some (part_of types_of types)) (rest self.now at))) }
        ensures within { IfOk result (λ x. x.1 ≤ length (tokens_of self.now.tokens.now)) }
    {
        let (declrs, after) = self.ended_declrs(at)?;
        self.low_typedef(line, types, declrs, after)
    }

    /// A typedef behind its words.
    fn typedef(&self, line: u32, words: Words, at: usize) -> Result<(Head, usize), ParseErr>
        ensures read { Gives (found outside_of self.now) result (e.whole_at (e.typedef_by (names self.now) most (expression (names self.now)) line (e.typedef_types (found_of words)) (rest self.now at))) }
        ensures within { IfOk result (λ x. x.1 ≤ length (tokens_of self.now.tokens.now)) }
    {
        let types = self.typedef_specs(words, at)?;
        self.typedef_names(line, types, at)
    }

    /// What the words of objects say.
    fn object_specs(&self, words: Words, at: usize) -> Result<FileSpecs, ParseErr>
        ensures { Gives file_specs_of result (e.file_specs (found_of words)) }
    {
        match file_specs(self.alloc, words)? {
            Some(specs) => Ok(specs),
            None => Err(self.refusal(at)),
        }
    }

    /// A declaration of objects that is no deeper than the greatest depth.
    fn low_object(
        &self,
        line: u32,
        specs: FileSpecs,
        items: Vec<Item>,
        at: usize,
    ) -> Result<(Head, usize), ParseErr>
        ensures read { Gives (found outside_of self.now) result (e.whole_at (f.grown u.ext_depth most (u.object line (file_specs_of specs) (map item_of items.items)) (rest self.now at))) }
        ensures place { IfOk result (λ x. x.1 ≡ at) }
    {
        if optional_types_exceed(&specs.types, MAX_DEPTH - 1)
            || items_exceed(&items, MAX_DEPTH - 1)
        {
            return Err(self.refusal(at));
        }
        Ok((Head::Whole(Ext::Object(line, specs, items)), at))
    }

    /// The items of a declaration of objects.
    fn object_items(
        &self,
        line: u32,
        specs: FileSpecs,
        at: usize,
    ) -> Result<(Head, usize), ParseErr>
        ensures read { Gives (found outside_of self.now) result (e.whole_at (e.object_by (names self.now) most (expression (names self.now)) line (Some (file_specs_of specs)) (rest self.now at))) }
        ensures within { IfOk result (λ x. x.1 ≤ length (tokens_of self.now.tokens.now)) }
    {
        let (items, after) = self.ended_items(at)?;
        self.low_object(line, specs, items, after)
    }

    /// A declaration of objects behind its words.
    fn object(&self, line: u32, words: Words, at: usize) -> Result<(Head, usize), ParseErr>
        ensures read { Gives (found outside_of self.now) result (e.whole_at (e.object_by (names self.now) most (expression (names self.now)) line (e.file_specs (found_of words)) (rest self.now at))) }
        ensures within { IfOk result (λ x. x.1 ≤ length (tokens_of self.now.tokens.now)) }
    {
        let specs = self.object_specs(words, at)?;
        self.object_items(line, specs, at)
    }

    /// What the words of a function say, where the declarator declares one.
    fn function_specs(
        &self,
        words: Words,
        declr: &Declr,
        at: usize,
    ) -> Result<Option<FileSpecs>, ParseErr>
        ensures { Gives (part_of file_specs_of) result (pick (declares_function_lem (declr_of declr.now)) (e.head_specs (found_of words)) None) }
    {
        if !declares_function(declr) {
            return Err(self.refusal(at));
        }
        match head_specs(self.alloc, words)? {
            Some(specs) => Ok(specs),
            None => Err(self.refusal(at)),
        }
    }

    /// The head of a function that is no deeper than the greatest depth.
    fn low_head(&self, head: FuncHead, at: usize) -> Result<(Head, usize), ParseErr>
        ensures read { Gives (found outside_of self.now) result (e.head_at (f.grown u.head_depth most (head_of head) (rest self.now at))) }
        ensures place { IfOk result (λ x. x.1 ≡ at) }
    {
        if head_exceeds(&head, MAX_DEPTH) {
            return Err(self.refusal(at));
        }
        Ok((Head::Func(head), at))
    }

    /// The declarations of parameters behind the declarator of a function, up to its block.
    fn head_pars(
        &self,
        line: u32,
        specs: Option<FileSpecs>,
        declr: Declr,
        at: usize,
    ) -> Result<(Head, usize), ParseErr>
        ensures read { Gives (found outside_of self.now) result (e.head_at (e.head_by (names self.now) most (expression (names self.now)) line (Some (part_of file_specs_of specs)) (declr_of declr) (rest self.now at))) }
        ensures within { IfOk result (λ x. x.1 ≤ length (tokens_of self.now.tokens.now)) }
    {
        let (params, after) = self.pars(at)?;
        let head = FuncHead {
            line,
            specs,
            declr,
            params,
        };
        self.low_head(head, after)
    }

    /// A function behind its words and its declarator, up to its block.
    fn head(
        &self,
        line: u32,
        words: Words,
        declr: Declr,
        at: usize,
    ) -> Result<(Head, usize), ParseErr>
        ensures read { Gives (found outside_of self.now) result (e.head_at (e.head_by (names self.now) most (expression (names self.now)) line (pick (declares_function_lem (declr_of declr)) (e.head_specs (found_of words)) None) (declr_of declr) (rest self.now at))) }
        ensures within { IfOk result (λ x. x.1 ≤ length (tokens_of self.now.tokens.now)) }
    {
        let specs = self.function_specs(words, &declr, at)?;
        self.head_pars(line, specs, declr, at)
    }

    /// Objects or a function, behind the words.
    fn declared(&self, line: u32, words: Words, at: usize) -> Result<(Head, usize), ParseErr>
        ensures read { Gives (found outside_of self.now) result (e.typed_by (names self.now) most (expression (names self.now)) line (found_of words) (rest self.now at) true) }
        ensures within { IfOk result (λ x. x.1 ≤ length (tokens_of self.now.tokens.now)) }
    {
        let (declr, after) = self.loose_declr(at)?;
        if self.is_item(after) {
            return self.object(line, words, at);
        }
        self.head(line, words, declr, after)
    }

    /// A declaration up to and with its semicolon, or a function up to its block.
    pub fn outside(&self, at: usize) -> Result<(Head, usize), ParseErr>
        ensures read { Gives (found outside_of self.now) result (e.outside (names self.now) most (expression (names self.now)) (rest self.now at)) }
        ensures within { IfOk result (λ x. x.1 ≤ length (tokens_of self.now.tokens.now)) }
    {
        let line = self.line(at);
        let (words, behind) = self.file_words(at)?;
        if let Some(after) = self.eat(SEMICOLON, behind) {
            return self.tag_only(line, words, after);
        }
        if words.typedefs != 0 {
            return self.typedef(line, words, behind);
        }
        self.declared(line, words, behind)
    }
}
