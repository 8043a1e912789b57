// A reader of declarations.
use c_expr::Typedefs;
use c_lex::Tokens;
use std::alloc::Global;

/// A reader of the declarations among tokens, in which these are the typedef names.
#[derive(Drop)]
pub struct Reader<'a> {
    pub alloc: Global,
    pub tokens: &'a Tokens,
    pub defs: &'a Typedefs,
}
