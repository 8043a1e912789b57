//! Computed rows of the definitions of C: what the grammar, the rules, the typing function and the source machine give for
//! small programs, as equations that the checker computes.
//!
//! The equations stand in the files of proofs; each is computed where the crate is proved.
#![tactic(auto)]

ghost use Rattle.c_rows.specs.Listed.{WordsAreListed};

/// The numbers of words, marks and operators are their places in the lists of the language.
pub fn words_are_listed()
    ensures law { WordsAreListed }
{
    // The law is all that is promised.
}
