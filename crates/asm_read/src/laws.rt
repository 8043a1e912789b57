// The laws of reading, over the definitions that the contracts of `print` and `read` name.
ghost use Rattle.asm_read.specs.Laws.{
  GrammarIsRead,
  LinesAreFew,
  LinesHaveTokens,
  OnlyNormalIsRead,
  OthersLeave,
  PrintedIsRead,
};

/// Each line has one list of tokens.
pub fn lines_have_tokens()
    ensures law { LinesHaveTokens }
{
    // The law is all that is promised.
}

/// Reading what is printed of normal items gives these items.
pub fn read_undoes_print()
    ensures law { PrintedIsRead }
{
    // The law is all that is promised.
}

/// Only normal items are read.
pub fn only_normal_items()
    ensures law { OnlyNormalIsRead }
{
    // The law is all that is promised.
}

/// A text is read exactly where its statements are items and whole groups, one behind the other.
pub fn grammar_is_read()
    ensures law { GrammarIsRead }
{
    // The law is all that is promised.
}

/// The line after [`crate::AsmErr::NotAsm`] is that of the first label or statement behind which no text
/// goes on, and where there is none, that of the `.def` that isn't closed.
pub fn others_leave()
    ensures law { OthersLeave }
{
    // The law is all that is promised.
}

/// A text has at most one line more than bytes, which meets the condition of [`crate::read`].
pub fn lines_are_few()
    ensures law { LinesAreFew }
{
    // The law is all that is promised.
}
