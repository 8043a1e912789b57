// A text falls into one list of tokens, or it is refused in one way.
ghost use Rattle.c_lex.specs.Laws.{FallsOnce, FallsOrBad, BadOnce, FallsAlways};

/// A text falls into at most one list of tokens with their lines.
pub fn falls_once()
    ensures law { FallsOnce }
{
    // The law is all that is promised.
}

/// No text that falls into tokens has a refusal.
pub fn falls_or_bad()
    ensures law { FallsOrBad }
{
    // The law is all that is promised.
}

/// A text has at most one refusal, want of memory aside: its kind and its line are determined.
pub fn bad_once()
    ensures law { BadOnce }
{
    // The law is all that is promised.
}

/// Each text falls into tokens or has a refusal.
pub fn falls_always()
    ensures law { FallsAlways }
{
    // The law is all that is promised.
}
