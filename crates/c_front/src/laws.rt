// The law of what the front end answers.
ghost use Rattle.c_front.specs.Laws.{OneAnswer};

/// Texts make a program, or they are refused in one way.
pub fn one_answer()
    ensures law { OneAnswer }
{
    // The law is all that is promised.
}
