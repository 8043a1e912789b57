// Laws of the code that is made for the small form.
ghost use Rattle.gen_small.specs.Laws.{GhostsCanGo, ExpressionsReach, StatementsReach, MainsReach, ExitsAlike, StopsAlike, BytesStand};
ghost use Rattle.gen_small.specs.Whole.{WholeEnds, WholeStops};

/// The machine with what the proof follows beside it goes as the machine alone.
pub fn ghosts_can_go()
    ensures law { GhostsCanGo }
{
    // The law is all that is promised.
}

/// The code of an expression gives its value, wherever it stands.
pub fn expressions_reach()
    ensures law { ExpressionsReach }
{
    // The law is all that is promised.
}

/// The code of statements runs them turn by turn, wherever it stands.
pub fn statements_reach()
    ensures law { StatementsReach }
{
    // The law is all that is promised.
}

/// The code of a main of the small form runs as the source machine does, up to its exit.
pub fn mains_reach()
    ensures law { MainsReach }
{
    // The law is all that is promised.
}

/// Where a run of the source machine ends, the process exits with its status and has its output.
pub fn end_is_exit()
    ensures law { ExitsAlike }
{
    // The law is all that is promised.
}

/// Where a run of the source machine is stopped at a turn, the process comes to that turn with the same output.
pub fn stop_is_turn()
    ensures law { StopsAlike }
{
    // The law is all that is promised.
}

/// Code stands where its bytes are.
pub fn bytes_stand()
    ensures law { BytesStand }
{
    // The law is all that is promised.
}

/// Where a run of a program of the small form ends, the process over its text exits with the run's
/// status and has its output.
pub fn whole_ends()
    ensures law { WholeEnds }
{
    // The law is all that is promised.
}

/// Where such a run is stopped at a turn, the process comes to that turn with the run's output.
pub fn whole_stops()
    ensures law { WholeStops }
{
    // The law is all that is promised.
}
