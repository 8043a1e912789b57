// Laws of runs of the source machine.
ghost use Rattle.c_run.specs.Laws.{EndsAlike, Halts, HasFuel, StopsAt};

/// A run with stop number n never wants for fuel: each call of a body and each round of a loop begins a turn.
#[tactic(auto, using(crate::proofs::LaterRun::has_fuel))]
pub fn fuel_is_enough()
    ensures law { HasFuel }
{
    // The law is all that is promised.
}

/// Each run ends by itself, or is stopped.
pub fn each_run_halts()
    ensures law { Halts }
{
    // The law is all that is promised.
}

/// A run that is stopped at turn n has begun n turns.
#[tactic(auto, using(crate::proofs::LaterRun::stops_at))]
pub fn stop_is_exact()
    ensures law { StopsAt }
{
    // The law is all that is promised.
}

/// A run that ends before its stop number ends in the same way, in the same state, under every later one.
#[tactic(auto, using(crate::proofs::LaterRun::ends_alike))]
pub fn end_is_final()
    ensures law { EndsAlike }
{
    // The law is all that is promised.
}
