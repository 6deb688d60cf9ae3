//! Laws of self-timed execution after a shape that comes again, each on a function that does nothing.
ghost use Rattle.sd_base.specs.Futures.{EqualFutures, LoopRate, OneRate, WholeRounds};

/// Where the shape of self-timed execution comes again, all that follows comes again too, as much later
/// and with as many more firings (Ghamarian et al. 2006). Up to an event moment these are whole rounds.
pub fn equal_shapes_have_equal_futures()
    ensures futures { EqualFutures }
    ensures rounds { WholeRounds }
{}

/// The firings round a loop give the rate of the net: no admissible schedule fires more often in the long
/// run, and self-timed execution no less often. A net has no two rates.
pub fn loops_give_the_rate()
    ensures table { LoopRate }
    ensures one { OneRate }
{}
