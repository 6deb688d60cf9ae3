//! Laws of completion times, each on a function that does nothing.
ghost use Rattle.completion.specs.Completions.{CompletionTimesAreOne, WaysAreNoLonger};

/// Some rounds have one least time.
pub fn completion_times_are_one()
    ensures { CompletionTimesAreOne }
{}

/// No way of needs among some rounds is longer than the least time for them: so a way that takes just as long shows
/// that no schedule completes them sooner.
pub fn ways_are_no_longer()
    ensures { WaysAreNoLonger }
{}
