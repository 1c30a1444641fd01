//! The law of the ways at a head.
ghost use Rattle.ld_reduce.specs.Laws.{WaysOnce};

/// Each way has at most one end, at one number of steps; so as a task it has at most one answer.
pub fn ways_once()
    ensures { WaysOnce }
{}
